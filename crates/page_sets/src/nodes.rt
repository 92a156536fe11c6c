//! Looks at a node.
#![tactic(auto, using(crate::proofs::ElementTold::no_element, crate::proofs::ElementTold::gone_element, crate::proofs::ElementTold::found_element))]

ghost use Rattle.std.specs.Prelude.{◌≡◌, ◌≤◌, List, Bool, length, Some};
ghost use Rattle.std.specs.Option.{option_copied, option_map};
ghost use Rattle.vec_names.specs.Params.{IsInRange};
ghost use Rattle.vec_tuples.specs.declared.element.Element.{Element};
ghost use Rattle.vec_tuples.specs.Spelling.{HasValue, IsElement, element_bytes, head_of_element};
ghost use Rattle.vec_tuples.specs.Reading.{element};
ghost use Rattle.page_redo.specs.PageTuples.{in_whole};
ghost use Rattle.graph_search.specs.Reads.{OfNode, is_version};
ghost use Rattle.vec_steps.specs.Telling.{node_told};
ghost use Rattle.page_sets.specs.Telling.{element_answer, read_on};

use bit_code::Bits;
use page_bytes::Page;
use page_redo::head_of;
use vec_names::Params;
use vec_steps::{Told, Word};
use vec_tuples::{ElementHead, packed};

/// Tells the element at an offset of a page, if one stands there that is not deleted, reaches the layer and is of the version.
pub fn tell_node(
    page: Option<&Page>,
    params: &Params,
    off: u16,
    layer: u8,
    version: Option<u8>,
    told: &mut Told,
)
    requires params { IsInRange params.now }
    requires bits { length told.old.bits ≡ params.now.bits }
    ensures told { node_told told.new.word told.new.list_at told.new
        ≡ element_answer (read_on (element params.now) (option_copied page.entry) off) layer version }
    ensures at { told.new.at ≡ told.old.at }
    ensures bits { length told.new.bits ≡ length told.old.bits }
{
    let Some(page) = page else {
        told.word = Word::Gone;
        return;
    };
    let Some(item) = page.item(off) else {
        told.word = Word::Gone;
        return;
    };
    tell_element(item, params, layer, version, told);
}

fn tell_element(item: &[u8], params: &Params, layer: u8, version: Option<u8>, told: &mut Told)
    requires params { IsInRange params.now }
    requires bits { length told.old.bits ≡ params.now.bits }
    ensures told { node_told told.new.word told.new.list_at told.new
        ≡ element_answer (in_whole (element params.now item.now)) layer version }
    ensures at { told.new.at ≡ told.old.at }
    ensures bits { length told.new.bits ≡ length told.old.bits }
{
    let Some(head) = head_of(item, params) else {
        told.word = Word::Gone;
        return;
    };
    if head.deleted || head.level < layer || !is_wanted(version, head.version) {
        told.word = Word::Gone;
        return;
    }
    tell_found(item, params, head, told);
}

fn is_wanted(version: Option<u8>, here: u8) -> bool
    ensures { result ≡ is_version version here }
{
    match version {
        None => true,
        Some(wanted) => wanted == here,
    }
}

fn tell_found(item: &[u8], params: &Params, head: ElementHead, told: &mut Told)
    requires params { IsInRange params.now }
    requires bits { length told.old.bits ≡ params.now.bits }
    requires head { Some head ≡ option_map head_of_element (in_whole (element params.now item.now)) }
    requires spelled { (e : Element) → in_whole (element params.now item.now) ≡ Some e → IsElement params.now e
        × (item.now ≡ element_bytes e) }
    ensures told { (e : Element) → in_whole (element params.now item.now) ≡ Some e
        → node_told told.new.word told.new.list_at told.new ≡ OfNode e.level e.version e.list_at e.ids.items e.bits }
    ensures at { told.new.at ≡ told.old.at }
    ensures bits { length told.new.bits ≡ length told.old.bits }
{
    refill_from(item, &mut told.bits);
    told.word = Word::Node;
    told.level = head.level;
    told.version = head.version;
    told.list_at = Some(head.list_at);
    told.ids = head.ids;
}

/// Takes the value of the tuple that these bytes spell.
pub fn refill_from(item: &[u8], bits: &mut Bits)
    requires { (value : List Bool) × HasValue item.now value × (length value ≡ length bits.old) }
    ensures { (value : List Bool) → HasValue item.now value → length value ≡ length bits.old → bits.new ≡ value }
{
    bits.refill(packed(item));
}
