//! The rules of the blocks of an index, each decided.

ghost use Rattle.std.specs.Prelude.{◌≡◌, ◌&&◌, ◌==◌, List, length};
ghost use Rattle.std.specs.Bool.{beq};
ghost use Rattle.index_sizes.specs.Sizes.{slots_of_level};
ghost use Rattle.vec_names.specs.Params.{IsInRange};
ghost use Rattle.page_bytes.specs.Content.{Content};
ghost use Rattle.graph_pages.specs.Standing.{is_of_level, is_entry, is_root, pointers, is_node_item};
ghost use Rattle.graph_pages.specs.Decoding.{items_of, is_list_item_of, Tells};

use crate::decoded::{ElementItem, Item, ListItem, found};
use crate::list_pointers::{Named, is_named_once};
use crate::page_places::head_in;
use index_sizes::slots_of_level;
use page_bytes::Page;
use vec_names::{Listed, Mapped, Params, Tid};
use vec_tuples::{ElementHead, Meta};

// ---- block 0

/// Whether the hint is no more than the number of blocks, and an element of the stated level stands at the entry, if
/// one is given.
pub fn is_root(pages: &[Page], meta: &Meta) -> bool
    requires { IsInRange meta.now.params }
    ensures { result ≡ is_root pages.now meta.now }
{
    if meta.hint as usize > pages.len() {
        return false;
    }
    is_entry(pages, &meta.params, meta.entry, meta.level)
}

pub fn is_entry(pages: &[Page], params: &Params, entry: Option<Tid>, level: u8) -> bool
    requires { IsInRange params.now }
    ensures { result ≡ is_entry params.now pages.now entry level }
{
    match entry {
        Some(at) => is_of_level(level, head_in(pages, params, at)),
        None => true,
    }
}

fn is_of_level(level: u8, head: Option<ElementHead>) -> bool
    ensures { result ≡ is_of_level level head }
{
    match head {
        Some(head) => head.level == level,
        None => false,
    }
}

// ---- the other blocks

/// Whether an element with its list stands at the place, or the list of one element.
pub fn is_node_item(
    items: &Listed<Listed<Item>>,
    named: &Mapped<Named>,
    params: &Params,
    at: Tid,
) -> bool
    ensures { (pages : List Content) → items.now ≡ items_of params.now pages → Tells named.now (pointers params.now pages)
        → result ≡ is_node_item params.now pages at }
{
    match found(items, at) {
        Some(Item::Element(element)) => {
            is_list_item_of(params.m, element, found(items, element.list_at))
        }
        Some(Item::List(list)) => is_named_once(named, at) && list.below,
        Some(Item::Neither) => false,
        None => false,
    }
}

/// Whether the item is a neighbour tuple that has the slots of the element's level, its version and its deleted state.
fn is_list_item_of(m: u16, element: ElementItem, item: Option<Item>) -> bool
    ensures { result ≡ is_list_item_of m element item }
{
    match item {
        Some(Item::List(list)) => has_state_of(m, element, list),
        Some(Item::Element(_)) => false,
        Some(Item::Neither) => false,
        None => false,
    }
}

fn has_state_of(m: u16, element: ElementItem, list: ListItem) -> bool
    ensures { result ≡ (list.count == slots_of_level m element.level
        && (list.version == element.version && beq list.deleted element.deleted)) }
{
    if u64::from(list.count) != slots_of_level(m, element.level) {
        return false;
    }
    list.version == element.version && list.deleted == element.deleted
}
