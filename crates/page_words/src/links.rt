//! What the neighbour tuple of a node says to a change of the node's slots.

ghost use Rattle.std.specs.Prelude.{◌≡◌, ◌≤◌, ◌<◌, ◌+◌, ◌*◌, ◌-◌, slice_get, length, Option, Some};
ghost use Rattle.std.specs.Option.{option_copied};
ghost use Rattle.vec_names.specs.declared.tid.Tid.{Tid as Place};
ghost use Rattle.vec_names.specs.Params.{IsInRange};
ghost use Rattle.vec_tuples.specs.declared.links.Links.{Links};
ghost use Rattle.vec_tuples.specs.Spelling.{links_bytes};
ghost use Rattle.vec_tuples.specs.Reading.{links};
ghost use Rattle.page_redo.specs.PageTuples.{in_whole};
ghost use Rattle.graph_search.specs.Deeds.{is_still, is_same_slot, slot_in};
ghost use Rattle.vec_steps.specs.Telling.{clear_told, link_told};
ghost use Rattle.page_sets.specs.Telling.{read_on};
ghost use Rattle.page_words.specs.Deciding.{links_clear, links_link, made_by_word, made_slot};

use crate::making::Making;
use page_bytes::Page;
use page_redo::links_head_of;
use vec_names::{Params, Tid};
use vec_steps::{Told, Word};
use vec_tuples::slot;

/// A slot of a node that is to change: the neighbour tuple's offset, the node's level and version as they were read, and the
/// layer and the slot in it, which was read as `held`.
#[derive(Clone, Copy)]
pub struct SlotAsk {
    pub off: u16,
    pub level: u8,
    pub version: u8,
    pub layer: u8,
    pub slot: u16,
    pub held: Option<Tid>,
}

/// Whether the neighbour tuple is as it was read: `Stale` where none stands there, or it is deleted or of another version.
pub fn relist(
    page: Option<&Page>,
    params: &Params,
    off: u16,
    version: u8,
    told: &mut Told,
) -> Making
    requires { IsInRange params.now }
    ensures told { clear_told told.new.word ≡ links_clear (read_on (links params.now) (option_copied page.entry) off) version }
    ensures made { result ≡ made_by_word told.new.word }
    ensures at { told.new.at ≡ told.old.at }
    ensures bits { told.new.bits ≡ told.old.bits }
{
    told.word = Word::Stale;
    let Some(page) = page else {
        return Making::Nothing;
    };
    let Some(item) = page.item(off) else {
        return Making::Nothing;
    };
    let Some(head) = links_head_of(item, params) else {
        return Making::Nothing;
    };
    if head.deleted || head.version != version {
        return Making::Nothing;
    }
    told.word = Word::Done;
    Making::Asked
}

/// Whether a slot is as it was read: `Stale` where the neighbour tuple is not, and `Changed` where the slot holds another place,
/// or the tuple has no such slot.
pub fn link(page: Option<&Page>, params: &Params, ask: SlotAsk, told: &mut Told) -> Making
    requires { IsInRange params.now }
    ensures told { link_told told.new.word
        ≡ links_link params.now.m (read_on (links params.now) (option_copied page.entry) ask.off)
        ask.level ask.version ask.layer ask.slot ask.held }
    ensures made { result ≡ made_slot told.new.word (slot_in params.now.m ask.level ask.layer ask.slot) }
    ensures at { told.new.at ≡ told.old.at }
    ensures bits { told.new.bits ≡ told.old.bits }
{
    told.word = Word::Stale;
    let Some(page) = page else {
        return Making::Nothing;
    };
    let Some(item) = page.item(ask.off) else {
        return Making::Nothing;
    };
    link_item(item, params, ask, told)
}

fn link_item(item: &[u8], params: &Params, ask: SlotAsk, told: &mut Told) -> Making
    requires { IsInRange params.now }
    ensures told { link_told told.new.word
        ≡ links_link params.now.m (in_whole (links params.now item.now)) ask.level ask.version ask.layer ask.slot ask.held }
    ensures made { result ≡ made_slot told.new.word (slot_in params.now.m ask.level ask.layer ask.slot) }
    ensures at { told.new.at ≡ told.old.at }
    ensures bits { told.new.bits ≡ told.old.bits }
{
    let Some(head) = links_head_of(item, params) else {
        told.word = Word::Stale;
        return Making::Nothing;
    };
    if head.deleted || head.version != ask.version {
        told.word = Word::Stale;
        return Making::Nothing;
    }
    let number = number(params.m, ask);
    if number >= u32::from(head.count) || !is_held(item, number as u16, ask.held) {
        told.word = Word::Changed;
        return Making::Nothing;
    }
    told.word = Word::Done;
    Making::Slot(number as u16)
}

/// The number of the slot among all slots of the node.
fn number(m: u16, ask: SlotAsk) -> u32
    requires { m ≤ 100 }
    ensures { result ≡ slot_in m ask.level ask.layer ask.slot }
{
    u32::from(ask.level.saturating_sub(ask.layer)) * u32::from(m) + u32::from(ask.slot)
}

/// Whether the slot of this number holds this.
fn is_held(item: &[u8], at: u16, held: Option<Tid>) -> bool
    requires { (l : Links) × (item.now ≡ links_bytes l) × (at < length l.tids) }
    ensures { (l : Links) → item.now ≡ links_bytes l → result ≡ is_still (slice_get l.tids at) held }
{
    is_same(slot(item, at), held)
}

fn is_same(now: Option<Tid>, held: Option<Tid>) -> bool
    ensures { result ≡ is_same_slot now held }
{
    match now {
        None => held.is_none(),
        Some(a) => match held {
            None => false,
            Some(b) => a == b,
        },
    }
}
