//! What the element of a node says to a change of the node.

ghost use Rattle.std.specs.Prelude.{◌≡◌, ◌≤◌, length};
ghost use Rattle.std.specs.Option.{option_copied, option_map};
ghost use Rattle.list_values.specs.Masks.{kept};
ghost use Rattle.vec_names.specs.Params.{IsInRange};
ghost use Rattle.graph_search.specs.Deeds.{join_reply};
ghost use Rattle.vec_steps.specs.Doing.{clear_reply, drop_reply};
ghost use Rattle.vec_steps.specs.Telling.{join_told, clear_told, drop_told};
ghost use Rattle.page_words.specs.Deciding.{head_node, head_read, made_by_word};

use crate::making::Making;
use index_sizes::MOST_IDS;
use page_bytes::Page;
use page_redo::head_of;
use vec_names::{HeapId, Params};
use vec_steps::{Told, Word};
use vec_tuples::ElementHead;

/// The head of the element at an offset of a page, if there is a page and one stands there.
pub fn head_on(page: Option<&Page>, params: &Params, off: u16) -> Option<ElementHead>
    requires { IsInRange params.now }
    ensures { result ≡ head_read params.now (option_copied page.entry) off }
{
    match page {
        Some(page) => match page.item(off) {
            Some(item) => head_of(item, params),
            None => None,
        },
        None => None,
    }
}

/// Whether an element takes one more row: `Stale` where none stands there, or it is deleted or of another version; `NotJoined`
/// where it has no row or as many as it may.
pub fn join(head: Option<ElementHead>, version: u8, told: &mut Told) -> Making
    ensures told { join_told told.new.word ≡ join_reply (option_map head_node head) version }
    ensures made { result ≡ made_by_word told.new.word }
    ensures at { told.new.at ≡ told.old.at }
    ensures bits { told.new.bits ≡ told.old.bits }
{
    let Some(head) = head else {
        told.word = Word::Stale;
        return Making::Nothing;
    };
    if head.deleted || head.version != version {
        told.word = Word::Stale;
        return Making::Nothing;
    }
    if head.ids.len() < 1 || head.ids.len() >= MOST_IDS {
        told.word = Word::NotJoined;
        return Making::Nothing;
    }
    told.word = Word::Done;
    Making::Asked
}

/// Whether an element is as it was read, and how many rows it has left without those that the mask names.
pub fn drop_rows(head: Option<ElementHead>, version: u8, gone: u16, told: &mut Told) -> Making
    ensures told { drop_told told.new.word told.new.left ≡ drop_reply (option_map head_node head) version gone }
    ensures made { result ≡ made_by_word told.new.word }
    ensures at { told.new.at ≡ told.old.at }
    ensures bits { told.new.bits ≡ told.old.bits }
{
    let Some(head) = head else {
        told.word = Word::Stale;
        return Making::Nothing;
    };
    if head.deleted || head.version != version {
        told.word = Word::Stale;
        return Making::Nothing;
    }
    told.word = Word::Done;
    told.left = count_left(gone, head.ids.as_slice());
    Making::Asked
}

/// How many rows a mask does not name.
fn count_left(gone: u16, ids: &[HeapId]) -> u8
    requires { length ids.now ≤ 10 }
    ensures { result ≡ length (kept gone ids.now) }
{
    let mut left = 0;
    let mut mask = gone;
    'ids: for _at in 0..ids.len() {
        left += (1 - mask % 2) as u8;
        mask /= 2;
    }
    left
}

/// Whether an element is as it was read: `Stale` where none stands there, or it is deleted or of another version.
pub fn mark(head: Option<ElementHead>, version: u8, told: &mut Told) -> Making
    ensures told { clear_told told.new.word ≡ clear_reply (option_map head_node head) version }
    ensures made { result ≡ made_by_word told.new.word }
    ensures at { told.new.at ≡ told.old.at }
    ensures bits { told.new.bits ≡ told.old.bits }
{
    let Some(head) = head else {
        told.word = Word::Stale;
        return Making::Nothing;
    };
    if head.deleted || head.version != version {
        told.word = Word::Stale;
        return Making::Nothing;
    }
    told.word = Word::Done;
    Making::Asked
}
