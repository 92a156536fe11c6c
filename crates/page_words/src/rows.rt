//! What a page of rows says to a row that is to come on it, or behind it.

ghost use Rattle.std.specs.Prelude.{◌≡◌, ◌≤◌, ℕ, Bool, List, nat_le, Option, Some, if◌then◌else◌};
ghost use Rattle.std.specs.Option.{option_copied};
ghost use Rattle.index_sizes.specs.declared.limits.TheConstants.{MOST_BITS};
ghost use Rattle.page_bytes.specs.Content.{Content, free_of};
ghost use Rattle.ivf_graph.specs.Graph.{row_need};
ghost use Rattle.vec_names.specs.declared.heap_id.HeapId.{HeapId};
ghost use Rattle.vec_steps.specs.declared.ask.Ask.TheVariants.{Extend};
ghost use Rattle.vec_steps.specs.Doing.{Placed, Came, HasNoRoom, Extends, extend_reply, placed_events};
ghost use Rattle.vec_steps.specs.Telling.{add_told, extend_told};
ghost use Rattle.page_sets.specs.Telling.{next_on};
ghost use Rattle.page_words.specs.Deciding.{made_by_word, events_of, page_add};

use crate::making::Making;
use index_sizes::{MOST_BLOCKS, entry_size, item_need};
use page_bytes::Page;
use vec_names::Tid;
use vec_steps::{Told, Word};

/// Whether a page has room for a row of a value of so many places; `NoRoom` with the block behind it.
pub fn add(page: Option<&Page>, places: u32, told: &mut Told) -> Making
    requires { places ≤ MOST_BITS }
    ensures told { add_told told.new.word told.new.next ≡ page_add (option_copied page.entry) places }
    ensures made { result ≡ made_by_word told.new.word }
    ensures at { told.new.at ≡ told.old.at }
    ensures bits { told.new.bits ≡ told.old.bits }
{
    told.word = Word::NoRoom;
    told.next = None;
    let Some(page) = page else {
        return Making::Nothing;
    };
    told.next = page.next();
    if item_need(entry_size(places)) > u64::from(page.free()) {
        return Making::Nothing;
    }
    told.word = Word::Done;
    Making::Asked
}

/// Whether a list can grow behind a page: `Changed` with the block behind it, `Full` where the index has as many blocks as it
/// may; else by the next of all blocks.
pub fn extend(page: Option<&Page>, blocks: u32, told: &mut Told) -> Making
    ensures told { extend_told told.new.word told.new.tid told.new.next ≡ extend_reply (next_on (option_copied page.entry)) blocks }
    ensures made { (list last : ℕ) (id : HeapId) (bits : List Bool) → placed_events (Extends list last id bits)
        (extend_told told.new.word told.new.tid told.new.next) ≡ events_of (Extend list last id bits) result }
    ensures at { told.new.at ≡ told.old.at }
    ensures bits { told.new.bits ≡ told.old.bits }
{
    let next = match page {
        Some(page) => page.next(),
        None => None,
    };
    told.next = next;
    if next.is_some() {
        told.word = Word::Changed;
        return Making::Nothing;
    }
    told.word = Word::Full;
    if blocks >= MOST_BLOCKS {
        return Making::Nothing;
    }
    let Some(at) = Tid::new(blocks, 1) else {
        return Making::Nothing;
    };
    told.tid = Some(at);
    told.word = Word::Done;
    Making::Behind(blocks)
}
