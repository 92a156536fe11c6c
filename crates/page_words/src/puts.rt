//! What pages say to a new node.

ghost use Rattle.std.specs.Prelude.{◌≡◌, ◌≤◌, ◌+◌, nat_le, Option, Some, None, if◌then◌else◌};
ghost use Rattle.std.specs.Option.{option_copied, option_and_then};
ghost use Rattle.index_sizes.specs.declared.limits.TheConstants.{MOST_BLOCKS as MostBlocks};
ghost use Rattle.vec_names.specs.Params.{IsInRange};
ghost use Rattle.page_bytes.specs.Content.{Content};
ghost use Rattle.vec_graph.specs.declared.graph.Graph.{Graph};
ghost use Rattle.vec_graph.specs.Places.{new_blocks, new_place};
ghost use Rattle.vec_steps.specs.Telling.{place_told};
ghost use Rattle.page_words.specs.Placing.{place_with};
ghost use Rattle.page_words.specs.Deciding.{made_at};

use crate::making::Making;
use crate::places::{PlaceAsk, new_blocks, new_place, place_on};
use index_sizes::MOST_BLOCKS;
use page_bytes::Page;
use vec_graph::Place;
use vec_names::Params;
use vec_steps::{Told, Word};

/// Whether a node can be put on the page of a block: `NoRoom` where it has no place for it.
pub fn put_on(
    page: Option<&Page>,
    behind: Option<&Page>,
    params: &Params,
    ask: PlaceAsk,
    told: &mut Told,
) -> Making
    requires { IsInRange params.now }
    ensures told { place_told told.new.word told.new.tid told.new.list_at told.new.version
        ≡ option_and_then (λ (c : Content). place_with params.now ask.block ask.level c (option_copied behind.entry)) (option_copied page.entry) }
    ensures made { result ≡ made_at (place_told told.new.word told.new.tid told.new.list_at told.new.version) }
    ensures at { told.new.at ≡ told.old.at }
    ensures bits { told.new.bits ≡ told.old.bits }
{
    let Some(page) = page else {
        told.word = Word::NoRoom;
        return Making::Nothing;
    };
    tell_place(place_on(page, behind, params, ask), Word::NoRoom, told)
}

/// Whether a node can be put on new blocks: `Full` where the index may not have so many more.
pub fn put_new(params: &Params, blocks: u32, level: u8, told: &mut Told) -> Making
    requires { IsInRange params.now }
    ensures told { (g : Graph) → g.params ≡ params.now → g.blocks ≡ blocks
        → place_told told.new.word told.new.tid told.new.list_at told.new.version
        ≡ (if nat_le (g.blocks + new_blocks g level) MostBlocks then new_place g level else None) }
    ensures counts { (g : Graph) → g.params ≡ params.now → (told.new.blocks ≡ blocks) × (told.new.need ≡ new_blocks g level) }
    ensures made { result ≡ made_at (place_told told.new.word told.new.tid told.new.list_at told.new.version) }
    ensures at { told.new.at ≡ told.old.at }
    ensures bits { told.new.bits ≡ told.old.bits }
{
    let need = new_blocks(params, level);
    told.blocks = blocks;
    told.need = need;
    if u64::from(blocks) + u64::from(need) > u64::from(MOST_BLOCKS) {
        told.word = Word::Full;
        return Making::Nothing;
    }
    tell_place(new_place(params, blocks, level), Word::Full, told)
}

/// Tells a place, or this word where there is none.
fn tell_place(place: Option<Place>, otherwise: Word, told: &mut Told) -> Making
    requires { place_told otherwise told.old.tid told.old.list_at told.old.version ≡ None }
    ensures told { place_told told.new.word told.new.tid told.new.list_at told.new.version ≡ place }
    ensures made { result ≡ made_at place }
    ensures counts { (told.new.blocks ≡ told.old.blocks) × (told.new.need ≡ told.old.need) }
    ensures at { told.new.at ≡ told.old.at }
    ensures bits { told.new.bits ≡ told.old.bits }
{
    match place {
        Some(place) => {
            told.word = Word::Done;
            told.tid = Some(place.at);
            told.list_at = Some(place.list_at);
            told.version = place.version;
            Making::At(place)
        }
        None => {
            told.word = otherwise;
            Making::Nothing
        }
    }
}
