//! What the pages of an index say to a change.

ghost use Rattle.std.specs.Prelude.{◌≡◌, ◌≤◌, ℕ, List, All, length};
ghost use Rattle.index_sizes.specs.declared.limits.TheConstants.{MOST_BLOCKS as MostBlocks};
ghost use Rattle.vec_names.specs.Params.{IsInRange};
ghost use Rattle.page_bytes.specs.Content.{Content, IsPage};
ghost use Rattle.vec_graph.specs.declared.graph.Graph.{Graph};
ghost use Rattle.graph_pages.specs.Standing.{Stands};
ghost use Rattle.ivf_graph.specs.declared.graph.IvfGraph.{IvfGraph};
ghost use Rattle.ivf_pages.specs.Standing.{Stands as StandsForLists};
ghost use Rattle.vec_steps.specs.Index.{OfNodes, OfLists};
ghost use Rattle.vec_steps.specs.Doing.{Ended};
ghost use Rattle.vec_steps.specs.Telling.{step_of};
ghost use Rattle.vec_steps.specs.Calls.{made_by};
ghost use Rattle.page_sets.specs.Sets.{HasPages};
ghost use Rattle.page_words.specs.Deciding.{asked_of, events_of, MayChange, MayChangeLists, IsOfNodes, IsOfLists, SaysNow};

use crate::elements::{drop_rows, head_on, join, mark};
use crate::links::{SlotAsk, link, relist};
use crate::making::Making;
use crate::places::PlaceAsk;
use crate::puts::{put_new, put_on};
use crate::rows::{add, extend};
use page_sets::PageSet;
use vec_names::Params;
use vec_steps::{Ask, Told, Word};

/// Tells what the pages of an index say to a change that is asked for, and answers what becomes of it: `event_of` makes its event
/// of that. The set has the pages that are asked, the parameters and the number of blocks are the index's. It takes no memory, and
/// changes nothing but what is told. Asks of gates, of a vacuum's passes and of room are not of the pages, and neither are looks.
pub fn decide<P: PageSet>(
    params: &Params,
    pages: &P,
    blocks: u32,
    ask: &Ask,
    told: &mut Told,
) -> Making
    requires { IsInRange params.now }

    // What a graph for which the pages stand says to the change.
    ensures nodes { (all : List Content) (g : Graph) → length all ≤ MostBlocks → All IsPage all → Stands all g → g.params ≡ params.now
        → blocks ≡ length all → HasPages (P.held pages.now) all (asked_of ask.now) → IsOfNodes ask.now → MayChange g ask.now
        → SaysNow params.now (OfNodes g) (step_of ask.now told.new Ended) }

    // And what lists say to it.
    ensures lists { (all : List Content) (g : IvfGraph) → All IsPage all → StandsForLists params.now all g
        → blocks ≡ length all → HasPages (P.held pages.now) all (asked_of ask.now) → IsOfLists ask.now → MayChangeLists g ask.now
        → SaysNow params.now (OfLists g) (step_of ask.now told.new Ended) }

    // The step that was told makes just this event.
    ensures made { IsOfNodes ask.now → made_by params.now (step_of ask.now told.new Ended) ≡ events_of ask.now result }
    ensures made_lists { IsOfLists ask.now → made_by params.now (step_of ask.now told.new Ended) ≡ events_of ask.now result }
    ensures at { told.new.at ≡ told.old.at }
    ensures bits { told.new.bits ≡ told.old.bits }
{
    // One arm for each ask that changes pages.
    match ask {
        Ask::Put { block, node } => put_on(
            pages.page(*block),
            pages.page(block.saturating_add(1)),
            params,
            PlaceAsk {
                block: *block,
                level: node.level,
            },
            told,
        ),
        Ask::PutNew { node } => put_new(params, blocks, node.level, told),
        Ask::Join { at, version, .. } => {
            join(
                head_on(pages.page(at.block), params, at.off),
                *version,
                told,
            )
        }
        Ask::Link {
            list_at,
            level,
            version,
            layer,
            slot,
            held,
            ..
        } => {
            let slot = SlotAsk {
                off: list_at.off,
                level: *level,
                version: *version,
                layer: *layer,
                slot: *slot,
                held: *held,
            };
            link(pages.page(list_at.block), params, slot, told)
        }
        Ask::Relist {
            list_at,
            version,
            ..
        } => relist(
            pages.page(list_at.block),
            params,
            list_at.off,
            *version,
            told,
        ),
        Ask::Drop { at, version, gone } => drop_rows(
            head_on(pages.page(at.block), params, at.off),
            *version,
            *gone,
            told,
        ),
        Ask::Mark { at, version, .. } => {
            mark(
                head_on(pages.page(at.block), params, at.off),
                *version,
                told,
            )
        }
        Ask::Add { block, bits, .. } => add(pages.page(*block), bits.count(), told),
        Ask::Extend { last, .. } => extend(pages.page(*last), blocks, told),
        Ask::Entry { .. } | Ask::Hint { .. } | Ask::Cut { .. } | Ask::Aim { .. } => {
            told.word = Word::Done;
            Making::Asked
        }
        _ => Making::Nothing,
    }
}
