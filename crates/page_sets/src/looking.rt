//! What the pages of an index tell.

ghost use Rattle.std.specs.Prelude.{◌≡◌, [], ◌∷◌, ◌≤◌, ℕ, List, All, length, OnOk, IfErr};
ghost use Rattle.vec_names.specs.Params.{IsInRange};
ghost use Rattle.page_bytes.specs.Content.{Content, IsPage};
ghost use Rattle.vec_graph.specs.declared.graph.Graph.{Graph};
ghost use Rattle.graph_pages.specs.Standing.{Stands};
ghost use Rattle.graph_search.specs.Reads.{AtMeta, OfMeta, answer_of};
ghost use Rattle.ivf_graph.specs.declared.graph.IvfGraph.{IvfGraph};
ghost use Rattle.ivf_pages.specs.Standing.{Stands as StandsForLists};
ghost use Rattle.vec_steps.specs.declared.fault.StepFault.TheVariants.{Memory};
ghost use Rattle.vec_steps.specs.Desks.{WantsMemory};
ghost use Rattle.page_sets.specs.Sets.{HasPages};
ghost use Rattle.page_sets.specs.Telling.{looked_at, MayLook, MayLookLists, TellsNodes, TellsLists};

use crate::centres::tell_centres;
use crate::nodes::tell_node;
use crate::page_nodes::tell_page;
use crate::page_set::PageSet;
use crate::rows::tell_rows;
use crate::slots::{LayerLook, tell_list};
use page_redo::meta_at;
use std::alloc::Global;
use vec_names::Params;
use vec_steps::{Ask, StepFault, Told, Word};

/// Tells what the pages of an index say to a look at a node, at the slots of one, at the nodes of a page, or at the centres or
/// the rows of a block. The set has the page that is looked at; the parameters are the index's. Any other ask is told nothing.
///
/// It is refused for want of memory alone; looks at a node and at slots need none. The position is left as it is.
pub fn look<P: PageSet>(
    alloc: Global,
    params: &Params,
    pages: &P,
    ask: &Ask,
    told: &mut Told,
) -> Result<(), StepFault>
    requires params { IsInRange params.now }
    requires bits { length told.old.bits ≡ params.now.bits }

    // What a graph for which the pages stand says to the look.
    ensures nodes { (all : List Content) (g : Graph) → All IsPage all → Stands all g → g.params ≡ params.now
        → HasPages (P.held pages.now) all (looked_at ask.now) → MayLook g ask.now → OnOk result (TellsNodes g ask.now told.new) }

    // And what lists say to it.
    ensures lists { (all : List Content) (g : IvfGraph) → All IsPage all → StandsForLists params.now all g
        → HasPages (P.held pages.now) all (looked_at ask.now) → MayLookLists params.now.bits g ask.now
        → OnOk result (TellsLists params.now.bits g ask.now told.new) }
    ensures others { looked_at ask.now ≡ [] → told.new ≡ told.old }
    ensures memory { IfErr result (λ fault. (fault ≡ Memory) × WantsMemory 0 ask.now) }
    ensures at { told.new.at ≡ told.old.at }
    ensures bits { length told.new.bits ≡ length told.old.bits }
{
    match ask {
        Ask::Node { at, layer, version } => {
            tell_node(pages.page(at.block), params, at.off, *layer, *version, told);
            Ok(())
        }
        Ask::List {
            at: _,
            list_at,
            level,
            version,
            layer,
        } => {
            let look = LayerLook {
                off: list_at.off,
                level: *level,
                version: *version,
                layer: *layer,
            };
            tell_list(pages.page(list_at.block), params, look, told);
            Ok(())
        }
        Ask::Page { block } => tell_page(pages.page(*block), params, *block, told),
        Ask::Rows { block } => tell_rows(alloc, pages.page(*block), params, told),
        Ask::Centres { block } => tell_centres(alloc, pages.page(*block), params, *block, told),
        _ => Ok(()),
    }
}

/// Tells the entry point, its level and the hint of a graph, which stand on the page of block 0, and its number of blocks, which
/// is given. It takes no memory. Where the set lacks that page, or it has no meta tuple, nothing is told.
pub fn look_meta<P: PageSet>(pages: &P, blocks: u32, told: &mut Told)
    ensures told { (all : List Content) (g : Graph) → Stands all g → HasPages (P.held pages.now) all (0 ∷ []) → blocks ≡ length all
        → OfMeta told.new.tid told.new.level told.new.hint told.new.blocks ≡ answer_of g AtMeta }
    ensures at { told.new.at ≡ told.old.at }
    ensures bits { told.new.bits ≡ told.old.bits }
{
    let Some(page) = pages.page(0) else {
        return;
    };
    let Some(meta) = meta_at(page) else {
        return;
    };
    told.word = Word::Meta;
    told.tid = meta.entry;
    told.level = meta.level;
    told.hint = meta.hint;
    told.blocks = blocks;
}
