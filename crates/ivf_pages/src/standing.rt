//! The index of lists that its pages stand for.

ghost use Rattle.std.specs.Prelude.{◌≡◌, ◌≤◌, ℕ, Some, length};
ghost use Rattle.vec_names.specs.Params.{IsInRange};
ghost use Rattle.ivf_pages.specs.Standing.{params_in, KeepsRulesOf, IsIndexOf};
ghost use Rattle.ivf_pages.specs.Walking.{AreFirstTuples, HasRows, chains_of};

use crate::entry_rows::rows_of_pages;
use crate::list_blocks::first_broken_list;
use crate::list_chains::lists_of;
use crate::list_tuples::{first_tuples, params_in};
use crate::marks::fresh_marks;
use crate::walking::first_aimless;
use bit_code::Bits;
use index_sizes::MOST_BLOCKS;
use ivf_graph::IvfGraph;
use page_bytes::Page;
use page_redo::GraphFault;
use std::alloc::Global;
use vec_names::{HeapId, Listed, Params};
use vec_tuples::CentreTuple;

/// The index of lists that these pages stand for, the page of block 0 first; at most 32,768 pages.
///
/// Block 0 has the meta tuple of an index of lists and nothing else. The blocks behind it have the list tuples, as many as fit a page
/// and no more than are left, on pages of that kind; the aim of a list stands in its chain. All other blocks have entries and nothing
/// else, and stand in the chain of just one list. A chain goes from a list's first block from page to page, and ends where a page
/// names no next one. The numbers of the pages do not matter.
///
/// `Bad` at the first block that breaks one of these rules. A first block, an aim, or a list tuple that is missing, breaks the block
/// where the tuple is to stand, also where there is no such block. A next block that is not there, that has no entries, or that the
/// chain has met before, breaks the page that names it. A block that two chains share, or none, is broken itself. `Memory` says nothing
/// of the pages; then all memory is given back.
///
/// Each tuple is decoded once, and each block is passed by two chains at most: where chains share blocks, which no good index has, no
/// third one is followed there. Only an aim that several chains have is looked for again, in a step for each block at most.
pub fn ivf_of(alloc: Global, pages: &[Page]) -> Result<IvfGraph, GraphFault>
    requires { length pages.now ≤ MOST_BLOCKS }
    ensures { IsIndexOf pages.now result }
{
    let Some(params) = params_in(pages) else {
        return Err(GraphFault::Bad { block: 0 });
    };
    let tuples = first_tuples(alloc, pages, &params)?;
    let mut marks = fresh_marks(alloc, pages.len())?;
    let mut chains = Listed::new(alloc);
    let listed = tuples.as_slice();
    let aimless = first_aimless(alloc, pages, &params, listed, &mut marks, &mut chains)?;
    if let Some(block) = first_broken_list(pages, &params, aimless) {
        return Err(GraphFault::Bad { block });
    }
    match rows_of_pages(alloc, pages, &params, &marks) {
        Ok(rows) => index_of(alloc, pages, &params, tuples, chains, rows),
        Err(fault) => Err(fault),
    }
}

/// The index of pages of which no block breaks a rule, from the list tuples, the chains and the rows of the blocks.
fn index_of(
    alloc: Global,
    pages: &[Page],
    params: &Params,
    tuples: Listed<CentreTuple>,
    chains: Listed<Listed<u32>>,
    rows: Listed<Listed<(HeapId, Bits)>>,
) -> Result<IvfGraph, GraphFault>
    requires few { length pages.now ≤ MOST_BLOCKS }
    requires known { params_in pages.now ≡ Some params.now }
    requires whole { (block : ℕ) → KeepsRulesOf params.now pages.now block }
    requires in_range { IsInRange params.now }
    requires first { AreFirstTuples params.now pages.now tuples }
    requires all { length tuples ≡ params.now.lists }
    requires chains { chains ≡ chains_of pages.now tuples }
    requires rows { HasRows params.now pages.now (length pages.now) rows }
    ensures { IsIndexOf pages.now result }
{
    let mut rows = rows.into_vec();
    let lists = lists_of(alloc, tuples, chains.as_slice(), &mut rows)?;
    Ok(IvfGraph {
        lists,
        blocks: pages.len() as u32,
    })
}
