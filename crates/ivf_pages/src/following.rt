//! Which events of an index of lists follow, told from its pages alone.

ghost use Rattle.std.specs.Prelude.{◌≡◌, ◌==◌, ◌&&◌, ◌<◌, ◌↔◌, nat_lt, not, Some, IsTrue, All, length, slice_get};
ghost use Rattle.std.specs.Option.{is_some};
ghost use Rattle.vec_names.specs.Params.{IsInRange};
ghost use Rattle.page_bytes.specs.Content.{IsPage};
ghost use Rattle.ivf_graph.specs.declared.graph.IvfGraph.{IvfGraph as Graphs};
ghost use Rattle.ivf_pages.specs.Standing.{next_of, centre_in, Stands};
ghost use Rattle.ivf_pages.specs.Following.{Follows};
ghost use Rattle.ivf_pages.specs.Walking.{reaches};
ghost use Rattle.ivf_pages.specs.FollowTests.{leads_to, is_on_chain, is_next_behind};

use crate::list_tuples::head_of;
use index_sizes::MOST_BLOCKS;
use page_bytes::Page;
use vec_history::Event;
use vec_names::Params;

/// Whether an event follows on the pages of an index of lists that has these parameters: whether the blocks are there that it names.
///
/// An IvfGrow names the block that ends its list's chain, and as the new one the next of all, below 32,768. An IvfHint names a block of
/// its list's chain. IvfAdd and IvfDrop always follow; an event of a graph never does, nor a passing one. What redo itself asks is no
/// part of it. It takes no memory, and at most one step for each page.
pub fn follows(event: &Event, params: &Params, pages: &[Page]) -> bool
    requires { IsInRange params.now }
    ensures { (g : Graphs) → All IsPage pages.now → Stands params.now pages.now g → IsTrue result ↔ Follows g event.now }
{
    match event {
        Event::IvfAdd {
            block: _,
            id: _,
            bits: _,
        } => true,
        Event::IvfGrow {
            list,
            last,
            block,
            id: _,
            bits: _,
        } => is_next_behind(pages, params, *list, *last, *block),
        Event::IvfDrop { block: _, gone: _ } => true,
        Event::IvfHint { list, block } => is_on_chain(pages, params, *list, *block),
        _ => false,
    }
}

/// Whether the one block ends the list's chain, and the other is the next of all.
fn is_next_behind(pages: &[Page], params: &Params, list: u32, last: u32, block: u32) -> bool
    requires { IsInRange params.now }
    ensures { result ≡ is_next_behind params.now pages.now list last block }
{
    (is_on_chain(pages, params, list, last) && ends(pages, last))
        && (block as usize == pages.len() && block < MOST_BLOCKS)
}

/// Whether the page of a block names no next one.
fn ends(pages: &[Page], block: u32) -> bool
    ensures { result ≡ not (is_some (next_of (slice_get pages.now block))) }
{
    !next_of(pages, block).is_some()
}

/// Whether the block stands in the chain of the list.
fn is_on_chain(pages: &[Page], params: &Params, list: u32, block: u32) -> bool
    requires { IsInRange params.now }
    ensures { result ≡ is_on_chain params.now pages.now list block }
{
    list < params.lists && leads_to(pages, params, list, block)
}

fn leads_to(pages: &[Page], params: &Params, list: u32, block: u32) -> bool
    requires { IsInRange params.now }
    ensures { result ≡ leads_to pages.now block (centre_in params.now pages.now list) }
{
    match head_of(pages, params, list) {
        Some((first, _)) => reaches(pages, first, block),
        None => false,
    }
}

/// Whether the block is reached from the first one, from page to page.
fn reaches(pages: &[Page], first: u32, block: u32) -> bool
    ensures { result ≡ reaches pages.now (length pages.now) block (Some first) }
{
    let mut to = Some(first);
    for i in 0..pages.len() {
        let Some(met) = to else {
            return false;
        };
        if met == block {
            return true;
        }
        to = next_of(pages, met);
    }
    false
}

/// The block behind a block in its chain, as its page says.
fn next_of(pages: &[Page], block: u32) -> Option<u32>
    ensures { result ≡ next_of (slice_get pages.now block) }
{
    match pages.get(block as usize) {
        Some(page) => page.next(),
        None => None,
    }
}
