//! Which events of a graph follow, told from its pages alone.

ghost use Rattle.std.specs.Prelude.{◌≡◌, ◌+◌, ◌↔◌, IsTrue, All, max};
ghost use Rattle.vec_names.specs.Params.{IsInRange};
ghost use Rattle.page_bytes.specs.Content.{IsPage};
ghost use Rattle.vec_graph.specs.declared.graph.Graph.{Graph as Graphs};
ghost use Rattle.graph_pages.specs.Standing.{item_in, head_in, is_entry, is_slot_below, Stands};
ghost use Rattle.graph_pages.specs.Following.{Follows};
ghost use Rattle.graph_pages.specs.FollowTests.{names_list, is_nothing, are_next, are_new, may_put};

use crate::block_rules::is_entry;
use crate::decoded::is_slot_below;
use crate::page_places::{head_in, item_in};
use page_bytes::Page;
use vec_history::Event;
use vec_names::{Params, Tid};
use vec_tuples::ElementHead;

/// Whether an event follows on the pages of a graph that has these parameters: whether the places and blocks are there that it names.
///
/// A Put takes the places of a node, or two where no item stands, on blocks that there are or on the next ones. Link, Relist and Mark
/// name a node and its list. Slots name blocks that there are after the event. An entry point has the stated level, and a hint is from
/// 1 to the number of blocks. Join and Drop always follow; an event of an index of lists never does, nor a passing one. What redo
/// itself asks is no part of it. It takes no memory.
pub fn follows(event: &Event, params: &Params, pages: &[Page]) -> bool
    requires { IsInRange params.now }
    ensures { (g : Graphs) → All IsPage pages.now → Stands pages.now g → g.params ≡ params.now
        → IsTrue result ↔ Follows pages.now g event.now }
{
    // One arm for each kind of event of a graph.
    match event {
        Event::Put {
            at,
            list_at,
            version,
            level,
            id: _,
            bits: _,
            lists,
        } => {
            let _version = *version;
            let _level = *level;
            may_put(pages, params, *at, *list_at)
                && are_below(with_blocks(pages.len(), *at, *list_at), lists.as_slice())
        }
        Event::Join {
            at: _,
            version: _,
            id: _,
        } => true,
        Event::Link {
            at,
            list_at,
            version: _,
            slot: _,
            to,
        } => has_list(pages, params, *at, *list_at) && (to.block as usize) < pages.len(),
        Event::Relist {
            at,
            list_at,
            version: _,
            lists,
        } => { has_list(pages, params, *at, *list_at) && are_below(pages.len(), lists.as_slice()) }
        Event::Drop {
            at: _,
            version: _,
            gone: _,
        } => true,
        Event::Mark {
            at,
            list_at,
            version: _,
        } => has_list(pages, params, *at, *list_at),
        Event::Entry { to, level } => is_entry(pages, params, *to, *level),
        Event::Hint { block } => *block >= 1 && *block as usize <= pages.len(),
        _ => false,
    }
}

/// Whether an element stands at the place, and its list pointer is the other one.
fn has_list(pages: &[Page], params: &Params, at: Tid, list_at: Tid) -> bool
    requires { IsInRange params.now }
    ensures { result ≡ names_list list_at (head_in params.now pages.now at) }
{
    names_list(list_at, head_in(pages, params, at))
}

fn names_list(list_at: Tid, head: Option<ElementHead>) -> bool
    ensures { result ≡ names_list list_at head }
{
    match head {
        Some(head) => head.list_at.block == list_at.block && head.list_at.off == list_at.off,
        None => false,
    }
}

/// Whether a new node may take these places: those of a node, or two new ones.
fn may_put(pages: &[Page], params: &Params, at: Tid, list_at: Tid) -> bool
    requires { IsInRange params.now }
    ensures { result ≡ may_put params.now pages.now at list_at }
{
    has_list(pages, params, at, list_at) || are_new(pages, at, list_at)
}

fn are_new(pages: &[Page], at: Tid, list_at: Tid) -> bool
    ensures { result ≡ are_new pages.now at list_at }
{
    has_nothing(pages, at)
        && (has_nothing(pages, list_at) && are_next(pages.len(), at.block, list_at.block))
}

fn has_nothing(pages: &[Page], at: Tid) -> bool
    ensures { result ≡ is_nothing (item_in pages.now at) }
{
    match item_in(pages, at) {
        Some(_) => false,
        None => true,
    }
}

/// Whether two blocks are ones that there are or the next, or the next two, of so many.
fn are_next(count: usize, a: u32, b: u32) -> bool
    ensures { result ≡ are_next count a b }
{
    let first = a as usize;
    let second = b as usize;
    (first <= count && second <= count)
        || ((first == count && second == first + 1) || (second == count && first == second + 1))
}

/// How many blocks there are with those of two places.
fn with_blocks(count: usize, at: Tid, list_at: Tid) -> usize
    ensures { result ≡ max count (max (at.block + 1) (list_at.block + 1)) }
{
    count.max((at.block as usize + 1).max(list_at.block as usize + 1))
}

/// Whether the places that the slots name are on so many blocks.
fn are_below(blocks: usize, slots: &[Option<Tid>]) -> bool
    ensures { IsTrue result ↔ All (λ slot. IsTrue (is_slot_below blocks slot)) slots.now }
{
    slots.iter().all(|slot| is_slot_below(blocks, *slot))
}
