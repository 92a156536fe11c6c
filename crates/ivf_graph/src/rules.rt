//! What the rules allow.

ghost use Rattle.std.specs.Prelude.{◌≡◌, ◌↔◌, ◌≤◌, IsTrue, All};
ghost use Rattle.std.specs.List.Sorted.{IsStrictlyIncreasing};
ghost use Rattle.ivf_graph.specs.Graph.{IsOfChain};
ghost use Rattle.ivf_graph.specs.Rules.{IsAddAllowed, IsGrowAllowed, IsCutAllowed, IsAimAllowed, IsEventAllowed};

use crate::blocks::{has_room, is_as_long, is_last, rows_on};
use crate::graph::IvfGraph;
use bit_code::Bits;
use index_sizes::MOST_BLOCKS;
use vec_history::{Act, Event, Gate, holds_alone, may_fault, may_give_back, may_settle, may_take};
use vec_names::{HeapId, Listed};

/// Whether a row may be added on the block.
pub(crate) fn may_add(index: &IvfGraph, block: u32, bits: &Bits) -> bool
    ensures { IsTrue result ↔ IsAddAllowed index.now block bits.now }
{
    let places = bits.count();
    match rows_on(index, block) {
        Some(rows) => has_room(rows.as_slice(), places)
            && is_as_long(index.lists.as_slice(), places),
        None => false,
    }
}

/// Whether the list may grow by this block behind its last.
pub(crate) fn may_grow(index: &IvfGraph, list: u32, last: u32, block: u32, bits: &Bits) -> bool
    ensures { IsTrue result ↔ IsGrowAllowed index.now list last block bits.now }
{
    match index.lists.get(list as usize) {
        Some(grows) => {
            is_last(grows.chain.as_slice(), last)
                && block == index.blocks
                && block < MOST_BLOCKS
                && is_as_long(index.lists.as_slice(), bits.count())
        }
        None => false,
    }
}

/// Whether the offsets rise.
fn is_rising(gone: &[u16]) -> bool
    ensures { IsTrue result ↔ IsStrictlyIncreasing gone.now }
{
    gone.windows(2).all(|two| two[0] < two[1])
}

/// Whether each offset, from 1, is that of one of so many rows.
fn are_there(gone: &[u16], count: usize) -> bool
    ensures { IsTrue result ↔ All (λ offset. (1 ≤ offset) × (offset ≤ count)) gone.now }
{
    gone.iter()
        .all(|offset| 1 <= *offset && usize::from(*offset) <= count)
}

/// Whether the desk may take the rows at these offsets from the block.
pub(crate) fn may_cut(index: &IvfGraph, acts: &[Act], desk: u32, block: u32, gone: &[u16]) -> bool
    ensures { IsTrue result ↔ IsCutAllowed index.now acts.now desk block gone.now }
{
    match rows_on(index, block) {
        Some(rows) => {
            holds_alone(acts, desk, Gate::Vacuum)
                && !gone.is_empty()
                && is_rising(gone)
                && are_there(gone, rows.len())
        }
        None => false,
    }
}

/// Whether the block is one of the chain.
fn is_of_chain(chain: &[(u32, Listed<(HeapId, Bits)>)], block: u32) -> bool
    ensures { IsTrue result ↔ IsOfChain chain.now block }
{
    chain.iter().any(|part| part.0 == block)
}

/// Whether the list may come to aim at the block.
pub(crate) fn may_aim(index: &IvfGraph, list: u32, block: u32) -> bool
    ensures { IsTrue result ↔ IsAimAllowed index.now list block }
{
    match index.lists.get(list as usize) {
        Some(aims) => is_of_chain(aims.chain.as_slice(), block),
        None => false,
    }
}

/// Whether the desk may make the event after these acts, which led to this index.
pub(crate) fn is_allowed(index: &IvfGraph, acts: &[Act], desk: u32, event: &Event) -> bool
    ensures { IsTrue result ↔ IsEventAllowed index.now acts.now desk event.now }
{
    match event {
        Event::IvfAdd { block, id: _, bits } => may_add(index, *block, bits),
        Event::IvfGrow {
            list,
            last,
            block,
            id: _,
            bits,
        } => may_grow(index, *list, *last, *block, bits),
        Event::IvfDrop { block, gone } => may_cut(index, acts, desk, *block, gone.as_slice()),
        Event::IvfHint { list, block } => may_aim(index, *list, *block),
        Event::Gate { gate, hold } => may_take(acts, desk, *gate, *hold),
        Event::Ungate { gate } => may_give_back(acts, desk, *gate),
        Event::Settled { upto } => may_settle(acts, *upto),
        Event::DiskFaulted { count } => may_fault(acts, *count),
        _ => false,
    }
}
