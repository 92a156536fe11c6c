//! Which events of nodes a desk may make.

ghost use Rattle.std.specs.Prelude.{◌≡◌, ◌↔◌, ◌+◌, ◌≤◌, ◌<◌, ◌^◌, ◌≢◌, IsTrue, IfSome, IfNone, length};
ghost use Rattle.index_sizes.specs.Sizes.{slots_of_level};
ghost use Rattle.vec_history.specs.declared.gate.Gate.TheVariants.{Update};
ghost use Rattle.vec_history.specs.declared.gate.Hold.TheVariants.{Alone};
ghost use Rattle.vec_history.specs.Gates.{Holds, HoldsAs};
ghost use Rattle.vec_graph.specs.declared.node.Node.{Node as Nodes};
ghost use Rattle.vec_graph.specs.Graph.{HasLevel};
ghost use Rattle.vec_graph.specs.Effect.{after};
ghost use Rattle.graph_judge.specs.Deciding.{IsFitting};
ghost use Rattle.vec_graph.specs.Rules.{IsThere, IsPlaced, IsJoinAllowed, IsLinkAllowed, IsRelistAllowed, IsDropAllowed, IsMarkAllowed};
ghost use Rattle.vec_graph.specs.Rules.{IsEntryAtAllowed, IsNoEntryAllowed, IsEntryAllowed, IsHintAllowed};

use crate::course::Course;
use bit_code::Bits;
use index_sizes::{MOST_BLOCKS, MOST_IDS, slots_of_level};
use vec_graph::{Graph, Node, Place, is_doomed};
use vec_history::{Gate, Stage, holds, is_in_phase};
use vec_names::{Listed, Tid, most_level};

// The node at a place, if it has this version and is not deleted.
pub(crate) fn there(graph: &Graph, at: Tid, version: u8) -> Option<&Node>
    ensures found { IfSome result (λ n. IsThere graph.now at version n.now) }
    ensures none { IfNone result ((n : Nodes) → IsThere graph.now at version n → ⊥) }
{
    let node = graph.nodes.get(at)?;
    if node.version == version && !node.deleted {
        Some(node)
    } else {
        None
    }
}

// Whether the place is one that a node of this level may take.
fn is_placed(graph: &Graph, place: Place, level: u8) -> bool
    ensures { IsTrue result ↔ IsPlaced graph.now place.at level place }
{
    if is_there(graph.place_on(place.at.block, level), place) {
        return true;
    }
    is_there(graph.new_place(level), place) && is_in_file(graph.blocks, graph.new_blocks(level))
}

// Whether a place was found, and it is this one.
fn is_there(found: Option<Place>, place: Place) -> bool
    ensures { IsTrue result ↔ (found ≡ Some place) }
{
    match found {
        Some(other) => other == place,
        None => false,
    }
}

// Whether so many more blocks still are in range.
fn is_in_file(blocks: u32, more: u32) -> bool
    ensures { IsTrue result ↔ (blocks + more ≤ MOST_BLOCKS) }
{
    u64::from(blocks) + u64::from(more) <= u64::from(MOST_BLOCKS)
}

pub(crate) fn may_join(course: &Course<'_>, desk: u32, at: Tid, version: u8) -> bool
    ensures { IsTrue result ↔ IsJoinAllowed course.now.base.now course.now.acts.now desk at version }
{
    if !holds(course.acts, desk, Gate::Update) {
        return false;
    }
    match there(course.last(), at, version) {
        Some(node) => has_room_for_id(node),
        None => false,
    }
}

// Whether the node has an id, and room for one more.
fn has_room_for_id(node: &Node) -> bool
    ensures { IsTrue result ↔ ((1 ≤ length node.now.ids) × (length node.now.ids < MOST_IDS)) }
{
    let count = node.ids.len();
    count >= 1 && count < MOST_IDS
}

pub(crate) fn may_drop(course: &Course<'_>, desk: u32, at: Tid, version: u8, gone: u16) -> bool
    ensures { IsTrue result ↔ IsDropAllowed course.now.base.now course.now.acts.now desk at version gone }
{
    if !is_in_phase(course.acts, desk, Stage::Remove) {
        return false;
    }
    match there(course.last(), at, version) {
        Some(node) => names_some_of(gone, node.ids.len()),
        None => false,
    }
}

// Whether the mask names some of so many ids, and no others.
fn names_some_of(mask: u16, count: usize) -> bool
    ensures { IsTrue result ↔ ((mask ≢ 0) × (mask < 2 ^ count)) }
{
    mask != 0 && (count >= 16 || mask >> count == 0)
}

pub(crate) fn may_mark(course: &Course<'_>, desk: u32, place: Place) -> bool
    ensures { IsTrue result ↔ IsMarkAllowed course.now.base.now course.now.acts.now desk place.at place.list_at place.version }
{
    if !is_in_phase(course.acts, desk, Stage::Mark) {
        return false;
    }
    match there(course.last(), place.at, place.version) {
        Some(node) => are_same(node.list_at, place.list_at) && is_doomed(node),
        None => false,
    }
}

// Whether the places are the same.
pub(crate) fn are_same(one: Tid, other: Tid) -> bool
    ensures { IsTrue result ↔ (one ≡ other) }
{
    one == other
}

pub(crate) fn may_hint(course: &Course<'_>, desk: u32, block: u32) -> bool
    ensures { IsTrue result ↔ IsHintAllowed course.now.base.now course.now.acts.now desk block }
{
    if !holds(course.acts, desk, Gate::Update) && !holds(course.acts, desk, Gate::Vacuum) {
        return false;
    }
    block >= 1 && block <= course.last().blocks
}

// Whether a new node of this level fits the graph at this place.
pub(crate) fn fits(
    graph: &Graph,
    place: Place,
    level: u8,
    bits: &Bits,
    lists: &Listed<Option<Tid>>,
) -> bool
    ensures { IsTrue result ↔ IsFitting graph.now place level bits.now lists.now }
{
    bits.count() == graph.params.bits
        && has_slots_of(graph, level, lists)
        && level <= most_level(graph.params.m)
        && is_placed(graph, place, level)
}

fn has_slots_of(graph: &Graph, level: u8, lists: &Listed<Option<Tid>>) -> bool
    ensures { IsTrue result ↔ (length lists.now ≡ slots_of_level graph.now.params.m level) }
{
    lists.len() as u64 == slots_of_level(graph.params.m, level)
}

// Whether a node of this level stands at the place.
pub(crate) fn has_level(graph: &Graph, at: Tid, level: u8) -> bool
    ensures { IsTrue result ↔ HasLevel graph.now at level }
{
    match graph.nodes.get(at) {
        Some(node) => node.level == level,
        None => false,
    }
}
