//! What a vacuum has cleaned.

ghost use Rattle.std.specs.Prelude.{◌↔◌, ◌≤◌, IsTrue, length, take};
ghost use Rattle.std.specs.FinMap as map;
ghost use Rattle.vec_names.specs.declared.tid.Tid.{Tid as Tids};
ghost use Rattle.vec_history.specs.declared.stage.Stage.TheVariants.{Repair};
ghost use Rattle.vec_history.specs.Phases.{PhaseSince, IsRemoved};
ghost use Rattle.vec_graph.specs.Graph.{IsLiveAt, IsDoomedAt};
ghost use Rattle.vec_graph.specs.Cleaning.{IsCleanAt, IsEntryClean, WereCleaned, IsRepaired};
ghost use Rattle.graph_judge.specs.Knowable.{IsSomewhere, EachEntry, AreMembersClean, NamesDoomed, WereLayersClean, WasNodeClean};

use crate::course::Course;
use crate::knowing::layer_of_slot;
use vec_graph::{Graph, Node, doomed_at, is_doomed, is_live};
use vec_history::{Gate, Stage, last_barrier, phase, removal_end};
use vec_names::Tid;

/// Whether no node is doomed.
pub(crate) fn none_doomed(graph: &Graph) -> bool
    ensures { IsTrue result ↔ ((at : Tids) → IsDoomedAt graph.now at → ⊥) }
{
    for (_, node) in graph.nodes.iter() {
        if is_doomed(node) {
            return false;
        }
    }
    true
}

/// Whether no node is live.
pub(crate) fn none_live(graph: &Graph) -> bool
    ensures { IsTrue result ↔ ((at : Tids) → IsLiveAt graph.now at 0 → ⊥) }
{
    for (_, node) in graph.nodes.iter() {
        if is_live(node) {
            return false;
        }
    }
    true
}

/// Whether no member of this layer of the node at the place is doomed.
pub(crate) fn is_clean_at(graph: &Graph, at: Tid, layer: u32) -> bool
    ensures { IsTrue result ↔ IsCleanAt graph.now at layer }
{
    match graph.nodes.get(at) {
        Some(node) => are_members_clean(graph, node, layer),
        None => true,
    }
}

fn are_members_clean(graph: &Graph, node: &Node, layer: u32) -> bool
    ensures { IsTrue result ↔ AreMembersClean graph.now node.now.level node.now.slots layer }
{
    let slots = node.slots.as_slice();
    for slot in 0..slots.len() {
        if names_doomed(graph, node.level, layer, slot, slots[slot]) {
            return false;
        }
    }
    true
}

/// Whether the slot of a node of this level is one of the layer and names a node that is doomed.
fn names_doomed(graph: &Graph, level: u8, layer: u32, slot: usize, named: Option<Tid>) -> bool
    ensures { IsTrue result ↔ NamesDoomed graph.now level layer slot named }
{
    match named {
        Some(to) => { layer_of_slot(graph.params.m, level, slot) == layer && doomed_at(graph, to) }
        None => false,
    }
}

/// Whether the entry point is none, or not doomed.
pub(crate) fn is_entry_clean(graph: &Graph) -> bool
    ensures { IsTrue result ↔ IsEntryClean graph.now }
{
    match graph.entry {
        Some(to) => !doomed_at(graph, to),
        None => true,
    }
}

fn some_clean(states: &[Graph], at: Tid, layer: u32) -> bool
    ensures { IsTrue result ↔ IsSomewhere (λ g. IsCleanAt g at layer) states.now }
{
    for graph in states {
        if is_clean_at(graph, at, layer) {
            return true;
        }
    }
    false
}

fn some_entry_clean(states: &[Graph]) -> bool
    ensures { IsTrue result ↔ IsSomewhere IsEntryClean states.now }
{
    for graph in states {
        if is_entry_clean(graph) {
            return true;
        }
    }
    false
}

/// Whether each layer of the node at the place, up to this level, was clean in one of the graphs.
fn were_layers_clean(states: &[Graph], at: Tid, level: u8) -> bool
    ensures { IsTrue result ↔ WereLayersClean states.now at level }
{
    for layer in 0..u32::from(level) + 1 {
        if !some_clean(states, at, layer) {
            return false;
        }
    }
    true
}

fn was_node_clean(states: &[Graph], at: Tid, node: &Node) -> bool
    ensures { IsTrue result ↔ WasNodeClean states.now at node.now }
{
    !is_live(node) || were_layers_clean(states, at, node.level)
}

fn were_nodes_clean(first: &Graph, states: &[Graph]) -> bool
    ensures { IsTrue result ↔ EachEntry (WasNodeClean states.now) (map.entries first.now.nodes) }
{
    for (at, node) in first.nodes.iter() {
        if !was_node_clean(states, *at, node) {
            return false;
        }
    }
    true
}

/// Whether, between these positions, each layer of each node that was live at the first was clean once, and
/// so was the entry point.
fn were_cleaned(course: &Course<'_>, low: usize, high: usize) -> bool
    requires in_order { low ≤ high }
    requires within { high ≤ length course.now.acts.now }
    ensures { IsTrue result ↔ WereCleaned course.now.base.now course.now.acts.now low high }
{
    let states = course.states;
    let part = &states[low..high + 1];
    were_nodes_clean(&states[low], part) && some_entry_clean(part)
}

/// Whether repairing is done, so that the desk may begin to mark.
pub(crate) fn is_repaired(course: &Course<'_>, desk: u32) -> bool
    ensures { IsTrue result ↔ IsRepaired course.now.base.now course.now.acts.now desk }
{
    match phase(course.acts) {
        Some((made_by, stage, begun)) => {
            made_by == desk && stage == Stage::Repair && is_repaired_since(course, desk, begun)
        }
        None => false,
    }
}

/// The same where the phase is known: the desk's act of number `begun` began it.
fn is_repaired_since(course: &Course<'_>, desk: u32, begun: usize) -> bool
    requires { PhaseSince course.now.acts.now desk Repair begun }
    ensures { IsTrue result ↔ IsRepaired course.now.base.now course.now.acts.now desk }
{
    match removal_end(&course.acts[..begun], desk) {
        Some(first) => is_cleaned_since(course, desk, begun, first),
        None => false,
    }
}

/// The same where also the position is known right after the barrier that ended removing.
fn is_cleaned_since(course: &Course<'_>, desk: u32, begun: usize, first: usize) -> bool
    requires phase { PhaseSince course.now.acts.now desk Repair begun }
    requires removed { IsRemoved (take begun course.now.acts.now) desk first }
    ensures { IsTrue result ↔ IsRepaired course.now.base.now course.now.acts.now desk }
{
    match last_barrier(course.acts, desk, Gate::Scan, begun) {
        Some(barrier) => were_cleaned(course, first, barrier),
        None => false,
    }
}
