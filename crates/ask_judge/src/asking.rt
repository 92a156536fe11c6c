//! Whether a desk may ask something of a graph of nodes.

ghost use Rattle.std.specs.Prelude.{◌≡◌, ◌↔◌, ◌<◌, IsTrue, length};
ghost use Rattle.vec_history.specs.declared.stage.Stage.{Stage as Stages};
ghost use Rattle.vec_history.specs.Phases.{IsInPhase};
ghost use Rattle.vec_graph.specs.Asking.{StandsSo, IsPutAsked, IsRelistAsked};
ghost use Rattle.vec_graph.specs.Knowing.{Knows};
ghost use Rattle.vec_graph.specs.Rules.{KnowsMembers};
ghost use Rattle.index_sizes.specs.Sizes.{slots_of_level};
ghost use Rattle.graph_search.specs.Insert.{most_in};
ghost use Rattle.vec_steps.specs.Desks.{MayAskNodes, MayLink};

use graph_judge::{Course, is_event_allowed, knows, knows_members};
use index_sizes::slots_of_level;
use vec_graph::Graph;
use vec_history::{Act, Event, Gate, holds, may_give_back, phase};
use vec_names::{Listed, Tid, most_level};
use vec_steps::{Ask, NewNode};

/// Whether the desk may ask this of the index after the acts of the course: exactly what a step asks of its ask. An ask of an index
/// of lists may not be asked.
pub fn may_ask(course: &Course<'_>, desk: u32, ask: &Ask) -> bool
    ensures { IsTrue result ↔ MayAskNodes course.now.base.now course.now.acts.now desk ask.now }
{
    // One arm for each ask.
    match ask {
        Ask::Spent => true,
        Ask::Reserve { .. } => true,
        Ask::Meta => true,
        Ask::Node { .. } => true,
        Ask::List {
            at,
            list_at,
            level,
            layer,
            ..
        } => { stands_so(course.last(), told_node(*at, *list_at, *level)) && layer <= level }
        Ask::Page { block } => *block < course.last().blocks,
        Ask::Put { block, node } => {
            *block >= 1 && *block < course.last().blocks && may_put(course, desk, node)
        }
        Ask::PutNew { node } => may_put(course, desk, node),
        Ask::Join { .. } => holds(course.acts, desk, Gate::Update),
        Ask::Link {
            at,
            list_at,
            level,
            layer,
            slot,
            to,
            ..
        } => {
            may_link(
                course,
                desk,
                told_node(*at, *list_at, *level),
                *layer,
                *slot,
                *to,
            )
        }
        Ask::Relist {
            at,
            list_at,
            lists,
            ..
        } => may_relist(course, desk, *at, *list_at, lists),
        Ask::Drop { at, version, gone } => {
            is_event_allowed(
                course,
                desk,
                &Event::Drop {
                    at: *at,
                    version: *version,
                    gone: *gone,
                },
            )
        }
        Ask::Mark {
            at,
            list_at,
            version,
        } => {
            is_event_allowed(
                course,
                desk,
                &Event::Mark {
                    at: *at,
                    list_at: *list_at,
                    version: *version,
                },
            )
        }
        Ask::Entry { to, level } => {
            is_event_allowed(
                course,
                desk,
                &Event::Entry {
                    to: *to,
                    level: *level,
                },
            )
        }
        Ask::Hint { block } => is_event_allowed(course, desk, &Event::Hint { block: *block }),
        Ask::Take { gate, .. } => !holds(course.acts, desk, *gate),
        Ask::Release { gate } => may_give_back(course.acts, desk, *gate),
        Ask::Phase { stage } => is_event_allowed(course, desk, &Event::Phase { stage: *stage }),
        Ask::EndVacuum => makes_phase(course.acts, desk),
        Ask::Centres { .. }
        | Ask::Rows { .. }
        | Ask::Add { .. }
        | Ask::Extend { .. }
        | Ask::Cut { .. }
        | Ask::Aim { .. } => false,
    }
}

// A node as a look told it once.
#[derive(Clone, Copy)]
struct Owner {
    at: Tid,
    list_at: Tid,
    level: u8,
}

fn told_node(at: Tid, list_at: Tid, level: u8) -> Owner
    ensures at { result.at ≡ at }
    ensures list_at { result.list_at ≡ list_at }
    ensures level { result.level ≡ level }
{
    Owner { at, list_at, level }
}

// Whether the places are the same.
fn are_same(one: Tid, other: Tid) -> bool
    ensures { IsTrue result ↔ (one ≡ other) }
{
    one == other
}

// Whether a node stands at the place, with this list place and level.
fn stands_so(graph: &Graph, owner: Owner) -> bool
    ensures { IsTrue result ↔ StandsSo graph.now owner.at owner.list_at owner.level }
{
    let Some(node) = graph.nodes.get(owner.at) else {
        return false;
    };
    if !are_same(node.list_at, owner.list_at) {
        return false;
    }
    node.level == owner.level
}

// Whether the desk knows all that the slots of a node of this level name, each up to the slot's layer.
fn knows_named(course: &Course<'_>, desk: u32, level: u8, lists: &Listed<Option<Tid>>) -> bool
    ensures { IsTrue result ↔ KnowsMembers course.now.base.now course.now.acts.now desk course.now.base.now.params.m level lists.now }
{
    knows_members(course, desk, level, lists)
}

fn has_slots(m: u16, level: u8, lists: &Listed<Option<Tid>>) -> bool
    ensures { IsTrue result ↔ (length lists.now ≡ slots_of_level m level) }
{
    lists.len() as u64 == slots_of_level(m, level)
}

fn may_put(course: &Course<'_>, desk: u32, node: &NewNode) -> bool
    ensures { IsTrue result ↔ IsPutAsked course.now.base.now course.now.acts.now desk node.now.level node.now.bits node.now.lists }
{
    let params = course.base.params;
    if !holds(course.acts, desk, Gate::Update) || node.bits.count() != params.bits {
        return false;
    }
    if node.level > most_level(params.m) || !has_slots(params.m, node.level, &node.lists) {
        return false;
    }
    knows_named(course, desk, node.level, &node.lists)
}

// How many slots a layer has.
fn most_in(m: u16, layer: u8) -> u32
    ensures { result ≡ most_in m layer }
{
    if layer == 0 {
        2 * u32::from(m)
    } else {
        u32::from(m)
    }
}

fn knows_up_to(course: &Course<'_>, desk: u32, to: Tid, layer: u8) -> bool
    ensures { IsTrue result ↔ Knows course.now.base.now course.now.acts.now desk to layer }
{
    knows(course, desk, to, u32::from(layer))
}

fn may_link(course: &Course<'_>, desk: u32, owner: Owner, layer: u8, slot: u16, to: Tid) -> bool
    ensures { IsTrue result ↔ MayLink course.now.base.now course.now.acts.now desk owner.at owner.list_at owner.level layer slot to }
{
    if !holds(course.acts, desk, Gate::Update) || !stands_so(course.last(), owner) {
        return false;
    }
    if layer > owner.level || u32::from(slot) >= most_in(course.base.params.m, layer) {
        return false;
    }
    knows_up_to(course, desk, to, layer)
}

fn may_relist(
    course: &Course<'_>,
    desk: u32,
    at: Tid,
    list_at: Tid,
    lists: &Listed<Option<Tid>>,
) -> bool
    ensures { IsTrue result ↔ IsRelistAsked course.now.base.now course.now.acts.now desk at list_at lists.now }
{
    if !holds(course.acts, desk, Gate::Update) {
        return false;
    }
    let Some(node) = course.last().nodes.get(at) else {
        return false;
    };
    if !are_same(node.list_at, list_at) || !has_slots(course.base.params.m, node.level, lists) {
        return false;
    }
    knows_named(course, desk, node.level, lists)
}

// Whether the phase that stands is the desk's.
fn makes_phase(acts: &[Act], desk: u32) -> bool
    ensures { IsTrue result ↔ ((stage : Stages) × IsInPhase acts.now desk stage) }
{
    match phase(acts) {
        Some((maker, _, _)) => maker == desk,
        None => false,
    }
}
