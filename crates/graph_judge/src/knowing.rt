//! What a desk knows.

ghost use Rattle.std.specs.Prelude.{◌≡◌, ◌↔◌, IsTrue};
ghost use Rattle.vec_graph.specs.Graph.{IsLiveAt, slot_layer};
ghost use Rattle.vec_graph.specs.Effect.{after};
ghost use Rattle.vec_graph.specs.Knowing.{Knows};
ghost use Rattle.graph_judge.specs.Knowable.{KnowsSlot, IsSomewhere};
ghost use Rattle.vec_graph.specs.Rules.{KnowsMembers};

use crate::course::Course;
use vec_graph::{Graph, live_at};
use vec_history::{Gate, hold_of};
use vec_names::{Listed, Tid};

/// Whether the desk knows the node at the place up to the layer, after these acts.
pub fn knows(course: &Course<'_>, desk: u32, at: Tid, layer: u32) -> bool
    ensures { IsTrue result ↔ Knows course.now.base.now course.now.acts.now desk at layer }
{
    match hold_of(course.acts, desk, Gate::Update) {
        Some((_, since)) => some_live(&course.states[since + 1..], at, layer),
        None => false,
    }
}

fn some_live(states: &[Graph], at: Tid, layer: u32) -> bool
    ensures { IsTrue result ↔ IsSomewhere (λ g. IsLiveAt g at layer) states.now }
{
    for graph in states {
        if live_at(graph, at, layer) {
            return true;
        }
    }
    false
}

/// The layer of a slot of a node of this level, counted over all its layers from 0.
pub(crate) fn layer_of_slot(m: u16, level: u8, slot: usize) -> u32
    ensures { result ≡ slot_layer m level slot }
{
    let above = if m == 0 { 0 } else { slot / usize::from(m) };
    if above < usize::from(level) {
        u32::from(level) - above as u32
    } else {
        0
    }
}

/// Whether the desk knows each member of each layer that these slots of a node of this level name, up to
/// that layer.
pub fn knows_members(course: &Course<'_>, desk: u32, level: u8, lists: &Listed<Option<Tid>>) -> bool
    ensures { let m = (after course.now.base.now course.now.acts.now).params.m in
        IsTrue result ↔ KnowsMembers course.now.base.now course.now.acts.now desk m level lists.now }
{
    let slots = lists.as_slice();
    for slot in 0..slots.len() {
        if !knows_slot(course, desk, level, slot, slots[slot]) {
            return false;
        }
    }
    true
}

fn knows_slot(course: &Course<'_>, desk: u32, level: u8, slot: usize, named: Option<Tid>) -> bool
    ensures { IsTrue result ↔ KnowsSlot course.now.base.now course.now.acts.now desk level slot named }
{
    match named {
        Some(to) => {
            let layer = layer_of_slot(course.last().params.m, level, slot);
            knows(course, desk, to, layer)
        }
        None => true,
    }
}
