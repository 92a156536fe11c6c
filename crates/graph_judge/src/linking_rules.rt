//! Which nodes, neighbours and entry points a desk may put: what it knows decides.

ghost use Rattle.std.specs.Prelude.{◌↔◌, IsTrue};
ghost use Rattle.vec_names.specs.declared.heap_id.HeapId.{HeapId as HeapIds};
ghost use Rattle.vec_graph.specs.Rules.{IsPutAllowed, IsLinkAllowed, IsRelistAllowed, IsEntryAtAllowed, IsNoEntryAllowed, IsEntryAllowed};

use crate::cleaning::none_live;
use crate::course::Course;
use crate::knowing::{knows, knows_members, layer_of_slot};
use crate::node_rules::{are_same, fits, has_level, there};
use bit_code::Bits;
use vec_graph::Place;
use vec_history::{Gate, holds, holds_alone};
use vec_names::{Listed, Tid};

pub(crate) fn may_put(
    course: &Course<'_>,
    desk: u32,
    place: Place,
    level: u8,
    bits: &Bits,
    lists: &Listed<Option<Tid>>,
) -> bool
    ensures { (id : HeapIds) → IsTrue result ↔ IsPutAllowed course.now.base.now course.now.acts.now desk (record {
      at = place.at;
      list_at = place.list_at;
      version = place.version;
      level = level;
      id = id;
      bits = bits.now;
      lists = lists.now;
    }) }
{
    if !holds(course.acts, desk, Gate::Update) {
        return false;
    }
    let graph = course.last();
    fits(graph, place, level, bits, lists) && knows_members(course, desk, level, lists)
}

pub(crate) fn may_link(course: &Course<'_>, desk: u32, place: Place, slot: u16, to: Tid) -> bool
    ensures { IsTrue result ↔ IsLinkAllowed course.now.base.now course.now.acts.now desk place.at place.list_at place.version slot to }
{
    if !holds(course.acts, desk, Gate::Update) {
        return false;
    }
    let graph = course.last();
    let Some(owner) = there(graph, place.at, place.version) else {
        return false;
    };
    if !are_same(owner.list_at, place.list_at) || slot as usize >= owner.slots.len() {
        return false;
    }
    let layer = layer_of_slot(graph.params.m, owner.level, usize::from(slot));
    knows(course, desk, to, layer)
}

pub(crate) fn may_relist(
    course: &Course<'_>,
    desk: u32,
    place: Place,
    lists: &Listed<Option<Tid>>,
) -> bool
    ensures { IsTrue result ↔ IsRelistAllowed course.now.base.now course.now.acts.now desk place.at place.list_at place.version lists.now }
{
    if !holds(course.acts, desk, Gate::Update) {
        return false;
    }
    let Some(owner) = there(course.last(), place.at, place.version) else {
        return false;
    };
    if !are_same(owner.list_at, place.list_at) || lists.len() != owner.slots.len() {
        return false;
    }
    knows_members(course, desk, owner.level, lists)
}

pub(crate) fn may_enter(course: &Course<'_>, desk: u32, to: Option<Tid>, level: u8) -> bool
    ensures { IsTrue result ↔ IsEntryAllowed course.now.base.now course.now.acts.now desk to level }
{
    match to {
        Some(at) => may_enter_at(course, desk, at, level),
        None => may_have_no_entry(course, desk, level),
    }
}

fn may_enter_at(course: &Course<'_>, desk: u32, to: Tid, level: u8) -> bool
    ensures { IsTrue result ↔ IsEntryAtAllowed course.now.base.now course.now.acts.now desk to level }
{
    if !holds(course.acts, desk, Gate::Update) {
        return false;
    }
    has_level(course.last(), to, level) && knows(course, desk, to, u32::from(level))
}

fn may_have_no_entry(course: &Course<'_>, desk: u32, level: u8) -> bool
    ensures { IsTrue result ↔ IsNoEntryAllowed course.now.base.now course.now.acts.now desk level }
{
    if !holds_alone(course.acts, desk, Gate::Update) || level != 0 {
        return false;
    }
    none_live(course.last())
}
