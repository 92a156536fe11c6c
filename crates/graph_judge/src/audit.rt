//! The judge of histories.

ghost use Rattle.std.specs.Prelude.{◌≡◌, ◌↔◌, IsTrue, IfErr, IfOk, OnOk, ◌∷◌, ◌++◌, []};
ghost use Rattle.vec_graph.specs.Effect.{effect, after};
ghost use Rattle.graph_judge.specs.Course.{AreStates};
ghost use Rattle.vec_graph.specs.Rules.{IsEventAllowed};
ghost use Rattle.vec_graph.specs.Legal.{IsAllowed, IsLegal};
ghost use Rattle.vec_history.specs.Judging.{IsFaultOf};

use crate::course::Course;
use crate::linking_rules::{may_enter, may_link, may_put, may_relist};
use crate::node_rules::{may_drop, may_hint, may_join, may_mark};
use crate::vacuum_rules::{may_begin, may_cancel, may_end};
use std::alloc::{AllocError, Global};
use vec_graph::{Graph, Place};
use vec_history::{Act, AuditFault, Event, may_fault, may_give_back, may_settle, may_take};
use vec_names::Tid;

/// Judges a history that begins at a graph: Illegal at the first act that the rules do not allow after those before it.
/// It keeps the graph after each act, so it takes memory for as many graphs as there are acts.
pub fn audit_hnsw(alloc: Global, base: &Graph, acts: &[Act]) -> Result<(), AuditFault>
    ensures legal { OnOk result (IsLegal base.now acts.now) }
    ensures fault { IfErr result (IsFaultOf (IsAllowed base.now) acts.now) }
{
    let mut states = first_states(base, alloc)?;
    for k in 0..acts.len() {
        let act = &acts[k];
        let course = Course {
            base,
            acts: &acts[..k],
            states: states.as_slice(),
        };
        if !is_allowed(&course, act) {
            return Err(AuditFault::Illegal { at: k as u64 });
        }
        add_state(base, &acts[..k], &mut states, act, alloc)?;
    }
    Ok(())
}

fn is_allowed(course: &Course<'_>, act: &Act) -> bool
    ensures { IsTrue result ↔ IsAllowed course.now.base.now course.now.acts.now act.now }
{
    is_event_allowed(course, act.desk, &act.event)
}

fn place(at: Tid, list_at: Tid, version: u8) -> Place
    ensures at { result.at ≡ at }
    ensures list_at { result.list_at ≡ list_at }
    ensures version { result.version ≡ version }
{
    Place {
        at,
        list_at,
        version,
    }
}

/// Whether the rules allow that the desk makes this event after the acts of the course.
pub fn is_event_allowed(course: &Course<'_>, desk: u32, event: &Event) -> bool
    ensures { IsTrue result ↔ IsEventAllowed course.now.base.now course.now.acts.now desk event.now }
{
    // One arm for each kind of event.
    match event {
        Event::Put {
            at,
            list_at,
            version,
            level,
            bits,
            lists,
            ..
        } => {
            may_put(
                course,
                desk,
                place(*at, *list_at, *version),
                *level,
                bits,
                lists,
            )
        }
        Event::Join { at, version, .. } => may_join(course, desk, *at, *version),
        Event::Link {
            at,
            list_at,
            version,
            slot,
            to,
        } => { may_link(course, desk, place(*at, *list_at, *version), *slot, *to) }
        Event::Relist {
            at,
            list_at,
            version,
            lists,
        } => { may_relist(course, desk, place(*at, *list_at, *version), lists) }
        Event::Drop { at, version, gone } => may_drop(course, desk, *at, *version, *gone),
        Event::Mark {
            at,
            list_at,
            version,
        } => may_mark(course, desk, place(*at, *list_at, *version)),
        Event::Entry { to, level } => may_enter(course, desk, *to, *level),
        Event::Hint { block } => may_hint(course, desk, *block),
        Event::IvfAdd { .. }
        | Event::IvfGrow { .. }
        | Event::IvfDrop { .. }
        | Event::IvfHint { .. } => false,
        Event::Gate { gate, hold } => may_take(course.acts, desk, *gate, *hold),
        Event::Ungate { gate } => may_give_back(course.acts, desk, *gate),
        Event::Phase { stage } => may_begin(course, desk, *stage),
        Event::VacuumEnd => may_end(course, desk),
        Event::Cancel { stage } => may_cancel(course, desk, *stage),
        Event::Settled { upto } => may_settle(course.acts, *upto),
        Event::DiskFaulted { count } => may_fault(course.acts, *count),
    }
}

/// The graphs that a history goes through, in memory of their own: the base, and the graph after each act.
pub fn states_of(alloc: Global, base: &Graph, acts: &[Act]) -> Result<Vec<Graph>, AllocError>
    ensures { IfOk result (λ states. AreStates base.now acts.now states.items) }
{
    let mut states = first_states(base, alloc)?;
    for k in 0..acts.len() {
        add_state(base, &acts[..k], &mut states, &acts[k], alloc)?;
    }
    Ok(states)
}

// The graph after one more act, in memory of its own.
fn next_state(course: &Course<'_>, act: &Act, alloc: Global) -> Result<Graph, AllocError>
    ensures { IfOk result (λ next. next ≡ effect 255 act.now.event (after course.now.base.now course.now.acts.now)) }
{
    let mut next = course.last().try_clone(alloc)?;
    next.apply(255, &act.event, alloc)?;
    Ok(next)
}

// The graph before any act, alone.
fn first_states(base: &Graph, alloc: Global) -> Result<Vec<Graph>, AllocError>
    ensures { IfOk result (λ states. AreStates base.now [] states.items) }
{
    let first = base.try_clone(alloc)?;
    let mut states = Vec::new(alloc);
    states.push(first)?;
    Ok(states)
}

// The graphs with that after one more act.
fn add_state(
    base: &Graph,
    acts: &[Act],
    states: &mut Vec<Graph>,
    act: &Act,
    alloc: Global,
) -> Result<(), AllocError>
    requires { AreStates base.now acts.now states.old.items }
    ensures { OnOk result (AreStates base.now (acts.now ++ act.now ∷ []) states.new.items) }
{
    let course = Course {
        base,
        acts,
        states: states.as_slice(),
    };
    let next = next_state(&course, act, alloc)?;
    states.push(next)?;
    Ok(())
}
