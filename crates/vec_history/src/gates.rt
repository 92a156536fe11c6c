//! Which desk holds which gate, and whether a gate may be taken.

ghost use Rattle.std.specs.Prelude.{◌↔◌, IsTrue, IfSome, IfNone};
ghost use Rattle.vec_history.specs.declared.gate.Hold.TheVariants.{Alone};
ghost use Rattle.vec_history.specs.Gates.{IsOfGate, HoldsSince, Holds, HoldsAs, AgreesWithOthers, IsGateAllowed};
ghost use Rattle.vec_history.specs.Deciding.{AgreesWith, IsDeskOfGate, IsLast, NoneOf};

use crate::{Act, Event, Gate, Hold};

fn is_of_gate(event: &Event, gate: Gate) -> bool
    ensures { IsTrue result ↔ IsOfGate gate event.now }
{
    match event {
        Event::Gate {
            gate: taken,
            hold: _,
        } => *taken == gate,
        Event::Ungate { gate: given } => *given == gate,
        _ => false,
    }
}

/// The last act of the desk that takes the gate or gives it back.
fn last_of_gate(acts: &[Act], desk: u32, gate: Gate) -> Option<usize>
    ensures last { IfSome result (IsLast acts.now (IsDeskOfGate desk gate)) }
    ensures none { IfNone result (NoneOf acts.now (IsDeskOfGate desk gate)) }
{
    for k in (0..acts.len()).rev() {
        let act = &acts[k];
        if act.desk == desk && is_of_gate(&act.event, gate) {
            return Some(k);
        }
    }
    None
}

/// How the desk holds the gate after these acts, and the number of its act that took it.
pub fn hold_of(acts: &[Act], desk: u32, gate: Gate) -> Option<(Hold, usize)>
    ensures since { IfSome result (λ h. HoldsSince acts.now desk gate h.0 h.1) }
    ensures not_held { IfNone result (Holds acts.now desk gate → ⊥) }
{
    let k = last_of_gate(acts, desk, gate)?;
    match &acts[k].event {
        Event::Gate { gate: _, hold } => Some((*hold, k)),
        _ => None,
    }
}

/// Whether the desk holds the gate after these acts, in whichever way.
pub fn holds(acts: &[Act], desk: u32, gate: Gate) -> bool
    ensures { IsTrue result ↔ Holds acts.now desk gate }
{
    hold_of(acts, desk, gate).is_some()
}

/// Whether the desk holds the gate alone after these acts.
pub fn holds_alone(acts: &[Act], desk: u32, gate: Gate) -> bool
    ensures { IsTrue result ↔ HoldsAs acts.now desk gate Alone }
{
    match hold_of(acts, desk, gate) {
        Some((hold, _)) => hold == Hold::Alone,
        None => false,
    }
}

/// Whether the desk may take the gate in this way after these acts: it does not hold it, and no other desk
/// does, or this hold and those of the others are all Shared.
pub fn may_take(acts: &[Act], desk: u32, gate: Gate, hold: Hold) -> bool
    ensures { IsTrue result ↔ IsGateAllowed acts.now desk gate hold }
{
    match hold_of(acts, desk, gate) {
        Some(_) => false,
        None => agrees_with_others(acts, desk, gate, hold),
    }
}

fn agrees_with_others(acts: &[Act], desk: u32, gate: Gate, hold: Hold) -> bool
    ensures { IsTrue result ↔ AgreesWithOthers acts.now desk gate hold }
{
    for act in acts {
        if act.desk != desk && !agrees_with(acts, act.desk, gate, hold) {
            return false;
        }
    }
    true
}

fn agrees_with(acts: &[Act], other: u32, gate: Gate, hold: Hold) -> bool
    ensures { IsTrue result ↔ AgreesWith acts.now other gate hold }
{
    match hold_of(acts, other, gate) {
        Some((theirs, _)) => hold == Hold::Shared && theirs == Hold::Shared,
        None => true,
    }
}
