//! How far a vacuum is, and how it may go on.

ghost use Rattle.std.specs.Prelude.{◌≡◌, ◌↔◌, ℕ, IsTrue, IfSome, IfNone};
ghost use Rattle.vec_history.specs.Acts.{NoneAfter};
ghost use Rattle.vec_history.specs.Phases.{IsOfVacuum, PhaseSince, IsInPhase, IsAPhaseStanding, IsLastBarrier, IsDrop, IsRemoved, IsUngateAllowed};
ghost use Rattle.vec_history.specs.Phases.{IsPhaseRemoveAllowed, IsPhaseRepairAllowed};
ghost use Rattle.vec_history.specs.Deciding.{IsActDrop, IsActOfVacuum, IsGivingBack, IsLast, IsTakingAlone, NoneOf};

use crate::gates::hold_of;
use crate::{Act, Event, Gate, Hold, Stage};

fn is_of_vacuum(event: &Event) -> bool
    ensures { IsTrue result ↔ IsOfVacuum event.now }
{
    match event {
        Event::Phase { stage: _ } => true,
        Event::VacuumEnd => true,
        Event::Cancel { stage: _ } => true,
        _ => false,
    }
}

/// The last act that begins a phase or ends a vacuum.
fn last_of_vacuum(acts: &[Act]) -> Option<usize>
    ensures last { IfSome result (IsLast acts.now IsActOfVacuum) }
    ensures none { IfNone result (NoneOf acts.now IsActOfVacuum) }
{
    for k in (0..acts.len()).rev() {
        if is_of_vacuum(&acts[k].event) {
            return Some(k);
        }
    }
    None
}

/// The phase that stands after these acts: the desk that made it, its stage, and the number of the act
/// that began it.
pub fn phase(acts: &[Act]) -> Option<(u32, Stage, usize)>
    ensures since { IfSome result (λ p. PhaseSince acts.now p.0 p.1 p.2) }
    ensures none { IfNone result (IsAPhaseStanding acts.now → ⊥) }
{
    let k = last_of_vacuum(acts)?;
    let act = &acts[k];
    match &act.event {
        Event::Phase { stage } => Some((act.desk, *stage, k)),
        _ => None,
    }
}

/// Whether a phase of this stage stands that this desk made.
pub fn is_in_phase(acts: &[Act], desk: u32, stage: Stage) -> bool
    ensures { IsTrue result ↔ IsInPhase acts.now desk stage }
{
    match phase(acts) {
        Some((made_by, now, _)) => made_by == desk && now == stage,
        None => false,
    }
}

/// Whether the desk may give the gate back: it holds it, and if it is Vacuum, no phase stands.
pub fn may_give_back(acts: &[Act], desk: u32, gate: Gate) -> bool
    ensures { IsTrue result ↔ IsUngateAllowed acts.now desk gate }
{
    hold_of(acts, desk, gate).is_some() && (gate != Gate::Vacuum || phase(acts).is_none())
}

/// Whether the desk may begin to remove: it holds Vacuum alone, and no phase stands.
pub fn may_begin_remove(acts: &[Act], desk: u32) -> bool
    ensures { IsTrue result ↔ IsPhaseRemoveAllowed acts.now desk }
{
    match hold_of(acts, desk, Gate::Vacuum) {
        Some((hold, _)) => hold == Hold::Alone && phase(acts).is_none(),
        None => false,
    }
}

fn is_giving_back(act: &Act, desk: u32, gate: Gate) -> bool
    ensures { IsTrue result ↔ IsGivingBack desk gate act.now }
{
    match &act.event {
        Event::Ungate { gate: given } => act.desk == desk && *given == gate,
        _ => false,
    }
}

/// The last act by which the desk gave the gate back.
fn last_given(acts: &[Act], desk: u32, gate: Gate) -> Option<usize>
    ensures last { IfSome result (IsLast acts.now (IsGivingBack desk gate)) }
    ensures none { IfNone result (NoneOf acts.now (IsGivingBack desk gate)) }
{
    for k in (0..acts.len()).rev() {
        if is_giving_back(&acts[k], desk, gate) {
            return Some(k);
        }
    }
    None
}

fn is_taking_alone(act: &Act, desk: u32, gate: Gate) -> bool
    ensures { IsTrue result ↔ IsTakingAlone desk gate act.now }
{
    match &act.event {
        Event::Gate { gate: taken, hold } => {
            act.desk == desk && *taken == gate && *hold == Hold::Alone
        }
        _ => false,
    }
}

/// The last act by which the desk took the gate alone.
fn last_taken_alone(acts: &[Act], desk: u32, gate: Gate) -> Option<usize>
    ensures last { IfSome result (IsLast acts.now (IsTakingAlone desk gate)) }
    ensures none { IfNone result (NoneOf acts.now (IsTakingAlone desk gate)) }
{
    for k in (0..acts.len()).rev() {
        if is_taking_alone(&acts[k], desk, gate) {
            return Some(k);
        }
    }
    None
}

/// The number of the act that is the desk's last barrier at the gate, if that comes after the act `behind`.
pub fn last_barrier(acts: &[Act], desk: u32, gate: Gate, behind: usize) -> Option<usize>
    ensures last { IfSome result (IsLastBarrier acts.now desk gate behind) }
    ensures none { IfNone result ((k : ℕ) → IsLastBarrier acts.now desk gate behind k → ⊥) }
{
    let given = last_given(acts, desk, gate)?;
    let taken = last_taken_alone(&acts[..given], desk, gate)?;
    if behind < taken { Some(taken) } else { None }
}

fn is_drop(event: &Event) -> bool
    ensures { IsTrue result ↔ IsDrop event.now }
{
    matches!(
        event,
        Event::Drop {
            at: _,
            version: _,
            gone: _
        }
    )
}

fn last_drop(acts: &[Act]) -> Option<usize>
    ensures last { IfSome result (IsLast acts.now IsActDrop) }
    ensures none { IfNone result (NoneOf acts.now IsActDrop) }
{
    for k in (0..acts.len()).rev() {
        if is_drop(&acts[k].event) {
            return Some(k);
        }
    }
    None
}

/// Whether no ids are dropped after the act of number k.
fn are_drops_before(acts: &[Act], k: usize) -> bool
    ensures { IsTrue result ↔ NoneAfter acts.now k IsActDrop }
{
    match last_drop(acts) {
        Some(last) => last <= k,
        None => true,
    }
}

/// The position right after the barrier of Update behind which the desk's phase Remove is done. None where
/// that phase does not stand or is not done: the desk may not begin to repair.
pub fn removal_end(acts: &[Act], desk: u32) -> Option<usize>
    ensures at { IfSome result (IsRemoved acts.now desk) }
    ensures only { IfSome result (λ at. (other : ℕ) → IsRemoved acts.now desk other → other ≡ at) }
    ensures none { IfNone result (IsPhaseRepairAllowed acts.now desk → ⊥) }
{
    let (made_by, stage, begun) = phase(acts)?;
    if made_by != desk || stage != Stage::Remove {
        return None;
    }
    let barrier = last_barrier(acts, desk, Gate::Update, begun)?;
    if are_drops_before(acts, barrier) {
        Some(barrier + 1)
    } else {
        None
    }
}
