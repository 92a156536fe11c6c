//! What may be settled, and which faults of the disks may come.

ghost use Rattle.std.specs.Prelude.{◌≡◌, ◌↔◌, IsTrue, All};
ghost use Rattle.vec_history.specs.Settling.{is_lasting, lasting_events, IsSettledAllowed, IsFaultAllowed};
ghost use Rattle.vec_history.specs.Deciding.{IsFaultBefore, IsSettledWithin};

use crate::{Act, Event};

/// Whether the event goes to the log.
pub fn is_lasting(event: &Event) -> bool
    ensures { result ≡ is_lasting event.now }
{
    !matches!(
        event,
        Event::Gate { gate: _, hold: _ }
            | Event::Ungate { gate: _ }
            | Event::Phase { stage: _ }
            | Event::VacuumEnd
            | Event::Cancel { stage: _ }
            | Event::Settled { upto: _ }
            | Event::DiskFaulted { count: _ }
    )
}

/// How many of the acts go to the log.
pub fn count_lasting(acts: &[Act]) -> usize
    ensures { result ≡ lasting_events acts.now }
{
    acts.iter().filter(|act| is_lasting(&act.event)).count()
}

/// Whether the lasting events before this count may be settled: there are so many, and no act settled more.
pub fn may_settle(acts: &[Act], upto: u64) -> bool
    ensures { IsTrue result ↔ IsSettledAllowed acts.now upto }
{
    upto <= count_lasting(acts) as u64 && are_settled_within(acts, upto)
}

fn are_settled_within(acts: &[Act], upto: u64) -> bool
    ensures { IsTrue result ↔ All (λ a. IsSettledWithin upto a.event) acts.now }
{
    acts.iter().all(|act| is_settled_within(&act.event, upto))
}

fn is_settled_within(event: &Event, upto: u64) -> bool
    ensures { IsTrue result ↔ IsSettledWithin upto event.now }
{
    match event {
        Event::Settled { upto: before } => *before <= upto,
        _ => true,
    }
}

/// Whether the disks may have met so many faults: no act counted as many.
pub fn may_fault(acts: &[Act], count: u64) -> bool
    ensures { IsTrue result ↔ IsFaultAllowed acts.now count }
{
    acts.iter().all(|act| is_fault_before(&act.event, count))
}

fn is_fault_before(event: &Event, count: u64) -> bool
    ensures { IsTrue result ↔ IsFaultBefore count event.now }
{
    match event {
        Event::DiskFaulted { count: before } => *before < count,
        _ => true,
    }
}
