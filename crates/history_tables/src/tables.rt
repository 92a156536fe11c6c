//! The tables beside a history.

ghost use Rattle.std.specs.Prelude.{◌≡◌, ◌++◌, ◌∷◌, [], ◌+◌, ◌<◌, ◌≤◌, ◌^◌, ℕ, ⊤, List, OnOk, OnErr, IsTrue, ◌↔◌, MatchOption, IfSome, if◌then◌else◌};
ghost use Rattle.vec_history.specs.declared.event.Act.{Act as Acts};
ghost use Rattle.vec_history.specs.Gates.{Holds, HoldsAs, AgreesWithOthers};
ghost use Rattle.vec_history.specs.Phases.{IsAPhaseStanding, IsInPhase};
ghost use Rattle.vec_history.specs.Settling.{is_lasting, lasting_events};
ghost use Rattle.history_tables.specs.Telling.{Tells, IsTaking, IsEnd, IsToldEnd, HasRoom, ends_owed};
ghost use Rattle.history_tables.specs.Telling.{one_if_begins, one_if_some, settled_by, settled_in, phase_after};

use crate::holders::Holders;
use std::alloc::{AllocError, Global};
use vec_history::{Act, Event, Gate, Hold, Stage, is_lasting};

/// A phase of a vacuum, and the desk that made it.
#[derive(Clone, Copy, Debug, PartialEq, Eq)]
pub struct Phase {
    pub desk: u32,
    pub stage: Stage,
}

/// What a history says of gates, of a vacuum's phase and of settling, at its end.
#[derive(Drop)]
pub struct Tables {
    pub(crate) holders: Holders,
    pub(crate) phase: Option<Phase>,
    pub(crate) lasting: u64,
    pub(crate) settled: u64,
}

impl Tables {
    /// The tables beside no act.
    pub fn new(alloc: Global) -> Tables
        ensures tells { Tells result [] }
        ensures room { HasRoom 0 result }
        ensures owed { ends_owed result ≡ 0 }
    {
        Tables {
            holders: Holders::new(alloc),
            phase: None,
            lasting: 0,
            settled: 0,
        }
    }

    /// Makes room for so many holds more, which `note` needs for an act that takes a gate.
    pub fn reserve(&mut self, holds: usize) -> Result<(), AllocError>
        ensures same { (acts : List Acts) → Tells self.old acts → Tells self.new acts }
        ensures room { OnOk result (HasRoom holds self.new) }
        ensures kept { (n : ℕ) → HasRoom n self.old → HasRoom n self.new }
        ensures owed { ends_owed self.new ≡ ends_owed self.old }
    {
        self.holders.reserve(holds)
    }

    /// How the desk holds the gate, if it does.
    pub fn hold_of(&self, desk: u32, gate: Gate) -> Option<Hold>
        ensures { (acts : List Acts) → Tells self.now acts
            → MatchOption result (Holds acts desk gate → ⊥) (λ hold. HoldsAs acts desk gate hold) }
    {
        self.holders.hold_of(desk, gate)
    }

    /// Whether such a hold by the desk may stand beside those of all others.
    pub fn agree(&self, desk: u32, gate: Gate, hold: Hold) -> bool
        ensures { (acts : List Acts) → Tells self.now acts → IsTrue result ↔ AgreesWithOthers acts desk gate hold }
    {
        self.holders.agree(desk, gate, hold)
    }

    /// The phase that stands, if one does.
    pub fn phase(&self) -> Option<Phase>
        ensures { (acts : List Acts) → Tells self.now acts
            → MatchOption result (IsAPhaseStanding acts → ⊥) (λ phase. IsInPhase acts phase.desk phase.stage) }
    {
        self.phase
    }

    /// How many events of the history are lasting.
    pub fn lasting(&self) -> u64
        ensures { (acts : List Acts) → Tells self.now acts → result ≡ lasting_events acts }
    {
        self.lasting
    }

    /// How many events the last Settled of the history counts, 0 where there is none.
    pub fn settled(&self) -> u64
        ensures { (acts : List Acts) → Tells self.now acts → result ≡ settled_in acts }
    {
        self.settled
    }

    /// How many acts end all that stands: a release for each hold, and the end of the phase.
    pub fn ends_owed(&self) -> u64
        requires { ends_owed self.now < 2 ^ 64 }
        ensures { result ≡ ends_owed self.now }
    {
        self.holders.count() as u64 + one_if_some(self.phase)
    }

    /// Whether the event ends a hold of the desk, or the phase that stands.
    pub fn is_end(&self, desk: u32, event: &Event) -> bool
        ensures told { IsTrue result ↔ IsToldEnd self.now desk event.now }
        ensures ends { (acts : List Acts) → Tells self.now acts → IsEnd acts desk event.now → IsTrue result }
    {
        match event {
            Event::Ungate { gate } => self.holders.is_held(desk, *gate),
            Event::VacuumEnd => one_if_some(self.phase) == 1,
            Event::Cancel { stage: _ } => one_if_some(self.phase) == 1,
            _ => false,
        }
    }

    /// One act more. It takes no memory.
    pub fn note(&mut self, act: &Act)
        requires { IsTaking act.now.event → HasRoom 1 self.old }
        ensures tells { (acts : List Acts) → Tells self.old acts → lasting_events acts + 1 < 2 ^ 64
            → Tells self.new (acts ++ act.now ∷ []) }
        ensures taken { (n : ℕ) → HasRoom (n + 1) self.old → HasRoom n self.new }
        ensures kept { (n : ℕ) → (IsTaking act.now.event → ⊥) → HasRoom n self.old → HasRoom n self.new }
        ensures owed { ends_owed self.new ≤ ends_owed self.old + one_if_begins act.now.event }
        ensures ended { IsToldEnd self.old act.now.desk act.now.event → ends_owed self.new + 1 ≤ ends_owed self.old }
    {
        self.lasting = lasting_after(self.lasting, &act.event);
        self.settled = settled_after(self.settled, &act.event);
        self.phase = phase_after(self.phase, act);
        self.holders.note(act);
    }
}

fn one_if_some(phase: Option<Phase>) -> u64
    ensures { result ≡ one_if_some phase }
{
    match phase {
        Some(_) => 1,
        None => 0,
    }
}

fn lasting_after(lasting: u64, event: &Event) -> u64
    ensures { lasting + 1 < 2 ^ 64 → result ≡ lasting + (if is_lasting event.now then 1 else 0) }
{
    if is_lasting(event) {
        lasting.saturating_add(1)
    } else {
        lasting
    }
}

fn settled_after(settled: u64, event: &Event) -> u64
    ensures { result ≡ settled_by settled event.now }
{
    match event {
        Event::Settled { upto } => *upto,
        _ => settled,
    }
}

fn phase_after(phase: Option<Phase>, act: &Act) -> Option<Phase>
    ensures { result ≡ phase_after phase act.now }
{
    match &act.event {
        Event::Phase { stage } => Some(Phase {
            desk: act.desk,
            stage: *stage,
        }),
        Event::VacuumEnd => None,
        Event::Cancel { stage: _ } => None,
        _ => phase,
    }
}
