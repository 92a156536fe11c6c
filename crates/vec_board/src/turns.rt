//! Gates, and the passes of a vacuum.

ghost use Rattle.std.specs.Prelude.{◌≡◌, ◌↔◌, ◌+◌, ◌++◌, ◌∷◌, [], ℕ, false, List, IsTrue, IsSome, OnOk, OnErr, IfErr, IfSome, IfNone};
ghost use Rattle.vec_history.specs.declared.event.Act.{Act as Acts};
ghost use Rattle.vec_history.specs.Acts.{act_of};
ghost use Rattle.vec_history.specs.Phases.{IsAPhaseStanding};
ghost use Rattle.history_tables.specs.Telling.{Tells};
ghost use Rattle.page_bytes.specs.Content.{Content};
ghost use Rattle.vec_steps.specs.declared.fault.StepFault.TheVariants.{Memory, Disk};
ghost use Rattle.vec_steps.specs.declared.told.Word.TheVariants.{Done};
ghost use Rattle.vec_steps.specs.Index.{Index};
ghost use Rattle.vec_steps.specs.Doing.{Cleaned};
ghost use Rattle.vec_steps.specs.Telling.{step_of};
ghost use Rattle.vec_steps.specs.Granting.{AgreesAtTake};
ghost use Rattle.vec_steps.specs.Desks.{Asks, MayAsk, WantsMemory};
ghost use Rattle.vec_steps.specs.Calls.{Stepped, Failed, made_by};
ghost use Rattle.vec_board.specs.Standing.{StandsOn, acts_of};
ghost use Rattle.vec_board.specs.Acting.{IsAsBefore};
ghost use Rattle.vec_board.specs.Looking.{desk_of};
ghost use Rattle.vec_board.specs.Serving.{IsTurn, IsTake, IsBusy, IsTurnOf, MakesJust, MakesTurn, SaysTurn, StandsSomehow, EndsPhase, end_in, spare_of};

use crate::board_core::Core;
use crate::changing::not_allowed;
use vec_history::{Event, Stage};
use vec_steps::{Ask, StepFault, Told, Word};

/// How a vacuum ends in a phase, where so many nodes are doomed: done where it marks and none is.
fn end_in(stage: Stage, doomed: u64) -> Event
    ensures { result ≡ end_in stage doomed }
{
    match stage {
        Stage::Mark => {
            if doomed == 0 {
                Event::VacuumEnd
            } else {
                Event::Cancel { stage: Stage::Mark }
            }
        }
        Stage::Remove => Event::Cancel {
            stage: Stage::Remove,
        },
        Stage::Repair => Event::Cancel {
            stage: Stage::Repair,
        },
    }
}

impl Core {
    /// Whether no hold of another desk stands in the way of the gate that is asked for, if one is.
    fn agrees(&self, desk: u32, ask: &Ask) -> bool
        ensures told { (acts : List Acts) → Tells self.now.history.tables acts → IsTrue result ↔ AgreesAtTake acts desk ask.now }
        ensures take { result ≡ false → IsTake ask.now }
    {
        match ask {
            Ask::Take { gate, hold } => self.history.tables().agree(desk, *gate, *hold),
            _ => true,
        }
    }

    /// How the vacuum ends whose phase stands, if one does.
    fn end_of_vacuum(&self) -> Option<Event>
        ensures ends { IfSome result (EndsPhase self.now) }
        ensures none { IfNone result ((acts : List Acts) → Tells self.now.history.tables acts → IsAPhaseStanding acts → ⊥) }
    {
        match self.history.tables().phase() {
            Some(phase) => Some(end_in(phase.stage, self.summary.doomed)),
            None => None,
        }
    }

    /// The event that an ask of a gate or of a vacuum makes; None only where no phase stands that could end.
    fn turn_event(&self, ask: &Ask) -> Option<Event>
        ensures of { IfSome result (IsTurnOf ask.now) }
        ensures says { IfSome result (SaysTurn self.now ask.now) }
        ensures some { (desk : ℕ) (all : List Content) (base : Index) → StandsOn self.now all base
            → IsTurn ask.now → MayAsk (desk_of self.now desk) base (acts_of self.now) ask.now → IsSome result }
    {
        match ask {
            Ask::Take { gate, hold } => Some(Event::Gate {
                gate: *gate,
                hold: *hold,
            }),
            Ask::Release { gate } => Some(Event::Ungate { gate: *gate }),
            Ask::Phase { stage } => Some(Event::Phase { stage: *stage }),
            Ask::EndVacuum => self.end_of_vacuum(),
            _ => None,
        }
    }

    /// Makes the event of an ask of a gate or of a vacuum, where no other desk stands in its way.
    fn make_turn(&mut self, desk: u32, ask: &Ask, told: &mut Told) -> Result<(), StepFault>
        ensures made { OnOk result (MakesTurn self.old self.new desk ask.now) }
        ensures kept { OnErr result (IsAsBefore self.old self.new) }
        ensures stands { (all : List Content) (base : Index) → StandsOn self.old all base → IsTurn ask.now
            → MayAsk (desk_of self.old desk) base (acts_of self.old) ask.now → AgreesAtTake (acts_of self.old) desk ask.now
            → OnOk result (StandsOn self.new all base) }
        ensures cause { (all : List Content) (base : Index) → StandsOn self.old all base → IsTurn ask.now
            → MayAsk (desk_of self.old desk) base (acts_of self.old) ask.now → AgreesAtTake (acts_of self.old) desk ask.now
            → IfErr result (λ fault. fault ≡ Memory) }
        ensures wants { IfErr result (λ fault. fault ≡ Memory → WantsMemory (spare_of self.old desk) ask.now) }
        ensures no_disk { IfErr result (λ fault. (count : ℕ) → fault ≡ Disk count → ⊥) }
        ensures told { told.new ≡ record told.old { word = Done } }
    {
        told.word = Word::Done;
        match self.turn_event(ask) {
            Some(event) => self.pass(desk, event),
            None => Err(not_allowed()),
        }
    }

    /// Does what a desk asks of a gate or of a vacuum's passes. The word is `Busy` exactly where a gate is asked for that another
    /// desk holds, and one of the two holds is Alone; then nothing changed. A vacuum ends done where the rules allow that, and
    /// else in the phase that stands. No page is looked at.
    ///
    /// Memory is wanted only where the desk has no room in reserve, and never for a release or an end. Then nothing changed.
    pub fn turn(&mut self, desk: u32, ask: &mut Ask, told: &mut Told) -> Result<(), StepFault>
        ensures ok { OnOk result ((IsBusy ask.old told.new → ⊥) → Stepped (Asks (StandsSomehow self.old) (desk_of self.old desk)
            (acts_of self.old) ask.old) (desk_of self.old desk) (acts_of self.old) (acts_of self.new) ask.old ask.new told.new) }
        ensures made { OnOk result ((IsBusy ask.old told.new → ⊥) → (ending : Cleaned)
            × MakesJust self.old self.new desk (made_by self.old.params (step_of ask.old told.new ending))) }
        ensures leaves { (all : List Content) (base : Index) → StandsOn self.old all base → IsTurn ask.old
            → MayAsk (desk_of self.old desk) base (acts_of self.old) ask.old → OnOk result (StandsOn self.new all base) }
        ensures busy { (all : List Content) (base : Index) → StandsOn self.old all base
            → OnOk result (IsBusy ask.old told.new ↔ (AgreesAtTake (acts_of self.old) desk ask.old → ⊥)) }
        ensures still { OnOk result (IsBusy ask.old told.new → IsAsBefore self.old self.new × (ask.new ≡ ask.old)) }
        ensures same { OnErr result (ask.new ≡ ask.old) }
        ensures kept { OnErr result (IsAsBefore self.old self.new) }
        ensures err { IsTurn ask.old → IfErr result (Failed (Asks (StandsSomehow self.old) (desk_of self.old desk) (acts_of self.old)
            ask.old) (desk_of self.old desk) (acts_of self.old) (acts_of self.new) ask.old) }
        ensures wants { IfErr result (λ fault. fault ≡ Memory → WantsMemory (spare_of self.old desk) ask.old) }
        ensures summary { self.new.summary ≡ self.old.summary }
        ensures bits { told.new.bits ≡ told.old.bits }
    {
        told.at = self.history.acts().len() as u64;
        if !self.agrees(desk, ask) {
            told.word = Word::Busy;
            return Ok(());
        }
        match self.make_turn(desk, ask, told) {
            Ok(()) => {
                *ask = Ask::Spent;
                Ok(())
            }
            Err(fault) => Err(fault),
        }
    }
}
