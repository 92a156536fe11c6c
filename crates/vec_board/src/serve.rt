//! All asks of desks.

ghost use Rattle.std.specs.Prelude.{◌≡◌, ◌≢◌, ◌↔◌, ◌≤◌, ℕ, ⊤, List, OnOk, OnErr, IfErr, length};
ghost use Rattle.page_bytes.specs.Content.{Content};
ghost use Rattle.vec_steps.specs.declared.fault.StepFault.TheVariants.{Memory};
ghost use Rattle.vec_steps.specs.Index.{Index};
ghost use Rattle.vec_steps.specs.Doing.{Cleaned, Ended};
ghost use Rattle.vec_steps.specs.Telling.{step_of};
ghost use Rattle.vec_steps.specs.Granting.{AgreesAtTake};
ghost use Rattle.vec_steps.specs.Desks.{Asks, MayAsk, WantsMemory, spare_after};
ghost use Rattle.vec_steps.specs.Calls.{Stepped, Failed, made_by, count_made};
ghost use Rattle.vec_board.specs.Standing.{StandsOn, acts_of};
ghost use Rattle.vec_board.specs.Acting.{IsAsBefore, IsSameSet};
ghost use Rattle.vec_board.specs.Looking.{desk_of};
ghost use Rattle.vec_board.specs.Serving.{IsBusy, Leaves, MakesFor, spare_of};
ghost use Rattle.vec_board.specs.AllAsks.{IsOfPart, HoldsPages, ServesBeside};

use crate::board_core::Core;
use page_sets::PageSet;
use std::alloc::Global;
use vec_steps::{Ask, StepFault, Told};

/// Which part of a core answers an ask.
#[derive(Clone, Copy, Debug, PartialEq, Eq)]
enum Part {
    Look,
    Room,
    Turn,
    Change,
}

fn part_of(ask: &Ask) -> Part
    ensures { IsOfPart result ask.now }
{
    match ask {
        Ask::Spent => Part::Room,
        Ask::Reserve { .. } => Part::Room,
        Ask::Meta => Part::Look,
        Ask::Node { .. } => Part::Look,
        Ask::List { .. } => Part::Look,
        Ask::Page { .. } => Part::Look,
        Ask::Centres { .. } => Part::Look,
        Ask::Rows { .. } => Part::Look,
        Ask::Take { .. } => Part::Turn,
        Ask::Release { .. } => Part::Turn,
        Ask::Phase { .. } => Part::Turn,
        Ask::EndVacuum => Part::Turn,
        Ask::Put { .. } => Part::Change,
        Ask::PutNew { .. } => Part::Change,
        Ask::Join { .. } => Part::Change,
        Ask::Link { .. } => Part::Change,
        Ask::Relist { .. } => Part::Change,
        Ask::Drop { .. } => Part::Change,
        Ask::Mark { .. } => Part::Change,
        Ask::Entry { .. } => Part::Change,
        Ask::Hint { .. } => Part::Change,
        Ask::Add { .. } => Part::Change,
        Ask::Extend { .. } => Part::Change,
        Ask::Cut { .. } => Part::Change,
        Ask::Aim { .. } => Part::Change,
    }
}

impl Core {
    /// Does what a desk asks, and tells what became of it, by the words of `vec_steps`; `Busy` exactly where a gate is asked for
    /// that another desk holds, and one of the two holds is Alone. The set has the pages that are looked at or changed. An ask
    /// whose change was made is spent; the desk made just the act that the step tells, and the pages are what it makes of them.
    ///
    /// Memory is wanted only where the ask may want it, and the log is full exactly where the event has no room beside what is
    /// used. After a refusal, and after every word by which nothing was done, all is as before, and the ask too.
    pub fn serve<P: PageSet>(
        &mut self,
        alloc: Global,
        desk: u32,
        ask: &mut Ask,
        told: &mut Told,
        pages: &mut P,
    ) -> Result<(), StepFault>
        requires bits { length told.old.bits ≡ self.old.params.bits }
        requires next { P.may_add pages.old self.old.summary.blocks }
        ensures ok { OnOk result ((IsBusy ask.old told.new → ⊥) → Stepped (Asks (ServesBeside self.old (P.held pages.old) ask.old)
            (desk_of self.old desk) (acts_of self.old) ask.old) (desk_of self.old desk) (acts_of self.old) (acts_of self.new)
            ask.old ask.new told.new) }
        ensures made { OnOk result ((IsBusy ask.old told.new → ⊥) → (ending : Cleaned)
            × MakesFor self.old self.new desk ask.old (made_by self.old.params (step_of ask.old told.new ending))) }
        ensures leaves { (all : List Content) (base : Index) → StandsOn self.old all base
            → HoldsPages self.old (P.held pages.old) all base ask.old → MayAsk (desk_of self.old desk) base (acts_of self.old) ask.old
            → OnOk result (Leaves self.old self.new (P.held pages.old) (P.held pages.new) all base
            (made_by self.old.params (step_of ask.old told.new Ended))) }
        ensures busy { (all : List Content) (base : Index) → StandsOn self.old all base
            → OnOk result (IsBusy ask.old told.new ↔ (AgreesAtTake (acts_of self.old) desk ask.old → ⊥)) }
        ensures still { OnOk result (IsBusy ask.old told.new → IsAsBefore self.old self.new × (ask.new ≡ ask.old)) }
        ensures same { OnErr result (ask.new ≡ ask.old) }
        ensures kept { OnErr result (IsAsBefore self.old self.new) }
        ensures kept_pages { (all : List Content) (base : Index) → StandsOn self.old all base
            → HoldsPages self.old (P.held pages.old) all base ask.old → MayAsk (desk_of self.old desk) base (acts_of self.old) ask.old
            → OnErr result (IsSameSet (P.held pages.old) (P.held pages.new)) }
        ensures err { IfErr result (Failed (Asks (ServesBeside self.old (P.held pages.old) ask.old) (desk_of self.old desk)
            (acts_of self.old) ask.old) (desk_of self.old desk) (acts_of self.old) (acts_of self.new) ask.old) }
        ensures wants { IfErr result (λ fault. fault ≡ Memory → WantsMemory (spare_of self.old desk) ask.old) }
        ensures next { OnOk result (P.may_add pages.new self.new.summary.blocks) }
        ensures bits { length told.new.bits ≡ length told.old.bits }
    {
        match part_of(ask) {
            Part::Look => self.look(alloc, desk, pages, ask, told),
            Part::Room => self.make_ready(desk, ask, told),
            Part::Turn => self.turn(desk, ask, told),
            Part::Change => self.change(desk, ask, told, pages),
        }
    }
}
