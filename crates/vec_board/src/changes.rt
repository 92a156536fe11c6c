//! Changes of pages that desks ask for.

ghost use Rattle.std.specs.Prelude.{◌≡◌, ◌≤◌, ◌∷◌, [], ℕ, List, true, OnOk, OnErr, IfErr, length};
ghost use Rattle.vec_history.specs.declared.event.Event.{Event as Events};
ghost use Rattle.vec_history.specs.Settling.{is_lasting};
ghost use Rattle.page_bytes.specs.Content.{Content};
ghost use Rattle.page_words.specs.Deciding.{events_of};
ghost use Rattle.vec_steps.specs.declared.fault.StepFault.TheVariants.{Memory};
ghost use Rattle.index_sizes.specs.declared.limits.TheConstants.{LOG_ROOM};
ghost use Rattle.vec_steps.specs.Index.{Index};
ghost use Rattle.vec_steps.specs.Doing.{Ended};
ghost use Rattle.vec_steps.specs.Telling.{step_of};
ghost use Rattle.vec_steps.specs.Desks.{Asks, MayAsk, WantsMemory, used_after};
ghost use Rattle.vec_steps.specs.Calls.{Stepped, Failed, made_by};
ghost use Rattle.index_pages.specs.Standing.{index_after};
ghost use Rattle.vec_board.specs.Standing.{StandsOn, acts_of};
ghost use Rattle.vec_board.specs.Acting.{IsMade, IsAsBefore, IsSameSet, IsCommitFault, ComesTo, MayCommit, room_of};
ghost use Rattle.vec_board.specs.Looking.{desk_of};
ghost use Rattle.vec_board.specs.Serving.{MakesJust, Leaves, spare_of};
ghost use Rattle.vec_board.specs.Changes.{IsChange, HoldsFor, StandsWithin, grown_of};

use crate::board_core::Core;
use crate::events::{given_back, grown, makes, rest_of, take_event};
use page_sets::PageSet;
use page_words::{Making, decide};
use vec_steps::{Ask, StepFault, Told};

impl Core {
    /// Does a change that a desk asks for, if the pages say that it can be done, and tells their
    /// word. The set has the pages that tell it and those that the event touches, and may be given
    /// the next one. The position is behind all acts before. Any other ask is told nothing.
    ///
    /// Where an event is made the ask is spent. At every other word, and at a fault, the ask is as
    /// it was, and so are the core and the pages. Memory is wanted where the desk has no room in
    /// reserve, or a block may come; the log is full exactly where the event that the pages let be
    /// made has no room beside what is used.
    pub fn change<P: PageSet>(
        &mut self,
        desk: u32,
        ask: &mut Ask,
        told: &mut Told,
        pages: &mut P,
    ) -> Result<(), StepFault>
        requires { P.may_add pages.old self.old.summary.blocks }

        // The answer is what each index says on which the core stands, at the position of the act, if one is made.
        ensures ok { IsChange ask.old → OnOk result (Stepped
            (Asks (StandsWithin self.old (P.held pages.old) ask.old) (desk_of self.old desk) (acts_of self.old) ask.old)
            (desk_of self.old desk) (acts_of self.old) (acts_of self.new) ask.old ask.new told.new) }
        ensures made { IsChange ask.old → OnOk result (MakesJust self.old self.new desk
            (made_by self.old.params (step_of ask.old told.new Ended))) }
        ensures leaves { IsChange ask.old → (all : List Content) (base : Index) → StandsOn self.old all base
            → HoldsFor self.old.params (P.held pages.old) all (index_after base (acts_of self.old)) ask.old
            → MayAsk (desk_of self.old desk) base (acts_of self.old) ask.old
            → OnOk result (Leaves self.old self.new (P.held pages.old) (P.held pages.new) all base
            (made_by self.old.params (step_of ask.old told.new Ended))) }
        ensures next { OnOk result (P.may_add pages.new self.new.summary.blocks) }

        // Refused, nothing changed.
        ensures err { IsChange ask.old → IfErr result (Failed
            (Asks (StandsWithin self.old (P.held pages.old) ask.old) (desk_of self.old desk) (acts_of self.old) ask.old)
            (desk_of self.old desk) (acts_of self.old) (acts_of self.new) ask.old) }
        ensures wants { IsChange ask.old → IfErr result (λ fault. fault ≡ Memory → WantsMemory (spare_of self.old desk) ask.old) }
        ensures same { OnErr result (ask.new ≡ ask.old) }
        ensures kept { OnErr result (IsAsBefore self.old self.new) }
        ensures kept_pages { IsChange ask.old → (all : List Content) (base : Index) → StandsOn self.old all base
            → HoldsFor self.old.params (P.held pages.old) all (index_after base (acts_of self.old)) ask.old
            → MayAsk (desk_of self.old desk) base (acts_of self.old) ask.old
            → OnErr result (IsSameSet (P.held pages.old) (P.held pages.new)) }
        ensures bits { length told.new.bits ≡ length told.old.bits }
    {
        told.at = self.history.acts().len() as u64;
        let making = decide(&self.params, &*pages, self.summary.blocks, ask, told);
        if !makes(ask, making) {
            return Ok(());
        }
        self.make(desk, ask, making, told.left, pages)
    }

    // Makes the event of an ask, or leaves the ask as it was.
    fn make<P: PageSet>(
        &mut self,
        desk: u32,
        ask: &mut Ask,
        making: Making,
        left: u8,
        pages: &mut P,
    ) -> Result<(), StepFault>
        requires next { P.may_add pages.old self.old.summary.blocks }
        requires one { length (events_of ask.old making) ≡ 1 }
        ensures made { (e : Events) → events_of ask.old making ≡ e ∷ [] → OnOk result (IsMade self.old self.new desk e left) }
        ensures comes { (e : Events) (all : List Content) (base : Index) → events_of ask.old making ≡ e ∷ []
            → MayCommit self.old (P.held pages.old) all base desk e left (grown_of ask.old making)
            → ComesTo self.old self.new (P.held pages.old) (P.held pages.new) all base desk e (grown_of ask.old making) result }
        ensures room { (e : Events) → events_of ask.old making ≡ e ∷ [] → is_lasting e ≡ true
            → OnOk result (used_after (room_of self.new) (acts_of self.new) ≤ LOG_ROOM) }
        ensures fault { (e : Events) → events_of ask.old making ≡ e ∷ []
            → IfErr result (IsCommitFault self.old desk e (grown_of ask.old making)) }
        ensures spent { OnOk result (ask.new ≡ Ask.Spent) }
        ensures same { OnErr result (ask.new ≡ ask.old) }
        ensures kept { OnErr result (IsAsBefore self.old self.new) }
        ensures next { OnOk result (P.may_add pages.new self.new.summary.blocks) }
    {
        let rest = rest_of(ask);
        let grown = grown(ask, making);
        let event = take_event(ask, making);
        match self.prepare(desk, &event, grown, pages) {
            Ok(()) => {
                self.record(desk, event, left);
                Ok(())
            }
            Err(fault) => {
                *ask = given_back(event, rest);
                Err(fault)
            }
        }
    }
}
