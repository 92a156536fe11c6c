//! Acts that go to no page and into no log: those of gates, of a vacuum's passes, and of settling.

ghost use Rattle.std.specs.Prelude.{◌≡◌, ◌++◌, ◌∷◌, [], false, List, OnOk, OnErr, IfErr};
ghost use Rattle.vec_history.specs.Acts.{act_of};
ghost use Rattle.vec_history.specs.Settling.{is_lasting};
ghost use Rattle.page_bytes.specs.Content.{Content};
ghost use Rattle.vec_steps.specs.declared.fault.StepFault.TheVariants.{Memory};
ghost use Rattle.vec_steps.specs.Index.{Index, IsLegal};
ghost use Rattle.vec_board.specs.Ready.{HasOwnRoom};
ghost use Rattle.vec_board.specs.Standing.{StandsOn, acts_of};
ghost use Rattle.vec_board.specs.Acting.{IsMade, IsAsBefore, IsCommitFault};

use crate::board_core::Core;
use crate::changing::not_allowed;
use vec_history::Event;
use vec_steps::StepFault;

impl Core {
    /// Makes an act of a desk that goes to no page. Memory is wanted only where the act has no room of its own; then nothing was
    /// made. An end of nothing, which the rules do not allow, is refused by `LogFull` of 0 and 0.
    pub(crate) fn pass(&mut self, desk: u32, event: Event) -> Result<(), StepFault>
        requires { is_lasting event ≡ false }
        ensures made { OnOk result (IsMade self.old self.new desk event 0) }
        ensures kept { OnErr result (IsAsBefore self.old self.new) }
        ensures stands { (all : List Content) (base : Index) → StandsOn self.old all base
            → IsLegal base (acts_of self.old ++ act_of desk event ∷ []) → OnOk result (StandsOn self.new all base) }
        ensures cause { (all : List Content) (base : Index) → StandsOn self.old all base
            → IsLegal base (acts_of self.old ++ act_of desk event ∷ []) → IfErr result (λ fault. fault ≡ Memory) }
        ensures fault { IfErr result (IsCommitFault self.old desk event 0) }
    {
        if !self.history.may_end(desk, &event) {
            return Err(not_allowed());
        }
        match self.make_room(desk, &event) {
            Ok(()) => {
                self.record(desk, event, 0);
                Ok(())
            }
            Err(fault) => Err(fault),
        }
    }
}
