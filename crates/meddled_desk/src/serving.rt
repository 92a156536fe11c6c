//! A step of the desk of number 0 at a board.

ghost use Rattle.std.specs.Prelude.{◌≡◌, ◌↔◌, ◌≤◌, ◌-◌, IsTrue, OnOk, OnErr, IfErr, length};
ghost use Rattle.vec_steps.specs.declared.fault.StepFault.TheVariants.{Memory};
ghost use Rattle.vec_steps.specs.declared.told.Word.TheVariants.{Busy};
ghost use Rattle.vec_steps.specs.Index.{Index};
ghost use Rattle.vec_steps.specs.Granting.{AgreesAtTake};
ghost use Rattle.vec_steps.specs.Telling.{fault_step};
ghost use Rattle.vec_steps.specs.Desks.{Asks, WantsMemory, spare_after};
ghost use Rattle.vec_steps.specs.Calls.{Stepped, Failed, made_by, count_made};
ghost use Rattle.vec_board.specs.Standing.{acts_of};
ghost use Rattle.vec_board.specs.Looking.{desk_of};
ghost use Rattle.vec_board.specs.Serving.{IsTake, spare_of};
ghost use Rattle.vec_board.specs.Boards.{StandsWhole};
ghost use Rattle.meddled_desk.specs.Meddling.{ComesLater, IsAgreed};

use vec_board::Board;
use vec_outside::Disks;
use vec_steps::{Ask, StepFault, Told, Word};

fn is_take(ask: &Ask) -> bool
    ensures { IsTrue result ↔ IsTake ask.now }
{
    match ask {
        Ask::Take { .. } => true,
        _ => false,
    }
}

// Whether the word to an ask is that another desk holds the gate.
fn is_busy(take: bool, word: Word) -> bool
    ensures { IsTrue result ↔ (IsTrue take × (word ≡ Busy)) }
{
    match word {
        Word::Busy => take,
        _ => false,
    }
}

/// Does what the desk of number 0 asks. Where another desk's hold stands in the way of a gate, it ends by a fault that has no cause: so
/// that is to be seen to before.
pub(crate) fn serve_own<D: Disks>(
    board: &mut Board<D>,
    ask: &mut Ask,
    told: &mut Told,
) -> Result<(), StepFault>
    requires { length told.old.bits ≡ board.old.core.params.bits }
    ensures ok { OnOk result (Stepped (Asks (StandsWhole board.old.core board.old.pages.pages.items (D.count board.old.disks))
        (desk_of board.old.core 0) (acts_of board.old.core) ask.old) (desk_of board.old.core 0) (acts_of board.old.core)
        (acts_of board.new.core) ask.old ask.new told.new) }
    ensures err { IfErr result (Failed (IsAgreed (Asks (StandsWhole board.old.core board.old.pages.pages.items (D.count board.old.disks))
        (desk_of board.old.core 0) (acts_of board.old.core) ask.old) (acts_of board.old.core) ask.old) (desk_of board.old.core 0)
        (acts_of board.old.core) (acts_of board.new.core) ask.old) }
    ensures same { OnErr result (ask.new ≡ ask.old) }
    ensures wants { IfErr result (λ fault. fault ≡ Memory → WantsMemory (spare_of board.old.core 0) ask.old) }
    ensures spare { OnOk result (spare_after ask.old (spare_of board.old.core 0) (count_made board.old.core.params ask.old told.new)
        ≤ spare_of board.new.core 0) }
    ensures spare_kept { IfErr result (λ fault. spare_of board.old.core 0 - length (made_by board.old.core.params (fault_step fault))
        ≤ spare_of board.new.core 0) }
    ensures stands { (base : Index) → Asks (StandsWhole board.old.core board.old.pages.pages.items (D.count board.old.disks))
        (desk_of board.old.core 0) (acts_of board.old.core) ask.old base
        → StandsWhole board.new.core board.new.pages.pages.items (D.count board.new.disks) base }
    ensures desk { desk_of board.new.core 0 ≡ desk_of board.old.core 0 }
    ensures comes { ComesLater board.new.core board.old.core }
    ensures bits { length told.new.bits ≡ length told.old.bits }
{
    let take = is_take(ask);
    match board.serve(0, ask, told) {
        Ok(()) => {
            if is_busy(take, told.word) {
                return Err(StepFault::LogFull { used: 0, size: 0 });
            }
            Ok(())
        }
        Err(fault) => Err(fault),
    }
}
