//! Other desks that stand in the way of a gate end their phase, and give it back.

ghost use Rattle.std.specs.Prelude.{◌≡◌, ◌≢◌, ◌↔◌, ◌+◌, ℕ, IsTrue, length, IfSome, IfNone};
ghost use Rattle.vec_history.specs.declared.gate.Gate.TheVariants.{Vacuum};
ghost use Rattle.vec_history.specs.declared.gate.Hold.{Hold as Holding};
ghost use Rattle.vec_history.specs.declared.stage.Stage.{Stage as Stages};
ghost use Rattle.vec_history.specs.Gates.{Holds, HoldsSince, AgreesWithOthers};
ghost use Rattle.vec_history.specs.Phases.{IsInPhase, IsAPhaseStanding};
ghost use Rattle.vec_graph.specs.declared.graph.Graph.{Graph};
ghost use Rattle.vec_steps.specs.Index.{OfNodes};
ghost use Rattle.vec_board.specs.Standing.{acts_of};
ghost use Rattle.vec_board.specs.Boards.{StandsWhole};
ghost use Rattle.meddled_desk.specs.Meddling.{Meddles, AreHoldsOf, AreTakenFrom};

use vec_board::Board;
use vec_history::{Act, Gate, Hold, hold_of, may_give_back, may_take, phase};
use vec_outside::Disks;
use vec_steps::{Ask, Told};

// The desk, but for that of number 0, that took the gate by this act and holds it since.
fn holder_at(acts: &[Act], k: usize, gate: Gate) -> Option<u32>
    ensures other { IfSome result (λ desk. desk ≢ 0) }
    ensures only { IfSome result (λ desk. (other : ℕ) (hold : Holding) → HoldsSince acts.now other gate hold k → other ≡ desk) }
    ensures none { IfNone result ((desk : ℕ) (hold : Holding) → desk ≢ 0 → HoldsSince acts.now desk gate hold k → ⊥) }
{
    let act = acts.get(k)?;
    if act.desk == 0 {
        return None;
    }
    let (_, since) = hold_of(acts, act.desk, gate)?;
    if since == k { Some(act.desk) } else { None }
}

// Whether the phase that stands is the desk's.
fn is_maker(acts: &[Act], desk: u32) -> bool
    ensures { IsTrue result ↔ ((stage : Stages) × IsInPhase acts.now desk stage) }
{
    match phase(acts) {
        Some((maker, _, _)) => maker == desk,
        None => false,
    }
}

// The desk ends its phase, if it made the one that stands.
fn end_phase<D: Disks>(board: &mut Board<D>, desk: u32, told: &mut Told)
    requires bits { length told.old.bits ≡ board.old.core.params.bits }
    requires other { desk ≢ 0 }
    ensures meddles { (base : Graph) → Meddles base (D.count board.old.disks) board.old.core board.new.core board.old.pages.pages.items
        board.new.pages.pages.items }
    ensures ended { (base : Graph) (stage : Stages)
        → StandsWhole board.old.core board.old.pages.pages.items (D.count board.old.disks) (OfNodes base)
        → IsInPhase (acts_of board.new.core) desk stage → ⊥ }
    ensures holds { AreHoldsOf (acts_of board.old.core) (acts_of board.new.core) }
    ensures disks { board.new.disks ≡ board.old.disks }
    ensures params { board.new.core.params ≡ board.old.core.params }
    ensures bits { length told.new.bits ≡ length told.old.bits }
{
    if !is_maker(board.acts(), desk) {
        return;
    }
    let mut ask = Ask::EndVacuum;
    let _ = board.serve(desk, &mut ask, told);
}

// The desk gives the gate back, if it may.
fn give_back<D: Disks>(board: &mut Board<D>, desk: u32, gate: Gate, told: &mut Told)
    requires bits { length told.old.bits ≡ board.old.core.params.bits }
    requires other { desk ≢ 0 }
    ensures meddles { (base : Graph) → Meddles base (D.count board.old.disks) board.old.core board.new.core board.old.pages.pages.items
        board.new.pages.pages.items }
    ensures given { (base : Graph) → StandsWhole board.old.core board.old.pages.pages.items (D.count board.old.disks) (OfNodes base)
        → (gate ≡ Vacuum → IsAPhaseStanding (acts_of board.old.core) → ⊥) → Holds (acts_of board.new.core) desk gate → ⊥ }
    ensures holds { AreHoldsOf (acts_of board.old.core) (acts_of board.new.core) }
    ensures disks { board.new.disks ≡ board.old.disks }
    ensures params { board.new.core.params ≡ board.old.core.params }
    ensures bits { length told.new.bits ≡ length told.old.bits }
{
    if !may_give_back(board.acts(), desk, gate) {
        return;
    }
    let mut ask = Ask::Release { gate };
    let _ = board.serve(desk, &mut ask, told);
}

// The desk ends its phase, and gives the gate back.
fn end_hold<D: Disks>(board: &mut Board<D>, desk: u32, gate: Gate, told: &mut Told)
    requires bits { length told.old.bits ≡ board.old.core.params.bits }
    requires other { desk ≢ 0 }
    ensures meddles { (base : Graph) → Meddles base (D.count board.old.disks) board.old.core board.new.core board.old.pages.pages.items
        board.new.pages.pages.items }
    ensures ended { (base : Graph) → StandsWhole board.old.core board.old.pages.pages.items (D.count board.old.disks) (OfNodes base)
        → Holds (acts_of board.new.core) desk gate → ⊥ }
    ensures holds { AreHoldsOf (acts_of board.old.core) (acts_of board.new.core) }
    ensures disks { board.new.disks ≡ board.old.disks }
    ensures params { board.new.core.params ≡ board.old.core.params }
    ensures bits { length told.new.bits ≡ length told.old.bits }
{
    end_phase(board, desk, told);
    give_back(board, desk, gate, told);
}

// Who took the gate by this act and holds it since, but for the desk of number 0, ends that.
fn end_hold_at<D: Disks>(board: &mut Board<D>, k: usize, gate: Gate, told: &mut Told)
    requires bits { length told.old.bits ≡ board.old.core.params.bits }
    ensures meddles { (base : Graph) → Meddles base (D.count board.old.disks) board.old.core board.new.core board.old.pages.pages.items
        board.new.pages.pages.items }
    ensures ended { (base : Graph) → StandsWhole board.old.core board.old.pages.pages.items (D.count board.old.disks) (OfNodes base)
        → AreTakenFrom (acts_of board.old.core) gate k → AreTakenFrom (acts_of board.new.core) gate (k + 1) }
    ensures holds { AreHoldsOf (acts_of board.old.core) (acts_of board.new.core) }
    ensures disks { board.new.disks ≡ board.old.disks }
    ensures params { board.new.core.params ≡ board.old.core.params }
    ensures bits { length told.new.bits ≡ length told.old.bits }
{
    let Some(desk) = holder_at(board.acts(), k, gate) else {
        return;
    };
    end_hold(board, desk, gate, told);
}

/// Desks that stand in the way of this hold of the desk of number 0 end theirs, in the order in which they took them, until none does.
pub(crate) fn end_holds<D: Disks>(board: &mut Board<D>, gate: Gate, hold: Hold, told: &mut Told)
    requires bits { length told.old.bits ≡ board.old.core.params.bits }
    ensures meddles { (base : Graph) → Meddles base (D.count board.old.disks) board.old.core board.new.core board.old.pages.pages.items
        board.new.pages.pages.items }
    ensures agree { (base : Graph) → StandsWhole board.old.core board.old.pages.pages.items (D.count board.old.disks) (OfNodes base)
        → AgreesWithOthers (acts_of board.new.core) 0 gate hold }
    ensures disks { board.new.disks ≡ board.old.disks }
    ensures params { board.new.core.params ≡ board.old.core.params }
    ensures bits { length told.new.bits ≡ length told.old.bits }
{
    let count = board.acts().len();
    for k in 0..count {
        if may_take(board.acts(), 0, gate, hold) {
            return;
        }
        end_hold_at(board, k, gate, told);
    }
}
