//! What a call leaves of the gates that a desk holds: a law, and no work.

ghost use Rattle.std.specs.Prelude.{ℕ, List};
ghost use Rattle.vec_history.specs.declared.event.Event.{Event as Events};
ghost use Rattle.vec_history.specs.declared.event.Act.{Act as ActsMade};
ghost use Rattle.vec_history.specs.declared.gate.Gate.{Gate as Gates};
ghost use Rattle.vec_history.specs.declared.gate.Hold.{Hold as Holding};
ghost use Rattle.vec_history.specs.Gates.{Holds, HoldsSince, IsOfGate};
ghost use Rattle.vec_steps.specs.Calls.{Acts, NoneOf};

/// A law, and no work. A call of which no event takes or gives back a gate, whatever others do meanwhile, leaves the desk's hold on it
/// as it was: held since the same act, or not held.
pub fn law_holds()
    ensures lasts { (desk : ℕ) (old new : List ActsMade) (own : List Events) (gate : Gates) (hold : Holding) (k : ℕ)
        → Acts desk old new own → NoneOf (IsOfGate gate) own → HoldsSince old desk gate hold k → HoldsSince new desk gate hold k }
    ensures before { (desk : ℕ) (old new : List ActsMade) (own : List Events) (gate : Gates) → Acts desk old new own
        → NoneOf (IsOfGate gate) own → Holds new desk gate → Holds old desk gate }
{}
