//! The rule of a kind of index.

ghost use Rattle.std.specs.Prelude.{ℕ, List};
ghost use Rattle.vec_history.specs.declared.event.Act.{Act as Acts};
ghost use Rattle.vec_history.specs.declared.event.Event.TheVariants as event;
ghost use Rattle.vec_history.specs.declared.gate.Gate.{Gate as Gates};
ghost use Rattle.vec_history.specs.declared.gate.Hold.{Hold as Holding};
ghost use Rattle.vec_history.specs.Acts.{act_of};
ghost use Rattle.vec_history.specs.Gates.{IsGateAllowed};

/// A state at which a history may begin, with the rule of its kind of index. It is for proofs alone.
pub trait Rules {
    /// The act may come after these acts.
    ghost allows: { Self → List Acts → Acts → Type 0 };

    /// Gates are taken by the same rule in an index of each kind.
    ghost allows_gates: { (base : Self) (acts : List Acts) (desk : ℕ) (gate : Gates) (hold : Holding)
        → allows base acts (act_of desk (event.Gate gate hold)) → IsGateAllowed acts desk gate hold };
}
