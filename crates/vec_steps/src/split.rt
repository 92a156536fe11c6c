//! Desks that split, one for each of two threads.

ghost use Rattle.std.specs.Prelude.{◌≡◌, ◌≤◌, ◌⊎◌};
ghost use Rattle.vec_steps.specs.Index.{Index};
ghost use Rattle.vec_steps.specs.Calls.{HoldsNone, AreHalves, GoesOnWithout, first_half, second_half};

use crate::steps::Steps;

/// A desk that splits in two, which others may use at the same time, and two that join again. Neither makes an act.
pub trait Split: Steps + Send {
    /// The first keeps the number. Both have seen what this one had, and the second holds no gate.
    fn split(self) -> (Self, Self)
        requires { (Self.desk self).depth ≤ 30 }
        ensures first { Self.desk result.0 ≡ first_half (Self.desk self) }
        ensures second { Self.desk result.1 ≡ second_half (Self.desk self) }
        ensures seen { (Self.seen result.0 ≡ Self.seen self) × (Self.seen result.1 ≡ Self.seen self) }
        ensures no_gate { HoldsNone (Self.seen result.1) (Self.desk result.1).number }
        ensures stands { (base : Index) → Self.stands self base → Self.stands result.0 base × Self.stands result.1 base }
        ensures comes { Self.comes_from result.0 self × Self.comes_from result.1 self };

    /// The two desks of one split, whatever they did since: the one that was split, which has seen what either had. The second
    /// must hold no gate.
    fn join(self, other: Self) -> Self
        requires halves { AreHalves (Self.desk self) (Self.desk other) }
        requires kin { (origin : Self) × Self.comes_from self origin × Self.comes_from other origin }
        requires no_gate { HoldsNone (Self.seen other) (Self.desk other).number }
        ensures desk { first_half (Self.desk result) ≡ Self.desk self }
        ensures seen { (Self.seen result ≡ Self.seen self) ⊎ (Self.seen result ≡ Self.seen other) }
        ensures first { GoesOnWithout (Self.desk self) (Self.seen self) (Self.seen result) }
        ensures second { GoesOnWithout (Self.desk other) (Self.seen other) (Self.seen result) }
        ensures stands { (base : Index) → Self.stands self base → Self.stands result base }
        ensures stands_too { (base : Index) → Self.stands other base → Self.stands result base }
        ensures comes { Self.comes_from result self × Self.comes_from result other };
}
