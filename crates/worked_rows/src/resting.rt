//! Whether a desk holds a gate.

ghost use Rattle.std.specs.Prelude.{IsTrue};
ghost use Rattle.vec_steps.specs.Calls.{HoldsNone};

use vec_history::{Act, Gate, holds};

/// Whether desk 0 holds no gate after these acts.
pub fn none_held(acts: &[Act]) -> bool
    ensures { IsTrue result → HoldsNone acts.now 0 }
{
    if holds(acts, 0, Gate::Update) {
        return false;
    }
    if holds(acts, 0, Gate::Scan) {
        return false;
    }
    !holds(acts, 0, Gate::Vacuum)
}
