//! What the definitions of gates and phases mean: laws. A function here does no work.

ghost use Rattle.std.specs.Prelude.{◌≡◌, ◌≢◌, ◌↔◌, ℕ, ◌+◌, ◌<◌, ◌++◌, ◌∷◌, [], List, length, take, slice_get, Some, if◌then◌else◌};
ghost use Rattle.vec_history.specs.declared.event.Act.{Act as Acts};
ghost use Rattle.vec_history.specs.declared.event.Event.TheVariants as event;
ghost use Rattle.vec_history.specs.declared.gate.Gate.{Gate as Gates};
ghost use Rattle.vec_history.specs.declared.gate.Gate.TheVariants.{Update};
ghost use Rattle.vec_history.specs.declared.gate.Hold.{Hold as Holding};
ghost use Rattle.vec_history.specs.declared.gate.Hold.TheVariants.{Alone};
ghost use Rattle.vec_history.specs.declared.stage.Stage.{Stage as Stages};
ghost use Rattle.vec_history.specs.declared.stage.Stage.TheVariants.{Remove};
ghost use Rattle.vec_history.specs.Acts.{act_of, IsActAt, NoneAfter, NoneFrom};
ghost use Rattle.vec_history.specs.Gates.{IsOfGate, HoldsAs, HoldsSince, Holds};
ghost use Rattle.vec_history.specs.Phases.{IsOfVacuum, IsDrop, PhaseSince, IsAPhaseStanding, IsBarrier, IsRemoved};
ghost use Rattle.vec_history.specs.Settling.{is_lasting, lasting_events};
ghost use Rattle.vec_history.specs.Legal.{IsLegalBy};

use crate::{Act, Rules};

/// Each act of a legal history is allowed after the acts before it, so what is cut off anywhere is legal too; and
/// an act that is allowed makes a longer legal history.
pub fn law_cut<R: Rules>(base: &R, acts: &[Act])
    requires { IsLegalBy (R.allows base.now) acts.now }
    ensures cut { (n : ℕ) → IsLegalBy (R.allows base.now) (take n acts.now) }
    ensures each { (n : ℕ) (a : Acts) → slice_get acts.now n ≡ Some a → R.allows base.now (take n acts.now) a }
    ensures one_more { (a : Acts) → R.allows base.now acts.now a → IsLegalBy (R.allows base.now) (acts.now ++ a ∷ []) }
{}

/// In a legal history a desk that holds a gate alone is the only one that holds it; and who holds a gate that some
/// desk once took alone has taken it no earlier.
pub fn law_alone<R: Rules>(base: &R, acts: &[Act])
    requires { IsLegalBy (R.allows base.now) acts.now }
    ensures only { (gate : Gates) (hold : Holding) (desk other : ℕ) → other ≢ desk → HoldsAs acts.now desk gate Alone
        → HoldsAs acts.now other gate hold → ⊥ }
    ensures not_before { (gate : Gates) (hold : Holding) (desk other j k : ℕ) → IsActAt acts.now k other (event.Gate gate Alone)
        → HoldsSince acts.now desk gate hold j → j < k → ⊥ }
{}

/// After any acts a desk holds a gate in one way at most, since one act; one phase stands at most, which one desk
/// made by one act; and removing ended at one position at most.
pub fn law_one_at_a_time(acts: &[Act])
    ensures hold { (desk : ℕ) (gate : Gates) (h1 h2 : Holding) (k1 k2 : ℕ) → HoldsSince acts.now desk gate h1 k1
        → HoldsSince acts.now desk gate h2 k2
        → (k1 ≡ k2) × (h1 ≡ h2) }
    ensures phase { (d1 d2 : ℕ) (s1 s2 : Stages) (k1 k2 : ℕ) → PhaseSince acts.now d1 s1 k1 → PhaseSince acts.now d2 s2 k2
        → (k1 ≡ k2) × (d1 ≡ d2) × (s1 ≡ s2) }
    ensures removed { (desk p q : ℕ) → IsRemoved acts.now desk p → IsRemoved acts.now desk q → p ≡ q }
{}

/// What one more act makes of each word, so that who keeps tables of holds, phases and barriers can tie them to the
/// words act by act. No rule is asked: it holds of any acts.
pub fn law_one_more(acts: &[Act], act: &Act)
    // A hold ends by the desk's own acts of the gate alone; taking the gate begins one.
    ensures hold { (desk : ℕ) (gate : Gates) (hold : Holding) (k : ℕ) → (act.now.desk ≡ desk → IsOfGate gate act.now.event → ⊥)
        → HoldsSince acts.now desk gate hold k ↔ HoldsSince (acts.now ++ act.now ∷ []) desk gate hold k }
    ensures taken { (desk : ℕ) (gate : Gates) (hold : Holding) → act.now ≡ act_of desk (event.Gate gate hold)
        → HoldsSince (acts.now ++ act.now ∷ []) desk gate hold (length acts.now) }
    ensures given { (desk : ℕ) (gate : Gates) → act.now ≡ act_of desk (event.Ungate gate)
        → Holds (acts.now ++ act.now ∷ []) desk gate → ⊥ }

    // A phase ends by the next one, or with the vacuum.
    ensures phase { (desk : ℕ) (stage : Stages) (k : ℕ) → (IsOfVacuum act.now.event → ⊥)
        → PhaseSince acts.now desk stage k ↔ PhaseSince (acts.now ++ act.now ∷ []) desk stage k }
    ensures begun { (desk : ℕ) (stage : Stages) → act.now ≡ act_of desk (event.Phase stage)
        → PhaseSince (acts.now ++ act.now ∷ []) desk stage (length acts.now) }
    ensures ended { (desk : ℕ) → (act.now ≡ act_of desk event.VacuumEnd) → IsAPhaseStanding (acts.now ++ act.now ∷ []) → ⊥ }
    ensures cancelled { (desk : ℕ) (stage : Stages) → (act.now ≡ act_of desk (event.Cancel stage))
        → IsAPhaseStanding (acts.now ++ act.now ∷ []) → ⊥ }

    // A barrier is new only where the desk gives the gate back: then each time that it took it alone is one.
    ensures barrier { (desk : ℕ) (gate : Gates) (k : ℕ) → (act.now ≢ act_of desk (event.Ungate gate))
        → IsBarrier acts.now desk gate k ↔ IsBarrier (acts.now ++ act.now ∷ []) desk gate k }
    ensures passed { (desk : ℕ) (gate : Gates) (k : ℕ) → act.now ≡ act_of desk (event.Ungate gate)
        → IsActAt acts.now k desk (event.Gate gate Alone) ↔ IsBarrier (acts.now ++ act.now ∷ []) desk gate k }

    // Removing is done, and stays so, up to the next phase, Drop or barrier of Update.
    ensures removed { (desk position : ℕ) → (IsOfVacuum act.now.event → ⊥) → (IsDrop act.now.event → ⊥)
        → (act.now ≢ act_of desk (event.Ungate Update))
        → IsRemoved acts.now desk position ↔ IsRemoved (acts.now ++ act.now ∷ []) desk position }
    ensures removal { (desk begun k : ℕ) → PhaseSince acts.now desk Remove begun → HoldsSince acts.now desk Update Alone k → begun < k
        → NoneAfter acts.now k (λ a. IsDrop a.event) → act.now ≡ act_of desk (event.Ungate Update)
        → IsRemoved (acts.now ++ act.now ∷ []) desk (k + 1) }
    ensures dropped { (desk position : ℕ) → IsDrop act.now.event → IsRemoved (acts.now ++ act.now ∷ []) desk position → ⊥ }
    ensures restarted { (desk position : ℕ) → IsOfVacuum act.now.event → IsRemoved (acts.now ++ act.now ∷ []) desk position → ⊥ }
    ensures lasting { lasting_events (acts.now ++ act.now ∷ []) ≡ lasting_events acts.now + (if is_lasting act.now.event then 1 else 0) }
{}

/// What the first acts of a history said lasts: a hold up to the desk's own next act of the gate, whatever else the
/// desk and others do; a phase up to the next act that begins one or ends a vacuum.
pub fn law_kept(acts: &[Act])
    ensures hold { (n desk k : ℕ) (gate : Gates) (hold : Holding) → NoneFrom acts.now n (λ a. (a.desk ≡ desk) × IsOfGate gate a.event)
        → HoldsSince (take n acts.now) desk gate hold k → HoldsSince acts.now desk gate hold k }
    ensures phase { (n desk k : ℕ) (stage : Stages) → NoneFrom acts.now n (λ a. IsOfVacuum a.event)
        → PhaseSince (take n acts.now) desk stage k → PhaseSince acts.now desk stage k }
{}
