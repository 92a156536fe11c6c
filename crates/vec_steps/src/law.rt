//! What a step and a call mean: laws. A function here does no work.

ghost use Rattle.std.specs.Prelude.{◌≡◌, ◌≤◌, ℕ, Bool, Option, List, ◌++◌, length};
ghost use Rattle.vec_names.specs.declared.tid.Tid.{Tid as Tids};
ghost use Rattle.vec_history.specs.declared.event.Event.{Event as Events};
ghost use Rattle.vec_history.specs.declared.gate.Gate.{Gate as Gates};
ghost use Rattle.vec_history.specs.declared.gate.Gate.TheVariants.{Update};
ghost use Rattle.vec_history.specs.Gates.{IsOfGate, Holds};
ghost use Rattle.vec_graph.specs.Graph.{IsLiveAt};
ghost use Rattle.vec_graph.specs.Effect.{after, state_after};
ghost use Rattle.vec_graph.specs.Places.{IsOnBlocks};
ghost use Rattle.vec_graph.specs.Legal.{IsLegal};
ghost use Rattle.vec_graph.specs.Knowing.{Knows};
ghost use Rattle.vec_graph.specs.Asking.{IsPutAsked, StandsSo};
ghost use Rattle.vec_history.specs.declared.event.Act.{Act as Acts};
ghost use Rattle.vec_graph.specs.declared.graph.Graph.{Graph};
ghost use Rattle.graph_search.specs.Deeds.{Deed, DidBetween};
ghost use Rattle.vec_steps.specs.declared.ask.Ask.{Ask as Asked};
ghost use Rattle.vec_steps.specs.declared.told.Told.{Told as Telling};
ghost use Rattle.vec_steps.specs.declared.fault.StepFault.{StepFault as Faults};
ghost use Rattle.vec_steps.specs.Index.{OfNodes};
ghost use Rattle.vec_steps.specs.Doing.{Step};
ghost use Rattle.vec_steps.specs.Telling.{step_of, fault_step};
ghost use Rattle.vec_steps.specs.Desks.{Asks, Desk};
ghost use Rattle.vec_steps.specs.Calls.{Acts as GoesOn, AreDeeds, NoneOf, Does, Failed, Goes, Stepped, course_at};

use crate::steps::Steps;

/// A law, and no work. A step is a call of one step, over the bases on which its ask's conditions hold; and one that fails is a
/// call that does nothing, but for the act that counts a fault of the disks.
pub fn law_step<S: Steps>(steps: &S)
    ensures made { (old new : List Acts) (ask left : Asked) (told : Telling)
        → (s : Stepped (Asks (S.stands steps.now) (S.desk steps.now) old ask) (S.desk steps.now) old new ask left told)
        → Does (Asks (S.stands steps.now) (S.desk steps.now) old ask) (S.desk steps.now) old new
        (course_at told.at (step_of ask told s.ending)) }
    ensures failed { (old new : List Acts) (ask : Asked) (fault : Faults)
        → (s : Failed (Asks (S.stands steps.now) (S.desk steps.now) old ask) (S.desk steps.now) old new ask fault)
        → Does (S.stands steps.now) (S.desk steps.now) old new (course_at s.at (fault_step fault)) }
{}

/// A law, and no work. Two calls after each other are one call, whose course is theirs in turn: over the bases of the first,
/// where the desk still stands on these after it.
pub fn law_calls<S: Steps>(before: &S, after: &S)
    requires { Goes S.desk S.stands S.comes_from (S.stands before.now) before.now after.now }
    ensures { (d : Desk) (old mid new : List Acts) (first second : List (ℕ × Step))
        → Does (S.stands before.now) d old mid first → Does (S.stands after.now) d mid new second
        → Does (S.stands before.now) d old new (first ++ second) }
{}

/// A law, and no work. A call whose steps are deeds of a search or an insert did these, and nothing else, between what it had
/// seen before and what it has seen after: on each graph on which it stands.
pub fn law_deeds<S: Steps>(steps: &S)
    ensures { (old new : List Acts) (course : List (ℕ × Step)) (deeds : List Deed) (g : Graph)
        → g.params ≡ (S.desk steps.now).params → S.stands steps.now (OfNodes g) → AreDeeds course deeds
        → Does (S.stands steps.now) (S.desk steps.now) old new course
        → DidBetween g new (S.desk steps.now).number (length old) (length new) deeds }
{}

/// A law, and no work. What lasts over a call, whatever other desks did meanwhile: a hold, while the call makes no event of the
/// gate; what is known, and what a new node is asked with, while it makes none of Update. A node that was live at a position of
/// the call is known at its end, where Update was held from before it. A node stands where it stood, with its level and list place.
pub fn law_lasting()
    ensures holds { (desk : ℕ) (old new : List Acts) (own : List Events) (gate : Gates) → GoesOn desk old new own
        → NoneOf (IsOfGate gate) own → Holds old desk gate → Holds new desk gate }
    ensures knows { (desk : ℕ) (old new : List Acts) (own : List Events) (base : Graph) (at : Tids) (layer : ℕ)
        → GoesOn desk old new own → NoneOf (IsOfGate Update) own → Knows base old desk at layer → Knows base new desk at layer }
    ensures by_look { (desk : ℕ) (old new : List Acts) (own : List Events) (base : Graph) (at : Tids) (layer n : ℕ)
        → GoesOn desk old new own → NoneOf (IsOfGate Update) own → Holds old desk Update → length old ≤ n → n ≤ length new
        → IsLiveAt (state_after base new n) at layer → Knows base new desk at layer }
    ensures put { (desk : ℕ) (old new : List Acts) (own : List Events) (base : Graph) (level : ℕ) (bits : List Bool)
        (lists : List (Option Tids)) → GoesOn desk old new own → NoneOf (IsOfGate Update) own
        → IsPutAsked base old desk level bits lists → IsPutAsked base new desk level bits lists }
    ensures stands { (desk : ℕ) (old new : List Acts) (own : List Events) (base : Graph) (at list_at : Tids) (level : ℕ)
        → GoesOn desk old new own → IsLegal base new → IsOnBlocks (after base old) → StandsSo (after base old) at list_at level
        → StandsSo (after base new) at list_at level }
{}
