//! What may be asked, and is granted, is legal: a law. The function here does no work.

ghost use Rattle.std.specs.Prelude.{◌≡◌, List, ◌++◌, ◌∷◌, [], Some};
ghost use Rattle.vec_history.specs.declared.event.Event.{Event as Events};
ghost use Rattle.vec_history.specs.declared.event.Act.{Act as Acts};
ghost use Rattle.vec_history.specs.Acts.{act_of};
ghost use Rattle.vec_steps.specs.declared.ask.Ask.{Ask as Asked};
ghost use Rattle.vec_steps.specs.declared.told.Told.{Told as Telling};
ghost use Rattle.vec_steps.specs.Index.{Index, IsOfParams, IsShaped, IsLegal};
ghost use Rattle.vec_steps.specs.Doing.{Step, Cleaned, Says, step_events};
ghost use Rattle.vec_steps.specs.Telling.{step_of};
ghost use Rattle.vec_steps.specs.Desks.{Desk, MayAsk};
ghost use Rattle.vec_steps.specs.Granting.{AgreesAtTake};

/// A law, and no work. After a legal history, where a desk may ask this and the index says that it is done, the event that the step
/// makes is legal. Of a gate that is to be taken it is asked that no hold of another desk stands in the way: for that a desk waits.
pub fn law_granted()
    ensures { (base : Index) (acts : List Acts) (d : Desk) (ask : Asked) (told : Telling) (ending : Cleaned) (step : Step) (e : Events)
        → IsOfParams d.params base → IsShaped base → IsLegal base acts → MayAsk d base acts ask → AgreesAtTake acts d.number ask
        → step_of ask told ending ≡ Some step → Says d.params base acts d.number step → step_events d.params step ≡ e ∷ []
        → IsLegal base (acts ++ act_of d.number e ∷ []) }
{}
