//! Whether a vacuum may begin a pass, or end.

ghost use Rattle.std.specs.Prelude.{◌≡◌, ◌↔◌, IsTrue};
ghost use Rattle.vec_graph.specs.Rules.{IsPhaseAllowed, IsVacuumEndAllowed, IsCancelAllowed};

use crate::cleaning::{is_repaired, none_doomed};
use crate::course::Course;
use vec_history::{Stage, is_in_phase, may_begin_remove, removal_end};

pub(crate) fn may_begin(course: &Course<'_>, desk: u32, stage: Stage) -> bool
    ensures { IsTrue result ↔ IsPhaseAllowed course.now.base.now course.now.acts.now desk stage }
{
    match stage {
        Stage::Remove => may_begin_remove(course.acts, desk),
        Stage::Repair => removal_end(course.acts, desk).is_some(),
        Stage::Mark => is_repaired(course, desk),
    }
}

pub(crate) fn may_end(course: &Course<'_>, desk: u32) -> bool
    ensures { IsTrue result ↔ IsVacuumEndAllowed course.now.base.now course.now.acts.now desk }
{
    is_in_phase(course.acts, desk, Stage::Mark) && none_doomed(course.last())
}

pub(crate) fn may_cancel(course: &Course<'_>, desk: u32, stage: Stage) -> bool
    ensures { IsTrue result ↔ IsCancelAllowed course.now.base.now course.now.acts.now desk stage }
{
    is_in_phase(course.acts, desk, stage) && !may_end(course, desk)
}
