//! One step.

ghost use Rattle.std.specs.Prelude.{◌≡◌, IfErr, OnOk, length};
ghost use Rattle.vec_steps.specs.Desks.{Asks};
ghost use Rattle.vec_steps.specs.Calls.{Goes};
ghost use Rattle.hnsw_vacuum.specs.Courses.{IsNotStepped, IsStepped};

use vec_steps::{Ask, OpFault, Steps, Told};

/// Makes one step. What is left of the ask is let go here.
pub fn ask_step<S: Steps>(steps: &mut S, ask: Ask, told: &mut Told) -> Result<(), OpFault>
    requires told { length told.old.bits ≡ (S.desk steps.old).params.bits }
    ensures goes { Goes S.desk S.stands S.comes_from (Asks (S.stands steps.old) (S.desk steps.old) (S.seen steps.old) ask)
        steps.old steps.new }
    ensures told { length told.new.bits ≡ (S.desk steps.old).params.bits }
    ensures ok { OnOk result (IsStepped (Asks (S.stands steps.old) (S.desk steps.old) (S.seen steps.old) ask) (S.desk steps.old)
        (S.seen steps.old) (S.seen steps.new) ask told.new) }
    ensures err { IfErr result (IsNotStepped (Asks (S.stands steps.old) (S.desk steps.old) (S.seen steps.old) ask) (S.desk steps.old)
        (S.seen steps.old) (S.seen steps.new) ask) }
{
    let mut ask = ask;
    steps.step(&mut ask, told)?;
    Ok(())
}
