//! A gate is taken, and given back.

ghost use Rattle.std.specs.Prelude.{◌≡◌, IfErr, OnOk, length};
ghost use Rattle.vec_history.specs.declared.gate.Gate.TheVariants.{Vacuum};
ghost use Rattle.vec_history.specs.Gates.{Holds};
ghost use Rattle.vec_steps.specs.declared.fault.OpFault.TheVariants.{Memory};
ghost use Rattle.vec_steps.specs.Calls.{Goes};
ghost use Rattle.step_gates.specs.Gating.{GateFailed, GivesBack, TakesGate};

use vec_history::{Gate, Hold};
use vec_steps::{Ask, OpFault, Steps, Told};

/// Takes a gate that the desk does not hold. Where the hold of another desk stands in the way, a desk that can wait does.
///
/// The room for giving it back is taken with it. Its errors are `Memory`, and `Disk` where the step met a fault of the disks,
/// which leaves an act.
pub fn take_gate<S: Steps>(
    steps: &mut S,
    gate: Gate,
    hold: Hold,
    told: &mut Told,
) -> Result<(), OpFault>
    requires bits { length told.old.bits ≡ (S.desk steps.old).params.bits }
    requires free { Holds (S.seen steps.old) (S.desk steps.old).number gate → ⊥ }
    ensures goes { Goes S.desk S.stands S.comes_from (S.stands steps.old) steps.old steps.new }
    ensures bits { length told.new.bits ≡ (S.desk steps.old).params.bits }
    ensures ok { OnOk result (TakesGate (S.stands steps.old) (S.desk steps.old) (S.seen steps.old) (S.seen steps.new) gate hold) }
    ensures err { IfErr result (GateFailed (S.stands steps.old) (S.desk steps.old) (S.seen steps.old) (S.seen steps.new)) }
{
    let mut ask = Ask::Take { gate, hold };
    steps.step(&mut ask, told)?;
    Ok(())
}

/// Gives a gate back that the desk holds. It is not for the gate Vacuum, which is given back once no pass of a vacuum stands.
///
/// It never wants memory. Its error is `Disk`, where the step met a fault of the disks, which leaves an act: the gate is held
/// then as before.
pub fn give_back<S: Steps>(steps: &mut S, gate: Gate, told: &mut Told) -> Result<(), OpFault>
    requires bits { length told.old.bits ≡ (S.desk steps.old).params.bits }
    requires held { Holds (S.seen steps.old) (S.desk steps.old).number gate }
    requires no_vacuum { gate ≡ Vacuum → ⊥ }
    ensures goes { Goes S.desk S.stands S.comes_from (S.stands steps.old) steps.old steps.new }
    ensures bits { length told.new.bits ≡ (S.desk steps.old).params.bits }
    ensures ok { OnOk result (GivesBack (S.stands steps.old) (S.desk steps.old) (S.seen steps.old) (S.seen steps.new) gate) }
    ensures err { IfErr result (GateFailed (S.stands steps.old) (S.desk steps.old) (S.seen steps.old) (S.seen steps.new)) }
    ensures no_memory { IfErr result (λ fault. fault ≡ Memory → ⊥) }
{
    let mut ask = Ask::Release { gate };
    steps.step(&mut ask, told)?;
    Ok(())
}
