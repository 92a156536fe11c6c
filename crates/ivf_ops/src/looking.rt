// One look, and what it told.
#![tactic(auto)]

ghost use Rattle.std.specs.Prelude.{◌≡◌, ◌≤◌, [], ◌∷◌, OnOk, IfErr, length, map, Some};
ghost use Rattle.vec_names.specs.Params.{IsInRange};
ghost use Rattle.vec_names.specs.declared.params.Kind.TheVariants.{Ivf};
ghost use Rattle.ivf_graph.specs.Looks.{centre_pages};
ghost use Rattle.ivf_graph.specs.Looks.Look.{AtCentres, AtRows};
ghost use Rattle.ivf_graph.specs.Looks.Answer.{OfCentres, OfRows};
ghost use Rattle.vec_steps.specs.Index.{Index};
ghost use Rattle.vec_steps.specs.Telling.{centre_told, row_told};
ghost use Rattle.vec_steps.specs.Calls.{Goes};
ghost use Rattle.ivf_ops.specs.Standing.{OverBlock};
ghost use Rattle.ivf_ops.specs.Viewing.{EndedBy, MadeViews};

use vec_steps::{Ask, OpFault, Steps, Told, Trace};

/// Looks at a block of centres.
pub fn look_at_centres<S: Steps>(
    steps: &mut S,
    block: u32,
    told: &mut Told,
    trace: &mut Trace,
) -> Result<(), OpFault>
    requires lists { (S.desk steps.old).params.kind ≡ Ivf }
    requires from { 1 ≤ block }
    requires to { block ≤ centre_pages (S.desk steps.old).params.bits (S.desk steps.old).params.lists }
    requires bits { length told.old.bits ≡ (S.desk steps.old).params.bits }
    ensures goes { Goes S.desk S.stands S.comes_from (S.stands steps.old) steps.old steps.new }
    ensures bits { length told.new.bits ≡ (S.desk steps.old).params.bits }
    ensures ok { OnOk result (MadeViews (S.stands steps.old) (S.desk steps.old) (S.seen steps.old) (S.seen steps.new)
        trace.old.reads trace.new.reads ((AtCentres block, OfCentres (map centre_told told.new.centres)) ∷ [])) }
    ensures err { IfErr result (EndedBy (S.stands steps.old) (S.desk steps.old) (S.seen steps.old) (S.seen steps.new)) }
{
    let mut ask = Ask::Centres { block };
    steps.step(&mut ask, told)?;
    trace.reads.push(told.at)?;
    Ok(())
}

/// Looks at a block of rows, which stands in a chain. So does the block that it tells to be the next.
pub fn look_at_rows<S: Steps>(
    steps: &mut S,
    block: u32,
    told: &mut Told,
    trace: &mut Trace,
) -> Result<(), OpFault>
    requires lists { (S.desk steps.old).params.kind ≡ Ivf }
    requires bits { length told.old.bits ≡ (S.desk steps.old).params.bits }
    ensures goes { Goes S.desk S.stands S.comes_from (OverBlock (S.stands steps.old) (S.seen steps.old) (Some block)) steps.old steps.new }
    ensures bits { length told.new.bits ≡ (S.desk steps.old).params.bits }
    ensures ok { OnOk result (MadeViews (OverBlock (S.stands steps.old) (S.seen steps.old) (Some block)) (S.desk steps.old)
        (S.seen steps.old) (S.seen steps.new) trace.old.reads trace.new.reads
        ((AtRows block, OfRows (map row_told told.new.rows) told.new.next) ∷ [])) }
    ensures next { OnOk result ((base : Index) → OverBlock (S.stands steps.old) (S.seen steps.old) (Some block) base
        → OverBlock (S.stands steps.new) (S.seen steps.new) told.new.next base) }
    ensures err { IfErr result (EndedBy (OverBlock (S.stands steps.old) (S.seen steps.old) (Some block)) (S.desk steps.old)
        (S.seen steps.old) (S.seen steps.new)) }
{
    let mut ask = Ask::Rows { block };
    steps.step(&mut ask, told)?;
    trace.reads.push(told.at)?;
    Ok(())
}
