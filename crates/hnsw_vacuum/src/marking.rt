//! The last pass of a vacuum: nodes without rows are deleted.

ghost use Rattle.std.specs.Prelude.{◌≡◌, ℕ, List, false, length, IfOk, IfErr};
ghost use Rattle.std.specs.List.{AllByRecursion};
ghost use Rattle.vec_steps.specs.Index.{Index};
ghost use Rattle.vec_steps.specs.Calls.{Goes};
ghost use Rattle.hnsw_vacuum.specs.Courses.{OverGraphs};
ghost use Rattle.hnsw_vacuum.specs.Marking.{IsDeletedBy, MakesMarks, MarksNode, MarksNodes, MayMark, MayMarkAll, StopsMarks};

use crate::asking::ask_step;
use crate::tally::{Tally, counts_mark, is_spent, now_due};
use vec_names::Tid;
use vec_steps::{Ask, OpFault, Steps, Told};

/// A node without rows, as looks told it.
#[derive(Clone, Copy)]
pub struct Doomed {
    pub at: Tid,
    pub list_at: Tid,
    /// From 1 to 255.
    pub version: u8,
}

// Deletes a node without rows, or says that this is due and nothing is left of the budget.
fn mark_one<S: Steps>(
    steps: &mut S,
    node: Doomed,
    told: &mut Told,
    tally: Tally,
) -> Result<Tally, OpFault>
    requires told { length told.old.bits ≡ (S.desk steps.old).params.bits }
    ensures goes { Goes S.desk S.stands S.comes_from (OverGraphs (S.stands steps.old) (λ g. MayMark g (S.seen steps.old)
        (S.desk steps.old).number node)) steps.old steps.new }
    ensures told { length told.new.bits ≡ (S.desk steps.old).params.bits }
    ensures ok { IfOk result (λ now. MakesMarks (OverGraphs (S.stands steps.old) (λ g. MayMark g (S.seen steps.old)
        (S.desk steps.old).number node)) (S.desk steps.old) (S.seen steps.old) (S.seen steps.new) (MarksNode node tally now)) }
    ensures deleted { IfOk result (λ now. now.due ≡ false → (base : Index) → OverGraphs (S.stands steps.old) (λ g. MayMark g
        (S.seen steps.old) (S.desk steps.old).number node) base → IsDeletedBy (S.seen steps.old) (S.seen steps.new)
        (S.desk steps.old).number node) }
    ensures err { IfErr result (StopsMarks (OverGraphs (S.stands steps.old) (λ g. MayMark g (S.seen steps.old)
        (S.desk steps.old).number node)) (S.desk steps.old) (S.seen steps.old) (S.seen steps.new)) }
{
    if is_spent(tally.left) {
        return Ok(now_due(tally));
    }
    let ask = Ask::Mark {
        at: node.at,
        list_at: node.list_at,
        version: node.version,
    };
    ask_step(steps, ask, told)?;
    let counted = counts_mark(tally, told.word)?;
    Ok(counted)
}

/// The last pass: deletes each of these nodes once, and no other, up to the first for which nothing
/// is left of the budget.
///
/// The desk is in the phase Mark of its vacuum, and each of the nodes stands without rows at a
/// place of its own. The errors are those of a step, `LogFull`, `Disk` and `Memory`; also at these
/// only nodes without rows are deleted.
pub fn mark<S: Steps>(
    steps: &mut S,
    nodes: &[Doomed],
    told: &mut Told,
    tally: Tally,
) -> Result<Tally, OpFault>
    requires told { length told.old.bits ≡ (S.desk steps.old).params.bits }
    requires going { tally.due ≡ false }
    ensures goes { Goes S.desk S.stands S.comes_from (OverGraphs (S.stands steps.old) (λ g. MayMarkAll g (S.seen steps.old)
        (S.desk steps.old).number nodes.now)) steps.old steps.new }
    ensures told { length told.new.bits ≡ (S.desk steps.old).params.bits }
    ensures ok { IfOk result (λ now. MakesMarks (OverGraphs (S.stands steps.old) (λ g. MayMarkAll g (S.seen steps.old)
        (S.desk steps.old).number nodes.now)) (S.desk steps.old) (S.seen steps.old) (S.seen steps.new) (MarksNodes nodes.now tally now)) }
    ensures deleted { IfOk result (λ now. now.due ≡ false → (base : Index) → OverGraphs (S.stands steps.old) (λ g. MayMarkAll g
        (S.seen steps.old) (S.desk steps.old).number nodes.now) base → AllByRecursion (IsDeletedBy (S.seen steps.old) (S.seen steps.new)
        (S.desk steps.old).number) nodes.now) }
    ensures err { IfErr result (StopsMarks (OverGraphs (S.stands steps.old) (λ g. MayMarkAll g (S.seen steps.old)
        (S.desk steps.old).number nodes.now)) (S.desk steps.old) (S.seen steps.old) (S.seen steps.new)) }
{
    let mut now = tally;
    'node: for k in 0..nodes.len() {
        now = mark_one(steps, nodes[k], told, now)?;
        if now.due {
            return Ok(now);
        }
    }
    Ok(now)
}
