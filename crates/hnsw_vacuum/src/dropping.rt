//! Dead rows are taken out of the nodes of a page.

ghost use Rattle.std.specs.Prelude.{◌≡◌, ℕ, List, false, map, length, IfOk, IfErr};
ghost use Rattle.vec_steps.specs.Index.{Index};
ghost use Rattle.vec_steps.specs.Telling.{seen_told};
ghost use Rattle.vec_steps.specs.Calls.{Goes};
ghost use Rattle.hnsw_vacuum.specs.Courses.{OverGraphs};
ghost use Rattle.hnsw_vacuum.specs.Dropping.{DropsNode, DropsNodes, MakesDrops, MayDrop, MayDropAll, StopsDrops};
ghost use Rattle.hnsw_vacuum.specs.Taking.{IsOfNode, IsOfNodes, IsPlaceOf, IsPlaceOfAny, SeesToOver};

use crate::asking::ask_step;
use crate::judging::judge;
use crate::tally::{Tally, counts_drop, is_spent, now_due};
use vec_names::HeapId;
use vec_steps::{Ask, OpFault, Seen, Steps, Told};

/// Asks the test about each row of a node that a page told, and takes those out that it calls dead.
/// Where a Drop is due and nothing is left of the budget, it makes none, and says so.
///
/// The desk is in the phase Remove of its vacuum. The errors are those of a step.
pub fn drop_dead<S: Steps, F: Fn(HeapId) -> bool>(
    steps: &mut S,
    dead: &F,
    seen: &Seen,
    told: &mut Told,
    tally: Tally,
) -> Result<Tally, OpFault>
    requires callable { F.IsAlwaysCallable dead.now }
    requires told { length told.old.bits ≡ (S.desk steps.old).params.bits }
    ensures goes { Goes S.desk S.stands S.comes_from (OverGraphs (S.stands steps.old) (λ g. MayDrop g (S.seen steps.old)
        (S.desk steps.old).number (seen_told seen.now))) steps.old steps.new }
    ensures told { length told.new.bits ≡ (S.desk steps.old).params.bits }
    ensures ok { IfOk result (λ now. MakesDrops (λ id b. F.post dead.now id b) (OverGraphs (S.stands steps.old) (λ g. MayDrop g
        (S.seen steps.old) (S.desk steps.old).number (seen_told seen.now))) (S.desk steps.old) (S.seen steps.old) (S.seen steps.new)
        (DropsNode (λ id b. F.post dead.now id b) (seen_told seen.now) tally now)) }
    ensures sees_to { IfOk result (λ now. now.due ≡ false → (base : Index) → OverGraphs (S.stands steps.old) (λ g. MayDrop g
        (S.seen steps.old) (S.desk steps.old).number (seen_told seen.now)) base
        → SeesToOver (λ id b. F.post dead.now id b) (IsOfNode (seen_told seen.now)) (IsPlaceOf (seen_told seen.now))
        (S.seen steps.old) (S.seen steps.new)
        (S.desk steps.old).number base) }
    ensures err { IfErr result (StopsDrops (λ id b. F.post dead.now id b) (OverGraphs (S.stands steps.old) (λ g. MayDrop g
        (S.seen steps.old) (S.desk steps.old).number (seen_told seen.now))) (S.desk steps.old) (S.seen steps.old) (S.seen steps.new)) }
{
    if seen.deleted {
        return Ok(tally);
    }
    let mask = judge(dead, seen.ids.as_slice());
    if mask.gone == 0 {
        return Ok(tally);
    }
    if is_spent(tally.left) {
        return Ok(now_due(tally));
    }
    let ask = Ask::Drop {
        at: seen.at,
        version: seen.version,
        gone: mask.gone,
    };
    ask_step(steps, ask, told)?;
    let counted = counts_drop(tally, mask.count, told.word, told.left)?;
    Ok(counted)
}

/// Does so for each node that a page told, in their order, up to the first that has a Drop due for
/// which nothing is left.
///
/// The desk is in the phase Remove of its vacuum. The errors are those of a step.
pub fn drop_all<S: Steps, F: Fn(HeapId) -> bool>(
    steps: &mut S,
    dead: &F,
    nodes: &[Seen],
    told: &mut Told,
    tally: Tally,
) -> Result<Tally, OpFault>
    requires callable { F.IsAlwaysCallable dead.now }
    requires told { length told.old.bits ≡ (S.desk steps.old).params.bits }
    requires going { tally.due ≡ false }
    ensures goes { Goes S.desk S.stands S.comes_from (OverGraphs (S.stands steps.old) (λ g. MayDropAll g (S.seen steps.old)
        (S.desk steps.old).number (map seen_told nodes.now))) steps.old steps.new }
    ensures told { length told.new.bits ≡ (S.desk steps.old).params.bits }
    ensures ok { IfOk result (λ now. MakesDrops (λ id b. F.post dead.now id b) (OverGraphs (S.stands steps.old) (λ g. MayDropAll g
        (S.seen steps.old) (S.desk steps.old).number (map seen_told nodes.now))) (S.desk steps.old) (S.seen steps.old)
        (S.seen steps.new) (DropsNodes (λ id b. F.post dead.now id b) (map seen_told nodes.now) tally now)) }
    ensures sees_to { IfOk result (λ now. now.due ≡ false → (base : Index) → OverGraphs (S.stands steps.old) (λ g. MayDropAll g
        (S.seen steps.old) (S.desk steps.old).number (map seen_told nodes.now)) base
        → SeesToOver (λ id b. F.post dead.now id b) (IsOfNodes (map seen_told nodes.now)) (IsPlaceOfAny (map seen_told nodes.now))
        (S.seen steps.old) (S.seen steps.new)
        (S.desk steps.old).number base) }
    ensures err { IfErr result (StopsDrops (λ id b. F.post dead.now id b) (OverGraphs (S.stands steps.old) (λ g. MayDropAll g
        (S.seen steps.old) (S.desk steps.old).number (map seen_told nodes.now))) (S.desk steps.old) (S.seen steps.old)
        (S.seen steps.new)) }
{
    let mut now = tally;
    'node: for k in 0..nodes.len() {
        now = drop_dead(steps, dead, &nodes[k], told, now)?;
        if now.due {
            return Ok(now);
        }
    }
    Ok(now)
}
