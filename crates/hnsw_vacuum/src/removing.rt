//! The first pass of a vacuum.

ghost use Rattle.std.specs.Prelude.{◌≡◌, ⊤, ◌+◌, ◌-◌, ℕ, List, false, length, IfOk, IfErr};
ghost use Rattle.vec_history.specs.declared.stage.Stage.TheVariants.{Remove};
ghost use Rattle.vec_history.specs.Phases.{IsInPhase};
ghost use Rattle.vec_steps.specs.Index.{Index};
ghost use Rattle.vec_steps.specs.Calls.{Goes};
ghost use Rattle.hnsw_vacuum.specs.Courses.{OverGraphs, OverNodes};
ghost use Rattle.hnsw_vacuum.specs.Removing.{DropsPage, DropsPages, MakesRemoves, MayRemove, RemovesDead, StopsRemoves};
ghost use Rattle.hnsw_vacuum.specs.Taking.{IsOfBlocks, IsOnBlock, SeesToOver};

use crate::dropping::drop_all;
use crate::looking::{look_at_meta, look_at_page};
use crate::tally::Tally;
use std::alloc::Global;
use vec_names::{HeapId, Listed};
use vec_steps::{OpFault, Seen, Steps, Told, Trace};

// Looks at a page, and takes the rows out of its nodes that the test calls dead.
//
// The desk is in the phase Remove of its vacuum, and the block is there. `nodes` is room for what
// the page tells.
fn remove_on<S: Steps, F: Fn(HeapId) -> bool>(
    steps: &mut S,
    dead: &F,
    block: u32,
    nodes: &mut Listed<Seen>,
    told: &mut Told,
    tally: Tally,
    trace: &mut Trace,
) -> Result<Tally, OpFault>
    requires callable { F.IsAlwaysCallable dead.now }
    requires told { length told.old.bits ≡ (S.desk steps.old).params.bits }
    requires going { tally.due ≡ false }
    ensures goes { Goes S.desk S.stands S.comes_from (OverGraphs (S.stands steps.old) (λ g. MayRemove g (S.seen steps.old)
        (S.desk steps.old).number (block + 1))) steps.old steps.new }
    ensures told { length told.new.bits ≡ (S.desk steps.old).params.bits }
    ensures ok { IfOk result (λ now. MakesRemoves (λ id b. F.post dead.now id b) (OverGraphs (S.stands steps.old) (λ g. MayRemove g
        (S.seen steps.old) (S.desk steps.old).number (block + 1))) (S.desk steps.old) (S.seen steps.old) (S.seen steps.new)
        trace.old.reads trace.new.reads (DropsPage (λ id b. F.post dead.now id b) block tally now)) }
    ensures sees_to { IfOk result (λ now. now.due ≡ false → (base : Index) → OverGraphs (S.stands steps.old) (λ g. MayRemove g
        (S.seen steps.old) (S.desk steps.old).number (block + 1)) base
        → SeesToOver (λ id b. F.post dead.now id b) (IsOfBlocks block (block + 1)) (IsOnBlock block (block + 1))
        (S.seen steps.old) (S.seen steps.new)
        (S.desk steps.old).number base) }
    ensures err { IfErr result (StopsRemoves (λ id b. F.post dead.now id b) (OverGraphs (S.stands steps.old) (λ g. MayRemove g
        (S.seen steps.old) (S.desk steps.old).number (block + 1))) (S.desk steps.old) (S.seen steps.old) (S.seen steps.new)) }
{
    look_at_page(steps, block, nodes, told, trace)?;
    let now = drop_all(steps, dead, nodes.as_slice(), told, tally)?;
    Ok(now)
}

// Does so for each page from block 1 on, up to so many blocks, and stops where a Drop is due for
// which nothing is left.
//
// The desk is in the phase Remove of its vacuum, and the blocks are there.
fn remove_pages<S: Steps, F: Fn(HeapId) -> bool>(
    steps: &mut S,
    dead: &F,
    count: u32,
    nodes: &mut Listed<Seen>,
    told: &mut Told,
    tally: Tally,
    trace: &mut Trace,
) -> Result<Tally, OpFault>
    requires callable { F.IsAlwaysCallable dead.now }
    requires told { length told.old.bits ≡ (S.desk steps.old).params.bits }
    requires going { tally.due ≡ false }
    ensures goes { Goes S.desk S.stands S.comes_from (OverGraphs (S.stands steps.old) (λ g. MayRemove g (S.seen steps.old)
        (S.desk steps.old).number count)) steps.old steps.new }
    ensures told { length told.new.bits ≡ (S.desk steps.old).params.bits }
    ensures ok { IfOk result (λ now. MakesRemoves (λ id b. F.post dead.now id b) (OverGraphs (S.stands steps.old) (λ g. MayRemove g
        (S.seen steps.old) (S.desk steps.old).number count)) (S.desk steps.old) (S.seen steps.old) (S.seen steps.new)
        trace.old.reads trace.new.reads (DropsPages (λ id b. F.post dead.now id b) 1 (count - 1) tally now)) }
    ensures sees_to { IfOk result (λ now. now.due ≡ false → (base : Index) → OverGraphs (S.stands steps.old) (λ g. MayRemove g
        (S.seen steps.old) (S.desk steps.old).number count) base
        → SeesToOver (λ id b. F.post dead.now id b) (IsOfBlocks 1 count) (λ at. ⊤) (S.seen steps.old) (S.seen steps.new)
        (S.desk steps.old).number base) }
    ensures err { IfErr result (StopsRemoves (λ id b. F.post dead.now id b) (OverGraphs (S.stands steps.old) (λ g. MayRemove g
        (S.seen steps.old) (S.desk steps.old).number count)) (S.desk steps.old) (S.seen steps.old) (S.seen steps.new)) }
{
    let mut now = tally;
    'page: for block in 1..count {
        now = remove_on(steps, dead, block, nodes, told, now, trace)?;
        if now.due {
            return Ok(now);
        }
    }
    Ok(now)
}

/// The first pass: looks at the meta tuple and at each page from block 1 on, in their order, and
/// takes the rows out of their nodes that the test calls dead. Where a Drop is due and nothing is
/// left of the budget, it stops and says so.
///
/// The desk is in the phase Remove of its vacuum. The errors are those of a step, `LogFull`, `Disk`
/// and `Memory`; also at these only rows that the test calls dead are out.
pub fn remove<S: Steps, F: Fn(HeapId) -> bool>(
    alloc: Global,
    steps: &mut S,
    dead: &F,
    told: &mut Told,
    tally: Tally,
    trace: &mut Trace,
) -> Result<Tally, OpFault>
    requires callable { F.IsAlwaysCallable dead.now }
    requires told { length told.old.bits ≡ (S.desk steps.old).params.bits }
    requires going { tally.due ≡ false }
    requires phase { IsInPhase (S.seen steps.old) (S.desk steps.old).number Remove }
    ensures goes { Goes S.desk S.stands S.comes_from (OverNodes (S.stands steps.old)) steps.old steps.new }
    ensures told { length told.new.bits ≡ (S.desk steps.old).params.bits }
    ensures ok { IfOk result (λ now. MakesRemoves (λ id b. F.post dead.now id b) (OverNodes (S.stands steps.old)) (S.desk steps.old)
        (S.seen steps.old) (S.seen steps.new) trace.old.reads trace.new.reads (RemovesDead (λ id b. F.post dead.now id b) tally now)) }
    ensures sees_to { IfOk result (λ now. now.due ≡ false → (base : Index) → OverNodes (S.stands steps.old) base
        → SeesToOver (λ id b. F.post dead.now id b) (λ at number. ⊤) (λ at. ⊤) (S.seen steps.old) (S.seen steps.new)
        (S.desk steps.old).number base) }
    ensures err { IfErr result (StopsRemoves (λ id b. F.post dead.now id b) (OverNodes (S.stands steps.old)) (S.desk steps.old)
        (S.seen steps.old) (S.seen steps.new)) }
{
    look_at_meta(steps, told, trace)?;
    let count = told.blocks;
    let mut nodes = Listed::new(alloc);
    let now = remove_pages(steps, dead, count, &mut nodes, told, tally, trace)?;
    Ok(now)
}
