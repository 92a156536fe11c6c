// Rows along chains.
#![tactic(auto)]

ghost use Rattle.std.specs.Prelude.{◌≡◌, ◌++◌, [], OnOk, IfOk, IfErr, length, map, Some, None};
ghost use Rattle.vec_names.specs.declared.params.Kind.TheVariants.{Ivf};
ghost use Rattle.vec_steps.specs.declared.fault.OpFault.TheVariants.{Memory};
ghost use Rattle.vec_steps.specs.Index.{Index};
ghost use Rattle.vec_steps.specs.Calls.{Goes};
ghost use Rattle.ivf_ops.specs.Nearness.{met_of};
ghost use Rattle.ivf_ops.specs.Walking.{WalksOn};
ghost use Rattle.ivf_ops.specs.Standing.{OverBlock};
ghost use Rattle.ivf_ops.specs.Viewing.{EndedBy};

use crate::looking::look_at_rows;
use crate::met::Met;
use bit_code::Bits;
use bit_dist::distance;
use index_sizes::MOST_BLOCKS;
use vec_names::Ops;
use vec_steps::{OpFault, RowSeen, Steps, Told, Trace};

// Puts these rows of a block last, with how near each is.
fn put_rows(met: &mut Vec<Met>, query: &Bits, block: u32, rows: &[RowSeen]) -> Result<(), OpFault>
    ensures ok { OnOk result (met.new.items ≡ met.old.items ++ map (met_of query.now block) rows.now) }
    ensures memory { IfErr result (λ e. e ≡ Memory) }
{
    for row in rows {
        // Never over a base: each row has the index's length.
        if row.bits.count() != query.count() {
            return Err(OpFault::Memory);
        }
        met.push(Met {
            dist: distance(Ops::Hamming, &row.bits, query),
            id: row.id,
            block,
            off: row.off,
        })?;
    }
    Ok(())
}

// Looks at one block of a chain, and tells the next one.
fn walk_one<S: Steps>(
    steps: &mut S,
    query: &Bits,
    block: u32,
    told: &mut Told,
    met: &mut Vec<Met>,
    trace: &mut Trace,
) -> Result<Option<u32>, OpFault>
    requires lists { (S.desk steps.old).params.kind ≡ Ivf }
    requires bits { length told.old.bits ≡ (S.desk steps.old).params.bits }
    ensures goes { Goes S.desk S.stands S.comes_from (OverBlock (S.stands steps.old) (S.seen steps.old) (Some block)) steps.old steps.new }
    ensures bits { length told.new.bits ≡ (S.desk steps.old).params.bits }
    ensures ok { IfOk result (λ next. WalksOn (OverBlock (S.stands steps.old) (S.seen steps.old) (Some block)) (S.desk steps.old)
        (S.seen steps.old) (S.seen steps.new) trace.old.reads trace.new.reads query.now (Some block) [] next met.old.items met.new.items) }
    ensures next { IfOk result (λ next. (base : Index) → OverBlock (S.stands steps.old) (S.seen steps.old) (Some block) base
        → OverBlock (S.stands steps.new) (S.seen steps.new) next base) }
    ensures err { IfErr result (EndedBy (OverBlock (S.stands steps.old) (S.seen steps.old) (Some block)) (S.desk steps.old)
        (S.seen steps.old) (S.seen steps.new)) }
{
    look_at_rows(steps, block, told, trace)?;
    put_rows(met, query, block, told.rows.as_slice())?;
    Ok(told.next)
}

// Looks at each block of a chain from its first one on, so many at most, and puts the rows met last.
fn walk_within<S: Steps>(
    steps: &mut S,
    query: &Bits,
    first: u32,
    most: u32,
    told: &mut Told,
    met: &mut Vec<Met>,
    trace: &mut Trace,
) -> Result<(), OpFault>
    requires lists { (S.desk steps.old).params.kind ≡ Ivf }
    requires bits { length told.old.bits ≡ (S.desk steps.old).params.bits }
    ensures goes { Goes S.desk S.stands S.comes_from (OverBlock (S.stands steps.old) (S.seen steps.old) (Some first)) steps.old steps.new }
    ensures bits { length told.new.bits ≡ (S.desk steps.old).params.bits }
    ensures ok { OnOk result (WalksOn (OverBlock (S.stands steps.old) (S.seen steps.old) (Some first)) (S.desk steps.old)
        (S.seen steps.old) (S.seen steps.new) trace.old.reads trace.new.reads query.now (Some first) [] None met.old.items met.new.items) }
    ensures err { IfErr result (EndedBy (OverBlock (S.stands steps.old) (S.seen steps.old) (Some first)) (S.desk steps.old)
        (S.seen steps.old) (S.seen steps.new)) }
{
    let mut at = Some(first);
    for turn in 0..most {
        let _ = turn;
        let Some(block) = at else {
            return Ok(());
        };
        at = walk_one(steps, query, block, told, met, trace)?;
    }
    Err(OpFault::Memory)
}

/// Looks at each block of a chain, from its first one to its end, and puts the rows met last, as a scan does with each list that it
/// probes: a row's distance is Hamming's.
///
/// `told` was made for the index, and the value has its length. The looks come to the end of `trace`, each by its position. It makes no
/// act. Its errors are `Memory`, also where a row has another length than the value or more blocks follow each other than an index may
/// have, and `Disk` where a step met a fault of the disks, which leaves an act; some rows may have been put last by then.
pub fn walk_chain<S: Steps>(
    steps: &mut S,
    query: &Bits,
    first: u32,
    told: &mut Told,
    met: &mut Vec<Met>,
    trace: &mut Trace,
) -> Result<(), OpFault>
    requires lists { (S.desk steps.old).params.kind ≡ Ivf }
    requires bits { length told.old.bits ≡ (S.desk steps.old).params.bits }
    ensures goes { Goes S.desk S.stands S.comes_from (OverBlock (S.stands steps.old) (S.seen steps.old) (Some first)) steps.old steps.new }
    ensures bits { length told.new.bits ≡ (S.desk steps.old).params.bits }
    ensures ok { OnOk result (WalksOn (OverBlock (S.stands steps.old) (S.seen steps.old) (Some first)) (S.desk steps.old)
        (S.seen steps.old) (S.seen steps.new) trace.old.reads trace.new.reads query.now (Some first) [] None met.old.items met.new.items) }
    ensures err { IfErr result (EndedBy (OverBlock (S.stands steps.old) (S.seen steps.old) (Some first)) (S.desk steps.old)
        (S.seen steps.old) (S.seen steps.new)) }
{
    walk_within(steps, query, first, MOST_BLOCKS, told, met, trace)
}
