//! Searches, as commands.

ghost use Rattle.std.specs.Prelude.{◌≡◌, ◌≤◌, [], length, IfOk, IfErr, OnOk};
ghost use Rattle.vec_names.specs.Params.{IsInRange};
ghost use Rattle.vec_names.specs.declared.params.Kind.TheVariants.{Hnsw};
ghost use Rattle.script_words.specs.declared.command.Command.TheVariants.{Search};
ghost use Rattle.script_words.specs.declared.reply.Reply.TheVariants.{Refused};
ghost use Rattle.vec_steps.specs.Calls.{Goes, HoldsNone};
ghost use Rattle.hnsw_scan.specs.Answering.{mode_of};
ghost use Rattle.hnsw_scan.specs.Scanning.{IsUnused, wanted_of};
ghost use Rattle.script_jobs.specs.Searching.{Finds, SearchEnds, wanted_by};
ghost use Rattle.script_jobs.specs.Jobs.{Does, Fails};

use crate::findings::Findings;
use crate::planning::{Plan, plan_for};
use bit_code::Bits;
use hnsw_scan::{Mode, ScanState, first, next};
use script_words::{Further, Refusal, Reply};
use std::alloc::Global;
use vec_names::Listed;
use vec_steps::{OpFault, Steps};

// Makes batches of a scan until the search ends: what it found comes to `findings`.
fn find<S: Steps>(
    alloc: Global,
    steps: &mut S,
    state: &mut ScanState,
    mode: Mode,
    limit: u64,
    findings: &mut Findings,
) -> Result<(), OpFault>
    requires params { IsInRange (S.desk steps.old).params }
    requires nodes { (S.desk steps.old).params.kind ≡ Hnsw }
    requires gates { HoldsNone (S.seen steps.old) (S.desk steps.old).number }
    requires unused { IsUnused state.old }
    requires mode { mode_of mode ≡ (wanted_of state.old).mode }
    requires fits { length (wanted_of state.old).query ≡ (S.desk steps.old).params.bits }
    requires no_hit { findings.old.hits ≡ [] }
    requires no_read { findings.old.reads ≡ [] }
    ensures goes { Goes S.desk S.stands S.comes_from (S.stands steps.old) steps.old steps.new }
    ensures ok { OnOk result (Finds (S.stands steps.old) (S.desk steps.old) (S.seen steps.old) (S.seen steps.new)
        (wanted_of state.old) limit findings.new.hits findings.new.reads) }
    ensures gates { OnOk result (HoldsNone (S.seen steps.new) (S.desk steps.old).number) }
    ensures err { IfErr result (SearchEnds (S.stands steps.old) (S.desk steps.old) (S.seen steps.old) (S.seen steps.new)
        (wanted_of state.old) limit) }
{
    let batch = first(alloc, steps, state)?;
    findings.add(batch)?;
    // Each batch takes an element that none took before, but for the last: there are not so many.
    'batch: for _ in 0..u64::MAX {
        if findings.are_enough(mode, limit) {
            return Ok(());
        }
        let batch = next(alloc, steps, state)?;
        findings.add(batch)?;
    }
    Err(OpFault::Memory)
}

// A search whose numbers are in range, for a value of the index's length.
fn search_as<S: Steps>(
    alloc: Global,
    steps: &mut S,
    bits: &Bits,
    limit: u64,
    plan: Plan,
) -> Result<Findings, OpFault>
    requires params { IsInRange (S.desk steps.old).params }
    requires nodes { (S.desk steps.old).params.kind ≡ Hnsw }
    requires gates { HoldsNone (S.seen steps.old) (S.desk steps.old).number }
    requires some { 1 ≤ plan.ef }
    requires fits { length bits.now ≡ (S.desk steps.old).params.bits }
    ensures goes { Goes S.desk S.stands S.comes_from (S.stands steps.old) steps.old steps.new }
    ensures ok { IfOk result (λ findings. Finds (S.stands steps.old) (S.desk steps.old) (S.seen steps.old) (S.seen steps.new)
        (wanted_by plan bits.now) limit findings.hits findings.reads) }
    ensures gates { OnOk result (HoldsNone (S.seen steps.new) (S.desk steps.old).number) }
    ensures err { IfErr result (SearchEnds (S.stands steps.old) (S.desk steps.old) (S.seen steps.old) (S.seen steps.new)
        (wanted_by plan bits.now) limit) }
{
    let query = bits.copied()?;
    let mut state = ScanState::make(query, plan.ef, plan.mode, plan.max)?;
    let mut findings = Findings::new(alloc);
    find(alloc, steps, &mut state, plan.mode, limit, &mut findings)?;
    Ok(findings)
}

// The reply to a search that is refused, which looks at nothing.
fn refused(alloc: Global, why: Refusal) -> (Reply, Listed<u64>)
    ensures reply { result.0 ≡ Refused why }
    ensures reads { result.1 ≡ [] }
{
    (Reply::Refused { why }, Listed::new(alloc))
}

/// Searches for the rows nearest to a value, and tells the first of those that were found, at most `limit`, and where the call looked.
/// The first batch of a scan is made, and in the modes Relaxed and Strict further ones until there are `limit` rows or nothing is found
/// any more. Refused are a number that is out of its range, and then a value of another length.
///
/// Its errors are `Memory`, and `Disk` where a step met a fault of the disks, which leaves an act.
pub fn search_rows<S: Steps>(
    alloc: Global,
    steps: &mut S,
    bits: &Bits,
    limit: u64,
    ef: Option<u64>,
    further: Option<Further>,
) -> Result<(Reply, Listed<u64>), OpFault>
    requires params { IsInRange (S.desk steps.old).params }
    requires nodes { (S.desk steps.old).params.kind ≡ Hnsw }
    requires gates { HoldsNone (S.seen steps.old) (S.desk steps.old).number }
    ensures goes { Goes S.desk S.stands S.comes_from (S.stands steps.old) steps.old steps.new }
    ensures ok { IfOk result (λ r. Does (S.stands steps.old) (S.desk steps.old) (S.seen steps.old) (S.seen steps.new)
        (Search bits.now limit ef further) r.1 r.0) }
    ensures gates { OnOk result (HoldsNone (S.seen steps.new) (S.desk steps.old).number) }
    ensures err { IfErr result (Fails (S.stands steps.old) (S.desk steps.old) (S.seen steps.old) (S.seen steps.new)
        (Search bits.now limit ef further)) }
{
    let Some(plan) = plan_for(ef, further) else {
        return Ok(refused(alloc, Refusal::Params));
    };
    let params = steps.params();
    if bits.count() != params.bits {
        return Ok(refused(alloc, Refusal::Dimensions));
    }
    let findings = search_as(alloc, steps, bits, limit, plan)?;
    Ok(findings.told(params.ops, limit))
}
