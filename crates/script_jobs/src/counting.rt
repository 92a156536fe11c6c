// The counts of the nodes that looks at pages told.
ghost use Rattle.std.specs.Prelude.{◌≡◌, ◌+◌, IfOk, IfErr};
ghost use Rattle.vec_steps.specs.declared.fault.OpFault.TheVariants.{Memory};
ghost use Rattle.script_jobs.specs.Counting.{deleted_in, doomed_in, live_in, rows_in, with_all, with_seen};

use script_words::Counts;
use vec_steps::{OpFault, Seen};

// The sum of two counts. One beyond 64 bits, which no index comes to, ends a call as want of memory does.
fn plus(count: u64, more: u64) -> Result<u64, OpFault>
    ensures sum { IfOk result (λ n. n ≡ count + more) }
    ensures memory { IfErr result (λ e. e ≡ Memory) }
{
    match count.checked_add(more) {
        Some(sum) => Ok(sum),
        None => Err(OpFault::Memory),
    }
}

fn live_in(seen: &Seen) -> u64
    ensures { result ≡ live_in seen.now.deleted seen.now.ids.items }
{
    if seen.deleted || seen.ids.is_empty() {
        return 0;
    }
    1
}

fn doomed_in(seen: &Seen) -> u64
    ensures { result ≡ doomed_in seen.now.deleted seen.now.ids.items }
{
    if seen.deleted || !seen.ids.is_empty() {
        return 0;
    }
    1
}

fn deleted_in(seen: &Seen) -> u64
    ensures { result ≡ deleted_in seen.now.deleted seen.now.ids.items }
{
    if seen.deleted { 1 } else { 0 }
}

fn rows_in(seen: &Seen) -> u64
    ensures { result ≡ rows_in seen.now.deleted seen.now.ids.items }
{
    if seen.deleted {
        return 0;
    }
    seen.ids.len() as u64
}

// The counts with one node more.
fn with_seen(counts: Counts, seen: &Seen) -> Result<Counts, OpFault>
    ensures ok { IfOk result (λ c. c ≡ with_seen counts seen.now) }
    ensures memory { IfErr result (λ e. e ≡ Memory) }
{
    Ok(Counts {
        blocks: counts.blocks,
        nodes: plus(counts.nodes, 1)?,
        live: plus(counts.live, live_in(seen))?,
        doomed: plus(counts.doomed, doomed_in(seen))?,
        deleted: plus(counts.deleted, deleted_in(seen))?,
        entries: plus(counts.entries, rows_in(seen))?,
    })
}

/// The counts with these nodes more.
pub fn with_all(counts: Counts, nodes: &[Seen]) -> Result<Counts, OpFault>
    ensures ok { IfOk result (λ c. c ≡ with_all counts nodes.now) }
    ensures memory { IfErr result (λ e. e ≡ Memory) }
{
    let mut all = counts;
    'node: for i in 0..nodes.len() {
        all = with_seen(all, &nodes[i])?;
    }
    Ok(all)
}
