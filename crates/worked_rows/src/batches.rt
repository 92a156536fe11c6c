//! Batches of a scan, compared with the rows that are wanted.

ghost use Rattle.std.specs.Prelude.{◌≡◌, ◌≤◌, IfOk, OnOk};
ghost use Rattle.graph_search.specs.Scan.{GoesOn};
ghost use Rattle.vec_steps.specs.Calls.{HoldsNone};
ghost use Rattle.hnsw_scan.specs.Answering.{mode_of};
ghost use Rattle.hnsw_scan.specs.Scanning.{IsUnder, IsUnused, wanted_of};

use bit_code::read_bits;
use hnsw_scan::{Batch, Mode, ScanState, first, next};
use std::alloc::Global;
use std::test::Fail;
use vec_steps::Steps;

/// A row of a batch: the offset of its id, and the two parts of its distance.
pub type Row = (u16, u32, u32);

/// A scan for the rows nearest to a value, by so many elements a batch.
pub fn scan(alloc: Global, text: &str, ef: u32, mode: Mode) -> Result<ScanState, Fail>
    requires { 1 ≤ ef }
    ensures unused { IfOk result IsUnused }
    ensures mode { IfOk result (λ state. (wanted_of state).mode ≡ mode_of mode) }
{
    Ok(ScanState::make(read_bits(alloc, text)?, ef, mode, 20_000)?)
}

// A batch has these rows, and is the last or not.
fn is(batch: &Batch, rows: &[Row], end: bool) -> bool {
    for (answer, (row, num, den)) in batch.answers.as_slice().iter().zip(rows) {
        if answer.id.off != *row || answer.dist.num != *num || answer.dist.den != *den {
            return false;
        }
    }
    batch.answers.len() == rows.len() && batch.end == end
}

/// The first batch has these rows, and is the last or not.
pub fn begins<S: Steps>(
    alloc: Global,
    steps: &mut S,
    state: &mut ScanState,
    rows: &[Row],
    end: bool,
) -> Result<(), Fail>
    requires gates { HoldsNone (S.seen steps.old) (S.desk steps.old).number }
    requires unused { IsUnused state.old }
    ensures under { OnOk result (IsUnder state.new) }
    ensures wanted { OnOk result (wanted_of state.new ≡ wanted_of state.old) }
    ensures gates { OnOk result (HoldsNone (S.seen steps.new) (S.desk steps.new).number) }
{
    if !steps.params().check() {
        return Err(Fail::new("parameters in range"));
    }
    let batch = first(alloc, steps, state)?;
    if !is(&batch, rows, end) {
        return Err(Fail::new("other rows in a first batch"));
    }
    Ok(())
}

/// The next batch has these rows, and is the last or not.
pub fn goes_on<S: Steps>(
    alloc: Global,
    steps: &mut S,
    state: &mut ScanState,
    rows: &[Row],
    end: bool,
) -> Result<(), Fail>
    requires gates { HoldsNone (S.seen steps.old) (S.desk steps.old).number }
    requires under { IsUnder state.old }
    requires mode { GoesOn (wanted_of state.old).mode }
    ensures under { OnOk result (IsUnder state.new) }
    ensures wanted { OnOk result (wanted_of state.new ≡ wanted_of state.old) }
    ensures gates { OnOk result (HoldsNone (S.seen steps.new) (S.desk steps.new).number) }
{
    if !steps.params().check() {
        return Err(Fail::new("parameters in range"));
    }
    let batch = next(alloc, steps, state)?;
    if !is(&batch, rows, end) {
        return Err(Fail::new("other rows in a next batch"));
    }
    Ok(())
}

/// A scan of its own has these rows in its first batch, of up to so many elements.
pub fn finds<S: Steps>(
    alloc: Global,
    steps: &mut S,
    text: &str,
    ef: u32,
    rows: &[Row],
) -> Result<(), Fail>
    requires some { 1 ≤ ef }
    requires gates { HoldsNone (S.seen steps.old) (S.desk steps.old).number }
    ensures gates { OnOk result (HoldsNone (S.seen steps.new) (S.desk steps.new).number) }
{
    let mut state = scan(alloc, text, ef, Mode::Off)?;
    begins(alloc, steps, &mut state, rows, rows.is_empty())
}
