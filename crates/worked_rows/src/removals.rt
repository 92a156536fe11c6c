//! Worked examples of rows that go by a vacuum, and of what comes after them.

ghost use Rattle.std.specs.Prelude.{◌≡◌, length};
ghost use Rattle.graph_search.specs.Scan.{GoesOn};
ghost use Rattle.vec_steps.specs.Calls.{HoldsNone};
ghost use Rattle.hnsw_scan.specs.Scanning.{IsUnder, wanted_of};

use crate::batches::{Row, finds, goes_on};
use crate::inserts::{put, put_three};
use crate::vacuums::{deletes, drops, ends, leaves_none, marks, names_one, opens, repairs, told};
use hnsw_scan::ScanState;
use std::alloc::Global;
use std::test::Fail;
use vec_steps::{Steps, Told};

// A vacuum that calls all three rows dead.
fn all_go<S: Steps>(steps: &mut S, told: &mut Told) -> Result<(), Fail>
    requires { length told.old.bits ≡ (S.desk steps.old).params.bits }
{
    opens(steps, told)?;
    drops(steps, told, 1, 1)?;
    drops(steps, told, 3, 1)?;
    drops(steps, told, 5, 1)?;
    repairs(steps, told)?;
    leaves_none(steps, told)?;
    marks(steps, told)?;
    deletes(steps, told, 1, 1)?;
    deletes(steps, told, 3, 1)?;
    deletes(steps, told, 5, 1)?;
    ends(steps, told)
}

// All events that last are settled, and they are so many.
fn settles<S: Steps>(steps: &mut S, count: u64) -> Result<(), Fail> {
    if steps.settle()? != count {
        return Err(Fail::new("as many events that last"));
    }
    Ok(())
}

/// Three rows come by seven events that last, and are found; then a vacuum calls them all dead.
pub fn come_and_go<S: Steps>(alloc: Global, steps: &mut S) -> Result<(), Fail>
    requires gates { HoldsNone (S.seen steps.old) (S.desk steps.old).number }
{
    put_three(alloc, steps)?;
    finds(alloc, steps, "0001", 4, &[(1, 1, 1), (2, 1, 1), (3, 2, 1)])?;
    settles(steps, 7)?;
    let mut told = told(alloc, steps)?;
    all_go(steps, &mut told)
}

/// The next row comes to the place of the first, with version 2. With the nine events of the vacuum sixteen have come since then.
pub fn comes_again<S: Steps>(alloc: Global, steps: &mut S) -> Result<(), Fail>
    requires gates { HoldsNone (S.seen steps.old) (S.desk steps.old).number }
{
    put(alloc, steps, "1111", 4, (1, 2))?;
    settles(steps, 16)
}

/// A vacuum calls the row at 1/3 dead, where three nodes stand: the two others come to name each other alone.
pub fn middle_goes<S: Steps>(alloc: Global, steps: &mut S, version: u8) -> Result<(), Fail> {
    let mut told = told(alloc, steps)?;
    middle_goes_by(alloc, steps, &mut told, version)
}

fn middle_goes_by<S: Steps>(
    alloc: Global,
    steps: &mut S,
    told: &mut Told,
    version: u8,
) -> Result<(), Fail>
    requires { length told.old.bits ≡ (S.desk steps.old).params.bits }
{
    opens(steps, told)?;
    drops(steps, told, 3, version)?;
    repairs(steps, told)?;
    names_one(alloc, steps, told, 1, 5)?;
    names_one(alloc, steps, told, 5, 1)?;
    marks(steps, told)?;
    deletes(steps, told, 3, version)?;
    ends(steps, told)
}

/// A second batch has these rows, the third that of 0111, and the fourth none, with the end.
pub fn three_batches<S: Steps>(
    alloc: Global,
    steps: &mut S,
    state: &mut ScanState,
    second: &[Row],
) -> Result<(), Fail>
    requires gates { HoldsNone (S.seen steps.old) (S.desk steps.old).number }
    requires under { IsUnder state.old }
    requires mode { GoesOn (wanted_of state.old).mode }
{
    goes_on(alloc, steps, state, second, false)?;
    goes_on(alloc, steps, state, &[(3, 3, 1)], false)?;
    goes_on(alloc, steps, state, &[], true)
}
