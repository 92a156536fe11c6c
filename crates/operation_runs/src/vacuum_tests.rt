ghost use Rattle.std.specs.Prelude.{IfOk};
ghost use Rattle.graph_search.specs.Scan.{GoesOn};
ghost use Rattle.vec_steps.specs.Calls.{HoldsNone};
ghost use Rattle.hnsw_scan.specs.Scanning.{IsUnused, wanted_of};
ghost use Rattle.vec_board.specs.Standing.{acts_of};

use crate::scan_desks::{desk, small};
use crate::vacuums::{at_rest, judged};
use hnsw_scan::{Mode, ScanState};
use std::alloc::Global;
use std::test::*;
use vec_board::LoneDesk;
use vec_names::Ops;
use vec_outside::MemDisks;
use worked_rows::{
    Row, begins, come_and_go, comes_again, middle_goes, put, put_three, scan, three_batches,
};

/// Three rows come by seven events: two for each of the first two, and three for the third. After a vacuum of all, which makes three
/// Drops, an entry point that is none, and three Marks, the next row comes to the place of the first, with version 2. The judge finds
/// all acts legal.
#[test]
fn a_row_comes_after_all_went(rt: HostRuntime) -> Result<(), Fail> {
    let alloc = rt.alloc();
    let mut desk = desk(alloc, small(Ops::Hamming))?;
    come_and_go(alloc, &mut desk)?;
    let mut desk = at_rest(desk)?;
    comes_again(alloc, &mut desk)?;
    judged(alloc, small(Ops::Hamming), desk)
}

// The row at 1/3 goes, and another with 0001 comes there, which makes the next version of the place.
fn used_anew(
    alloc: Global,
    mut desk: LoneDesk<MemDisks>,
    version: u8,
) -> Result<LoneDesk<MemDisks>, Fail>
    ensures gates { IfOk result (λ desk. HoldsNone (acts_of desk.board.core) 0) }
{
    middle_goes(alloc, &mut desk, version)?;
    let mut desk = at_rest(desk)?;
    put(alloc, &mut desk, "0001", 4, (3, next_version(version)))?;
    Ok(desk)
}

// After 255 comes 1.
fn next_version(version: u8) -> u8 {
    if version == 255 { 1 } else { version + 1 }
}

// The same so many times, from version 1 on.
fn used_often(
    alloc: Global,
    desk: LoneDesk<MemDisks>,
    times: u32,
) -> Result<LoneDesk<MemDisks>, Fail>
    ensures gates { IfOk result (λ desk. HoldsNone (acts_of desk.board.core) 0) }
{
    let mut desk = desk;
    let mut version = 1;
    for _ in 0..times {
        desk = used_anew(alloc, desk, version)?;
        version = next_version(version);
    }
    at_rest(desk)
}

// After a first batch with the row of 0000 the place 1/3 is used anew so many times. Then the second batch has these rows, the third
// that of 0111, and the fourth none.
fn used_between(
    alloc: Global,
    state: &mut ScanState,
    times: u32,
    second: &[Row],
) -> Result<LoneDesk<MemDisks>, Fail>
    requires unused { IsUnused state.old }
    requires mode { GoesOn (wanted_of state.old).mode }
{
    let mut desk = desk(alloc, small(Ops::Hamming))?;
    put_three(alloc, &mut desk)?;
    begins(alloc, &mut desk, state, &[(1, 0, 1)], false)?;
    let mut desk = used_often(alloc, desk, times)?;
    three_batches(alloc, &mut desk, state, second)?;
    Ok(desk)
}

/// The place 1/3 is used anew between two batches, with version 2: its element is gone, and the second batch has no row and is not the
/// last. The judge finds all acts legal.
#[test]
fn a_place_is_used_anew(rt: HostRuntime) -> Result<(), Fail> {
    let alloc = rt.alloc();
    let mut state = scan(alloc, "0000", 1, Mode::Relaxed)?;
    let desk = used_between(alloc, &mut state, 1, &[])?;
    judged(alloc, small(Ops::Hamming), desk)
}

/// The same after fifteen times, with version 16.
#[test]
fn a_place_is_used_fifteen_times(rt: HostRuntime) -> Result<(), Fail> {
    let alloc = rt.alloc();
    let mut state = scan(alloc, "0000", 1, Mode::Relaxed)?;
    used_between(alloc, &mut state, 15, &[])?;
    Ok(())
}

/// After 255 times the version is 1 again, and the row that is there now is answered, by its own distance.
#[test]
fn the_versions_of_a_place_come_round(rt: HostRuntime) -> Result<(), Fail> {
    let alloc = rt.alloc();
    let mut state = scan(alloc, "0000", 1, Mode::Relaxed)?;
    used_between(alloc, &mut state, 255, &[(4, 1, 1)])?;
    Ok(())
}
