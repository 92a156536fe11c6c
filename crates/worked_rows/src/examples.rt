//! Worked examples of inserts and scans, each with what is to be found.

ghost use Rattle.std.specs.Prelude.{◌≡◌, OnOk};
ghost use Rattle.graph_search.specs.Scan.{GoesOn};
ghost use Rattle.vec_steps.specs.Calls.{HoldsNone};
ghost use Rattle.hnsw_scan.specs.Scanning.{IsUnder, IsUnused, wanted_of};

use crate::batches::{Row, begins, finds, goes_on};
use crate::inserts::{insert_by, insert_text, put, put_three};
use bit_code::Bits;
use hnsw_scan::ScanState;
use std::alloc::Global;
use std::test::Fail;
use vec_steps::{Ask, Steps, Told};

/// Three rows come; each of two scans has them all, the nearest first, and of equally near ones that of the lower place. By Hamming.
pub fn three_are_found<S: Steps>(alloc: Global, steps: &mut S) -> Result<(), Fail>
    requires gates { HoldsNone (S.seen steps.old) (S.desk steps.old).number }
{
    put_three(alloc, steps)?;
    finds(alloc, steps, "0001", 4, &[(1, 1, 1), (2, 1, 1), (3, 2, 1)])?;
    finds(alloc, steps, "0111", 4, &[(3, 0, 1), (2, 1, 1), (1, 3, 1)])
}

/// Values of four places are compared by the distance of Jaccard: 1010 is at 2/3 from 1100, and 0000 at 1/1 from it and from itself.
pub fn common_places<S: Steps>(alloc: Global, steps: &mut S) -> Result<(), Fail>
    requires gates { HoldsNone (S.seen steps.old) (S.desk steps.old).number }
{
    put(alloc, steps, "1100", 1, (1, 1))?;
    finds(alloc, steps, "1010", 40, &[(1, 2, 3)])?;
    put(alloc, steps, "0000", 2, (3, 1))?;
    finds(alloc, steps, "0000", 40, &[(1, 1, 1), (2, 1, 1)])
}

// Rows of one value, whose ids have the offsets from this one up to the next, join the node at 1/1.
fn join<S: Steps>(alloc: Global, steps: &mut S, text: &str, from: u16, to: u16) -> Result<(), Fail>
    requires gates { HoldsNone (S.seen steps.old) (S.desk steps.old).number }
    ensures gates { OnOk result (HoldsNone (S.seen steps.new) (S.desk steps.new).number) }
{
    for row in from..to {
        let new = insert_text(alloc, steps, text, row)?;
        if !new.joined || new.at.block != 1 || new.at.off != 1 {
            return Err(Fail::new("a node that is joined"));
        }
    }
    Ok(())
}

/// Eleven rows of one value stand in two nodes; a scan has all, at this distance, in the order in which they came.
pub fn eleven_equal<S: Steps>(
    alloc: Global,
    steps: &mut S,
    text: &str,
    dist: (u32, u32),
) -> Result<(), Fail>
    requires gates { HoldsNone (S.seen steps.old) (S.desk steps.old).number }
{
    put(alloc, steps, text, 1, (1, 1))?;
    join(alloc, steps, text, 2, 11)?;
    put(alloc, steps, text, 11, (3, 1))?;
    let mut rows: [Row; 11] = [(0, dist.0, dist.1); 11];
    for k in 0..11u16 {
        rows[k as usize].0 = k + 1;
    }
    finds(alloc, steps, text, 40, &rows)
}

// A row comes to the first place of a block, where a value as long as the index's begins with a 1 or not, and has no other.
fn put_long<S: Steps>(
    alloc: Global,
    steps: &mut S,
    begins_with_one: bool,
    block: u32,
) -> Result<(), Fail>
    requires gates { HoldsNone (S.seen steps.old) (S.desk steps.old).number }
    ensures gates { OnOk result (HoldsNone (S.seen steps.new) (S.desk steps.new).number) }
{
    let count = steps.params().bits;
    if !(1..=64_000).contains(&count) {
        return Err(Fail::new("a value"));
    }
    let mut bits = Bits::zeros(alloc, count)?;
    bits.set(0, begins_with_one);
    let new = insert_by(alloc, steps, &bits, 1, u64::MAX)?;
    if new.joined || new.level != 0 || (new.at.block, new.at.off, new.version) != (block, 1, 1) {
        return Err(Fail::new("a node at its place"));
    }
    Ok(())
}

// How many blocks the index has.
fn blocks<S: Steps>(alloc: Global, steps: &mut S) -> Result<u32, Fail> {
    let params = steps.params();
    if !params.check() {
        return Err(Fail::new("parameters in range"));
    }
    let mut told = Told::make(alloc, params)?;
    steps.step(&mut Ask::Meta, &mut told)?;
    Ok(told.blocks)
}

/// Two rows come to an index of values of 64,000 places: each fills a page and has its list on the next, so there are five blocks.
pub fn two_long<S: Steps>(alloc: Global, steps: &mut S) -> Result<(), Fail>
    requires gates { HoldsNone (S.seen steps.old) (S.desk steps.old).number }
{
    put_long(alloc, steps, false, 1)?;
    put_long(alloc, steps, true, 3)?;
    if blocks(alloc, steps)? != 5 {
        return Err(Fail::new("five blocks"));
    }
    Ok(())
}

/// Three rows come; batches of one element have each of them, the nearest to 0000 first, and then the scan is at its end.
pub fn one_by_one<S: Steps>(alloc: Global, steps: &mut S, state: &mut ScanState) -> Result<(), Fail>
    requires gates { HoldsNone (S.seen steps.old) (S.desk steps.old).number }
    requires unused { IsUnused state.old }
    requires mode { GoesOn (wanted_of state.old).mode }
{
    put_three(alloc, steps)?;
    begins(alloc, steps, state, &[(1, 0, 1)], false)?;
    goes_on(alloc, steps, state, &[(2, 2, 1)], false)?;
    goes_on(alloc, steps, state, &[(3, 3, 1)], false)?;
    goes_on(alloc, steps, state, &[], true)
}

// Rows 1 and 2 with 0011 and 0111 are there, and the first is the first batch of 0000; then row 3 with 0001 comes to 1/5.
fn nearer_later<S: Steps>(alloc: Global, steps: &mut S, state: &mut ScanState) -> Result<(), Fail>
    requires gates { HoldsNone (S.seen steps.old) (S.desk steps.old).number }
    requires unused { IsUnused state.old }
    requires mode { GoesOn (wanted_of state.old).mode }
    ensures under { OnOk result (IsUnder state.new) }
    ensures wanted { OnOk result (wanted_of state.new ≡ wanted_of state.old) }
    ensures gates { OnOk result (HoldsNone (S.seen steps.new) (S.desk steps.new).number) }
{
    put(alloc, steps, "0011", 1, (1, 1))?;
    put(alloc, steps, "0111", 2, (3, 1))?;
    begins(alloc, steps, state, &[(1, 2, 1)], false)?;
    put(alloc, steps, "0001", 3, (5, 1))
}

/// A nearer row comes between two batches of one element, and is answered in mode Relaxed.
pub fn answered_later<S: Steps>(
    alloc: Global,
    steps: &mut S,
    state: &mut ScanState,
) -> Result<(), Fail>
    requires gates { HoldsNone (S.seen steps.old) (S.desk steps.old).number }
    requires unused { IsUnused state.old }
    requires mode { GoesOn (wanted_of state.old).mode }
{
    nearer_later(alloc, steps, state)?;
    goes_on(alloc, steps, state, &[(3, 1, 1)], false)?;
    goes_on(alloc, steps, state, &[(2, 3, 1)], false)?;
    goes_on(alloc, steps, state, &[], true)
}

/// A nearer row comes between two batches of one element. In mode Strict it is left out, and the scan is not at its end.
pub fn left_out<S: Steps>(alloc: Global, steps: &mut S, state: &mut ScanState) -> Result<(), Fail>
    requires gates { HoldsNone (S.seen steps.old) (S.desk steps.old).number }
    requires unused { IsUnused state.old }
    requires mode { GoesOn (wanted_of state.old).mode }
{
    nearer_later(alloc, steps, state)?;
    goes_on(alloc, steps, state, &[], false)?;
    goes_on(alloc, steps, state, &[(2, 3, 1)], false)?;
    goes_on(alloc, steps, state, &[], true)
}
