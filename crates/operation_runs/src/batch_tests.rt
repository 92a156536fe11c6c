use crate::scan_desks::{desk, small};
use hnsw_scan::Mode;
use std::test::*;
use vec_names::Ops;
use worked_rows::{answered_later, left_out, one_by_one, scan};

/// Batches of one element, of an index that nobody changes: each row, the nearest first, and then the end.
#[test]
fn batches_of_one_have_each_row(rt: HostRuntime) -> Result<(), Fail> {
    let alloc = rt.alloc();
    let mut desk = desk(alloc, small(Ops::Hamming))?;
    let mut state = scan(alloc, "0000", 1, Mode::Relaxed)?;
    one_by_one(alloc, &mut desk, &mut state)
}

/// A nearer row comes between two batches, and is answered.
#[test]
fn a_nearer_row_is_answered_later(rt: HostRuntime) -> Result<(), Fail> {
    let alloc = rt.alloc();
    let mut desk = desk(alloc, small(Ops::Hamming))?;
    let mut state = scan(alloc, "0000", 1, Mode::Relaxed)?;
    answered_later(alloc, &mut desk, &mut state)
}

/// In mode Strict the nearer row is left out, and the scan is not at its end.
#[test]
fn a_nearer_row_is_left_out(rt: HostRuntime) -> Result<(), Fail> {
    let alloc = rt.alloc();
    let mut desk = desk(alloc, small(Ops::Hamming))?;
    let mut state = scan(alloc, "0000", 1, Mode::Strict)?;
    left_out(alloc, &mut desk, &mut state)
}
