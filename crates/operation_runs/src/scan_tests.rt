use crate::scan_desks::{desk, small};
use std::test::*;
use vec_names::{Kind, Ops, Params};
use worked_rows::{common_places, eleven_equal, finds, three_are_found, two_long};

/// An index without a node has no row, and the scan ends at once.
#[test]
fn an_empty_index_has_no_row(rt: HostRuntime) -> Result<(), Fail> {
    let alloc = rt.alloc();
    let mut desk = desk(alloc, small(Ops::Hamming))?;
    finds(alloc, &mut desk, "0000", 40, &[])
}

/// A first batch of four has three rows, the nearest first, and of equally near ones that of the lower place.
#[test]
fn the_nearest_row_comes_first(rt: HostRuntime) -> Result<(), Fail> {
    let alloc = rt.alloc();
    let mut desk = desk(alloc, small(Ops::Hamming))?;
    three_are_found(alloc, &mut desk)
}

/// By the distance of Jaccard 1010 is at 2/3 from 1100, and 0000 at 1/1 from it and from itself: of these two the row that came first
/// is answered first.
#[test]
fn a_place_is_common_or_none(rt: HostRuntime) -> Result<(), Fail> {
    let alloc = rt.alloc();
    let mut desk = desk(alloc, small(Ops::Jaccard))?;
    common_places(alloc, &mut desk)
}

#[test]
fn equal_values_come_in_order(rt: HostRuntime) -> Result<(), Fail> {
    let alloc = rt.alloc();
    let mut desk = desk(alloc, small(Ops::Hamming))?;
    eleven_equal(alloc, &mut desk, "0101", (0, 1))
}

/// Values without a 1 are equal, and at 1/1 from each other.
#[test]
fn zeros_are_apart_by_jaccard(rt: HostRuntime) -> Result<(), Fail> {
    let alloc = rt.alloc();
    let mut desk = desk(alloc, small(Ops::Jaccard))?;
    eleven_equal(alloc, &mut desk, "0000", (1, 1))
}

/// Two values of 64,000 places come to 1/1 and 3/1: each fills a page, and its list is on the next. With the meta page these are five.
#[test]
fn the_longest_values_take_two_pages(rt: HostRuntime) -> Result<(), Fail> {
    let alloc = rt.alloc();
    let params = Params {
        kind: Kind::Hnsw,
        ops: Ops::Hamming,
        bits: 64_000,
        m: 16,
        ef: 64,
        lists: 0,
    };
    let mut desk = desk(alloc, params)?;
    two_long(alloc, &mut desk)
}
