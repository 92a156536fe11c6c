//! Worked examples of inserts and scans, while others take gates and give them back: what is found is what is found alone.

ghost use Rattle.std.specs.Prelude.{◌≡◌, IfOk, OnOk};
ghost use Rattle.vec_names.specs.Params.{IsInRange};
ghost use Rattle.vec_names.specs.declared.params.Kind.TheVariants.{Hnsw};
ghost use Rattle.graph_search.specs.Scan.{GoesOn};
ghost use Rattle.vec_steps.specs.Calls.{HoldsNone};
ghost use Rattle.hnsw_scan.specs.Scanning.{IsUnused, wanted_of};
ghost use Rattle.loaded_index.specs.Loading.{CanGoOn};
ghost use Rattle.vec_board.specs.Standing.{acts_of};

use super::*;
use empty_index::empty_index;
use hnsw_scan::{Mode, ScanState};
use vec_names::{Kind, Ops, Params};
use worked_rows::{
    Row, answered_later, begins, come_and_go, comes_again, common_places, eleven_equal, finds,
    left_out, middle_goes, none_held, one_by_one, put, put_three, scan, three_are_found,
    three_batches, two_long,
};

/// The parameters of a graph of values of four places, with m 2 and ef 4.
fn small(ops: Ops) -> Params
    ensures range { IsInRange result }
    ensures nodes { result.kind ≡ Hnsw }
{
    Params {
        kind: Kind::Hnsw,
        ops,
        bits: 4,
        m: 2,
        ef: 4,
        lists: 0,
    }
}

/// Such an index without nodes, at the begin of its first epoch.
fn new_index(alloc: Global, params: Params) -> Result<Loaded, Fail>
    requires range { IsInRange params }
    requires nodes { params.kind ≡ Hnsw }
    ensures { IfOk result CanGoOn }
{
    Ok(Loaded {
        pages: empty_index(alloc, params)?,
        epoch: 1,
        area: Area::Log0,
        before: 0,
        end: 40,
        used: 0,
        unwritten: Vec::new(alloc),
    })
}

/// Before the steps of the desk others hold the gates of scans and of updates, shared, and give them back; what may not be asked is
/// passed over.
const BESIDE: [Before; 14] = [
    (1, 2, &[Move::Take(Gate::Scan, Hold::Shared)]),
    (2, 3, &[SHARED]),
    (3, 2, &[Move::Give(Gate::Scan), Move::Enter(1)]),
    (4, 3, &[GIVE]),
    (9, 2, &[SHARED, Move::Take(Gate::Scan, Hold::Shared)]),
    (14, 2, &[GIVE]),
    (
        20,
        3,
        &[Move::Take(Gate::Scan, Hold::Shared), Move::Give(Gate::Scan)],
    ),
    (21, 2, &[Move::Give(Gate::Scan)]),
    (30, 3, &[SHARED]),
    (34, 2, &[Move::Take(Gate::Scan, Hold::Shared)]),
    (38, 3, &[GIVE]),
    (45, 2, &[Move::Give(Gate::Scan), SHARED]),
    (52, 2, &[GIVE, Move::Take(Gate::Scan, Hold::Shared)]),
    (60, 2, &[Move::Give(Gate::Scan)]),
];

/// A desk at a board of such an index, with those asks of others before its steps.
fn beside(alloc: Global, params: Params) -> Result<Meddled<MemDisks>, Fail>
    requires range { IsInRange params }
    requires nodes { params.kind ≡ Hnsw }
    ensures free { IfOk result (λ desk. HoldsNone (acts_of desk.board.core) 0) }
{
    let groups = groups_of(alloc, &BESIDE)?;
    let log = vec![in alloc; 0; 40]?;
    let other = vec![in alloc; 0; 40]?;
    let disks = MemDisks::over(alloc, Vec::new(alloc), log, other, Vec::new(alloc));
    let loaded = new_index(alloc, params)?;
    if (disks.bytes(loaded.area).len() as u64) < loaded.end {
        return Err(Fail::new("an area to the log's end"));
    }
    let Ok(base) = graph_of(alloc, loaded.pages.as_slice()) else {
        return Err(Fail::new("pages of a graph"));
    };
    Ok(Meddled::over(
        alloc,
        Board::from_loaded(alloc, disks, loaded),
        base,
        groups,
    ))
}

/// All acts are legal, and others made some of them.
fn ends_beside(alloc: Global, params: Params, desk: Meddled<MemDisks>) -> Result<(), Fail>
    requires range { IsInRange params }
    requires nodes { params.kind ≡ Hnsw }
{
    let loaded = new_index(alloc, params)?;
    let Ok(base) = graph_of(alloc, loaded.pages.as_slice()) else {
        return Err(Fail::new("pages of a graph"));
    };
    let board = desk.into_board();
    if count_of(board.acts(), 2) < 2 || count_of(board.acts(), 3) < 2 {
        return Err(Fail::new("acts of others"));
    }
    Ok(audit_hnsw(alloc, &base, board.acts())?)
}

/// No row, and the end at once: the entry point that an ask of another would set is passed over.
#[test]
fn an_empty_index_has_no_row_beside_others(rt: HostRuntime) -> Result<(), Fail> {
    let alloc = rt.alloc();
    let mut desk = beside(alloc, small(Ops::Hamming))?;
    finds(alloc, &mut desk, "0000", 3, &[])?;
    finds(alloc, &mut desk, "1111", 3, &[])?;
    ends_beside(alloc, small(Ops::Hamming), desk)
}

#[test]
fn three_are_found_beside_others(rt: HostRuntime) -> Result<(), Fail> {
    let alloc = rt.alloc();
    let mut desk = beside(alloc, small(Ops::Hamming))?;
    three_are_found(alloc, &mut desk)?;
    ends_beside(alloc, small(Ops::Hamming), desk)
}

#[test]
fn a_place_is_common_beside_others(rt: HostRuntime) -> Result<(), Fail> {
    let alloc = rt.alloc();
    let mut desk = beside(alloc, small(Ops::Jaccard))?;
    common_places(alloc, &mut desk)?;
    ends_beside(alloc, small(Ops::Jaccard), desk)
}

#[test]
fn equal_values_beside_others(rt: HostRuntime) -> Result<(), Fail> {
    let alloc = rt.alloc();
    let mut desk = beside(alloc, small(Ops::Hamming))?;
    eleven_equal(alloc, &mut desk, "0101", (0, 1))?;
    ends_beside(alloc, small(Ops::Hamming), desk)
}

#[test]
fn zeros_beside_others(rt: HostRuntime) -> Result<(), Fail> {
    let alloc = rt.alloc();
    let mut desk = beside(alloc, small(Ops::Jaccard))?;
    eleven_equal(alloc, &mut desk, "0000", (1, 1))?;
    ends_beside(alloc, small(Ops::Jaccard), desk)
}

#[test]
fn the_longest_values_beside_others(rt: HostRuntime) -> Result<(), Fail> {
    let alloc = rt.alloc();
    let params = Params {
        kind: Kind::Hnsw,
        ops: Ops::Hamming,
        bits: 64_000,
        m: 16,
        ef: 64,
        lists: 0,
    };
    let mut desk = beside(alloc, params)?;
    two_long(alloc, &mut desk)?;
    ends_beside(alloc, params, desk)
}

#[test]
fn batches_of_one_beside_others(rt: HostRuntime) -> Result<(), Fail> {
    let alloc = rt.alloc();
    let mut desk = beside(alloc, small(Ops::Hamming))?;
    let mut state = scan(alloc, "0000", 1, Mode::Relaxed)?;
    one_by_one(alloc, &mut desk, &mut state)?;
    ends_beside(alloc, small(Ops::Hamming), desk)
}

#[test]
fn a_nearer_row_is_answered_beside_others(rt: HostRuntime) -> Result<(), Fail> {
    let alloc = rt.alloc();
    let mut desk = beside(alloc, small(Ops::Hamming))?;
    let mut state = scan(alloc, "0000", 1, Mode::Relaxed)?;
    answered_later(alloc, &mut desk, &mut state)?;
    ends_beside(alloc, small(Ops::Hamming), desk)
}

#[test]
fn a_nearer_row_is_left_out_beside_others(rt: HostRuntime) -> Result<(), Fail> {
    let alloc = rt.alloc();
    let mut desk = beside(alloc, small(Ops::Hamming))?;
    let mut state = scan(alloc, "0000", 1, Mode::Strict)?;
    left_out(alloc, &mut desk, &mut state)?;
    ends_beside(alloc, small(Ops::Hamming), desk)
}

/// The desk holds no gate, as a look at the acts tells.
fn rests(desk: &Meddled<MemDisks>) -> Result<(), Fail>
    ensures { OnOk result (HoldsNone (acts_of desk.now.board.core) 0) }
{
    if !none_held(desk.board.acts()) {
        return Err(Fail::new("a desk without a gate"));
    }
    Ok(())
}

/// All rows go by a vacuum, and the next one takes the place of the first anew.
#[test]
fn a_row_comes_after_all_went_beside_others(rt: HostRuntime) -> Result<(), Fail> {
    let alloc = rt.alloc();
    let mut desk = beside(alloc, small(Ops::Hamming))?;
    come_and_go(alloc, &mut desk)?;
    rests(&desk)?;
    comes_again(alloc, &mut desk)?;
    ends_beside(alloc, small(Ops::Hamming), desk)
}

/// So many times the row at 1/3 goes, from version 1 on, and another comes there, which makes the next version of the place; after 255
/// comes 1.
fn used_often(alloc: Global, desk: &mut Meddled<MemDisks>, times: u32) -> Result<(), Fail>
    requires { HoldsNone (acts_of desk.old.board.core) 0 }
    ensures { OnOk result (HoldsNone (acts_of desk.new.board.core) 0) }
{
    let mut version: u8 = 1;
    'time: for _ in 0..times {
        middle_goes(alloc, desk, version)?;
        rests(desk)?;
        version = if version == 255 { 1 } else { version + 1 };
        put(alloc, desk, "0001", 4, (3, version))?;
    }
    rests(desk)
}

/// Three rows; the first batch of 0000, of one element; the place 1/3 used anew so many times; and then the other batches, of which the
/// second has these rows.
fn used_between(
    alloc: Global,
    desk: &mut Meddled<MemDisks>,
    state: &mut ScanState,
    times: u32,
    second: &[Row],
) -> Result<(), Fail>
    requires gates { HoldsNone (acts_of desk.old.board.core) 0 }
    requires unused { IsUnused state.old }
    requires mode { GoesOn (wanted_of state.old).mode }
{
    put_three(alloc, desk)?;
    begins(alloc, desk, state, &[(1, 0, 1)], false)?;
    used_often(alloc, desk, times)?;
    three_batches(alloc, desk, state, second)
}

/// The place 1/3 is used anew so many times between two batches, in mode Relaxed.
fn is_used(alloc: Global, times: u32, second: &[Row]) -> Result<(), Fail> {
    let mut desk = beside(alloc, small(Ops::Hamming))?;
    let mut state = scan(alloc, "0000", 1, Mode::Relaxed)?;
    used_between(alloc, &mut desk, &mut state, times, second)?;
    ends_beside(alloc, small(Ops::Hamming), desk)
}

/// What was found there is gone when it is read again, after once and after fifteen times.
#[test]
fn a_place_is_used_anew_beside_others(rt: HostRuntime) -> Result<(), Fail> {
    is_used(rt.alloc(), 1, &[])?;
    is_used(rt.alloc(), 15, &[])
}

/// After 255 times the version is 1 again, and the row that is there now is answered.
#[test]
fn versions_come_round_beside_others(rt: HostRuntime) -> Result<(), Fail> {
    is_used(rt.alloc(), 255, &[(4, 1, 1)])
}
