//! Scans of 0000 beside others: a first batch, and batches after it.

ghost use Rattle.std.specs.Prelude.{◌≡◌, ◌≤◌, IfOk, OnOk};
ghost use Rattle.vec_names.specs.Params.{IsInRange};
ghost use Rattle.vec_steps.specs.Calls.{HoldsNone};
ghost use Rattle.graph_search.specs.Scan.{GoesOn};
ghost use Rattle.hnsw_scan.specs.Answering.{mode_of};
ghost use Rattle.hnsw_scan.specs.Scanning.{IsUnder, IsUnused, wanted_of};

use super::*;
use hnsw_scan::{Batch, Mode, ScanState, first, next};
use vec_steps::Steps;

/// Whether a batch has these rows, by the offset of the row and the distance, and is the last or not.
fn is(batch: &Batch, rows: &[(u16, u32)], end: bool) -> bool {
    for (answer, (row, num)) in batch.answers.as_slice().iter().zip(rows) {
        if answer.id.off != *row || answer.dist.num != *num {
            return false;
        }
    }
    batch.answers.len() == rows.len() && batch.end == end
}

/// The first batch has these rows, by looks at these positions, and more may follow.
fn begins<S: Steps>(
    alloc: Global,
    steps: &mut S,
    state: &mut ScanState,
    rows: &[(u16, u32)],
    reads: &[u64],
) -> Result<(), Fail>
    requires gates { HoldsNone (S.seen steps.old) (S.desk steps.old).number }
    requires unused { IsUnused state.old }
    ensures params { OnOk result ((S.desk steps.new).params ≡ (S.desk steps.old).params) }
    ensures number { OnOk result ((S.desk steps.new).number ≡ (S.desk steps.old).number) }
    ensures free { OnOk result (HoldsNone (S.seen steps.new) (S.desk steps.new).number) }
    ensures under { OnOk result (IsUnder state.new) }
    ensures wanted { OnOk result (wanted_of state.new ≡ wanted_of state.old) }
{
    if !steps.params().check() {
        return Err(Fail::new("parameters in range"));
    }
    let batch = first(alloc, steps, state)?;
    if !is(&batch, rows, false) || batch.trace.reads.as_slice() != reads {
        return Err(Fail::new("other rows, or other looks"));
    }
    Ok(())
}

/// The next batch has these rows, by so many looks, and is the last or not.
fn goes_on<S: Steps>(
    alloc: Global,
    steps: &mut S,
    state: &mut ScanState,
    rows: &[(u16, u32)],
    looks: usize,
    end: bool,
) -> Result<(), Fail>
    requires gates { HoldsNone (S.seen steps.old) (S.desk steps.old).number }
    requires under { IsUnder state.old }
    requires mode { GoesOn (wanted_of state.old).mode }
    ensures free { OnOk result (HoldsNone (S.seen steps.new) (S.desk steps.new).number) }
    ensures under { OnOk result (IsUnder state.new) }
    ensures wanted { OnOk result (wanted_of state.new ≡ wanted_of state.old) }
{
    if !steps.params().check() {
        return Err(Fail::new("parameters in range"));
    }
    let batch = next(alloc, steps, state)?;
    if !is(&batch, rows, end) || batch.trace.reads.len() != looks {
        return Err(Fail::new("other rows, or other looks"));
    }
    Ok(())
}

/// A scan that goes on.
fn scan(alloc: Global, ef: u32, mode: Mode) -> Result<ScanState, Fail>
    requires ef { 1 ≤ ef }
    ensures unused { IfOk result IsUnused }
    ensures mode { IfOk result (λ state. (wanted_of state).mode ≡ mode_of mode) }
{
    let query = read_bits(alloc, "0000")?;
    Ok(ScanState::make(query, ef, mode, 20_000)?)
}

/// The acts at the board are legal, each of these desks made so many, and none of so many first acts is a Mark.
fn ends_unmarked(
    alloc: Global,
    desk: Meddled<MemDisks>,
    wanted: &[(u32, usize)],
    unmarked: usize,
) -> Result<(), Fail> {
    let board = desk.into_board();
    if !has_no_mark(board.acts(), unmarked) {
        return Err(Fail::new("a Mark in a first batch"));
    }
    are_counted(board.acts(), wanted)?;
    are_legal(alloc, board.acts())
}

/// 1/1 and 1/5 come to name each other and nothing else.
const AROUND: [Move; 4] = [
    SHARED,
    Move::Relist(1, [5, 0]),
    Move::Relist(5, [1, 0]),
    GIVE,
];

/// The gate of scans is taken alone and given back, and 1/3 is marked.
const MARKS: [Move; 4] = [
    SCANS,
    GIVE_SCANS,
    Move::Begin(Stage::Mark),
    Move::Mark(3, 1),
];

/// A vacuum of desk 2 whose last pass is to come into the first batch of two elements: its asks before the steps 6 and 9, which is the
/// release, are passed over, and it goes on before the next batch.
const HELD_OFF: [Before; 8] = [
    (1, 1, &THREE),
    (2, 2, &[VACUUM, Move::Begin(Stage::Remove)]),
    (3, 2, &[Move::Drop(3, 1)]),
    (4, 2, &[ALONE, GIVE, Move::Begin(Stage::Repair)]),
    (5, 2, &AROUND),
    (6, 2, &MARKS),
    (9, 2, &MARKS),
    (10, 2, &MARKS),
];

/// The first batch reads the meta tuple, 1/1 and its list of 1/3 and 1/5; 1/3, which lost its row and is not gone; 1/5; and the lists
/// of 1/3 and 1/5, since fewer than two nearer ones were found. Its rows are 1 at 0 and 3 at 3. Nothing is left for the next batch.
fn held_off<S: Steps>(alloc: Global, steps: &mut S, state: &mut ScanState) -> Result<(), Fail>
    requires gates { HoldsNone (S.seen steps.old) (S.desk steps.old).number }
    requires unused { IsUnused state.old }
    requires mode { GoesOn (wanted_of state.old).mode }
{
    let rows = [(1, 0), (3, 3)];
    begins(alloc, steps, state, &rows, &[12, 13, 16, 20, 20, 20, 20])?;
    goes_on(alloc, steps, state, &[], 0, true)
}

/// Both batches in one mode.
fn is_held_off(alloc: Global, mode: Mode) -> Result<(), Fail>
    requires { GoesOn (mode_of mode) }
{
    let mut desk = desk(alloc, &HELD_OFF)?;
    let mut state = scan(alloc, 2, mode)?;
    held_off(alloc, &mut desk, &mut state)?;
    ends_unmarked(alloc, desk, &[(1, 9), (2, 14), (0, 4)], 21)
}

#[test]
fn no_mark_comes_into_a_first_batch(rt: HostRuntime) -> Result<(), Fail> {
    is_held_off(rt.alloc(), Mode::Relaxed)
}

#[test]
fn nor_into_one_that_goes_on_strictly(rt: HostRuntime) -> Result<(), Fail> {
    is_held_off(rt.alloc(), Mode::Strict)
}

/// Desk 1 inserts 0011 at 1/1 and 0111 at 1/3, which name each other; the first batch takes six steps. Desk 2 inserts 0001 at 1/5 while
/// the next batch is made: 1/3 names it when its list is read, which is the eighth step.
const NEARER: [Before; 4] = [
    (
        1,
        1,
        &[
            ALONE,
            Move::Put(1, "0011", [0, 0]),
            Move::Enter(1),
            Move::Put(2, "0111", [1, 0]),
            Move::Link(1, 0, 3),
            GIVE,
        ],
    ),
    (7, 2, &[SHARED]),
    (
        8,
        2,
        &[
            Move::Put(3, "0001", [1, 3]),
            Move::Link(1, 1, 5),
            Move::Link(3, 1, 5),
        ],
    ),
    (9, 2, &[GIVE]),
];

/// The first batch has row 1 at 2. The second one reads the list of 1/3, then 1/5 and its list, and takes 1/5, whose row is answered or
/// not. The third reads 1/3 again, whose row 2 is at 3. The fourth is the last.
fn goes_on_nearer<S: Steps>(
    alloc: Global,
    steps: &mut S,
    state: &mut ScanState,
    second: &[(u16, u32)],
) -> Result<(), Fail>
    requires gates { HoldsNone (S.seen steps.old) (S.desk steps.old).number }
    requires unused { IsUnused state.old }
    requires mode { GoesOn (wanted_of state.old).mode }
{
    begins(alloc, steps, state, &[(1, 2)], &[7, 7, 7, 7])?;
    goes_on(alloc, steps, state, second, 3, false)?;
    goes_on(alloc, steps, state, &[(2, 3)], 1, false)?;
    goes_on(alloc, steps, state, &[], 0, true)
}

/// All four batches in one mode, of which the second has these rows.
fn has_nearer(alloc: Global, mode: Mode, second: &[(u16, u32)]) -> Result<(), Fail>
    requires { GoesOn (mode_of mode) }
{
    let mut desk = desk(alloc, &NEARER)?;
    let mut state = scan(alloc, 1, mode)?;
    goes_on_nearer(alloc, &mut desk, &mut state, second)?;
    ends(alloc, desk, &[(1, 6), (2, 5), (0, 8)])
}

/// In mode Relaxed the nearer row is answered, at 1.
#[test]
fn a_nearer_row_comes_later(rt: HostRuntime) -> Result<(), Fail> {
    has_nearer(rt.alloc(), Mode::Relaxed, &[(3, 1)])
}

/// In mode Strict it is left out, since row 1 at 2 was answered before.
#[test]
fn what_is_nearer_is_left_out(rt: HostRuntime) -> Result<(), Fail> {
    has_nearer(rt.alloc(), Mode::Strict, &[])
}

/// A vacuum of desk 2 through three batches. Row 2 is taken away when 1/3 has been found, before the sixth step; the gates come before
/// the seventh, at which the gate of scans can't be taken yet, and before the eighth, which begins the second batch. 1/3 is marked before
/// its list is looked at, and the vacuum ends before it is looked at again. Desk 3 then inserts 0001 at that place.
const USED_ANEW: [Before; 9] = [
    (1, 1, &THREE),
    (2, 2, &[VACUUM, Move::Begin(Stage::Remove)]),
    (6, 2, &[Move::Drop(3, 1)]),
    (7, 2, &[ALONE, GIVE, Move::Begin(Stage::Repair)]),
    (7, 2, &MARKS),
    (8, 2, &AROUND),
    (8, 2, &[SCANS, GIVE_SCANS, Move::Begin(Stage::Mark)]),
    (9, 2, &[Move::Mark(3, 1)]),
    (10, 2, &[Move::End, GIVE_VACUUM]),
];

/// The insert of desk 3, which links back.
const ANEW: [Move; 5] = [
    SHARED,
    Move::Put(9, "0001", [1, 5]),
    Move::Link(1, 1, 3),
    Move::Link(5, 1, 3),
    GIVE,
];

/// The first batch has row 1 at 0. The second one takes 1/3, which is gone: no row, and not the last. The third takes 1/5, whose list
/// names 1/3, which is not read a second time; its row 3 is at 3. The fourth is the last.
fn goes_on_anew<S: Steps>(
    alloc: Global,
    steps: &mut S,
    state: &mut ScanState,
    reads: &[u64],
) -> Result<(), Fail>
    requires gates { HoldsNone (S.seen steps.old) (S.desk steps.old).number }
    requires unused { IsUnused state.old }
    requires mode { GoesOn (wanted_of state.old).mode }
{
    begins(alloc, steps, state, &[(1, 0)], reads)?;
    goes_on(alloc, steps, state, &[], 2, false)?;
    goes_on(alloc, steps, state, &[(3, 3)], 2, false)?;
    goes_on(alloc, steps, state, &[], 0, true)
}

/// All four batches in one mode.
fn is_used_anew(alloc: Global, mode: Mode) -> Result<(), Fail>
    requires { GoesOn (mode_of mode) }
{
    let mut groups = groups_of(alloc, &USED_ANEW)?;
    add_before(alloc, &mut groups, &(11, 3, &ANEW))?;
    let mut desk = desk_with(alloc, groups)?;
    let mut state = scan(alloc, 1, mode)?;
    goes_on_anew(alloc, &mut desk, &mut state, &[12, 12, 12, 12, 13])?;
    ends_unmarked(alloc, desk, &[(1, 9), (2, 16), (3, 5), (0, 8)], 17)
}

/// The place 1/3 is used anew between two batches, in mode Relaxed.
#[test]
fn a_place_is_used_anew(rt: HostRuntime) -> Result<(), Fail> {
    is_used_anew(rt.alloc(), Mode::Relaxed)
}

/// The same in mode Strict, since no row is nearer than the one before.
#[test]
fn a_place_is_used_anew_in_order(rt: HostRuntime) -> Result<(), Fail> {
    is_used_anew(rt.alloc(), Mode::Strict)
}

/// A vacuum of desk 2 that takes away 1/3, of this version.
fn removal(version: u8) -> [Move; 16] {
    [
        VACUUM,
        Move::Begin(Stage::Remove),
        Move::Drop(3, version),
        ALONE,
        GIVE,
        Move::Begin(Stage::Repair),
        SHARED,
        Move::Relist(1, [5, 0]),
        Move::Relist(5, [1, 0]),
        GIVE,
        SCANS,
        GIVE_SCANS,
        Move::Begin(Stage::Mark),
        Move::Mark(3, version),
        Move::End,
        GIVE_VACUUM,
    ]
}

/// Fifteen times desk 2 takes away 1/3, and desk 3 inserts at that place.
fn add_rounds(alloc: Global, group: &mut Vec<(u32, Ask)>) -> Result<(), Fail> {
    for version in 1..16u8 {
        add(alloc, group, 2, &removal(version))?;
        add(alloc, group, 3, &ANEW)?;
    }
    Ok(())
}

/// Three nodes, and then, before the eighth step, those fifteen rounds.
fn with_rounds(alloc: Global) -> Result<Groups, Fail> {
    let mut groups = groups_of(alloc, &[(1, 1, &THREE), (8, 1, &[])])?;
    let Some(group) = groups.last_mut() else {
        return Err(Fail::new("eight groups"));
    };
    add_rounds(alloc, group)?;
    Ok(groups)
}

/// The last node that was put has this version.
fn is_last_put(acts: &[Act], wanted: u8) -> bool {
    let mut last = 0;
    for act in acts {
        if let Event::Put { version, .. } = act.event {
            last = version;
        }
    }
    last == wanted
}

/// The acts are legal, each of these desks made so many, and the last node put has this version.
fn ends_with_version(
    alloc: Global,
    desk: Meddled<MemDisks>,
    wanted: &[(u32, usize)],
    version: u8,
) -> Result<(), Fail> {
    let board = desk.into_board();
    if !is_last_put(board.acts(), version) {
        return Err(Fail::new("another version"));
    }
    are_counted(board.acts(), wanted)?;
    are_legal(alloc, board.acts())
}

/// The place 1/3 is removed and used again fifteen times between the first batch and the next: its version is 16, and what was found there
/// is gone all the same.
#[test]
fn a_place_is_used_anew_fifteen_times(rt: HostRuntime) -> Result<(), Fail> {
    let alloc = rt.alloc();
    let mut desk = desk_with(alloc, with_rounds(alloc)?)?;
    let mut state = scan(alloc, 1, Mode::Relaxed)?;
    goes_on_anew(alloc, &mut desk, &mut state, &[10, 10, 10, 10, 10])?;
    ends_with_version(alloc, desk, &[(1, 9), (2, 240), (3, 75), (0, 8)], 16)
}

/// A vacuum of desk 2 of row 2, at 1/3. Desk 3 holds Update before, and puts on the new block 2, after the Drop, a node that names 1/3: so
/// the vacuum waits. It repairs 1/1 and 1/5 first; while 2/1 still names 1/3 it may not begin to mark. Then it repairs that node too.
const ON_A_NEW_BLOCK: [Before; 9] = [
    (1, 1, &THREE),
    (1, 3, &[SHARED]),
    (
        1,
        2,
        &[VACUUM, Move::Begin(Stage::Remove), Move::Drop(3, 1)],
    ),
    (1, 2, &[ALONE, GIVE, Move::Begin(Stage::Repair)]),
    (1, 3, &[Move::PutNew(4, "0010", [3, 0]), GIVE]),
    (1, 2, &[ALONE, GIVE, Move::Begin(Stage::Repair)]),
    (
        1,
        2,
        &[
            SHARED,
            Move::Relist(1, [5, 101]),
            Move::Relist(5, [1, 0]),
            GIVE,
        ],
    ),
    (1, 2, &MARKS),
    (1, 2, &[SHARED, Move::Relist(101, [1, 0]), GIVE]),
];

/// The last pass of that vacuum, and its end.
const MARK_AND_END: [Move; 6] = [
    SCANS,
    GIVE_SCANS,
    Move::Begin(Stage::Mark),
    Move::Mark(3, 1),
    Move::End,
    GIVE_VACUUM,
];

/// A first batch over what that vacuum left meets no node that is gone: it looks at the meta tuple, at 1/1 and its list, at 1/5 and 2/1,
/// and at the lists of 2/1 and 1/5, and has the rows 1, 4 and 3 at 0, 1 and 3.
#[test]
fn a_node_on_a_new_block_is_repaired(rt: HostRuntime) -> Result<(), Fail> {
    let alloc = rt.alloc();
    let mut groups = groups_of(alloc, &ON_A_NEW_BLOCK)?;
    add_before(alloc, &mut groups, &(1, 2, &MARK_AND_END))?;
    let mut desk = desk_with(alloc, groups)?;
    let mut state = scan(alloc, 4, Mode::Off)?;
    let rows = [(1, 0), (4, 1), (3, 3)];
    begins(
        alloc,
        &mut desk,
        &mut state,
        &rows,
        &[34, 34, 34, 34, 34, 34, 34],
    )?;
    ends(alloc, desk, &[(1, 9), (2, 21), (3, 3), (0, 2)])
}
