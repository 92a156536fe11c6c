//! Inserts beside others.

ghost use Rattle.std.specs.Prelude.{◌≡◌};
ghost use Rattle.vec_history.specs.declared.gate.Gate.TheVariants.{Update};
ghost use Rattle.vec_history.specs.Gates.{Holds};

use super::*;
use hnsw_insert::insert;
use vec_names::Kind;
use vec_steps::Steps;

/// A row with this value, of level 0, comes to this place, as a row more of a node there or at a node of its own, by looks at these
/// positions.
fn comes_to<S: Steps>(
    alloc: Global,
    steps: &mut S,
    text: &str,
    wanted: (u16, bool),
    reads: &[u64],
) -> Result<(), Fail>
    requires free { Holds (S.seen steps.old) (S.desk steps.old).number Update → ⊥ }
{
    let params = steps.params();
    if !params.check() {
        return Err(Fail::new("parameters in range"));
    }
    let Kind::Hnsw = params.kind else {
        return Err(Fail::new("a graph"));
    };
    let bits = read_bits(alloc, text)?;
    let id = HeapId { block: 5, off: 1 };
    let done = insert(alloc, steps, id, &bits, u64::MAX)?;
    if done.at != tid(wanted.0) || done.joined != wanted.1 {
        return Err(Fail::new("another place"));
    }
    if done.trace.reads.as_slice() != reads {
        return Err(Fail::new("other looks"));
    }
    Ok(())
}

/// Desk 1 makes one act before each step: it takes Update alone, puts 0000 at 1/1 as the entry point, and gives the gate back. The row
/// waits for the gate, so that it finds the node, and comes to 1/3 behind four acts of desk 1. It looks at the meta tuple twice, at 1/1 and
/// its list, and after its Put at that list again.
#[test]
fn a_gate_is_waited_for(rt: HostRuntime) -> Result<(), Fail> {
    let alloc = rt.alloc();
    let mut desk = desk(
        alloc,
        &[
            (1, 1, &[ALONE]),
            (2, 1, &[Move::Put(1, "0000", [0, 0])]),
            (3, 1, &[Move::Enter(1)]),
            (4, 1, &[GIVE]),
        ],
    )?;
    comes_to(alloc, &mut desk, "0011", (3, false), &[5, 5, 5, 5, 6])?;
    ends(alloc, desk, &[(1, 4), (0, 4)])
}

/// Desk 1 removes, and holds Update alone when the groups end: it breaks off its vacuum, which is its fourth act, and gives Update back.
/// The row then finds no entry point, takes the gate alone, and looks at the meta tuple twice more.
#[test]
fn who_stands_in_the_way_ends_that(rt: HostRuntime) -> Result<(), Fail> {
    let alloc = rt.alloc();
    let mut desk = desk(
        alloc,
        &[(1, 1, &[VACUUM, Move::Begin(Stage::Remove), ALONE])],
    )?;
    comes_to(alloc, &mut desk, "0011", (1, false), &[6, 8, 8])?;
    ends(alloc, desk, &[(1, 5), (0, 6)])
}

/// Desk 2 puts 0111 at 1/3, to which 1/1 comes to link, between the steps of the row, which so comes to 1/5. The row looks at the meta
/// tuple twice, at 1/1 and its list, and at 1/3 and its list, which is nearer and so the first to be linked: each link takes a look at a
/// list and at its one member.
#[test]
fn an_insert_beside_an_insert(rt: HostRuntime) -> Result<(), Fail> {
    let alloc = rt.alloc();
    let mut desk = desk(
        alloc,
        &[
            (1, 1, &ONE),
            (2, 2, &[SHARED]),
            (3, 2, &[Move::Put(2, "0111", [1, 0])]),
            (4, 2, &[Move::Link(1, 0, 3)]),
            (5, 2, &[GIVE]),
        ],
    )?;
    let reads = [6, 7, 8, 9, 9, 9, 10, 10, 11, 11];
    comes_to(alloc, &mut desk, "0011", (5, false), &reads)?;
    ends(alloc, desk, &[(1, 4), (2, 4), (0, 5)])
}

/// A row is joined to 1/1 by desk 2, and then the row of the same value.
#[test]
fn two_rows_join_one_node(rt: HostRuntime) -> Result<(), Fail> {
    let alloc = rt.alloc();
    let mut desk = desk(
        alloc,
        &[
            (1, 1, &ONE),
            (2, 2, &[SHARED]),
            (3, 2, &[Move::Join(1)]),
            (4, 2, &[GIVE]),
        ],
    )?;
    comes_to(alloc, &mut desk, "0000", (1, true), &[6, 7, 8, 8])?;
    ends(alloc, desk, &[(1, 4), (2, 3), (0, 3)])
}

/// A vacuum of desk 3 takes the row of 1/1 away before the node is looked at, so that a row of its value opens a node of its own.
#[test]
fn a_row_is_removed_before_it_is_found(rt: HostRuntime) -> Result<(), Fail> {
    let alloc = rt.alloc();
    let mut desk = desk(
        alloc,
        &[
            (1, 1, &ONE),
            (2, 3, &[VACUUM]),
            (3, 3, &[Move::Begin(Stage::Remove), Move::Drop(1, 1)]),
        ],
    )?;
    comes_to(alloc, &mut desk, "0000", (3, false), &[6, 8, 8, 8])?;
    ends(alloc, desk, &[(3, 3), (0, 3)])
}

/// The row is taken away after the node was found, before the sixth step, which is to join it: that is not done, and the row of its
/// value opens a node of its own. The steps before are the gate, two looks at the meta tuple, the node, and its list.
#[test]
fn a_row_is_removed_before_it_is_joined(rt: HostRuntime) -> Result<(), Fail> {
    let alloc = rt.alloc();
    let mut desk = desk(
        alloc,
        &[
            (1, 1, &ONE),
            (2, 3, &[VACUUM, Move::Begin(Stage::Remove)]),
            (6, 3, &[Move::Drop(1, 1)]),
        ],
    )?;
    comes_to(alloc, &mut desk, "0000", (3, false), &[7, 7, 7, 7, 9])?;
    ends(alloc, desk, &[(3, 3), (0, 4)])
}

/// Asks that may not be asked are passed over: without the gate, of a gate that is not held, and of the desk's own number.
#[test]
fn what_may_not_be_asked_is_passed_over(rt: HostRuntime) -> Result<(), Fail> {
    let alloc = rt.alloc();
    let mut desk = desk(
        alloc,
        &[
            (1, 1, &ONE),
            (2, 2, &[Move::Join(1)]),
            (3, 2, &[GIVE]),
            (4, 0, &[SHARED]),
        ],
    )?;
    comes_to(alloc, &mut desk, "0011", (3, false), &[5, 5, 5, 5, 6])?;
    ends(alloc, desk, &[(1, 4), (2, 0), (0, 4)])
}

/// Desk 2 puts 0111 at 1/3. The list of 1/1 is empty when the row has read it to link back; before it links, in its ninth step, 1/1 comes
/// to name 1/3: the slot has changed. So it reads the list again, and 1/3, and takes the next slot.
#[test]
fn a_slot_changes_before_it_is_taken(rt: HostRuntime) -> Result<(), Fail> {
    let alloc = rt.alloc();
    let mut desk = desk(
        alloc,
        &[
            (1, 1, &ONE),
            (2, 2, &[SHARED]),
            (3, 2, &[Move::Put(2, "0111", [1, 0])]),
            (9, 2, &[Move::Link(1, 0, 3)]),
        ],
    )?;
    let reads = [6, 7, 7, 7, 8, 9, 9];
    comes_to(alloc, &mut desk, "0011", (5, false), &reads)?;
    ends(alloc, desk, &[(1, 4), (2, 3), (0, 4)])
}

/// The gates and the last pass of a vacuum that would mark 1/5.
const MARK_LAST: [Move; 5] = [
    ALONE,
    GIVE,
    Move::Begin(Stage::Repair),
    Move::Begin(Stage::Mark),
    Move::Mark(5, 1),
];

/// Desk 2 takes the row of 1/5 away before the second step. While the row of 0001 holds its gate the vacuum comes no further, so 1/5, of
/// which the row knows, is not marked. The row looks at the meta tuple twice, at 1/1 and its list, at 1/3 and 1/5, and at their lists; 1/1
/// and 1/3, each two members of which are looked at, come to name it in their third slots.
#[test]
fn no_mark_comes_into_an_insert(rt: HostRuntime) -> Result<(), Fail> {
    let alloc = rt.alloc();
    let mut desk = desk(
        alloc,
        &[
            (1, 1, &THREE),
            (
                2,
                2,
                &[VACUUM, Move::Begin(Stage::Remove), Move::Drop(5, 1)],
            ),
            (3, 2, &MARK_LAST),
            (7, 2, &MARK_LAST),
            (12, 2, &MARK_LAST),
            (17, 2, &MARK_LAST),
        ],
    )?;
    let reads = [13, 13, 13, 13, 13, 13, 13, 13, 14, 14, 14, 15, 15, 15];
    comes_to(alloc, &mut desk, "0001", (7, false), &reads)?;
    ends(alloc, desk, &[(1, 9), (2, 3), (0, 5)])
}
