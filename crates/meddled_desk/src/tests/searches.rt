//! Searches beside others: the query is 0001, and what they find is what they read.

ghost use Rattle.std.specs.Prelude.{◌≡◌, ◌≤◌, length};
ghost use Rattle.vec_names.specs.Params.{IsInRange};
ghost use Rattle.layer_search.specs.Waiting.{AreApart, AreLong};

use super::*;
use layer_search::{descend, search_layer};
use neighbour_pick::Found;
use vec_steps::{Steps, Trace};

fn are(found: &[Found], wanted: &[(u16, u32)]) -> bool {
    for (element, (off, num)) in found.iter().zip(wanted) {
        if element.at != tid(*off) || element.dist.num != *num {
            return false;
        }
    }
    found.len() == wanted.len()
}

/// A search of the lowest layer for four elements, from these on, finds those of these offsets at these distances.
fn search_finds<S: Steps>(
    alloc: Global,
    steps: &mut S,
    query: &Bits,
    from: &[Found],
    wanted: &[(u16, u32)],
    trace: &mut Trace,
) -> Result<bool, Fail>
    requires params { IsInRange (S.desk steps.old).params }
    requires query { length query.now ≡ (S.desk steps.old).params.bits }
    requires apart { AreApart from.now }
    requires long { AreLong (S.desk steps.old).params.bits from.now }
{
    let found = search_layer(alloc, steps, query, from, 4, 0, trace)?;
    Ok(are(found.as_slice(), wanted))
}

/// The descent, and then that search.
fn both_find<S: Steps>(
    alloc: Global,
    steps: &mut S,
    query: &Bits,
    wanted: &[(u16, u32)],
    trace: &mut Trace,
) -> Result<bool, Fail>
    requires params { IsInRange (S.desk steps.old).params }
    requires query { length query.now ≡ (S.desk steps.old).params.bits }
{
    let descent = descend(alloc, steps, query, 0, trace)?;
    search_finds(alloc, steps, query, descent.from.as_slice(), wanted, trace)
}

/// A descent and a search of the lowest layer find these, by looks at these positions.
fn find<S: Steps>(
    alloc: Global,
    steps: &mut S,
    wanted: &[(u16, u32)],
    reads: &[u64],
) -> Result<(), Fail> {
    let params = steps.params();
    let query = read_bits(alloc, "0001")?;
    if !params.check() || query.count() != params.bits {
        return Err(Fail::new("values of four places"));
    }
    let mut trace = Trace {
        reads: Listed::new(alloc),
    };
    if !both_find(alloc, steps, &query, wanted, &mut trace)? {
        return Err(Fail::new("other elements"));
    }
    if trace.reads.as_slice() != reads {
        return Err(Fail::new("other looks"));
    }
    Ok(())
}

/// Desk 2 puts 0001 at 1/7 before the second step. 1/1 comes to name it after its list was read; 1/3 comes to name it before its own is,
/// which is the sixth step: so it is found. The looks are at the meta tuple and 1/1, at the list of 1/1, at 1/3 and 1/5, at the list of
/// 1/3, at 1/7, and at the lists of 1/7 and 1/5.
#[test]
fn a_link_is_read_where_it_stands(rt: HostRuntime) -> Result<(), Fail> {
    let alloc = rt.alloc();
    let mut desk = desk(
        alloc,
        &[
            (1, 1, &THREE),
            (2, 2, &[SHARED, Move::Put(4, "0001", [1, 3])]),
            (4, 2, &[Move::Link(1, 2, 7)]),
            (6, 2, &[Move::Link(3, 2, 7), GIVE]),
        ],
    )?;
    let wanted = [(7, 0), (1, 1), (3, 1), (5, 2)];
    find(
        alloc,
        &mut desk,
        &wanted,
        &[9, 11, 11, 12, 12, 14, 14, 14, 14],
    )?;
    ends(alloc, desk, &[(1, 9), (2, 5), (0, 0)])
}

/// The same, but that 1/3 does not come to name it: no list that is read names 1/7, and it is not found.
#[test]
fn a_link_that_comes_later_is_not_read(rt: HostRuntime) -> Result<(), Fail> {
    let alloc = rt.alloc();
    let mut desk = desk(
        alloc,
        &[
            (1, 1, &THREE),
            (2, 2, &[SHARED, Move::Put(4, "0001", [1, 3])]),
            (4, 2, &[Move::Link(1, 2, 7)]),
            (6, 2, &[GIVE]),
        ],
    )?;
    let wanted = [(1, 1), (3, 1), (5, 2)];
    find(alloc, &mut desk, &wanted, &[9, 11, 11, 12, 12, 13, 13])?;
    ends(alloc, desk, &[(1, 9), (2, 4), (0, 0)])
}

/// 0000 at 1/1 names 0011 at 1/3, and that names 0111 at 1/5.
const CHAIN: [Move; 8] = [
    ALONE,
    Move::Put(1, "0000", [0, 0]),
    Move::Enter(1),
    Move::Put(2, "0011", [1, 0]),
    Move::Link(1, 0, 3),
    Move::Put(3, "0111", [3, 0]),
    Move::Link(3, 1, 5),
    GIVE,
];

/// Desk 2 takes the row of 1/3 away before the node is looked at: it is walked through to 1/5, and not found. The looks are at the meta
/// tuple and 1/1, at its list, at 1/3 and its list, and at 1/5 and its list.
#[test]
fn a_doomed_element_is_walked_through(rt: HostRuntime) -> Result<(), Fail> {
    let alloc = rt.alloc();
    let mut desk = desk(
        alloc,
        &[
            (1, 1, &CHAIN),
            (2, 2, &[VACUUM, Move::Begin(Stage::Remove)]),
            (4, 2, &[Move::Drop(3, 1)]),
        ],
    )?;
    let wanted = [(1, 1), (5, 2)];
    find(alloc, &mut desk, &wanted, &[8, 10, 10, 11, 11, 11, 11])?;
    ends(alloc, desk, &[(1, 8), (2, 3), (0, 0)])
}

/// A vacuum of desk 2 that takes away 1/5, which 1/1 and 1/3 name no more.
const WITHOUT_LAST: [Move; 16] = [
    VACUUM,
    Move::Begin(Stage::Remove),
    Move::Drop(5, 1),
    ALONE,
    GIVE,
    Move::Begin(Stage::Repair),
    SHARED,
    Move::Relist(1, [3, 0]),
    Move::Relist(3, [1, 0]),
    GIVE,
    SCANS,
    GIVE_SCANS,
    Move::Begin(Stage::Mark),
    Move::Mark(5, 1),
    Move::End,
    GIVE_VACUUM,
];

/// The whole vacuum comes between the look at the list of 1/1, which names 1/5, and the look at 1/5: that is gone, and does not count.
/// The looks are at the meta tuple and 1/1, at its list, at 1/3 and 1/5, and at the list of 1/3.
#[test]
fn what_is_gone_does_not_count(rt: HostRuntime) -> Result<(), Fail> {
    let alloc = rt.alloc();
    let mut desk = desk(alloc, &[(1, 1, &THREE), (4, 2, &WITHOUT_LAST)])?;
    let wanted = [(1, 1), (3, 1)];
    find(alloc, &mut desk, &wanted, &[9, 9, 9, 25, 25, 25])?;
    ends(alloc, desk, &[(1, 9), (2, 16), (0, 0)])
}

/// And then desk 3 puts 1111 at that place: a look without a version reads the new node, at the distance 3. It names 1/3 and 1/1.
#[test]
fn a_place_used_anew_is_read_anew(rt: HostRuntime) -> Result<(), Fail> {
    let alloc = rt.alloc();
    let mut desk = desk(
        alloc,
        &[
            (1, 1, &THREE),
            (4, 2, &WITHOUT_LAST),
            (4, 3, &[SHARED, Move::Put(9, "1111", [3, 1]), GIVE]),
        ],
    )?;
    let wanted = [(1, 1), (3, 1), (5, 3)];
    find(alloc, &mut desk, &wanted, &[9, 9, 9, 28, 28, 28, 28])?;
    ends(alloc, desk, &[(1, 9), (2, 16), (3, 3), (0, 0)])
}

/// A vacuum of desk 2 that takes all three nodes away: there is no entry point any more.
const WITHOUT_ALL: [Move; 19] = [
    VACUUM,
    Move::Begin(Stage::Remove),
    Move::Drop(1, 1),
    Move::Drop(3, 1),
    Move::Drop(5, 1),
    ALONE,
    GIVE,
    Move::Begin(Stage::Repair),
    ALONE,
    Move::Enter(0),
    GIVE,
    SCANS,
    GIVE_SCANS,
    Move::Begin(Stage::Mark),
    Move::Mark(1, 1),
    Move::Mark(3, 1),
    Move::Mark(5, 1),
    Move::End,
    GIVE_VACUUM,
];

/// The entry point that the meta tuple told is gone when it is looked at: there is no level, and nothing to search from.
fn descends_nowhere<S: Steps>(alloc: Global, steps: &mut S, reads: &[u64]) -> Result<(), Fail> {
    let params = steps.params();
    let query = read_bits(alloc, "0001")?;
    if !params.check() || query.count() != params.bits {
        return Err(Fail::new("values of four places"));
    }
    let mut trace = Trace {
        reads: Listed::new(alloc),
    };
    let descent = descend(alloc, steps, &query, 0, &mut trace)?;
    if descent.top.is_some() || descent.from.len() != 0 || trace.reads.as_slice() != reads {
        return Err(Fail::new("an element, or other looks"));
    }
    Ok(())
}

#[test]
fn the_entry_point_is_gone(rt: HostRuntime) -> Result<(), Fail> {
    let alloc = rt.alloc();
    let mut desk = desk(alloc, &[(1, 1, &THREE), (2, 2, &WITHOUT_ALL)])?;
    descends_nowhere(alloc, &mut desk, &[9, 28])?;
    ends(alloc, desk, &[(1, 9), (2, 19), (0, 0)])
}
