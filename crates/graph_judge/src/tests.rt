use crate::{AuditFault, audit_hnsw};
use bit_code::read_bits;
use std::alloc::{AllocError, Global};
use std::test::*;
use vec_graph::Graph;
use vec_history::{Act, Event, Gate, Hold, Stage};
use vec_names::{HeapId, Kind, Listed, Mapped, Ops, Params, Tid};

/// An index that has no node, whose values have 4 places.
fn empty(alloc: Global, m: u16) -> Graph {
    Graph {
        params: Params {
            kind: Kind::Hnsw,
            ops: Ops::Hamming,
            bits: 4,
            m,
            ef: 4,
            lists: 0,
        },
        nodes: Mapped::new(alloc),
        entry: None,
        level: 0,
        hint: 1,
        blocks: 1,
    }
}

// ---- events in few words

/// An event on block 1. A node is named by the offset of its element; its list stands at the next one.
#[derive(Clone, Copy)]
enum Deed {
    Take(Gate, Hold),
    Give(Gate),
    Begin(Stage),
    End,
    Cancel(Stage),
    Settle(u64),
    Fault(u64),
    /// A node of level 0 with four slots: its version, its value, and its first two neighbours.
    Put(u16, u8, &'static str, Option<u16>, Option<u16>),
    /// A node with this level and so many slots, two of which name a node: a number each, and the place.
    PutOf(u16, u8, u8, usize, [usize; 2], Option<u16>),
    Join(u16),
    /// The offsets of the element and of its list, the slot, and what it comes to name.
    Link(u16, u16, u16, u16),
    /// The version, how many slots, and what the first one names.
    Relist(u16, u8, usize, u16),
    Drop(u16, u16),
    Mark(u16),
    Enter(Option<u16>, u8),
    Hint(u32),
    Aim,
}

fn place(off: u16) -> Result<Tid, Fail> {
    Ok(Tid::new(1, off).ok_or("an offset is from 1")?)
}

fn place_if(off: Option<u16>) -> Result<Option<Tid>, Fail> {
    match off {
        Some(off) => Ok(Some(place(off)?)),
        None => Ok(None),
    }
}

/// So many slots, of which these two name a place.
fn slots(
    alloc: Global,
    count: usize,
    at: [usize; 2],
    to: Option<Tid>,
) -> Result<Listed<Option<Tid>>, AllocError> {
    let mut slots = Listed::new(alloc);
    for slot in 0..count {
        let named = if slot == at[0] || slot == at[1] {
            to
        } else {
            None
        };
        slots.push(named)?;
    }
    Ok(slots)
}

fn put(
    alloc: Global,
    off: u16,
    version: u8,
    level: u8,
    text: &str,
    lists: Listed<Option<Tid>>,
) -> Result<Event, Fail> {
    Ok(Event::Put {
        at: place(off)?,
        list_at: place(off.saturating_add(1))?,
        version,
        level,
        id: HeapId { block: 1, off: 1 },
        bits: read_bits(alloc, text)?,
        lists,
    })
}

fn put_of_level_0(
    alloc: Global,
    off: u16,
    version: u8,
    text: &str,
    first: Option<u16>,
    second: Option<u16>,
) -> Result<Event, Fail> {
    let mut lists = Listed::new(alloc);
    lists.extend_from_slice(&[place_if(first)?, place_if(second)?, None, None])?;
    put(alloc, off, version, 0, text, lists)
}

fn relist(alloc: Global, off: u16, version: u8, count: usize, to: u16) -> Result<Event, Fail> {
    Ok(Event::Relist {
        at: place(off)?,
        list_at: place(off.saturating_add(1))?,
        version,
        lists: slots(alloc, count, [0, 0], Some(place(to)?))?,
    })
}

/// The event of a node, or of the index.
fn change_of(alloc: Global, deed: Deed) -> Result<Event, Fail> {
    match deed {
        Deed::Put(off, version, text, first, second) => {
            put_of_level_0(alloc, off, version, text, first, second)
        }
        Deed::PutOf(off, version, level, count, at, to) => {
            let lists = slots(alloc, count, at, place_if(to)?)?;
            put(alloc, off, version, level, "0011", lists)
        }
        Deed::Join(off) => Ok(Event::Join {
            at: place(off)?,
            version: 1,
            id: HeapId { block: 2, off: 1 },
        }),
        Deed::Link(off, list_off, slot, to) => Ok(Event::Link {
            at: place(off)?,
            list_at: place(list_off)?,
            version: 1,
            slot,
            to: place(to)?,
        }),
        Deed::Relist(off, version, count, to) => relist(alloc, off, version, count, to),
        Deed::Drop(off, gone) => Ok(Event::Drop {
            at: place(off)?,
            version: 1,
            gone,
        }),
        Deed::Mark(off) => Ok(Event::Mark {
            at: place(off)?,
            list_at: place(off.saturating_add(1))?,
            version: 1,
        }),
        Deed::Enter(to, level) => Ok(Event::Entry {
            to: place_if(to)?,
            level,
        }),
        Deed::Hint(block) => Ok(Event::Hint { block }),
        _ => Ok(Event::IvfHint { list: 0, block: 1 }),
    }
}

fn event_of(alloc: Global, deed: Deed) -> Result<Event, Fail> {
    match deed {
        Deed::Take(gate, hold) => Ok(Event::Gate { gate, hold }),
        Deed::Give(gate) => Ok(Event::Ungate { gate }),
        Deed::Begin(stage) => Ok(Event::Phase { stage }),
        Deed::End => Ok(Event::VacuumEnd),
        Deed::Cancel(stage) => Ok(Event::Cancel { stage }),
        Deed::Settle(upto) => Ok(Event::Settled { upto }),
        Deed::Fault(count) => Ok(Event::DiskFaulted { count }),
        _ => change_of(alloc, deed),
    }
}

/// The number of the first act that is not legal: these of desk 1, and then perhaps one more of a desk.
fn first_illegal(
    alloc: Global,
    m: u16,
    deeds: &[Deed],
    last: Option<(u32, Deed)>,
) -> Result<Option<u64>, Fail> {
    let mut acts = Vec::new(alloc);
    for deed in deeds {
        let event = event_of(alloc, *deed)?;
        acts.push(Act { desk: 1, event })?;
    }
    if let Some((desk, deed)) = last {
        let event = event_of(alloc, deed)?;
        acts.push(Act { desk, event })?;
    }
    match audit_hnsw(alloc, &empty(alloc, m), acts.as_slice()) {
        Ok(()) => Ok(None),
        Err(AuditFault::Illegal { at }) => Ok(Some(at)),
        Err(AuditFault::Memory) => Ok(Some(u64::MAX)),
    }
}

// ---- the history of three nodes

const SHARED: Deed = Deed::Take(Gate::Update, Hold::Shared);

const ALONE: Deed = Deed::Take(Gate::Update, Hold::Alone);

const GIVEN: Deed = Deed::Give(Gate::Update);

const VACUUM: Deed = Deed::Take(Gate::Vacuum, Hold::Alone);

const SCAN: Deed = Deed::Take(Gate::Scan, Hold::Alone);

const SCANNED: Deed = Deed::Give(Gate::Scan);

/// Deeds 0 to 12 are three inserts, and 13 settles their seven lasting events. Deeds 14 to 32 are a vacuum after which no
/// row is left. Deeds 33 to 37 put a node at the place of the first one, and settle all sixteen lasting events.
const THREE_NODES: [Deed; 38] = [
    ALONE,
    Deed::Put(1, 1, "0000", None, None),
    Deed::Enter(Some(1), 0),
    GIVEN,
    SHARED,
    Deed::Put(3, 1, "0011", Some(1), None),
    Deed::Link(1, 2, 0, 3),
    GIVEN,
    SHARED,
    Deed::Put(5, 1, "0111", Some(3), Some(1)),
    Deed::Link(3, 4, 1, 5),
    Deed::Link(1, 2, 1, 5),
    GIVEN,
    Deed::Settle(7),
    VACUUM,
    Deed::Begin(Stage::Remove),
    Deed::Drop(1, 1),
    Deed::Drop(3, 1),
    Deed::Drop(5, 1),
    ALONE,
    GIVEN,
    Deed::Begin(Stage::Repair),
    ALONE,
    Deed::Enter(None, 0),
    GIVEN,
    SCAN,
    SCANNED,
    Deed::Begin(Stage::Mark),
    Deed::Mark(1),
    Deed::Mark(3),
    Deed::Mark(5),
    Deed::End,
    Deed::Give(Gate::Vacuum),
    ALONE,
    Deed::Put(1, 2, "1111", None, None),
    Deed::Enter(Some(1), 0),
    GIVEN,
    Deed::Settle(16),
];

/// What the judge finds in the first deeds of that history and one more.
fn illegal_after(alloc: Global, first: usize, desk: u32, deed: Deed) -> Result<Option<u64>, Fail> {
    let deeds = &THREE_NODES[..first.min(THREE_NODES.len())];
    first_illegal(alloc, 2, deeds, Some((desk, deed)))
}

#[test]
fn three_nodes_and_their_vacuum_are_legal(rt: HostRuntime) -> Result<(), Fail> {
    assert_eq!(rt; first_illegal(rt.alloc(), 2, &THREE_NODES, None)?, None);
    Ok(())
}

/// The first deeds of the history, and the one of a desk that no rule allows after them.
const REFUSED: [(usize, u32, Deed); 44] = [
    // Beside a hold that stands alone; a second hold of the same desk; alone beside a shared one.
    (1, 2, SHARED),
    (5, 1, SHARED),
    (5, 2, ALONE),
    // What is not held, and the vacuum's own gate in a phase.
    (4, 1, GIVEN),
    (16, 1, Deed::Give(Gate::Vacuum)),
    // A phase without the gate; before its barrier; before that is given back; of another desk; without the barrier of Scan.
    (14, 1, Deed::Begin(Stage::Remove)),
    (19, 1, Deed::Begin(Stage::Repair)),
    (20, 1, Deed::Begin(Stage::Repair)),
    (21, 2, Deed::Begin(Stage::Repair)),
    (25, 1, Deed::Begin(Stage::Mark)),
    (26, 1, Deed::Begin(Stage::Mark)),
    // The end while a node is doomed; a break-off where the end is allowed.
    (30, 1, Deed::End),
    (31, 1, Deed::Cancel(Stage::Mark)),
    (31, 1, Deed::Cancel(Stage::Repair)),
    // More than there are is settled, and fewer than before.
    (14, 1, Deed::Settle(8)),
    (14, 1, Deed::Settle(6)),
    // A new node without the gate, at another offset, with another version, with 3 places, beside a node that is not there,
    // and on a deleted place of another level, with the slots of that level.
    (4, 1, Deed::Put(3, 1, "0011", None, None)),
    (5, 1, Deed::Put(4, 1, "0011", None, None)),
    (5, 1, Deed::Put(3, 2, "0011", None, None)),
    (5, 1, Deed::Put(3, 1, "001", None, None)),
    (5, 1, Deed::Put(3, 1, "0011", Some(9), None)),
    (34, 1, Deed::PutOf(1, 2, 1, 6, [0, 0], None)),
    // With the slots of another level.
    (5, 1, Deed::PutOf(3, 1, 1, 4, [0, 0], None)),
    (5, 1, Deed::PutOf(3, 1, 0, 6, [0, 0], None)),
    // An id for a node that has none.
    (23, 1, Deed::Join(1)),
    // A neighbour that is not there, a slot past the last, and another list.
    (6, 1, Deed::Link(1, 2, 0, 9)),
    (6, 1, Deed::Link(1, 2, 4, 3)),
    (6, 1, Deed::Link(1, 4, 0, 3)),
    // A list that names what is not there; of another version; with fewer slots; and without the gate.
    (10, 1, Deed::Relist(5, 1, 4, 9)),
    (10, 1, Deed::Relist(5, 2, 4, 1)),
    (10, 1, Deed::Relist(5, 1, 3, 1)),
    (13, 1, Deed::Relist(5, 1, 4, 1)),
    // No ids, an id past the last one, and outside of the phase.
    (16, 1, Deed::Drop(1, 0)),
    (16, 1, Deed::Drop(1, 2)),
    (15, 1, Deed::Drop(1, 1)),
    // Before the phase, and a node that is deleted.
    (27, 1, Deed::Mark(1)),
    (29, 1, Deed::Mark(1)),
    // No entry point while a node is live; one of another level; a place that holds none.
    (2, 1, Deed::Enter(None, 0)),
    (2, 1, Deed::Enter(Some(1), 1)),
    (2, 1, Deed::Enter(Some(3), 0)),
    // A hint without a gate, past the last block, and of the block of the parameters; a change of an index of lists.
    (4, 1, Deed::Hint(1)),
    (5, 1, Deed::Hint(3)),
    (5, 1, Deed::Hint(0)),
    (5, 1, Deed::Aim),
];

#[test]
fn deeds_that_are_refused(rt: HostRuntime) -> Result<(), Fail> {
    for (first, desk, deed) in REFUSED {
        assert_eq!(rt;
            illegal_after(rt.alloc(), first, desk, deed)?,
            Some(first as u64)
        );
    }
    Ok(())
}

const ALLOWED: [(usize, u32, Deed); 7] = [
    (5, 2, SHARED),
    (5, 1, Deed::Join(1)),
    (5, 1, Deed::Hint(2)),
    (10, 1, Deed::Relist(5, 1, 4, 1)),
    // A vacuum may break off in any phase, and in the last one while a node is doomed.
    (16, 1, Deed::Cancel(Stage::Remove)),
    (30, 1, Deed::Cancel(Stage::Mark)),
    (14, 1, Deed::Fault(1)),
];

#[test]
fn deeds_that_are_allowed(rt: HostRuntime) -> Result<(), Fail> {
    for (first, desk, deed) in ALLOWED {
        assert_eq!(rt; illegal_after(rt.alloc(), first, desk, deed)?, None);
    }
    Ok(())
}

// ---- vacuums after the three inserts

/// The row of the first node goes. The others come to name each other, and the second node becomes the entry point.
const WHOLE: [Deed; 14] = [
    VACUUM,
    Deed::Begin(Stage::Remove),
    Deed::Drop(1, 1),
    ALONE,
    GIVEN,
    Deed::Begin(Stage::Repair),
    SHARED,
    Deed::Enter(Some(3), 0),
    Deed::Relist(3, 1, 4, 5),
    Deed::Relist(5, 1, 4, 3),
    GIVEN,
    SCAN,
    SCANNED,
    Deed::Begin(Stage::Mark),
];

/// What is told of the vacuum with the deed of this number another one.
fn with_another(alloc: Global, number: usize, other: Deed) -> Result<Option<u64>, Fail> {
    let mut deeds = Vec::new(alloc);
    for deed in &THREE_NODES[..14] {
        deeds.push(*deed)?;
    }
    for (at, deed) in WHOLE.iter().enumerate() {
        deeds.push(if at == number { other } else { *deed })?;
    }
    first_illegal(alloc, 2, deeds.as_slice(), None)
}

/// A deed that changes nothing that a vacuum looks at.
const IDLE: Deed = Deed::Settle(7);

const SPOILT: [(usize, Deed, u64); 4] = [
    // The barrier of Update is a shared hold.
    (3, SHARED, 19),
    // The entry point stays the node that is doomed.
    (7, IDLE, 27),
    // A live node goes on naming it, in its layer 0.
    (9, IDLE, 27),
    // The barrier of Scan is none.
    (11, Deed::Take(Gate::Scan, Hold::Shared), 27),
];

#[test]
fn marking_begins_where_all_is_clean(rt: HostRuntime) -> Result<(), Fail> {
    assert_eq!(rt; with_another(rt.alloc(), 14, IDLE)?, None);
    for (number, other, at) in SPOILT {
        assert_eq!(rt; with_another(rt.alloc(), number, other)?, Some(at));
    }
    Ok(())
}

/// Removing with a Drop behind its barrier.
const LATE_DROP: [Deed; 7] = [
    VACUUM,
    Deed::Begin(Stage::Remove),
    Deed::Drop(1, 1),
    ALONE,
    GIVEN,
    Deed::Drop(3, 1),
    Deed::Begin(Stage::Repair),
];

/// A barrier of Scan before repairing begins, and none after it.
const EARLY_SCAN: [Deed; 14] = [
    VACUUM,
    Deed::Begin(Stage::Remove),
    Deed::Drop(1, 1),
    ALONE,
    GIVEN,
    SCAN,
    SCANNED,
    Deed::Begin(Stage::Repair),
    SHARED,
    Deed::Enter(Some(3), 0),
    Deed::Relist(3, 1, 4, 5),
    Deed::Relist(5, 1, 4, 3),
    GIVEN,
    Deed::Begin(Stage::Mark),
];

/// The first node was known under an earlier hold alone: it is doomed since.
const KNOWN_BEFORE: [Deed; 5] = [
    VACUUM,
    Deed::Begin(Stage::Remove),
    Deed::Drop(1, 1),
    SHARED,
    Deed::Link(3, 4, 2, 1),
];

fn after_three(alloc: Global, more: &[Deed]) -> Result<Option<u64>, Fail> {
    let mut deeds = Vec::new(alloc);
    for deed in &THREE_NODES[..14] {
        deeds.push(*deed)?;
    }
    for deed in more {
        deeds.push(*deed)?;
    }
    first_illegal(alloc, 2, deeds.as_slice(), None)
}

#[test]
fn what_comes_out_of_turn(rt: HostRuntime) -> Result<(), Fail> {
    assert_eq!(rt; after_three(rt.alloc(), &LATE_DROP)?, Some(20));
    assert_eq!(rt; after_three(rt.alloc(), &EARLY_SCAN)?, Some(27));
    assert_eq!(rt; after_three(rt.alloc(), &KNOWN_BEFORE)?, Some(18));
    assert_eq!(rt;
        after_three(rt.alloc(), &[SHARED, Deed::Link(3, 4, 2, 1)])?,
        None
    );
    Ok(())
}

// ---- two levels

/// With m 3 a node of level 2, which has twelve slots, and one of level 1 that names it in both its layers.
const TWO_LEVELS: [Deed; 4] = [
    ALONE,
    Deed::PutOf(1, 1, 2, 12, [0, 0], None),
    Deed::Enter(Some(1), 2),
    Deed::PutOf(3, 1, 1, 9, [0, 3], Some(1)),
];

// Of the twelve slots the first three are layer 2's, and the next three layer 1's.
#[test]
fn a_link_stays_within_the_level(rt: HostRuntime) -> Result<(), Fail> {
    for slot in [0, 2, 12] {
        let link = Some((1, Deed::Link(1, 2, slot, 3)));
        assert_eq!(rt; first_illegal(rt.alloc(), 3, &TWO_LEVELS, link)?, Some(4));
    }
    for slot in [3, 5, 6, 11] {
        let link = Some((1, Deed::Link(1, 2, slot, 3)));
        assert_eq!(rt; first_illegal(rt.alloc(), 3, &TWO_LEVELS, link)?, None);
    }
    Ok(())
}

#[test]
fn each_fault_of_the_disks_is_a_further_one(rt: HostRuntime) -> Result<(), Fail> {
    let faults = [Deed::Fault(1), Deed::Fault(2), Deed::Fault(2)];
    assert_eq!(rt; first_illegal(rt.alloc(), 2, &faults, None)?, Some(2));
    Ok(())
}
