use crate::may_ask;
use bit_code::read_bits;
use graph_judge::{Course, states_of};
use std::alloc::{AllocError, Global};
use std::test::*;
use vec_graph::Graph;
use vec_history::{Act, Event, Gate, Hold, Stage};
use vec_names::{HeapId, Kind, Listed, Mapped, Ops, Params, Tid};
use vec_steps::{Ask, NewNode};

/// An index that has no node, whose values have 4 places, with m 2.
fn empty(alloc: Global) -> Graph {
    Graph {
        params: Params {
            kind: Kind::Hnsw,
            ops: Ops::Hamming,
            bits: 4,
            m: 2,
            ef: 4,
            lists: 0,
        },
        nodes: Mapped::new(alloc),
        entry: None,
        level: 0,
        hint: 1,
        blocks: 1,
    }
}

fn place(off: u16) -> Tid {
    Tid {
        block: 1,
        off: off.max(1),
    }
}

/// So many slots, the first of which names this offset of block 1.
fn slots(
    alloc: Global,
    count: usize,
    first: Option<u16>,
) -> Result<Listed<Option<Tid>>, AllocError> {
    let mut slots = Listed::new(alloc);
    for slot in 0..count {
        let to = match first {
            Some(off) if slot == 0 => Some(place(off)),
            _ => None,
        };
        slots.push(to)?;
    }
    Ok(slots)
}

const ID: HeapId = HeapId { block: 2, off: 1 };

/// Desk 1 puts a node at 1/1, with its list at 1/2, which becomes the entry point. Desk 2 begins a vacuum, and desk 1 holds Update
/// again.
fn history(alloc: Global) -> Result<Vec<Act>, Fail> {
    let put = Event::Put {
        at: place(1),
        list_at: place(2),
        version: 1,
        level: 0,
        id: ID,
        bits: read_bits(alloc, "0101")?,
        lists: slots(alloc, 4, None)?,
    };
    let to = Some(place(1));
    let events = [
        (1, gate(Gate::Update, Hold::Alone)),
        (1, put),
        (1, Event::Entry { to, level: 0 }),
        (1, Event::Ungate { gate: Gate::Update }),
        (2, gate(Gate::Vacuum, Hold::Alone)),
        (
            2,
            Event::Phase {
                stage: Stage::Remove,
            },
        ),
        (1, gate(Gate::Update, Hold::Shared)),
    ];
    let mut acts = Vec::new(alloc);
    for (desk, event) in events {
        acts.push(Act { desk, event })?;
    }
    Ok(acts)
}

fn gate(gate: Gate, hold: Hold) -> Event {
    Event::Gate { gate, hold }
}

/// An ask of the node at 1/1, or of the index.
#[derive(Clone, Copy)]
enum Want {
    Meta,
    /// The offset of the list, and the layer.
    List(u16, u8),
    Page(u32),
    /// The block, and how many slots.
    Put(u32, usize),
    PutNew(usize),
    Join,
    /// The slot, and what it comes to name.
    Link(u16, u16),
    /// How many slots, and what the first one names.
    Relist(usize, u16),
    Drop(u16),
    Mark,
    Enter(Option<u16>, u8),
    Hint(u32),
    Take(Gate),
    Release(Gate),
    Begin(Stage),
    End,
    Centres,
}

fn node(alloc: Global, count: usize) -> Result<NewNode, Fail> {
    Ok(NewNode {
        level: 0,
        id: ID,
        bits: read_bits(alloc, "0011")?,
        lists: slots(alloc, count, Some(1))?,
    })
}

fn change_of(alloc: Global, want: Want) -> Result<Ask, Fail> {
    let at = place(1);
    let list_at = place(2);
    match want {
        Want::Put(block, count) => Ok(Ask::Put {
            block,
            node: node(alloc, count)?,
        }),
        Want::PutNew(count) => Ok(Ask::PutNew {
            node: node(alloc, count)?,
        }),
        Want::Join => Ok(Ask::Join {
            at,
            version: 1,
            id: ID,
        }),
        Want::Link(slot, to) => Ok(Ask::Link {
            at,
            list_at,
            level: 0,
            version: 1,
            layer: 0,
            slot,
            held: None,
            to: place(to),
        }),
        Want::Relist(count, to) => Ok(Ask::Relist {
            at,
            list_at,
            version: 1,
            lists: slots(alloc, count, Some(to))?,
        }),
        Want::Drop(gone) => Ok(Ask::Drop {
            at,
            version: 1,
            gone,
        }),
        Want::Mark => Ok(Ask::Mark {
            at,
            list_at,
            version: 1,
        }),
        _ => Ok(Ask::Spent),
    }
}

fn ask_of(alloc: Global, want: Want) -> Result<Ask, Fail> {
    match want {
        Want::Meta => Ok(Ask::Meta),
        Want::List(off, layer) => Ok(Ask::List {
            at: place(1),
            list_at: place(off),
            level: 0,
            version: 7,
            layer,
        }),
        Want::Page(block) => Ok(Ask::Page { block }),
        Want::Enter(to, level) => Ok(Ask::Entry {
            to: to.map(place),
            level,
        }),
        Want::Hint(block) => Ok(Ask::Hint { block }),
        Want::Take(gate) => Ok(Ask::Take {
            gate,
            hold: Hold::Shared,
        }),
        Want::Release(gate) => Ok(Ask::Release { gate }),
        Want::Begin(stage) => Ok(Ask::Phase { stage }),
        Want::End => Ok(Ask::EndVacuum),
        Want::Centres => Ok(Ask::Centres { block: 1 }),
        _ => change_of(alloc, want),
    }
}

/// Whether a desk may ask this after the first acts of the history.
fn may(alloc: Global, first: usize, desk: u32, want: Want) -> Result<bool, Fail> {
    let base = empty(alloc);
    let history = history(alloc)?;
    let acts = &history.as_slice()[..first.min(history.len())];
    let states = states_of(alloc, &base, acts)?;
    let course = Course {
        base: &base,
        acts,
        states: states.as_slice(),
    };
    Ok(may_ask(&course, desk, &ask_of(alloc, want)?))
}

/// How many acts there were, the desk, and what it may ask then.
const ALLOWED: [(usize, u32, Want); 17] = [
    (0, 3, Want::Meta),
    (2, 3, Want::List(2, 0)),
    (2, 3, Want::Page(1)),
    (7, 1, Want::Put(1, 4)),
    (7, 1, Want::PutNew(4)),
    // Also a node that is not there, or of another version: the step answers that by a word.
    (1, 1, Want::Join),
    (7, 1, Want::Link(3, 1)),
    (7, 1, Want::Relist(4, 1)),
    (6, 2, Want::Drop(1)),
    (7, 1, Want::Enter(Some(1), 0)),
    (7, 1, Want::Hint(2)),
    // Though it has to wait.
    (1, 2, Want::Take(Gate::Update)),
    (1, 1, Want::Release(Gate::Update)),
    (5, 2, Want::Release(Gate::Vacuum)),
    (5, 2, Want::Begin(Stage::Remove)),
    (6, 2, Want::End),
    (7, 2, Want::End),
];

#[test]
fn asks_that_may_be_asked(rt: HostRuntime) -> Result<(), Fail> {
    for (first, desk, want) in ALLOWED {
        assert!(rt; may(rt.alloc(), first, desk, want)?);
    }
    Ok(())
}

const REFUSED: [(usize, u32, Want); 23] = [
    // Another list place, a layer above the node, and a node that is not there yet.
    (2, 3, Want::List(3, 0)),
    (2, 3, Want::List(2, 1)),
    (1, 3, Want::List(2, 0)),
    // A block that is not there yet.
    (1, 3, Want::Page(1)),
    // The meta page, a block past the last, other slots, and without the gate.
    (7, 1, Want::Put(0, 4)),
    (7, 1, Want::Put(2, 4)),
    (7, 1, Want::Put(1, 3)),
    (6, 1, Want::Put(1, 4)),
    (7, 1, Want::PutNew(3)),
    (4, 1, Want::Join),
    // A slot past the last, a place that holds no node, and the desk of a vacuum.
    (7, 1, Want::Link(4, 1)),
    (7, 1, Want::Link(3, 3)),
    (7, 2, Want::Link(3, 1)),
    (7, 1, Want::Relist(3, 1)),
    // An id past the last one.
    (6, 2, Want::Drop(2)),
    (7, 2, Want::Mark),
    (7, 1, Want::Enter(Some(1), 1)),
    (7, 1, Want::Enter(None, 0)),
    (7, 1, Want::Hint(3)),
    // What is held, what is not, and the gate of a vacuum in a pass.
    (1, 1, Want::Take(Gate::Update)),
    (6, 2, Want::Release(Gate::Vacuum)),
    // Without its barrier.
    (7, 2, Want::Begin(Stage::Repair)),
    (7, 1, Want::Centres),
];

#[test]
fn asks_that_may_not_be_asked(rt: HostRuntime) -> Result<(), Fail> {
    for (first, desk, want) in REFUSED {
        assert!(rt; !may(rt.alloc(), first, desk, want)?);
    }
    Ok(())
}
