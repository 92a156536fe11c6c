use super::*;
use bit_code::{Bits, read_bits};
use index_sizes::{MOST_BITS, MOST_BLOCKS};
use std::alloc::Global;
use std::test::*;
use vec_history::{Act, Event, Gate, Hold, Stage, law_alone, law_cut};
use vec_names::{HeapId, Listed};

const ROW: HeapId = HeapId { block: 1, off: 5 };

// What a desk does, shortly.
#[derive(Clone, Copy)]
enum Deed {
    Take(Gate, Hold),
    Give(Gate),
    Add(u32, &'static str),
    Grow(u32, u32, u32, &'static str),
    Cut(u32, &'static [u16]),
    Aim(u32, u32),
    Begin(Stage),
    Settle(u64),
    Fault(u64),
    Point(u32),
}

const ALONE: Deed = Deed::Take(Gate::Vacuum, Hold::Alone);

const SHARED: Deed = Deed::Take(Gate::Vacuum, Hold::Shared);

// Histories of the worked index, each with the number of its first act that is not allowed.
const HISTORIES: [(&[(u32, Deed)], Option<u64>); 29] = [
    (&[], None),
    // A desk adds a row, and another one on a new block; a vacuum takes two rows away.
    (
        &[
            (1, Deed::Add(3, "0110")),
            (1, Deed::Grow(1, 3, 5, "1100")),
            (1, Deed::Aim(1, 5)),
            (2, ALONE),
            (2, Deed::Cut(3, &[1, 3])),
            (2, Deed::Aim(1, 3)),
            (2, Deed::Give(Gate::Vacuum)),
            (1, Deed::Add(5, "0110")),
            (1, Deed::Settle(5)),
            (1, Deed::Fault(1)),
        ],
        None,
    ),
    // Gates.
    (&[(1, ALONE), (2, SHARED)], Some(1)),
    (&[(1, SHARED), (1, SHARED)], Some(1)),
    (&[(1, Deed::Give(Gate::Vacuum))], Some(0)),
    // A row on a block of no chain, and of another length.
    (&[(1, Deed::Add(1, "0110"))], Some(0)),
    (&[(1, Deed::Add(5, "0110"))], Some(0)),
    (&[(1, Deed::Add(3, "011"))], Some(0)),
    // A new block of no list, behind a block that is not the last of the list, that is not the next, with another length.
    (&[(1, Deed::Grow(3, 3, 5, "0110"))], Some(0)),
    (&[(1, Deed::Grow(1, 2, 5, "0110"))], Some(0)),
    (
        &[
            (1, Deed::Grow(1, 3, 5, "0110")),
            (1, Deed::Grow(1, 3, 6, "0110")),
        ],
        Some(1),
    ),
    (&[(1, Deed::Grow(1, 3, 6, "0110"))], Some(0)),
    (&[(1, Deed::Grow(1, 3, 4, "0110"))], Some(0)),
    (&[(1, Deed::Grow(1, 3, 5, "01101"))], Some(0)),
    // A cut without the gate, not alone, by another desk, and after the gate.
    (&[(1, Deed::Cut(3, &[1]))], Some(0)),
    (&[(1, SHARED), (1, Deed::Cut(3, &[1]))], Some(1)),
    (&[(1, ALONE), (2, Deed::Cut(3, &[1]))], Some(1)),
    (
        &[
            (1, ALONE),
            (1, Deed::Give(Gate::Vacuum)),
            (1, Deed::Cut(3, &[1])),
        ],
        Some(2),
    ),
    // A cut of no offset, of one that is not there, of none, in another order, and of a block of no chain.
    (&[(1, ALONE), (1, Deed::Cut(3, &[]))], Some(1)),
    (&[(1, ALONE), (1, Deed::Cut(3, &[3]))], Some(1)),
    (&[(1, ALONE), (1, Deed::Cut(3, &[0, 1]))], Some(1)),
    (&[(1, ALONE), (1, Deed::Cut(3, &[2, 1]))], Some(1)),
    (&[(1, ALONE), (1, Deed::Cut(3, &[1, 1]))], Some(1)),
    (
        &[(1, ALONE), (1, Deed::Cut(3, &[2])), (1, Deed::Cut(3, &[2]))],
        Some(2),
    ),
    (&[(1, ALONE), (1, Deed::Cut(5, &[1]))], Some(1)),
    // An aim at a block of another list.
    (&[(1, Deed::Aim(1, 2))], Some(0)),
    // What is settled, and the faults.
    (
        &[
            (1, Deed::Add(3, "0110")),
            (1, Deed::Settle(1)),
            (2, Deed::Settle(0)),
        ],
        Some(2),
    ),
    (&[(1, Deed::Fault(1)), (2, Deed::Fault(1))], Some(1)),
    // Phases, and events of a graph of nodes.
    (&[(1, ALONE), (1, Deed::Begin(Stage::Remove))], Some(1)),
];

fn event_of(alloc: Global, deed: Deed) -> Result<Event, Fail> {
    Ok(match deed {
        Deed::Take(gate, hold) => Event::Gate { gate, hold },
        Deed::Give(gate) => Event::Ungate { gate },
        Deed::Add(block, value) => Event::IvfAdd {
            block,
            id: ROW,
            bits: read_bits(alloc, value)?,
        },
        Deed::Grow(list, last, block, value) => Event::IvfGrow {
            list,
            last,
            block,
            id: ROW,
            bits: read_bits(alloc, value)?,
        },
        Deed::Cut(block, offsets) => {
            let mut gone = Listed::new(alloc);
            gone.extend_from_slice(offsets)?;
            Event::IvfDrop { block, gone }
        }
        Deed::Aim(list, block) => Event::IvfHint { list, block },
        Deed::Begin(stage) => Event::Phase { stage },
        Deed::Settle(upto) => Event::Settled { upto },
        Deed::Fault(count) => Event::DiskFaulted { count },
        Deed::Point(block) => Event::Hint { block },
    })
}

fn acts_of(alloc: Global, deeds: &[(u32, Deed)]) -> Result<Vec<Act>, Fail> {
    let mut acts = Vec::new(alloc);
    for (desk, deed) in deeds {
        let event = event_of(alloc, *deed)?;
        acts.push(Act { desk: *desk, event })?;
    }
    Ok(acts)
}

fn list_on(alloc: Global, block: u32, centre: Bits, values: &[&str]) -> Result<IvfList, Fail> {
    let mut rows = Listed::new(alloc);
    for value in values {
        rows.push((ROW, read_bits(alloc, value)?))?;
    }
    let mut chain = Listed::new(alloc);
    chain.push((block, rows))?;
    Ok(IvfList {
        centre,
        aim: block,
        chain,
    })
}

// Four rows in three lists, on the blocks 2 to 4.
fn worked(alloc: Global) -> Result<IvfGraph, Fail> {
    let mut lists = Listed::new(alloc);
    lists.push(list_on(alloc, 2, read_bits(alloc, "0000")?, &["0000"])?)?;
    lists.push(list_on(alloc, 3, read_bits(alloc, "1110")?, &["1111", "1110"])?)?;
    lists.push(list_on(alloc, 4, read_bits(alloc, "0001")?, &["0001"])?)?;
    Ok(IvfGraph { lists, blocks: 5 })
}

// The number of the first act that is not allowed.
fn first_illegal(alloc: Global, base: &IvfGraph, acts: &[Act]) -> Result<Option<u64>, Fail> {
    match audit_ivf(alloc, base, acts) {
        Ok(()) => Ok(None),
        Err(AuditFault::Illegal { at }) => Ok(Some(at)),
        Err(AuditFault::Memory) => Err("no memory")?,
    }
}

#[test]
fn histories_are_judged(rt: HostRuntime) -> Result<(), Fail> {
    let base = worked(rt.alloc())?;
    for (deeds, want) in HISTORIES {
        let acts = acts_of(rt.alloc(), deeds)?;
        assert_eq!(rt; first_illegal(rt.alloc(), &base, acts.as_slice())?, want);
    }
    let acts = acts_of(rt.alloc(), &[(1, Deed::Point(1))])?;
    assert_eq!(rt; first_illegal(rt.alloc(), &base, acts.as_slice())?, Some(0));
    Ok(())
}

// The longest value takes 8,020 of the 8,160 bytes of a page, so each block has room for one.
#[test]
fn a_block_is_full(rt: HostRuntime) -> Result<(), Fail> {
    let alloc = rt.alloc();
    let mut lists = Listed::new(alloc);
    lists.push(list_on(alloc, 2, Bits::zeros(alloc, MOST_BITS)?, &[])?)?;
    let base = IvfGraph { lists, blocks: 3 };
    let mut acts = Vec::new(alloc);
    for block in [2, 2] {
        let bits = Bits::zeros(alloc, MOST_BITS)?;
        acts.push(Act {
            desk: 1,
            event: Event::IvfAdd {
                block,
                id: ROW,
                bits,
            },
        })?;
    }
    assert_eq!(rt; first_illegal(alloc, &base, acts.as_slice())?, Some(1));
    Ok(())
}

// No block has the number 32,768.
#[test]
fn blocks_end(rt: HostRuntime) -> Result<(), Fail> {
    let mut base = worked(rt.alloc())?;
    base.blocks = MOST_BLOCKS - 1;
    let deeds = [
        (1, Deed::Grow(1, 3, MOST_BLOCKS - 1, "0110")),
        (1, Deed::Grow(1, MOST_BLOCKS - 1, MOST_BLOCKS, "0110")),
    ];
    let acts = acts_of(rt.alloc(), &deeds)?;
    assert_eq!(rt; first_illegal(rt.alloc(), &base, acts.as_slice())?, Some(1));
    Ok(())
}

// The laws hold of an index without lists, and before any act.
#[test]
fn laws_before_any_act(rt: HostRuntime) {
    let base = IvfGraph {
        lists: Listed::new(rt.alloc()),
        blocks: 2,
    };
    let acts: [Act; 0] = [];
    law_cut(&base, &acts);
    law_alone(&base, &acts);
    law_blocks(&base, &acts);
    law_rows(&base);
    law_chains(&base, &acts);
    law_stands(&base, &acts);
    law_later(&base, &acts);
    law_asked(&base, &acts);
    law_answer(&base);
    law_looks(&base);
    law_reads(&base);
    law_still(&base, &acts);
    law_answered_once(&base, &acts);
    law_insert();
    law_examples();
}
