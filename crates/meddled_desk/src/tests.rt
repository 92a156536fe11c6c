ghost use Rattle.std.specs.Prelude.{◌≡◌, ◌≤◌, IfOk, length, vec_len};
ghost use Rattle.vec_steps.specs.Calls.{HoldsNone};
ghost use Rattle.loaded_index.specs.Loading.{CanGoOn};
ghost use Rattle.vec_board.specs.Standing.{acts_of};

mod inserts;
mod rows;
mod scans;
mod searches;

use crate::Meddled;
use bit_code::{Bits, read_bits};
use graph_judge::audit_hnsw;
use graph_pages::graph_of;
use loaded_index::Loaded;
use page_bytes::{Page, PageKind};
use std::alloc::Global;
use std::test::*;
use vec_board::Board;
use vec_graph::Graph;
use vec_history::{Act, Event, Gate, Hold, Stage};
use vec_names::{HeapId, Listed, Tid};
use vec_outside::{Area, MemDisks};
use vec_steps::{Ask, NewNode};

/// The meta tuple of a graph of four places with m 2 and ef 4: no entry point, the hint 1.
const META: [u8; 32] = [
    0x56, 0x54, 0x49, 0x42, 2, 0, 1, 1, 4, 0, 0, 0, 2, 0, 4, 0, 0, 0, 0, 0, 0xff, 0xff, 0xff, 0xff,
    0, 0, 0, 0, 1, 0, 0, 0,
];

/// An index of the meta page and an empty page.
fn loaded(alloc: Global) -> Result<Loaded, Fail>
    ensures go_on { IfOk result CanGoOn }
    ensures few { IfOk result (λ loaded. length loaded.pages.items ≤ 3) }
{
    let mut pages = Vec::with_capacity(alloc, 3)?;
    let mut meta = Page::fresh(PageKind::Meta);
    meta.add_item(&META);
    pages.push(meta)?;
    pages.push(Page::fresh(PageKind::Hnsw))?;
    Ok(Loaded {
        pages,
        epoch: 1,
        area: Area::Log0,
        before: 0,
        end: 40,
        used: 0,
        unwritten: Vec::new(alloc),
    })
}

/// The graph of the two pages.
fn base(alloc: Global) -> Result<Graph, Fail> {
    let loaded = loaded(alloc)?;
    match graph_of(alloc, loaded.pages.as_slice()) {
        Ok(graph) => Ok(graph),
        Err(_) => Err(Fail::new("pages of a graph")),
    }
}

type Groups = Vec<Vec<(u32, Ask)>>;

/// A desk at a board of that index, with these groups of others' asks.
fn desk_with(alloc: Global, groups: Groups) -> Result<Meddled<MemDisks>, Fail>
    ensures free { IfOk result (λ desk. HoldsNone (acts_of desk.board.core) 0) }
{
    let log = vec![in alloc; 0; 40]?;
    let none = Vec::new(alloc);
    let other = vec![in alloc; 0; 40]?;
    let fail = Vec::new(alloc);
    let disks = MemDisks::over(alloc, none, log, other, fail);
    let loaded = loaded(alloc)?;
    if (disks.bytes(loaded.area).len() as u64) < loaded.end {
        return Err(Fail::new("an area to the log's end"));
    }
    let Ok(base) = graph_of(alloc, loaded.pages.as_slice()) else {
        return Err(Fail::new("pages of a graph"));
    };
    Ok(Meddled::over(
        alloc,
        Board::from_loaded(alloc, disks, loaded),
        base,
        groups,
    ))
}

// ---- what others ask, in few words

/// An ask of a node of level 0, which is named by the offset of its element on block 1, and by 100 more on block 2; its list stands at
/// the next offset. The number 0 names none.
#[derive(Clone, Copy)]
enum Move {
    Take(Gate, Hold),
    Give(Gate),
    Begin(Stage),
    End,
    /// A row with this offset and this value, at a new node that names two others.
    Put(u16, &'static str, [u16; 2]),
    /// The same on a new block.
    PutNew(u16, &'static str, [u16; 2]),
    Enter(u16),
    Join(u16),
    /// This slot, which names none, comes to name a node.
    Link(u16, u16, u16),
    /// The slots come to name these two and no other.
    Relist(u16, [u16; 2]),
    /// The only row of a node of this version.
    Drop(u16, u8),
    /// A node of this version.
    Mark(u16, u8),
}

/// The gate Update, shared.
const SHARED: Move = Move::Take(Gate::Update, Hold::Shared);
/// The gate Update, alone.
const ALONE: Move = Move::Take(Gate::Update, Hold::Alone);
/// The gate Update is given back.
const GIVE: Move = Move::Give(Gate::Update);
/// The gate of scans, alone.
const SCANS: Move = Move::Take(Gate::Scan, Hold::Alone);
/// The gate of scans is given back.
const GIVE_SCANS: Move = Move::Give(Gate::Scan);
/// The gate of vacuums.
const VACUUM: Move = Move::Take(Gate::Vacuum, Hold::Alone);
/// The gate of vacuums is given back.
const GIVE_VACUUM: Move = Move::Give(Gate::Vacuum);

fn tid(number: u16) -> Tid {
    if number > 100 {
        return Tid {
            block: 2,
            off: number - 100,
        };
    }
    Tid {
        block: 1,
        off: number.max(1),
    }
}

fn named(off: u16) -> Option<Tid> {
    if off == 0 { None } else { Some(tid(off)) }
}

/// Four slots, of which the first two may name a node.
fn slots(alloc: Global, names: [u16; 2]) -> Result<Listed<Option<Tid>>, Fail> {
    let mut slots = Listed::new(alloc);
    slots.extend_from_slice(&[named(names[0]), named(names[1]), None, None])?;
    Ok(slots)
}

fn new_node(alloc: Global, row: u16, text: &str, names: [u16; 2]) -> Result<NewNode, Fail> {
    Ok(NewNode {
        level: 0,
        id: HeapId {
            block: 1,
            off: row.max(1),
        },
        bits: read_bits(alloc, text)?,
        lists: slots(alloc, names)?,
    })
}

fn link(off: u16, slot: u16, to: u16) -> Ask {
    Ask::Link {
        at: tid(off),
        list_at: tid(off.saturating_add(1)),
        level: 0,
        version: 1,
        layer: 0,
        slot,
        held: None,
        to: tid(to),
    }
}

fn relist(alloc: Global, off: u16, names: [u16; 2]) -> Result<Ask, Fail> {
    Ok(Ask::Relist {
        at: tid(off),
        list_at: tid(off.saturating_add(1)),
        version: 1,
        lists: slots(alloc, names)?,
    })
}

/// An ask that needs no memory.
fn small_ask(one: Move) -> Ask {
    match one {
        Move::Take(gate, hold) => Ask::Take { gate, hold },
        Move::Give(gate) => Ask::Release { gate },
        Move::Begin(stage) => Ask::Phase { stage },
        Move::Enter(off) => Ask::Entry {
            to: named(off),
            level: 0,
        },
        Move::Join(off) => Ask::Join {
            at: tid(off),
            version: 1,
            id: HeapId { block: 6, off: 1 },
        },
        Move::Link(off, slot, to) => link(off, slot, to),
        Move::Drop(off, version) => Ask::Drop {
            at: tid(off),
            version,
            gone: 1,
        },
        Move::Mark(off, version) => Ask::Mark {
            at: tid(off),
            list_at: tid(off.saturating_add(1)),
            version,
        },
        _ => Ask::EndVacuum,
    }
}

fn ask_of(alloc: Global, one: Move) -> Result<Ask, Fail> {
    match one {
        Move::Put(row, text, names) => Ok(Ask::Put {
            block: 1,
            node: new_node(alloc, row, text, names)?,
        }),
        Move::PutNew(row, text, names) => Ok(Ask::PutNew {
            node: new_node(alloc, row, text, names)?,
        }),
        Move::Relist(off, names) => relist(alloc, off, names),
        _ => Ok(small_ask(one)),
    }
}

/// What a desk asks, behind the rest of a group.
fn add(alloc: Global, group: &mut Vec<(u32, Ask)>, desk: u32, moves: &[Move]) -> Result<(), Fail> {
    for one in moves {
        group.push((desk, ask_of(alloc, *one)?))?;
    }
    Ok(())
}

/// Before the step of this number, from 1, this desk asks these.
type Before = (usize, u32, &'static [Move]);

fn add_before(alloc: Global, groups: &mut Groups, before: &Before) -> Result<(), Fail> {
    for _ in groups.len()..before.0 {
        groups.push(Vec::new(alloc))?;
    }
    let Some(group) = groups.last_mut() else {
        return Err(Fail::new("steps are counted from 1"));
    };
    add(alloc, group, before.1, before.2)
}

/// The groups of a table, whose steps rise.
fn groups_of(alloc: Global, table: &[Before]) -> Result<Groups, Fail> {
    let mut groups = Vec::new(alloc);
    for before in table {
        add_before(alloc, &mut groups, before)?;
    }
    Ok(groups)
}

/// A desk at a board of an index without a node, with these asks of others before its steps.
fn desk(alloc: Global, table: &[Before]) -> Result<Meddled<MemDisks>, Fail>
    ensures free { IfOk result (λ desk. HoldsNone (acts_of desk.board.core) 0) }
{
    let groups = groups_of(alloc, table)?;
    desk_with(alloc, groups)
}

/// Desk 1 inserts 0000 at 1/1, as the entry point.
const ONE: [Move; 4] = [ALONE, Move::Put(1, "0000", [0, 0]), Move::Enter(1), GIVE];

/// Desk 1 inserts rows 1, 2 and 3: 0000 at 1/1, 0011 at 1/3 and 0111 at 1/5, each of which names the other two: 1/1 names 1/3 and
/// 1/5, 1/3 names 1/1 and 1/5, and 1/5 names 1/3 and 1/1.
const THREE: [Move; 9] = [
    ALONE,
    Move::Put(1, "0000", [0, 0]),
    Move::Enter(1),
    Move::Put(2, "0011", [1, 0]),
    Move::Link(1, 0, 3),
    Move::Put(3, "0111", [3, 1]),
    Move::Link(3, 1, 5),
    Move::Link(1, 1, 5),
    GIVE,
];

// ---- what was done

/// How many of the acts are of this desk.
fn count_of(acts: &[Act], desk: u32) -> usize {
    acts.iter().filter(|act| act.desk == desk).count()
}

fn is_mark(act: &Act) -> bool {
    match act.event {
        Event::Mark { .. } => true,
        _ => false,
    }
}

/// Each of these desks made so many acts.
fn are_counted(acts: &[Act], wanted: &[(u32, usize)]) -> Result<(), Fail> {
    for (desk, count) in wanted {
        if count_of(acts, *desk) != *count {
            return Err(Fail::new("another number of acts of a desk"));
        }
    }
    Ok(())
}

/// The judge finds each of these acts legal.
fn are_legal(alloc: Global, acts: &[Act]) -> Result<(), Fail> {
    let base = base(alloc)?;
    match audit_hnsw(alloc, &base, acts) {
        Ok(()) => Ok(()),
        Err(_) => Err(Fail::new("an act that is not legal")),
    }
}

/// None of so many acts is a Mark.
fn has_no_mark(acts: &[Act], first: usize) -> bool {
    for act in acts.iter().take(first) {
        if is_mark(act) {
            return false;
        }
    }
    true
}

/// The acts at the board are legal, and each of these desks made so many.
fn ends(alloc: Global, desk: Meddled<MemDisks>, wanted: &[(u32, usize)]) -> Result<(), Fail> {
    let board = desk.into_board();
    are_counted(board.acts(), wanted)?;
    are_legal(alloc, board.acts())
}
