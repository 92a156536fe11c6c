//! Acts on the pages of a small index.

ghost use Rattle.std.specs.Prelude.{◌≡◌, ◌≤◌, ◌-◌, IfOk, length, vec_len};
ghost use Rattle.vec_names.specs.Params.{IsInRange};

use bit_code::read_bits;
use index_sizes::LOG_ROOM;
use page_bytes::{Page, PageKind};
use page_log::Log;
use page_redo::meta_at;
use page_sets::PageList;
use std::alloc::Global;
use std::test::*;
use vec_board::{Core, Summary};
use vec_history::{Event, Gate, Hold, Stage};
use vec_names::{HeapId, Kind, Listed, Ops, Params, Tid};
use vec_outside::Area;
use vec_steps::{Ask, StepFault, Told, Word};

/// The meta tuple of a graph of four places with m 2: no entry point, the hint 1.
pub const META: [u8; 32] = [
    0x56, 0x54, 0x49, 0x42, 2, 0, 1, 1, 4, 0, 0, 0, 2, 0, 4, 0, 0, 0, 0, 0, 0xff, 0xff, 0xff, 0xff,
    0, 0, 0, 0, 1, 0, 0, 0,
];

pub fn graph() -> Params
    ensures range { IsInRange result }
    ensures bits { result.bits ≡ 4 }
{
    Params {
        kind: Kind::Hnsw,
        ops: Ops::Hamming,
        bits: 4,
        m: 2,
        ef: 4,
        lists: 0,
    }
}

/// The meta page, and an empty page.
pub fn two_pages(alloc: Global) -> Result<PageList, Fail>
    ensures { IfOk result (λ pages. vec_len pages.pages ≡ 2) }
{
    let mut pages = Vec::with_capacity(alloc, 3)?;
    let mut meta = Page::fresh(PageKind::Meta);
    meta.add_item(&META);
    pages.push(meta)?;
    pages.push(Page::fresh(PageKind::Hnsw))?;
    Ok(PageList { pages })
}

/// The core of that index, whose next event has the number 5, with so much used of the log.
pub fn core(alloc: Global, used: u64) -> Core
    requires { used ≤ 268435456 }
    ensures blocks { result.summary.blocks ≡ 2 }
    ensures bits { result.params.bits ≡ 4 }
{
    core_of(alloc, 2, used)
}

/// The same, of an index with so many blocks.
pub fn core_of(alloc: Global, blocks: u32, used: u64) -> Core
    requires { used ≤ 268435456 }
    ensures blocks { result.summary.blocks ≡ blocks }
    ensures bits { result.params.bits ≡ 4 }
{
    let summary = Summary {
        blocks,
        entry: None,
        level: 0,
        hint: 1,
        doomed: 0,
    };
    let log = Log::over(alloc, 1, Area::Log0, 40, used);
    Core::over(alloc, graph(), summary, log, 5)
}

fn taken(gate: Gate, hold: Hold) -> Event {
    Event::Gate { gate, hold }
}

pub fn number_on(pages: &PageList, block: usize) -> u64 {
    match pages.pages.as_slice().get(block) {
        Some(page) => page.number(),
        None => 0,
    }
}

fn hint_on(pages: &PageList) -> u32 {
    let Some(page) = pages.pages.as_slice().get(0) else {
        return 0;
    };
    match meta_at(page) {
        Some(meta) => meta.hint,
        None => 0,
    }
}

/// Desk 7 takes a gate, changes the hint to 2 and gives the gate back: the hint alone has a number, and room in the log.
#[test]
fn gates_and_a_hint(rt: HostRuntime) -> Result<(), Fail> {
    let alloc = rt.alloc();
    let mut pages = two_pages(alloc)?;
    let mut core = core(alloc, 0);
    core.commit(7, taken(Gate::Update, Hold::Shared), 0, 0, &mut pages)?;
    assert!(rt; core.acts().len() == 1 && core.number() == 5 && number_on(&pages, 0) == 0);
    core.commit(7, Event::Hint { block: 2 }, 0, 0, &mut pages)?;
    assert!(rt; core.number() == 6 && number_on(&pages, 0) == 5 && number_on(&pages, 1) == 0);
    assert!(rt; hint_on(&pages) == 2 && core.summary().hint == 2 && core.used() == 10);
    core.commit(7, Event::Ungate { gate: Gate::Update }, 0, 0, &mut pages)?;
    assert!(rt; core.acts().len() == 3 && core.number() == 6 && core.used() == 10);
    Ok(())
}

/// An event of 5 bytes takes 10. With 10 bytes left it is made, and with 9 it is not.
#[test]
fn the_last_bytes_of_the_log(rt: HostRuntime) -> Result<(), Fail> {
    let alloc = rt.alloc();
    let mut pages = two_pages(alloc)?;
    let mut fits = core(alloc, LOG_ROOM - 10);
    fits.commit(1, Event::Hint { block: 2 }, 0, 0, &mut pages)?;
    assert!(rt; fits.used() == LOG_ROOM && fits.acts().len() == 1);
    Ok(())
}

#[test]
fn one_byte_too_few(rt: HostRuntime) -> Result<(), Fail> {
    let alloc = rt.alloc();
    let mut pages = two_pages(alloc)?;
    let mut full = core(alloc, LOG_ROOM - 9);
    let refused = full.commit(1, Event::Hint { block: 2 }, 0, 0, &mut pages);
    let used = LOG_ROOM - 9;
    assert!(rt; refused == Err(StepFault::LogFull { used, size: 5 }));
    assert!(rt; full.acts().is_empty() && full.number() == 5 && hint_on(&pages) == 1);
    Ok(())
}

/// No desk holds the gate, and no phase stands.
#[test]
fn an_end_of_nothing(rt: HostRuntime) -> Result<(), Fail> {
    let alloc = rt.alloc();
    let mut pages = two_pages(alloc)?;
    let mut core = core(alloc, 0);
    let release = Event::Ungate { gate: Gate::Scan };
    assert!(rt; core.commit(3, release, 0, 0, &mut pages).is_err() && core.acts().is_empty());
    Ok(())
}

fn at(off: u16) -> Tid {
    Tid {
        block: 2,
        off: off.max(1),
    }
}

/// A node of level 0 on the block behind the last, with its list beside it.
fn put(alloc: Global) -> Result<Event, Fail> {
    let mut lists = Listed::new(alloc);
    lists.extend_from_slice(&[None, None, None, None])?;
    Ok(Event::Put {
        at: at(1),
        list_at: at(2),
        version: 1,
        level: 0,
        id: HeapId { block: 5, off: 6 },
        bits: read_bits(alloc, "0110")?,
        lists,
    })
}

/// A node comes on a new block, and loses its only row: then one node is doomed, until it is marked.
#[test]
fn a_block_more_and_a_doomed_node(rt: HostRuntime) -> Result<(), Fail> {
    let alloc = rt.alloc();
    let mut pages = two_pages(alloc)?;
    let mut core = core(alloc, 0);
    core.commit(1, put(alloc)?, 0, 1, &mut pages)?;
    assert!(rt; core.summary().blocks == 3 && pages.pages.as_slice().len() == 3);
    let drop = Event::Drop {
        at: at(1),
        version: 1,
        gone: 1,
    };
    core.commit(1, drop, 0, 0, &mut pages)?;
    assert!(rt; core.summary().doomed == 1 && number_on(&pages, 2) == 6);
    let mark = Event::Mark {
        at: at(1),
        list_at: at(2),
        version: 1,
    };
    core.commit(1, mark, 0, 0, &mut pages)?;
    assert!(rt; core.summary().doomed == 0 && number_on(&pages, 2) == 7 && core.number() == 8);
    Ok(())
}

/// A phase begins and is cancelled, each by the room that was made with it.
#[test]
fn a_phase_and_its_end(rt: HostRuntime) -> Result<(), Fail> {
    let alloc = rt.alloc();
    let mut pages = two_pages(alloc)?;
    let mut core = core(alloc, 0);
    let stage = Stage::Remove;
    core.commit(4, Event::Phase { stage }, 0, 0, &mut pages)?;
    core.commit(4, Event::Cancel { stage }, 0, 0, &mut pages)?;
    assert!(rt; core.commit(4, Event::VacuumEnd, 0, 0, &mut pages).is_err());
    assert!(rt; core.acts().len() == 2 && core.used() == 0);
    Ok(())
}

pub fn told_of(alloc: Global) -> Result<Told, Fail>
    ensures { IfOk result (λ told. length told.bits ≡ 4) }
{
    Ok(Told::make(alloc, graph())?)
}

/// Behind one act the summary and a page tell what stands there: no node at 2/1 before it was put.
#[test]
fn looks_behind_an_act(rt: HostRuntime) -> Result<(), Fail> {
    let alloc = rt.alloc();
    let mut pages = two_pages(alloc)?;
    let mut core = core(alloc, 0);
    core.commit(1, put(alloc)?, 0, 1, &mut pages)?;
    let mut told = told_of(alloc)?;
    core.look(alloc, 3, &pages, &Ask::Meta, &mut told)?;
    assert!(rt; told.word == Word::Meta && told.at == 1 && told.blocks == 3 && told.hint == 1);
    let node = Ask::Node {
        at: at(1),
        layer: 0,
        version: None,
    };
    core.look(alloc, 3, &pages, &node, &mut told)?;
    assert!(rt; told.word == Word::Node && told.at == 1 && told.list_at == Some(at(2)));
    Ok(())
}
