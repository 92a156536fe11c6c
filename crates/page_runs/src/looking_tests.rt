//! What looks at small pages tell.

ghost use Rattle.std.specs.Prelude.{◌≡◌, IfOk, length};
ghost use Rattle.vec_names.specs.Params.{IsInRange};

use bit_code::read_bits;
use page_bytes::{Page, PageKind};
use page_redo::RedoFault;
use page_sets::{PageList, PageSet, look, look_meta};
use std::alloc::Global;
use std::test::*;
use vec_history::Event;
use vec_names::{HeapId, Kind, Listed, Ops, Params, Tid};
use vec_steps::{Ask, Told, Word};

/// The meta tuple of a graph of four places with m 2: the entry 1/1 of level 1, the hint 1.
const META: [u8; 32] = [
    0x56, 0x54, 0x49, 0x42, 2, 0, 1, 1, 4, 0, 0, 0, 2, 0, 4, 0, 0, 0, 0, 0, 0, 0, 1, 0, 1, 0, 1, 0,
    1, 0, 0, 0,
];

/// A list from block 2 on that looks for room at block 3, with the centre 0011.
const CENTRE: [u8; 21] = [
    2, 0, 0, 0, 3, 0, 0, 0, 0, 0, 0, 0, 0x24, 0, 0, 0, 4, 0, 0, 0, 0x30,
];

fn graph() -> Params
    ensures range { IsInRange result }
    ensures bits { result.bits ≡ 4 }
{
    Params {
        kind: Kind::Hnsw,
        ops: Ops::Hamming,
        bits: 4,
        m: 2,
        ef: 4,
        lists: 0,
    }
}

fn lists() -> Params
    ensures range { IsInRange result }
    ensures bits { result.bits ≡ 4 }
{
    Params {
        kind: Kind::Ivf,
        ops: Ops::Hamming,
        bits: 4,
        m: 0,
        ef: 0,
        lists: 300,
    }
}

fn tid(off: u16) -> Tid {
    Tid {
        block: 1,
        off: off.max(1),
    }
}

fn row(off: u16) -> HeapId {
    HeapId {
        block: 5,
        off: off.max(1),
    }
}

/// A node of level 1 with the value 0110 and the row 5/6, whose first slot in layer 1 and last in layer 0 name 1/9.
fn put(alloc: Global, off: u16) -> Result<Event, Fail> {
    let to = Some(tid(9));
    let mut lists = Listed::new(alloc);
    lists.extend_from_slice(&[to, None, None, None, None, to])?;
    Ok(Event::Put {
        at: tid(off),
        list_at: tid(off.saturating_add(1)),
        version: 3,
        level: 1,
        id: row(6),
        bits: read_bits(alloc, "0110")?,
        lists,
    })
}

/// The meta page, and behind it a page of this kind.
fn two_pages(alloc: Global, kind: PageKind) -> Result<PageList, Fail> {
    let mut pages = Vec::with_capacity(alloc, 3)?;
    let mut meta = Page::fresh(PageKind::Meta);
    meta.add_item(&META);
    pages.push(meta)?;
    pages.push(Page::fresh(kind))?;
    Ok(PageList { pages })
}

/// A node at 1/1 with its list at 1/2.
fn one_node(alloc: Global) -> Result<PageList, Fail> {
    let mut pages = two_pages(alloc, PageKind::Hnsw)?;
    pages.redo_on(&put(alloc, 1)?, &graph(), 7, 1)?;
    Ok(pages)
}

fn node(layer: u8, version: Option<u8>) -> Ask {
    Ask::Node {
        at: tid(1),
        layer,
        version,
    }
}

fn slots(version: u8, layer: u8) -> Ask {
    Ask::List {
        at: tid(1),
        list_at: tid(2),
        level: 1,
        version,
        layer,
    }
}

fn told_of(alloc: Global) -> Result<Told, Fail>
    ensures { IfOk result (λ told. length told.bits ≡ 4) }
{
    Ok(Told::make(alloc, graph())?)
}

/// The word that a look at the pages of a graph is told.
fn word(alloc: Global, pages: &PageList, ask: &Ask) -> Result<Word, Fail> {
    let mut told = told_of(alloc)?;
    look(alloc, &graph(), pages, ask, &mut told)?;
    Ok(told.word)
}

#[test]
fn a_node_is_told(rt: HostRuntime) -> Result<(), Fail> {
    let pages = one_node(rt.alloc())?;
    let mut told = told_of(rt.alloc())?;
    look(rt.alloc(), &graph(), &pages, &node(1, Some(3)), &mut told)?;
    assert!(rt; told.word == Word::Node && told.level == 1 && told.version == 3);
    assert!(rt; told.list_at == Some(tid(2)) && told.bits.bytes() == [0x60].as_slice());
    assert!(rt; told.ids.as_slice() == [row(6)].as_slice() && told.at == 0);
    Ok(())
}

#[test]
fn slots_of_each_layer_are_told(rt: HostRuntime) -> Result<(), Fail> {
    let pages = one_node(rt.alloc())?;
    let mut told = told_of(rt.alloc())?;
    let to = Some(tid(9));
    look(rt.alloc(), &graph(), &pages, &slots(3, 1), &mut told)?;
    assert!(rt; told.word == Word::List && told.tids.as_slice() == [to, None].as_slice());
    look(rt.alloc(), &graph(), &pages, &slots(3, 0), &mut told)?;
    assert!(rt; told.tids.as_slice() == [None, None, None, to].as_slice());
    Ok(())
}

/// Of another version, above its level, where none stands, on a block that is not there, and once it is deleted.
#[test]
fn what_is_gone(rt: HostRuntime) -> Result<(), Fail> {
    let alloc = rt.alloc();
    let mut pages = one_node(alloc)?;
    assert!(rt; word(alloc, &pages, &node(1, None))? == Word::Node);
    assert!(rt; word(alloc, &pages, &node(1, Some(4)))? == Word::Gone);
    assert!(rt; word(alloc, &pages, &node(2, None))? == Word::Gone);
    assert!(rt; word(alloc, &pages, &slots(4, 0))? == Word::Gone);
    let nowhere = Ask::Node {
        at: Tid { block: 9, off: 1 },
        layer: 0,
        version: None,
    };
    assert!(rt; word(alloc, &pages, &nowhere)? == Word::Gone);
    let mark = Event::Mark {
        at: tid(1),
        list_at: tid(2),
        version: 3,
    };
    pages.redo_on(&mark, &graph(), 8, 1)?;
    assert!(rt; word(alloc, &pages, &node(0, None))? == Word::Gone);
    assert!(rt; word(alloc, &pages, &slots(4, 0))? == Word::Gone);
    Ok(())
}

/// Deleted ones too.
#[test]
fn the_nodes_of_a_page(rt: HostRuntime) -> Result<(), Fail> {
    let alloc = rt.alloc();
    let mut pages = one_node(alloc)?;
    pages.redo_on(&put(alloc, 3)?, &graph(), 8, 1)?;
    let mark = Event::Mark {
        at: tid(1),
        list_at: tid(2),
        version: 3,
    };
    pages.redo_on(&mark, &graph(), 9, 1)?;
    let mut told = told_of(alloc)?;
    look(alloc, &graph(), &pages, &Ask::Page { block: 1 }, &mut told)?;
    assert!(rt; told.word == Word::Page && told.nodes.len() == 2);
    let (Some(first), Some(second)) = (told.nodes.get(0), told.nodes.get(1)) else {
        panic!(rt; "two nodes stand there")
    };
    assert!(rt; first.at == tid(1) && first.deleted && first.version == 4 && first.ids.is_empty());
    assert!(rt; second.at == tid(3) && !second.deleted && second.level == 1);
    Ok(())
}

#[test]
fn the_rows_of_a_block(rt: HostRuntime) -> Result<(), Fail> {
    let alloc = rt.alloc();
    let mut pages = two_pages(alloc, PageKind::IvfEntries)?;
    let add = Event::IvfAdd {
        block: 1,
        id: row(6),
        bits: read_bits(alloc, "0110")?,
    };
    let grow = Event::IvfGrow {
        list: 0,
        last: 1,
        block: 2,
        id: row(7),
        bits: read_bits(alloc, "0011")?,
    };
    pages.redo_on(&add, &lists(), 8, 1)?;
    pages.redo_on(&grow, &lists(), 9, 1)?;
    let mut told = told_of(alloc)?;
    look(alloc, &lists(), &pages, &Ask::Rows { block: 1 }, &mut told)?;
    assert!(rt; told.word == Word::Rows && told.next == Some(2) && told.rows.len() == 1);
    let Some(first) = told.rows.get(0) else {
        panic!(rt; "a row stands there")
    };
    assert!(rt; first.off == 1 && first.id == row(6) && first.bits.bytes() == [0x60].as_slice());
    Ok(())
}

/// 291 lists stand on a block, so the first on block 2 is list 291.
#[test]
fn the_centres_on_a_block(rt: HostRuntime) -> Result<(), Fail> {
    let alloc = rt.alloc();
    let mut pages = two_pages(alloc, PageKind::IvfEntries)?;
    let mut second = Page::fresh(PageKind::IvfLists);
    second.add_item(&CENTRE);
    pages.pages.push(second)?;
    let mut told = told_of(alloc)?;
    look(
        alloc,
        &lists(),
        &pages,
        &Ask::Centres { block: 2 },
        &mut told,
    )?;
    assert!(rt; told.word == Word::Centres && told.centres.len() == 1);
    let Some(centre) = told.centres.get(0) else {
        panic!(rt; "a list tuple stands there")
    };
    assert!(rt; centre.list == 291 && centre.first == 2 && centre.aim == 3);
    assert!(rt; centre.bits.bytes() == [0x30].as_slice());
    Ok(())
}

#[test]
fn the_entry_point(rt: HostRuntime) -> Result<(), Fail> {
    let pages = two_pages(rt.alloc(), PageKind::Hnsw)?;
    let mut told = told_of(rt.alloc())?;
    look_meta(&pages, 2, &mut told);
    assert!(rt; told.word == Word::Meta && told.tid == Some(tid(1)) && told.level == 1);
    assert!(rt; told.hint == 1 && told.blocks == 2);
    Ok(())
}

/// A page is added behind the last one; redo of a block without a page is unfit.
#[test]
fn pages_are_added_and_changed(rt: HostRuntime) -> Result<(), Fail> {
    let alloc = rt.alloc();
    let mut pages = PageList {
        pages: Vec::new(alloc),
    };
    pages.reserve(1)?;
    pages.add(0, PageKind::Hnsw);
    assert!(rt; pages.page(1).is_none());
    let Some(page) = pages.page(0) else {
        panic!(rt; "the page was added")
    };
    assert!(rt; page.kind() == PageKind::Hnsw && page.count() == 0);
    let fault = pages.redo_on(&put(alloc, 1)?, &graph(), 7, 1);
    assert!(rt; fault == Err(RedoFault::Unfit));
    Ok(())
}
