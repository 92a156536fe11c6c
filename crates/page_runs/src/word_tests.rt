//! What small pages say to each change, and the event that comes of it.

ghost use Rattle.std.specs.Prelude.{◌≡◌, IfOk, length};
ghost use Rattle.vec_names.specs.Params.{IsInRange};

use bit_code::{Bits, read_bits};
use page_bytes::{Page, PageKind};
use page_sets::{PageList, PageSet};
use page_words::{Making, decide, event_of};
use std::alloc::Global;
use std::test::*;
use vec_graph::Place;
use vec_history::Event;
use vec_names::{HeapId, Kind, Listed, Ops, Params, Tid};
use vec_steps::{Ask, NewNode, Told, Word};

fn graph() -> Params
    ensures { IsInRange result }
{
    Params {
        kind: Kind::Hnsw,
        ops: Ops::Hamming,
        bits: 4,
        m: 2,
        ef: 4,
        lists: 0,
    }
}

fn lists() -> Params
    ensures { IsInRange result }
{
    Params {
        kind: Kind::Ivf,
        ops: Ops::Hamming,
        bits: 4,
        m: 0,
        ef: 0,
        lists: 1,
    }
}

fn tid(block: u32, off: u16) -> Tid {
    Tid {
        block: block.min(9),
        off: off.max(1),
    }
}

fn row(off: u16) -> HeapId {
    HeapId {
        block: 5,
        off: off.max(1),
    }
}

fn slots(alloc: Global) -> Result<Listed<Option<Tid>>, Fail> {
    let mut lists = Listed::new(alloc);
    lists.extend_from_slice(&[Some(tid(1, 9)), None, None, None])?;
    Ok(lists)
}

fn value(alloc: Global) -> Result<Bits, Fail> {
    Ok(read_bits(alloc, "0110")?)
}

/// A node of level 0 with four slots, of which the first names 1/9.
fn new_node(alloc: Global) -> Result<NewNode, Fail> {
    Ok(NewNode {
        level: 0,
        id: row(6),
        bits: value(alloc)?,
        lists: slots(alloc)?,
    })
}

/// A page of this kind behind block 0.
fn two_pages(alloc: Global, kind: PageKind) -> Result<PageList, Fail> {
    let mut pages = Vec::with_capacity(alloc, 2)?;
    pages.push(Page::fresh(PageKind::Meta))?;
    pages.push(Page::fresh(kind))?;
    Ok(PageList { pages })
}

/// A node of version 3 at 1/1 with its list at 1/2.
fn one_node(alloc: Global) -> Result<PageList, Fail> {
    let mut pages = two_pages(alloc, PageKind::Hnsw)?;
    let put = Event::Put {
        at: tid(1, 1),
        list_at: tid(1, 2),
        version: 3,
        level: 0,
        id: row(6),
        bits: value(alloc)?,
        lists: slots(alloc)?,
    };
    pages.redo_on(&put, &graph(), 7, 1)?;
    Ok(pages)
}

fn mark() -> Event {
    Event::Mark {
        at: tid(1, 1),
        list_at: tid(1, 2),
        version: 3,
    }
}

/// The word that a graph's pages say, and what becomes of the ask.
fn said(alloc: Global, pages: &PageList, ask: &Ask) -> Result<(Word, Making), Fail> {
    let mut told = Told::make(alloc, graph())?;
    let making = decide(&graph(), pages, 2, ask, &mut told);
    Ok((told.word, making))
}

fn put_ask(alloc: Global) -> Result<Ask, Fail> {
    Ok(Ask::Put {
        block: 1,
        node: new_node(alloc)?,
    })
}

fn join(version: u8) -> Ask {
    Ask::Join {
        at: tid(1, 1),
        version,
        id: row(8),
    }
}

fn link(version: u8, held: Option<Tid>) -> Ask {
    Ask::Link {
        at: tid(1, 1),
        list_at: tid(1, 2),
        level: 0,
        version,
        layer: 0,
        slot: 0,
        held,
        to: tid(1, 1),
    }
}

/// The next two offsets of the page; and once the node is deleted, its places with its version.
#[test]
fn places_for_a_node(rt: HostRuntime) -> Result<(), Fail> {
    let alloc = rt.alloc();
    let mut pages = one_node(alloc)?;
    let next = Place {
        at: tid(1, 3),
        list_at: tid(1, 4),
        version: 1,
    };
    let ask = put_ask(alloc)?;
    assert!(rt; said(alloc, &pages, &ask)? == (Word::Done, Making::At(next)));
    pages.redo_on(&mark(), &graph(), 8, 1)?;
    let again = Place {
        at: tid(1, 1),
        list_at: tid(1, 2),
        version: 4,
    };
    assert!(rt; said(alloc, &pages, &ask)? == (Word::Done, Making::At(again)));
    Ok(())
}

/// On new blocks; none is left behind 32,768.
#[test]
fn places_on_new_blocks(rt: HostRuntime) -> Result<(), Fail> {
    let alloc = rt.alloc();
    let pages = one_node(alloc)?;
    let ask = Ask::PutNew {
        node: new_node(alloc)?,
    };
    let fresh = Place {
        at: tid(2, 1),
        list_at: tid(2, 2),
        version: 1,
    };
    assert!(rt; said(alloc, &pages, &ask)? == (Word::Done, Making::At(fresh)));
    let mut told = Told::make(alloc, graph())?;
    let making = decide(&graph(), &pages, 32_768, &ask, &mut told);
    assert!(rt; making == Making::Nothing && told.word == Word::Full);
    assert!(rt; told.blocks == 32_768 && told.need == 1);
    Ok(())
}

#[test]
fn a_row_joins(rt: HostRuntime) -> Result<(), Fail> {
    let alloc = rt.alloc();
    let mut pages = one_node(alloc)?;
    assert!(rt; said(alloc, &pages, &join(3))? == (Word::Done, Making::Asked));
    assert!(rt; said(alloc, &pages, &join(2))? == (Word::Stale, Making::Nothing));
    let drop = Ask::Drop {
        at: tid(1, 1),
        version: 3,
        gone: 1,
    };
    assert!(rt; said(alloc, &pages, &drop)? == (Word::Done, Making::Asked));
    let gone = Event::Drop {
        at: tid(1, 1),
        version: 3,
        gone: 1,
    };
    pages.redo_on(&gone, &graph(), 8, 1)?;
    assert!(rt; said(alloc, &pages, &join(3))? == (Word::NotJoined, Making::Nothing));
    Ok(())
}

#[test]
fn a_slot_is_linked(rt: HostRuntime) -> Result<(), Fail> {
    let alloc = rt.alloc();
    let pages = one_node(alloc)?;
    let held = Some(tid(1, 9));
    assert!(rt; said(alloc, &pages, &link(3, held))? == (Word::Done, Making::Slot(0)));
    assert!(rt; said(alloc, &pages, &link(3, None))? == (Word::Changed, Making::Nothing));
    assert!(rt; said(alloc, &pages, &link(4, held))? == (Word::Stale, Making::Nothing));
    Ok(())
}

#[test]
fn a_node_is_marked_or_written_anew(rt: HostRuntime) -> Result<(), Fail> {
    let alloc = rt.alloc();
    let mut pages = one_node(alloc)?;
    let ask = Ask::Mark {
        at: tid(1, 1),
        list_at: tid(1, 2),
        version: 3,
    };
    let relist = Ask::Relist {
        at: tid(1, 1),
        list_at: tid(1, 2),
        version: 3,
        lists: slots(alloc)?,
    };
    assert!(rt; said(alloc, &pages, &ask)? == (Word::Done, Making::Asked));
    assert!(rt; said(alloc, &pages, &relist)? == (Word::Done, Making::Asked));
    pages.redo_on(&mark(), &graph(), 8, 1)?;
    assert!(rt; said(alloc, &pages, &ask)? == (Word::Stale, Making::Nothing));
    assert!(rt; said(alloc, &pages, &relist)? == (Word::Stale, Making::Nothing));
    Ok(())
}

/// A list grows behind a page that names no next block, by the next of all blocks.
#[test]
fn rows_of_lists(rt: HostRuntime) -> Result<(), Fail> {
    let alloc = rt.alloc();
    let pages = two_pages(alloc, PageKind::IvfEntries)?;
    let mut told = Told::make(alloc, graph())?;
    let add = Ask::Add {
        block: 1,
        id: row(6),
        bits: value(alloc)?,
    };
    assert!(rt; decide(&lists(), &pages, 2, &add, &mut told) == Making::Asked);
    let extend = Ask::Extend {
        list: 0,
        last: 1,
        id: row(6),
        bits: value(alloc)?,
    };
    assert!(rt; decide(&lists(), &pages, 2, &extend, &mut told) == Making::Behind(2));
    assert!(rt; told.word == Word::Done && told.tid == Some(tid(2, 1)));
    Ok(())
}

#[test]
fn the_event_of_a_put(rt: HostRuntime) -> Result<(), Fail> {
    let place = Place {
        at: tid(1, 3),
        list_at: tid(1, 4),
        version: 1,
    };
    let event = event_of(put_ask(rt.alloc())?, Making::At(place));
    let Some(
        Event::Put {
            at,
            version,
            level,
            lists,
            ..
        },
    ) = event
    else {
        panic!(rt; "a node is put")
    };
    assert!(rt; at == tid(1, 3) && version == 1 && level == 0 && lists.len() == 4);
    assert!(rt; event_of(join(3), Making::Nothing).is_none());
    Ok(())
}
