//! A hundred acts, and their events done again to the pages before them.

use crate::change_tests::{new_node, tid};
use crate::core_tests::{core, graph, two_pages};
use page_bytes::{Page, PageKind};
use page_redo::redo;
use page_sets::PageList;
use std::alloc::Global;
use std::test::*;
use vec_board::Core;
use vec_history::{Act, Event, is_lasting};
use vec_names::HeapId;
use vec_steps::{Ask, Told};

/// Does this, whatever the pages say to it. What the rules do not allow is refused, and then nothing has changed.
fn ask(alloc: Global, core: &mut Core, pages: &mut PageList, mut ask: Ask) -> Result<(), Fail> {
    if core.summary().blocks as usize != pages.pages.len() {
        return Err(Fail::new("a page for each block"));
    }
    let mut told = Told::make(alloc, graph())?;
    let _ = core.change(7, &mut ask, &mut told, pages);
    Ok(())
}

/// A node behind the k others of block 2, the first on a new block.
fn put(alloc: Global, k: u16) -> Result<Ask, Fail> {
    let node = new_node(alloc)?;
    if k == 0 {
        return Ok(Ask::PutNew { node });
    }
    Ok(Ask::Put { block: 2, node })
}

fn join(k: u16) -> Ask {
    Ask::Join {
        at: tid(2, k / 2 * 2 + 1),
        version: 1,
        id: HeapId {
            block: u32::from(k),
            off: 1,
        },
    }
}

fn link(k: u16) -> Ask {
    let off = k.wrapping_mul(2).wrapping_add(1);
    Ask::Link {
        at: tid(2, off),
        list_at: tid(2, off.wrapping_add(1)),
        level: 0,
        version: 1,
        layer: 0,
        slot: k % 4,
        held: None,
        to: tid(2, k / 2 * 2 + 1),
    }
}

/// In turn: the rows of a node go, it is marked, and the entry point and the hint are set.
fn other(k: u16) -> Ask {
    let off = k % 64 / 4 * 8 + 1;
    match k % 4 {
        0 => Ask::Drop {
            at: tid(2, off),
            version: 1,
            gone: 1023,
        },
        1 => Ask::Mark {
            at: tid(2, off),
            list_at: tid(2, off.wrapping_add(1)),
            version: 1,
        },
        2 => Ask::Entry {
            to: Some(tid(2, k.wrapping_mul(2).wrapping_add(1))),
            level: 0,
        },
        _ => Ask::Hint { block: 2 },
    }
}

/// A page for each block that the event makes.
fn extend(pages: &mut Vec<Page>, event: &Event) -> Result<(), Fail> {
    if let Event::Put { at, .. } = event {
        if at.block as usize == pages.len() {
            pages.push(Page::fresh(PageKind::Hnsw))?;
        }
    }
    Ok(())
}

/// Does the event of this number to the page of a block, where it touches it.
fn redo_on(event: &Event, number: u64, block: u32, pages: &mut Vec<Page>) {
    if let Some(page) = pages.get_mut(block as usize) {
        let _ = redo(event, &graph(), 255, number, block, page);
    }
}

/// The pages of the empty index, on which the lasting events were done one after the other, the first with the number 5.
fn replayed(alloc: Global, acts: &[Act]) -> Result<Vec<Page>, Fail> {
    let PageList { mut pages } = two_pages(alloc)?;
    let mut number: u64 = 5;
    for act in acts {
        if is_lasting(&act.event) {
            extend(&mut pages, &act.event)?;
            for block in 0..3u32 {
                redo_on(&act.event, number, block, &mut pages);
            }
            number = number.wrapping_add(1);
        }
    }
    Ok(pages)
}

/// Whether both have the same bytes on each page.
fn are_same(a: &[Page], b: &[Page]) -> bool {
    if a.len() != b.len() {
        return false;
    }
    for block in 0..a.len() {
        if a[block].bytes() != b[block].bytes() {
            return false;
        }
    }
    true
}

#[test]
fn a_hundred_acts_are_replayed(rt: HostRuntime) -> Result<(), Fail> {
    let alloc = rt.alloc();
    let mut pages = two_pages(alloc)?;
    let mut core = core(alloc, 0);
    for k in 0..40u16 {
        ask(alloc, &mut core, &mut pages, put(alloc, k)?)?;
        ask(alloc, &mut core, &mut pages, join(k))?;
        ask(alloc, &mut core, &mut pages, link(k))?;
        ask(alloc, &mut core, &mut pages, other(k))?;
    }
    assert!(rt; core.acts().len() >= 100 && pages.pages.len() == 3);
    let again = replayed(alloc, core.acts())?;
    assert!(rt; are_same(pages.pages.as_slice(), again.as_slice()));
    Ok(())
}
