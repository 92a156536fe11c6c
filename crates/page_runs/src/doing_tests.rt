ghost use Rattle.std.specs.Prelude.{◌≡◌, ◌≤◌, ◌-◌, IfOk, vec_len, vec_capacity};

use bit_code::read_bits;
use page_bytes::{Page, PageKind};
use page_redo::RedoFault;
use page_sets::{PageList, PageSet, commit};
use std::alloc::Global;
use std::test::*;
use vec_history::Event;
use vec_names::{HeapId, Kind, Listed, Ops, Params, Tid};

/// A graph of values of four bits with m 2.
const GRAPH: Params = Params {
    kind: Kind::Hnsw,
    ops: Ops::Hamming,
    bits: 4,
    m: 2,
    ef: 4,
    lists: 0,
};

/// The meta tuple of that graph without an entry point, with the hint 1.
const META: [u8; 32] = [
    0x56, 0x54, 0x49, 0x42, 2, 0, 1, 1, 4, 0, 0, 0, 2, 0, 4, 0, 0, 0, 0, 0, 255, 255, 255, 255, 0,
    0, 0, 0, 1, 0, 0, 0,
];

/// The pages of an empty index, with room for two more.
fn empty(alloc: Global) -> Result<PageList, Fail>
    ensures long { IfOk result (λ list. vec_len list.pages ≡ 1) }
    ensures room { IfOk result (λ list. 2 ≤ vec_capacity list.pages - vec_len list.pages) }
{
    let mut root = Page::fresh(PageKind::Meta);
    let _ = root.add_item(&META);
    let mut pages = Vec::new(alloc);
    pages.push(root)?;
    let mut list = PageList { pages };
    list.reserve(2)?;
    Ok(list)
}

// A node comes on a new block, and the page of block 0 stays.
#[test]
fn a_first_node(rt: HostRuntime) -> Result<(), Fail> {
    let alloc = rt.alloc();
    let mut list = empty(alloc)?;
    let mut lists = Listed::new(alloc);
    for _ in 0..4 {
        lists.push(None)?;
    }
    let put = Event::Put {
        at: Tid { block: 1, off: 1 },
        list_at: Tid { block: 1, off: 2 },
        version: 1,
        level: 0,
        id: HeapId { block: 1, off: 1 },
        bits: read_bits(alloc, "0110")?,
        lists,
    };
    assert!(rt; commit(&put, &GRAPH, 7, 1, &mut list).is_ok());
    assert!(rt; list.pages.len() == 2);
    assert!(rt; list.pages[1].count() == 2 && list.pages[1].number() == 7);
    assert!(rt; list.pages[0].number() == 0);
    Ok(())
}

// There is no node to which a row could be joined.
#[test]
fn a_page_without_the_node(rt: HostRuntime) -> Result<(), Fail> {
    let mut list = empty(rt.alloc())?;
    let join = Event::Join {
        at: Tid { block: 0, off: 1 },
        version: 1,
        id: HeapId { block: 1, off: 1 },
    };
    assert!(rt;
        matches!(
            commit(&join, &GRAPH, 7, 1, &mut list),
            Err(RedoFault::Unfit)
        )
    );
    let mut again = empty(rt.alloc())?;
    assert!(rt; commit(&Event::Hint { block: 1 }, &GRAPH, 7, 1, &mut again).is_ok());
    assert!(rt; again.pages[0].number() == 7);
    Ok(())
}
