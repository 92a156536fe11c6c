//! Pages that stand for an index of lists, and pages that break each of the rules.

use crate::{
    follows, ivf_of, law_add, law_allowed, law_blocks, law_drop, law_examples, law_grow, law_hint,
    law_legal_replay, law_pages, law_redo, law_replay, law_room, law_root, law_standing,
};
use bit_code::{Bits, read_bits};
use ivf_graph::IvfList;
use page_bytes::{Page, PageKind};
use page_redo::{GraphFault, redo};
use std::alloc::Global;
use std::test::*;
use vec_history::Event;
use vec_names::{HeapId, Kind, Listed, Ops, Params};
use vec_tuples::{CentreTuple, EntryRow, write_centre, write_entry};

/// The worked index: three lists of values of four places.
const SMALL: Params = Params {
    kind: Kind::Ivf,
    ops: Ops::Hamming,
    bits: 4,
    m: 0,
    ef: 0,
    lists: 3,
};

// ---- the worked index

/// The bytes of the index: its meta tuple, the tuples of its lists, its rows 1/1, 1/3, 1/4 and 1/2, and the blocks that the
/// pages 2, 3 and 4 name as their next ones, 0 for none.
#[derive(Clone, Copy)]
struct Parts {
    meta: [u8; 32],
    lists: [[u8; 21]; 3],
    rows: [[u8; 17]; 4],
    nexts: [u8; 3],
}

/// The list tuple with a first block, an aim and the byte of its centre.
const fn list_tuple(first: u8, aim: u8, centre: u8) -> [u8; 21] {
    [
        first, 0, 0, 0, aim, 0, 0, 0, 0, 0, 0, 0, 0x24, 0, 0, 0, 4, 0, 0, 0, centre,
    ]
}

/// The entry of a row of the table's block 1, with the byte of its value.
const fn entry(off: u8, value: u8) -> [u8; 17] {
    [0, 0, 1, 0, off, 0, 0, 0, 0x24, 0, 0, 0, 4, 0, 0, 0, value]
}

/// Five blocks: list 0 with the centre 0000 on block 2, list 1 with 1110 on block 3, list 2 with 0001 on block 4.
fn worked() -> Parts {
    Parts {
        meta: [
            0x56, 0x54, 0x49, 0x42, 2, 0, 2, 1, 4, 0, 0, 0, 0, 0, 0, 0, 3, 0, 0, 0, 255, 255, 255,
            255, 0, 0, 0, 0, 0, 0, 0, 0,
        ],
        lists: [
            list_tuple(2, 2, 0),
            list_tuple(3, 3, 0xE0),
            list_tuple(4, 4, 0x10),
        ],
        rows: [entry(1, 0), entry(3, 0xF0), entry(4, 0xE0), entry(2, 0x10)],
        nexts: [0, 0, 0],
    }
}

/// A part of that index.
#[derive(Clone, Copy)]
enum Part {
    Meta,
    List0,
    List1,
    List2,
    Row1,
    Row4,
    Next2,
    Next3,
    Next4,
}

/// The bytes with another byte at a place.
fn with_byte<const N: usize>(bytes: [u8; N], at: usize, byte: u8) -> [u8; N] {
    let mut bytes = bytes;
    if let Some(there) = bytes.get_mut(at) {
        *there = byte;
    }
    bytes
}

/// The parts with another byte at a place of one of them.
fn changed(parts: Parts, part: Part, at: usize, byte: u8) -> Parts {
    let [list0, list1, list2] = parts.lists;
    let [row1, row3, row4, row2] = parts.rows;
    let [next2, next3, next4] = parts.nexts;
    match part {
        Part::Meta => Parts {
            meta: with_byte(parts.meta, at, byte),
            ..parts
        },
        Part::List0 => Parts {
            lists: [with_byte(list0, at, byte), list1, list2],
            ..parts
        },
        Part::List1 => Parts {
            lists: [list0, with_byte(list1, at, byte), list2],
            ..parts
        },
        Part::List2 => Parts {
            lists: [list0, list1, with_byte(list2, at, byte)],
            ..parts
        },
        Part::Row1 => Parts {
            rows: [with_byte(row1, at, byte), row3, row4, row2],
            ..parts
        },
        Part::Row4 => Parts {
            rows: [row1, row3, with_byte(row4, at, byte), row2],
            ..parts
        },
        Part::Next2 => Parts {
            nexts: [byte, next3, next4],
            ..parts
        },
        Part::Next3 => Parts {
            nexts: [next2, byte, next4],
            ..parts
        },
        Part::Next4 => Parts {
            nexts: [next2, next3, byte],
            ..parts
        },
    }
}

/// A page of entries with a next block, 0 for none.
fn entries(next: u8) -> Page {
    let mut page = Page::fresh(PageKind::IvfEntries);
    if next > 0 {
        page.set_next(Some(u32::from(next)));
    }
    page
}

/// The pages of these parts, the first two of these kinds, and one page more.
fn pages_of(kinds: [PageKind; 2], parts: &Parts, last: Page) -> [Page; 6] {
    let [list0, list1, list2] = parts.lists;
    let [row1, row3, row4, row2] = parts.rows;
    let [next2, next3, next4] = parts.nexts;
    let mut meta = Page::fresh(kinds[0]);
    meta.add_item(&parts.meta);
    let mut lists = Page::fresh(kinds[1]);
    lists.add_item(&list0);
    lists.add_item(&list1);
    lists.add_item(&list2);
    let mut two = entries(next2);
    two.add_item(&row1);
    let mut three = entries(next3);
    three.add_item(&row3);
    three.add_item(&row4);
    let mut four = entries(next4);
    four.add_item(&row2);
    [meta, lists, two, three, four, last]
}

const KINDS: [PageKind; 2] = [PageKind::Meta, PageKind::IvfLists];

/// The block that breaks a rule, or None where the pages stand for an index.
fn broken_of(alloc: Global, pages: &[Page]) -> Result<Option<u32>, GraphFault> {
    if pages.len() > 6 {
        return Err(GraphFault::Memory);
    }
    match ivf_of(alloc, pages) {
        Ok(_) => Ok(None),
        Err(GraphFault::Bad { block }) => Ok(Some(block)),
        Err(GraphFault::Memory) => Err(GraphFault::Memory),
    }
}

/// The same of the five pages of these parts.
fn broken(alloc: Global, kinds: [PageKind; 2], parts: &Parts) -> Result<Option<u32>, GraphFault> {
    let pages = pages_of(kinds, parts, entries(0));
    broken_of(alloc, &pages[..5])
}

/// A row of the table's block 1.
fn row(off: u16) -> HeapId {
    HeapId {
        block: 1,
        off: off.max(1),
    }
}

/// Whether the list has this centre and this aim, and one block with rows of these offsets in the table.
fn is_list(list: &IvfList, centre: u8, aim: u32, rows: &[u16]) -> bool {
    let [(block, there)] = list.chain.as_slice() else {
        return false;
    };
    if there.len() != rows.len() || *block != aim {
        return false;
    }
    for (found, off) in there.as_slice().iter().zip(rows) {
        if found.0 != row(*off) {
            return false;
        }
    }
    list.centre.bytes() == [centre].as_slice() && list.aim == aim
}

#[test]
fn the_worked_index(rt: HostRuntime) -> Result<(), Fail> {
    let pages = pages_of(KINDS, &worked(), entries(0));
    let index = ivf_of(rt.alloc(), &pages[..5])?;
    assert!(rt; index.blocks == 5);
    let [zero, one, two] = index.lists.as_slice() else {
        panic!(rt; "there are not three lists")
    };
    assert!(rt; is_list(zero, 0, 2, &[1]));
    assert!(rt; is_list(one, 0xE0, 3, &[3, 4]));
    assert!(rt; is_list(two, 0x10, 4, &[2]));
    Ok(())
}

// ---- each rule broken

#[test]
fn a_byte_that_breaks_a_rule(rt: HostRuntime) -> Result<(), Fail> {
    // The part, the byte and its value, and the block that breaks a rule.
    for (part, at, byte, block) in [
        // The magic number is another, the format is, the kind is that of a graph, and there is a hint.
        (Part::Meta, 0, 0, Some(0)),
        (Part::Meta, 4, 1, None),
        (Part::Meta, 6, 1, Some(0)),
        (Part::Meta, 28, 1, Some(0)),
        // A list more and one less than there are tuples; values of another length.
        (Part::Meta, 16, 4, Some(1)),
        (Part::Meta, 16, 2, Some(1)),
        (Part::Meta, 8, 5, Some(1)),
        // A first block that is not there, and one without entries; an aim in another chain; no list tuple.
        (Part::List0, 0, 9, Some(1)),
        (Part::List1, 0, 1, Some(1)),
        (Part::List2, 0, 3, Some(1)),
        (Part::List0, 4, 3, Some(1)),
        (Part::List1, 8, 1, Some(1)),
        // An item that is no entry, the only one and the last.
        (Part::Row1, 4, 0, Some(2)),
        (Part::Row4, 6, 1, Some(3)),
        // A next block that another chain has, itself, without entries, not there; that of a lower block.
        (Part::Next2, 0, 3, Some(3)),
        (Part::Next2, 0, 2, Some(2)),
        (Part::Next3, 0, 1, Some(3)),
        (Part::Next4, 0, 9, Some(4)),
        (Part::Next3, 0, 2, Some(2)),
    ] {
        let parts = changed(worked(), part, at, byte);
        assert!(rt; broken(rt.alloc(), KINDS, &parts)? == block);
    }
    Ok(())
}

#[test]
fn kinds_that_break_a_rule(rt: HostRuntime) -> Result<(), Fail> {
    for (first, second, block) in [
        (PageKind::Meta, PageKind::IvfLists, None),
        (PageKind::IvfLists, PageKind::IvfLists, Some(0)),
        (PageKind::Meta, PageKind::IvfEntries, Some(1)),
        (PageKind::Meta, PageKind::Hnsw, Some(1)),
    ] {
        assert!(rt; broken(rt.alloc(), [first, second], &worked())? == block);
    }
    Ok(())
}

/// The block that breaks a rule where block 2 names one, and a sixth page of some kind names another, 0 for none.
fn broken_with(
    alloc: Global,
    from_2: u8,
    kind: PageKind,
    from_5: u8,
) -> Result<Option<u32>, GraphFault> {
    let parts = changed(worked(), Part::Next2, 0, from_2);
    let last = match kind {
        PageKind::IvfEntries => entries(from_5),
        kind => Page::fresh(kind),
    };
    broken_of(alloc, &pages_of(KINDS, &parts, last))
}

#[test]
fn chains_that_break_a_rule(rt: HostRuntime) -> Result<(), Fail> {
    for (from_2, kind, from_5, block) in [
        // A page more in no chain, and in that of list 0, which it ends.
        (0, PageKind::IvfEntries, 0, Some(5)),
        (5, PageKind::IvfEntries, 0, None),
        // A ring: the page that closes it breaks the rule, and not the one that the chain comes back to.
        (5, PageKind::IvfEntries, 2, Some(5)),
        (5, PageKind::IvfEntries, 5, Some(5)),
        // It leads into another chain: the block that both have.
        (5, PageKind::IvfEntries, 3, Some(3)),
        // A page of a graph, in no chain and named by one.
        (0, PageKind::Hnsw, 0, Some(5)),
        (5, PageKind::Hnsw, 0, Some(2)),
    ] {
        assert!(rt; broken_with(rt.alloc(), from_2, kind, from_5)? == block);
    }
    Ok(())
}

/// Three lists by their first blocks and aims, and the blocks that the pages 2 to 5 name as their next ones, 0 for none.
#[derive(Clone, Copy)]
struct Chains {
    firsts: [u8; 3],
    aims: [u8; 3],
    nexts: [u8; 4],
}

/// The block that breaks a rule where the lists have such chains.
fn broken_by_chains(alloc: Global, chains: &Chains) -> Result<Option<u32>, GraphFault> {
    let [first0, first1, first2] = chains.firsts;
    let [aim0, aim1, aim2] = chains.aims;
    let [next2, next3, next4, next5] = chains.nexts;
    let parts = Parts {
        lists: [
            list_tuple(first0, aim0, 0),
            list_tuple(first1, aim1, 0xE0),
            list_tuple(first2, aim2, 0x10),
        ],
        nexts: [next2, next3, next4],
        ..worked()
    };
    broken_of(alloc, &pages_of(KINDS, &parts, entries(next5)))
}

/// Blocks 4 and 5 are a ring, which the chains of three lists enter: 2, 4, 5 and 3, 5, 4 and 4, 5.
const ONE_RING: Chains = Chains {
    firsts: [2, 3, 4],
    aims: [2, 3, 4],
    nexts: [4, 5, 5, 4],
};

#[test]
fn chains_that_enter_one_ring(rt: HostRuntime) -> Result<(), Fail> {
    for (aims, block) in [
        // The lowest block that two chains have, also where the aims stand behind the block at which a chain meets another.
        ([2, 3, 4], Some(4)),
        ([5, 4, 5], Some(4)),
        // An aim before the ring, in the chain of another list; and one without entries.
        ([3, 3, 4], Some(1)),
        ([2, 2, 4], Some(1)),
        ([2, 3, 3], Some(1)),
        ([2, 1, 4], Some(1)),
    ] {
        let chains = Chains { aims, ..ONE_RING };
        assert!(rt; broken_by_chains(rt.alloc(), &chains)? == block);
    }
    Ok(())
}

/// Chains that meet one another otherwise, and the lowest block that breaks a rule.
const MEETING: [(Chains, u32); 4] = [
    // A ring of 2 and 3, into which block 4 leads.
    (
        Chains {
            firsts: [2, 4, 5],
            aims: [2, 2, 5],
            nexts: [3, 2, 3, 0],
        },
        2,
    ),
    // A ring of 4 and 5 in one chain alone, which begins at 5: block 4 closes it.
    (
        Chains {
            firsts: [5, 3, 2],
            aims: [4, 3, 2],
            nexts: [0, 0, 5, 4],
        },
        4,
    ),
    // Three chains that share their last block alone.
    (
        Chains {
            firsts: [4, 3, 2],
            aims: [4, 3, 5],
            nexts: [5, 5, 5, 0],
        },
        5,
    ),
    // The same, where its page names a block that is not there.
    (
        Chains {
            firsts: [4, 3, 2],
            aims: [5, 5, 2],
            nexts: [5, 5, 5, 9],
        },
        5,
    ),
];

#[test]
fn chains_that_meet(rt: HostRuntime) -> Result<(), Fail> {
    for (chains, block) in MEETING {
        assert!(rt; broken_by_chains(rt.alloc(), &chains)? == Some(block));
    }
    Ok(())
}

#[test]
fn pages_that_are_missing(rt: HostRuntime) -> Result<(), Fail> {
    let alloc = rt.alloc();
    let none: [Page; 0] = [];
    assert!(rt; broken_of(alloc, &none)? == Some(0));

    // The block of the list tuples would be the next of all. Of four pages a list has no first block.
    let pages = pages_of(KINDS, &worked(), entries(0));
    assert!(rt; broken_of(alloc, &pages[..1])? == Some(1));
    assert!(rt; broken_of(alloc, &pages[..4])? == Some(1));
    Ok(())
}

/// The block that breaks a rule where one of the pages has one item more.
fn broken_by(alloc: Global, block: usize, item: &[u8]) -> Result<Option<u32>, GraphFault> {
    let mut pages = pages_of(KINDS, &worked(), entries(0));
    if let Some(page) = pages.get_mut(block) {
        page.set_number(7);
        if !item.is_empty() && item.len() <= 81 {
            page.add_item(item);
        }
    }
    broken_of(alloc, &pages[..5])
}

#[test]
fn items_that_break_a_rule(rt: HostRuntime) -> Result<(), Fail> {
    let alloc = rt.alloc();
    assert!(rt; broken_by(alloc, 0, &[9])? == Some(0));
    assert!(rt; broken_by(alloc, 1, &list_tuple(2, 2, 0))? == Some(1));
    assert!(rt; broken_by(alloc, 4, &list_tuple(2, 2, 0))? == Some(4));
    assert!(rt; broken_by(alloc, 4, &entry(9, 0xF0))? == None);
    assert!(rt; broken_by(alloc, 3, &[])? == None);
    Ok(())
}

// ---- values of 64,000 places

const WIDE_META: [u8; 32] = [
    0x56, 0x54, 0x49, 0x42, 2, 0, 2, 1, 0, 0xFA, 0, 0, 0, 0, 0, 0, 2, 0, 0, 0, 255, 255, 255, 255,
    0, 0, 0, 0, 0, 0, 0, 0,
];

/// A page of this kind with one item, where that fits.
fn page_with(kind: PageKind, item: &[u8]) -> Page {
    let mut page = Page::fresh(kind);
    if !item.is_empty() && item.len() <= 8_020 {
        page.add_item(item);
    }
    page
}

/// The page of a list of zeros that begins at a block and aims at it.
fn wide_list(alloc: Global, first: u32) -> Result<Page, Fail> {
    let mut bytes = Vec::new(alloc);
    let tuple = CentreTuple {
        first,
        aim: first,
        bits: Bits::zeros(alloc, 64_000)?,
    };
    write_centre(&tuple, &mut bytes)?;
    Ok(page_with(PageKind::IvfLists, bytes.as_slice()))
}

fn wide_row(alloc: Global, off: u16) -> Result<Page, Fail> {
    let mut bytes = Vec::new(alloc);
    let entry = EntryRow {
        id: row(off),
        bits: Bits::zeros(alloc, 64_000)?,
    };
    write_entry(&entry, &mut bytes)?;
    Ok(page_with(PageKind::IvfEntries, bytes.as_slice()))
}

#[test]
fn lists_with_a_block_each(rt: HostRuntime) -> Result<(), Fail> {
    let alloc = rt.alloc();
    let pages = [
        page_with(PageKind::Meta, &WIDE_META),
        wide_list(alloc, 3)?,
        wide_list(alloc, 4)?,
        wide_row(alloc, 1)?,
        wide_row(alloc, 2)?,
    ];
    let index = ivf_of(alloc, &pages)?;
    let [zero, one] = index.lists.as_slice() else {
        panic!(rt; "there are not two lists")
    };
    assert!(rt; index.blocks == 5 && zero.aim == 3 && one.aim == 4);
    assert!(rt; zero.centre.count() == 64_000 && zero.chain.len() == 1 && one.chain.len() == 1);
    Ok(())
}

/// A page of entries where a page of list tuples should be: the list that begins there has its chain, and that page is broken alone.
#[test]
fn a_chain_is_told_by_kinds(rt: HostRuntime) -> Result<(), Fail> {
    let alloc = rt.alloc();
    let pages = [
        page_with(PageKind::Meta, &WIDE_META),
        wide_list(alloc, 2)?,
        wide_row(alloc, 1)?,
    ];
    assert!(rt; broken_of(alloc, &pages)? == Some(2));
    Ok(())
}

// ---- events

/// Whether the event is redone on the page of a block of the worked index.
fn is_redone(event: &Event, block: u32, page: &mut Page) -> bool {
    if !SMALL.check() {
        return false;
    }
    redo(event, &SMALL, 255, 7, block, page).is_ok()
}

#[test]
fn redo_is_the_effect_on_the_index(rt: HostRuntime) -> Result<(), Fail> {
    let alloc = rt.alloc();
    let mut pages = pages_of(KINDS, &worked(), entries(0));
    let grow = Event::IvfGrow {
        list: 0,
        last: 2,
        block: 5,
        id: row(5),
        bits: read_bits(alloc, "0110")?,
    };
    let hint = Event::IvfHint { list: 0, block: 5 };
    assert!(rt; is_redone(&grow, 2, &mut pages[2]) && is_redone(&grow, 5, &mut pages[5]));
    assert!(rt; is_redone(&hint, 1, &mut pages[1]));
    let index = ivf_of(alloc, &pages)?;
    let Some(list) = index.lists.get(0) else {
        panic!(rt; "there is no list 0")
    };
    let [(first, _), (second, rows)] = list.chain.as_slice() else {
        panic!(rt; "there are not two blocks")
    };
    assert!(rt; index.blocks == 6 && list.aim == 5 && *first == 2 && *second == 5);
    assert!(rt; rows.len() == 1 && rows.get(0).is_some_and(|found| found.0 == row(5)));
    Ok(())
}

/// Whether the event follows on the worked index with block 5 behind block 2.
fn is_next(event: &Event) -> bool {
    if !SMALL.check() {
        return false;
    }
    let parts = changed(worked(), Part::Next2, 0, 5);
    follows(event, &SMALL, &pages_of(KINDS, &parts, entries(0)))
}

#[test]
fn growths_that_follow(rt: HostRuntime) -> Result<(), Fail> {
    // The list, the block behind which it grows, the new block, and whether it follows.
    for (list, last, block, is) in [
        (0, 5, 6, true),
        (1, 3, 6, true),
        // Not the last block of the chain, that of another list, none; an old block, and one further.
        (0, 2, 6, false),
        (0, 3, 6, false),
        (2, 9, 6, false),
        (2, 4, 5, false),
        (2, 4, 7, false),
        // There is no such list.
        (3, 4, 6, false),
    ] {
        let event = Event::IvfGrow {
            list,
            last,
            block,
            id: row(1),
            bits: read_bits(rt.alloc(), "0000")?,
        };
        assert!(rt; is_next(&event) == is);
    }
    Ok(())
}

#[test]
fn other_events_that_follow(rt: HostRuntime) -> Result<(), Fail> {
    let alloc = rt.alloc();

    // The list, its aim, and whether it follows.
    for (list, block, is) in [
        (0, 2, true),
        (0, 5, true),
        (1, 3, true),
        (0, 3, false),
        (1, 1, false),
        (2, 9, false),
        (3, 4, false),
    ] {
        assert!(rt; is_next(&Event::IvfHint { list, block }) == is);
    }
    let add = Event::IvfAdd {
        block: 9,
        id: row(1),
        bits: read_bits(alloc, "0000")?,
    };
    let drop = Event::IvfDrop {
        block: 9,
        gone: Listed::new(alloc),
    };
    assert!(rt; is_next(&add) && is_next(&drop));
    assert!(rt; !is_next(&Event::Hint { block: 1 }) && !is_next(&Event::VacuumEnd));
    Ok(())
}

// ---- laws

#[test]
fn laws_are_called(_rt: HostRuntime) -> Result<(), Fail> {
    law_standing();
    law_examples();
    law_add();
    law_drop();
    law_hint();
    law_grow();
    law_redo();
    law_root();
    law_room();
    law_blocks();
    law_pages();
    law_allowed();
    law_replay();
    law_legal_replay();
    Ok(())
}
