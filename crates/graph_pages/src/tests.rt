//! Pages that stand for a graph, and pages that break each of the rules.

use crate::{
    GraphFault, follows, graph_of, law_blocks, law_drop, law_drop_fits, law_entry, law_entry_fits,
    law_format, law_fresh, law_hint, law_hint_fits, law_join, law_join_fits, law_link,
    law_link_fits, law_mark, law_mark_fits, law_once, law_one_block, law_other_format, law_pages,
    law_put_again, law_put_again_fits, law_put_fresh_fits, law_put_new, law_put_new_fits, law_redo,
    law_relist, law_relist_fits, law_reuse, law_room, law_standing,
};
use bit_code::{Bits, read_bits};
use page_bytes::{Page, PageKind};
use page_redo::redo;
use std::alloc::Global;
use std::test::*;
use vec_graph::Node;
use vec_history::Event;
use vec_names::{HeapId, Kind, Listed, Ops, Params, Tid};

/// A graph of four places with m 2.
const GRAPH: Params = Params {
    kind: Kind::Hnsw,
    ops: Ops::Hamming,
    bits: 4,
    m: 2,
    ef: 4,
    lists: 0,
};

/// The element at 1/1 of the row 1/1 with the value 0000, its list at 1/2.
const ELEMENT: [u8; 81] = [
    1, 0, 0, 1, 0, 0, 1, 0, 1, 0, 255, 255, 255, 255, 0, 0, 255, 255, 255, 255, 0, 0, 255, 255,
    255, 255, 0, 0, 255, 255, 255, 255, 0, 0, 255, 255, 255, 255, 0, 0, 255, 255, 255, 255, 0, 0,
    255, 255, 255, 255, 0, 0, 255, 255, 255, 255, 0, 0, 255, 255, 255, 255, 0, 0, 0, 0, 1, 0, 2, 0,
    0, 0, 0x24, 0, 0, 0, 4, 0, 0, 0, 0,
];

/// Its four slots.
const SLOTS: [u8; 28] = [
    2, 1, 4, 0, 255, 255, 255, 255, 0, 0, 255, 255, 255, 255, 0, 0, 255, 255, 255, 255, 0, 0, 255,
    255, 255, 255, 0, 0,
];

/// The meta tuple of that graph without an entry point, with the hint 1.
const META: [u8; 32] = [
    0x56, 0x54, 0x49, 0x42, 2, 0, 1, 1, 4, 0, 0, 0, 2, 0, 4, 0, 0, 0, 0, 0, 255, 255, 255, 255, 0,
    0, 0, 0, 1, 0, 0, 0,
];

/// A graph of 64,000 places with m 16.
const WIDE: Params = Params {
    kind: Kind::Hnsw,
    ops: Ops::Hamming,
    bits: 64000,
    m: 16,
    ef: 64,
    lists: 0,
};

/// The meta tuple of that graph, in the same way.
const WIDE_META: [u8; 32] = [
    0x56, 0x54, 0x49, 0x42, 2, 0, 1, 1, 0, 0xFA, 0, 0, 16, 0, 64, 0, 0, 0, 0, 0, 255, 255, 255,
    255, 0, 0, 0, 0, 1, 0, 0, 0,
];

fn place(off: u16) -> Tid {
    Tid {
        block: 1,
        off: off.max(1),
    }
}

fn row(off: u16) -> HeapId {
    HeapId {
        block: 1,
        off: off.max(1),
    }
}

/// So many empty slots.
fn slots(alloc: Global, count: usize) -> Result<Listed<Option<Tid>>, Fail> {
    let mut slots = Listed::new(alloc);
    for _ in 0..count {
        slots.push(None)?;
    }
    Ok(slots)
}

/// The event of a new node at 1/1 of level 0 with the value 0000.
fn put(alloc: Global, list_at: Tid) -> Result<Event, Fail> {
    Ok(Event::Put {
        at: place(1),
        list_at,
        version: 1,
        level: 0,
        id: row(1),
        bits: read_bits(alloc, "0000")?,
        lists: slots(alloc, 4)?,
    })
}

/// Whether the event is redone on the page of a block of that graph.
fn is_redone(event: &Event, block: u32, page: &mut Page) -> bool {
    is_redone_in(&GRAPH, event, block, page)
}

/// The same of any graph.
fn is_redone_in(params: &Params, event: &Event, block: u32, page: &mut Page) -> bool {
    if !params.check() {
        return false;
    }
    redo(event, params, 255, 7, block, page).is_ok()
}

/// The parts of a small index: the meta tuple with the entry 1/1, the element 1/1 with its list 1/2, and the element 2/1
/// with its list 1/3, whose first slot names 2/1.
#[derive(Clone, Copy)]
struct Parts {
    meta: [u8; 32],
    element: [u8; 81],
    list: [u8; 28],
    other_list: [u8; 28],
    other_element: [u8; 81],
}

/// A part of that index.
#[derive(Clone, Copy)]
enum Part {
    Meta,
    Element,
    List,
    OtherList,
    OtherElement,
}

/// The bytes with another byte at a place.
fn with_byte<const N: usize>(bytes: [u8; N], at: usize, byte: u8) -> [u8; N] {
    let mut bytes = bytes;
    if let Some(there) = bytes.get_mut(at) {
        *there = byte;
    }
    bytes
}

/// The bytes with a place from 0/0 to 255/255 in six of them.
fn with_place<const N: usize>(bytes: [u8; N], at: usize, block: u8, off: u8) -> [u8; N] {
    let mut bytes = bytes;
    if at < 100 {
        for (i, byte) in [0, 0, block, 0, off, 0].iter().enumerate() {
            if let Some(there) = bytes.get_mut(at + i) {
                *there = *byte;
            }
        }
    }
    bytes
}

fn small_index() -> Parts {
    Parts {
        meta: with_place(META, 20, 1, 1),
        element: ELEMENT,
        list: SLOTS,
        other_list: with_place(SLOTS, 4, 2, 1),
        other_element: with_place(ELEMENT, 64, 1, 3),
    }
}

/// The parts with another byte at a place of one of them.
fn changed(part: Part, at: usize, byte: u8) -> Parts {
    let parts = small_index();
    match part {
        Part::Meta => Parts {
            meta: with_byte(parts.meta, at, byte),
            ..parts
        },
        Part::Element => Parts {
            element: with_byte(parts.element, at, byte),
            ..parts
        },
        Part::List => Parts {
            list: with_byte(parts.list, at, byte),
            ..parts
        },
        Part::OtherList => Parts {
            other_list: with_byte(parts.other_list, at, byte),
            ..parts
        },
        Part::OtherElement => Parts {
            other_element: with_byte(parts.other_element, at, byte),
            ..parts
        },
    }
}

/// The pages of these parts, each of its kind.
fn pages_of(kinds: [PageKind; 3], parts: &Parts) -> [Page; 3] {
    let mut meta = Page::fresh(kinds[0]);
    meta.add_item(&parts.meta);
    let mut first = Page::fresh(kinds[1]);
    first.add_item(&parts.element);
    first.add_item(&parts.list);
    first.add_item(&parts.other_list);
    let mut second = Page::fresh(kinds[2]);
    second.add_item(&parts.other_element);
    [meta, first, second]
}

const KINDS: [PageKind; 3] = [PageKind::Meta, PageKind::Hnsw, PageKind::Hnsw];

/// The block that breaks a rule, or None where the pages stand for a graph.
fn broken(alloc: Global, pages: &[Page; 3]) -> Result<Option<u32>, GraphFault> {
    match graph_of(alloc, pages) {
        Ok(_) => Ok(None),
        Err(GraphFault::Bad { block }) => Ok(Some(block)),
        Err(GraphFault::Memory) => Err(GraphFault::Memory),
    }
}

/// Whether the node is that of `ELEMENT` and `SLOTS`.
fn is_node(node: &Node) -> bool {
    node.level == 0
        && node.version == 1
        && !node.deleted
        && node.bits.bytes() == [0u8].as_slice()
        && node.ids.as_slice() == [row(1)].as_slice()
        && node.list_at == place(2)
        && node.slots.as_slice() == [None, None, None, None].as_slice()
}

#[test]
fn the_graph_of_a_put(rt: HostRuntime) -> Result<(), Fail> {
    let alloc = rt.alloc();
    let mut meta = Page::fresh(PageKind::Meta);
    meta.add_item(&META);
    let mut first = Page::fresh(PageKind::Hnsw);
    let new = put(alloc, place(2))?;
    assert!(rt; is_redone(&new, 1, &mut first));
    let mut pages = [meta, first];
    let graph = graph_of(alloc, &pages)?;
    assert!(rt; graph.params == GRAPH && graph.entry.is_none() && graph.level == 0);
    assert!(rt; graph.hint == 1 && graph.blocks == 2 && graph.nodes.len() == 1);
    let Some(node) = graph.nodes.get(place(1)) else {
        panic!(rt; "no node stands at 1/1")
    };
    assert!(rt; is_node(node));
    let to = Some(place(1));
    assert!(rt; is_redone(&Event::Entry { to, level: 0 }, 0, &mut pages[0]));
    let graph = graph_of(alloc, &pages)?;
    assert!(rt; graph.entry == to && graph.level == 0 && graph.nodes.len() == 1);
    Ok(())
}

/// The page of block 0 alone.
#[test]
fn an_index_with_no_node(rt: HostRuntime) -> Result<(), Fail> {
    let mut meta = Page::fresh(PageKind::Meta);
    meta.add_item(&META);
    let graph = graph_of(rt.alloc(), &[meta])?;
    assert!(rt; graph.params == GRAPH && graph.entry.is_none() && graph.level == 0);
    assert!(rt; graph.hint == 1 && graph.blocks == 1 && graph.nodes.len() == 0);
    Ok(())
}

/// The element at 1/1, and its list at 2/1: put, and then marked.
#[test]
fn a_node_over_two_pages(rt: HostRuntime) -> Result<(), Fail> {
    let alloc = rt.alloc();
    let mut meta = Page::fresh(PageKind::Meta);
    meta.add_item(&META);
    let mut pages = [
        meta,
        Page::fresh(PageKind::Hnsw),
        Page::fresh(PageKind::Hnsw),
    ];
    let list_at = Tid { block: 2, off: 1 };
    let new = put(alloc, list_at)?;
    assert!(rt; is_redone(&new, 1, &mut pages[1]));

    // The element's list is not there yet.
    assert!(rt; broken(alloc, &pages)? == Some(1));
    assert!(rt; is_redone(&new, 2, &mut pages[2]));
    let graph = graph_of(alloc, &pages)?;
    let Some(node) = graph.nodes.get(place(1)) else {
        panic!(rt; "no node stands at 1/1")
    };
    assert!(rt; graph.blocks == 3 && node.list_at == list_at && !node.deleted);
    let mark = Event::Mark {
        at: place(1),
        list_at,
        version: 1,
    };
    assert!(rt; is_redone(&mark, 1, &mut pages[1]) && is_redone(&mark, 2, &mut pages[2]));
    let graph = graph_of(alloc, &pages)?;
    let Some(node) = graph.nodes.get(place(1)) else {
        panic!(rt; "no node stands at 1/1")
    };
    assert!(rt; node.deleted && node.version == 2 && node.ids.is_empty());
    assert!(rt; node.slots.as_slice() == [None, None, None, None].as_slice());
    Ok(())
}

/// An element of 64,000 places leaves no room for its list, which stands on the next page: put, and then marked.
#[test]
fn the_longest_node_over_two_pages(rt: HostRuntime) -> Result<(), Fail> {
    let alloc = rt.alloc();
    let mut meta = Page::fresh(PageKind::Meta);
    meta.add_item(&WIDE_META);
    let mut pages = [
        meta,
        Page::fresh(PageKind::Hnsw),
        Page::fresh(PageKind::Hnsw),
    ];
    let list_at = Tid { block: 2, off: 1 };
    let new = Event::Put {
        at: place(1),
        list_at,
        version: 1,
        level: 0,
        id: row(1),
        bits: Bits::zeros(alloc, 64000)?,
        lists: slots(alloc, 32)?,
    };
    assert!(rt; is_redone_in(&WIDE, &new, 1, &mut pages[1]));
    assert!(rt; is_redone_in(&WIDE, &new, 2, &mut pages[2]));
    let mark = Event::Mark {
        at: place(1),
        list_at,
        version: 1,
    };
    assert!(rt; is_redone_in(&WIDE, &mark, 1, &mut pages[1]));
    assert!(rt; is_redone_in(&WIDE, &mark, 2, &mut pages[2]));
    let graph = graph_of(alloc, &pages)?;
    let Some(node) = graph.nodes.get(place(1)) else {
        panic!(rt; "no node stands at 1/1")
    };
    assert!(rt; graph.blocks == 3 && node.deleted && node.version == 2);
    assert!(rt; node.bits.count() == 64000 && node.slots.len() == 32);
    Ok(())
}

#[test]
fn a_byte_that_breaks_a_rule(rt: HostRuntime) -> Result<(), Fail> {
    // The part, the byte and its value, and the block that breaks a rule.
    for (part, at, byte, block) in [
        // The magic number is another; the hint is the number of blocks, and one more.
        (Part::Meta, 0, 0, Some(0)),
        (Part::Meta, 28, 3, None),
        (Part::Meta, 28, 4, Some(0)),
        // The entry is 2/1; it is a list; it is on no block; the level is another.
        (Part::Meta, 22, 2, None),
        (Part::Meta, 24, 2, Some(0)),
        (Part::Meta, 22, 3, Some(0)),
        (Part::Meta, 26, 1, Some(0)),
        // An element of level 1, which has six slots: the entry's level is then another; and one on block 2.
        (Part::Element, 1, 1, Some(0)),
        (Part::OtherElement, 1, 1, Some(2)),
        // A list of another version, and that of a deleted element.
        (Part::List, 1, 2, Some(1)),
        (Part::OtherList, 1, 2, Some(2)),
        (Part::OtherElement, 3, 2, Some(2)),
        // The two elements name one list, and no element names the other; one names no list.
        (Part::OtherElement, 68, 2, Some(1)),
        (Part::OtherElement, 68, 4, Some(1)),
        (Part::Element, 68, 3, Some(1)),
        // An item that is neither an element nor a list, so that another list is not named.
        (Part::OtherElement, 0, 5, Some(1)),
        (Part::OtherList, 0, 5, Some(1)),
        // A slot names an offset where nothing stands, which is no matter; and a block that is not there.
        (Part::OtherList, 8, 9, None),
        (Part::OtherList, 6, 3, Some(1)),
    ] {
        let pages = pages_of(KINDS, &changed(part, at, byte));
        assert!(rt; broken(rt.alloc(), &pages)? == block);
    }
    Ok(())
}

/// The block that breaks a rule where the pages of the small index are of these kinds.
fn broken_of_kinds(alloc: Global, kinds: [PageKind; 3]) -> Result<Option<u32>, GraphFault> {
    broken(alloc, &pages_of(kinds, &small_index()))
}

/// The block that breaks a rule where a page of the small index has one item more, and any number.
fn broken_with(alloc: Global, block: usize, item: &[u8]) -> Result<Option<u32>, GraphFault> {
    let mut pages = pages_of(KINDS, &small_index());
    if let Some(page) = pages.get_mut(block) {
        page.set_number(7);
        if !item.is_empty() && item.len() <= 81 {
            page.add_item(item);
        }
    }
    broken(alloc, &pages)
}

#[test]
fn kinds_that_break_a_rule(rt: HostRuntime) -> Result<(), Fail> {
    // A page of a wrong kind, whose tuples are counted all the same, breaks at that page alone; of two the lower is named.
    for (kinds, block) in [
        (KINDS, None),
        ([PageKind::Hnsw, PageKind::Hnsw, PageKind::Hnsw], Some(0)),
        ([PageKind::Meta, PageKind::Meta, PageKind::Hnsw], Some(1)),
        (
            [PageKind::Meta, PageKind::Hnsw, PageKind::IvfLists],
            Some(2),
        ),
        (
            [PageKind::Meta, PageKind::IvfEntries, PageKind::Meta],
            Some(1),
        ),
    ] {
        assert!(rt; broken_of_kinds(rt.alloc(), kinds)? == block);
    }
    Ok(())
}

#[test]
fn items_that_break_a_rule(rt: HostRuntime) -> Result<(), Fail> {
    let alloc = rt.alloc();

    // One item more: beside the meta tuple, of neither kind, a list that no element names, and an element that names the list
    // of another one. The number of a page is no matter.
    for (block, bad) in [(0, 0), (1, 1), (2, 2)] {
        assert!(rt; broken_with(alloc, block, &[9])? == Some(bad));
    }
    assert!(rt; broken_with(alloc, 2, &SLOTS)? == Some(2));
    assert!(rt; broken_with(alloc, 2, &ELEMENT)? == Some(1));
    assert!(rt; broken_with(alloc, 1, &[])? == None);

    // There is no block 0.
    let none: [Page; 0] = [];
    assert!(rt; graph_of(alloc, &none).err() == Some(GraphFault::Bad { block: 0 }));
    Ok(())
}

#[test]
fn redo_is_the_effect_on_the_graph(rt: HostRuntime) -> Result<(), Fail> {
    let alloc = rt.alloc();
    let mut pages = pages_of(KINDS, &small_index());
    let to = Tid { block: 2, off: 1 };
    let link = Event::Link {
        at: place(1),
        list_at: place(2),
        version: 1,
        slot: 1,
        to,
    };
    let join = Event::Join {
        at: place(1),
        version: 1,
        id: row(2),
    };
    assert!(rt; is_redone(&link, 1, &mut pages[1]));
    assert!(rt; is_redone(&join, 1, &mut pages[1]));
    assert!(rt; is_redone(&Event::Hint { block: 2 }, 0, &mut pages[0]));
    let graph = graph_of(alloc, &pages)?;
    assert!(rt; graph.hint == 2 && graph.entry == Some(place(1)) && graph.nodes.len() == 2);
    let Some(node) = graph.nodes.get(place(1)) else {
        panic!(rt; "no node stands at 1/1")
    };
    assert!(rt; node.ids.as_slice() == [row(1), row(2)].as_slice());
    assert!(rt; node.slots.as_slice() == [None, Some(to), None, None].as_slice());
    Ok(())
}

/// The element at 1/1 with its list at 1/2: put, marked, and put again with the version that the mark left.
#[test]
fn places_taken_again_after_a_mark(rt: HostRuntime) -> Result<(), Fail> {
    let alloc = rt.alloc();
    let mut meta = Page::fresh(PageKind::Meta);
    meta.add_item(&META);
    let mut pages = [meta, Page::fresh(PageKind::Hnsw)];
    let mark = Event::Mark {
        at: place(1),
        list_at: place(2),
        version: 1,
    };
    assert!(rt; is_redone(&put(alloc, place(2))?, 1, &mut pages[1]));
    assert!(rt; is_redone(&mark, 1, &mut pages[1]));
    let again = Event::Put {
        at: place(1),
        list_at: place(2),
        version: 2,
        level: 0,
        id: row(3),
        bits: read_bits(alloc, "1000")?,
        lists: slots(alloc, 4)?,
    };
    assert!(rt; is_redone(&again, 1, &mut pages[1]));
    let graph = graph_of(alloc, &pages)?;
    let Some(node) = graph.nodes.get(place(1)) else {
        panic!(rt; "no node stands at 1/1")
    };
    assert!(rt; graph.nodes.len() == 1 && graph.blocks == 2);
    assert!(rt; !node.deleted && node.version == 2 && node.ids.as_slice() == [row(3)].as_slice());
    Ok(())
}

/// The place of these numbers, or the nearest that there is.
fn at(block: u32, off: u16) -> Tid {
    Tid {
        block: block.min(32767),
        off: off.max(1),
    }
}

/// Whether the event follows on the small index: nodes at 1/1 with the list 1/2 and at 2/1 with the list 1/3, of level 0.
fn is_next(event: &Event) -> bool {
    if !GRAPH.check() {
        return false;
    }
    follows(event, &GRAPH, &pages_of(KINDS, &small_index()))
}

/// Whether a Put at these places follows there, of whose slots one names a place on a block.
fn is_put_next(alloc: Global, first: Tid, list_at: Tid, to: u32) -> Result<bool, Fail> {
    let mut lists = slots(alloc, 3)?;
    lists.push(Some(at(to, 1)))?;
    Ok(is_next(&Event::Put {
        at: first,
        list_at,
        version: 1,
        level: 0,
        id: row(1),
        bits: read_bits(alloc, "0000")?,
        lists,
    }))
}

#[test]
fn puts_that_follow(rt: HostRuntime) -> Result<(), Fail> {
    // The element's place, the list's, the block that a slot names, and whether the Put follows.
    for (first, list_at, to, is) in [
        // A node's two places; another node's list; an old place and a new one, and the other way round.
        (at(1, 1), at(1, 2), 2, true),
        (at(1, 1), at(1, 3), 2, false),
        (at(1, 1), at(1, 4), 2, false),
        (at(1, 4), at(1, 2), 2, false),
        // New places on one block, on two, on the next one and on the next two; a block is left out.
        (at(1, 4), at(1, 5), 2, true),
        (at(1, 4), at(2, 2), 2, true),
        (at(3, 1), at(3, 2), 2, true),
        (at(2, 2), at(3, 1), 2, true),
        (at(3, 1), at(4, 1), 2, true),
        (at(4, 1), at(3, 1), 2, true),
        (at(4, 1), at(4, 2), 2, false),
        (at(2, 2), at(4, 1), 2, false),
        // A slot names the last block that there is after it, and one further.
        (at(1, 4), at(1, 5), 3, false),
        (at(3, 1), at(3, 2), 3, true),
        (at(3, 1), at(3, 2), 4, false),
    ] {
        assert!(rt; is_put_next(rt.alloc(), first, list_at, to)? == is);
    }
    Ok(())
}

#[test]
fn links_and_marks_that_follow(rt: HostRuntime) {
    // The element's place, the list's, the block that the slot comes to name; whether the Link follows, and the Mark.
    for (first, list_at, to, link, mark) in [
        (at(1, 1), at(1, 2), 2, true, true),
        (at(2, 1), at(1, 3), 0, true, true),
        (at(1, 1), at(1, 2), 3, false, true),
        (at(1, 1), at(1, 3), 2, false, false),
        (at(1, 2), at(1, 2), 2, false, false),
        (at(3, 1), at(1, 2), 2, false, false),
    ] {
        let a_link = Event::Link {
            at: first,
            list_at,
            version: 1,
            slot: 0,
            to: at(to, 1),
        };
        let a_mark = Event::Mark {
            at: first,
            list_at,
            version: 1,
        };
        assert!(rt; is_next(&a_link) == link && is_next(&a_mark) == mark);
    }
}

#[test]
fn entries_and_hints_that_follow(rt: HostRuntime) {
    for (to, level, is) in [
        (Some(at(1, 1)), 0, true),
        (Some(at(2, 1)), 0, true),
        (Some(at(2, 1)), 1, false),
        (Some(at(1, 2)), 0, false),
        (Some(at(3, 1)), 0, false),
        (None, 0, true),
    ] {
        assert!(rt; is_next(&Event::Entry { to, level }) == is);
    }
    for (block, is) in [(0, false), (1, true), (3, true), (4, false)] {
        assert!(rt; is_next(&Event::Hint { block }) == is);
    }
    assert!(rt; !is_next(&Event::VacuumEnd));
}

#[test]
fn slots_and_ids_that_follow(rt: HostRuntime) -> Result<(), Fail> {
    let alloc = rt.alloc();
    for (list_at, to, is) in [
        (at(1, 2), 2, true),
        (at(1, 2), 3, false),
        (at(1, 3), 2, false),
    ] {
        let mut lists = slots(alloc, 3)?;
        lists.push(Some(at(to, 1)))?;
        let relist = Event::Relist {
            at: at(1, 1),
            list_at,
            version: 1,
            lists,
        };
        assert!(rt; is_next(&relist) == is);
    }
    let join = Event::Join {
        at: at(9, 9),
        version: 1,
        id: row(1),
    };
    let drop = Event::Drop {
        at: at(9, 9),
        version: 1,
        gone: 1,
    };
    assert!(rt; is_next(&join) && is_next(&drop));
    Ok(())
}

#[test]
fn laws_are_called(_rt: HostRuntime) -> Result<(), Fail> {
    law_standing();
    law_format();
    law_blocks();
    law_fresh();
    law_once();
    law_one_block();
    law_pages();
    law_other_format();
    law_room();
    law_reuse();
    law_put_again();
    law_put_new();
    law_redo();
    law_hint();
    law_entry();
    law_link();
    law_relist();
    law_join();
    law_drop();
    law_mark();
    Ok(())
}

#[test]
fn fits_are_called(_rt: HostRuntime) -> Result<(), Fail> {
    law_hint_fits();
    law_entry_fits();
    law_join_fits();
    law_drop_fits();
    law_link_fits();
    law_mark_fits();
    law_put_again_fits();
    law_put_fresh_fits();
    law_put_new_fits();
    law_relist_fits();
    Ok(())
}
