//! Each kind of event on a page that it fits, and the causes for which an event does not fit.
//!
//! A test tells events by steps, which own nothing, and tuples by names, so that it is quick to prove.

use crate::{law_elsewhere, law_others, redo};
use bit_code::{Bits, read_bits};
use index_sizes::MOST_ITEM;
use page_bytes::{Page, PageKind};
use std::alloc::Global;
use std::test::*;
use vec_history::{Event, Gate};
use vec_names::{HeapId, Kind, Listed, Ops, Params, Tid};

/// A graph of four places with m 2.
const GRAPH: Params = Params {
    kind: Kind::Hnsw,
    ops: Ops::Hamming,
    bits: 4,
    m: 2,
    ef: 4,
    lists: 0,
};

/// Four places in three lists.
const LISTS: Params = Params {
    kind: Kind::Ivf,
    ops: Ops::Hamming,
    bits: 4,
    m: 0,
    ef: 0,
    lists: 3,
};

/// The element at 1/1 of the row 1/1 with the value 0000, its list at 1/2.
const ELEMENT: &[u8] = &[
    1, 0, 0, 1, 0, 0, 1, 0, 1, 0, 255, 255, 255, 255, 0, 0, 255, 255, 255, 255, 0, 0, 255, 255,
    255, 255, 0, 0, 255, 255, 255, 255, 0, 0, 255, 255, 255, 255, 0, 0, 255, 255, 255, 255, 0, 0,
    255, 255, 255, 255, 0, 0, 255, 255, 255, 255, 0, 0, 255, 255, 255, 255, 0, 0, 0, 0, 1, 0, 2, 0,
    0, 0, 0x24, 0, 0, 0, 4, 0, 0, 0, 0,
];

/// Its four slots.
const SLOTS: &[u8] = &[
    2, 1, 4, 0, 255, 255, 255, 255, 0, 0, 255, 255, 255, 255, 0, 0, 255, 255, 255, 255, 0, 0, 255,
    255, 255, 255, 0, 0,
];

/// The meta tuple of that graph without an entry point, with the hint 1.
const META: &[u8] = &[
    0x56, 0x54, 0x49, 0x42, 2, 0, 1, 1, 4, 0, 0, 0, 2, 0, 4, 0, 0, 0, 0, 0, 255, 255, 255, 255, 0,
    0, 0, 0, 1, 0, 0, 0,
];

/// The row 1/2 with the value 0011.
const ENTRY: &[u8] = &[0, 0, 1, 0, 2, 0, 0, 0, 0x24, 0, 0, 0, 4, 0, 0, 0, 0x30];

/// A list from block 2 on that looks for room at block 2, with the centre 0011.
const CENTRE: &[u8] = &[
    2, 0, 0, 0, 2, 0, 0, 0, 0, 0, 0, 0, 0x24, 0, 0, 0, 4, 0, 0, 0, 0x30,
];

/// A tuple of those.
#[derive(Clone, Copy)]
enum Tuple {
    Element,
    Slots,
    Meta,
    Entry,
    Centre,
}

/// The value of a node.
#[derive(Clone, Copy)]
enum Value {
    Zeros,
    Ones,
    /// Of five places.
    Long,
}

/// An event. Places are the numbers of their blocks and their offsets, or offsets on block 1.
#[derive(Clone, Copy)]
enum Step {
    /// A node of level 0 and of the row 1/1, with so many empty slots.
    Put {
        at: (u32, u16),
        list_at: (u32, u16),
        version: u8,
        value: Value,
        slots: usize,
    },
    Join {
        off: u16,
        version: u8,
        row: u16,
    },
    /// The slot becomes 1/3.
    Link {
        off: u16,
        version: u8,
        slot: u16,
    },
    /// All slots are empty but the last, which is 1/5.
    Relist {
        slots: usize,
    },
    Drop {
        gone: u16,
    },
    Mark {
        at: (u32, u16),
        list_at: (u32, u16),
        version: u8,
    },
    Entry {
        off: Option<u16>,
        level: u8,
    },
    Hint {
        block: u32,
    },
    /// The row 1/`row` with the value 0011.
    Add {
        block: u32,
        row: u16,
    },
    Grow {
        last: u32,
        block: u32,
    },
    Gone {
        first: u16,
        second: u16,
    },
    Aim {
        list: u32,
    },
    Ungate,
}

fn place(at: (u32, u16)) -> Tid {
    Tid {
        block: at.0.min(9),
        off: at.1.max(1),
    }
}

fn row(off: u16) -> HeapId {
    HeapId {
        block: 1,
        off: off.max(1),
    }
}

fn bits(alloc: Global, value: Value) -> Result<Bits, Fail> {
    let bits = match value {
        Value::Zeros => read_bits(alloc, "0000"),
        Value::Ones => read_bits(alloc, "1111"),
        Value::Long => read_bits(alloc, "00000"),
    };
    Ok(bits?)
}

/// So many empty slots, and then one that is given.
fn slots(
    alloc: Global,
    count: usize,
    last: Option<Option<Tid>>,
) -> Result<Listed<Option<Tid>>, Fail> {
    let mut slots = Listed::new(alloc);
    for _ in 0..count {
        slots.push(None)?;
    }
    if let Some(last) = last {
        slots.push(last)?;
    }
    Ok(slots)
}

fn offsets(alloc: Global, first: u16, second: u16) -> Result<Listed<u16>, Fail> {
    let mut gone = Listed::new(alloc);
    gone.push(first)?;
    gone.push(second)?;
    Ok(gone)
}

fn event_of_node(alloc: Global, step: Step) -> Result<Event, Fail> {
    Ok(match step {
        Step::Put {
            at,
            list_at,
            version,
            value,
            slots: count,
        } => Event::Put {
            at: place(at),
            list_at: place(list_at),
            version,
            level: 0,
            id: row(1),
            bits: bits(alloc, value)?,
            lists: slots(alloc, count, None)?,
        },
        Step::Join {
            off,
            version,
            row: id,
        } => Event::Join {
            at: place((1, off)),
            version,
            id: row(id),
        },
        Step::Link { off, version, slot } => Event::Link {
            at: place((1, 1)),
            list_at: place((1, off)),
            version,
            slot,
            to: place((1, 3)),
        },
        Step::Relist { slots: count } => Event::Relist {
            at: place((1, 1)),
            list_at: place((1, 2)),
            version: 1,
            lists: slots(alloc, count.saturating_sub(1), Some(Some(place((1, 5)))))?,
        },
        Step::Drop { gone } => Event::Drop {
            at: place((1, 1)),
            version: 1,
            gone,
        },
        Step::Mark {
            at,
            list_at,
            version,
        } => Event::Mark {
            at: place(at),
            list_at: place(list_at),
            version,
        },
        _ => Event::Ungate { gate: Gate::Update },
    })
}

fn event_of(alloc: Global, step: Step) -> Result<Event, Fail> {
    Ok(match step {
        Step::Entry { off, level } => Event::Entry {
            to: off.map(|off| place((1, off))),
            level,
        },
        Step::Hint { block } => Event::Hint { block },
        Step::Add { block, row: id } => Event::IvfAdd {
            block,
            id: row(id),
            bits: read_bits(alloc, "0011")?,
        },
        Step::Grow { last, block } => Event::IvfGrow {
            list: 0,
            last,
            block,
            id: row(2),
            bits: read_bits(alloc, "0011")?,
        },
        Step::Gone { first, second } => Event::IvfDrop {
            block: 2,
            gone: offsets(alloc, first, second)?,
        },
        Step::Aim { list } => Event::IvfHint { list, block: 5 },
        _ => event_of_node(alloc, step)?,
    })
}

/// Whether the event is redone on the page of a block; then its number is given to the page, and else the page stays.
fn is_redone(
    alloc: Global,
    step: Step,
    params: Params,
    wrap: u8,
    block: u32,
    page: &mut Page,
) -> Result<bool, Fail> {
    if !params.check() {
        return Ok(false);
    }
    let event = event_of(alloc, step)?;
    let before = page.copied();
    if redo(&event, &params, wrap, 0x0708, block, page).is_ok() {
        return Ok(page.number() == 0x0708);
    }
    Ok(page.bytes() != before.bytes())
}

/// The same on block 1 of the graph, with versions up to 255.
fn fits(alloc: Global, step: Step, page: &mut Page) -> Result<bool, Fail> {
    is_redone(alloc, step, GRAPH, 255, 1, page)
}

/// A node of level 0 on block 1, with the value 0000 and four slots.
fn put(off: u16, list_off: u16, version: u8) -> Step {
    Step::Put {
        at: (1, off),
        list_at: (1, list_off),
        version,
        value: Value::Zeros,
        slots: 4,
    }
}

fn mark(off: u16, list_off: u16, version: u8) -> Step {
    Step::Mark {
        at: (1, off),
        list_at: (1, list_off),
        version,
    }
}

/// A page of a graph with the node at 1/1 and its list at 1/2.
fn page_with_node(alloc: Global) -> Result<Page, Fail> {
    let mut page = Page::fresh(PageKind::Hnsw);
    if !fits(alloc, put(1, 2, 1), &mut page)? {
        return Ok(Page::fresh(PageKind::Meta));
    }
    Ok(page)
}

/// A page with one item of so many bytes.
fn page_with_item(long: usize) -> Page {
    let item = [1; MOST_ITEM];
    let mut page = Page::fresh(PageKind::Hnsw);
    if let Some(item) = item.get(..long) {
        if !item.is_empty() {
            page.add_item(item);
        }
    }
    page
}

fn page_of(kind: PageKind, tuple: Tuple) -> Page {
    let mut page = Page::fresh(kind);
    page.add_item(match tuple {
        Tuple::Element => ELEMENT,
        Tuple::Slots => SLOTS,
        Tuple::Meta => META,
        Tuple::Entry => ENTRY,
        Tuple::Centre => CENTRE,
    });
    page
}

/// Whether the item at an offset is the tuple, with other bytes from a place on.
fn shows(page: &Page, off: u16, tuple: Tuple, at: usize, others: &[u8]) -> bool {
    let like = page_of(PageKind::Meta, tuple);
    let (Some(item), Some(like)) = (page.item(off), like.item(1)) else {
        return false;
    };
    if item.len() != like.len() {
        return false;
    }
    for (i, byte) in item.iter().enumerate() {
        let wanted = match others.get(i.wrapping_sub(at)) {
            Some(other) => Some(other),
            None => like.get(i),
        };
        if wanted != Some(byte) {
            return false;
        }
    }
    true
}

/// Whether the page has these bytes from a place on. In the test itself a range of such literals is slow to prove.
fn has_bytes(page: &Page, from: usize, bytes: &[u8]) -> bool {
    match page.bytes().get(from..) {
        Some(rest) => rest.starts_with(bytes),
        None => false,
    }
}

/// Whether the item at an offset is the tuple.
fn is_item(page: &Page, off: u16, tuple: Tuple) -> bool {
    shows(page, off, tuple, 0, &[])
}

#[test]
fn a_node_through_its_events(rt: HostRuntime) -> Result<(), Fail> {
    let alloc = rt.alloc();
    let mut page = page_with_node(alloc)?;
    assert!(rt; is_item(&page, 1, Tuple::Element) && is_item(&page, 2, Tuple::Slots));

    // The element is the first item, and stands at 8,096.
    assert!(rt; has_bytes(&page, 8096, &[1, 0, 0, 1]) && page.count() == 2);
    let join = Step::Join {
        off: 1,
        version: 1,
        row: 3,
    };
    assert!(rt; fits(alloc, join, &mut page)?);
    assert!(rt; shows(&page, 1, Tuple::Element, 10, &[0, 0, 1, 0, 3, 0]));
    let link = Step::Link {
        off: 2,
        version: 1,
        slot: 1,
    };
    assert!(rt; fits(alloc, link, &mut page)?);
    assert!(rt; shows(&page, 2, Tuple::Slots, 10, &[0, 0, 1, 0, 3, 0]));
    assert!(rt; fits(alloc, Step::Relist { slots: 4 }, &mut page)?);
    assert!(rt; shows(&page, 2, Tuple::Slots, 22, &[0, 0, 1, 0, 5, 0]));

    // The first id goes, and the second one closes up.
    assert!(rt; fits(alloc, Step::Drop { gone: 1 }, &mut page)?);
    assert!(rt; shows(&page, 1, Tuple::Element, 4, &[0, 0, 1, 0, 3, 0]));
    Ok(())
}

/// The version, the one that wraps, and the version after the Mark.
const VERSIONS: [(u8, u8, u8); 6] = [
    (1, 255, 2),
    (14, 15, 15),
    (15, 15, 1),
    (15, 255, 16),
    (255, 255, 1),
    (255, 15, 1),
];

/// Whether a node of the version 1111 becomes a deleted one of the next version, and its place that of another node.
fn is_used_again(alloc: Global, version: u8, wrap: u8, next: u8) -> Result<bool, Fail> {
    let mut page = Page::fresh(PageKind::Hnsw);
    let new = Step::Put {
        at: (1, 1),
        list_at: (1, 2),
        version,
        value: Value::Ones,
        slots: 4,
    };
    let join = Step::Join {
        off: 1,
        version: next,
        row: 3,
    };
    let is_put = is_redone(alloc, new, GRAPH, wrap, 1, &mut page)?;
    let is_marked = is_redone(alloc, mark(1, 2, version), GRAPH, wrap, 1, &mut page)?;
    let is_empty = shows(
        &page,
        1,
        Tuple::Element,
        2,
        &[1, next, 255, 255, 255, 255, 0, 0],
    ) && shows(&page, 2, Tuple::Slots, 0, &[3, next]);
    let is_closed = !fits(alloc, join, &mut page)?;
    let is_again = fits(alloc, put(1, 2, next), &mut page)?
        && shows(&page, 1, Tuple::Element, 3, &[next])
        && shows(&page, 2, Tuple::Slots, 1, &[next]);
    Ok(is_put && is_marked && is_empty && is_closed && is_again && page.count() == 2)
}

#[test]
fn a_deleted_place_is_used_again(rt: HostRuntime) -> Result<(), Fail> {
    for (version, wrap, next) in VERSIONS {
        assert!(rt; is_used_again(rt.alloc(), version, wrap, next)?);
    }
    Ok(())
}

/// The element on block 1 and its list on block 2, both fresh: put, marked, and put again.
#[test]
fn a_node_over_two_pages(rt: HostRuntime) -> Result<(), Fail> {
    let alloc = rt.alloc();
    let mut first = Page::fresh(PageKind::Hnsw);
    let mut second = Page::fresh(PageKind::Hnsw);
    let new = Step::Put {
        at: (1, 1),
        list_at: (2, 1),
        version: 1,
        value: Value::Zeros,
        slots: 4,
    };
    assert!(rt; fits(alloc, new, &mut first)? && first.count() == 1);
    assert!(rt; shows(&first, 1, Tuple::Element, 64, &[0, 0, 2, 0, 1, 0]));
    assert!(rt; is_redone(alloc, new, GRAPH, 255, 2, &mut second)? && second.count() == 1);
    assert!(rt; is_item(&second, 1, Tuple::Slots));
    assert!(rt; !is_redone(alloc, new, GRAPH, 255, 3, &mut Page::fresh(PageKind::Hnsw))?);

    let mark = Step::Mark {
        at: (1, 1),
        list_at: (2, 1),
        version: 1,
    };
    assert!(rt; fits(alloc, mark, &mut first)?);
    assert!(rt; is_redone(alloc, mark, GRAPH, 255, 2, &mut second)?);
    assert!(rt; shows(&second, 1, Tuple::Slots, 0, &[3, 2]));

    // The deleted places are taken again, each on its block.
    let again = Step::Put {
        at: (1, 1),
        list_at: (2, 1),
        version: 2,
        value: Value::Zeros,
        slots: 4,
    };
    assert!(rt; fits(alloc, again, &mut first)? && first.count() == 1);
    assert!(rt; is_redone(alloc, again, GRAPH, 255, 2, &mut second)? && second.count() == 1);
    assert!(rt; shows(&second, 1, Tuple::Slots, 1, &[2]));
    Ok(())
}

/// The element on a fresh block, and its list behind the items of an older one.
#[test]
fn a_list_on_an_old_block(rt: HostRuntime) -> Result<(), Fail> {
    let alloc = rt.alloc();
    let mut old = page_with_node(alloc)?;
    let mut fresh = Page::fresh(PageKind::Hnsw);
    let new = Step::Put {
        at: (2, 1),
        list_at: (1, 3),
        version: 1,
        value: Value::Zeros,
        slots: 4,
    };
    assert!(rt; is_redone(alloc, new, GRAPH, 255, 2, &mut fresh)? && fresh.count() == 1);
    assert!(rt; fits(alloc, new, &mut old)? && old.count() == 3);
    assert!(rt; is_item(&old, 1, Tuple::Element) && is_item(&old, 3, Tuple::Slots));
    Ok(())
}

#[test]
fn the_meta_page(rt: HostRuntime) -> Result<(), Fail> {
    let alloc = rt.alloc();
    let mut page = page_of(PageKind::Meta, Tuple::Meta);
    let entry = Step::Entry {
        off: Some(3),
        level: 2,
    };
    assert!(rt; is_redone(alloc, entry, GRAPH, 255, 0, &mut page)?);
    assert!(rt; shows(&page, 1, Tuple::Meta, 20, &[0, 0, 1, 0, 3, 0, 2]));

    // The step, and whether it fits.
    for (step, wanted) in [
        (
            Step::Entry {
                off: None,
                level: 0,
            },
            true,
        ),
        (
            Step::Entry {
                off: None,
                level: 1,
            },
            false,
        ),
        (Step::Hint { block: 0 }, false),
        (Step::Hint { block: 0x8001 }, false),
        (Step::Hint { block: 0x8000 }, true),
    ] {
        assert!(rt; is_redone(alloc, step, GRAPH, 255, 0, &mut page)? == wanted);
    }
    assert!(rt; shows(&page, 1, Tuple::Meta, 28, &[0, 0x80]));
    assert!(rt; !fits(alloc, Step::Hint { block: 1 }, &mut page)?);
    Ok(())
}

/// Whether the event is redone on block 2 of the index of lists.
fn fits_lists(alloc: Global, step: Step, page: &mut Page) -> Result<bool, Fail> {
    is_redone(alloc, step, LISTS, 255, 2, page)
}

#[test]
fn entries_of_lists(rt: HostRuntime) -> Result<(), Fail> {
    let alloc = rt.alloc();
    let mut page = Page::fresh(PageKind::IvfEntries);
    for row in 2..5 {
        assert!(rt; fits_lists(alloc, Step::Add { block: 2, row }, &mut page)?);
    }
    assert!(rt; is_item(&page, 1, Tuple::Entry) && shows(&page, 3, Tuple::Entry, 4, &[4]));

    // Offsets rise, and are there.
    for (first, second) in [(1, 4), (2, 2), (2, 1), (0, 1)] {
        assert!(rt; !fits_lists(alloc, Step::Gone { first, second }, &mut page)?);
    }
    let gone = Step::Gone {
        first: 1,
        second: 3,
    };
    assert!(rt; fits_lists(alloc, gone, &mut page)?);
    assert!(rt; page.count() == 1 && shows(&page, 1, Tuple::Entry, 4, &[3]));
    let grow = Step::Grow { last: 2, block: 3 };
    assert!(rt; !is_redone(alloc, grow, LISTS, 255, 3, &mut page)?);
    assert!(rt; fits_lists(alloc, grow, &mut page)? && page.next() == Some(3));
    let mut new = Page::fresh(PageKind::IvfEntries);
    assert!(rt; is_redone(alloc, grow, LISTS, 255, 3, &mut new)? && new.count() == 1);
    assert!(rt; is_item(&new, 1, Tuple::Entry) && new.next().is_none());
    let other = Step::Add { block: 2, row: 2 };
    assert!(rt; !is_redone(alloc, other, GRAPH, 255, 2, &mut page)?);
    Ok(())
}

#[test]
fn the_aim_of_a_list(rt: HostRuntime) -> Result<(), Fail> {
    let alloc = rt.alloc();
    let mut page = page_of(PageKind::IvfLists, Tuple::Centre);

    // The list, the block, and whether it fits. A list tuple of 21 bytes takes 28, so 291 of them stand on a page.
    for (list, block, wanted) in [
        (0, 1, true),
        (0, 2, false),
        (1, 1, false),
        (291, 1, false),
        (291, 2, true),
    ] {
        assert!(rt; is_redone(alloc, Step::Aim { list }, LISTS, 255, block, &mut page)? == wanted);
    }
    assert!(rt; shows(&page, 1, Tuple::Centre, 4, &[5]));
    Ok(())
}

#[test]
fn causes_of_unfit(rt: HostRuntime) -> Result<(), Fail> {
    let alloc = rt.alloc();
    let mut page = page_with_node(alloc)?;
    let node = Step::Put {
        at: (1, 3),
        list_at: (1, 4),
        version: 1,
        value: Value::Zeros,
        slots: 6,
    };
    let long = Step::Put {
        at: (1, 3),
        list_at: (1, 4),
        version: 1,
        value: Value::Long,
        slots: 4,
    };

    // A live place, an offset that is not the next, another number of slots, and a value of another length.
    for step in [put(1, 2, 1), put(4, 5, 1), node, long] {
        assert!(rt; !fits(alloc, step, &mut page)?);
    }

    // Another block.
    assert!(rt; !is_redone(alloc, put(1, 2, 1), GRAPH, 255, 2, &mut page)?);

    // Another kind of item, a missing one, another version.
    for (off, version) in [(2, 1), (3, 1), (1, 2)] {
        let join = Step::Join {
            off,
            version,
            row: 2,
        };
        assert!(rt; !fits(alloc, join, &mut page)?);
        assert!(rt; !fits(alloc, mark(off, 2, version), &mut page)?);
    }
    assert!(rt; !fits(alloc, mark(1, 3, 1), &mut page)?);

    // A slot and an id that are not there, and another number of slots.
    for (off, version, slot) in [(2, 1, 4), (2, 2, 0), (1, 1, 0)] {
        assert!(rt; !fits(alloc, Step::Link { off, version, slot }, &mut page)?);
    }
    assert!(rt; !fits(alloc, Step::Drop { gone: 2 }, &mut page)?);
    assert!(rt; !fits(alloc, Step::Relist { slots: 6 }, &mut page)?);
    Ok(())
}

#[test]
fn no_room_no_kind_no_eleventh_id(rt: HostRuntime) -> Result<(), Fail> {
    let alloc = rt.alloc();
    let mut page = page_with_node(alloc)?;
    for row in 2..12 {
        let join = Step::Join {
            off: 1,
            version: 1,
            row,
        };
        assert!(rt; fits(alloc, join, &mut page)? == (row < 11));
    }

    // The index is one of lists, the event passes, the page is of another kind.
    let add = Step::Add { block: 1, row: 2 };
    assert!(rt; !is_redone(alloc, add, LISTS, 255, 1, &mut page)?);
    assert!(rt; !fits(alloc, Step::Ungate, &mut page)?);
    assert!(rt; !is_redone(alloc, Step::Hint { block: 1 }, GRAPH, 255, 0, &mut page)?);
    assert!(rt; !fits(alloc, put(1, 2, 1), &mut Page::fresh(PageKind::IvfEntries))?);

    // The element has room, and its list has not: 92 bytes are taken, and 36 are wanted.
    let mut full = page_with_item(8024);
    assert!(rt; full.free() == 132);
    assert!(rt; fits(alloc, put(2, 3, 1), &mut full.copied())?);
    full.add_item(&[1]);
    assert!(rt; !fits(alloc, put(3, 4, 1), &mut full)?);
    Ok(())
}

#[test]
fn both_places_on_one_page(rt: HostRuntime) -> Result<(), Fail> {
    let alloc = rt.alloc();
    let mut page = Page::fresh(PageKind::Hnsw);

    // The list's place is the element's, before it, or not the next one.
    for (off, list_off) in [(1, 1), (2, 1), (1, 3)] {
        assert!(rt; !fits(alloc, put(off, list_off, 1), &mut page)?);
    }
    assert!(rt; fits(alloc, put(1, 2, 1), &mut page)?);
    assert!(rt; fits(alloc, put(3, 4, 1), &mut page)?);
    for (list_off, version) in [(1, 1), (3, 1), (5, 1), (2, 2)] {
        assert!(rt; !fits(alloc, mark(1, list_off, version), &mut page)?);
    }
    assert!(rt; fits(alloc, mark(1, 2, 1), &mut page)?);

    // The element may go, and the list is a live one, an element, or the same place. Then both may go, or the list stands
    // behind the last item.
    for list_off in [4, 3, 1, 6] {
        assert!(rt; !fits(alloc, put(1, list_off, 2), &mut page)?);
    }
    assert!(rt; fits(alloc, put(1, 2, 2), &mut page.copied())?);
    assert!(rt; fits(alloc, put(1, 5, 2), &mut page.copied())?);
    assert!(rt; fits(alloc, put(5, 2, 2), &mut page)? && page.count() == 5);
    Ok(())
}

#[test]
fn a_chain_that_goes_on_at_its_own_page(rt: HostRuntime) -> Result<(), Fail> {
    let alloc = rt.alloc();
    let mut page = Page::fresh(PageKind::IvfEntries);
    let grow = Step::Grow { last: 3, block: 3 };
    assert!(rt; is_redone(alloc, grow, LISTS, 255, 3, &mut page)?);
    assert!(rt; is_item(&page, 1, Tuple::Entry) && page.next() == Some(3) && page.count() == 1);
    assert!(rt; !is_redone(alloc, grow, LISTS, 255, 3, &mut page)?);
    Ok(())
}

#[test]
fn laws_are_called(_rt: HostRuntime) {
    law_elsewhere();
    law_others();
}
