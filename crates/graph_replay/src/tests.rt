//! A log of a hundred events, replayed on pages beside the graph that they make.

use crate::{law_allowed, law_fronts, law_legal_replay, law_replay};
use bit_code::read_bits;
use graph_pages::{follows, graph_of};
use page_bytes::{Page, PageKind};
use page_redo::redo;
use std::alloc::Global;
use std::test::*;
use vec_graph::{Graph, Node, Place};
use vec_history::Event;
use vec_names::{HeapId, Kind, Listed, Ops, Params, Tid};

/// A graph of values of four bits with m 2.
const GRAPH: Params = Params {
    kind: Kind::Hnsw,
    ops: Ops::Hamming,
    bits: 4,
    m: 2,
    ef: 4,
    lists: 0,
};

/// The meta tuple of that graph without an entry point, with the hint 1.
const META: [u8; 32] = [
    0x56, 0x54, 0x49, 0x42, 2, 0, 1, 1, 4, 0, 0, 0, 2, 0, 4, 0, 0, 0, 0, 0, 255, 255, 255, 255, 0,
    0, 0, 0, 1, 0, 0, 0,
];

/// The level of each node: its list has 404 slots, so that a page takes three nodes.
const LEVEL: u8 = 200;

fn row(off: u16) -> HeapId {
    HeapId {
        block: 1,
        off: off.max(1),
    }
}

/// The place for a node on the last block, or else on new blocks.
fn spot(graph: &Graph) -> Option<Place> {
    match graph.place_on(graph.blocks.saturating_sub(1), LEVEL) {
        Some(spot) => Some(spot),
        None => graph.new_place(LEVEL),
    }
}

fn put(alloc: Global, spot: Place) -> Result<Event, Fail> {
    let mut lists = Listed::new(alloc);
    for _ in 0..404 {
        lists.push(None)?;
    }
    Ok(Event::Put {
        at: spot.at,
        list_at: spot.list_at,
        version: spot.version,
        level: LEVEL,
        id: row(1),
        bits: read_bits(alloc, "0110")?,
        lists,
    })
}

/// Redoes the event on the page of one block.
fn is_redone(pages: &mut Vec<Page>, event: &Event, number: u64, block: u32) -> bool {
    if !GRAPH.check() {
        return false;
    }
    match pages.get_mut(block as usize) {
        Some(page) => redo(event, &GRAPH, 255, number, block, page).is_ok(),
        None => false,
    }
}

fn is_next(pages: &Vec<Page>, event: &Event) -> bool {
    if !GRAPH.check() {
        return false;
    }
    follows(event, &GRAPH, pages.as_slice())
}

/// Whether the event follows, and is redone on these blocks, of which the second may be a new one, and made on the graph.
fn is_replayed(
    alloc: Global,
    pages: &mut Vec<Page>,
    graph: &mut Graph,
    event: &Event,
    number: u64,
    blocks: (u32, u32),
) -> Result<bool, Fail> {
    if !is_next(pages, event) {
        return Ok(false);
    }
    if blocks.1 as usize == pages.len() {
        pages.push(Page::fresh(PageKind::Hnsw))?;
    }
    graph.apply(255, event, alloc)?;
    if !is_redone(pages, event, number, blocks.0) {
        return Ok(false);
    }
    Ok(blocks.0 == blocks.1 || is_redone(pages, event, number, blocks.1))
}

fn is_same_node(a: &Node, b: &Node) -> bool {
    a.level == b.level
        && a.version == b.version
        && a.deleted == b.deleted
        && a.bits.bytes() == b.bits.bytes()
        && a.ids.as_slice() == b.ids.as_slice()
        && a.list_at == b.list_at
        && a.slots.as_slice() == b.slots.as_slice()
}

/// Whether the pages stand for the graph.
fn is_stood_for(
    alloc: Global,
    pages: &Vec<Page>,
    graph: &Graph,
    places: &Vec<Tid>,
) -> Result<bool, Fail> {
    if pages.len() > 1000 {
        return Ok(false);
    }
    let Ok(other) = graph_of(alloc, pages.as_slice()) else {
        return Ok(false);
    };
    for at in places {
        match (graph.nodes.get(*at), other.nodes.get(*at)) {
            (Some(a), Some(b)) => {
                if !is_same_node(a, b) {
                    return Ok(false);
                }
            }
            _ => return Ok(false),
        }
    }
    Ok(
        graph.blocks == other.blocks
            && graph.hint == other.hint
            && graph.entry == other.entry
            && graph.level == other.level
            && graph.nodes.len() == other.nodes.len(),
    )
}

fn join(place: Place, id: HeapId) -> Event {
    Event::Join {
        at: place.at,
        version: place.version,
        id,
    }
}

fn link(place: Place, slot: u16) -> Event {
    Event::Link {
        at: place.at,
        list_at: place.list_at,
        version: place.version,
        slot,
        to: Tid { block: 1, off: 1 },
    }
}

/// Every third event is a Put; the next two join an id to its node and link the node to the first.
#[test]
fn a_log_of_a_hundred_events(rt: HostRuntime) -> Result<(), Fail> {
    let alloc = rt.alloc();
    let mut meta = Page::fresh(PageKind::Meta);
    meta.add_item(&META);
    let mut pages = Vec::new(alloc);
    pages.push(meta)?;
    let mut graph = graph_of(alloc, pages.as_slice())?;
    let mut places = Vec::new(alloc);
    for i in 0..34u16 {
        let Some(place) = spot(&graph) else {
            panic!(rt; "the graph has no place")
        };
        let number = i as u64 * 3;
        let both = (place.at.block, place.list_at.block);
        let element = (both.0, both.0);
        let list = (both.1, both.1);
        let new = put(alloc, place)?;
        assert!(rt; is_replayed(alloc, &mut pages, &mut graph, &new, number, both)?);
        let joined = join(place, row(i + 2));
        assert!(rt; is_replayed(alloc, &mut pages, &mut graph, &joined, number + 1, element)?);
        let linked = link(place, i);
        assert!(rt; is_replayed(alloc, &mut pages, &mut graph, &linked, number + 2, list)?);
        places.push(place.at)?;
    }
    assert!(rt; pages.len() == 13 && is_stood_for(alloc, &pages, &graph, &places)?);
    Ok(())
}

#[test]
fn laws_are_called(_rt: HostRuntime) {
    law_replay();
    law_fronts();
    law_allowed();
    law_legal_replay();
}
