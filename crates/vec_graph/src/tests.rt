ghost use Rattle.std.specs.Prelude.{◌≡◌, ◌≤◌, ◌<◌, None};
ghost use Rattle.std.specs.FinMap as map;

use crate::*;
use bit_code::read_bits;
use std::alloc::{AllocError, Global};
use std::test::*;
use vec_history::{Act, Event, law_alone, law_cut};
use vec_names::{HeapId, Kind, Listed, Mapped, Ops, Params, Tid};

/// An index that has no node, whose values have 4 places, with m 2.
fn empty(alloc: Global) -> Graph
    ensures no_nodes { result.nodes ≡ map.empty }
    ensures no_entry { result.entry ≡ None }
    ensures one_block { result.blocks ≡ 1 }
    ensures m_2 { result.params.m ≡ 2 }
{
    Graph {
        params: Params {
            kind: Kind::Hnsw,
            ops: Ops::Hamming,
            bits: 4,
            m: 2,
            ef: 4,
            lists: 0,
        },
        nodes: Mapped::new(alloc),
        entry: None,
        level: 0,
        hint: 1,
        blocks: 1,
    }
}

// The laws hold of an index that has no node, and before any act.
#[test]
fn laws_before_any_act(rt: HostRuntime) {
    let base = empty(rt.alloc());
    let acts: [Act; 0] = [];
    law_cut(&base, &acts);
    law_alone(&base, &acts);
    law_entries(&base, &acts);
    law_places(&base, &acts);
    law_shaped(&base, &acts);
    law_lasting(&base, &acts);
    law_own(&base, &acts);
    law_vacuum(&base, &acts);
    law_told(&base, &acts);
    law_levels(&base, &acts);
    law_later(&base, &acts);
    law_asked(&base, &acts);
    law_layers();
    law_live();
    law_examples();
    law_first_insert(&base);
    law_idle_vacuum(&base);
}

fn tid(off: u16) -> Tid
    requires { 1 ≤ off }
{
    Tid { block: 1, off }
}

fn slots(
    alloc: Global,
    first: Option<Tid>,
    second: Option<Tid>,
) -> Result<Listed<Option<Tid>>, AllocError> {
    let mut slots = Listed::new(alloc);
    slots.extend_from_slice(&[first, second, None, None])?;
    Ok(slots)
}

/// A new node of level 0 on block 1 with its list behind it, and the row at the same offset.
fn put(
    alloc: Global,
    off: u16,
    version: u8,
    text: &str,
    first: Option<Tid>,
    second: Option<Tid>,
) -> Result<Event, Fail>
    requires some { 1 ≤ off }
    requires few { off < 1000 }
{
    let bits = read_bits(alloc, text)?;
    let lists = slots(alloc, first, second)?;
    Ok(Event::Put {
        at: tid(off),
        list_at: tid(off + 1),
        version,
        level: 0,
        id: HeapId { block: 1, off },
        bits,
        lists,
    })
}

// The highest number of a block is 32,767.
#[test]
fn a_full_index_takes_no_new_block(rt: HostRuntime) -> Result<(), Fail> {
    let mut full = empty(rt.alloc());
    full.blocks = 32_768;
    assert_eq!(rt; full.new_place(0), None);
    assert_eq!(rt; full.new_blocks(0), 1);
    full.blocks = 32_767;
    assert!(rt; full.new_place(0).is_some());
    Ok(())
}

// The second node of an index of these parameters stands behind the first one, on the same block.
#[test]
fn a_graph_by_its_calls(rt: HostRuntime) -> Result<(), Fail> {
    let mut graph = empty(rt.alloc());
    let first = put(rt.alloc(), 1, 1, "0000", None, None)?;
    graph.apply(255, &first, rt.alloc())?;
    let copy = graph.try_clone(rt.alloc())?;
    let second = Place {
        at: tid(3),
        list_at: tid(4),
        version: 1,
    };
    assert_eq!(rt; copy.place_on(1, 0), Some(second));
    assert!(rt; live_at(&copy, tid(1), 0));
    assert!(rt; !doomed_at(&copy, tid(1)));
    let node = copy.nodes.get(tid(1)).ok_or("no node")?;
    let twin = node.try_clone(rt.alloc())?;
    assert!(rt; is_live(&twin));
    assert!(rt; !is_doomed(&twin));
    Ok(())
}
