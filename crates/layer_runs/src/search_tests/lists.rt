// The lists of a new node.
ghost use Rattle.std.specs.Prelude.{◌≡◌};
ghost use Rattle.vec_names.specs.Params.{IsInRange};
ghost use Rattle.vec_names.specs.declared.params.Kind.TheVariants.{Hnsw};

use super::{are, put, tall_nodes, tid, value};
use layer_search::{FoundLists, find_lists};
use neighbour_pick::Found;
use std::alloc::Global;
use std::test::*;
use vec_graph::{Graph, Node};
use vec_names::{Kind, Listed, Mapped, Ops, Params, Tid};
use vec_steps::{StillDesk, Trace};

// A desk over these nodes, with m 2 and ef 4, and with an entry point at 1/1 of a level, or without one.
pub(super) fn desk_of(nodes: Mapped<Node>, level: Option<u8>) -> StillDesk
    ensures range { IsInRange result.graph.params }
    ensures bits { result.graph.params.bits ≡ 4 }
    ensures nodes { result.graph.params.kind ≡ Hnsw }
{
    let (entry, level) = match level {
        Some(level) => (Some(tid(1)), level),
        None => (None, 0),
    };
    let params = Params {
        kind: Kind::Hnsw,
        ops: Ops::Hamming,
        bits: 4,
        m: 2,
        ef: 4,
        lists: 0,
    };
    let graph = Graph {
        params,
        nodes,
        entry,
        level,
        hint: 1,
        blocks: 2,
    };
    StillDesk { number: 7, graph }
}

pub(super) fn no_reads(alloc: Global) -> Trace {
    Trace {
        reads: Listed::new(alloc),
    }
}

// The slots, by the offsets of those that they name; 0 is a slot without a neighbour.
fn have_slots(lists: &FoundLists, offs: &[u16]) -> bool {
    for (slot, off) in lists.lists.as_slice().iter().zip(offs) {
        let named = match slot {
            Some(at) => at.off,
            None => 0,
        };
        if named != *off {
            return false;
        }
    }
    lists.lists.len() == offs.len()
}

// The neighbours, each by its layer and its offset.
fn have_picks(lists: &FoundLists, wanted: &[(u8, u16)]) -> bool {
    for (pick, (layer, off)) in lists.picks.as_slice().iter().zip(wanted) {
        if !is_pick(pick, *layer, *off) {
            return false;
        }
    }
    lists.picks.len() == wanted.len()
}

fn is_pick(pick: &(u8, Found), layer: u8, off: u16) -> bool {
    pick.0 == layer && pick.1.at.off == off
}

// 0000 at 1/1, the entry point, and 0011 at 1/3 name each other.
fn two_nodes(alloc: Global) -> Result<Mapped<Node>, Fail> {
    let mut nodes = Mapped::new(alloc);
    put(
        alloc,
        &mut nodes,
        1,
        "0000",
        true,
        &[Some(tid(3)), None, None, None],
    )?;
    put(
        alloc,
        &mut nodes,
        3,
        "0011",
        true,
        &[Some(tid(1)), None, None, None],
    )?;
    Ok(nodes)
}

// 0111 comes as the third: 0011 is at 1, and 0000 at 3 fills up. The meta tuple, the entry point, its list, the other node and its
// list are looked at. A node of level 1 has no neighbour there. Where 1/3 is left out, 1/1 alone is near.
#[test]
fn the_third_node_finds_two(rt: HostRuntime) -> Result<(), Fail> {
    let alloc = rt.alloc();
    let bits = value(alloc, "0111")?;
    let mut trace = no_reads(alloc);
    let mut desk = desk_of(two_nodes(alloc)?, Some(0));
    let lists = find_lists(alloc, &mut desk, &bits, 0, None, &mut trace)?;
    assert!(rt; have_slots(&lists, &[3, 1, 0, 0]) && have_picks(&lists, &[(0, 3), (0, 1)]));
    assert!(rt; are(lists.near.as_slice(), &[(tid(3), 1), (tid(1), 3)]));
    assert!(rt; lists.top == Some(0) && trace.reads.len() == 5);

    let high = find_lists(alloc, &mut desk, &bits, 1, None, &mut trace)?;
    assert!(rt; have_slots(&high, &[0, 0, 3, 1, 0, 0]));
    let without = find_lists(alloc, &mut desk, &bits, 0, Some(tid(3)), &mut trace)?;
    assert!(rt; have_slots(&without, &[1, 0, 0, 0]));
    assert!(rt; are(without.near.as_slice(), &[(tid(1), 3)]));
    Ok(())
}

// 1111 at 1/1, the entry point of level 1, and 0001 at 1/2 name each other in layer 1 alone, and 0011 comes with level 1. In layer 1
// both are neighbours, since they are 3 from each other. What was found there is found in layer 0 too.
#[test]
fn a_node_of_two_layers_finds_both_in_each(rt: HostRuntime) -> Result<(), Fail> {
    let alloc = rt.alloc();
    let bits = value(alloc, "0011")?;
    let mut trace = no_reads(alloc);
    let mut desk = desk_of(tall_nodes(alloc)?, Some(1));
    let lists = find_lists(alloc, &mut desk, &bits, 1, None, &mut trace)?;
    assert!(rt; have_slots(&lists, &[2, 1, 2, 1, 0, 0]));
    assert!(rt; have_picks(&lists, &[(1, 2), (1, 1), (0, 2), (0, 1)]));
    assert!(rt; lists.top == Some(1) && trace.reads.len() == 7);
    Ok(())
}

// Without an entry point there is no neighbour, and the meta tuple alone is looked at.
#[test]
fn the_first_node_finds_none(rt: HostRuntime) -> Result<(), Fail> {
    let alloc = rt.alloc();
    let bits = value(alloc, "0011")?;
    let mut trace = no_reads(alloc);
    let mut desk = desk_of(Mapped::new(alloc), None);
    let lists = find_lists(alloc, &mut desk, &bits, 1, None, &mut trace)?;
    assert!(rt; have_slots(&lists, &[0, 0, 0, 0, 0, 0]) && lists.picks.is_empty());
    assert!(rt; lists.near.is_empty() && lists.top == None && trace.reads.len() == 1);
    Ok(())
}
