ghost use Rattle.std.specs.Prelude.{◌≡◌, ◌≤◌, IfOk, length};
ghost use Rattle.vec_names.specs.Params.{IsInRange};

mod links;
mod lists;

use arrayvec::ArrayVec;
use bit_code::{Bits, read_bits};
use bit_dist::distance;
use layer_search::{Search, descend, search_layer};
use neighbour_pick::Found;
use std::alloc::Global;
use std::test::*;
use vec_graph::{Graph, Node};
use vec_names::{HeapId, Kind, Listed, Mapped, Ops, Params, Tid};
use vec_steps::{OpFault, StillDesk, Trace};

/// The parameters of a graph whose values have 4 places, with m 2.
fn small() -> Params
    ensures range { IsInRange result }
    ensures bits { result.bits ≡ 4 }
{
    Params {
        kind: Kind::Hnsw,
        ops: Ops::Hamming,
        bits: 4,
        m: 2,
        ef: 4,
        lists: 0,
    }
}

fn tid(off: u16) -> Tid
    requires { 1 ≤ off }
{
    Tid { block: 1, off }
}

fn value(alloc: Global, text: &str) -> Result<Bits, Fail>
    ensures { IfOk result (λ bits. length bits ≡ 4) }
{
    let bits = read_bits(alloc, text)?;
    if bits.count() != 4 {
        return Ok(Bits::zeros(alloc, 4)?);
    }
    Ok(bits)
}

// A node with its list at 1/9, which names these: four slots are those of level 0, and six those of level 1.
fn put(
    alloc: Global,
    nodes: &mut Mapped<Node>,
    off: u16,
    text: &str,
    is_live: bool,
    names: &[Option<Tid>],
) -> Result<(), Fail>
    requires { 1 ≤ off }
{
    let mut ids = Listed::new(alloc);
    if is_live {
        if let Some(id) = HeapId::new(5, 6) {
            ids.push(id)?;
        }
    }
    let mut slots = Listed::new(alloc);
    slots.extend_from_slice(names)?;
    let level = if names.len() == 6 { 1 } else { 0 };
    let node = Node {
        level,
        version: 3,
        deleted: false,
        bits: read_bits(alloc, text)?,
        ids,
        list_at: tid(9),
        slots,
    };
    nodes.insert(tid(off), node)?;
    Ok(())
}

fn desk(nodes: Mapped<Node>) -> StillDesk
    ensures range { IsInRange result.graph.params }
    ensures bits { result.graph.params.bits ≡ 4 }
{
    let graph = Graph {
        params: small(),
        nodes,
        entry: Some(tid(1)),
        level: 0,
        hint: 1,
        blocks: 2,
    };
    StillDesk { number: 7, graph }
}

// The same with the entry point at 1/1, of level 1, or without one.
fn tall_desk(nodes: Mapped<Node>, has_entry: bool) -> StillDesk
    ensures range { IsInRange result.graph.params }
    ensures bits { result.graph.params.bits ≡ 4 }
{
    let entry = if has_entry { Some(tid(1)) } else { None };
    let level = if has_entry { 1 } else { 0 };
    let graph = Graph {
        params: small(),
        nodes,
        entry,
        level,
        hint: 1,
        blocks: 2,
    };
    StillDesk { number: 7, graph }
}

// The node at 1/1 as a look told it, live, with its distance to the query.
fn first_found(alloc: Global, text: &str, query: &Bits) -> Result<Found, Fail>
    requires { length query.now ≡ 4 }
    ensures { IfOk result (λ e. length e.bits ≡ 4) }
{
    let mut ids = ArrayVec::new();
    if let Some(id) = HeapId::new(5, 6) {
        let _ = ids.try_push(id);
    }
    let bits = value(alloc, text)?;
    let dist = distance(Ops::Hamming, query, &bits);
    Ok(Found {
        at: tid(1),
        list_at: tid(9),
        level: 0,
        version: 3,
        dist,
        ids,
        bits,
    })
}

fn are(found: &[Found], wanted: &[(Tid, u32)]) -> bool {
    for (element, (at, num)) in found.iter().zip(wanted) {
        if element.at != *at || element.dist.num != *num {
            return false;
        }
    }
    found.len() == wanted.len()
}

// Three nodes of the values 0000, 0011 and 0111, each of which names the other two, and the query 0001. With ef 4 all three are
// expanded: their lists are looked at, and two nodes at the first. With ef 1 the first alone is.
#[test]
fn three_nodes_are_searched(rt: HostRuntime) -> Result<(), Fail> {
    let alloc = rt.alloc();
    let mut nodes = Mapped::new(alloc);
    put(
        alloc,
        &mut nodes,
        1,
        "0000",
        true,
        &[Some(tid(2)), Some(tid(3)), None, None],
    )?;
    put(
        alloc,
        &mut nodes,
        2,
        "0011",
        true,
        &[Some(tid(1)), Some(tid(3)), None, None],
    )?;
    put(
        alloc,
        &mut nodes,
        3,
        "0111",
        true,
        &[Some(tid(1)), Some(tid(2)), None, None],
    )?;
    let mut desk = desk(nodes);
    let query = value(alloc, "0001")?;
    let from = [first_found(alloc, "0000", &query)?];

    let mut trace = Trace {
        reads: Listed::new(alloc),
    };
    let found = search_layer(alloc, &mut desk, &query, &from, 4, 0, &mut trace)?;
    assert!(rt; are(found.as_slice(), &[(tid(1), 1), (tid(2), 1), (tid(3), 2)]));
    assert!(rt; trace.reads.len() == 5);

    let found = search_layer(alloc, &mut desk, &query, &from, 1, 0, &mut trace)?;
    assert!(rt; are(found.as_slice(), &[(tid(1), 1)]) && trace.reads.len() == 8);
    Ok(())
}

// The middle node lost its rows: it is walked through and not found.
#[test]
fn a_node_without_rows_is_walked_through(rt: HostRuntime) -> Result<(), Fail> {
    let alloc = rt.alloc();
    let mut nodes = Mapped::new(alloc);
    put(
        alloc,
        &mut nodes,
        1,
        "0001",
        true,
        &[Some(tid(2)), None, None, None],
    )?;
    put(
        alloc,
        &mut nodes,
        2,
        "1111",
        false,
        &[Some(tid(1)), Some(tid(3)), None, None],
    )?;
    put(
        alloc,
        &mut nodes,
        3,
        "0011",
        true,
        &[None, None, None, None],
    )?;
    let mut desk = desk(nodes);
    let query = value(alloc, "0001")?;
    let from = [first_found(alloc, "0001", &query)?];
    let mut trace = Trace {
        reads: Listed::new(alloc),
    };
    let found = search_layer(alloc, &mut desk, &query, &from, 4, 0, &mut trace)?;
    assert!(rt; are(found.as_slice(), &[(tid(1), 0), (tid(3), 1)]) && trace.reads.len() == 5);
    Ok(())
}

// A place that is named and where no node stands is gone. A node whose value has another length no index has: the desk refuses the
// look, and the search ends by the same fault.
#[test]
fn what_is_gone_and_what_is_refused(rt: HostRuntime) -> Result<(), Fail> {
    let alloc = rt.alloc();
    let mut nodes = Mapped::new(alloc);
    put(
        alloc,
        &mut nodes,
        1,
        "0001",
        true,
        &[Some(tid(4)), Some(tid(2)), None, None],
    )?;
    let query = value(alloc, "0001")?;
    let from = [first_found(alloc, "0001", &query)?];
    let mut trace = Trace {
        reads: Listed::new(alloc),
    };
    let mut alone = desk(nodes);
    let found = search_layer(alloc, &mut alone, &query, &from, 4, 0, &mut trace)?;
    assert!(rt; are(found.as_slice(), &[(tid(1), 0)]) && trace.reads.len() == 3);

    let mut nodes = Mapped::new(alloc);
    put(
        alloc,
        &mut nodes,
        1,
        "0001",
        true,
        &[Some(tid(2)), None, None, None],
    )?;
    put(
        alloc,
        &mut nodes,
        2,
        "00110",
        true,
        &[None, None, None, None],
    )?;
    let mut odd = desk(nodes);
    let refused = match search_layer(alloc, &mut odd, &query, &from, 4, 0, &mut trace) {
        Ok(_) => false,
        Err(fault) => fault == OpFault::LogFull { used: 0, size: 0 },
    };
    assert!(rt; refused);
    Ok(())
}

// The nodes 1/1 of the value 1111 and 1/2 of 0001, of level 1, which name each other there.
fn tall_nodes(alloc: Global) -> Result<Mapped<Node>, Fail> {
    let mut nodes = Mapped::new(alloc);
    put(
        alloc,
        &mut nodes,
        1,
        "1111",
        true,
        &[Some(tid(2)), None, None, None, None, None],
    )?;
    put(
        alloc,
        &mut nodes,
        2,
        "0001",
        true,
        &[Some(tid(1)), None, None, None, None, None],
    )?;
    Ok(nodes)
}

// Down to layer 0 layer 1 is searched for one element: the meta tuple, the entry point, its list, the other node, and that one's
// list. Down to layer 1 nothing is. Without an entry point the meta tuple alone is looked at.
#[test]
fn from_the_entry_point_down(rt: HostRuntime) -> Result<(), Fail> {
    let alloc = rt.alloc();
    let query = value(alloc, "0001")?;
    let mut trace = Trace {
        reads: Listed::new(alloc),
    };
    let mut desk = tall_desk(tall_nodes(alloc)?, true);
    let low = descend(alloc, &mut desk, &query, 0, &mut trace)?;
    assert!(rt; low.top == Some(1) && are(low.from.as_slice(), &[(tid(2), 0)]));
    assert!(rt; trace.reads.len() == 5);
    let high = descend(alloc, &mut desk, &query, 1, &mut trace)?;
    assert!(rt; high.top == Some(1) && are(high.from.as_slice(), &[(tid(1), 3)]));
    assert!(rt; trace.reads.len() == 7);

    let mut without = tall_desk(tall_nodes(alloc)?, false);
    let none = descend(alloc, &mut without, &query, 0, &mut trace)?;
    assert!(rt; none.top == None && none.from.is_empty() && trace.reads.len() == 8);
    Ok(())
}
