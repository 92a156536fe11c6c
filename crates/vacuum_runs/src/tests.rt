ghost use Rattle.std.specs.Prelude.{◌≡◌, ◌≤◌, false, length};
ghost use Rattle.vec_names.specs.Params.{IsInRange};

use arrayvec::ArrayVec;
use bit_code::Bits;
use hnsw_vacuum::{Tally, drop_all, drop_dead, look_for_doomed};
use std::alloc::Global;
use std::test::*;
use vec_graph::{Graph, Node};
use vec_names::{HeapId, Kind, Listed, Mapped, Ops, Params, Tid};
use vec_steps::{OpFault, Seen, Steps, StillDesk, Told, Trace};

/// The parameters of a graph whose values have 4 places, with m 2.
fn small() -> Params
    ensures range { IsInRange result }
    ensures bits { result.bits ≡ 4 }
{
    Params {
        kind: Kind::Hnsw,
        ops: Ops::Hamming,
        bits: 4,
        m: 2,
        ef: 4,
        lists: 0,
    }
}

/// A desk over a graph without a node, which takes no change: each one wants memory.
fn desk(alloc: Global) -> StillDesk
    ensures bits { result.graph.params.bits ≡ 4 }
{
    let graph = Graph {
        params: small(),
        nodes: Mapped::new(alloc),
        entry: None,
        level: 0,
        hint: 1,
        blocks: 2,
    };
    StillDesk { number: 7, graph }
}

/// Nothing was done, and there is no bound.
fn fresh() -> Tally
    ensures going { result.due ≡ false }
{
    Tally {
        removed: 0,
        marked: 0,
        left: None,
        due: false,
    }
}

fn row(off: u16) -> HeapId
    requires { 1 ≤ off }
{
    HeapId { block: 5, off }
}

/// The node at 1/1 with rows 5/6, 5/7 and 5/8, as a page tells it.
fn node(deleted: bool) -> Seen {
    let mut ids = ArrayVec::new();
    let _ = ids.try_push(row(6));
    let _ = ids.try_push(row(7));
    let _ = ids.try_push(row(8));
    Seen {
        at: Tid { block: 1, off: 1 },
        level: 0,
        version: 1,
        deleted,
        ids,
    }
}

#[test]
fn a_node_without_a_dead_row_is_left_alone(rt: HostRuntime) -> Result<(), Fail> {
    let alloc = rt.alloc();
    let mut desk = desk(alloc);
    let mut told = Told::make(alloc, small())?;
    let removed = drop_dead(
        &mut desk,
        &|id: HeapId| id.off == 9,
        &node(false),
        &mut told,
        fresh(),
    );
    match removed {
        Ok(now) => assert!(rt; now.removed == 0),
        Err(_) => assert!(rt; false),
    }
    Ok(())
}

#[test]
fn a_deleted_node_is_not_asked_about(rt: HostRuntime) -> Result<(), Fail> {
    let alloc = rt.alloc();
    let mut desk = desk(alloc);
    let mut told = Told::make(alloc, small())?;
    let mut nodes = Listed::new(alloc);
    nodes.push(node(true))?;
    nodes.push(node(true))?;
    let removed = drop_all(
        &mut desk,
        &|id: HeapId| id.off == 7,
        nodes.as_slice(),
        &mut told,
        fresh(),
    );
    match removed {
        Ok(now) => assert!(rt; now.removed == 0),
        Err(_) => assert!(rt; false),
    }
    Ok(())
}

#[test]
fn a_dead_row_asks_for_a_drop(rt: HostRuntime) -> Result<(), Fail> {
    let alloc = rt.alloc();
    let mut desk = desk(alloc);
    let mut told = Told::make(alloc, small())?;
    let mut nodes = Listed::new(alloc);
    nodes.push(node(true))?;
    nodes.push(node(false))?;
    let removed = drop_all(
        &mut desk,
        &|id: HeapId| id.off == 7,
        nodes.as_slice(),
        &mut told,
        fresh(),
    );
    match removed {
        Ok(_) => assert!(rt; false),
        Err(fault) => assert!(rt; fault == OpFault::Memory),
    }
    Ok(())
}

#[test]
fn a_drop_is_due_where_nothing_is_left(rt: HostRuntime) -> Result<(), Fail> {
    let alloc = rt.alloc();
    let mut desk = desk(alloc);
    let mut told = Told::make(alloc, small())?;
    let tally = Tally {
        removed: 0,
        marked: 0,
        left: Some(0),
        due: false,
    };
    let done = drop_dead(
        &mut desk,
        &|id: HeapId| id.off == 7,
        &node(false),
        &mut told,
        tally,
    );
    match done {
        Ok(now) => assert!(rt; now.due),
        Err(_) => assert!(rt; false),
    }
    Ok(())
}

/// Puts a node of version 3 at an offset of block 1, with its list at 1/9: with row 5/6, or none.
fn put(
    alloc: Global,
    nodes: &mut Mapped<Node>,
    off: u16,
    has_row: bool,
    deleted: bool,
) -> Result<(), Fail>
    requires { 1 ≤ off }
{
    let mut ids = Listed::new(alloc);
    if has_row {
        ids.push(row(6))?;
    }
    let node = Node {
        level: 0,
        version: 3,
        deleted,
        bits: Bits::zeros(alloc, 4)?,
        ids,
        list_at: Tid { block: 1, off: 9 },
        slots: Listed::new(alloc),
    };
    nodes.insert(Tid { block: 1, off }, node)?;
    Ok(())
}

/// What a look at an offset of block 1 tells of a node without rows: its version, 0 for none.
fn version_without_rows(desk: &mut StillDesk, off: u16, told: &mut Told, trace: &mut Trace) -> u8
    requires off { 1 ≤ off }
    requires told { length told.old.bits ≡ desk.old.graph.params.bits }
    ensures told { length told.new.bits ≡ desk.old.graph.params.bits }
    ensures same { desk.new.graph.params ≡ desk.old.graph.params }
{
    let at = Tid { block: 1, off };
    match look_for_doomed(desk, at, told, trace) {
        Ok(Some(node)) => node.version,
        _ => 0,
    }
}

#[test]
fn a_node_without_rows_is_found_and_no_other(rt: HostRuntime) -> Result<(), Fail> {
    let alloc = rt.alloc();
    let mut desk = desk(alloc);
    put(alloc, &mut desk.graph.nodes, 1, true, false)?;
    put(alloc, &mut desk.graph.nodes, 2, false, false)?;
    put(alloc, &mut desk.graph.nodes, 3, false, true)?;
    let mut told = Told::make(alloc, small())?;
    let mut trace = Trace {
        reads: Listed::new(alloc),
    };
    let live = version_without_rows(&mut desk, 1, &mut told, &mut trace);
    let doomed = version_without_rows(&mut desk, 2, &mut told, &mut trace);
    let deleted = version_without_rows(&mut desk, 3, &mut told, &mut trace);
    let none = version_without_rows(&mut desk, 4, &mut told, &mut trace);
    assert!(rt; live == 0 && doomed == 3 && deleted == 0 && none == 0);
    assert!(rt; trace.reads.len() == 4);
    Ok(())
}
