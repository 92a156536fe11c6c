ghost use Rattle.std.specs.Prelude.{◌≡◌, ◌≤◌, IfOk};
ghost use Rattle.vec_names.specs.Params.{IsInRange};

use crate::*;
use bit_code::read_bits;
use std::alloc::Global;
use std::test::*;
use vec_graph::{Graph, Node};
use vec_history::{Gate, Hold};
use vec_names::{HeapId, Kind, Listed, Mapped, Ops, Params, Tid};

/// The parameters of a graph whose values have 4 places, with m 2.
fn small() -> Params
    ensures range { IsInRange result }
    ensures bits { result.bits ≡ 4 }
{
    Params {
        kind: Kind::Hnsw,
        ops: Ops::Hamming,
        bits: 4,
        m: 2,
        ef: 4,
        lists: 0,
    }
}

fn tid(off: u16) -> Tid
    requires { 1 ≤ off }
{
    Tid { block: 1, off }
}

/// The node of the value 0110 at 1/1, of version 3 and level 1, with one row: in layer 1 it names 1/3, and in layer 0 none.
fn node(alloc: Global) -> Result<Node, Fail> {
    let mut ids = Listed::new(alloc);
    if let Some(id) = HeapId::new(5, 6) {
        ids.push(id)?;
    }
    let mut slots = Listed::new(alloc);
    slots.extend_from_slice(&[Some(tid(3)), None, None, None, None, None])?;
    Ok(Node {
        level: 1,
        version: 3,
        deleted: false,
        bits: read_bits(alloc, "0110")?,
        ids,
        list_at: tid(2),
        slots,
    })
}

/// The graph of that node, which is the entry point, with a desk over it.
fn desk(alloc: Global) -> Result<StillDesk, Fail>
    ensures { IfOk result (λ desk. desk.graph.params.bits ≡ 4) }
{
    let node = node(alloc)?;
    let mut nodes = Mapped::new(alloc);
    nodes.insert(tid(1), node)?;
    let graph = Graph {
        params: small(),
        nodes,
        entry: Some(tid(1)),
        level: 1,
        hint: 1,
        blocks: 2,
    };
    Ok(StillDesk { number: 7, graph })
}

#[test]
fn a_still_desk_tells_the_graph(rt: HostRuntime) -> Result<(), Fail> {
    let mut desk = desk(rt.alloc())?;
    let mut told = Told::make(rt.alloc(), small())?;
    desk.step(&mut Ask::Meta, &mut told)?;
    assert!(rt; told.word == Word::Meta && told.tid == Some(tid(1)) && told.level == 1);
    assert!(rt; told.hint == 1 && told.blocks == 2 && told.at == 0);

    let mut look = Ask::Node {
        at: tid(1),
        layer: 1,
        version: Some(3),
    };
    desk.step(&mut look, &mut told)?;
    assert!(rt; told.word == Word::Node && told.version == 3 && told.list_at == Some(tid(2)));
    assert!(rt; told.ids.len() == 1 && told.bits.bytes() == [0x60].as_slice());
    Ok(())
}

#[test]
fn what_is_gone_and_what_is_not_done(rt: HostRuntime) -> Result<(), Fail> {
    let mut desk = desk(rt.alloc())?;
    let mut told = Told::make(rt.alloc(), small())?;
    let mut look = Ask::Node {
        at: tid(1),
        layer: 2,
        version: None,
    };
    desk.step(&mut look, &mut told)?;
    assert!(rt; told.word == Word::Gone);

    let mut slots = Ask::List {
        at: tid(1),
        list_at: tid(2),
        level: 1,
        version: 3,
        layer: 1,
    };
    desk.step(&mut slots, &mut told)?;
    assert!(rt; told.word == Word::List && told.tids.as_slice() == [Some(tid(3)), None].as_slice());

    let taken = desk.step(&mut Ask::Hint { block: 1 }, &mut told);
    assert!(rt; taken == Err(StepFault::Memory));
    assert!(rt; desk.number() == 7 && desk.front() == 0 && desk.params() == small());
    Ok(())
}

// The laws, at this desk.
#[test]
fn laws_of_a_still_desk(rt: HostRuntime) -> Result<(), Fail> {
    let desk = desk(rt.alloc())?;
    law_step(&desk);
    law_calls(&desk, &desk);
    law_deeds(&desk);
    law_lasting();
    Ok(())
}

#[test]
fn a_gate_is_taken_and_given_back(rt: HostRuntime) -> Result<(), Fail> {
    let mut desk = GateDesk::over(desk(rt.alloc())?);
    let mut told = Told::make(rt.alloc(), small())?;
    let mut take = Ask::Take {
        gate: Gate::Scan,
        hold: Hold::Shared,
    };
    desk.step(&mut take, &mut told)?;
    assert!(rt; told.word == Word::Done && told.at == 0 && desk.front() == 1);
    desk.step(&mut Ask::Meta, &mut told)?;
    assert!(rt; told.word == Word::Meta && told.at == 1 && desk.front() == 1);
    let mut release = Ask::Release { gate: Gate::Scan };
    desk.step(&mut release, &mut told)?;
    assert!(rt; told.word == Word::Done && told.at == 1 && desk.front() == 2);
    Ok(())
}
