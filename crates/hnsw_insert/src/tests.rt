ghost use Rattle.std.specs.Prelude.{◌≡◌, ◌≤◌, IfOk, length};
ghost use Rattle.vec_names.specs.Params.{IsInRange};
ghost use Rattle.vec_names.specs.declared.params.Kind.TheVariants.{Hnsw as Nodes};
ghost use Rattle.vec_steps.specs.declared.gate_desk.Turn.TheVariants.{Before};

use crate::*;
use bit_code::read_bits;
use std::alloc::Global;
use std::test::*;
use vec_graph::{Graph, Node};
use vec_names::{HeapId, Kind, Listed, Mapped, Ops, Params, Tid};
use vec_steps::{GateDesk, OpFault, Steps, StillDesk};

/// The parameters of a graph whose values have 4 places, with m 2.
fn small() -> Params
    ensures range { IsInRange result }
    ensures nodes { result.kind ≡ Nodes }
    ensures bits { result.bits ≡ 4 }
{
    Params {
        kind: Kind::Hnsw,
        ops: Ops::Hamming,
        bits: 4,
        m: 2,
        ef: 4,
        lists: 0,
    }
}

/// A desk over these nodes, of which 1/1 is the entry point if there is one. It takes one gate, once, and changes nothing.
fn desk(nodes: Mapped<Node>, has_entry: bool) -> GateDesk
    ensures turn { result.turn ≡ Before }
    ensures range { IsInRange result.still.graph.params }
    ensures nodes { result.still.graph.params.kind ≡ Nodes }
{
    let entry = if has_entry {
        Some(Tid { block: 1, off: 1 })
    } else {
        None
    };
    let graph = Graph {
        params: small(),
        nodes,
        entry,
        level: 0,
        hint: 1,
        blocks: 2,
    };
    GateDesk::over(StillDesk { number: 7, graph })
}

/// The node of the value 0110, with one row and no neighbour.
fn node(alloc: Global, id: HeapId) -> Result<Node, Fail> {
    let mut ids = Listed::new(alloc);
    ids.push(id)?;
    let mut slots = Listed::new(alloc);
    slots.extend_from_slice(&[None, None, None, None])?;
    Ok(Node {
        level: 0,
        version: 3,
        deleted: false,
        bits: read_bits(alloc, "0110")?,
        ids,
        list_at: Tid { block: 1, off: 2 },
        slots,
    })
}

fn fault_of(inserted: Result<Inserted, OpFault>) -> Option<OpFault> {
    match inserted {
        Ok(_) => None,
        Err(fault) => Some(fault),
    }
}

#[test]
fn a_value_of_another_length_is_refused_before_any_step(rt: HostRuntime) -> Result<(), Fail> {
    let alloc = rt.alloc();
    let mut desk = desk(Mapped::new(alloc), false);
    let bits = read_bits(alloc, "01101")?;
    let id = HeapId { block: 5, off: 6 };
    let fault = fault_of(insert(alloc, &mut desk, id, &bits, 0));
    assert!(rt; fault == Some(OpFault::Dimensions { got: 5, want: 4 }));
    assert!(rt; desk.front() == 0);
    Ok(())
}

// There is no entry point, so the gate is given back to be taken alone, which this desk has no memory for.
#[test]
fn the_first_row_takes_the_gate_alone(rt: HostRuntime) -> Result<(), Fail> {
    let alloc = rt.alloc();
    let mut desk = desk(Mapped::new(alloc), false);
    let bits = read_bits(alloc, "0110")?;
    let id = HeapId { block: 5, off: 6 };
    let fault = fault_of(insert(alloc, &mut desk, id, &bits, u64::MAX));
    assert!(rt; fault == Some(OpFault::Memory));
    assert!(rt; desk.front() == 2);
    Ok(())
}

// The element of the same value is asked to take the id, which this desk has no memory for; the gate is given back.
#[test]
fn a_fault_gives_the_gate_back(rt: HostRuntime) -> Result<(), Fail> {
    let alloc = rt.alloc();
    let id = HeapId { block: 5, off: 6 };
    let mut nodes = Mapped::new(alloc);
    nodes.insert(Tid { block: 1, off: 1 }, node(alloc, id)?)?;
    let mut desk = desk(nodes, true);
    let bits = read_bits(alloc, "0110")?;
    let fault = fault_of(insert(alloc, &mut desk, id, &bits, u64::MAX));
    assert!(rt; fault == Some(OpFault::Memory));
    assert!(rt; desk.front() == 2);
    Ok(())
}
