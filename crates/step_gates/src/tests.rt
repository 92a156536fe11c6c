ghost use Rattle.std.specs.Prelude.{◌≡◌};
ghost use Rattle.vec_names.specs.Params.{IsInRange};
ghost use Rattle.vec_steps.specs.declared.gate_desk.Turn.TheVariants.{Before};

use crate::*;
use std::alloc::Global;
use std::test::*;
use vec_graph::Graph;
use vec_history::{Gate, Hold};
use vec_names::{Kind, Mapped, Ops, Params};
use vec_steps::{GateDesk, Steps, StillDesk, Told};

/// The parameters of a graph whose values have 4 places, with m 2.
fn small() -> Params
    ensures range { IsInRange result }
    ensures bits { result.bits ≡ 4 }
{
    Params {
        kind: Kind::Hnsw,
        ops: Ops::Hamming,
        bits: 4,
        m: 2,
        ef: 4,
        lists: 0,
    }
}

/// A desk over a graph without nodes, which has taken no gate.
fn desk(alloc: Global) -> GateDesk
    ensures turn { result.turn ≡ Before }
    ensures bits { result.still.graph.params.bits ≡ 4 }
{
    let graph = Graph {
        params: small(),
        nodes: Mapped::new(alloc),
        entry: None,
        level: 0,
        hint: 1,
        blocks: 1,
    };
    GateDesk::over(StillDesk { number: 7, graph })
}

#[test]
fn a_gate_is_taken_and_given_back(rt: HostRuntime) -> Result<(), Fail> {
    let mut desk = desk(rt.alloc());
    let mut told = Told::make(rt.alloc(), small())?;
    take_gate(&mut desk, Gate::Scan, Hold::Shared, &mut told)?;
    assert!(rt; desk.front() == 1);
    give_back(&mut desk, Gate::Scan, &mut told)?;
    assert!(rt; desk.front() == 2);
    Ok(())
}
