//! Gates, a vacuum's passes and room in reserve, on the core of an empty graph.

ghost use Rattle.std.specs.Prelude.{◌≡◌, IfOk, length};
ghost use Rattle.vec_names.specs.Params.{IsInRange};

use crate::core_tests::graph;
use page_log::Log;
use std::alloc::Global;
use std::test::*;
use vec_board::{Core, Summary};
use vec_history::{Event, Gate, Hold, Stage};
use vec_names::{Kind, Ops, Params};
use vec_outside::Area;
use vec_steps::{Ask, Told, Word};

/// The core of a graph with so many doomed nodes.
fn core(alloc: Global, doomed: u32) -> Core {
    let summary = Summary {
        blocks: 2,
        entry: None,
        level: 0,
        hint: 1,
        doomed: u64::from(doomed),
    };
    let log = Log::over(alloc, 1, Area::Log0, 40, 0);
    Core::over(alloc, graph(), summary, log, 5)
}

/// What a desk was told, and whether its ask was spent.
fn turn(core: &mut Core, desk: u32, ask: Ask, told: &mut Told) -> Result<(Word, bool), Fail> {
    let mut ask = ask;
    core.turn(desk, &mut ask, told)?;
    Ok((told.word, is_spent(&ask)))
}

fn is_spent(ask: &Ask) -> bool {
    match ask {
        Ask::Spent => true,
        _ => false,
    }
}

fn take(gate: Gate, hold: Hold) -> Ask {
    Ask::Take { gate, hold }
}

fn is_cancel(core: &Core, stage: Stage) -> bool {
    match core.acts().last() {
        Some(act) => match &act.event {
            Event::Cancel { stage: of } => *of == stage && act.desk == 4,
            _ => false,
        },
        None => false,
    }
}

fn is_end(core: &Core) -> bool {
    match core.acts().last() {
        Some(act) => match &act.event {
            Event::VacuumEnd => act.desk == 4,
            _ => false,
        },
        None => false,
    }
}

/// Two desks hold a gate Shared; a third that asks for it Alone is told Busy until both gave it back.
#[test]
fn a_gate_alone_waits(rt: HostRuntime) -> Result<(), Fail> {
    let alloc = rt.alloc();
    let mut core = core(alloc, 0);
    let mut told = Told::make(alloc, graph())?;
    let gate = Gate::Scan;
    let first = turn(&mut core, 7, take(gate, Hold::Shared), &mut told)?;
    assert!(rt; first == (Word::Done, true) && told.at == 0);
    let second = turn(&mut core, 8, take(gate, Hold::Shared), &mut told)?;
    assert!(rt; second == (Word::Done, true) && told.at == 1);
    let third = turn(&mut core, 3, take(gate, Hold::Alone), &mut told)?;
    assert!(rt; third == (Word::Busy, false) && core.acts().len() == 2);
    turn(&mut core, 7, Ask::Release { gate }, &mut told)?;
    let still = turn(&mut core, 3, take(gate, Hold::Alone), &mut told)?;
    assert!(rt; still == (Word::Busy, false) && told.at == 3);
    turn(&mut core, 8, Ask::Release { gate }, &mut told)?;
    let now = turn(&mut core, 3, take(gate, Hold::Alone), &mut told)?;
    assert!(rt; now == (Word::Done, true) && core.acts().len() == 5);
    Ok(())
}

/// Another gate is not in the way, and the same one is.
#[test]
fn other_gates_do_not_wait(rt: HostRuntime) -> Result<(), Fail> {
    let alloc = rt.alloc();
    let mut core = core(alloc, 0);
    let mut told = Told::make(alloc, graph())?;
    turn(&mut core, 7, take(Gate::Update, Hold::Alone), &mut told)?;
    let other = turn(&mut core, 3, take(Gate::Vacuum, Hold::Alone), &mut told)?;
    assert!(rt; other == (Word::Done, true));
    let same = turn(&mut core, 3, take(Gate::Update, Hold::Shared), &mut told)?;
    assert!(rt; same == (Word::Busy, false));
    Ok(())
}

/// The end of a vacuum that began its first pass is a Cancel of that pass.
#[test]
fn a_vacuum_is_cancelled(rt: HostRuntime) -> Result<(), Fail> {
    let alloc = rt.alloc();
    let mut core = core(alloc, 0);
    let mut told = Told::make(alloc, graph())?;
    let stage = Stage::Remove;
    turn(&mut core, 4, Ask::Phase { stage }, &mut told)?;
    let ended = turn(&mut core, 4, Ask::EndVacuum, &mut told)?;
    assert!(rt; ended == (Word::Done, true));
    assert!(rt; is_cancel(&core, stage));
    Ok(())
}

/// In the last pass it is done where no node is doomed.
#[test]
fn a_vacuum_ends(rt: HostRuntime) -> Result<(), Fail> {
    let alloc = rt.alloc();
    let mut core = core(alloc, 0);
    let mut told = Told::make(alloc, graph())?;
    turn(&mut core, 4, Ask::Phase { stage: Stage::Mark }, &mut told)?;
    turn(&mut core, 4, Ask::EndVacuum, &mut told)?;
    assert!(rt; is_end(&core));
    Ok(())
}

/// And it is cancelled there while one is.
#[test]
fn a_vacuum_is_not_done(rt: HostRuntime) -> Result<(), Fail> {
    let alloc = rt.alloc();
    let mut core = core(alloc, 1);
    let mut told = Told::make(alloc, graph())?;
    let stage = Stage::Mark;
    turn(&mut core, 4, Ask::Phase { stage }, &mut told)?;
    turn(&mut core, 4, Ask::EndVacuum, &mut told)?;
    assert!(rt; is_cancel(&core, stage));
    Ok(())
}

/// Room in reserve never falls by an ask for less, and each act takes one.
#[test]
fn room_in_reserve(rt: HostRuntime) -> Result<(), Fail> {
    let alloc = rt.alloc();
    let mut core = core(alloc, 0);
    let mut told = Told::make(alloc, graph())?;
    core.make_ready(9, &Ask::Reserve { events: 3 }, &mut told)?;
    core.make_ready(9, &Ask::Reserve { events: 2 }, &mut told)?;
    assert!(rt; told.word == Word::Done && core.spare(9) == 3 && core.spare(8) == 0);
    turn(&mut core, 9, take(Gate::Scan, Hold::Shared), &mut told)?;
    assert!(rt; core.spare(9) == 2 && core.acts().len() == 1);
    Ok(())
}
