use crate::{Phase, Rooms, Tables, law_rooms};
use std::alloc::AllocError;
use std::test::*;
use vec_history::{Act, Event, Gate, Hold, Stage};
use vec_names::Tid;

fn act(desk: u32, event: Event) -> Act {
    Act { desk, event }
}

fn taken(desk: u32, gate: Gate, hold: Hold) -> Act {
    act(desk, Event::Gate { gate, hold })
}

// One act more, with room for a hold.
fn add(tables: &mut Tables, act: Act) -> Result<(), AllocError> {
    tables.reserve(1)?;
    tables.note(&act);
    Ok(())
}

fn phase(stage: Stage) -> Event {
    Event::Phase { stage }
}

fn dropped() -> Event {
    Event::Drop {
        at: Tid { block: 1, off: 1 },
        version: 1,
        gone: 1,
    }
}

// Desk 1 begins a vacuum; desk 2 holds Update beside it.
fn beginning(rt: &HostRuntime) -> Result<Tables, AllocError> {
    let mut tables = Tables::new(rt.alloc());
    add(&mut tables, taken(1, Gate::Vacuum, Hold::Alone))?;
    add(&mut tables, act(1, phase(Stage::Remove)))?;
    add(&mut tables, taken(2, Gate::Update, Hold::Shared))?;
    add(&mut tables, act(1, dropped()))?;
    Ok(tables)
}

#[test]
fn a_vacuum_beside_an_insert(rt: HostRuntime) -> Result<(), AllocError> {
    let mut tables = beginning(&rt)?;
    assert_eq!(rt; tables.hold_of(1, Gate::Vacuum), Some(Hold::Alone));
    assert_eq!(rt; tables.hold_of(2, Gate::Update), Some(Hold::Shared));
    assert_eq!(rt; tables.hold_of(2, Gate::Vacuum), None);
    // Another desk may hold Update Shared and not Alone, and Vacuum in no way.
    assert!(rt;
        tables.agree(3, Gate::Update, Hold::Shared) && !tables.agree(3, Gate::Update, Hold::Alone)
    );
    assert!(rt;
        !tables.agree(3, Gate::Vacuum, Hold::Shared) && tables.agree(1, Gate::Vacuum, Hold::Shared)
    );
    assert!(rt;
        tables.phase()
            == Some(Phase {
                desk: 1,
                stage: Stage::Remove
            })
    );
    assert!(rt; tables.lasting() == 1 && tables.settled() == 0);
    add(&mut tables, act(2, Event::Ungate { gate: Gate::Update }))?;
    add(&mut tables, act(1, Event::Settled { upto: 1 }))?;
    assert!(rt; tables.agree(3, Gate::Update, Hold::Alone) && tables.settled() == 1);
    add(
        &mut tables,
        act(
            1,
            Event::Cancel {
                stage: Stage::Remove,
            },
        ),
    )?;
    assert!(rt; tables.phase() == None && tables.lasting() == 1);
    Ok(())
}

// Two holds and a phase are to end: desk 2 can end its own hold alone, and the phase.
#[test]
fn what_is_to_end(rt: HostRuntime) -> Result<(), AllocError> {
    let tables = beginning(&rt)?;
    let update = Event::Ungate { gate: Gate::Update };
    let vacuum = Event::Ungate { gate: Gate::Vacuum };
    assert!(rt;
        tables.is_end(2, &update) && !tables.is_end(2, &vacuum) && !tables.is_end(1, &update)
    );
    assert!(rt; tables.is_end(1, &vacuum) && tables.is_end(2, &Event::VacuumEnd));
    assert!(rt; !tables.is_end(1, &phase(Stage::Remove)));
    Ok(())
}

#[test]
fn rooms_of_two_desks(rt: HostRuntime) -> Result<(), AllocError> {
    let mut rooms = Rooms::new(rt.alloc());
    rooms.set(7, 3)?;
    rooms.set(9, 1)?;
    rooms.spend(9);
    rooms.spend(9);
    rooms.spend(8);
    rooms.spend(7);
    assert!(rt;
        rooms.room_of(7) == 2 && rooms.room_of(9) == 0 && rooms.room_of(8) == 0 && rooms.all() == 2
    );
    law_rooms();
    Ok(())
}
