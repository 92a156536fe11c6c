use super::*;
use crate::{Act, Event, Gate, Hold, Stage};
use std::test::*;
use vec_names::Tid;

// The laws hold before any act.
#[test]
fn laws_before_any_act() {
    let acts: [Act; 0] = [];
    law_one_at_a_time(&acts);
    law_kept(&acts);
    law_one_more(&acts, &act(1, Event::VacuumEnd));
}

fn gate(desk: u32, gate: Gate, hold: Hold) -> Act {
    Act {
        desk,
        event: Event::Gate { gate, hold },
    }
}

fn ungate(desk: u32, gate: Gate) -> Act {
    Act {
        desk,
        event: Event::Ungate { gate },
    }
}

fn act(desk: u32, event: Event) -> Act {
    Act { desk, event }
}

// Two desks hold Update beside each other and give it back; then the first begins a vacuum, drops an id,
// and passes a barrier.
fn short_history() -> [Act; 11] {
    let at = Tid { block: 1, off: 1 };
    [
        gate(1, Gate::Update, Hold::Shared),
        gate(2, Gate::Update, Hold::Shared),
        ungate(1, Gate::Update),
        ungate(2, Gate::Update),
        gate(1, Gate::Vacuum, Hold::Alone),
        act(
            1,
            Event::Phase {
                stage: Stage::Remove,
            },
        ),
        act(
            1,
            Event::Drop {
                at,
                version: 1,
                gone: 1,
            },
        ),
        gate(1, Gate::Update, Hold::Alone),
        ungate(1, Gate::Update),
        act(1, Event::Settled { upto: 1 }),
        act(1, Event::DiskFaulted { count: 3 }),
    ]
}

// How many acts there are, the desk, the gate, how it is to be held, and whether it may be.
const TAKINGS: [(usize, u32, Gate, Hold, bool); 5] = [
    (1, 2, Gate::Update, Hold::Shared, true),
    (1, 2, Gate::Update, Hold::Alone, false),
    (1, 1, Gate::Update, Hold::Shared, false),
    (4, 2, Gate::Update, Hold::Alone, true),
    (5, 2, Gate::Vacuum, Hold::Shared, false),
];

#[test]
fn holds_of_a_short_history(rt: HostRuntime) {
    let acts = short_history();
    let acts: &[Act] = &acts;
    for (count, desk, gate, hold, may) in TAKINGS {
        let first = &acts[..count.min(acts.len())];
        assert!(rt; may_take(first, desk, gate, hold) == may);
    }
    assert!(rt; holds(&acts[..2], 2, Gate::Update) && !holds_alone(&acts[..2], 2, Gate::Update));
    assert!(rt; holds_alone(&acts[..8], 1, Gate::Update) && !holds(acts, 1, Gate::Update));
    assert!(rt; hold_of(&acts[..2], 2, Gate::Update) == Some((Hold::Shared, 1)));
    assert!(rt; hold_of(&acts[..3], 1, Gate::Update) == None);
}

#[test]
fn phases_of_a_short_history(rt: HostRuntime) {
    let acts = short_history();
    let acts: &[Act] = &acts;
    assert!(rt; phase(acts) == Some((1, Stage::Remove, 5)));
    assert!(rt; phase(&acts[..5]) == None);
    assert!(rt; is_in_phase(acts, 1, Stage::Remove) && !is_in_phase(acts, 2, Stage::Remove));
    assert!(rt; may_begin_remove(&acts[..5], 1) && !may_begin_remove(&acts[..6], 1));
    assert!(rt; may_give_back(&acts[..5], 1, Gate::Vacuum));
    assert!(rt; !may_give_back(acts, 1, Gate::Vacuum));
}

#[test]
fn barriers_of_a_short_history(rt: HostRuntime) {
    let acts = short_history();
    let acts: &[Act] = &acts;
    // A barrier that is not released does not count.
    assert!(rt; last_barrier(&acts[..8], 1, Gate::Update, 5) == None);
    assert!(rt; last_barrier(acts, 1, Gate::Update, 5) == Some(7));
    assert!(rt; last_barrier(acts, 1, Gate::Update, 7) == None);
    assert!(rt; removal_end(&acts[..8], 1) == None && removal_end(acts, 1) == Some(8));
}

#[test]
fn counts_of_a_short_history(rt: HostRuntime) {
    let acts = short_history();
    let acts: &[Act] = &acts;
    // One lasting event, which is settled; and three faults.
    assert!(rt; is_lasting(&acts[6].event) && count_lasting(acts) == 1);
    assert!(rt; may_settle(acts, 1) && !may_settle(acts, 0) && !may_settle(acts, 2));
    assert!(rt; may_fault(acts, 4) && !may_fault(acts, 3));
}
