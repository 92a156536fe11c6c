//! The batches of an epoch.

ghost use Rattle.std.specs.Prelude.{◌≡◌, ◌⊎◌, ◌+◌, ◌-◌, ◌<◌, ◌≤◌, ◌^◌, ◌++◌, [], ℕ, List, Option, Some, None, length, true, false, IfOk, MatchOption, vec_len};
ghost use Rattle.page_log.specs.Batches.{Placed, AreEvents, room_of};
ghost use Rattle.page_log.specs.Steps.{Moves, OnlyReads, StopsAt, TakesWhole, bytes_of};
ghost use Rattle.vec_outside.specs.Causes.{HasCause};

use crate::events::read_batch_events;
use index_sizes::LOG_ROOM;
use std::alloc::Global;
use vec_event::{Event, event_size};
use vec_outside::{Area, Disks, Outage};

/// What was read of the batches so far: their events with their places, the place of the next seal, and what the events take of
/// an epoch's room; and the place of a bad batch or event.
#[derive(Drop)]
pub struct Run {
    pub events: Vec<(u64, Event)>,
    pub end: u64,
    pub used: u64,
    pub bad: Option<u64>,
}

/// The room that these events leave of so much; None exactly where they take more.
fn room_left(room: u64, events: &[(u64, Event)]) -> Option<u64>
    ensures { MatchOption result (room < room_of events.now) (λ left. left + room_of events.now ≡ room) }
{
    let mut left = room;
    for placed in events {
        left = left.checked_sub(event_size(&placed.1))?.checked_sub(5)?;
    }
    Some(left)
}

/// Takes in the batch at the place where the others end, which has so many bytes of events, and says whether it is whole and the
/// log goes on.
pub fn take_batch<D: Disks>(
    alloc: Global,
    disks: &mut D,
    area: Area,
    len: u64,
    run: &mut Run,
) -> Result<bool, Outage>
    requires place { run.old.end + 5 + len < 2 ^ 64 }
    requires within { D.told → run.old.end + 5 + len ≤ length ((D.disk disks.old).seen area) }
    requires some { 0 < len }
    requires used { run.old.used ≤ LOG_ROOM }
    requires fine { run.old.bad ≡ None }
    ensures whole { D.told → IfOk result (λ goes_on. goes_on ≡ true
        → TakesWhole run.old run.new (bytes_of ((D.disk disks.old).seen area) run.old.end len)) }
    ensures stops { D.told → IfOk result (λ goes_on. goes_on ≡ false
        → StopsAt run.old run.new (bytes_of ((D.disk disks.old).seen area) run.old.end len)) }
    ensures further { IfOk result (λ goes_on. goes_on ≡ true → Moves run.old run.new len) }
    ensures stays { IfOk result (λ goes_on. goes_on ≡ false → (run.new.end ≡ run.old.end) × (run.new.used ≤ LOG_ROOM)) }
    ensures only { OnlyReads (D.disk disks.old) (D.disk disks.new) }
    ensures cause { HasCause (D.count disks.old) (D.count disks.new) result }
{
    let before = run.events.len();
    let bad = read_batch_events(alloc, disks, area, run.end + 5, len, &mut run.events)?;
    match room_left(LOG_ROOM - run.used, &run.events[before..]) {
        None => {
            run.events.truncate(before);
            run.bad = Some(run.end);
            Ok(false)
        }
        Some(left) => {
            run.used = LOG_ROOM - left;
            run.bad = bad;
            if bad.is_some() {
                return Ok(false);
            }
            run.end += 5 + len;
            Ok(true)
        }
    }
}
