//! Reading the batches of an area one after the other.

ghost use Rattle.std.specs.Prelude.{◌≡◌, ◌+◌, ◌<◌, ◌≤◌, length, true, false, None, IfOk};
ghost use Rattle.page_log.specs.Batches.{IsLog};
ghost use Rattle.page_log.specs.Steps.{OnlyReads, GoesOn, Ends};
ghost use Rattle.index_sizes.specs.declared.limits.TheConstants.{LOG_ROOM};
ghost use Rattle.vec_outside.specs.Causes.{HasCause};

use crate::batches::{Run, take_batch};
use crate::finding::{Found, find_batch};
use std::alloc::Global;
use vec_outside::{Area, Disks, Outage};

/// Takes in the batch at the place where the others end, and says whether it is whole and the log goes on.
fn read_batch<D: Disks>(
    alloc: Global,
    disks: &mut D,
    area: Area,
    size: u64,
    run: &mut Run,
) -> Result<bool, Outage>
    requires size { D.told → size ≡ length ((D.disk disks.old).seen area) }
    requires used { run.old.used ≤ LOG_ROOM }
    requires fine { run.old.bad ≡ None }
    ensures whole { D.told → IfOk result (λ goes_on. goes_on ≡ true → GoesOn ((D.disk disks.old).seen area) run.old run.new) }
    ensures stops { D.told → IfOk result (λ goes_on. goes_on ≡ false → Ends ((D.disk disks.old).seen area) run.old run.new) }
    ensures used { IfOk result (λ goes_on. goes_on ≡ true → run.new.used ≤ LOG_ROOM) }
    ensures fine { IfOk result (λ goes_on. goes_on ≡ true → run.new.bad ≡ None) }
    ensures further { IfOk result (λ goes_on. goes_on ≡ true → (run.old.end < run.new.end) × (run.new.end ≤ size)) }
    ensures bound { IfOk result (λ goes_on. goes_on ≡ true → run.new.end + run.old.used ≤ run.old.end + run.new.used) }
    ensures stays { IfOk result (λ goes_on. goes_on ≡ false → (run.new.end ≡ run.old.end) × (run.new.used ≤ LOG_ROOM)) }
    ensures only { OnlyReads (D.disk disks.old) (D.disk disks.new) }
    ensures cause { HasCause (D.count disks.old) (D.count disks.new) result }
{
    match find_batch(alloc, disks, area, run.end, size)? {
        Found::Closed => Ok(false),
        Found::Bad => {
            run.bad = Some(run.end);
            Ok(false)
        }
        Found::Batch(len) => Ok(take_batch(alloc, disks, area, len, run)?),
    }
}

/// The batches of an area from a place on, up to the first seal that is not open or the first batch or event that is bad.
pub fn read_batches<D: Disks>(
    alloc: Global,
    disks: &mut D,
    area: Area,
    at: u64,
) -> Result<Run, Outage>
    ensures log { D.told → IfOk result (λ run. IsLog ((D.disk disks.old).seen area) at run.events.items run.end run.used run.bad) }
    ensures range { IfOk result (λ run. (at ≤ run.end) × (run.end ≤ at + LOG_ROOM) × (run.used ≤ LOG_ROOM)) }
    ensures only { OnlyReads (D.disk disks.old) (D.disk disks.new) }
    ensures cause { HasCause (D.count disks.old) (D.count disks.new) result }
{
    let size = disks.len(area)?;
    let mut run = Run {
        events: Vec::new(alloc),
        end: at,
        used: 0,
        bad: None,
    };
    loop {
        if !read_batch(alloc, disks, area, size, &mut run)? {
            return Ok(run);
        }
    }
}
