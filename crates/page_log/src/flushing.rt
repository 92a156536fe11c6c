//! Writing a batch that was taken out of the log: its events first, and its seal once they are durable.

ghost use Rattle.std.specs.Prelude.{◌≡◌, ◌≤◌, ◌<◌, ◌+◌, [], true, false, length, OnOk, OnErr, IfErr, ℕ};
ghost use Rattle.page_log.specs.Going.{Newer, Unsettled, ComesFrom, SettlesAll};
ghost use Rattle.page_log.specs.LogCauses.{IsDiskFault};
ghost use Rattle.page_log.specs.Parts.{out, past, behind, Reaches, IsSameBatch};
ghost use Rattle.vec_outside.specs.Causes.{HasCause};

use crate::limits::{CLOSED, OPEN};
use crate::log_fault::{LogFault, log_fault_of};
use crate::pending::Pending;
use vec_outside::{Disks, Outage, write_synced};

/// Where the area ends at the seal's place, or the byte there was begun and not synced, writes the byte and syncs it.
fn close_end<D: Disks>(pending: &mut Pending, disks: &mut D) -> Result<(), Outage>
    requires reach { D.told → pending.old.at ≤ length ((D.disk disks.old).seen pending.old.area) }
    ensures from { (newer : Newer) → ComesFrom (out pending.old newer) (D.disk disks.old) (out pending.new newer) (D.disk disks.new) [] }
    ensures same { IsSameBatch pending.old pending.new }
    ensures open { pending.new.fixed ≡ pending.old.fixed }
    ensures longer { D.told → length ((D.disk disks.old).seen pending.old.area) ≤ length ((D.disk disks.new).seen pending.old.area) }
    ensures closed { D.told → OnOk result (pending.old.at < length ((D.disk disks.new).seen pending.old.area)) }
    ensures cause { HasCause (D.count disks.old) (D.count disks.new) result }
{
    let len = disks.len(pending.area)?;
    if !pending.bare && pending.at < len {
        return Ok(());
    }
    pending.bare = true;
    write_synced(disks, pending.area, pending.at, &[CLOSED])?;
    pending.bare = false;
    Ok(())
}

/// Writes what stands behind the seal, from where on the batch is fixed.
fn write_body<D: Disks>(pending: &mut Pending, disks: &mut D) -> Result<(), Outage>
    requires some { 0 < length pending.old.bytes.items }
    requires open { pending.old.fixed ≡ false }
    requires reach { D.told → pending.old.at < length ((D.disk disks.old).seen pending.old.area) }
    ensures from { (newer : Newer) → ComesFrom (out pending.old newer) (D.disk disks.old) (out pending.new newer) (D.disk disks.new) [] }
    ensures same { IsSameBatch pending.old pending.new }
    ensures longer { D.told → length ((D.disk disks.old).seen pending.old.area) ≤ length ((D.disk disks.new).seen pending.old.area) }
    ensures fixed { OnOk result (pending.new.fixed ≡ true) }
    ensures reaches { D.told → Reaches pending.old (length ((D.disk disks.old).seen pending.old.area))
        → Reaches pending.new (length ((D.disk disks.new).seen pending.old.area)) }
    ensures cause { HasCause (D.count disks.old) (D.count disks.new) result }
{
    write_synced(disks, pending.area, pending.at + 1, &pending.bytes)?;
    pending.fixed = true;
    Ok(())
}

/// Writes what stands behind the seal, where that is not yet done.
fn fix<D: Disks>(pending: &mut Pending, disks: &mut D) -> Result<(), Outage>
    requires some { 0 < length pending.old.bytes.items }
    requires reach { D.told → pending.old.at ≤ length ((D.disk disks.old).seen pending.old.area) }
    ensures from { (newer : Newer) → ComesFrom (out pending.old newer) (D.disk disks.old) (out pending.new newer) (D.disk disks.new) [] }
    ensures same { IsSameBatch pending.old pending.new }
    ensures fixed { OnOk result (pending.new.fixed ≡ true) }
    ensures longer { D.told → length ((D.disk disks.old).seen pending.old.area) ≤ length ((D.disk disks.new).seen pending.old.area) }
    ensures reaches { D.told → Reaches pending.old (length ((D.disk disks.old).seen pending.old.area))
        → Reaches pending.new (length ((D.disk disks.new).seen pending.old.area)) }
    ensures cause { HasCause (D.count disks.old) (D.count disks.new) result }
{
    if pending.fixed {
        return Ok(());
    }
    close_end(pending, disks)?;
    write_body(pending, disks)
}

/// Opens the seal of a batch that stands whole behind it.
fn write_seal<D: Disks>(pending: &Pending, disks: &mut D) -> Result<(), Outage>
    requires some { 0 < length pending.now.bytes.items }
    requires fixed { pending.now.fixed ≡ true }
    requires reach { D.told → pending.now.at ≤ length ((D.disk disks.old).seen pending.now.area) }
    ensures err { (newer : Newer)
        → OnErr result (ComesFrom (out pending.now newer) (D.disk disks.old) (out pending.now newer) (D.disk disks.new) []) }
    ensures ok { (newer : Newer)
        → OnOk result (ComesFrom (out pending.now newer) (D.disk disks.old) (past pending.now newer) (D.disk disks.new) []) }
    ensures longer { D.told → length ((D.disk disks.old).seen pending.now.area) ≤ length ((D.disk disks.new).seen pending.now.area) }
    ensures cause { HasCause (D.count disks.old) (D.count disks.new) result }
{
    write_synced(disks, pending.area, pending.at, &[OPEN])
}

/// Writes a batch that has an event, and then its seal.
fn write_batch<D: Disks>(pending: &mut Pending, disks: &mut D) -> Result<(), Outage>
    requires some { 0 < length pending.old.bytes.items }
    requires reach { D.told → pending.old.at ≤ length ((D.disk disks.old).seen pending.old.area) }
    ensures err { (newer : Newer)
        → OnErr result (ComesFrom (out pending.old newer) (D.disk disks.old) (out pending.new newer) (D.disk disks.new) []) }
    ensures ok { (newer : Newer)
        → OnOk result (ComesFrom (out pending.old newer) (D.disk disks.old) (past pending.new newer) (D.disk disks.new) []) }
    ensures same { IsSameBatch pending.old pending.new }
    ensures fixed { OnOk result (pending.new.fixed ≡ true) }
    ensures reaches { D.told → Reaches pending.old (length ((D.disk disks.old).seen pending.old.area))
        → Reaches pending.new (length ((D.disk disks.new).seen pending.old.area)) }
    ensures cause { HasCause (D.count disks.old) (D.count disks.new) result }
{
    fix(pending, disks)?;
    write_seal(pending, disks)
}

/// Writes a batch that was taken out of the log, syncs it, opens its seal and syncs that. Where a part of this failed before, it
/// begins with that part. With no event no call of the disks is made. The area reaches to the seal's place.
///
/// At `Ok` all events of the batch are settled. However it ends, every image of every moment has the events that were settled
/// before, and of the others the first so many, in order. `Disk` comes only where the disks' count of faults rose, and tells it;
/// after it the batch is put back or flushed again.
pub fn flush_pending<D: Disks>(pending: &mut Pending, disks: &mut D) -> Result<(), LogFault>
    requires reach { D.told → pending.old.at ≤ length ((D.disk disks.old).seen pending.old.area) }
    ensures err { (newer : Newer)
        → OnErr result (ComesFrom (out pending.old newer) (D.disk disks.old) (out pending.new newer) (D.disk disks.new) []) }
    ensures ok { (newer : Newer)
        → OnOk result (ComesFrom (out pending.old newer) (D.disk disks.old) (past pending.new newer) (D.disk disks.new) []) }
    ensures all { (newer : Newer) → newer.bytes ≡ []
        → OnOk result (SettlesAll (out pending.old newer) (D.disk disks.old) (past pending.new newer) (D.disk disks.new)) }
    ensures same { IsSameBatch pending.old pending.new }
    ensures nothing { pending.old.bytes.items ≡ [] → disks.new ≡ disks.old }
    ensures reaches { D.told → Reaches pending.old (length ((D.disk disks.old).seen pending.old.area))
        → Reaches pending.new (length ((D.disk disks.new).seen pending.old.area)) }
    ensures reached { D.told → Reaches pending.old (length ((D.disk disks.old).seen pending.old.area))
        → OnOk result (behind pending.old ≤ length ((D.disk disks.new).seen pending.old.area)) }
    ensures later { D.count disks.old ≤ D.count disks.new }
    ensures fault { IfErr result (IsDiskFault (D.count disks.old) (D.count disks.new)) }
{
    if pending.bytes.is_empty() {
        return Ok(());
    }
    match write_batch(pending, disks) {
        Ok(()) => Ok(()),
        Err(outage) => Err(log_fault_of(disks, outage)),
    }
}
