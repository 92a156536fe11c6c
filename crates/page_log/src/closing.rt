//! Closing the seal of a log area before a new epoch is written there.

ghost use Rattle.std.specs.Prelude.{◌≡◌, ◌≢◌, ◌≤◌, ◌<◌, ℕ, true, false, length, slice_index, OnOk, IfOk};
ghost use Rattle.page_log.specs.Aside.{AreAll, IsAside, IsShut, Keeps};
ghost use Rattle.page_log.specs.Opening.{parity_of};
ghost use Rattle.page_log.specs.Steps.{OnlyReads};
ghost use Rattle.page_log.specs.declared.limits.TheConstants.{HEAD, OPEN, SEAL};
ghost use Rattle.vec_outside.specs.Causes.{HasCause};
ghost use Rattle.vec_outside.specs.Disk.{IsDurable};

use crate::limits::{CLOSED, HEAD, OPEN, SEAL};
use vec_outside::{Area, Disks, Outage, write_synced};

/// Whether the seal of an area is open.
fn is_open<D: Disks>(disks: &mut D, area: Area) -> Result<bool, Outage>
    requires whole { D.told → HEAD ≤ length ((D.disk disks.old).seen area) }
    ensures open { D.told → IfOk result (λ is. is ≡ true → slice_index ((D.disk disks.old).seen area) SEAL ≡ OPEN) }
    ensures shut { D.told → IfOk result (λ is. is ≡ false → slice_index ((D.disk disks.old).seen area) SEAL ≢ OPEN) }
    ensures only { OnlyReads (D.disk disks.old) (D.disk disks.new) }
    ensures cause { HasCause (D.count disks.old) (D.count disks.new) result }
{
    let mut seal = [0; 1];
    disks.read(area, SEAL as u64, &mut seal)?;
    Ok(seal[0] == OPEN)
}

/// Writes a closed seal over an open one, where a crash leaves just what is read.
fn close_open<D: Disks>(disks: &mut D, area: Area) -> Result<(), Outage>
    requires whole { D.told → HEAD ≤ length ((D.disk disks.old).seen area) }
    requires durable { IsDurable area (D.disk disks.old) }
    requires open { D.told → slice_index ((D.disk disks.old).seen area) SEAL ≡ OPEN }
    ensures keeps { (below : ℕ) → Keeps (IsAside (parity_of area) below) area (D.disk disks.old) (D.disk disks.new) }
    ensures shut { OnOk result (AreAll IsShut area (D.disk disks.new)) }
    ensures reach { D.told → OnOk result (HEAD ≤ length ((D.disk disks.new).seen area)) }
    ensures cause { HasCause (D.count disks.old) (D.count disks.new) result }
{
    write_synced(disks, area, SEAL as u64, &[CLOSED])
}

/// Closes the seal where a crash leaves just what is read. One that is closed is not written: a crash could leave it open, over
/// whatever stands before it.
fn close_durable<D: Disks>(disks: &mut D, area: Area) -> Result<(), Outage>
    requires whole { D.told → HEAD ≤ length ((D.disk disks.old).seen area) }
    requires durable { IsDurable area (D.disk disks.old) }
    ensures keeps { (below : ℕ) → Keeps (IsAside (parity_of area) below) area (D.disk disks.old) (D.disk disks.new) }
    ensures shut { OnOk result (AreAll IsShut area (D.disk disks.new)) }
    ensures reach { D.told → OnOk result (HEAD ≤ length ((D.disk disks.new).seen area)) }
    ensures cause { HasCause (D.count disks.old) (D.count disks.new) result }
{
    if is_open(disks, area)? {
        return close_open(disks, area);
    }
    Ok(())
}

/// Closes the seal of an area that has a whole header.
fn close_whole<D: Disks>(disks: &mut D, area: Area) -> Result<(), Outage>
    requires whole { D.told → HEAD ≤ length ((D.disk disks.old).seen area) }
    ensures keeps { (below : ℕ) → Keeps (IsAside (parity_of area) below) area (D.disk disks.old) (D.disk disks.new) }
    ensures shut { OnOk result (AreAll IsShut area (D.disk disks.new)) }
    ensures reach { D.told → OnOk result (HEAD ≤ length ((D.disk disks.new).seen area)) }
    ensures cause { HasCause (D.count disks.old) (D.count disks.new) result }
{
    disks.sync(area)?;
    close_durable(disks, area)
}

/// Makes an area of zeros of one that is too short for a header.
fn fill<D: Disks>(disks: &mut D, area: Area) -> Result<(), Outage>
    requires short { D.told → length ((D.disk disks.old).seen area) < HEAD }
    ensures keeps { (below : ℕ) → Keeps (IsAside (parity_of area) below) area (D.disk disks.old) (D.disk disks.new) }
    ensures shut { OnOk result (AreAll IsShut area (D.disk disks.new)) }
    ensures reach { D.told → OnOk result (HEAD ≤ length ((D.disk disks.new).seen area)) }
    ensures cause { HasCause (D.count disks.old) (D.count disks.new) result }
{
    write_synced(disks, area, 0, &[CLOSED; HEAD])
}

/// Closes the seal of an area, so that no crash leaves it open. An area that is too short for a header gets one of zeros.
pub fn close_seal<D: Disks>(disks: &mut D, area: Area) -> Result<(), Outage>
    ensures keeps { (below : ℕ) → Keeps (IsAside (parity_of area) below) area (D.disk disks.old) (D.disk disks.new) }
    ensures shut { OnOk result (AreAll IsShut area (D.disk disks.new)) }
    ensures reach { D.told → OnOk result (HEAD ≤ length ((D.disk disks.new).seen area)) }
    ensures cause { HasCause (D.count disks.old) (D.count disks.new) result }
{
    if disks.len(area)? < HEAD as u64 {
        return fill(disks, area);
    }
    close_whole(disks, area)
}
