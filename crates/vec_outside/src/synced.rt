// One write with its sync, as all that writes to the disks does it.
ghost use Rattle.std.specs.Prelude.{◌≡◌, ◌≤◌, List, ℕ, length, OnOk};
ghost use Rattle.vec_outside.specs.Causes.{HasCause};
ghost use Rattle.vec_outside.specs.Disk.{IsWritten, IsTornImage, LeavesOnly, spliced};

use crate::{Area, Disks, Outage};

/// Writes bytes over those of an area from a place on, and past its end, and syncs the area. The
/// place is at most at the end. At `Ok` a crash leaves these bytes there; at every moment until
/// then it leaves what it might have left before, with any bytes in the range. After an error the
/// range counts as written; `Failed` comes only where the count rose.
pub fn write_synced<D: Disks>(
    disks: &mut D,
    area: Area,
    at: u64,
    bytes: &[u8],
) -> Result<(), Outage>
    requires { D.told → at ≤ length ((D.disk disks.old).seen area) }
    ensures bytes { D.told → OnOk result ((D.disk disks.new).seen area
        ≡ spliced ((D.disk disks.old).seen area) at bytes.now) }
    ensures written { IsWritten area at (length bytes.now) (D.disk disks.old) (D.disk disks.new) }
    ensures durable { OnOk result ((left : List ℕ) → (D.disk disks.new).leaves area left
        → left ≡ spliced ((D.disk disks.old).seen area) at bytes.now) }
    ensures moments { LeavesOnly (D.disk disks.old) (D.disk disks.new)
        (IsTornImage area at (length bytes.now) (D.disk disks.old)) }
    ensures cause { HasCause (D.count disks.old) (D.count disks.new) result }
{
    disks.write_at(area, at, bytes)?;
    disks.sync(area)
}
