// Three areas of bytes with one clock, as the log and the pages see them.
ghost use Rattle.std.specs.Prelude.{◌≡◌, ◌+◌, ◌≤◌, ◌^◌, ◌<◌, List, ℕ, length, take, drop, IfOk, OnOk, OnErr};
ghost use Rattle.vec_outside.specs.Causes.{HasCause};
ghost use Rattle.vec_outside.specs.Disk.{Disk, Image, IsImage, Elapses, IsKept, IsWritten, IsDurable, spliced};
ghost use Rattle.vec_outside.specs.declared.disks.Area.{Area};

use crate::Outage;

/// An area of a disk: the pages, or one of the two logs.
#[derive(Clone, Copy, Debug, PartialEq, Eq)]
pub enum Area {
    Pages,
    Log0,
    Log1,
}

/// A disk of three areas, each a list of bytes with places from 0. It has one clock, and a count of
/// faults, which never falls. Since the last successful sync of an area a crash may leave any bytes
/// in each range written, any length from the old end to the new one, and the same elsewhere. A
/// failed write counts as written. A successful sync of an area leaves there what a read gives.
pub trait Disks {
    /// Whether the bytes are told. Of real files nothing is.
    ghost told: { Type 0 };

    /// What a read gives, what a crash may leave, and the clock.
    ghost disk: { Self → Disk };

    /// How many calls have failed.
    ghost count: { Self → ℕ };

    /// How many bytes an area has. Nothing changes. `Failed` comes only where the count rose.
    fn len(&mut self, area: Area) -> Result<u64, Outage>
        ensures len { told → IfOk result (λ n. n ≡ length ((disk self.old).seen area)) }
        ensures kept { IsKept (disk self.old) (disk self.new) }
        ensures time { Elapses (disk self.old) (disk self.new) }
        ensures cause { HasCause (count self.old) (count self.new) result };

    /// Fills `into` with the bytes of an area from a place on. The area reaches as far, and where a
    /// real file does not, it answers `Failed`. The disk does not change. After an error what
    /// stands in `into` is free; `Failed` comes only where the count rose.
    fn read(&mut self, area: Area, at: u64, into: &mut [u8]) -> Result<(), Outage>
        requires { told → at + length into.old ≤ length ((disk self.old).seen area) }
        ensures bytes { told → OnOk result (into.new
            ≡ take (length into.old) (drop at ((disk self.old).seen area))) }
        ensures kept { IsKept (disk self.old) (disk self.new) }
        ensures time { Elapses (disk self.old) (disk self.new) }
        ensures cause { HasCause (count self.old) (count self.new) result };

    /// Writes bytes over those of an area from a place on, and past its end. The place is at most
    /// at the end. After an error the range counts as written and may read as any bytes; `Failed`
    /// comes only where the count rose.
    fn write_at(&mut self, area: Area, at: u64, bytes: &[u8]) -> Result<(), Outage>
        requires { told → at ≤ length ((disk self.old).seen area) }
        ensures bytes { told → OnOk result ((disk self.new).seen area
            ≡ spliced ((disk self.old).seen area) at bytes.now) }
        ensures written { IsWritten area at (length bytes.now) (disk self.old) (disk self.new) }
        ensures time { Elapses (disk self.old) (disk self.new) }
        ensures cause { HasCause (count self.old) (count self.new) result };

    /// Makes an area durable: a crash then leaves there what a read gives. After an error a crash
    /// may leave what it might have left before; `Failed` comes only where the count rose.
    fn sync(&mut self, area: Area) -> Result<(), Outage>
        ensures durable { OnOk result (IsDurable area (disk self.new)) }
        ensures kept { IsKept (disk self.old) (disk self.new) }
        ensures time { Elapses (disk self.old) (disk self.new) }
        ensures cause { HasCause (count self.old) (count self.new) result };

    /// The count of faults. It asks nothing of the disk, and can't fail.
    fn faults(&self) -> u64
        ensures { result ≡ count self.now };

    /// What a read gives is one of the things that a crash may leave.
    ghost seen_leaves: { (self : Self) (area : Area) → told → (disk self).leaves area ((disk self).seen area) };

    /// Only what tells its bytes has images.
    ghost leaves_told: { (self : Self) (area : Area) (bytes : List ℕ) → (disk self).leaves area bytes → told };

    /// This moment is one of those since an earlier one.
    ghost counts_now: { (self : Self) (t : ℕ) (image : Image) → t ≤ (disk self).moment → IsImage (disk self) image
        → (disk self).left_since t image };

    /// Since this moment there is no other.
    ghost only_now: { (self : Self) (image : Image) → (disk self).left_since (disk self).moment image → IsImage (disk self) image };
}
