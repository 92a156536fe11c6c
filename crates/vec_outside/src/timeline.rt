// Three areas in memory, with each write and sync that was made, the newest first, and the bytes
// that a write took the place of: so what every moment might have left can be told, and a write
// costs its piece.
ghost use Rattle.std.specs.Prelude.{◌≡◌, ◌≢◌, ◌+◌, ◌≤◌, [], ◌∷◌, ◌++◌, List, ℕ, IsTrue, IsErr, length, take, drop, Vec, IfOk, OnOk, OnErr};
ghost use Rattle.std.specs.Bool.{OnTrue, OnFalse};
ghost use Rattle.vec_outside.specs.Disk.{Elapses, IsKept, IsTorn, IsWritten, IsDurable, spliced};
ghost use Rattle.std.specs.declared.alloc.Global.{Global};
ghost use Rattle.vec_outside.specs.declared.disks.Area.{Area};
ghost use Rattle.vec_outside.specs.declared.timeline.Call.TheVariants.{Wrote};
ghost use Rattle.vec_outside.specs.MemWrite.{IsWriteOf};

use crate::Area;
use crate::areas::{Areas, replaced};
use std::alloc::{AllocError, Global};
use std::collections::VecDeque;

/// A range of an area that counts as written.
#[derive(Drop)]
pub struct Write {
    pub area: Area,
    pub at: usize,
    pub len: usize,
    /// What stood in the range: fewer bytes, where it reached past the end.
    pub was: Vec<u8>,
    /// Of a write that failed, the bytes that it did not leave there.
    pub refused: Vec<u8>,
}

/// A write that succeeded or failed, or a sync that succeeded.
#[derive(Drop)]
pub enum Call {
    Wrote(Write),
    Synced(Area),
}

#[derive(Drop)]
pub struct Timeline {
    pub areas: Areas,
    pub done: VecDeque<Call>,
}

// The bytes of a write that failed, and none of another.
fn refused_bytes(alloc: Global, bytes: &[u8], takes: bool) -> Result<Vec<u8>, AllocError> {
    if takes {
        return Ok(Vec::new(alloc));
    }
    let refused = bytes.to_vec(alloc)?;
    Ok(refused)
}

// A write of a range of an area, with the bytes that stand there.
fn write_over(
    alloc: Global,
    area: Area,
    now: &[u8],
    at: usize,
    bytes: &[u8],
    takes: bool,
) -> Result<Write, AllocError>
    requires { at ≤ length now.now }
    ensures whole { IfOk result (λ write. IsWriteOf area at (length bytes.now) write) }
    ensures was { IfOk result (λ write. write.was.items ≡ take (length bytes.now) (drop at now.now)) }
{
    let was = replaced(alloc, now, at, bytes.len())?;
    let refused = refused_bytes(alloc, bytes, takes)?;
    Ok(Write {
        area,
        at,
        len: bytes.len(),
        was,
        refused,
    })
}

impl Timeline {
    ghost use Rattle.vec_outside.specs.Areas.{bytes_of};
    ghost use Rattle.vec_outside.specs.MemDisk.{timeline_disk, synced_image, IsPending};

    /// A write that the areas take, or one that failed and left the bytes as they stood.
    pub fn write(
        &mut self,
        alloc: Global,
        area: Area,
        at: usize,
        bytes: &[u8],
        takes: bool,
    ) -> Result<(), AllocError>
        requires { at ≤ length (bytes_of self.old.areas area) }
        ensures taken { OnOk result (OnTrue takes (bytes_of self.new.areas area
            ≡ spliced (bytes_of self.old.areas area) at bytes.now)) }
        ensures failed { OnOk result (OnFalse takes (bytes_of self.new.areas area
            ≡ bytes_of self.old.areas area)) }
        ensures written { IsWritten area at (length bytes.now) (timeline_disk self.old)
            (timeline_disk self.new) }
        ensures pending { OnOk result (IsPending area at (length bytes.now)
            (timeline_disk self.old) (timeline_disk self.new)) }
        ensures synced { (each : Area) → synced_image self.new each ≡ synced_image self.old each }
        ensures time { Elapses (timeline_disk self.old) (timeline_disk self.new) }
    {
        let now = self.areas.bytes(area);
        let write = write_over(alloc, area, now, at, bytes, takes)?;
        self.done.push_front(Call::Wrote(write))?;
        self.areas.overwrite_if(takes, area, at, bytes)
    }

    /// A sync that succeeds.
    pub fn sync(&mut self, area: Area) -> Result<(), AllocError>
        ensures areas { self.new.areas ≡ self.old.areas }
        ensures durable { OnOk result (IsDurable area (timeline_disk self.new)) }
        ensures kept { IsKept (timeline_disk self.old) (timeline_disk self.new) }
        ensures synced { OnOk result (synced_image self.new area ≡ bytes_of self.old.areas area) }
        ensures other_synced { (other : Area) → other ≢ area
            → synced_image self.new other ≡ synced_image self.old other }
        ensures other_leaves { (other : Area) (bytes : List ℕ) → other ≢ area
            → (timeline_disk self.old).leaves other bytes → (timeline_disk self.new).leaves other bytes }
        ensures err { OnErr result (self.new.done.items ≡ self.old.done.items) }
        ensures time { Elapses (timeline_disk self.old) (timeline_disk self.new) }
    {
        self.done.push_front(Call::Synced(area))?;
        Ok(())
    }
}
