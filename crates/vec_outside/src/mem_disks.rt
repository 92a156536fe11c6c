// Three areas in memory. Each write and sync that was made is kept, the newest first, with the
// bytes that stood there.

use crate::areas::Areas;
use crate::crash::{Choice, left, seed_of};
use crate::draws::Draws;
use crate::plan::Plan;
use crate::timeline::Timeline;
use crate::{Area, Disks, Outage};
use std::alloc::Global;
use std::collections::VecDeque;

/// A disk of three areas in memory, of which chosen calls fail. It keeps what every moment of it
/// might have left.
#[derive(Drop)]
pub struct MemDisks {
    alloc: Global,
    timeline: Timeline,
    plan: Plan,
}

impl MemDisks {
    ghost use Rattle.std.specs.Prelude.{◌≡◌, IfOk, IfErr};
    ghost use Rattle.vec_outside.specs.Areas.{empty_image};
    ghost use Rattle.vec_outside.specs.Crash.{IsChosen};
    ghost use Rattle.vec_outside.specs.Disk.{IsDurable, IsImage, image_of};
    ghost use Rattle.vec_outside.specs.MemDisks.{mem_disk, mem_synced, disks_plan, stopped};
    ghost use Rattle.vec_outside.specs.Planned.{fresh_plan, IsFreshPlan};
    ghost use Rattle.vec_outside.specs.declared.outage.Outage.TheVariants.{Memory};
    ghost use Rattle.vec_outside.specs.declared.disks.Area.{Area};

    /// These bytes, all of them durable. The calls with the numbers in `fail` fail, counted from 1;
    /// a number that is named twice counts once.
    pub fn over(
        alloc: Global,
        pages: Vec<u8>,
        log0: Vec<u8>,
        log1: Vec<u8>,
        fail: Vec<u64>,
    ) -> MemDisks
        ensures bytes { (mem_disk result).seen ≡ image_of pages.items log0.items log1.items }
        ensures durable { (area : Area) → IsDurable area (mem_disk result) }
        ensures synced { mem_synced result ≡ image_of pages.items log0.items log1.items }
        ensures plan { disks_plan result ≡ fresh_plan fail }
    {
        MemDisks {
            alloc,
            timeline: Timeline {
                areas: Areas { pages, log0, log1 },
                done: VecDeque::new(alloc),
            },
            plan: Plan::new(fail),
        }
    }

    /// As a new disk is: no pages, and 40 zero bytes in each log, all of them durable. No call is
    /// to fail. It answers only `Memory`.
    pub fn empty(alloc: Global) -> Result<MemDisks, Outage>
        ensures bytes { IfOk result (λ disks. (mem_disk disks).seen ≡ empty_image) }
        ensures durable { IfOk result (λ disks. (area : Area) → IsDurable area (mem_disk disks)) }
        ensures synced { IfOk result (λ disks. mem_synced disks ≡ empty_image) }
        ensures plan { IfOk result (λ disks. IsFreshPlan (disks_plan disks)) }
        ensures err { IfErr result (λ outage. outage ≡ Memory) }
    {
        let log0 = vec![in alloc; 0; 40]?;
        let log1 = vec![in alloc; 0; 40]?;
        let pages = Vec::new(alloc);
        Ok(MemDisks::over(alloc, pages, log0, log1, Vec::new(alloc)))
    }

    /// The bytes of an area, as a read gives them.
    pub fn bytes(&self, area: Area) -> &[u8]
        ensures { result.now ≡ (mem_disk self.now).seen area }
    {
        self.timeline.areas.bytes(area)
    }

    /// Lets every call with a number above `calls` fail too, counted from 1 since the object was
    /// made.
    pub fn stop_after(&mut self, calls: u64)
        ensures { self.new ≡ stopped self.old calls }
    {
        self.plan.stop = calls;
    }

    /// What a crash now leaves: one of the images that it may. There nothing is pending, no call is
    /// to fail and none was made. It answers only `Memory`.
    pub fn crash(&self, choice: Choice) -> Result<MemDisks, Outage>
        ensures image { IfOk result (λ left. IsImage (mem_disk self.now) (mem_disk left).seen) }
        ensures chosen { IfOk result (λ left. (area : Area)
            → IsChosen choice ((mem_disk self.now).seen area) (mem_synced self.now area)
            ((mem_disk left).seen area)) }
        ensures durable { IfOk result (λ left. (area : Area) → IsDurable area (mem_disk left)) }
        ensures synced { IfOk result (λ left. mem_synced left ≡ (mem_disk left).seen) }
        ensures plan { IfOk result (λ left. IsFreshPlan (disks_plan left)) }
        ensures err { IfErr result (λ outage. outage ≡ Memory) }
    {
        let mut draws = Draws::from_seed(seed_of(choice));
        let line = &self.timeline;
        let pages = left(self.alloc, line, Area::Pages, choice, &mut draws)?;
        let log0 = left(self.alloc, line, Area::Log0, choice, &mut draws)?;
        let log1 = left(self.alloc, line, Area::Log1, choice, &mut draws)?;
        let fail = Vec::new(self.alloc);
        Ok(MemDisks::over(self.alloc, pages, log0, log1, fail))
    }
}

impl Disks for MemDisks {
    ghost use Rattle.std.specs.Prelude.{◌≡◌, ◌≢◌, ◌+◌, ◌≤◌, ◌↔◌, true, List, ℕ, length, take, drop, IfOk, OnOk, IsOk, IsErr, IsErrOf, is_err};
    ghost use Rattle.vec_outside.specs.declared.disks.Area.{Area};
    ghost use Rattle.vec_outside.specs.declared.outage.Outage.TheVariants.{Failed};
    ghost use Rattle.vec_outside.specs.Areas.{bytes_of};
    ghost use Rattle.vec_outside.specs.Causes.{HasCause, UnlessMemory, is_failed};
    ghost use Rattle.vec_outside.specs.Disk.{Image, IsImage, Elapses, IsKept, IsWritten, IsDurable, spliced};
    ghost use Rattle.vec_outside.specs.MemDisk.{IsPending, now_left, now_counts, now_only};
    ghost use Rattle.vec_outside.specs.MemDisks.{mem_disk, disks_plan, mem_synced, asked};
    ghost use Rattle.vec_outside.specs.Planned.{IsDue, counted};

    ghost told = { Unit {0} };

    ghost disk = { mem_disk };

    ghost count = { λ m. (disks_plan m).faults };

    ghost seen_leaves = { λ m area told. now_left area (bytes_of m.timeline.areas area) m.timeline.done.items };

    ghost leaves_told = { λ m area bytes left. tt };

    ghost counts_now = { λ m t image le is. now_counts (bytes_of m.timeline.areas) m.timeline.done.items t image is };

    ghost only_now = { λ m image since. now_only (bytes_of m.timeline.areas) m.timeline.done.items image since };

    fn len(&mut self, area: Area) -> Result<u64, Outage>
        ensures len { IfOk result (λ n. n ≡ length ((mem_disk self.old).seen area)) }
        ensures kept { IsKept (mem_disk self.old) (mem_disk self.new) }
        ensures time { Elapses (mem_disk self.old) (mem_disk self.new) }
        ensures cause { HasCause (disks_plan self.old).faults (disks_plan self.new).faults result }
        ensures due { IsErr result ↔ IsDue (disks_plan self.old) }
        ensures same { self.new ≡ asked self.old (is_err result) }
    {
        if self.plan.refuses() {
            return Err(Outage::Failed);
        }
        Ok(self.timeline.areas.bytes(area).len() as u64)
    }

    fn read(&mut self, area: Area, at: u64, into: &mut [u8]) -> Result<(), Outage>
        requires { at + length into.old ≤ length ((mem_disk self.old).seen area) }
        ensures bytes { OnOk result (into.new
            ≡ take (length into.old) (drop at ((mem_disk self.old).seen area))) }
        ensures kept { IsKept (mem_disk self.old) (mem_disk self.new) }
        ensures time { Elapses (mem_disk self.old) (mem_disk self.new) }
        ensures cause { HasCause (disks_plan self.old).faults (disks_plan self.new).faults result }
        ensures due { IsErr result ↔ IsDue (disks_plan self.old) }
        ensures same { self.new ≡ asked self.old (is_err result) }
    {
        if self.plan.refuses() {
            return Err(Outage::Failed);
        }
        let from = at as usize;
        let end = from + into.len();
        into.copy_from_slice(&self.timeline.areas.bytes(area)[from..end]);
        Ok(())
    }

    /// A write that is to fail leaves the bytes as they stand, and counts as written.
    fn write_at(&mut self, area: Area, at: u64, bytes: &[u8]) -> Result<(), Outage>
        requires { at ≤ length ((mem_disk self.old).seen area) }
        ensures bytes { OnOk result ((mem_disk self.new).seen area
            ≡ spliced ((mem_disk self.old).seen area) at bytes.now) }
        ensures written { IsWritten area at (length bytes.now) (mem_disk self.old)
            (mem_disk self.new) }
        ensures time { Elapses (mem_disk self.old) (mem_disk self.new) }
        ensures cause { HasCause (disks_plan self.old).faults (disks_plan self.new).faults result }
        ensures failed { IsErrOf result Failed
            → (mem_disk self.new).seen area ≡ (mem_disk self.old).seen area }
        ensures pending { UnlessMemory result (IsPending area at (length bytes.now)
            (mem_disk self.old) (mem_disk self.new)) }
        ensures synced { (each : Area) → mem_synced self.new each ≡ mem_synced self.old each }
        ensures due { IsErrOf result Failed → IsDue (disks_plan self.old) }
        ensures not_due { IsOk result → ¬ IsDue (disks_plan self.old) }
        ensures plan { UnlessMemory result (disks_plan self.new
            ≡ counted (disks_plan self.old) (is_err result)) }
    {
        let refused = self.plan.refuses();
        self.timeline
            .write(self.alloc, area, at as usize, bytes, !refused)?;
        if refused {
            return Err(Outage::Failed);
        }
        Ok(())
    }

    fn sync(&mut self, area: Area) -> Result<(), Outage>
        ensures durable { OnOk result (IsDurable area (mem_disk self.new)) }
        ensures kept { IsKept (mem_disk self.old) (mem_disk self.new) }
        ensures time { Elapses (mem_disk self.old) (mem_disk self.new) }
        ensures cause { HasCause (disks_plan self.old).faults (disks_plan self.new).faults result }
        ensures synced { OnOk result (mem_synced self.new area ≡ (mem_disk self.old).seen area) }
        ensures other_synced { (other : Area) → other ≢ area
            → mem_synced self.new other ≡ mem_synced self.old other }
        ensures other_leaves { (other : Area) (bytes : List ℕ) → other ≢ area
            → (mem_disk self.old).leaves other bytes → (mem_disk self.new).leaves other bytes }
        ensures failed { IsErrOf result Failed → self.new ≡ asked self.old true }
        ensures due { IsErrOf result Failed ↔ IsDue (disks_plan self.old) }
        ensures plan { disks_plan self.new ≡ counted (disks_plan self.old) (is_failed result) }
    {
        if self.plan.refuses() {
            return Err(Outage::Failed);
        }
        self.timeline.sync(area)?;
        Ok(())
    }

    fn faults(&self) -> u64 {
        self.plan.faults
    }
}
