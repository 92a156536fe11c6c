//! The log in memory: where it ends on the disks, and the events that are still to be written.

ghost use Rattle.std.specs.Prelude.{◌≡◌, ◌+◌, ◌-◌, ◌*◌, ◌≤◌, ◌^◌, length, vec_len, vec_capacity};
ghost use Rattle.page_log.specs.Bodies.{IsBack, bytes_back, events_back};
ghost use Rattle.page_log.specs.declared.limits.TheConstants.{HEAD, SPARE};
ghost use Rattle.index_sizes.specs.declared.limits.TheConstants.{LOG_ROOM};

use crate::bodies::{close, join, keep, put_event};
use crate::flushing::flush_pending;
use crate::limits::{HEAD, SPARE};
use crate::log_fault::LogFault;
use crate::pending::Pending;
use index_sizes::LOG_ROOM;
use std::alloc::Global;
use std::mem;
use vec_event::{Event, event_size};
use vec_outside::{Area, Disks};

/// The log of an epoch: its end on the disks, and the events that are not yet there. They stand one after the other as they are
/// to be written, behind four bytes for their length.
#[derive(Drop)]
pub struct Log {
    alloc: Global,
    epoch: u64,
    area: Area,
    end: u64,
    used: u64,
    spare: u64,
    fresh: Vec<u8>,
    count: u64,
    back: Option<Pending>,
    ghost few: { used ≤ LOG_ROOM },
    ghost headed: { 1 ≤ length fresh.items + count → (5 ≤ length fresh.items) × (1 ≤ count) },
    ghost has_room: { vec_len fresh + spare * SPARE ≤ vec_capacity fresh },
    ghost share: { length fresh.items + count + bytes_back back ≤ used },
    ghost counted: { count + events_back back ≤ used },
    ghost within: { end + length fresh.items + count ≤ 2 ^ 32 + used },
    ghost back_is: { IsBack area end back },
}

impl Log {
    ghost use Rattle.std.specs.Prelude.{◌<◌, ◌++◌, ◌∷◌, [], ℕ, List, Some, None, max, drop, true, false, OnOk, OnErr, IfOk, IfErr};
    ghost use Rattle.vec_event.specs.Spelling.{spelling, IsTyped, IsWritable};
    ghost use Rattle.page_log.specs.BothLogs.{LogsComeFrom, alone};
    ghost use Rattle.page_log.specs.Going.{ComesFrom, SettlesAll};
    ghost use Rattle.page_log.specs.LogCauses.{IsMemory, IsDiskFault, IsAppendFault};
    ghost use Rattle.page_log.specs.Opening.{area_of};
    ghost use Rattle.page_log.specs.Parts.{at_end, unsettled, newer_of, with_event, out, taken, behind, ReachesTo, IsAllOut, IsOut};

    /// The log of an epoch, in its area, which ends at a place and whose events take so much of the room. The area of an odd
    /// epoch is the first.
    pub fn over(alloc: Global, epoch: u64, area: Area, end: u64, used: u64) -> Log
        requires epoch { 1 ≤ epoch }
        requires area { area ≡ area_of epoch }
        requires header { HEAD ≤ end }
        requires end { end ≤ 2 ^ 32 }
        requires used { used ≤ LOG_ROOM }
        ensures log { unsettled result ≡ at_end area end used }
        ensures epoch { result.epoch ≡ epoch }
        ensures spare { result.spare ≡ 0 }
    {
        Log {
            alloc,
            epoch,
            area,
            end,
            used,
            spare: 0,
            fresh: Vec::new(alloc),
            count: 0,
            back: None,
        }
    }

    /// The number of the epoch.
    pub fn epoch(&self) -> u64
        ensures { result ≡ self.now.epoch }
    {
        self.epoch
    }

    /// What all events of the epoch take of its room, five bytes each beside their own.
    pub fn used(&self) -> u64
        ensures used { result ≡ (newer_of self.now).used }
        ensures few { result ≤ LOG_ROOM }
    {
        self.used
    }

    /// Makes the spare at least so many events, which `append` then takes without memory. The only fault is `Memory`.
    pub fn reserve(&mut self, events: u32) -> Result<(), LogFault>
        ensures spare { OnOk result (self.new.spare ≡ max self.old.spare events) }
        ensures err { OnErr result (self.new.spare ≡ self.old.spare) }
        ensures memory { IfErr result IsMemory }
        ensures same { unsettled self.new ≡ unsettled self.old }
        ensures epoch { self.new.epoch ≡ self.old.epoch }
        ensures out { (pending : Pending) → IsOut self.old pending → IsOut self.new pending }
    {
        let events = u64::from(events);
        if events <= self.spare {
            return Ok(());
        }
        self.fresh.reserve(events as usize * SPARE)?;
        self.spare = events;
        Ok(())
    }

    /// Takes an event, of which the log keeps the bytes, and one of the spare. `Full` comes exactly where the event has no room
    /// in the epoch, and `Memory` only where there was no spare. After either the log is as before.
    pub fn append(&mut self, event: &Event) -> Result<(), LogFault>
        requires { IsWritable event.now }
        ensures ok { OnOk result (unsettled self.new ≡ with_event (unsettled self.old) event.now) }
        ensures typed { IsTyped event.now }
        ensures room { OnOk result ((newer_of self.new).used ≤ LOG_ROOM) }
        ensures spare { OnOk result (self.new.spare ≡ self.old.spare - 1) }
        ensures err { OnErr result ((unsettled self.new ≡ unsettled self.old) × (self.new.spare ≡ self.old.spare)) }
        ensures fault { IfErr result (IsAppendFault (newer_of self.old).used self.old.spare event.now) }
        ensures epoch { self.new.epoch ≡ self.old.epoch }
        ensures out { (pending : Pending) → IsOut self.old pending → IsOut self.new pending }
    {
        keep(event);
        let size = event_size(event);
        if LOG_ROOM - self.used < size + 5 {
            return Err(LogFault::Full {
                used: self.used,
                size,
            });
        }
        put_event(&mut self.fresh, event, size)?;
        self.used += size + 5;
        self.count += 1;
        self.spare = self.spare.saturating_sub(1);
        Ok(())
    }
    /// Takes out the events that are not yet taken out, to be written to the disks: a fixed batch that was put back alone, and
    /// else what was put back with all newer events. The spare stays. The only fault is `Memory`, and then the log is as before.
    pub fn take(&mut self) -> Result<Pending, LogFault>
        ensures taken { IfOk result (λ pending. out pending (newer_of self.new) ≡ taken (unsettled self.old)) }
        ensures out { IfOk result (IsOut self.new) }
        ensures err { OnErr result (unsettled self.new ≡ unsettled self.old) }
        ensures memory { IfErr result IsMemory }
        ensures spare { self.new.spare ≡ self.old.spare }
        ensures epoch { self.new.epoch ≡ self.old.epoch }
        ensures used { self.new.used ≡ self.old.used }
    {
        match self.back.take() {
            None => self.take_newer(),
            Some(pending) => self.take_back(pending),
        }
    }

    /// The newer events alone.
    fn take_newer(&mut self) -> Result<Pending, LogFault>
        requires { self.old.back ≡ None }
        ensures taken { IfOk result (λ pending. out pending (newer_of self.new) ≡ taken (unsettled self.old)) }
        ensures out { IfOk result (IsOut self.new) }
        ensures err { OnErr result (unsettled self.new ≡ unsettled self.old) }
        ensures memory { IfErr result IsMemory }
        ensures spare { self.new.spare ≡ self.old.spare }
        ensures epoch { self.new.epoch ≡ self.old.epoch }
        ensures used { self.new.used ≡ self.old.used }
    {
        let at = self.end;
        if self.fresh.is_empty() {
            return Ok(Pending {
                bytes: Vec::new(self.alloc),
                events: 0,
                area: self.area,
                at,
                fixed: false,
                bare: false,
            });
        }
        let mut bytes = Vec::new(self.alloc);
        bytes.reserve(self.spare as usize * SPARE)?;
        close(&mut self.fresh)?;
        mem::swap(&mut self.fresh, &mut bytes);
        self.end += bytes.len() as u64;
        Ok(Pending {
            bytes,
            events: mem::replace(&mut self.count, 0),
            area: self.area,
            at,
            fixed: false,
            bare: false,
        })
    }

    /// A batch that was put back, joined with the newer events where it is not fixed.
    fn take_back(&mut self, mut pending: Pending) -> Result<Pending, LogFault>
        requires { IsOut self.old pending }
        ensures taken { IfOk result (λ next. out next (newer_of self.new) ≡ taken (out pending (newer_of self.old))) }
        ensures out { IfOk result (IsOut self.new) }
        ensures err { OnErr result (unsettled self.new ≡ out pending (newer_of self.old)) }
        ensures memory { IfErr result IsMemory }
        ensures spare { self.new.spare ≡ self.old.spare }
        ensures epoch { self.new.epoch ≡ self.old.epoch }
        ensures used { self.new.used ≡ self.old.used }
    {
        if pending.fixed {
            return Ok(pending);
        }
        match join(&mut pending.bytes, &self.fresh) {
            Ok(()) => {
                self.end = pending.at + pending.bytes.len() as u64;
                self.fresh.clear();
                pending.events += mem::replace(&mut self.count, 0);
                Ok(pending)
            }
            Err(_) => {
                self.put_back(pending);
                Err(LogFault::Memory)
            }
        }
    }

    /// Puts back a batch that was taken out and not settled. It takes no memory.
    pub fn put_back(&mut self, pending: Pending)
        requires { IsOut self.old pending }
        ensures back { unsettled self.new ≡ out pending (newer_of self.old) }
        ensures spare { self.new.spare ≡ self.old.spare }
        ensures epoch { self.new.epoch ≡ self.old.epoch }
        ensures used { self.new.used ≡ self.old.used }
    {
        self.back = Some(pending);
    }
    /// Settles all events. The area reaches to the log's end, and behind a batch that is fixed. With nothing to be written no
    /// call of the disks is made.
    ///
    /// At `Ok` all events are settled. However it ends, every image of every moment has the events that were settled before, and
    /// of the others the first so many, in order. `Disk` comes only where the disks' count of faults rose, and tells it; after it
    /// and after want of memory a later flush goes on from there.
    pub fn flush<D: Disks>(&mut self, disks: &mut D) -> Result<(), LogFault>
        requires reach { D.told → ReachesTo (unsettled self.old) (length ((D.disk disks.old).seen (unsettled self.old).area)) }
        ensures from { ComesFrom (unsettled self.old) (D.disk disks.old) (unsettled self.new) (D.disk disks.new) [] }
        ensures logs { LogsComeFrom (alone (unsettled self.old)) (D.disk disks.old) (alone (unsettled self.new)) (D.disk disks.new) [] }
        ensures all { OnOk result (SettlesAll (unsettled self.old) (D.disk disks.old) (unsettled self.new) (D.disk disks.new)) }
        ensures none { OnOk result (IsAllOut (unsettled self.new)) }
        ensures reach { D.told → ReachesTo (unsettled self.new) (length ((D.disk disks.new).seen (unsettled self.new).area)) }
        ensures nothing { IsAllOut (unsettled self.old) → disks.new ≡ disks.old }
        ensures later { D.count disks.old ≤ D.count disks.new }
        ensures fault { IfErr result (IsDiskFault (D.count disks.old) (D.count disks.new)) }
        ensures spare { self.new.spare ≡ self.old.spare }
        ensures epoch { self.new.epoch ≡ self.old.epoch }
        ensures used { self.new.used ≡ self.old.used }
    {
        self.flush_part(disks)?;
        if self.count == 0 {
            return Ok(());
        }
        self.flush_part(disks)
    }

    /// Settles a fixed batch that was put back, or else all events.
    fn flush_part<D: Disks>(&mut self, disks: &mut D) -> Result<(), LogFault>
        requires reach { D.told → ReachesTo (unsettled self.old) (length ((D.disk disks.old).seen (unsettled self.old).area)) }
        ensures from { ComesFrom (unsettled self.old) (D.disk disks.old) (unsettled self.new) (D.disk disks.new) [] }
        ensures none { OnOk result ((unsettled self.new).body ≡ []) }
        ensures still { IsAllOut (unsettled self.old) → OnOk result (self.new.count ≡ 0) }
        ensures open { OnOk result ((unsettled self.new).fixed ≡ false) }
        ensures all { (unsettled self.old).fixed ≡ false → OnOk result ((newer_of self.new).bytes ≡ []) }
        ensures reach { D.told → ReachesTo (unsettled self.new) (length ((D.disk disks.new).seen (unsettled self.new).area)) }
        ensures nothing { IsAllOut (unsettled self.old) → disks.new ≡ disks.old }
        ensures later { D.count disks.old ≤ D.count disks.new }
        ensures fault { IfErr result (IsDiskFault (D.count disks.old) (D.count disks.new)) }
        ensures spare { self.new.spare ≡ self.old.spare }
        ensures epoch { self.new.epoch ≡ self.old.epoch }
        ensures used { self.new.used ≡ self.old.used }
    {
        let mut pending = self.take()?;
        match flush_pending(&mut pending, disks) {
            Ok(()) => Ok(()),
            Err(fault) => {
                self.put_back(pending);
                Err(fault)
            }
        }
    }
}
