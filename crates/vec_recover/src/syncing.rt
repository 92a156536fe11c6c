//! The areas are made durable, and then read.

ghost use Rattle.std.specs.Prelude.{◌≡◌, ◌≤◌, IfOk, IfErr, IfSome, OnOk};
ghost use Rattle.vec_outside.specs.Disk.{Image, IsDurable, IsImage};
ghost use Rattle.vec_outside.specs.declared.disks.Area.{Area as Areas};
ghost use Rattle.page_log.specs.BothLogs.{IsStanding, alone, held_of};
ghost use Rattle.page_log.specs.OpenCauses.{IsDiskFault};
ghost use Rattle.page_log.specs.Parts.{at_end};
ghost use Rattle.page_log.specs.Steps.{OnlyReads};
ghost use Rattle.loaded_index.specs.Loading.{CanGoOn};
ghost use Rattle.vec_recover.specs.Parts.{IsStandingFor};
ghost use Rattle.vec_recover.specs.Recovering.{IsRecovered, Recovery};
ghost use Rattle.vec_recover.specs.Telling.{HasSealBehind, IsOpenFault, IsOpening, Tells};

use crate::reading::{ReadIndex, read_index};
use page_log::OpenFault;
use std::alloc::Global;
use vec_outside::{Area, Disks, Outage};

// Makes an area durable.
fn sync_one<D: Disks>(disks: &mut D, area: Area) -> Result<(), OpenFault>
    ensures durable { OnOk result (IsDurable area (D.disk disks.new)) }
    ensures only { OnlyReads (D.disk disks.old) (D.disk disks.new) }
    ensures later { D.count disks.old ≤ D.count disks.new }
    ensures fault { IfErr result (IsDiskFault (D.count disks.old) (D.count disks.new)) }
{
    match disks.sync(area) {
        Ok(()) => Ok(()),
        Err(Outage::Memory) => Err(OpenFault::Memory),
        Err(Outage::Failed) => Err(OpenFault::Disk {
            count: disks.faults(),
        }),
    }
}

// Makes the three areas durable.
fn sync_all<D: Disks>(disks: &mut D) -> Result<(), OpenFault>
    ensures durable { OnOk result ((area : Areas) → IsDurable area (D.disk disks.new)) }
    ensures only { OnlyReads (D.disk disks.old) (D.disk disks.new) }
    ensures later { D.count disks.old ≤ D.count disks.new }
    ensures fault { IfErr result (IsDiskFault (D.count disks.old) (D.count disks.new)) }
{
    match sync_one(disks, Area::Pages) {
        Ok(()) => {}
        Err(fault) => return Err(fault),
    }
    match sync_one(disks, Area::Log0) {
        Ok(()) => {}
        Err(fault) => return Err(fault),
    }
    sync_one(disks, Area::Log1)
}

/// Makes the three areas durable, and then reads the index that they hold: so what is told is what any crash from then on leaves, as
/// long as nothing is written. None where no log area is open. Nothing is written.
///
/// `NotIndex`, `BadEvent` and `Disk` are as those of `read_index`; the disks' count of faults rises also where an area can't be made
/// durable.
pub fn read_durable<D: Disks>(alloc: Global, disks: &mut D) -> Result<Option<ReadIndex>, OpenFault>
    ensures recovers { D.told → IsOpening (D.disk disks.old).seen result }
    ensures crash { D.told → OnOk result ((image : Image) → IsImage (D.disk disks.new) image → IsOpening image result) }
    ensures standing { D.told → IfOk result (λ read. IfSome read (λ r. (recovery : Recovery) → Tells r recovery
        → IsRecovered (D.disk disks.old).seen recovery → HasSealBehind (D.disk disks.old).seen recovery.epoch
        → IsStanding (alone (at_end r.loaded.area r.loaded.end r.loaded.used)) (D.disk disks.new)
        (held_of (D.disk disks.new).seen recovery.epoch))) }
    ensures goes { IfOk result (λ read. IfSome read (λ r. CanGoOn r.loaded)) }
    ensures stands { IfOk result (λ read. IfSome read IsStandingFor) }
    ensures only { OnlyReads (D.disk disks.old) (D.disk disks.new) }
    ensures later { D.count disks.old ≤ D.count disks.new }
    ensures fault { IfErr result (IsOpenFault (D.count disks.old) (D.count disks.new)) }
{
    match sync_all(disks) {
        Ok(()) => read_index(alloc, disks),
        Err(fault) => Err(fault),
    }
}
