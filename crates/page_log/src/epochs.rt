//! A new epoch: written behind a closed seal, which is then opened.

ghost use Rattle.std.specs.Prelude.{◌≡◌, ◌≢◌, ◌≤◌, ◌<◌, ◌∷◌, [], ℕ, length, All, OnOk, OnErr, IfErr};
ghost use Rattle.page_log.specs.Aside.{AreAll, IsAside, IsUnderShut, IsUnderSome, Keeps};
ghost use Rattle.page_log.specs.BothLogs.{LogsComeFrom, Begun, alone, before_next, begun_log};
ghost use Rattle.page_log.specs.Going.{Unsettled};
ghost use Rattle.page_log.specs.LogCauses.{IsDiskFault};
ghost use Rattle.page_log.specs.NewEpochs.{IsNewEpoch, IsUnder, NewEpoch, epoch_from, images_of};
ghost use Rattle.page_log.specs.Opening as openings;
ghost use Rattle.page_log.specs.Opening.{RisesBelow, parity_of};
ghost use Rattle.page_log.specs.declared.limits.TheConstants.{HEAD, OPEN};
ghost use Rattle.index_sizes.specs.declared.limits.TheConstants.{MOST_BLOCKS};
ghost use Rattle.vec_outside.specs.Causes.{HasCause};

use crate::closing::close_seal;
use crate::epoch_writing::{title, write_behind};
use crate::limits::{OPEN, SEAL};
use crate::log_fault::{LogFault, log_fault_of};
use page_bytes::Page;
use vec_outside::{Area, Disks, Outage, write_synced};

/// The log area of an epoch.
fn area_of(epoch: u64) -> Area
    ensures { result ≡ openings.area_of epoch }
{
    if epoch % 2 == 1 {
        Area::Log0
    } else {
        Area::Log1
    }
}

/// How many pairs there are.
fn count_of(which: &[(u32, u32)]) -> u32
    requires few { length which.now ≤ MOST_BLOCKS }
    ensures { result ≡ length which.now }
{
    which.len() as u32
}

/// Writes an epoch, whose seal stays closed throughout.
fn write_shut<D: Disks>(
    disks: &mut D,
    epoch: u64,
    before: u64,
    blocks: u32,
    pages: &[Page],
    which: &[(u32, u32)],
) -> Result<(), Outage>
    requires some { 1 ≤ epoch }
    requires block { 1 ≤ blocks }
    requires most { blocks ≤ MOST_BLOCKS }
    requires rising { RisesBelow 0 blocks (images_of pages.now which.now) }
    requires places { All (λ pair. pair.1 < length pages.now) which.now }
    ensures good { OnOk result (IsNewEpoch (epoch_from epoch before blocks pages.now which.now)) }
    ensures written { OnOk result (AreAll (IsUnderShut (epoch_from epoch before blocks pages.now which.now)) (openings.area_of epoch)
        (D.disk disks.new)) }
    ensures keeps { (below : ℕ) → Keeps (IsAside (parity_of (openings.area_of epoch)) below) (openings.area_of epoch)
        (D.disk disks.old) (D.disk disks.new) }
    ensures cause { HasCause (D.count disks.old) (D.count disks.new) result }
{
    let area = area_of(epoch);
    close_seal(disks, area)?;
    let title = title(epoch, before, blocks, count_of(which));
    write_behind(disks, area, &title, pages, which)
}

/// Writes an epoch with a closed seal into its area, the first log for an odd one, and makes it durable: the number of the epoch,
/// how many lasting events were before it, how many blocks the index has, and an image of each page of `which`. A pair is a block
/// and the place of its page in `pages`; blocks rise. No page is copied, and no memory is taken.
///
/// A seal that is open is closed and synced first, so that it stays closed while anything else is written. At `Ok` a crash leaves
/// the epoch there, behind a closed seal, and `open_epoch` may follow. At every moment, and after every error, the area does not
/// count beside the epoch in the other one, which stays as it is. `Disk` comes only where the disks' count of faults rose, and
/// tells it; after it the call is made again.
pub fn write_epoch<D: Disks>(
    disks: &mut D,
    epoch: u64,
    before: u64,
    blocks: u32,
    pages: &[Page],
    which: &[(u32, u32)],
) -> Result<(), LogFault>
    requires some { 1 ≤ epoch }
    requires block { 1 ≤ blocks }
    requires most { blocks ≤ MOST_BLOCKS }
    requires rising { RisesBelow 0 blocks (images_of pages.now which.now) }
    requires places { All (λ pair. pair.1 < length pages.now) which.now }

    ensures good { OnOk result (IsNewEpoch (epoch_from epoch before blocks pages.now which.now)) }
    ensures written { OnOk result (AreAll (IsUnderShut (epoch_from epoch before blocks pages.now which.now)) (openings.area_of epoch)
        (D.disk disks.new)) }

    ensures whole { D.told → OnOk result (HEAD ≤ length ((D.disk disks.new).seen (openings.area_of epoch))) }

    // However it ends: what stands in the area does not count, and the other areas stay.
    ensures keeps { (below : ℕ) → Keeps (IsAside (parity_of (openings.area_of epoch)) below) (openings.area_of epoch)
        (D.disk disks.old) (D.disk disks.new) }
    ensures from { (log : Unsettled) → log.area ≢ openings.area_of epoch
        → LogsComeFrom (alone log) (D.disk disks.old) (alone log) (D.disk disks.new) [] }

    ensures later { D.count disks.old ≤ D.count disks.new }
    ensures fault { IfErr result (IsDiskFault (D.count disks.old) (D.count disks.new)) }
{
    match write_shut(disks, epoch, before, blocks, pages, which) {
        Ok(()) => Ok(()),
        Err(outage) => Err(log_fault_of(disks, outage)),
    }
}

/// Opens the seal of an epoch that stands in its area, and makes it durable. The area has at least 40 bytes.
///
/// At `Ok` every image reads as this epoch, without events. At every moment until then, and after every error, each image reads as
/// it, or as the epoch in the other area. `Disk` comes only where the disks' count of faults rose, and tells it; after it the call
/// is made again before anything else is written.
pub fn open_epoch<D: Disks>(disks: &mut D, epoch: u64) -> Result<(), LogFault>
    requires some { 1 ≤ epoch }
    requires whole { D.told → HEAD ≤ length ((D.disk disks.old).seen (openings.area_of epoch)) }

    ensures open { (new : NewEpoch) → AreAll (IsUnderSome new) (openings.area_of epoch) (D.disk disks.old)
        → OnOk result (AreAll (IsUnder new OPEN) (openings.area_of epoch) (D.disk disks.new)) }
    ensures keeps { (new : NewEpoch) → Keeps (IsUnderSome new) (openings.area_of epoch) (D.disk disks.old) (D.disk disks.new) }

    ensures ok { (log : Unsettled) (new : NewEpoch) → new.epoch ≡ epoch → OnOk result
        (LogsComeFrom (before_next log new) (D.disk disks.old) (alone (begun_log new)) (D.disk disks.new) (Begun new ∷ [])) }
    ensures err { (log : Unsettled) (new : NewEpoch) → new.epoch ≡ epoch → OnErr result
        (LogsComeFrom (before_next log new) (D.disk disks.old) (before_next log new) (D.disk disks.new) []) }

    ensures reach { D.told → HEAD ≤ length ((D.disk disks.new).seen (openings.area_of epoch)) }
    ensures later { D.count disks.old ≤ D.count disks.new }
    ensures fault { IfErr result (IsDiskFault (D.count disks.old) (D.count disks.new)) }
{
    match write_synced(disks, area_of(epoch), SEAL as u64, &[OPEN]) {
        Ok(()) => Ok(()),
        Err(outage) => Err(log_fault_of(disks, outage)),
    }
}
