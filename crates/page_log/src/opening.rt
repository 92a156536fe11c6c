//! Reading what the log areas hold.

ghost use Rattle.std.specs.Prelude.{◌≡◌, ◌+◌, ◌≤◌, ◌<◌, ◌^◌, ℕ, List, Option, Some, None, Result, Ok, Err, IfOk, IfSome, IfErr, MatchResult, nat_lt};
ghost use Rattle.std.specs.Prelude.{if◌then◌else◌};
ghost use Rattle.page_log.specs.Epoch as epochs;
ghost use Rattle.page_log.specs.OpenCauses.{IsReadFault};
ghost use Rattle.page_log.specs.Opening as openings;
ghost use Rattle.page_log.specs.Opening.{Epoch, IsCut, IsEpoch, IsInRange, IsLogOf, IsNamed, IsRead, IsReading, area_of, epoch_of, parity_of};
ghost use Rattle.page_log.specs.Steps.{OnlyReads};
ghost use Rattle.page_log.specs.declared.front.Front.{Front};
ghost use Rattle.index_sizes.specs.declared.limits.TheConstants.{LOG_ROOM, MOST_BLOCKS};
ghost use Rattle.vec_outside.specs.Causes.{HasCause};

use crate::batches::Run;
use crate::front::{Front, read_front};
use crate::head::Head;
use crate::images::{Images, read_images};
use crate::log_reading::read_batches;
use crate::opening_fault::{OpenFault, fault_of};
use page_bytes::Page;
use std::alloc::Global;
use vec_event::Event;
use vec_outside::{Area, Disks, Outage};

/// What the log areas hold: the form of the epoch that counts, its number and its area; how many lasting events were before it
/// and how many blocks the index had; its base images, rising by block; its events with the places of their first bytes; where
/// they end, and what they take of an epoch's room; and the place of the first batch or event that its own bytes make bad.
#[derive(Drop)]
pub struct ReadLog {
    pub form: u8,
    pub epoch: u64,
    pub area: Area,
    pub before: u64,
    pub blocks: u32,
    pub images: Vec<(u32, Page)>,
    pub events: Vec<(u64, Event)>,
    pub end: u64,
    pub used: u64,
    pub bad: Option<u64>,
}

/// The area that counts, with its front; None where none is open; or the area and the place of what is wrong.
type Picked = Result<Option<(Area, Front)>, (Area, u64)>;

/// Of two open areas the one of the greater epoch.
fn pick(first: Result<Option<Front>, u64>, second: Result<Option<Front>, u64>) -> Picked
    requires first { IfOk first (λ front. IfSome front (IsNamed (parity_of Area.Log0))) }
    requires second { IfOk second (λ front. IfSome front (IsNamed (parity_of Area.Log1))) }
    ensures picked { result ≡ openings.picked first second }
    ensures named { IfOk result (λ found. IfSome found (λ x. (x.0 ≡ area_of x.1.head.epoch) × IsNamed (parity_of x.0) x.1)) }
{
    let first = match first {
        Ok(front) => front,
        Err(at) => return Err((Area::Log0, at)),
    };
    let second = match second {
        Ok(front) => front,
        Err(at) => return Err((Area::Log1, at)),
    };
    match first {
        None => match second {
            None => Ok(None),
            Some(b) => Ok(Some((Area::Log1, b))),
        },
        Some(a) => match second {
            None => Ok(Some((Area::Log0, a))),
            Some(b) => Ok(Some(later(a, b))),
        },
    }
}

/// The front of the greater epoch, with its area.
fn later(first: Front, second: Front) -> (Area, Front)
    ensures { result ≡ (if nat_lt first.head.epoch second.head.epoch then (Area.Log1, second) else (Area.Log0, first)) }
{
    if first.head.epoch < second.head.epoch {
        (Area::Log1, second)
    } else {
        (Area::Log0, first)
    }
}

/// The area that counts.
fn find_epoch<D: Disks>(alloc: Global, disks: &mut D) -> Result<Picked, Outage>
    ensures chosen { D.told → IfOk result (λ found. found ≡ openings.chosen (D.disk disks.old).seen) }
    ensures named { IfOk result (λ found. IfOk found (λ found. IfSome found
        (λ x. (x.0 ≡ area_of x.1.head.epoch) × IsNamed (parity_of x.0) x.1))) }
    ensures only { OnlyReads (D.disk disks.old) (D.disk disks.new) }
    ensures cause { HasCause (D.count disks.old) (D.count disks.new) result }
{
    let first = read_front(alloc, disks, Area::Log0)?;
    let second = read_front(alloc, disks, Area::Log1)?;
    Ok(pick(first, second))
}

/// The epoch of an area with this header, whose sizes are right; or the place at which no image stands.
fn read_epoch<D: Disks>(
    alloc: Global,
    disks: &mut D,
    area: Area,
    head: Head,
) -> Result<Result<ReadLog, u64>, Outage>
    requires few { head.images ≤ MOST_BLOCKS }
    ensures epoch { D.told → IfOk result (λ read. MatchResult read
        (λ log. IsEpoch ((D.disk disks.old).seen area) (epoch_of log)) (λ at. IsCut ((D.disk disks.old).seen area) head at)) }
    ensures log { IfOk result (λ read. IfOk read (λ log. IsLogOf area head log)) }
    ensures only { OnlyReads (D.disk disks.old) (D.disk disks.new) }
    ensures cause { HasCause (D.count disks.old) (D.count disks.new) result }
{
    let Images {
        images,
        end,
        bad,
        ..
    } = read_images(alloc, disks, area, head)?;
    match bad {
        Some(at) => Ok(Err(at)),
        None => {
            let Run {
                events,
                end,
                used,
                bad,
            } = read_batches(alloc, disks, area, end)?;
            Ok(Ok(ReadLog {
                form: head.form,
                epoch: head.epoch,
                area,
                before: head.before,
                blocks: head.blocks,
                images,
                events,
                end,
                used,
                bad,
            }))
        }
    }
}

/// The epoch of the area that counts, or the place of what is wrong there.
fn read_counted<D: Disks>(
    alloc: Global,
    disks: &mut D,
    area: Area,
    front: Front,
) -> Result<Result<Option<ReadLog>, (Area, u64)>, Outage>
    requires area { area ≡ area_of front.head.epoch }
    requires named { IsNamed (parity_of area) front }
    requires chosen { D.told → openings.chosen (D.disk disks.old).seen ≡ Ok (Some (area, front)) }
    ensures read { D.told → IfOk result (IsRead (D.disk disks.old).seen) }
    ensures range { IfOk result (λ read. IfOk read (λ log. IfSome log IsInRange)) }
    ensures only { OnlyReads (D.disk disks.old) (D.disk disks.new) }
    ensures cause { HasCause (D.count disks.old) (D.count disks.new) result }
{
    match front.bad {
        Some(at) => Ok(Err((area, at))),
        None => match read_epoch(alloc, disks, area, front.head)? {
            Ok(log) => Ok(Ok(Some(log))),
            Err(at) => Ok(Err((area, at))),
        },
    }
}

/// What the log areas hold; None where none is open; or the area and the place of what is wrong.
fn read_areas<D: Disks>(
    alloc: Global,
    disks: &mut D,
) -> Result<Result<Option<ReadLog>, (Area, u64)>, Outage>
    ensures read { D.told → IfOk result (IsRead (D.disk disks.old).seen) }
    ensures range { IfOk result (λ read. IfOk read (λ log. IfSome log IsInRange)) }
    ensures only { OnlyReads (D.disk disks.old) (D.disk disks.new) }
    ensures cause { HasCause (D.count disks.old) (D.count disks.new) result }
{
    match find_epoch(alloc, disks)? {
        Err(spot) => Ok(Err(spot)),
        Ok(None) => Ok(Ok(None)),
        Ok(Some((area, front))) => read_counted(alloc, disks, area, front),
    }
}

/// What the log areas hold; None where neither is open.
///
/// Of two open areas the one of the greater epoch is read: its header, its images, and its batches up to the first that is bad,
/// or the first that has a bad event, the events before which are told. `NotIndex` comes exactly where the header of an open
/// area, or a size or an image of the one that is read, is not what an epoch has, and tells the place. Where the disks don't
/// tell their bytes it may come anywhere. `Disk` comes only where the disks' count of faults rose, and tells it; `BadEvent`
/// never comes. Nothing is written.
pub fn read_all<D: Disks>(alloc: Global, disks: &mut D) -> Result<Option<ReadLog>, OpenFault>
    ensures read { D.told → IsReading (D.disk disks.old).seen result }
    ensures range { IfOk result (λ log. IfSome log IsInRange) }
    ensures only { OnlyReads (D.disk disks.old) (D.disk disks.new) }
    ensures later { D.count disks.old ≤ D.count disks.new }
    ensures fault { IfErr result (IsReadFault (D.count disks.old) (D.count disks.new)) }
{
    match read_areas(alloc, disks) {
        Err(outage) => Err(fault_of(disks, outage)),
        Ok(Err((area, at))) => Err(OpenFault::NotIndex { area, at }),
        Ok(Ok(log)) => Ok(log),
    }
}
