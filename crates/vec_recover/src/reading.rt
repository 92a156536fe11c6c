//! One reading of an index.

ghost use Rattle.std.specs.Prelude.{◌≡◌, ◌≤◌, IfOk, IfErr, IfSome, ℕ, List, length};
ghost use Rattle.page_bytes.specs.Content.{Content};
ghost use Rattle.index_sizes.specs.declared.limits.TheConstants.{MOST_BLOCKS};
ghost use Rattle.vec_outside.specs.declared.disks.Area.TheVariants.{Pages};
ghost use Rattle.page_log.specs.Opening.{IsInRange, epoch_of};
ghost use Rattle.page_log.specs.Steps.{OnlyReads};
ghost use Rattle.loaded_index.specs.Loading.{CanGoOn};
ghost use Rattle.vec_recover.specs.Recovering.{IsImaged, wrap_of};
ghost use Rattle.vec_recover.specs.Parts.{AreMarked, HasLists, IsNoDisk, IsOpened, IsReadOf, IsRebuilt, IsStandingFor};
ghost use Rattle.vec_recover.specs.Telling.{IsOpenFault, IsOpening};

use crate::first_pages::first_pages;
use crate::judging::{have_bytes, params_of};
use crate::redoing::Redoing;
use crate::replaying::replay_log;
use crate::unwritten::Marks;
use loaded_index::Loaded;
use page_bytes::Page;
use page_log::{OpenFault, ReadLog, read_all};
use std::alloc::Global;
use vec_event::Event;
use vec_outside::{Area, Disks};

/// An index as one reading of the disks found it, and the form of its epoch, 1 or 2.
#[derive(Drop)]
pub struct ReadIndex {
    pub form: u8,
    pub loaded: Loaded,
}

/// An epoch as it was read, without its images.
#[derive(Drop)]
pub(crate) struct Rest {
    pub form: u8,
    pub epoch: u64,
    pub area: Area,
    pub before: u64,
    pub events: Vec<(u64, Event)>,
    pub end: u64,
    pub used: u64,
    pub bad: Option<u64>,
}

// The version at which a log of this form wraps.
fn wrap_of(form: u8) -> u8
    ensures { result ≡ wrap_of form }
{
    if form == 1 { 15 } else { 255 }
}

// What was read, with these pages.
fn read_of(rest: Rest, unwritten: Vec<u32>, pages: Vec<Page>) -> ReadIndex
    ensures { IsReadOf rest unwritten.items pages.items result }
{
    let before = rest.before.wrapping_add(rest.events.len() as u64);
    ReadIndex {
        form: rest.form,
        loaded: Loaded {
            pages,
            epoch: rest.epoch,
            area: rest.area,
            before,
            end: rest.end,
            used: rest.used,
            unwritten,
        },
    }
}

// The index of these pages before the epoch's events, with the events redone.
fn rebuild(
    alloc: Global,
    rest: Rest,
    marks: Marks,
    pages: Vec<Page>,
) -> Result<ReadIndex, OpenFault>
    requires few { length pages.items ≤ MOST_BLOCKS }
    ensures rebuilt { (images : List (ℕ × Content)) → AreMarked marks.marks.items (IsImaged images)
        → IsRebuilt rest images pages.items result }
    ensures stands { IfOk result IsStandingFor }
    ensures lists { IfOk result (HasLists rest) }
    ensures calm { IfErr result IsNoDisk }
{
    let mut pages = pages;
    let mut marks = marks;
    let params = match params_of(alloc, pages.as_slice(), rest.form) {
        Ok(params) => params,
        Err(fault) => return Err(fault),
    };
    have_bytes(pages.as_slice());
    let first = Redoing {
        params,
        wrap: wrap_of(rest.form),
        number: rest.before.wrapping_add(1),
    };
    match replay_log(rest.events.as_slice(), rest.bad, first, &mut pages) {
        Ok(None) => {}
        Ok(Some(at)) => {
            return Err(OpenFault::BadEvent {
                area: rest.area,
                at,
            });
        }
        Err(_) => return Err(OpenFault::Memory),
    }
    marks.add_events(rest.events.as_slice(), &params);
    match marks.among(alloc, pages.len() as u32) {
        Ok(unwritten) => Ok(read_of(rest, unwritten, pages)),
        Err(_) => Err(OpenFault::Memory),
    }
}

// The index of an epoch that was read.
fn open_log<D: Disks>(alloc: Global, disks: &mut D, log: ReadLog) -> Result<ReadIndex, OpenFault>
    requires { IsInRange log }
    ensures opened { D.told → IsOpened ((D.disk disks.old).seen Pages) (epoch_of log) result }
    ensures stands { IfOk result IsStandingFor }
    ensures goes { IfOk result (λ read. CanGoOn read.loaded) }
    ensures only { OnlyReads (D.disk disks.old) (D.disk disks.new) }
    ensures later { D.count disks.old ≤ D.count disks.new }
    ensures fault { IfErr result (IsOpenFault (D.count disks.old) (D.count disks.new)) }
{
    let ReadLog {
        form,
        epoch,
        area,
        before,
        blocks,
        images,
        events,
        end,
        used,
        bad,
    } = log;
    let Ok(marks) = Marks::of_images(alloc, images.as_slice()) else {
        return Err(OpenFault::Memory);
    };
    let pages = match first_pages(alloc, disks, images, blocks) {
        Ok(pages) => pages,
        Err(fault) => return Err(fault),
    };
    let rest = Rest {
        form,
        epoch,
        area,
        before,
        events,
        end,
        used,
        bad,
    };
    rebuild(alloc, rest, marks, pages)
}

/// Reads the index that the disks hold, and writes nothing: the pages of the epoch that counts, with its events redone on them.
/// None where no log area is open.
///
/// `NotIndex` names the place of what is no index's: in a log area, or of the lowest block in the page area that has no page or
/// breaks a rule; `BadEvent` that of the first batch or event that can't be taken; `Disk` comes only where the disks' count of
/// faults rose, and tells it. What is said of bytes is said where the disks tell theirs.
pub fn read_index<D: Disks>(alloc: Global, disks: &mut D) -> Result<Option<ReadIndex>, OpenFault>
    ensures recovers { D.told → IsOpening (D.disk disks.old).seen result }
    ensures goes { IfOk result (λ read. IfSome read (λ r. CanGoOn r.loaded)) }
    ensures stands { IfOk result (λ read. IfSome read IsStandingFor) }
    ensures only { OnlyReads (D.disk disks.old) (D.disk disks.new) }
    ensures later { D.count disks.old ≤ D.count disks.new }
    ensures fault { IfErr result (IsOpenFault (D.count disks.old) (D.count disks.new)) }
{
    let log = match read_all(alloc, disks) {
        Ok(Some(log)) => log,
        Ok(None) => return Ok(None),
        Err(fault) => return Err(fault),
    };
    match open_log(alloc, disks, log) {
        Ok(read) => Ok(Some(read)),
        Err(fault) => Err(fault),
    }
}
