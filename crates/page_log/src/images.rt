//! The base images of an epoch, read one after the other.

ghost use Rattle.std.specs.Prelude.{◌≡◌, ◌*◌, ◌+◌, ◌<◌, ◌≤◌, ◌^◌, ℕ, length, true, false, None, Some, IfOk, MatchOption};
ghost use Rattle.page_bytes.specs.Content.{Content};
ghost use Rattle.page_log.specs.Epoch.{IsImageAt};
ghost use Rattle.page_log.specs.ImageSteps.{TakesImage, LacksImage, Rises};
ghost use Rattle.page_log.specs.Opening.{ImagesOf, RisesBelow, images_end};
ghost use Rattle.page_log.specs.Steps.{OnlyReads};
ghost use Rattle.vec_outside.specs.Causes.{HasCause};

use crate::finding::read_bytes;
use crate::front::word_at;
use crate::head::Head;
use crate::limits::{HEAD, IMAGE};
use page_bytes::{Page, read_page};
use std::alloc::{AllocError, Global};
use vec_outside::{Area, Disks, Outage};

/// What was read of the images so far: blocks with their pages, the place of the next image and the least block that it may
/// have; and the place at which none stands.
#[derive(Drop)]
pub struct Images {
    pub images: Vec<(u32, Page)>,
    pub end: u64,
    pub least: u32,
    pub bad: Option<u64>,
}

/// The image that these bytes are, of a block from a least one on and below a number of blocks.
fn image_in(bytes: &[u8], least: u32, blocks: u32) -> Option<(u32, Page)>
    requires { length bytes.now ≡ IMAGE }
    ensures { MatchOption result ((image : ℕ × Content) → ¬ IsImageAt bytes.now blocks least 0 image)
        (λ image. IsImageAt bytes.now blocks least 0 image) }
{
    let block = word_at(bytes, 0);
    if block < least || block >= blocks {
        return None;
    }
    match read_page(&bytes[4..]) {
        Ok(page) => Some((block, page)),
        Err(_) => None,
    }
}

/// Takes in the image that these bytes are, and says whether they are one.
fn take_image(run: &mut Images, blocks: u32, bytes: &[u8]) -> Result<bool, AllocError>
    requires place { run.old.end + IMAGE < 2 ^ 64 }
    requires size { length bytes.now ≡ IMAGE }
    requires fine { run.old.bad ≡ None }
    ensures whole { IfOk result (λ goes_on. goes_on ≡ true → TakesImage bytes.now blocks 0 run.old run.new) }
    ensures stops { IfOk result (λ goes_on. goes_on ≡ false → LacksImage bytes.now blocks 0 run.old run.new) }
{
    match image_in(bytes, run.least, blocks) {
        None => {
            run.bad = Some(run.end);
            Ok(false)
        }
        Some((block, page)) => {
            run.images.push((block, page))?;
            run.least = block + 1;
            run.end += IMAGE as u64;
            Ok(true)
        }
    }
}

/// Takes in the image at the place where the others end, and says whether one stands there.
fn read_image<D: Disks>(
    alloc: Global,
    disks: &mut D,
    area: Area,
    size: u64,
    blocks: u32,
    run: &mut Images,
) -> Result<bool, Outage>
    requires size { D.told → size ≡ length ((D.disk disks.old).seen area) }
    requires place { run.old.end + IMAGE < 2 ^ 64 }
    requires fine { run.old.bad ≡ None }
    ensures whole { D.told → IfOk result (λ goes_on. goes_on ≡ true
        → TakesImage ((D.disk disks.old).seen area) blocks run.old.end run.old run.new) }
    ensures stops { D.told → IfOk result (λ goes_on. goes_on ≡ false
        → LacksImage ((D.disk disks.old).seen area) blocks run.old.end run.old run.new) }
    ensures rises { IfOk result (λ goes_on. goes_on ≡ true → Rises blocks run.old run.new) }
    ensures stays { IfOk result (λ goes_on. goes_on ≡ false
        → (run.new.images.items ≡ run.old.images.items) × (run.new.bad ≡ Some run.old.end)) }
    ensures only { OnlyReads (D.disk disks.old) (D.disk disks.new) }
    ensures cause { HasCause (D.count disks.old) (D.count disks.new) result }
{
    if size < run.end + IMAGE as u64 {
        run.bad = Some(run.end);
        return Ok(false);
    }
    let bytes = read_bytes(alloc, disks, area, run.end, IMAGE as u64)?;
    Ok(take_image(run, blocks, &bytes)?)
}

/// How many images to make room for: those that the header tells, and no more than the area has bytes for.
fn room_for(size: u64, images: u32) -> usize {
    (size / IMAGE as u64).min(u64::from(images)) as usize
}

/// The images of an epoch with this header, up to the place at which none stands.
pub fn read_images<D: Disks>(
    alloc: Global,
    disks: &mut D,
    area: Area,
    head: Head,
) -> Result<Images, Outage>
    ensures images { D.told → IfOk result (λ run. ImagesOf ((D.disk disks.old).seen area) head run.images.items run.bad) }
    ensures all { IfOk result (λ run. run.bad ≡ None → (length run.images.items ≡ head.images) × (run.end ≡ images_end head)) }
    ensures rising { IfOk result (λ run. RisesBelow 0 head.blocks run.images.items) }
    ensures only { OnlyReads (D.disk disks.old) (D.disk disks.new) }
    ensures cause { HasCause (D.count disks.old) (D.count disks.new) result }
{
    let size = disks.len(area)?;
    let mut run = Images {
        images: Vec::with_capacity(alloc, room_for(size, head.images))?,
        end: HEAD as u64,
        least: 0,
        bad: None,
    };
    for k in 0..head.images {
        if !read_image(alloc, disks, area, size, head.blocks, &mut run)? {
            return Ok(run);
        }
    }
    Ok(run)
}
