//! Writing an epoch behind a closed seal: its header, its images, and a closed seal behind them.

ghost use Rattle.std.specs.Prelude.{◌≡◌, ◌≤◌, ◌<◌, ◌+◌, ◌*◌, ◌^◌, ◌++◌, ◌∷◌, [], List, ℕ, length, All, slice_index, OnOk, IfOk};
ghost use Rattle.page_bytes.specs.Spelling.{spelling};
ghost use Rattle.page_bytes.specs.Content.{IsPage};
ghost use Rattle.std.specs.Int.{w32, to_le_bytes};
ghost use Rattle.page_log.specs.Aside.{IsShut, Keeps};
ghost use Rattle.page_log.specs.NewEpochs.{ArePages, images_of, spelled_images, title};
ghost use Rattle.page_log.specs.Writing.{BeginsWith, IsApart};
ghost use Rattle.page_log.specs.declared.limits.TheConstants.{HEAD, IMAGE, SEAL};
ghost use Rattle.index_sizes.specs.declared.limits.TheConstants.{MOST_BLOCKS};
ghost use Rattle.vec_outside.specs.Causes.{HasCause};
ghost use Rattle.vec_outside.specs.Disk.{IsDurable, spliced};

use crate::limits::{CLOSED, FORM_2, HEAD, IMAGE, SEAL};
use page_bytes::Page;
use vec_outside::{Area, Disks, Outage};

/// The bytes of a header before its seal.
pub fn title(epoch: u64, before: u64, blocks: u32, images: u32) -> [u8; SEAL]
    ensures { result ≡ title epoch before blocks images }
{
    let f = FORM_2.to_le_bytes();
    let e = epoch.to_le_bytes();
    let b = before.to_le_bytes();
    let k = blocks.to_le_bytes();
    let n = images.to_le_bytes();
    [
        f[0], f[1], f[2], f[3], f[4], f[5], f[6], f[7], e[0], e[1], e[2], e[3], e[4], e[5], e[6],
        e[7], b[0], b[1], b[2], b[3], b[4], b[5], b[6], b[7], k[0], k[1], k[2], k[3], n[0], n[1],
        n[2], n[3], 0, 0, 0, 0, 0, 0, 0,
    ]
}

/// Writes bytes into an area, and not over its seal.
fn write_part<D: Disks>(disks: &mut D, area: Area, at: u64, bytes: &[u8]) -> Result<(), Outage>
    requires apart { IsApart at (length bytes.now) }
    requires reach { D.told → at ≤ length ((D.disk disks.old).seen area) }
    ensures keeps { Keeps IsShut area (D.disk disks.old) (D.disk disks.new) }
    ensures bytes { D.told → OnOk result ((D.disk disks.new).seen area ≡ spliced ((D.disk disks.old).seen area) at bytes.now) }
    ensures cause { HasCause (D.count disks.old) (D.count disks.new) result }
{
    disks.write_at(area, at, bytes)
}

/// Writes bytes behind those that the area begins with, and behind its seal.
fn write_on<D: Disks>(disks: &mut D, area: Area, at: u64, bytes: &[u8]) -> Result<(), Outage>
    requires behind { HEAD ≤ at }
    requires reach { D.told → at ≤ length ((D.disk disks.old).seen area) }
    ensures keeps { Keeps IsShut area (D.disk disks.old) (D.disk disks.new) }
    ensures begins { D.told → (front : List ℕ) → length front ≡ at → BeginsWith front ((D.disk disks.old).seen area)
        → OnOk result (BeginsWith (front ++ bytes.now) ((D.disk disks.new).seen area)) }
    ensures reach { D.told → OnOk result (at + length bytes.now ≤ length ((D.disk disks.new).seen area)) }
    ensures cause { HasCause (D.count disks.old) (D.count disks.new) result }
{
    write_part(disks, area, at, bytes)
}

/// Writes the header of an epoch up to its seal.
fn write_title<D: Disks>(disks: &mut D, area: Area, title: &[u8]) -> Result<(), Outage>
    requires size { length title.now ≡ SEAL }
    requires whole { D.told → HEAD ≤ length ((D.disk disks.old).seen area) }
    ensures keeps { Keeps IsShut area (D.disk disks.old) (D.disk disks.new) }
    ensures begins { D.told → OnOk result (BeginsWith (title.now ++ slice_index ((D.disk disks.old).seen area) SEAL ∷ [])
        ((D.disk disks.new).seen area)) }
    ensures whole { D.told → OnOk result (HEAD ≤ length ((D.disk disks.new).seen area)) }
    ensures cause { HasCause (D.count disks.old) (D.count disks.new) result }
{
    write_part(disks, area, 0, title)
}

/// Writes an image behind those that stand: the block's number, and its page.
fn write_image<D: Disks>(
    disks: &mut D,
    area: Area,
    at: u64,
    block: u32,
    page: &Page,
) -> Result<(), Outage>
    requires behind { HEAD ≤ at }
    requires place { at + IMAGE < 2 ^ 64 }
    requires reach { D.told → at ≤ length ((D.disk disks.old).seen area) }
    ensures keeps { Keeps IsShut area (D.disk disks.old) (D.disk disks.new) }
    ensures begins { D.told → (front : List ℕ) → length front ≡ at → BeginsWith front ((D.disk disks.old).seen area)
        → OnOk result (BeginsWith (front ++ (to_le_bytes w32 block ++ spelling page.now)) ((D.disk disks.new).seen area)) }
    ensures reach { D.told → OnOk result (at + IMAGE ≤ length ((D.disk disks.new).seen area)) }
    ensures page { OnOk result (IsPage page.now) }
    ensures cause { HasCause (D.count disks.old) (D.count disks.new) result }
{
    write_on(disks, area, at, &block.to_le_bytes())?;
    write_on(disks, area, at + 4, page.bytes())
}

/// Writes images behind the header, and tells where they end.
fn write_images<D: Disks>(
    disks: &mut D,
    area: Area,
    pages: &[Page],
    which: &[(u32, u32)],
) -> Result<u64, Outage>
    requires places { All (λ pair. pair.1 < length pages.now) which.now }
    requires few { length which.now ≤ MOST_BLOCKS }
    requires whole { D.told → HEAD ≤ length ((D.disk disks.old).seen area) }
    ensures keeps { Keeps IsShut area (D.disk disks.old) (D.disk disks.new) }
    ensures begins { D.told → (front : List ℕ) → length front ≡ HEAD → BeginsWith front ((D.disk disks.old).seen area)
        → OnOk result (BeginsWith (front ++ spelled_images (images_of pages.now which.now)) ((D.disk disks.new).seen area)) }
    ensures reach { D.told → IfOk result (λ end. end ≤ length ((D.disk disks.new).seen area)) }
    ensures end { IfOk result (λ end. end ≡ HEAD + IMAGE * length which.now) }
    ensures size { OnOk result (length (spelled_images (images_of pages.now which.now)) ≡ IMAGE * length which.now) }
    ensures pages { OnOk result (ArePages (images_of pages.now which.now)) }
    ensures cause { HasCause (D.count disks.old) (D.count disks.new) result }
{
    let mut at = HEAD as u64;
    for pair in which {
        write_image(disks, area, at, pair.0, &pages[pair.1 as usize])?;
        at += IMAGE as u64;
    }
    Ok(at)
}

/// Writes the closed seal behind the images, and makes the area durable.
fn finish<D: Disks>(disks: &mut D, area: Area, end: u64) -> Result<(), Outage>
    requires behind { HEAD ≤ end }
    requires reach { D.told → end ≤ length ((D.disk disks.old).seen area) }
    ensures keeps { Keeps IsShut area (D.disk disks.old) (D.disk disks.new) }
    ensures begins { D.told → (front : List ℕ) → length front ≡ end → BeginsWith front ((D.disk disks.old).seen area)
        → OnOk result (BeginsWith (front ++ 0 ∷ []) ((D.disk disks.new).seen area)) }
    ensures durable { OnOk result (IsDurable area (D.disk disks.new)) }
    ensures cause { HasCause (D.count disks.old) (D.count disks.new) result }
{
    write_on(disks, area, end, &[CLOSED])?;
    disks.sync(area)
}

/// Writes an epoch behind a closed seal, with this header, and makes it durable.
pub fn write_behind<D: Disks>(
    disks: &mut D,
    area: Area,
    title: &[u8],
    pages: &[Page],
    which: &[(u32, u32)],
) -> Result<(), Outage>
    requires size { length title.now ≡ SEAL }
    requires places { All (λ pair. pair.1 < length pages.now) which.now }
    requires few { length which.now ≤ MOST_BLOCKS }
    requires whole { D.told → HEAD ≤ length ((D.disk disks.old).seen area) }
    ensures keeps { Keeps IsShut area (D.disk disks.old) (D.disk disks.new) }
    ensures begins { D.told → OnOk result (BeginsWith
        ((title.now ++ (slice_index ((D.disk disks.old).seen area) SEAL ∷ spelled_images (images_of pages.now which.now))) ++ 0 ∷ [])
        ((D.disk disks.new).seen area)) }
    ensures durable { OnOk result (IsDurable area (D.disk disks.new)) }
    ensures pages { OnOk result (ArePages (images_of pages.now which.now)) }
    ensures cause { HasCause (D.count disks.old) (D.count disks.new) result }
{
    write_title(disks, area, title)?;
    let end = write_images(disks, area, pages, which)?;
    finish(disks, area, end)
}
