//! The front of a log area: its header.

ghost use Rattle.std.specs.Prelude.{◌≡◌, ℕ, ◌+◌, ◌%◌, ◌<◌, ◌≤◌, length, take, drop, Option, None, IfOk, IfSome};
ghost use Rattle.std.specs.List.{list_all};
ghost use Rattle.index_sizes.specs.declared.limits.TheConstants.{MOST_BLOCKS};
ghost use Rattle.page_log.specs.Epoch as epochs;
ghost use Rattle.page_log.specs.Opening as openings;
ghost use Rattle.page_log.specs.Opening.{IsNamed, parity_of};
ghost use Rattle.page_log.specs.Steps.{OnlyReads};
ghost use Rattle.page_log.specs.declared.limits.TheConstants.{HEAD};
ghost use Rattle.vec_outside.specs.Causes.{HasCause};

use crate::finding::read_bytes;
use crate::head::Head;
use crate::limits::{FORM_1, FORM_2, HEAD, OPEN};
use index_sizes::MOST_BLOCKS;
use std::alloc::Global;
use vec_outside::{Area, Disks, Outage};

/// The header of an open area, and the place of what is wrong with its sizes.
#[derive(Clone, Copy)]
pub struct Front {
    pub head: Head,
    pub bad: Option<u64>,
}

/// The number of 4 bytes at a place.
pub fn word_at(bytes: &[u8], at: usize) -> u32
    requires { at + 4 ≤ length bytes.now }
    ensures { result ≡ epochs.word_at bytes.now at }
{
    let mut four = [0; 4];
    four.copy_from_slice(&bytes[at..at + 4]);
    u32::from_le_bytes(four)
}

/// The number of 8 bytes at a place.
fn long_at(bytes: &[u8], at: usize) -> u64
    requires { at + 8 ≤ length bytes.now }
    ensures { result ≡ epochs.long_at bytes.now at }
{
    let mut eight = [0; 8];
    eight.copy_from_slice(&bytes[at..at + 8]);
    u64::from_le_bytes(eight)
}

/// The form that the magic tells, 0 where it is none.
fn form_in(front: &[u8]) -> u8
    requires { length front.now ≡ HEAD }
    ensures { result ≡ epochs.form_in front.now }
{
    let magic = long_at(front, 0);
    if magic == FORM_1 {
        return 1;
    }
    if magic == FORM_2 {
        return 2;
    }
    0
}

/// The header that these bytes are, whatever it says.
fn head_in(front: &[u8]) -> Head
    requires { length front.now ≡ HEAD }
    ensures { result ≡ epochs.head_in front.now }
{
    Head {
        form: form_in(front),
        epoch: long_at(front, 8),
        before: long_at(front, 16),
        blocks: word_at(front, 24),
        images: word_at(front, 28),
    }
}

/// The header, or the place of what is wrong with its magic or its epoch.
fn named_head(parity: u64, front: &[u8]) -> Result<Head, u64>
    requires { length front.now ≡ HEAD }
    ensures { result ≡ epochs.named_head parity front.now }
{
    let head = head_in(front);
    if head.form == 0 {
        return Err(0);
    }
    if head.epoch >= 1 && head.epoch % 2 == parity {
        return Ok(head);
    }
    Err(8)
}

/// Whether the bytes between the sizes and the seal are zeros.
fn has_zeros(front: &[u8]) -> bool
    requires { length front.now ≡ HEAD }
    ensures { result ≡ epochs.has_zeros front.now }
{
    front[32..39].iter().all(|b| *b == 0)
}

/// The place of what is wrong with the sizes or the zeros.
fn bad_size(front: &[u8]) -> Option<u64>
    requires { length front.now ≡ HEAD }
    ensures { result ≡ epochs.bad_size front.now }
{
    let blocks = word_at(front, 24);
    if blocks < 1 || blocks > MOST_BLOCKS {
        return Some(24);
    }
    if word_at(front, 28) > blocks {
        return Some(28);
    }
    if has_zeros(front) { None } else { Some(32) }
}

/// What a whole header says, where its seal is open.
fn front_at(parity: u64, front: &[u8]) -> Result<Option<Front>, u64>
    requires { length front.now ≡ HEAD }
    ensures same { result ≡ openings.front_at parity front.now }
    ensures named { IfOk result (λ found. IfSome found (IsNamed parity)) }
{
    if front[39] != OPEN {
        return Ok(None);
    }
    let head = named_head(parity, front)?;
    Ok(Some(Front {
        head,
        bad: bad_size(front),
    }))
}

/// The parity of the epochs of a log area.
fn parity_of(area: Area) -> u64
    ensures { result ≡ parity_of area }
{
    match area {
        Area::Log0 => 1,
        _ => 0,
    }
}

/// What stands at the front of a log area.
pub fn read_front<D: Disks>(
    alloc: Global,
    disks: &mut D,
    area: Area,
) -> Result<Result<Option<Front>, u64>, Outage>
    ensures front { D.told → IfOk result (λ found. found ≡ openings.front_at (parity_of area) ((D.disk disks.old).seen area)) }
    ensures named { IfOk result (λ found. IfOk found (λ front. IfSome front (IsNamed (parity_of area)))) }
    ensures only { OnlyReads (D.disk disks.old) (D.disk disks.new) }
    ensures cause { HasCause (D.count disks.old) (D.count disks.new) result }
{
    if disks.len(area)? < HEAD as u64 {
        return Ok(Ok(None));
    }
    let front = read_bytes(alloc, disks, area, 0, HEAD as u64)?;
    Ok(front_at(parity_of(area), &front))
}
