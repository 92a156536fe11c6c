//! Numbers within bytes, their low byte first.
#![tactic(auto, unfolding(crate::specs::Decoding::half_at, crate::specs::Decoding::word_at, crate::specs::Decoding::long_at, crate::specs::Splice::spliced, crate::specs::Decoding::named_by, crate::specs::Content::round8, crate::specs::Spelling::line_pointer))]

ghost use Rattle.std.specs.Prelude.{◌≡◌, ◌+◌, ◌*◌, ◌/◌, ◌%◌, ◌^◌, ◌≤◌, ◌<◌, ℕ, List, length, slice_index, take, drop};
ghost use Rattle.page_bytes.specs.Content.{round8};
ghost use Rattle.page_bytes.specs.Decoding.{half_at, word_at, long_at, named_by};
ghost use Rattle.page_bytes.specs.Spelling.{line_pointer};
ghost use Rattle.page_bytes.specs.Splice.{spliced};

use crate::change::ItemChange;
use index_sizes::{PAGE_END, PAGE_SIZE};

/// How many bytes a page has.
pub const SIZE: usize = PAGE_SIZE;

/// The places of `pd_lower`, `pd_upper`, the next block and the kind. The special space begins with the next block.
pub const LOWER: usize = 12;

pub const UPPER: usize = 14;

pub const NEXT: usize = PAGE_END as usize;

pub const KIND: usize = 8190;

pub fn u16_at(bytes: &[u8], at: usize) -> u16
    requires { at + 2 ≤ length bytes.now }
    ensures { result ≡ half_at bytes.now at }
{
    u16::from_le_bytes([bytes[at], bytes[at + 1]])
}

pub fn u32_at(bytes: &[u8], at: usize) -> u32
    requires { at + 4 ≤ length bytes.now }
    ensures { result ≡ word_at bytes.now at }
{
    u32::from_le_bytes([bytes[at], bytes[at + 1], bytes[at + 2], bytes[at + 3]])
}

pub fn u64_at(bytes: &[u8], at: usize) -> u64
    requires { at + 8 ≤ length bytes.now }
    ensures { result ≡ long_at bytes.now at }
{
    u64::from(u32_at(bytes, at)) + u64::from(u32_at(bytes, at + 4)) * 0x1_0000_0000
}

/// Writes bytes over as many at a place.
pub fn put(bytes: &mut [u8], at: usize, part: &[u8])
    requires { at + length part.now ≤ length bytes.old }
    ensures { bytes.new ≡ spliced bytes.old at part.now }
{
    bytes[at..at + part.len()].copy_from_slice(part);
}

/// The item that a line pointer names.
pub fn item_named_by(bytes: &[u8], pointer: u32) -> &[u8]
    requires { pointer % 2 ^ 15 + pointer / 2 ^ 17 ≤ length bytes.now }
    ensures { result.now ≡ named_by bytes.now pointer }
{
    let place = (pointer % 0x8000) as usize;
    let len = (pointer / 0x2_0000) as usize;
    &bytes[place..place + len]
}

/// The least multiple of 8 that is at least the length of an item.
pub fn round_up_8(len: usize) -> u16
    requires { len ≤ PAGE_END }
    ensures { result ≡ round8 len }
{
    (len as u16 + 7) / 8 * 8
}

/// Writes the line pointer of an item, from its place and its length.
pub fn put_pointer(bytes: &mut [u8], at: usize, place: u16, len: u32)
    requires within { at + 4 ≤ length bytes.old }
    requires place { place ≤ PAGE_END }
    requires len { len ≤ PAGE_END }
    ensures { bytes.new ≡ spliced bytes.old at (line_pointer place len) }
{
    let pointer = u32::from(place) + 0x8000 + len * 0x2_0000;
    put(bytes, at, &pointer.to_le_bytes());
}

/// Changes so many bytes at a place, where they stand.
pub fn change_part<C: ItemChange>(bytes: &mut [u8], at: usize, len: usize, change: &C)
    requires within { at + len ≤ length bytes.old }
    requires fits { C.fits change.now (take len (drop at bytes.old)) }
    ensures { (x : List ℕ) × C.makes change.now (take len (drop at bytes.old)) x × (length x ≡ len)
        × (bytes.new ≡ spliced bytes.old at x) × ((k : ℕ) → slice_index x k < 2 ^ 8) }
{
    change.change(&mut bytes[at..at + len]);
}
