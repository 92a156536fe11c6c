//! Finds the first byte that no page with the same earlier bytes has.

ghost use Rattle.std.specs.Prelude.{◌≡◌, ℕ, ◌+◌, ◌-◌, ◌*◌, ◌/◌, ◌%◌, ◌^◌, ◌<◌, ◌≤◌, ◌≢◌, ◌==◌, if◌then◌else◌, [], MatchResult, length, slice_index};
ghost use Rattle.page_bytes.specs.Spelling.{zeros};
ghost use Rattle.page_bytes.specs.Decoding.{half_at};
ghost use Rattle.page_bytes.specs.Format.Format.{Done};
ghost use Rattle.page_bytes.specs.Format.{Format, page, ending, stack, pointers, fixed, begins_half, is_half, bad_place, first_bad, behind_upper};
ghost use Rattle.page_bytes.specs.Format.{Passes, PassesPointers, FindsHalf, FindsPlace, FindsEnds, InHalf, Allows, Room, lens_at, room_of};
ghost use Rattle.page_bytes.specs.Format.{least_upper, most_upper};

use crate::bytes::{NEXT, round_up_8, u16_at, u32_at, u64_at};
use index_sizes::{PAGE_END, PAGE_SIZE};

/// Whether a half word is a multiple of a step, from low to high.
#[tactic(auto, unfolding(crate::specs::Format::is_half))]
fn is_in(low: u16, high: u16, step: u16, number: u16) -> bool
    requires { 0 < step }
    ensures { result ≡ is_half low high step number }
{
    low <= number && number <= high && number % step == 0
}

/// Whether a byte is the first one of such a half word.
#[tactic(auto, unfolding(crate::specs::Format::begins_half))]
fn may_begin(low: u16, high: u16, step: u16, first: u8) -> bool
    requires { 0 < step }
    ensures { result ≡ begins_half low high step first }
{
    let first = u32::from(first);
    let low = u32::from(low);
    first % u32::from(step) == 0 && low + (first + 256 - low % 256) % 256 <= u32::from(high)
}

/// Reads such a half word, or gives the place where it goes wrong.
fn half_in(bytes: &[u8], at: u16, low: u16, high: u16, step: u16) -> Result<u16, u16>
    requires long { length bytes.now ≡ PAGE_SIZE }
    requires within { at + 2 ≤ PAGE_SIZE }
    requires positive { 0 < step }
    requires whole { 256 % step ≡ 0 }
    ensures { FindsHalf low high step bytes.now at result }
{
    let number = u16_at(bytes, usize::from(at));
    if is_in(low, high, step, number) {
        Ok(number)
    } else if may_begin(low, high, step, bytes[usize::from(at)]) {
        Err(at + 1)
    } else {
        Err(at)
    }
}

/// Finds the first byte that is not the one wanted there.
fn fixed_in(bytes: &[u8], at: u16, want: &[u8]) -> Result<(), u16>
    requires long { length bytes.now ≡ PAGE_SIZE }
    requires within { at + length want.now ≤ PAGE_SIZE }
    ensures { (next : Format) → Passes (fixed want.now next) next bytes.now at (at + length want.now) result }
{
    for (i, b) in want.iter().enumerate() {
        let place = at + i as u16;
        if bytes[usize::from(place)] != *b {
            return Err(place);
        }
    }
    Ok(())
}

/// Finds the first byte that is not 0, from a place up to another, which it gives where there is none.
fn past_zeros(bytes: &[u8], from: usize, to: usize) -> usize
    requires order { from ≤ to }
    requires within { to ≤ length bytes.now }
    ensures least { from ≤ result }
    ensures most { result ≤ to }
    ensures zeros { (k : ℕ) → from ≤ k → k < result → slice_index bytes.now k ≡ 0 }
    ensures stop { result < to → slice_index bytes.now result ≢ 0 }
{
    let mut at = from;
    'words: while to - at >= 8 && u64_at(bytes, at) == 0 {
        at += 8;
    }
    'bytes: while at < to && bytes[at] == 0 {
        at += 1;
    }
    at
}

/// Finds the first byte that is not 0.
fn zeros_in(bytes: &[u8], from: u16, to: u16) -> Result<(), u16>
    requires long { length bytes.now ≡ PAGE_SIZE }
    requires order { from ≤ to }
    requires within { to ≤ PAGE_SIZE }
    ensures { (next : Format) → Passes (fixed (zeros (to - from)) next) next bytes.now from to result }
{
    let at = past_zeros(bytes, usize::from(from), usize::from(to)) as u16;
    if at == to { Ok(()) } else { Err(at) }
}

/// Reads the line pointer of an item that lies right below a top, at a place from least to most, and gives its
/// place.
fn pointer_in(bytes: &[u8], at: u16, least: u16, most: u16, top: u16) -> Result<u16, u16>
    requires long { length bytes.now ≡ PAGE_SIZE }
    requires within { at + 4 ≤ PAGE_SIZE }
    requires allows { Allows least most top }
    ensures { FindsPlace least most top bytes.now at result }
{
    let low = half_in(bytes, at, least + 0x8000, most + 0x8000, 8)?;
    let room = top - (low - 0x8000);
    half_in(bytes, at + 2, 2 * room - 14, 2 * room, 2)?;
    Ok(low - 0x8000)
}

/// Where an item may lie at most that lies right below a top, with so many behind it.
fn most_place(left: u16, upper: u16, top: u16) -> u16
    requires { 8 ≤ top }
    ensures { result ≡ (if left == 0 then upper else top - 8) }
{
    if left == 0 { upper } else { top - 8 }
}

/// Reads the line pointers of items that lie from a place to the special space.
fn pointers_in(bytes: &[u8], count: u16, upper: u16) -> Result<(), u16>
    requires long { length bytes.now ≡ PAGE_SIZE }
    requires room { Room count upper PAGE_END }
    ensures { PassesPointers count upper bytes.now result }
{
    let mut top = PAGE_END;
    for i in 0..count {
        let left = count - i - 1;
        let most = most_place(left, upper, top);
        top = pointer_in(bytes, 24 + 4 * i, upper + 8 * left, most, top)?;
    }
    Ok(())
}

/// Reads the items, of which only the bytes that fill them up to a multiple of 8 are told, from the last to the first.
fn stack_in(bytes: &[u8], count: u16, upper: u16) -> Result<(), u16>
    requires long { length bytes.now ≡ PAGE_SIZE }
    requires few { 24 + 4 * count ≤ PAGE_END }
    requires room { upper + room_of (lens_at bytes.now count) ≡ PAGE_END }
    ensures { Passes (stack (lens_at bytes.now count)) ending bytes.now upper PAGE_END result }
{
    let mut at = upper;
    let mut left = count;
    'items: while left > 0 {
        left -= 1;
        let len = u32_at(bytes, 24 + 4 * usize::from(left)) / 0x2_0000;
        let end = at + round_up_8(len as usize);
        zeros_in(bytes, at + len as u16, end)?;
        at = end;
    }
    Ok(())
}

/// The least kind of pages with such a next block: only those of kind 4 have one.
fn least_kind(next: u32) -> u16
    ensures { result ≡ (if next == 0xFFFFFFFF then 1 else 4) }
{
    if next == u32::MAX { 1 } else { 4 }
}

/// Reads the special space.
fn ending_in(bytes: &[u8]) -> Result<(), u16>
    requires { length bytes.now ≡ PAGE_SIZE }
    ensures { Passes ending Done bytes.now PAGE_END PAGE_SIZE result }
{
    let next = u32_at(bytes, NEXT);
    fixed_in(bytes, 8188, &[0, 0])?;
    half_in(bytes, 8190, least_kind(next), 4, 1)?;
    Ok(())
}

/// The least place where items may end, after where the line pointers end.
fn least_end(lower: u16) -> u16
    ensures { result ≡ least_upper lower }
{
    if lower == 24 { PAGE_END } else { lower }
}

/// Reads where the line pointers end and where the items begin, and what else the header holds.
fn header_in(bytes: &[u8]) -> Result<(u16, u16), u16>
    requires { length bytes.now ≡ PAGE_SIZE }
    ensures { FindsEnds bytes.now result }
{
    fixed_in(bytes, 8, &[0, 0, 0, 0])?;
    let lower = half_in(bytes, 12, 24, 2744, 4)?;
    let upper = half_in(bytes, 14, least_end(lower), PAGE_END - 2 * (lower - 24), 8)?;
    fixed_in(bytes, 16, &[0xF8, 0x1F, 0x04, 0x20, 0, 0, 0, 0])?;
    Ok((lower, upper))
}

/// Reads what lies behind the header.
fn items_in(bytes: &[u8], lower: u16, upper: u16) -> Result<(), u16>
    requires long { length bytes.now ≡ PAGE_SIZE }
    requires lower_in { InHalf 24 2744 4 lower }
    requires upper_in { InHalf (least_upper lower) (most_upper lower) 8 upper }
    ensures { Passes (pointers ((lower - 24) / 4) (upper - lower) upper PAGE_END []) Done bytes.now 24 PAGE_SIZE result }
{
    let count = (lower - 24) / 4;
    pointers_in(bytes, count, upper)?;
    zeros_in(bytes, lower, upper)?;
    stack_in(bytes, count, upper)?;
    ending_in(bytes)?;
    Ok(())
}

/// Reads a whole page.
fn page_in(bytes: &[u8]) -> Result<(), u16>
    requires { length bytes.now ≡ PAGE_SIZE }
    ensures { MatchResult result (λ _. first_bad page bytes.now ≡ PAGE_SIZE) (λ bad. first_bad page bytes.now ≡ bad) }
{
    let (lower, upper) = header_in(bytes)?;
    items_in(bytes, lower, upper)?;
    Ok(())
}

/// The first place that no page with the same earlier bytes has, and 8,192 where the bytes are a page.
pub fn first_fault(bytes: &[u8]) -> u16
    requires { length bytes.now ≡ PAGE_SIZE }
    ensures { result ≡ first_bad page bytes.now }
{
    match page_in(bytes) {
        Ok(()) => PAGE_SIZE as u16,
        Err(at) => at,
    }
}
