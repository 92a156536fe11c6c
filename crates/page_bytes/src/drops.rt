//! Drops items from the bytes of a page: what stays moves up, and what it leaves becomes 0.

ghost use Rattle.std.specs.Prelude.{◌≡◌, ◌+◌, ◌-◌, ◌*◌, ◌/◌, ◌%◌, ◌^◌, ◌<◌, ◌≤◌, ◌==◌, [], length, drop, replicate, All};
ghost use Rattle.std.specs.List.{list_any, copy_within};
ghost use Rattle.std.specs.List.Sorted.{IsStrictlyIncreasing};
ghost use Rattle.page_bytes.specs.Content.{round8, taken, others};
ghost use Rattle.page_bytes.specs.Decoding.{content, Spells, IsSpelled};
ghost use Rattle.page_bytes.specs.Dropping.{Gathers, Meets};
ghost use Rattle.page_bytes.specs.Spelling.{zeros, line_pointer};
ghost use Rattle.page_bytes.specs.Splice.{spliced};

use crate::bytes::{LOWER, UPPER, put, put_pointer, round_up_8, u16_at, u32_at};
use index_sizes::{PAGE_END, PAGE_SIZE};

/// Drops the items at rising offsets.
pub fn drop_from(bytes: &mut [u8], gone: &[u16])
    requires long { length bytes.old ≡ PAGE_SIZE }
    requires page { IsSpelled bytes.old }
    requires rising { IsStrictlyIncreasing gone.now }
    requires offsets { All (λ off. 0 < off) gone.now }
    ensures { let p = content bytes.old in
        Spells bytes.new (record p { items = others gone.now 1 p.items }) }
{
    let lower = u16_at(bytes, LOWER);
    let upper = u16_at(bytes, UPPER);
    let (at, top) = gather(bytes, gone, (lower - 24) / 4);
    clear(bytes, usize::from(at), usize::from(lower));
    clear(bytes, usize::from(upper), usize::from(top));
    put(bytes, LOWER, &at.to_le_bytes());
    put(bytes, UPPER, &top.to_le_bytes());
}

/// Gathers what stays, line pointers at the front and items at the top. Gives where the line pointers end, and
/// where the items begin.
fn gather(bytes: &mut [u8], gone: &[u16], count: u16) -> (u16, u16)
    requires page { IsSpelled bytes.old }
    requires rising { IsStrictlyIncreasing gone.now }
    requires offsets { All (λ off. 0 < off) gone.now }
    requires all { count ≡ length (content bytes.old).items }
    ensures { Gathers (content bytes.old) gone.now bytes.new (count + 1) result.0 result.1 [] }
{
    let mut at = 24;
    let mut top = PAGE_END;
    let mut next = 0;
    for i in 0..count {
        if meets(gone, next, i + 1) {
            next += 1;
        } else {
            let pointer = u32_at(bytes, 24 + 4 * usize::from(i));
            top = keep(bytes, at, top, pointer);
            at += 4;
        }
    }
    (at, top)
}

/// Whether an offset is among those that go, of which the ones before `next` have been met.
fn meets(gone: &[u16], next: usize, off: u16) -> bool
    requires rising { IsStrictlyIncreasing gone.now }
    requires met { Meets gone.now next off }
    ensures { result ≡ list_any (λ g. g == off) gone.now }
{
    next < gone.len() && gone[next] == off
}

/// Moves an item up to a place below which nothing is kept, and writes its line pointer. Gives where it lies now.
fn keep(bytes: &mut [u8], at: u16, top: u16, pointer: u32) -> u16
    requires pointer_fits { at + 4 ≤ length bytes.old }
    requires item_fits { pointer % 2 ^ 15 + round8 (pointer / 2 ^ 17) ≤ top }
    requires within { top ≤ PAGE_END }
    requires page { length bytes.old ≡ PAGE_SIZE }
    ensures place { result ≡ top - round8 (pointer / 2 ^ 17) }
    ensures after { let place = pointer % 2 ^ 15 in
        let len = pointer / 2 ^ 17 in
        bytes.new ≡ spliced (copy_within bytes.old place (place + round8 len) (top - round8 len)) at (line_pointer (top - round8 len) len) }
{
    let len = pointer / 0x2_0000;
    let room = round_up_8(len as usize);
    let place = (pointer % 0x8000) as u16;
    let to = top - room;
    move_up(
        bytes,
        usize::from(place),
        usize::from(room),
        usize::from(to),
    );
    put_pointer(bytes, usize::from(at), to, len);
    to
}

/// Copies bytes within a slice, where the two places differ.
fn move_up(bytes: &mut [u8], from: usize, count: usize, to: usize)
    requires part { from + count ≤ length bytes.old }
    requires place { to + count ≤ length bytes.old }
    ensures { bytes.new ≡ copy_within bytes.old from (from + count) to }
{
    if from != to {
        bytes.copy_within(from..from + count, to);
    }
}

/// Writes zeros.
fn clear(bytes: &mut [u8], from: usize, to: usize)
    requires order { from ≤ to }
    requires within { to ≤ length bytes.old }
    ensures { bytes.new ≡ spliced bytes.old from (zeros (to - from)) }
{
    bytes[from..to].fill(0);
}
