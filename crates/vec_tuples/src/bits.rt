//! Bit values in tuples: the length of the value's bytes, its count of places and its packed places.
#![tactic(auto, unfolding(crate::specs::Reading::bit_value, crate::specs::Reading::value_of, crate::specs::Reading::clear_places, byte_fields::specs::Reading::field))]

ghost use Rattle.std.specs.Prelude.{◌≡◌, ◌≤◌, ◌+◌, ◌*◌, ◌/◌, ◌++◌, ◌-◌, ◌==◌, not, false, List, Bool, length, drop, take, replicate, IfOk, IsTrue};
ghost use Rattle.std.specs.List.{list_all};
ghost use Rattle.bit_code.specs.Places.{unpacked, Packed};
ghost use Rattle.std.specs.Int.{w32, to_le_bytes};
ghost use Rattle.vec_tuples.specs.Spelling.{length_word, bits_bytes, beside};
ghost use Rattle.vec_tuples.specs.Reading.{clear_places, bit_value, value_with, value_of};
ghost use Rattle.byte_fields.specs.Answers.{Gives};

use byte_fields::{Stop, four_bytes_from, packed_places};
use index_sizes::MOST_BITS;

/// The word that stands before a value of so many places, as PostgreSQL keeps a length: the number of
/// bytes from the word on, shifted left by two.
pub fn length_word(count: u32) -> u32
    requires { count ≤ MOST_BITS }
    ensures { result ≡ length_word count }
{
    4 * (8 + (count + 7) / 8)
}

/// The packed places of a value of `count` places.
pub fn bit_value(count: u32, bytes: &[u8]) -> Result<(&[u8], &[u8]), Stop>
    requires some { 1 ≤ count }
    requires few { count ≤ MOST_BITS }
    ensures reads { Gives (λ x. (take count (unpacked x.0.now), x.1.now)) result (bit_value count bytes.now) }
    ensures kept { IfOk result (λ x. Packed count x.0.now) }
{
    let word = length_word(count);
    let (_, rest) = four_bytes_from(word, word, bytes)?;
    let (_, rest) = four_bytes_from(count, count, rest)?;
    let (places, rest) = packed_places(count, rest)?;
    Ok((places, rest))
}

/// The packed places of an element's value of `count` places; of a deleted element none is set.
pub fn value_of(deleted: bool, count: u32, bytes: &[u8]) -> Result<(&[u8], &[u8]), Stop>
    requires some { 1 ≤ count }
    requires few { count ≤ MOST_BITS }
    ensures reads { Gives (λ x. (take count (unpacked x.0.now), x.1.now)) result (value_of deleted count bytes.now) }
    ensures kept { IfOk result (λ x. Packed count x.0.now) }
{
    if deleted {
        clear_value(count, bytes)
    } else {
        bit_value(count, bytes)
    }
}

fn clear_value(count: u32, bytes: &[u8]) -> Result<(&[u8], &[u8]), Stop>
    requires some { 1 ≤ count }
    requires few { count ≤ MOST_BITS }
    ensures reads { Gives (λ x. (take count (unpacked x.0.now), x.1.now)) result (value_with (clear_places count) count bytes.now) }
    ensures kept { IfOk result (λ x. Packed count x.0.now) }
{
    let word = length_word(count);
    let (_, rest) = four_bytes_from(word, word, bytes)?;
    let (_, rest) = four_bytes_from(count, count, rest)?;
    let (places, rest) = clear_places(count, rest)?;
    Ok((places, rest))
}

fn clear_places(count: u32, bytes: &[u8]) -> Result<(&[u8], &[u8]), Stop>
    requires some { 1 ≤ count }
    requires few { count ≤ MOST_BITS }
    ensures reads { Gives (λ x. (take count (unpacked x.0.now), x.1.now)) result (clear_places count bytes.now) }
    ensures kept { IfOk result (λ x. Packed count x.0.now) }
{
    let long = (count as usize + 7) / 8;
    if bytes.len() < long {
        return Err(Stop::short(bytes));
    }
    let (front, rest) = bytes.split_at(long);
    if !are_clear(count, front) {
        return Err(Stop::bad(bytes));
    }
    Ok((front, rest))
}

/// Whether each of these bytes is 0, which then hold so many places that are not set.
fn are_clear(count: u32, bytes: &[u8]) -> bool
    requires some { 1 ≤ count }
    requires few { count ≤ MOST_BITS }
    requires long { length bytes.now ≡ (count + 7) / 8 }
    ensures told { result ≡ list_all (λ x. x == 0) bytes.now }
    ensures clear { IsTrue result → take count (unpacked bytes.now) ≡ replicate count false }
    ensures kept { IsTrue result → Packed count bytes.now }
{
    are_zero(bytes)
}

fn are_zero(bytes: &[u8]) -> bool
    ensures { result ≡ list_all (λ x. x == 0) bytes.now }
{
    bytes.iter().all(|byte| *byte == 0)
}

/// The bytes of a value before its places.
pub fn value_head(count: u32) -> [u8; 8]
    requires { count ≤ MOST_BITS }
    ensures { result ≡ to_le_bytes w32 (length_word count) ++ to_le_bytes w32 count }
{
    let w = length_word(count).to_le_bytes();
    let c = count.to_le_bytes();
    [w[0], w[1], w[2], w[3], c[0], c[1], c[2], c[3]]
}

/// Clears each place of the value that the bytes spell where its element is deleted.
pub fn clear_if(deleted: bool, value: &mut [u8])
    requires { 8 ≤ length value.old }
    ensures { (bits : List Bool) → value.old ≡ bits_bytes bits → value.new ≡ bits_bytes (beside deleted bits) }
{
    if deleted {
        clear(value);
    }
}

/// Clears the bytes from 8 on.
fn clear(value: &mut [u8])
    requires { 8 ≤ length value.old }
    ensures { value.new ≡ take 8 value.old ++ replicate (length value.old - 8) 0 }
{
    let (_, places) = value.split_at_mut(8);
    places.fill(0);
}
