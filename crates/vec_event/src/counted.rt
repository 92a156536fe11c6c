//! Fields that begin with a count: bit values, lists of optional places, offsets.
#![tactic(auto, unfolding(crate::specs::Reading::bits, crate::specs::Reading::lists, byte_fields::specs::Reading::slot_of, crate::specs::Reading::offsets, crate::specs::Reading::two_bytes_above, byte_fields::specs::Reading::field))]

ghost use Rattle.std.specs.Prelude.{◌≡◌, ◌≤◌};
ghost use Rattle.byte_fields.specs.Reading.{packed_places};
ghost use Rattle.byte_fields.specs.Answers.{Gives, GivesOr};
ghost use Rattle.vec_event.specs.Reading.{bits, lists, two_bytes_above, rising, offsets};

use bit_code::Bits;
use byte_fields::{Halt, Stop, four_bytes_from, packed_places, slots, two_bytes_from};
use index_sizes::{MOST_BITS, MOST_SLOTS};
use std::alloc::Global;
use vec_names::{Listed, Tid};

/// A bit value: four bytes of its count of places, and the packed places.
pub fn bits(alloc: Global, bytes: &[u8]) -> Result<(Bits, &[u8]), Halt>
    ensures { GivesOr (λ x. (x.0, x.1.now)) result (bits bytes.now) }
{
    let (count, rest) = four_bytes_from(1, MOST_BITS, bytes)?;
    packed(alloc, count, rest)
}

/// The packed places of a value of `count` places.
fn packed(alloc: Global, count: u32, bytes: &[u8]) -> Result<(Bits, &[u8]), Halt>
    requires some { 1 ≤ count }
    requires few { count ≤ MOST_BITS }
    ensures { GivesOr (λ x. (x.0, x.1.now)) result (packed_places count bytes.now) }
{
    let (front, rest) = packed_places(count, bytes)?;
    match Bits::from_bytes(alloc, count, front) {
        Ok(bits) => Ok((bits, rest)),
        Err(_) => Err(Halt::Memory),
    }
}

/// A count of two bytes, at most 1,358, and that many optional places.
pub fn lists(alloc: Global, bytes: &[u8]) -> Result<(Listed<Option<Tid>>, &[u8]), Halt>
    ensures { GivesOr (λ x. (x.0, x.1.now)) result (lists bytes.now) }
{
    let (count, rest) = two_bytes_from(0, MOST_SLOTS as u16, bytes)?;
    slots(alloc, false, count, rest)
}

/// A count of two bytes, at least 1, and that many offsets, each above the one before.
pub fn offsets(alloc: Global, bytes: &[u8]) -> Result<(Listed<u16>, &[u8]), Halt>
    ensures { GivesOr (λ x. (x.0, x.1.now)) result (offsets bytes.now) }
{
    let (count, rest) = two_bytes_from(1, 65_535, bytes)?;
    rising(alloc, count, rest)
}

fn rising(alloc: Global, count: u16, bytes: &[u8]) -> Result<(Listed<u16>, &[u8]), Halt>
    ensures { GivesOr (λ x. (x.0, x.1.now)) result (rising 0 count bytes.now) }
{
    let mut offsets = Vec::with_capacity(alloc, count as usize)?;
    let mut rest = bytes;
    let mut low = 0u16;
    'offsets: for _ in 0..count {
        let (offset, after) = two_bytes_above(low, rest)?;
        offsets.push(offset)?;
        low = offset;
        rest = after;
    }
    Ok((Listed::from_vec(offsets), rest))
}

/// A number of two bytes above `low`.
fn two_bytes_above(low: u16, bytes: &[u8]) -> Result<(u16, &[u8]), Stop>
    ensures { Gives (λ x. (x.0, x.1.now)) result (two_bytes_above low bytes.now) }
{
    let Some((front, rest)) = bytes.split_first_chunk::<2>() else {
        return Err(Stop::short(bytes));
    };
    let number = u16::from_le_bytes(*front);
    if number > low {
        Ok((number, rest))
    } else {
        Err(Stop::bad(bytes))
    }
}
