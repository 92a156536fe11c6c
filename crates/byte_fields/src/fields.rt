//! Numbers, places and heap ids, each read from the front of the bytes.
#![tactic(auto, unfolding(crate::specs::Reading::byte_from, crate::specs::Reading::field, crate::specs::Reading::two_bytes_from, crate::specs::Reading::four_bytes_from, crate::specs::Reading::place, crate::specs::Reading::optional_place, crate::specs::Reading::heap_id, crate::specs::Reading::level_beside))]

ghost use Rattle.std.specs.Prelude.{◌≡◌, ◌≤◌, IfOk};
ghost use Rattle.byte_fields.specs.Reading.{byte_from, two_bytes_from, four_bytes_from, place, optional_place, heap_id, level_beside};
ghost use Rattle.byte_fields.specs.Answers.{Gives};

use crate::stop::Stop;
use vec_names::{HeapId, Tid};

/// A byte from `low` to `high`.
#[inline]
pub fn byte_from(low: u8, high: u8, bytes: &[u8]) -> Result<(u8, &[u8]), Stop>
    ensures reads { Gives (λ x. (x.0, x.1.now)) result (byte_from low high bytes.now) }
    ensures range { IfOk result (λ x. (low ≤ x.0) × (x.0 ≤ high)) }
{
    match bytes.split_first() {
        None => Err(Stop::short(bytes)),
        Some((front, rest)) => {
            if *front >= low && *front <= high {
                Ok((*front, rest))
            } else {
                Err(Stop::bad(bytes))
            }
        }
    }
}

/// A number of two bytes from `low` to `high`.
#[inline]
pub fn two_bytes_from(low: u16, high: u16, bytes: &[u8]) -> Result<(u16, &[u8]), Stop>
    ensures reads { Gives (λ x. (x.0, x.1.now)) result (two_bytes_from low high bytes.now) }
    ensures range { IfOk result (λ x. (low ≤ x.0) × (x.0 ≤ high)) }
{
    let Some((front, rest)) = bytes.split_first_chunk::<2>() else {
        return Err(Stop::short(bytes));
    };
    let number = u16::from_le_bytes(*front);
    if number >= low && number <= high {
        Ok((number, rest))
    } else {
        Err(Stop::bad(bytes))
    }
}

/// A number of four bytes from `low` to `high`.
#[inline]
pub fn four_bytes_from(low: u32, high: u32, bytes: &[u8]) -> Result<(u32, &[u8]), Stop>
    ensures reads { Gives (λ x. (x.0, x.1.now)) result (four_bytes_from low high bytes.now) }
    ensures range { IfOk result (λ x. (low ≤ x.0) × (x.0 ≤ high)) }
{
    let Some((front, rest)) = bytes.split_first_chunk::<4>() else {
        return Err(Stop::short(bytes));
    };
    let number = u32::from_le_bytes(*front);
    if number >= low && number <= high {
        Ok((number, rest))
    } else {
        Err(Stop::bad(bytes))
    }
}

/// The place of an item.
#[inline]
pub fn place(bytes: &[u8]) -> Result<(Tid, &[u8]), Stop>
    ensures { Gives (λ x. (x.0, x.1.now)) result (place bytes.now) }
{
    let Some((front, rest)) = bytes.split_first_chunk::<6>() else {
        return Err(Stop::short(bytes));
    };
    match Tid::read(*front) {
        Some(place) => Ok((place, rest)),
        None => Err(Stop::bad(bytes)),
    }
}

/// The place of an item, or that there is none.
#[inline]
pub fn optional_place(bytes: &[u8]) -> Result<(Option<Tid>, &[u8]), Stop>
    ensures { Gives (λ x. (x.0, x.1.now)) result (optional_place bytes.now) }
{
    let Some((front, rest)) = bytes.split_first_chunk::<6>() else {
        return Err(Stop::short(bytes));
    };
    match Tid::read_option(*front) {
        Some(place) => Ok((place, rest)),
        None => Err(Stop::bad(bytes)),
    }
}

/// The id of a row of the indexed table.
#[inline]
pub fn heap_id(bytes: &[u8]) -> Result<(HeapId, &[u8]), Stop>
    ensures { Gives (λ x. (x.0, x.1.now)) result (heap_id bytes.now) }
{
    let Some((front, rest)) = bytes.split_first_chunk::<6>() else {
        return Err(Stop::short(bytes));
    };
    match HeapId::read(*front) {
        Some(id) => Ok((id, rest)),
        None => Err(Stop::bad(bytes)),
    }
}

/// The level of an entry, a byte; 0 alone where there is no entry.
#[inline]
pub fn level_beside(entry: Option<Tid>, bytes: &[u8]) -> Result<(u8, &[u8]), Stop>
    ensures { Gives (λ x. (x.0, x.1.now)) result (level_beside entry bytes.now) }
{
    match entry {
        None => byte_from(0, 0, bytes),
        Some(_) => byte_from(0, 255, bytes),
    }
}
