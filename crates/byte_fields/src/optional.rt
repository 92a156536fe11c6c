//! Optional places one after the other, as the slots of an element's neighbours.

ghost use Rattle.std.specs.Prelude.{◌≡◌};
ghost use Rattle.byte_fields.specs.Reading.{no_place, slot_of, times};
ghost use Rattle.byte_fields.specs.Answers.{Gives, GivesOr};

use crate::fields::optional_place;
use crate::stop::{Halt, Stop};
use std::alloc::Global;
use vec_names::{Listed, Tid};

/// That there is no place.
#[tactic(auto, unfolding(crate::specs::Reading::no_place, crate::specs::Reading::none_alone, crate::specs::Reading::field))]
pub fn no_place(bytes: &[u8]) -> Result<(Option<Tid>, &[u8]), Stop>
    ensures { Gives (λ x. (x.0, x.1.now)) result (no_place bytes.now) }
{
    let Some((front, rest)) = bytes.split_first_chunk::<6>() else {
        return Err(Stop::short(bytes));
    };
    match Tid::read_option(*front) {
        Some(None) => Ok((None, rest)),
        _ => Err(Stop::bad(bytes)),
    }
}

/// An optional place; where it is closed, that there is none.
#[inline]
#[tactic(auto, unfolding(crate::specs::Reading::slot_of))]
pub fn slot_of(closed: bool, bytes: &[u8]) -> Result<(Option<Tid>, &[u8]), Stop>
    ensures { Gives (λ x. (x.0, x.1.now)) result (slot_of closed bytes.now) }
{
    if closed {
        no_place(bytes)
    } else {
        optional_place(bytes)
    }
}

/// So many optional places; where they are closed, each is none.
pub fn slots(
    alloc: Global,
    closed: bool,
    count: u16,
    bytes: &[u8],
) -> Result<(Listed<Option<Tid>>, &[u8]), Halt>
    ensures { GivesOr (λ x. (x.0, x.1.now)) result (times (slot_of closed) count bytes.now) }
{
    let mut places = Vec::with_capacity(alloc, count as usize)?;
    let mut rest = bytes;
    'places: for _ in 0..count {
        let (place, after) = slot_of(closed, rest)?;
        places.push(place)?;
        rest = after;
    }
    Ok((Listed::from_vec(places), rest))
}
