//! The slots of a neighbour tuple, read from the front of the bytes.

ghost use Rattle.std.specs.Prelude.{◌≡◌, ◌≢◌, length};
ghost use Rattle.byte_fields.specs.Reading.{times, slot_of};
ghost use Rattle.byte_fields.specs.Answers.{Gives};
ghost use Rattle.vec_tuples.specs.Reading.{slot_count, is_slot_count};
ghost use Rattle.vec_tuples.specs.Answers.{Passes};

use byte_fields::{Stop, slot_of};
use index_sizes::MOST_SLOTS;

/// The number of slots, which a level must have beside this `m`.
#[tactic(auto, unfolding(crate::specs::Reading::slot_count, byte_fields::specs::Reading::field))]
pub fn slot_count(m: u16, bytes: &[u8]) -> Result<(u16, &[u8]), Stop>
    ensures { Gives (λ x. (x.0, x.1.now)) result (slot_count m bytes.now) }
{
    let Some((front, rest)) = bytes.split_first_chunk::<2>() else {
        return Err(Stop::short(bytes));
    };
    let count = u16::from_le_bytes(*front);
    if is_slot_count(m, count) {
        Ok((count, rest))
    } else {
        Err(Stop::bad(bytes))
    }
}

/// Whether a level from 0 to 255 has so many slots beside this `m`, and one item of a page can hold them.
#[tactic(auto, using(crate::proofs::SlotLaws::slot_count_none))]
fn is_slot_count(m: u16, count: u16) -> bool
    ensures { result ≡ is_slot_count m count }
{
    if m == 0 {
        return count == 0;
    }
    has_level(m, count)
}

#[tactic(auto, using(crate::proofs::SlotLaws::slot_count_at))]
fn has_level(m: u16, count: u16) -> bool
    requires { m ≢ 0 }
    ensures { result ≡ is_slot_count m count }
{
    if usize::from(count) > MOST_SLOTS {
        return false;
    }
    let parts = count / m;
    if parts < 2 {
        return false;
    }
    if parts > 257 {
        return false;
    }
    count % m == 0
}

/// The bytes behind so many slots, each of which is looked at. It takes no memory.
pub fn skip_slots(deleted: bool, count: u16, bytes: &[u8]) -> Result<&[u8], Stop>
    ensures { Passes (λ rest. (count, rest.now)) length result (times (slot_of deleted) count bytes.now) }
{
    let mut rest = bytes;
    'places: for _ in 0..count {
        let (_, after) = slot_of(deleted, rest)?;
        rest = after;
    }
    Ok(rest)
}
