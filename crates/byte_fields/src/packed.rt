//! The packed places of bit values.

ghost use Rattle.std.specs.Prelude.{◌≡◌, ◌≤◌, ◌+◌, ◌/◌, not, length, drop, take, IfOk};
ghost use Rattle.std.specs.List.{list_all};
ghost use Rattle.bit_code.specs.Places.{unpacked, Packed};
ghost use Rattle.byte_fields.specs.Reading.{packed_places};
ghost use Rattle.byte_fields.specs.Answers.{Gives};

use crate::stop::Stop;
use bit_code::is_packed;
use index_sizes::MOST_BITS;

/// The packed places of a value of `count` places, 1 to 64,000, no unused bit of the last byte being set.
#[tactic(auto, unfolding(crate::specs::Reading::packed_places, crate::specs::Reading::field))]
pub fn packed_places(count: u32, bytes: &[u8]) -> Result<(&[u8], &[u8]), Stop>
    requires some { 1 ≤ count }
    requires few { count ≤ MOST_BITS }
    ensures reads { Gives (λ x. (take count (unpacked x.0.now), x.1.now)) result (packed_places count bytes.now) }
    ensures kept { IfOk result (λ x. Packed count x.0.now) }
{
    let long = (count as usize + 7) / 8;
    if bytes.len() < long {
        return Err(Stop::short(bytes));
    }
    let (front, rest) = bytes.split_at(long);
    if !is_clear(count, front) {
        return Err(Stop::bad(bytes));
    }
    Ok((front, rest))
}

/// Whether no bit behind so many places is set.
fn is_clear(count: u32, bytes: &[u8]) -> bool
    requires some { 1 ≤ count }
    requires few { count ≤ MOST_BITS }
    requires long { length bytes.now ≡ (count + 7) / 8 }
    ensures { result ≡ list_all not (drop count (unpacked bytes.now)) }
{
    is_packed(count, bytes)
}
