//! How many bytes an event has.
#![tactic(auto, using(crate::proofs::Lengths::lengths, crate::proofs::Lengths::bits_length, crate::proofs::Lengths::lists_length, crate::proofs::Lengths::offsets_length), unfolding(crate::specs::Spelling::spelling))]

ghost use Rattle.std.specs.Prelude.{◌≡◌, ◌≤◌, length};
ghost use Rattle.vec_event.specs.Spelling.{spelling, bits_bytes, lists_bytes, offsets_bytes};

use bit_code::Bits;
use vec_history::Event;
use vec_names::Tid;

/// The number of bytes of an event's spelling; 0 for a passing event, which has none.
pub fn event_size(event: &Event) -> u64
    ensures { result ≡ length (spelling event.now) }
{
    match event {
        Event::Put { bits, lists, .. } => 21 + bits_size(bits) + lists_size(lists.as_slice()),
        Event::Join { .. } => 14,
        Event::Link { .. } => 22,
        Event::Relist { lists, .. } => 14 + lists_size(lists.as_slice()),
        Event::Drop { .. } => 10,
        Event::Mark { .. } => 14,
        Event::Entry { .. } => 8,
        Event::Hint { .. } => 5,
        Event::IvfAdd { bits, .. } => 11 + bits_size(bits),
        Event::IvfGrow { bits, .. } => 19 + bits_size(bits),
        Event::IvfDrop { gone, .. } => 5 + offsets_size(gone.as_slice()),
        Event::IvfHint { .. } => 9,
        _ => 0,
    }
}

/// A bit value's count and its packed places.
fn bits_size(bits: &Bits) -> u64
    ensures size { result ≡ length (bits_bytes bits.now) }
    ensures small { result ≤ 8004 }
{
    4 + u64::from((bits.count() + 7) / 8)
}

/// A count, and the optional places.
fn lists_size(lists: &[Option<Tid>]) -> u64
    ensures size { result ≡ length (lists_bytes lists.now) }
    ensures small { result ≤ 0x7FFF_FFFF_FFFF_FFFF }
{
    2 + 6 * lists.len() as u64
}

/// A count, and the offsets.
fn offsets_size(offsets: &[u16]) -> u64
    ensures size { result ≡ length (offsets_bytes offsets.now) }
    ensures small { result ≤ 0x8000_0000_0000_0000 }
{
    2 + 2 * offsets.len() as u64
}
