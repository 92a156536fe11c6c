//! Pieces of spellings, put at the end of bytes that have room for them.

ghost use Rattle.std.specs.Prelude.{◌≡◌, ◌<◌, ◌≤◌, ◌+◌, ◌^◌, ◌++◌, length, vec_len, vec_capacity};
ghost use Rattle.std.specs.Int.{w16, w32, to_le_bytes};
ghost use Rattle.vec_event.specs.Spelling.{bits_bytes, lists_bytes, offsets_bytes, RisesFrom};

use bit_code::Bits;
use byte_fields::{put, put_slots};
use vec_names::Tid;

pub fn put_bits(into: &mut Vec<u8>, bits: &Bits)
    requires { vec_len into.old + length (bits_bytes bits.now) ≤ vec_capacity into.old }
    ensures items { into.new.items ≡ into.old.items ++ bits_bytes bits.now }
    ensures len { vec_len into.new ≡ vec_len into.old + length (bits_bytes bits.now) }
    ensures capacity { vec_capacity into.old ≤ vec_capacity into.new }
{
    put(into, &bits.count().to_le_bytes());
    put(into, bits.bytes());
}

#[tactic(auto, using(crate::proofs::Lengths::lists_length))]
pub fn put_lists(into: &mut Vec<u8>, slots: &[Option<Tid>])
    requires few { length slots.now < 2 ^ 16 }
    requires room { vec_len into.old + length (lists_bytes slots.now) ≤ vec_capacity into.old }
    ensures items { into.new.items ≡ into.old.items ++ lists_bytes slots.now }
    ensures len { vec_len into.new ≡ vec_len into.old + length (lists_bytes slots.now) }
    ensures capacity { vec_capacity into.old ≤ vec_capacity into.new }
{
    put(into, &(slots.len() as u16).to_le_bytes());
    put_slots(into, slots);
}

#[tactic(auto, using(crate::proofs::Lengths::offsets_length))]
pub fn put_offsets(into: &mut Vec<u8>, offsets: &[u16])
    requires rises { RisesFrom 0 offsets.now }
    requires room { vec_len into.old + length (offsets_bytes offsets.now) ≤ vec_capacity into.old }
    ensures items { into.new.items ≡ into.old.items ++ offsets_bytes offsets.now }
    ensures len { vec_len into.new ≡ vec_len into.old + length (offsets_bytes offsets.now) }
    ensures capacity { vec_capacity into.old ≤ vec_capacity into.new }
{
    put(into, &(offsets.len() as u16).to_le_bytes());
    'offsets: for offset in offsets {
        put(into, &offset.to_le_bytes());
    }
}
