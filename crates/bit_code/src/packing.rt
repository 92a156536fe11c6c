// Which counts and bytes are packed values.
ghost use Rattle.std.specs.Prelude.{◌≡◌, ◌+◌, ◌*◌, ◌-◌, ◌/◌, ◌%◌, ◌^◌, ◌≤◌, ◌<◌, ◌↔◌, IsTrue, ℕ, List, Bool, All, false, drop, length, replicate, take};
ghost use Rattle.bit_code.specs.Places.{places, unpacked, packed, Packed};

use crate::Bits;
use index_sizes::MOST_BITS;

/// Whether these are the packed bytes of a value of `count` places: 1 to 64,000 of them, as many bytes as they need, and
/// each unused bit of the last byte 0. Of the bytes it looks at the last one alone.
pub fn is_packed(count: u32, bytes: &[u8]) -> bool
    ensures { IsTrue result ↔ Packed count bytes.now }
{
    if count == 0 || count > Bits::MOST {
        return false;
    }
    let long = (count as usize + 7) / 8;
    if bytes.len() != long {
        return false;
    }
    has_clear_end(count, bytes)
}

/// The law of packing, which holds of any places; a call does nothing. Packed bytes are one for each eight places or part of
/// eight, each a byte, with unused bits 0; they give the places back, so that two values of one count with the same bytes are
/// one; and packed bytes are the bytes of the value that they give.
pub fn law_packing()
    ensures long { (xs : List Bool) → length (packed xs) ≡ (length xs + 7) / 8 }
    ensures bytes { (xs : List Bool) → All (λ b. b < 256) (packed xs) }
    ensures kept { (xs : List Bool) → 1 ≤ length xs → length xs ≤ MOST_BITS → Packed (length xs) (packed xs) }
    ensures back { (xs : List Bool) → take (length xs) (unpacked (packed xs)) ≡ xs }
    ensures same { (xs ys : List Bool) → length xs ≡ length ys → packed xs ≡ packed ys → xs ≡ ys }
    ensures whole { (count : ℕ) (bytes : List ℕ) → Packed count bytes → All (λ b. b < 256) bytes
        → packed (take count (unpacked bytes)) ≡ bytes }
{}

// Whether the bits after the last place are 0.
fn has_clear_end(count: u32, bytes: &[u8]) -> bool
    requires some { 1 ≤ count }
    requires few { count ≤ MOST_BITS }
    requires long { length bytes.now ≡ (count + 7) / 8 }
    ensures { IsTrue result ↔ drop count (unpacked bytes.now) ≡ replicate (8 * length bytes.now - count) false }
{
    let last = bytes[bytes.len() - 1];
    let unused = 8 * bytes.len() as u32 - count;
    ends_in_zeros(last, unused)
}

// Whether the lowest bits of a byte, fewer than eight of them, are 0.
fn ends_in_zeros(byte: u8, bits: u32) -> bool
    requires { bits < 8 }
    ensures { IsTrue result ↔ places bits byte ≡ replicate bits false }
{
    byte % (1 << bits) == 0
}
