// Reading a text of the characters 0 and 1.
ghost use Rattle.std.specs.Prelude.{◌≡◌, ◌<◌, ◌≤◌, ◌-◌, ◌++◌, false, length, replicate, IfOk, MatchResult};
ghost use Rattle.bit_code.specs.Places.{places, Packs};
ghost use Rattle.bit_code.specs.Texts.{IsBitText, IsFaultOf, first_bad, places_of_text};

use crate::{Bits, BitsFault};
use index_sizes::MOST_BITS;
use std::alloc::{AllocError, Global};

/// Reads a bit value as the scripts and pgvector spell it: one character `0` or `1` for each place, 1 to 64,000 of them.
pub fn read_bits(alloc: Global, text: &str) -> Result<Bits, BitsFault>
    ensures { MatchResult result (λ b. IsBitText text.now × (b ≡ places_of_text text.now)) (IsFaultOf text.now) }
{
    let text = text.as_bytes();
    if text.is_empty() {
        return Err(BitsFault::Empty);
    }
    let end = (Bits::MOST as usize).min(text.len());
    if let Some(place) = first_bad_place(&text[..end]) {
        return Err(BitsFault::BadPlace(place as u32));
    }
    if end < text.len() {
        return Err(BitsFault::TooLong);
    }
    let bytes = pack(alloc, text)?;
    Ok(Bits {
        count: end as u32,
        bytes,
    })
}

// Where the first byte is that is neither 0 nor 1: the two characters differ in their lowest bit alone.
fn first_bad_place(text: &[u8]) -> Option<usize>
    ensures { result ≡ first_bad text.now }
{
    text.iter()
        .position(|byte| !(*byte == b'0' || *byte == b'1'))
}

// The packed bytes of good characters, the unused places of the last byte 0.
fn pack(alloc: Global, text: &[u8]) -> Result<Vec<u8>, AllocError>
    requires { length text.now ≤ MOST_BITS }
    ensures { IfOk result (λ bytes. Packs (places_of_text text.now) bytes.items) }
{
    let (whole, rest) = text.as_chunks::<8>();
    let mut bytes = Vec::with_capacity(alloc, whole.len() + 1)?;
    for i in 0..whole.len() {
        bytes.push(packed_byte(whole[i]))?;
    }
    if rest.is_empty() {
        return Ok(bytes);
    }
    bytes.push(last_byte(rest))?;
    Ok(bytes)
}

// Fewer than eight characters as one byte, whose unused places are 0.
fn last_byte(text: &[u8]) -> u8
    requires { length text.now < 8 }
    ensures { places 8 result ≡ places_of_text text.now ++ replicate (8 - length text.now) false }
{
    let mut whole = [b'0'; 8];
    whole[..text.len()].copy_from_slice(text);
    packed_byte(whole)
}

// Eight characters as one byte, the first in its highest bit.
#[inline(always)]
fn packed_byte(text: [u8; 8]) -> u8
    ensures { places 8 result ≡ places_of_text text }
{
    let mut byte = 0u8;
    for i in 0..8 {
        byte = byte * 2 + u8::from(text[i] == b'1');
    }
    byte
}
