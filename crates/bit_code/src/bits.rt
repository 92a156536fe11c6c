// The packed value.
ghost use Rattle.std.specs.Prelude.{◌≡◌, ◌<◌, ◌≤◌, IfOk, IfErr, length, IsTrue, slice_get, Some};
ghost use Rattle.std.specs.Prelude.{take, replicate, false, slice_set};
ghost use Rattle.bit_code.specs.Places.{packed, places, unpacked, Packed};
ghost use Rattle.bit_code.specs.declared.fault.BitsFault.TheVariants.{Memory};

use crate::BitsFault;
use index_sizes::MOST_BITS;
use std::alloc::{AllocError, Global};
use std::marker::Model;

/// A value of 1 to 64,000 places, each 0 or 1. Contracts see it as the list of its places.
///
/// It is kept as packed bytes, as pgvector's and PostgreSQL's bit strings are: the first place in the highest bit of the
/// first byte, the unused bits of the last byte 0.
#[derive(Drop)]
pub struct Bits {
    pub(crate) count: u32,
    pub(crate) bytes: Vec<u8>,
}

impl Model for Bits {
    ghost use Rattle.std.specs.Prelude.{List, Bool, take};
    ghost use Rattle.bit_code.specs.Places.{unpacked, Packed};

    ghost Value = { List Bool };

    ghost view = { λ b. take b.count (unpacked b.bytes.items) };

    ghost invariant = { λ b. Packed b.count b.bytes.items };
}

impl Bits {
    /// The greatest number of places.
    pub const MOST: u32 = MOST_BITS;

    /// The value of `count` places whose packed bytes these are. `is_packed` tells whether a count and bytes may be passed.
    /// Only memory can be wanting.
    pub fn from_bytes(alloc: Global, count: u32, bytes: &[u8]) -> Result<Bits, BitsFault>
        requires { Packed count bytes.now }
        ensures value { IfOk result (λ b. b ≡ take count (unpacked bytes.now)) }
        ensures bytes { IfOk result (λ b. packed b ≡ bytes.now) }
        ensures memory { IfErr result (λ e. e ≡ BitsFault.Memory) }
    {
        let bytes = Vec::from_slice(alloc, bytes)?;
        Ok(Bits { count, bytes })
    }

    /// The value of `count` places that are all 0. Only memory can be wanting.
    pub fn zeros(alloc: Global, count: u32) -> Result<Bits, BitsFault>
        requires some { 1 ≤ count }
        requires few { count ≤ MOST_BITS }
        ensures value { IfOk result (λ b. b ≡ replicate count false) }
        ensures memory { IfErr result (λ e. e ≡ BitsFault.Memory) }
    {
        let long = (count as usize + 7) / 8;
        let bytes = vec![in alloc; 0u8; long]?;
        Ok(Bits { count, bytes })
    }

    /// An equal value. Only memory can be wanting.
    pub fn try_clone(&self) -> Result<Bits, BitsFault>
        ensures equal { IfOk result (λ b. b ≡ self.now) }
        ensures memory { IfErr result (λ e. e ≡ BitsFault.Memory) }
    {
        let bits = self.copied()?;
        Ok(bits)
    }

    /// An equal value in memory of its own, for callers to whom want of memory is an `AllocError`.
    pub fn copied(&self) -> Result<Bits, AllocError>
        ensures { IfOk result (λ b. b ≡ self.now) }
    {
        let bytes = Vec::from_slice(*self.bytes.allocator(), self.bytes.as_slice())?;
        Ok(Bits {
            count: self.count,
            bytes,
        })
    }

    /// The number of places, 1 to 64,000.
    pub fn count(&self) -> u32
        ensures count { result ≡ length self.now }
        ensures some { 1 ≤ result }
        ensures few { result ≤ MOST_BITS }
    {
        self.count
    }

    /// The packed bytes, one for each eight places or part of eight.
    pub fn bytes(&self) -> &[u8]
        ensures { result.now ≡ packed self.now }
    {
        let bytes = self.bytes.as_slice();
        bytes
    }

    /// Whether the place, from 0, is 1.
    pub fn get(&self, place: u32) -> bool
        requires { place < length self.now }
        ensures { slice_get self.now place ≡ Some result }
    {
        let byte = self.bytes[place as usize / 8];
        is_one(byte, place % 8)
    }

    /// Makes the place, from 0, a 1 or a 0; the other places stay.
    pub fn set(&mut self, place: u32, one: bool)
        requires { place < length self.old }
        ensures { self.new ≡ slice_set self.old place one }
    {
        let at = place as usize / 8;
        self.bytes[at] = with_place(self.bytes[at], place % 8, one);
    }

    /// Takes the value of as many places whose packed bytes these are. It needs no memory. `is_packed` tells whether bytes
    /// may be passed.
    pub fn refill(&mut self, bytes: &[u8])
        requires { Packed (length self.old) bytes.now }
        ensures value { self.new ≡ take (length self.old) (unpacked bytes.now) }
        ensures bytes { packed self.new ≡ bytes.now }
    {
        self.bytes.as_mut_slice().copy_from_slice(bytes);
    }
}

// Whether a place of a byte, from 0 at its highest bit, is 1.
#[inline(always)]
fn is_one(byte: u8, place: u32) -> bool
    requires { place < 8 }
    ensures { slice_get (places 8 byte) place ≡ Some result }
{
    (byte >> (7 - place)) & 1 == 1
}

// The byte with a place, from 0 at its highest bit, made a 1 or a 0.
#[inline(always)]
fn with_place(byte: u8, place: u32, one: bool) -> u8
    requires { place < 8 }
    ensures { places 8 result ≡ slice_set (places 8 byte) place one }
{
    if is_one(byte, place) == one {
        return byte;
    }
    byte ^ (1 << (7 - place))
}
