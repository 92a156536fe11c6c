// Counts over values, eight bytes at a time.
ghost use Rattle.std.specs.Prelude.{◌≡◌, ◌≤◌, [], ◌∷◌, length};
ghost use Rattle.bit_code.specs.Places.{unpacked, unequal, both, ones};

use crate::Bits;

/// The number of places at which two values of one length are unequal: their Hamming distance, 0 to 64,000.
pub fn count_unequal(a: &Bits, b: &Bits) -> u32
    requires { length a.now ≡ length b.now }
    ensures { result ≡ unequal a.now b.now }
{
    unequal_by_word(a.bytes.as_slice(), b.bytes.as_slice())
}

/// The number of places at which two values of one length are both 1, 0 to 64,000.
pub fn count_both(a: &Bits, b: &Bits) -> u32
    requires { length a.now ≡ length b.now }
    ensures { result ≡ both a.now b.now }
{
    both_by_word(a.bytes.as_slice(), b.bytes.as_slice())
}

/// The number of places that are 1, 0 to 64,000.
pub fn count_ones(a: &Bits) -> u32
    ensures { result ≡ ones a.now }
{
    both_by_word(a.bytes.as_slice(), a.bytes.as_slice())
}

#[inline(always)]
fn unequal_in_word(a: [u8; 8], b: [u8; 8]) -> u32
    ensures count { result ≡ unequal (unpacked a) (unpacked b) }
    ensures small { result ≤ 64 }
{
    (u64::from_le_bytes(a) ^ u64::from_le_bytes(b)).count_ones()
}

#[inline(always)]
fn unequal_in_byte(a: u8, b: u8) -> u32
    ensures count { result ≡ unequal (unpacked (a ∷ [])) (unpacked (b ∷ [])) }
    ensures small { result ≤ 8 }
{
    (a ^ b).count_ones()
}

fn unequal_by_byte(a: &[u8], b: &[u8]) -> u32
    requires same { length a.now ≡ length b.now }
    requires short { length a.now ≤ 8000 }
    ensures { result ≡ unequal (unpacked a.now) (unpacked b.now) }
{
    let mut total = 0;
    for i in 0..a.len() {
        total += unequal_in_byte(a[i], b[i]);
    }
    total
}

// A word of eight bytes is read at one go, and at most seven bytes are left.
fn unequal_by_word(a: &[u8], b: &[u8]) -> u32
    requires same { length a.now ≡ length b.now }
    requires short { length a.now ≤ 8000 }
    ensures { result ≡ unequal (unpacked a.now) (unpacked b.now) }
{
    let (front_a, back_a) = a.as_chunks::<8>();
    let (front_b, back_b) = b.as_chunks::<8>();
    let mut total = 0;
    for i in 0..front_a.len() {
        total += unequal_in_word(front_a[i], front_b[i]);
    }
    total + unequal_by_byte(back_a, back_b)
}

#[inline(always)]
fn both_in_word(a: [u8; 8], b: [u8; 8]) -> u32
    ensures count { result ≡ both (unpacked a) (unpacked b) }
    ensures small { result ≤ 64 }
{
    (u64::from_le_bytes(a) & u64::from_le_bytes(b)).count_ones()
}

#[inline(always)]
fn both_in_byte(a: u8, b: u8) -> u32
    ensures count { result ≡ both (unpacked (a ∷ [])) (unpacked (b ∷ [])) }
    ensures small { result ≤ 8 }
{
    (a & b).count_ones()
}

fn both_by_byte(a: &[u8], b: &[u8]) -> u32
    requires same { length a.now ≡ length b.now }
    requires short { length a.now ≤ 8000 }
    ensures { result ≡ both (unpacked a.now) (unpacked b.now) }
{
    let mut total = 0;
    for i in 0..a.len() {
        total += both_in_byte(a[i], b[i]);
    }
    total
}

// A word of eight bytes is read at one go, and at most seven bytes are left.
fn both_by_word(a: &[u8], b: &[u8]) -> u32
    requires same { length a.now ≡ length b.now }
    requires short { length a.now ≤ 8000 }
    ensures { result ≡ both (unpacked a.now) (unpacked b.now) }
{
    let (front_a, back_a) = a.as_chunks::<8>();
    let (front_b, back_b) = b.as_chunks::<8>();
    let mut total = 0;
    for i in 0..front_a.len() {
        total += both_in_word(front_a[i], front_b[i]);
    }
    total + both_by_byte(back_a, back_b)
}
