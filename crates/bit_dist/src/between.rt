// The distance of two values.
ghost use Rattle.std.specs.Prelude.{◌≡◌, ◌≤◌, length};
ghost use Rattle.bit_code.specs.Places.{both, ones};
ghost use Rattle.bit_dist.specs.Distances.{hamming_of, jaccard_of, jaccard_num, jaccard_den, distance_of};

use crate::Dist;
use bit_code::{Bits, count_both, count_ones, count_unequal};
use index_sizes::MOST_BITS;
use vec_names::Ops;

/// The distance of two values of one length.
///
/// Hamming's is the number of unequal places, over 1, as pgvector's `<~>` gives it. Jaccard's is as pgvector's `<%>`: the
/// places that are 1 in one value alone, over those that are 1 in either, as an unreduced fraction. Of values
/// that share no place it is 1/1, also of two values of zeros, which is this project's own choice.
pub fn distance(ops: Ops, a: &Bits, b: &Bits) -> Dist
    requires { length a.now ≡ length b.now }
    ensures { result ≡ distance_of ops a.now b.now }
{
    match ops {
        Ops::Hamming => hamming(a, b),
        Ops::Jaccard => jaccard(a, b),
    }
}

fn hamming(a: &Bits, b: &Bits) -> Dist
    requires { length a.now ≡ length b.now }
    ensures { result ≡ hamming_of a.now b.now }
{
    Dist {
        num: count_unequal(a, b),
        den: 1,
    }
}

fn jaccard(a: &Bits, b: &Bits) -> Dist
    requires { length a.now ≡ length b.now }
    ensures { result ≡ jaccard_of a.now b.now }
{
    let (in_a, in_b, shared) = counts(a, b);
    fraction(in_a, in_b, shared)
}

/// The places that are 1 in `a`, in `b`, and in both.
#[tactic(auto, using(crate::specs::Shared::both_first, crate::specs::Shared::both_second, crate::specs::Shared::ones_long))]
fn counts(a: &Bits, b: &Bits) -> (u32, u32, u32)
    requires { length a.now ≡ length b.now }
    ensures counts { result ≡ (ones a.now, ones b.now, both a.now b.now) }
    ensures first { result.2 ≤ result.0 }
    ensures second { result.2 ≤ result.1 }
    ensures few { (result.0 ≤ MOST_BITS) × (result.1 ≤ MOST_BITS) }
{
    // The number of places bounds each count.
    let _places = a.count();
    (count_ones(a), count_ones(b), count_both(a, b))
}

fn fraction(in_a: u32, in_b: u32, shared: u32) -> Dist
    requires first { shared ≤ in_a }
    requires second { shared ≤ in_b }
    requires few { (in_a ≤ MOST_BITS) × (in_b ≤ MOST_BITS) }
    ensures num { result.num ≡ jaccard_num in_a in_b shared }
    ensures den { result.den ≡ jaccard_den in_a in_b shared }
{
    if shared == 0 {
        return Dist { num: 1, den: 1 };
    }
    Dist {
        num: in_a + in_b - 2 * shared,
        den: in_a + in_b - shared,
    }
}
