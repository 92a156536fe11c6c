//! Which centre is nearest to a value, and which row is farthest from its nearest centre.

ghost use Rattle.std.specs.Prelude.{◌≡◌, ◌<◌, ◌≤◌, ℕ, length, get_or};
ghost use Rattle.ivf_means.specs.Places.{greatest_place};
ghost use Rattle.ivf_means.specs.Centres.{nearest};
ghost use Rattle.ivf_means.specs.Working.{HaveLength};

use bit_code::{Bits, count_unequal};
use index_sizes::MOST_BLOCKS;

/// The number of the nearest centre, the lowest of equal ones.
pub fn nearest_of(centres: &[Bits], value: &Bits) -> u32
    requires some { 1 ≤ length centres.now }
    requires few { length centres.now ≤ MOST_BLOCKS }
    requires long { HaveLength (length value.now) centres.now }
    ensures { result ≡ nearest centres.now value.now }
{
    let mut best = (0, count_unequal(&centres[0], value));
    for list in 1..centres.len() as u32 {
        let next = (list, count_unequal(&centres[list as usize], value));
        best = nearer(best, next);
    }
    best.0
}

// Of two places with their distances the nearer, the first where they are as near.
#[inline(always)]
fn nearer(best: (u32, u32), next: (u32, u32)) -> (u32, u32)
    ensures kept { best.1 ≤ next.1 → result ≡ best }
    ensures taken { next.1 < best.1 → result ≡ next }
{
    if next.1 < best.1 { next } else { best }
}

/// The place of the greatest number, the first of equal ones.
pub(crate) fn greatest_of(numbers: &[u32]) -> usize
    requires some { 1 ≤ length numbers.now }
    ensures place { result ≡ greatest_place numbers.now }
    ensures there { result < length numbers.now }
{
    let mut best = (0, numbers[0]);
    for place in 1..numbers.len() {
        best = greater(best, (place, numbers[place]));
    }
    best.0
}

// Of two places with their numbers that of the greater, the first where they are equal.
#[inline(always)]
fn greater(best: (usize, u32), next: (usize, u32)) -> (usize, u32)
    ensures kept { next.1 ≤ best.1 → result ≡ best }
    ensures taken { best.1 < next.1 → result ≡ next }
{
    if best.1 < next.1 { next } else { best }
}
