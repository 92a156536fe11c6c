//! The comparison of distances that both choices rest on.

ghost use Rattle.std.specs.Prelude.{◌≡◌};
ghost use Rattle.neighbour_pick.specs.Order.{is_greater};

use bit_dist::Dist;

/// Whether the distance between two elements is greater than the later one's own.
#[inline]
pub fn is_farther(between: Dist, own: Dist) -> bool
    ensures { result ≡ is_greater between own }
{
    between > own
}
