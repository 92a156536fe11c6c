// Equality and order, by value.
ghost use Rattle.std.specs.Prelude.{◌≡◌, refl};
ghost use Rattle.std.specs.Ordering.{eq_by_cmp, as_partial_cmp};
ghost use Rattle.std.specs.Cmp.{eq_by_cmp_equiv, partial_equiv_from_equiv, partial_order_from_total};
ghost use Rattle.bit_dist.specs.Distances.{dist_cmp};
ghost use Rattle.bit_dist.specs.Orders.{dist_cmp_total};

use crate::Dist;
use std::cmp::Ordering;

// Two products of 32 bits each fit 64.
#[inline(always)]
fn compare(a: Dist, b: Dist) -> Ordering
    ensures { result ≡ dist_cmp a b }
{
    let left = u64::from(a.num) * u64::from(b.den);
    let right = u64::from(b.num) * u64::from(a.den);
    left.cmp(&right)
}

impl PartialEq for Dist {
    ghost eq = { eq_by_cmp dist_cmp };

    ghost laws = { partial_equiv_from_equiv (eq_by_cmp_equiv dist_cmp_total) };

    fn eq(&self, other: &Dist) -> bool {
        compare(*self, *other).is_eq()
    }
}

impl Eq for Dist {
    ghost laws = { eq_by_cmp_equiv dist_cmp_total };
}

impl PartialOrd for Dist {
    ghost partial_cmp = { as_partial_cmp dist_cmp };

    ghost laws = { partial_order_from_total dist_cmp_total };

    fn partial_cmp(&self, other: &Dist) -> Option<Ordering> {
        Some(compare(*self, *other))
    }
}

impl Ord for Dist {
    ghost cmp = { dist_cmp };

    ghost total = { dist_cmp_total };

    ghost matches_partial_cmp = { λ x y. refl };

    ghost matches_eq = { λ x y. refl };

    fn cmp(&self, other: &Dist) -> Ordering {
        compare(*self, *other)
    }
}
