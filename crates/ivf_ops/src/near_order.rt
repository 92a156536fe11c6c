// The order of lists: the nearest first, and of two as near the one of the lower number.
ghost use Rattle.std.specs.Prelude.{◌≡◌, refl};
ghost use Rattle.std.specs.Ordering.{eq_by_cmp, as_partial_cmp};
ghost use Rattle.std.specs.Cmp.{eq_by_cmp_equiv, partial_equiv_from_equiv, partial_order_from_total};
ghost use Rattle.ivf_ops.specs.Nearness.{near_cmp, near_cmp_total};

use crate::near::Near;
use std::cmp::Ordering;

#[inline(always)]
fn compare(a: Near, b: Near) -> Ordering
    ensures { result ≡ near_cmp a b }
{
    a.dist.cmp(&b.dist).then(a.list.cmp(&b.list))
}

impl PartialEq for Near {
    ghost eq = { eq_by_cmp near_cmp };

    ghost laws = { partial_equiv_from_equiv (eq_by_cmp_equiv near_cmp_total) };

    fn eq(&self, other: &Near) -> bool {
        compare(*self, *other).is_eq()
    }
}

impl Eq for Near {
    ghost laws = { eq_by_cmp_equiv near_cmp_total };
}

impl PartialOrd for Near {
    ghost partial_cmp = { as_partial_cmp near_cmp };

    ghost laws = { partial_order_from_total near_cmp_total };

    fn partial_cmp(&self, other: &Near) -> Option<Ordering> {
        Some(compare(*self, *other))
    }
}

impl Ord for Near {
    ghost cmp = { near_cmp };

    ghost total = { near_cmp_total };

    ghost matches_partial_cmp = { λ x y. refl };

    ghost matches_eq = { λ x y. refl };

    fn cmp(&self, other: &Near) -> Ordering {
        compare(*self, *other)
    }
}
