// The order of rows: the nearest first.
ghost use Rattle.std.specs.Prelude.{◌≡◌, refl};
ghost use Rattle.std.specs.Ordering.{eq_by_cmp, as_partial_cmp};
ghost use Rattle.std.specs.Cmp.{eq_by_cmp_equiv, partial_equiv_from_equiv, partial_order_from_total};
ghost use Rattle.ivf_ops.specs.Nearness.{met_cmp, met_cmp_total};

use crate::met::Met;
use std::cmp::Ordering;

#[inline(always)]
fn compare(a: Met, b: Met) -> Ordering
    ensures { result ≡ met_cmp a b }
{
    a.dist.cmp(&b.dist).then(
        a.id.cmp(&b.id)
            .then(a.block.cmp(&b.block).then(a.off.cmp(&b.off))),
    )
}

impl PartialEq for Met {
    ghost eq = { eq_by_cmp met_cmp };

    ghost laws = { partial_equiv_from_equiv (eq_by_cmp_equiv met_cmp_total) };

    fn eq(&self, other: &Met) -> bool {
        compare(*self, *other).is_eq()
    }
}

impl Eq for Met {
    ghost laws = { eq_by_cmp_equiv met_cmp_total };
}

impl PartialOrd for Met {
    ghost partial_cmp = { as_partial_cmp met_cmp };

    ghost laws = { partial_order_from_total met_cmp_total };

    fn partial_cmp(&self, other: &Met) -> Option<Ordering> {
        Some(compare(*self, *other))
    }
}

impl Ord for Met {
    ghost cmp = { met_cmp };

    ghost total = { met_cmp_total };

    ghost matches_partial_cmp = { λ x y. refl };

    ghost matches_eq = { λ x y. refl };

    fn cmp(&self, other: &Met) -> Ordering {
        compare(*self, *other)
    }
}
