// The order of keys. The greatest is the one to be taken next, so std's order is turned.
ghost use Rattle.std.specs.Prelude.{◌≡◌, refl};
ghost use Rattle.std.specs.Ordering.{eq_by_cmp, as_partial_cmp};
ghost use Rattle.std.specs.Cmp.{eq_by_cmp_equiv, partial_equiv_from_equiv, partial_order_from_total};
ghost use Rattle.search_sets.specs.Keys.{alike_cmp, key_cmp, is_before, is_nearer, near_cmp, urgency, urgency_total};

use crate::Key;
use std::cmp::Ordering;

// By distance, then by place.
#[inline(always)]
fn compare_near(a: &Key, b: &Key) -> Ordering
    ensures { result ≡ near_cmp a.now b.now }
{
    match a.dist.cmp(&b.dist) {
        Ordering::Less => Ordering::Less,
        Ordering::Greater => Ordering::Greater,
        Ordering::Equal => a.at.cmp(&b.at),
    }
}

// By distance, then by place, and then by what tells two such keys apart.
#[inline(always)]
fn compare(a: &Key, b: &Key) -> Ordering
    ensures { result ≡ key_cmp a.now b.now }
{
    match a.dist.cmp(&b.dist) {
        Ordering::Less => Ordering::Less,
        Ordering::Greater => Ordering::Greater,
        Ordering::Equal => compare_alike(a, b),
    }
}

fn compare_alike(a: &Key, b: &Key) -> Ordering
    ensures { result ≡ alike_cmp a.now b.now }
{
    match a.at.cmp(&b.at) {
        Ordering::Less => Ordering::Less,
        Ordering::Greater => Ordering::Greater,
        Ordering::Equal => a.index.cmp(&b.index).then(a.dist.den.cmp(&b.dist.den)),
    }
}

impl Key {
    /// Nearer, or as near and at a lower place; of keys that tie in both, the one that came first.
    #[inline(always)]
    pub fn is_before(&self, other: &Key) -> bool
        ensures { result ≡ is_before self.now other.now }
    {
        compare(self, other).is_lt()
    }

    /// Nearer, or as near and at a lower place.
    #[inline(always)]
    pub fn is_nearer(&self, other: &Key) -> bool
        ensures { result ≡ is_nearer self.now other.now }
    {
        compare_near(self, other).is_lt()
    }
}

impl PartialEq for Key {
    ghost eq = { eq_by_cmp urgency };

    ghost laws = { partial_equiv_from_equiv (eq_by_cmp_equiv urgency_total) };

    fn eq(&self, other: &Key) -> bool {
        compare(other, self).is_eq()
    }
}

impl Eq for Key {
    ghost laws = { eq_by_cmp_equiv urgency_total };
}

impl PartialOrd for Key {
    ghost partial_cmp = { as_partial_cmp urgency };

    ghost laws = { partial_order_from_total urgency_total };

    fn partial_cmp(&self, other: &Key) -> Option<Ordering> {
        Some(compare(other, self))
    }
}

impl Ord for Key {
    ghost cmp = { urgency };

    ghost total = { urgency_total };

    ghost matches_partial_cmp = { λ x y. refl };

    ghost matches_eq = { λ x y. refl };

    fn cmp(&self, other: &Key) -> Ordering {
        compare(other, self)
    }
}
