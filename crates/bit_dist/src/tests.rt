use super::*;
use bit_code::{BitsFault, read_bits};
use std::cmp::Ordering;
use std::test::Fail;
use vec_names::Ops;

#[test]
fn distances_count_unequal_places(rt: HostRuntime) -> Result<(), Fail> {
    for (a, b, want) in [
        ("0001", "0000", 1),
        ("0001", "0011", 1),
        ("0001", "0111", 2),
    ] {
        let a = read_bits(rt.alloc(), a)?;
        let b = read_bits(rt.alloc(), b)?;
        if a.count() == b.count() {
            let near = distance(Ops::Hamming, &a, &b);
            assert_eq!(rt; near.num, want);
            assert_eq!(rt; near.den, 1);
        }
    }
    Ok(())
}

#[test]
fn jaccard_distances_are_unreduced(rt: HostRuntime) -> Result<(), Fail> {
    for (a, b, num, den) in [
        ("1100", "1010", 2, 3),
        ("0000", "0000", 1, 1),
        ("1100", "0011", 1, 1),
        ("1111", "1100", 2, 4),
    ] {
        let a = read_bits(rt.alloc(), a)?;
        let b = read_bits(rt.alloc(), b)?;
        if a.count() == b.count() {
            let near = distance(Ops::Jaccard, &a, &b);
            assert_eq!(rt; near.num, num);
            assert_eq!(rt; near.den, den);
        }
    }
    Ok(())
}

#[test]
fn fractions_are_ordered_by_value(rt: HostRuntime) {
    let half = Dist { num: 1, den: 2 };
    let two_quarters = Dist { num: 2, den: 4 };
    let third = Dist { num: 1, den: 3 };
    let most = Dist {
        num: u32::MAX,
        den: 1,
    };
    assert!(rt; half == two_quarters);
    assert!(rt; third < half);
    assert!(rt; half.cmp(&most) == Ordering::Less);
    assert!(rt; most.cmp(&third) == Ordering::Greater);
}
