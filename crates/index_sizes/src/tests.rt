//! Worked numbers.

use crate::{
    MOST_BITS, centre_size, centres_on_page, element_size, entry_size, item_need, links_size,
    next_version, slots_of_level,
};
use std::test::*;

/// The sizes of the formats' worked tuples: values of 4 bits, m 2 and level 0.
#[test]
fn a_small_index(rt: HostRuntime) {
    assert!(rt; element_size(4) == 81 && links_size(4) == 28);
    assert!(rt; centre_size(4) == 21 && entry_size(4) == 17);
    assert!(rt; item_need(81) == 92 && item_need(28) == 36);
    assert!(rt; slots_of_level(2, 0) == 4 && slots_of_level(16, 3) == 80);
    assert!(rt; centres_on_page(4) == 291);
}

/// The largest values.
#[test]
fn a_large_index(rt: HostRuntime) {
    assert!(rt; element_size(MOST_BITS) == 8_080 && item_need(8_080) == 8_084);
    assert!(rt; centres_on_page(MOST_BITS) == 1);
}

#[test]
fn versions_wrap(rt: HostRuntime) {
    assert!(rt; next_version(255, 1) == 2 && next_version(255, 255) == 1);
    assert!(rt; next_version(15, 15) == 1 && next_version(15, 255) == 1);
}
