//! The sizes.

ghost use Rattle.std.specs.Prelude.{◌≡◌, ◌≤◌, ◌<◌, ◌+◌, ◌^◌};
ghost use Rattle.index_sizes.specs.Sizes.{item_need, element_size, links_size, centre_size, entry_size, slots_of_level, centres_on_page, next_version};

use crate::limits::{MOST_BITS, MOST_ITEM, PAGE_ROOM};

/// What an item of so many bytes takes of a page, in bytes: its length rounded up to eights, and an item pointer of four.
#[inline(always)]
pub fn item_need(len: u64) -> u64
    requires { len < 2 ^ 32 }
    ensures exact { result ≡ item_need len }
    ensures small { result ≤ len + 11 }
{
    (len + 7) / 8 * 8 + 4
}

/// The bytes of an element tuple with a value of so many bits.
#[inline(always)]
pub fn element_size(bits: u32) -> u64
    ensures exact { result ≡ element_size bits }
    ensures small { bits ≤ MOST_BITS → result ≤ MOST_ITEM }
    ensures below { result < 2 ^ 30 }
{
    80 + (u64::from(bits) + 7) / 8
}

/// The bytes of a neighbour tuple with so many slots.
#[inline(always)]
pub fn links_size(slots: u64) -> u64
    requires { slots < 2 ^ 28 }
    ensures exact { result ≡ links_size slots }
{
    4 + 6 * slots
}

/// The bytes of a list tuple with a centre of so many bits.
#[inline(always)]
pub fn centre_size(bits: u32) -> u64
    ensures exact { result ≡ centre_size bits }
    ensures small { bits ≤ MOST_BITS → result ≤ MOST_ITEM }
    ensures below { result < 2 ^ 30 }
{
    20 + (u64::from(bits) + 7) / 8
}

/// The bytes of an entry tuple with a value of so many bits.
#[inline(always)]
pub fn entry_size(bits: u32) -> u64
    ensures exact { result ≡ entry_size bits }
    ensures small { bits ≤ MOST_BITS → result ≤ MOST_ITEM }
    ensures below { result < 2 ^ 30 }
{
    16 + (u64::from(bits) + 7) / 8
}

/// How many list tuples a page holds, each with a centre of so many bits: 1 to 8,160.
pub fn centres_on_page(bits: u32) -> u64
    requires { bits ≤ MOST_BITS }
    ensures exact { result ≡ centres_on_page bits }
    ensures some { 1 ≤ result }
    ensures few { result ≤ PAGE_ROOM }
{
    PAGE_ROOM as u64 / item_need(centre_size(bits))
}

/// How many slots a node of this level has in an index with this m: m in each layer above the lowest, and 2m in that.
#[inline(always)]
pub fn slots_of_level(m: u16, level: u8) -> u64
    ensures exact { result ≡ slots_of_level m level }
    ensures small { result < 2 ^ 25 }
{
    (u64::from(level) + 2) * u64::from(m)
}

/// The version after this one, from 1 to 255. `wrap` is the version after which an older form of the log takes 1;
/// after 255 comes 1 in any form.
#[inline(always)]
pub fn next_version(wrap: u8, version: u8) -> u8
    ensures { result ≡ next_version wrap version }
{
    if version == wrap || version == 255 {
        1
    } else {
        version + 1
    }
}
