//! The place of an item on a page.

ghost use Rattle.std.specs.Prelude.{◌≤◌, ◌<◌, ◌^◌};
ghost use Rattle.index_sizes.specs.declared.limits.TheConstants.{LAST_BLOCK};

use crate::pointer;
use index_sizes::LAST_BLOCK;

/// The place of an item: the number of its block, from 0 to 32,767, and its offset on that page,
/// from 1. Ordered by block, and then by offset.
#[derive(Clone, Copy, Debug, PartialEq, Eq, PartialOrd, Ord, Hash)]
pub struct Tid {
    pub block: u32,
    pub off: u16,
    pub ghost within_blocks: { block ≤ LAST_BLOCK },
    pub ghost counted_from_one: { 1 ≤ off },
    pub ghost in_two_bytes: { off < 2 ^ 16 },
}

impl Tid {
    ghost use Rattle.std.specs.Prelude.{◌≡◌, ◌↔◌, IsSome, IfSome, Some, Option};
    ghost use Rattle.vec_names.specs.declared.tid.Tid.{Tid};
    ghost use Rattle.vec_names.specs.Places.{tid_of};
    ghost use Rattle.vec_names.specs.Pointer.{tid_bytes, tid_option_bytes, tid_in, tid_option_in, tid_option_of};

    /// The place of this block at this offset, if there is one.
    #[inline]
    pub fn new(block: u32, off: u16) -> Option<Tid>
        ensures known { IsSome result ↔ ((block ≤ LAST_BLOCK) × 1 ≤ off) }
        ensures numbers { IfSome result (λ place. (place.block ≡ block) × (place.off ≡ off)) }

        // The same as a function of the numbers.
        ensures exact { result ≡ tid_of block off }
    {
        if block <= LAST_BLOCK && off >= 1 {
            Some(Tid { block, off })
        } else {
            None
        }
    }

    /// The six bytes that spell this place.
    #[inline]
    pub fn spelled(self) -> [u8; 6]
        ensures { result ≡ tid_bytes self }
    {
        pointer::spelled(self.block, self.off)
    }

    /// The place that six bytes spell, if they spell one.
    #[inline]
    pub fn read(bytes: [u8; 6]) -> Option<Tid>
        ensures spelled { IfSome result (λ place. bytes ≡ tid_bytes place) }
        ensures all { (place : Tid) → bytes ≡ tid_bytes place → result ≡ Some place }

        // The same as a function of the bytes.
        ensures exact { result ≡ tid_in bytes }
    {
        let (block, off) = pointer::parts_of(&bytes);
        Tid::new(block, off)
    }

    /// The six bytes that spell a place, or that there is none.
    #[inline]
    pub fn spelled_option(named: Option<Tid>) -> [u8; 6]
        ensures { result ≡ tid_option_bytes named }
    {
        match named {
            Some(place) => place.spelled(),
            None => pointer::spelled(pointer::NO_BLOCK, 0),
        }
    }

    /// What six bytes spell, if they spell a place, or that there is none.
    #[inline]
    pub fn read_option(bytes: [u8; 6]) -> Option<Option<Tid>>
        ensures spelled { IfSome result (λ named. bytes ≡ tid_option_bytes named) }
        ensures all { (named : Option Tid) → bytes ≡ tid_option_bytes named → result ≡ Some named }

        // The same as a function of the bytes.
        ensures exact { result ≡ tid_option_in bytes }
    {
        let (block, off) = pointer::parts_of(&bytes);
        Tid::option_of(block, off)
    }

    #[inline]
    #[tactic(auto, unfolding(crate::specs::Pointer::tid_option_of))]
    fn option_of(block: u32, off: u16) -> Option<Option<Tid>>
        ensures { result ≡ tid_option_of block off }
    {
        if block == pointer::NO_BLOCK && off == 0 {
            return Some(None);
        }
        match Tid::new(block, off) {
            Some(place) => Some(Some(place)),
            None => None,
        }
    }
}
