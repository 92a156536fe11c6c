//! The name of a row of the indexed table.

ghost use Rattle.std.specs.Prelude.{◌≤◌, ◌<◌, ◌^◌};

use crate::pointer;

/// A row of the indexed table: its block, below 0xFFFFFFFF, and its offset there, from 1. Ordered
/// by block, and then by offset.
#[derive(Clone, Copy, Debug, PartialEq, Eq, PartialOrd, Ord, Hash)]
pub struct HeapId {
    pub block: u32,
    pub off: u16,
    pub ghost within_blocks: { block < 0xFFFFFFFF },
    pub ghost counted_from_one: { 1 ≤ off },
    pub ghost in_two_bytes: { off < 2 ^ 16 },
}

impl HeapId {
    ghost use Rattle.std.specs.Prelude.{◌≡◌, ◌↔◌, IsSome, IfSome, Some, Option};
    ghost use Rattle.vec_names.specs.declared.heap_id.HeapId.{HeapId};
    ghost use Rattle.vec_names.specs.Places.{heap_id_of};
    ghost use Rattle.vec_names.specs.Pointer.{heap_id_bytes, heap_id_option_bytes, heap_id_in, heap_id_option_in, heap_id_option_of};

    /// The row of this block at this offset, if there is one.
    #[inline]
    pub fn new(block: u32, off: u16) -> Option<HeapId>
        ensures known { IsSome result ↔ ((block < 0xFFFFFFFF) × 1 ≤ off) }
        ensures numbers { IfSome result (λ row. (row.block ≡ block) × (row.off ≡ off)) }

        // The same as a function of the numbers.
        ensures exact { result ≡ heap_id_of block off }
    {
        if block < 0xFFFF_FFFF && off >= 1 {
            Some(HeapId { block, off })
        } else {
            None
        }
    }

    /// The six bytes that spell this row.
    #[inline]
    pub fn spelled(self) -> [u8; 6]
        ensures { result ≡ heap_id_bytes self }
    {
        pointer::spelled(self.block, self.off)
    }

    /// The row that six bytes spell, if they spell one.
    #[inline]
    pub fn read(bytes: [u8; 6]) -> Option<HeapId>
        ensures spelled { IfSome result (λ row. bytes ≡ heap_id_bytes row) }
        ensures all { (row : HeapId) → bytes ≡ heap_id_bytes row → result ≡ Some row }

        // The same as a function of the bytes.
        ensures exact { result ≡ heap_id_in bytes }
    {
        let (block, off) = pointer::parts_of(&bytes);
        HeapId::new(block, off)
    }

    /// The six bytes that spell a row, or that there is none.
    #[inline]
    pub fn spelled_option(named: Option<HeapId>) -> [u8; 6]
        ensures { result ≡ heap_id_option_bytes named }
    {
        match named {
            Some(row) => row.spelled(),
            None => pointer::spelled(pointer::NO_BLOCK, 0),
        }
    }

    /// What six bytes spell, if they spell a row, or that there is none.
    #[inline]
    pub fn read_option(bytes: [u8; 6]) -> Option<Option<HeapId>>
        ensures spelled { IfSome result (λ named. bytes ≡ heap_id_option_bytes named) }
        ensures all { (named : Option HeapId) → bytes ≡ heap_id_option_bytes named → result ≡ Some named }

        // The same as a function of the bytes.
        ensures exact { result ≡ heap_id_option_in bytes }
    {
        let (block, off) = pointer::parts_of(&bytes);
        HeapId::option_of(block, off)
    }

    #[inline]
    #[tactic(auto, unfolding(crate::specs::Pointer::heap_id_option_of))]
    fn option_of(block: u32, off: u16) -> Option<Option<HeapId>>
        ensures { result ≡ heap_id_option_of block off }
    {
        if block == pointer::NO_BLOCK && off == 0 {
            return Some(None);
        }
        match HeapId::new(block, off) {
            Some(row) => Some(Some(row)),
            None => None,
        }
    }
}

/// The first row that there may be, 0/1: what stands in the places of an `ArrayVec` that are not used.
impl Default for HeapId {
    fn default() -> HeapId {
        HeapId { block: 0, off: 1 }
    }
}
