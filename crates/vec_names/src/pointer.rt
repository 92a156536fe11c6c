//! The six bytes that name an item, and the two numbers in them.

ghost use Rattle.std.specs.Prelude.{◌≡◌, length};
ghost use Rattle.vec_names.specs.Pointer.{pointer_bytes, block_in, off_in};

/// The number that no block has: beside the offset 0 it spells that there is no item.
pub const NO_BLOCK: u32 = 0xFFFF_FFFF;

/// The bytes of a block and an offset. The high half of the block comes first, as in PostgreSQL's
/// BlockIdData; each half and the offset are two bytes, the low one first.
#[inline]
#[tactic(auto, unfolding(crate::specs::Pointer::pointer_bytes))]
pub fn spelled(block: u32, off: u16) -> [u8; 6]
    ensures { result ≡ pointer_bytes block off }
{
    let high = ((block / 65_536) as u16).to_le_bytes();
    let low = ((block % 65_536) as u16).to_le_bytes();
    let at = off.to_le_bytes();
    [high[0], high[1], low[0], low[1], at[0], at[1]]
}

/// The block and the offset that six bytes name.
#[inline]
#[tactic(auto, unfolding(crate::specs::Pointer::block_in, crate::specs::Pointer::off_in))]
pub fn parts_of(bytes: &[u8]) -> (u32, u16)
    requires { length bytes.now ≡ 6 }
    ensures block { result.0 ≡ block_in bytes.now }
    ensures off { result.1 ≡ off_in bytes.now }
    ensures back { bytes.now ≡ pointer_bytes result.0 result.1 }
{
    let high = u16::from_le_bytes([bytes[0], bytes[1]]);
    let low = u16::from_le_bytes([bytes[2], bytes[3]]);
    let off = u16::from_le_bytes([bytes[4], bytes[5]]);
    (65_536 * u32::from(high) + u32::from(low), off)
}
