//! A row of the table that is indexed.

use bit_code::Bits;
use vec_names::HeapId;

/// A row of the table that is indexed: its name, and its value.
#[derive(Drop)]
pub struct Row {
    pub id: HeapId,
    /// The value, of the index's length in bits.
    pub bits: Bits,
}
