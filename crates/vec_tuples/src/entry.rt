//! The entry tuple of lists: a row of the indexed table with its value.
#![tactic(auto, using(crate::proofs::EachField::packed_long), unfolding(crate::specs::Reading::entry, crate::specs::Spelling::entry_bytes))]

ghost use Rattle.std.specs.Prelude.{◌≡◌, ◌≤◌, ◌+◌, ◌/◌, ◌++◌, ◌∷◌, [], length, take, OnOk, OnErr, IfOk, IfErr, MatchResult, List, Bool};
ghost use Rattle.std.specs.Int.{w32, to_le_bytes};
ghost use Rattle.bit_code.specs.Places.{unpacked, Packed};
ghost use Rattle.vec_names.specs.Params.{IsInRange};
ghost use Rattle.vec_names.specs.Pointer.{heap_id_bytes};
ghost use Rattle.vec_tuples.specs.Spelling.{entry_bytes, length_word, row_with, IsEntry};
ghost use Rattle.vec_tuples.specs.Reading.{entry};
ghost use Rattle.byte_fields.specs.Answers.{Gives};
ghost use Rattle.vec_tuples.specs.Answers.{IsReading, BeginsSome};
ghost use Rattle.vec_tuples.specs.declared.entry.EntryRow.{EntryRow};

use crate::bits::{bit_value, length_word};
use crate::fault::TupleFault;
use bit_code::Bits;
use byte_fields::{Stop, heap_id, put, two_bytes_from};
use index_sizes::MOST_BITS;
use std::alloc::Global;
use vec_names::{HeapId, Params};

/// What an entry of a list says.
#[derive(Drop)]
pub struct EntryRow {
    /// The row of the indexed table.
    pub id: HeapId,
    /// The row's value.
    pub bits: Bits,
}

/// The entry tuple that these bytes spell under the parameters, all of them.
///
/// `Bad` exactly where no entry tuple has these bytes, at the first field whose value is not allowed
/// beside the fields before it, or at or in which the bytes end; at the tuple's length where more bytes
/// follow. The fields are the heap id at 0, a zero of two bytes at 6, and the value's length word at 8, its
/// count at 12 and its places at 16.
pub fn read_entry(alloc: Global, bytes: &[u8], params: &Params) -> Result<EntryRow, TupleFault>
    requires { IsInRange params.now }

    // What is read is spelled so.
    ensures spelled { IfOk result (λ row. IsEntry params.now row × (bytes.now ≡ entry_bytes row)) }

    // What is spelled so is read, unless memory runs out.
    ensures read { (row : EntryRow) → IsEntry params.now row → bytes.now ≡ entry_bytes row
        → MatchResult result (λ x. x ≡ row) (λ fault. fault ≡ TupleFault.Memory) }

    // The fault that it is, field by field.
    ensures exact { IsReading (entry params.now) bytes.now result }

    // The bytes before it begin some tuple.
    ensures start { IfErr result (BeginsSome (IsEntry params.now) entry_bytes bytes.now) }
{
    match entry(*params, bytes) {
        Ok((id, places, rest)) => {
            if !rest.is_empty() {
                return Err(TupleFault::Bad {
                    at: (bytes.len() - rest.len()) as u16,
                });
            }
            match Bits::from_bytes(alloc, params.bits, places) {
                Ok(bits) => Ok(EntryRow { id, bits }),
                Err(_) => Err(TupleFault::Memory),
            }
        }
        Err(stop) => Err(TupleFault::Bad {
            at: (bytes.len() - stop.left) as u16,
        }),
    }
}

fn entry(params: Params, bytes: &[u8]) -> Result<(HeapId, &[u8], &[u8]), Stop>
    requires some { 1 ≤ params.bits }
    requires few { params.bits ≤ MOST_BITS }
    ensures reads { Gives (λ x. (row_with x.0 (take params.bits (unpacked x.1.now)), x.2.now)) result (entry params bytes.now) }
    ensures kept { IfOk result (λ x. Packed params.bits x.1.now) }
{
    let (id, rest) = heap_id(bytes)?;
    let (_, rest) = two_bytes_from(0, 0, rest)?;
    let (places, rest) = bit_value(params.bits, rest)?;
    Ok((id, places, rest))
}

/// Appends the spelling of an entry tuple, 16 bytes and the packed places. The only fault is `Memory`, and
/// then the bytes are as before.
pub fn write_entry(row: &EntryRow, into: &mut Vec<u8>) -> Result<(), TupleFault>
    ensures ok { OnOk result (into.new.items ≡ into.old.items ++ entry_bytes row.now) }
    ensures err { OnErr result (into.new.items ≡ into.old.items) }
    ensures memory { IfErr result (λ fault. fault ≡ TupleFault.Memory) }
{
    let places = row.bits.bytes();
    into.reserve(16 + places.len())?;
    put(into, &front_of_entry(row.id, row.bits.count()));
    put(into, places);
    Ok(())
}

/// Writes the spelling of an entry tuple over bytes of its length. It takes no memory.
pub fn fill_entry(id: HeapId, bits: &Bits, into: &mut [u8])
    requires { length into.old ≡ 16 + (length bits.now + 7) / 8 }
    ensures { into.new ≡ entry_bytes (row_with id bits.now) }
{
    let (front, places) = into.split_at_mut(16);
    front.copy_from_slice(&front_of_entry(id, bits.count()));
    places.copy_from_slice(bits.bytes());
}

/// The bytes before the places.
fn front_of_entry(id: HeapId, count: u32) -> [u8; 16]
    requires { count ≤ MOST_BITS }
    ensures { result ≡ heap_id_bytes id ++ (0 ∷ 0 ∷ to_le_bytes w32 (length_word count) ++ to_le_bytes w32 count) }
{
    let i = id.spelled();
    let w = length_word(count).to_le_bytes();
    let c = count.to_le_bytes();
    [
        i[0], i[1], i[2], i[3], i[4], i[5], 0, 0, w[0], w[1], w[2], w[3], c[0], c[1], c[2], c[3],
    ]
}
