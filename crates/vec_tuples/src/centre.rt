//! The list tuple: a list's chain of blocks and its centre.
#![tactic(auto, unfolding(crate::specs::Reading::centre, crate::specs::Spelling::centre_bytes))]

ghost use Rattle.std.specs.Prelude.{◌≡◌, ◌≤◌, ◌+◌, ◌/◌, ◌++◌, ◌∷◌, [], length, take, Some, OnOk, OnErr, IfOk, IfErr, IfSome, MatchResult, List, Bool};
ghost use Rattle.std.specs.Int.{w32, to_le_bytes};
ghost use Rattle.bit_code.specs.Places.{unpacked, Packed};
ghost use Rattle.vec_names.specs.Params.{IsInRange};
ghost use Rattle.vec_tuples.specs.Spelling.{centre_bytes, length_word, centre_with, head_of_centre, IsCentre};
ghost use Rattle.vec_tuples.specs.Reading.{centre};
ghost use Rattle.byte_fields.specs.Answers.{Gives};
ghost use Rattle.vec_tuples.specs.Answers.{IsReading, BeginsSome};
ghost use Rattle.vec_tuples.specs.declared.centre.CentreTuple.{CentreTuple};

use crate::bits::{bit_value, length_word};
use crate::fault::TupleFault;
use bit_code::Bits;
use byte_fields::{Stop, four_bytes_from, put};
use index_sizes::MOST_BITS;
use std::alloc::Global;
use vec_names::Params;

/// What a list's tuple says.
#[derive(Drop)]
pub struct CentreTuple {
    /// The block at which the list's chain begins.
    pub first: u32,
    /// The block at which an insert into the list looks for room.
    pub aim: u32,
    /// The list's centre.
    pub bits: Bits,
}

/// The list tuple that these bytes spell under the parameters, all of them.
///
/// `Bad` exactly where no list tuple has these bytes, at the first field whose value is not allowed
/// beside the fields before it, or at or in which the bytes end; at the tuple's length where more bytes
/// follow. The fields are the first block at 0, the aim at 4, a zero of four bytes at 8, and the centre's
/// length word at 12, its count at 16 and its places at 20.
pub fn read_centre(alloc: Global, bytes: &[u8], params: &Params) -> Result<CentreTuple, TupleFault>
    requires { IsInRange params.now }

    // What is read is spelled so.
    ensures spelled { IfOk result (λ c. IsCentre params.now c × (bytes.now ≡ centre_bytes c)) }

    // What is spelled so is read, unless memory runs out.
    ensures read { (c : CentreTuple) → IsCentre params.now c → bytes.now ≡ centre_bytes c
        → MatchResult result (λ x. x ≡ c) (λ fault. fault ≡ TupleFault.Memory) }

    // The fault that it is, field by field.
    ensures exact { IsReading (centre params.now) bytes.now result }

    // The bytes before it begin some tuple.
    ensures start { IfErr result (BeginsSome (IsCentre params.now) centre_bytes bytes.now) }
{
    match centre(*params, bytes) {
        Ok((first, aim, places, rest)) => {
            if !rest.is_empty() {
                return Err(TupleFault::Bad {
                    at: (bytes.len() - rest.len()) as u16,
                });
            }
            match Bits::from_bytes(alloc, params.bits, places) {
                Ok(bits) => Ok(CentreTuple { first, aim, bits }),
                Err(_) => Err(TupleFault::Memory),
            }
        }
        Err(stop) => Err(TupleFault::Bad {
            at: (bytes.len() - stop.left) as u16,
        }),
    }
}

/// The first block and the aim of the list tuple that these bytes spell under the parameters, all of them. None exactly
/// where no list tuple has these bytes. It takes no memory.
pub fn centre_head(bytes: &[u8], params: &Params) -> Option<(u32, u32)>
    requires { IsInRange params.now }

    // What it tells is so of a list tuple that the bytes spell.
    ensures spelled { IfSome result (λ head. (c : CentreTuple) × IsCentre params.now c × (bytes.now ≡ centre_bytes c)
        × (head ≡ head_of_centre c)) }

    // Each list tuple that the bytes spell is told.
    ensures read { (c : CentreTuple) → IsCentre params.now c → bytes.now ≡ centre_bytes c → result ≡ Some (head_of_centre c) }
{
    match centre(*params, bytes) {
        Ok((first, aim, _, rest)) => {
            if rest.is_empty() {
                Some((first, aim))
            } else {
                None
            }
        }
        Err(_) => None,
    }
}

fn centre(params: Params, bytes: &[u8]) -> Result<(u32, u32, &[u8], &[u8]), Stop>
    requires some { 1 ≤ params.bits }
    requires few { params.bits ≤ MOST_BITS }
    ensures reads { Gives (λ x. (centre_with x.0 x.1 (take params.bits (unpacked x.2.now)), x.3.now)) result (centre params bytes.now) }
    ensures kept { IfOk result (λ x. Packed params.bits x.2.now) }
{
    let (first, rest) = four_bytes_from(0, 0xFFFF_FFFF, bytes)?;
    let (aim, rest) = four_bytes_from(0, 0xFFFF_FFFF, rest)?;
    let (_, rest) = four_bytes_from(0, 0, rest)?;
    let (places, rest) = bit_value(params.bits, rest)?;
    Ok((first, aim, places, rest))
}

/// Appends the spelling of a list tuple, 20 bytes and the packed places of the centre. The only fault is
/// `Memory`, and then the bytes are as before.
pub fn write_centre(centre: &CentreTuple, into: &mut Vec<u8>) -> Result<(), TupleFault>
    ensures ok { OnOk result (into.new.items ≡ into.old.items ++ centre_bytes centre.now) }
    ensures err { OnErr result (into.new.items ≡ into.old.items) }
    ensures memory { IfErr result (λ fault. fault ≡ TupleFault.Memory) }
{
    let places = centre.bits.bytes();
    into.reserve(20 + places.len())?;
    put(
        into,
        &front_of_list(centre.first, centre.aim, centre.bits.count()),
    );
    put(into, places);
    Ok(())
}

/// The bytes before the places.
fn front_of_list(first: u32, aim: u32, count: u32) -> [u8; 20]
    requires { count ≤ MOST_BITS }
    ensures { result ≡ to_le_bytes w32 first ++ (to_le_bytes w32 aim
        ++ (0 ∷ 0 ∷ 0 ∷ 0 ∷ to_le_bytes w32 (length_word count) ++ to_le_bytes w32 count)) }
{
    let f = first.to_le_bytes();
    let a = aim.to_le_bytes();
    let w = length_word(count).to_le_bytes();
    let c = count.to_le_bytes();
    [
        f[0], f[1], f[2], f[3], a[0], a[1], a[2], a[3], 0, 0, 0, 0, w[0], w[1], w[2], w[3], c[0],
        c[1], c[2], c[3],
    ]
}

/// Gives the list tuple in these bytes another aim, and changes nothing else. It takes no memory.
pub fn set_aim(bytes: &mut [u8], aim: u32)
    requires { 8 ≤ length bytes.old }
    ensures { (c : CentreTuple) → bytes.old ≡ centre_bytes c → bytes.new ≡ centre_bytes (centre_with c.first aim c.bits) }
{
    bytes[4..8].copy_from_slice(&aim.to_le_bytes());
}
