//! The element tuple of a graph: the rows of an element, the place of its neighbour tuple and its value.
#![tactic(auto, using(crate::proofs::EachField::packed_long), unfolding(crate::specs::Reading::element, crate::specs::Reading::head, crate::specs::Spelling::element_bytes, crate::specs::Spelling::head_bytes))]

ghost use Rattle.std.specs.Prelude.{◌≡◌, ◌≤◌, ◌+◌, ◌/◌, ◌++◌, length, take, OnOk, OnErr, IfOk, IfErr, IfSome, MatchResult, List, Bool, Option, Some};
ghost use Rattle.bit_code.specs.Places.{unpacked, Packed};
ghost use Rattle.vec_names.specs.Params.{IsInRange};
ghost use Rattle.vec_tuples.specs.Spelling.{element_bytes, element_with, head_bytes, head_with, head_of_element, beside, deleted_byte, IsElement};
ghost use Rattle.vec_tuples.specs.Reading.{head, element};
ghost use Rattle.byte_fields.specs.Answers.{Gives};
ghost use Rattle.vec_tuples.specs.Answers.{IsReading, BeginsSome};
ghost use Rattle.vec_tuples.specs.declared.element.Element.{Element};

use crate::bits::{clear_if, value_head, value_of};
use crate::fault::TupleFault;
use crate::rows::{fill_rows, rows};
use arrayvec::ArrayVec;
use bit_code::Bits;
use byte_fields::{Stop, byte_from, place, put, two_bytes_from};
use index_sizes::MOST_BITS;
use std::alloc::Global;
use vec_names::{HeapId, Params, Tid};

/// What an element's tuple says.
#[derive(Drop)]
pub struct Element {
    /// The highest layer in which the element stands, from 0.
    pub level: u8,
    /// Whether the element is deleted; then it has no row, and no place of its value is set.
    pub deleted: bool,
    /// The element's version, 1 to 255.
    pub version: u8,
    /// The rows of the indexed table that have this value.
    pub ids: ArrayVec<HeapId, 10>,
    /// The place of the element's neighbour tuple.
    pub list_at: Tid,
    /// The rows' value.
    pub bits: Bits,
}

/// An element without its value.
#[derive(Drop)]
pub struct ElementHead {
    /// The highest layer in which the element stands, from 0.
    pub level: u8,
    /// Whether the element is deleted; then it has no row.
    pub deleted: bool,
    /// The element's version, 1 to 255.
    pub version: u8,
    /// The rows of the indexed table that have this value.
    pub ids: ArrayVec<HeapId, 10>,
    /// The place of the element's neighbour tuple.
    pub list_at: Tid,
}

/// The element tuple that these bytes spell under the parameters, all of them.
///
/// `Bad` exactly where no element tuple has these bytes, at the first field whose value is not allowed
/// beside the fields before it, or at or in which the bytes end; at the tuple's length where more bytes
/// follow. The fields are the kind at 0, which is 1, the level at 1, whether it is deleted at 2, the version
/// at 3, ten places of rows from 4 on, of six bytes each, the place of the neighbour tuple at 64, a zero of
/// two bytes at 70, and the value's length word at 72, its count at 76 and its places at 80. A row behind an
/// empty place, a row of a deleted element and a set place of its value are not allowed.
pub fn read_element(alloc: Global, bytes: &[u8], params: &Params) -> Result<Element, TupleFault>
    requires { IsInRange params.now }

    // What is read is spelled so.
    ensures spelled { IfOk result (λ e. IsElement params.now e × (bytes.now ≡ element_bytes e)) }

    // What is spelled so is read, unless memory runs out.
    ensures read { (e : Element) → IsElement params.now e → bytes.now ≡ element_bytes e
        → MatchResult result (λ x. x ≡ e) (λ fault. fault ≡ TupleFault.Memory) }

    // The fault that it is, field by field.
    ensures exact { IsReading (element params.now) bytes.now result }

    // The bytes before it begin some tuple.
    ensures start { IfErr result (BeginsSome (IsElement params.now) element_bytes bytes.now) }
{
    match element_at(*params, bytes) {
        Ok((head, places, rest)) => {
            if !rest.is_empty() {
                return Err(TupleFault::Bad {
                    at: (bytes.len() - rest.len()) as u16,
                });
            }
            match Bits::from_bytes(alloc, params.bits, places) {
                Ok(bits) => Ok(joined(head, bits)),
                Err(_) => Err(TupleFault::Memory),
            }
        }
        Err(stop) => Err(TupleFault::Bad {
            at: (bytes.len() - stop.left) as u16,
        }),
    }
}

fn joined(head: ElementHead, bits: Bits) -> Element
    ensures { result ≡ element_with head bits }
{
    let ElementHead {
        level,
        deleted,
        version,
        ids,
        list_at,
    } = head;
    Element {
        level,
        deleted,
        version,
        ids,
        list_at,
        bits,
    }
}

/// The head of the element tuple that these bytes spell under the parameters, all of them. None exactly where
/// no element tuple has these bytes. It takes no memory.
pub fn element_head(bytes: &[u8], params: &Params) -> Option<ElementHead>
    requires { IsInRange params.now }

    // What it tells is so of an element tuple that the bytes spell.
    ensures spelled { IfSome result (λ head. (bits : List Bool) × IsElement params.now (element_with head bits)
        × (bytes.now ≡ element_bytes (element_with head bits))) }

    // Each element tuple that the bytes spell is told.
    ensures read { (e : Element) → IsElement params.now e → bytes.now ≡ element_bytes e → result ≡ Some (head_of_element e) }
{
    match element_at(*params, bytes) {
        Ok((head, _, rest)) => { if rest.is_empty() { Some(head) } else { None } }
        Err(_) => None,
    }
}

fn element_at(params: Params, bytes: &[u8]) -> Result<(ElementHead, &[u8], &[u8]), Stop>
    requires some { 1 ≤ params.bits }
    requires few { params.bits ≤ MOST_BITS }
    ensures reads { Gives (λ x. (element_with x.0 (take params.bits (unpacked x.1.now)), x.2.now)) result (element params bytes.now) }
    ensures kept { IfOk result (λ x. Packed params.bits x.1.now) }
{
    let (head, rest) = head_at(bytes)?;
    let (places, rest) = value_of(head.deleted, params.bits, rest)?;
    Ok((head, places, rest))
}

fn head_at(bytes: &[u8]) -> Result<(ElementHead, &[u8]), Stop>
    ensures { Gives (λ x. (x.0, x.1.now)) result (head bytes.now) }
{
    let (_, rest) = byte_from(1, 1, bytes)?;
    let (level, rest) = byte_from(0, 255, rest)?;
    let (deleted, rest) = byte_from(0, 1, rest)?;
    let (version, rest) = byte_from(1, 255, rest)?;
    let (ids, rest) = rows(deleted == 1, rest)?;
    let (list_at, rest) = place(rest)?;
    let (_, rest) = two_bytes_from(0, 0, rest)?;
    let head = ElementHead {
        level,
        deleted: deleted == 1,
        version,
        ids,
        list_at,
    };
    Ok((head, rest))
}

/// Appends the spelling of an element tuple, 80 bytes and the packed places. The only fault is `Memory`, and
/// then the bytes are as before.
pub fn write_element(element: &Element, into: &mut Vec<u8>) -> Result<(), TupleFault>
    ensures ok { OnOk result (into.new.items ≡ into.old.items ++ element_bytes element.now) }
    ensures err { OnErr result (into.new.items ≡ into.old.items) }
    ensures memory { IfErr result (λ fault. fault ≡ TupleFault.Memory) }
{
    let places = element.bits.bytes();
    into.reserve(80 + places.len())?;
    let mut front = [0u8; 72];
    fill_head(
        element.level,
        element.deleted,
        element.version,
        element.ids.as_slice(),
        element.list_at,
        &mut front,
    );
    put(into, &front);
    put(into, &value_head(element.bits.count()));
    put(into, places);
    Ok(())
}

/// Writes the spelling of the element tuple of this head and this value over bytes of its length, 80 and the
/// packed places. It takes no memory.
pub fn fill_element(head: &ElementHead, bits: &Bits, into: &mut [u8])
    requires { length into.old ≡ 80 + (length bits.now + 7) / 8 }
    ensures { into.new ≡ element_bytes (element_with head.now bits.now) }
{
    let (front, value) = into.split_at_mut(72);
    fill_head(
        head.level,
        head.deleted,
        head.version,
        head.ids.as_slice(),
        head.list_at,
        front,
    );
    let (count, places) = value.split_at_mut(8);
    count.copy_from_slice(&value_head(bits.count()));
    places.copy_from_slice(bits.bytes());
}

/// Gives the element tuple in these bytes another head, and clears its value where the head is deleted. It
/// takes no memory.
pub fn set_head(bytes: &mut [u8], head: &ElementHead)
    requires { 80 ≤ length bytes.old }
    ensures { (e : Element) → bytes.old ≡ element_bytes e
        → bytes.new ≡ element_bytes (element_with head.now (beside head.now.deleted e.bits)) }
{
    let (front, value) = bytes.split_at_mut(72);
    fill_head(
        head.level,
        head.deleted,
        head.version,
        head.ids.as_slice(),
        head.list_at,
        front,
    );
    clear_if(head.deleted, value);
}

/// Writes the 72 bytes before the value.
fn fill_head(level: u8, deleted: bool, version: u8, ids: &[HeapId], list_at: Tid, into: &mut [u8])
    requires few { length ids.now ≤ 10 }
    requires long { length into.old ≡ 72 }
    ensures { into.new ≡ head_bytes (head_with level deleted version ids.now list_at) }
{
    let (front, rest) = into.split_at_mut(4);
    front.copy_from_slice(&[1, level, deleted_byte(deleted), version]);
    let (places, rest) = rest.split_at_mut(60);
    fill_rows(ids, places);
    let (place, zero) = rest.split_at_mut(6);
    place.copy_from_slice(&list_at.spelled());
    zero.copy_from_slice(&[0, 0]);
}

fn deleted_byte(deleted: bool) -> u8
    ensures { result ≡ deleted_byte deleted }
{
    if deleted { 1 } else { 0 }
}
