//! A neighbour tuple written over bytes, and looked at and changed where it stands, with no memory.
#![tactic(auto, unfolding(crate::specs::Spelling::links_bytes, crate::specs::Reading::links))]

ghost use Rattle.std.specs.Prelude.{◌≡◌, ◌≤◌, ◌<◌, ◌+◌, ◌*◌, ◌^◌, ◌++◌, length, slice_get, slice_set, Option, Some, IfSome};
ghost use Rattle.std.specs.List.{flat_map};
ghost use Rattle.vec_names.specs.declared.tid.Tid.{Tid};
ghost use Rattle.vec_names.specs.Pointer.{tid_option_bytes};
ghost use Rattle.vec_tuples.specs.Spelling.{links_bytes, links_with, head_of_links, HasSlot, IsLinks};
ghost use Rattle.vec_names.specs.Params.{IsInRange};
ghost use Rattle.vec_tuples.specs.Reading.{links};
ghost use Rattle.vec_tuples.specs.Answers.{Passes};
ghost use Rattle.vec_tuples.specs.declared.links.Links.{Links};

use crate::links::front_of_links;
use crate::six_bytes::{put_six, six_at};
use crate::slots::{skip_slots, slot_count};
use byte_fields::{Stop, byte_from};
use vec_names::{Params, Tid};

/// Writes the spelling of a neighbour tuple over bytes of its length, 4 and 6 for each slot. It takes no memory.
pub fn fill_links(deleted: bool, version: u8, tids: &[Option<Tid>], into: &mut [u8])
    requires few { length tids.now < 2 ^ 16 }
    requires long { length into.old ≡ 4 + 6 * length tids.now }
    ensures { into.new ≡ links_bytes (links_with deleted version tids.now) }
{
    let (front, slots) = into.split_at_mut(4);
    front.copy_from_slice(&front_of_links(deleted, version, tids.len() as u16));
    fill_slots(tids, slots);
}

fn fill_slots(tids: &[Option<Tid>], into: &mut [u8])
    requires { length into.old ≡ 6 * length tids.now }
    ensures { into.new ≡ flat_map tid_option_bytes tids.now }
{
    'places: for at in 0..tids.len() {
        put_six(into, 6 * at, Tid::spelled_option(tids[at]));
    }
}

/// The slot of this number, counted from 0 over the whole of the neighbour tuple that the bytes spell. It takes
/// no memory, and reads the slot's six bytes alone.
pub fn slot(bytes: &[u8], at: u16) -> Option<Tid>
    requires { HasSlot bytes.now at }
    ensures { (l : Links) → bytes.now ≡ links_bytes l → slice_get l.tids at ≡ Some result }
{
    match Tid::read_option(six_at(bytes, 4 + 6 * at as usize)) {
        Some(place) => place,
        None => unreachable!(),
    }
}

/// Puts another place, or none, into the slot of this number, and changes nothing else. It takes no memory, and
/// writes the slot's six bytes alone.
pub fn set_slot(bytes: &mut [u8], at: u16, to: Option<Tid>)
    requires { 6 * at + 10 ≤ length bytes.old }
    ensures { (l : Links) → bytes.old ≡ links_bytes l → bytes.new ≡ links_bytes (links_with l.deleted l.version (slice_set l.tids at to)) }
{
    put_six(bytes, 4 + 6 * at as usize, Tid::spelled_option(to));
}

/// Whether the element is deleted, its version, and the number of slots of the neighbour tuple that these bytes
/// spell under the parameters, all of them. None exactly where no neighbour tuple has these bytes. It takes no
/// memory.
pub fn links_head(bytes: &[u8], params: &Params) -> Option<(bool, u8, u16)>
    requires { IsInRange params.now }

    // What it tells is so of a neighbour tuple that the bytes spell.
    ensures spelled { IfSome result (λ head. (l : Links) × IsLinks params.now l × (bytes.now ≡ links_bytes l) × (head ≡ head_of_links l)) }

    // Each neighbour tuple that the bytes spell is told.
    ensures read { (l : Links) → IsLinks params.now l → bytes.now ≡ links_bytes l → result ≡ Some (head_of_links l) }
{
    match head_at(*params, bytes) {
        Ok((deleted, version, count, rest)) => {
            if rest.is_empty() {
                Some((deleted, version, count))
            } else {
                None
            }
        }
        Err(_) => None,
    }
}

fn head_at(params: Params, bytes: &[u8]) -> Result<(bool, u8, u16, &[u8]), Stop>
    ensures { Passes (λ x. ((x.0, x.1, x.2), x.3.now)) head_of_links result (links params bytes.now) }
{
    let (kind, rest) = byte_from(2, 3, bytes)?;
    let (version, rest) = byte_from(1, 255, rest)?;
    let (count, rest) = slot_count(params.m, rest)?;
    let rest = skip_slots(kind == 3, count, rest)?;
    Ok((kind == 3, version, count, rest))
}
