//! The neighbour tuple of a graph's element: the places of its neighbours, layer by layer.
#![tactic(auto, unfolding(crate::specs::Reading::links, crate::specs::Spelling::links_bytes))]

ghost use Rattle.std.specs.Prelude.{◌≡◌, ◌≤◌, ◌<◌, ◌^◌, ◌++◌, ◌∷◌, [], length, OnOk, OnErr, IfOk, IfErr, MatchResult};
ghost use Rattle.std.specs.Int.{w16, to_le_bytes};
ghost use Rattle.vec_names.specs.Params.{IsInRange};
ghost use Rattle.vec_tuples.specs.Spelling.{links_bytes, links_kind, IsLinks};
ghost use Rattle.vec_tuples.specs.Reading.{links};
ghost use Rattle.byte_fields.specs.Answers.{GivesOr};
ghost use Rattle.vec_tuples.specs.Answers.{IsReading, BeginsSome};
ghost use Rattle.vec_tuples.specs.declared.links.Links.{Links};

use crate::fault::TupleFault;
use crate::slots::slot_count;
use byte_fields::{Halt, byte_from, put, put_slots, slots};
use std::alloc::Global;
use vec_names::{Listed, Params, Tid};

/// What an element's neighbour tuple says.
#[derive(Drop)]
pub struct Links {
    /// Whether the element is deleted; then no slot names a place.
    pub deleted: bool,
    /// The element's version, 1 to 255.
    pub version: u8,
    /// The slots, m for each layer from the element's level down to 1, and then 2m of the lowest layer.
    pub tids: Listed<Option<Tid>>,
}

/// The neighbour tuple that these bytes spell under the parameters, all of them.
///
/// `Bad` exactly where no neighbour tuple has these bytes, at the first field whose value is not allowed
/// beside the fields before it, or at or in which the bytes end; at the tuple's length where more bytes
/// follow. The fields are the kind at 0 (2, or 3 where the element is deleted), the version at 1, the
/// number of slots at 2, which is `level + 2` times `m` for a level from 0 to 255 and at most 1,358, and
/// the slots from 4 on, of six bytes each.
pub fn read_list(alloc: Global, bytes: &[u8], params: &Params) -> Result<Links, TupleFault>
    requires { IsInRange params.now }

    // What is read is spelled so.
    ensures spelled { IfOk result (λ l. IsLinks params.now l × (bytes.now ≡ links_bytes l)) }

    // What is spelled so is read, unless memory runs out.
    ensures read { (l : Links) → IsLinks params.now l → bytes.now ≡ links_bytes l
        → MatchResult result (λ x. x ≡ l) (λ fault. fault ≡ TupleFault.Memory) }

    // The fault that it is, field by field.
    ensures exact { IsReading (links params.now) bytes.now result }

    // The bytes before it begin some tuple.
    ensures start { IfErr result (BeginsSome (IsLinks params.now) links_bytes bytes.now) }
{
    match links_at(alloc, *params, bytes) {
        Ok((read, rest)) => {
            if !rest.is_empty() {
                return Err(TupleFault::Bad {
                    at: (bytes.len() - rest.len()) as u16,
                });
            }
            Ok(read)
        }
        Err(Halt::Memory) => Err(TupleFault::Memory),
        Err(Halt::Stopped(stop)) => Err(TupleFault::Bad {
            at: (bytes.len() - stop.left) as u16,
        }),
    }
}

fn links_at(alloc: Global, params: Params, bytes: &[u8]) -> Result<(Links, &[u8]), Halt>
    ensures { GivesOr (λ x. (x.0, x.1.now)) result (links params bytes.now) }
{
    let (kind, rest) = byte_from(2, 3, bytes)?;
    let (version, rest) = byte_from(1, 255, rest)?;
    let (count, rest) = slot_count(params.m, rest)?;
    let (tids, rest) = slots(alloc, kind == 3, count, rest)?;
    Ok((
        Links {
            deleted: kind == 3,
            version,
            tids,
        },
        rest,
    ))
}

/// Appends the spelling of a neighbour tuple, 4 bytes and 6 for each slot. The only fault is `Memory`, and
/// then the bytes are as before.
pub fn write_list(links: &Links, into: &mut Vec<u8>) -> Result<(), TupleFault>
    requires { length links.now.tids < 2 ^ 16 }
    ensures ok { OnOk result (into.new.items ≡ into.old.items ++ links_bytes links.now) }
    ensures err { OnErr result (into.new.items ≡ into.old.items) }
    ensures memory { IfErr result (λ fault. fault ≡ TupleFault.Memory) }
{
    let tids = links.tids.as_slice();
    into.reserve(4 + 6 * tids.len())?;
    put(
        into,
        &front_of_links(links.deleted, links.version, tids.len() as u16),
    );
    put_slots(into, tids);
    Ok(())
}

/// The bytes before the slots.
pub fn front_of_links(deleted: bool, version: u8, count: u16) -> [u8; 4]
    ensures { result ≡ links_kind deleted ∷ version ∷ to_le_bytes w16 count }
{
    let c = count.to_le_bytes();
    if deleted {
        [3, version, c[0], c[1]]
    } else {
        [2, version, c[0], c[1]]
    }
}
