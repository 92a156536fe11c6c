//! Reading an event.
#![tactic(auto, unfolding(crate::specs::Reading::event, crate::specs::Reading::fields_of))]

ghost use Rattle.std.specs.Prelude.{◌≡◌, ◌≢◌, ◌≤◌, ◌++◌, ℕ, List, [], length, drop, IfOk, MatchResult};
ghost use Rattle.vec_event.specs.Reading.{fields_of, event};
ghost use Rattle.byte_fields.specs.Answers.{GivesOr};
ghost use Rattle.vec_event.specs.Answers.{IsReading};
ghost use Rattle.vec_event.specs.Spelling.{spelling, IsTyped, IsWritable};
ghost use Rattle.vec_history.specs.declared.event.Event.{Event};

use crate::fault::EventFault;
use crate::reading_kinds::{
    drop_ids, entry, hint, ivf_add, ivf_drop, ivf_grow, ivf_hint, join, link, mark, put, relist,
};
use byte_fields::{Cause, Halt, byte_from};
use std::alloc::Global;
use vec_history::Event;

/// The event that the bytes begin with, and the number of its bytes. Other bytes may follow.
///
/// `Short` where the bytes end before the event does and no field before that is bad, and `Bad` at the
/// first field whose value is not allowed. Such fields are: a kind that is not 1 to 12; a place, an
/// optional place or a heap id that is none; a version of 0; a count of places that is not 1 to 64,000;
/// packed places with an unused bit set; a count of optional places above 1,358; a mask of heap ids
/// that is 0 or above 1,023; a level above 0 without an entry point; a block or a list above 32,767, in
/// a hint a block above 32,768; a count of offsets of 0; an offset that is not above the one before it,
/// or 0.
pub fn read_event(alloc: Global, bytes: &[u8]) -> Result<(Event, usize), EventFault>
    // What is read is spelled so, by the bytes that are counted.
    ensures spelled { IfOk result (λ x. IsWritable x.0 × IsTyped x.0
        × (bytes.now ≡ spelling x.0 ++ drop x.1 bytes.now) × (x.1 ≡ length (spelling x.0))) }

    // What is spelled so is read, whatever follows it, unless memory runs out.
    ensures read { (e : Event) (rest : List ℕ) → IsTyped e → IsWritable e → bytes.now ≡ spelling e ++ rest
        → MatchResult result (λ x. x ≡ (e, length (spelling e))) (λ fault. fault ≡ EventFault.Memory) }

    // A part of a spelling is short.
    ensures cut { (e : Event) (more : List ℕ) → IsTyped e → IsWritable e → spelling e ≡ bytes.now ++ more → more ≢ []
        → MatchResult result (λ _. ⊥) (λ fault. fault ≢ EventFault.Memory → fault ≡ EventFault.Short) }

    // The fault that it is, field by field.
    ensures exact { IsReading bytes.now result }
{
    match event(alloc, bytes) {
        Ok((event, rest)) => Ok((event, bytes.len() - rest.len())),
        Err(Halt::Memory) => Err(EventFault::Memory),
        Err(Halt::Stopped(stop)) => match stop.cause {
            Cause::Short => Err(EventFault::Short),
            Cause::Bad => Err(EventFault::Bad {
                at: (bytes.len() - stop.left) as u32,
            }),
        },
    }
}

fn event(alloc: Global, bytes: &[u8]) -> Result<(Event, &[u8]), Halt>
    ensures { GivesOr (λ x. (x.0, x.1.now)) result (event bytes.now) }
{
    let (kind, rest) = byte_from(1, 12, bytes)?;
    fields_of(alloc, kind, rest)
}

/// The fields of an event of this kind.
fn fields_of(alloc: Global, kind: u8, bytes: &[u8]) -> Result<(Event, &[u8]), Halt>
    ensures { GivesOr (λ x. (x.0, x.1.now)) result (fields_of kind bytes.now) }
{
    match kind {
        1 => put(alloc, bytes),
        2 => join(bytes),
        3 => link(bytes),
        4 => relist(alloc, bytes),
        5 => drop_ids(bytes),
        6 => mark(bytes),
        7 => entry(bytes),
        8 => hint(bytes),
        9 => ivf_add(alloc, bytes),
        10 => ivf_grow(alloc, bytes),
        11 => ivf_drop(alloc, bytes),
        _ => ivf_hint(bytes),
    }
}
