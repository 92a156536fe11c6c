// The slots of a neighbour, as they are seen.
#![tactic(auto)]

ghost use Rattle.std.specs.Prelude.{◌≡◌, ◌∷◌, [], OnOk, IfOk, IfErr, length, None, Some, slice_get};
ghost use Rattle.graph_search.specs.Insert.{held_in, most_in};
ghost use Rattle.graph_search.specs.Reads.{AtNode};
ghost use Rattle.graph_search.specs.Search.{has_some};
ghost use Rattle.vec_steps.specs.Telling.{node_told};
ghost use Rattle.vec_steps.specs.declared.fault.OpFault.TheVariants.{Memory};
ghost use Rattle.layer_search.specs.Linking.{SeesMember, SeesSlot, SeesWithout, links_by, tried_told};

use crate::back::{Back, LinkRoom, Tried};
use crate::choosing::most_of;
use arrayvec::ArrayVec;
use bit_code::Bits;
use bit_dist::{Dist, distance};
use neighbour_pick::SlotSeen;
use std::alloc::AllocError;
use std::mem;
use vec_names::{HeapId, Listed, Tid};
use vec_steps::{OpFault, Word};

/// Takes the slots that a look at a list told, of which none is seen yet. A list with another number of slots than its layer has is
/// of no index: it counts as want of memory.
pub fn take_slots(back: Back, room: &mut LinkRoom) -> Result<(), OpFault>
    ensures tids { OnOk result (room.new.tids ≡ room.old.told.tids) }
    ensures many { OnOk result (length room.new.tids ≡ most_in back.m back.layer) }
    ensures none { OnOk result (room.new.seen ≡ []) }
    ensures told { room.new.told ≡ room.old.told }
    ensures entrant { room.new.entrant ≡ room.old.entrant }
    ensures memory { IfErr result (λ e. e ≡ Memory) }
{
    if room.told.tids.as_slice().len() != most_of(back.m, back.layer) as usize {
        return Err(OpFault::Memory);
    }
    room.tids.clear();
    room.tids.extend_from_slice(room.told.tids.as_slice())?;
    keep_values(&mut room.seen, &mut room.spare)?;
    Ok(())
}

// Takes all slots out, and keeps their values.
fn keep_values(seen: &mut Listed<SlotSeen>, spare: &mut Listed<Bits>) -> Result<(), AllocError>
    ensures { OnOk result (seen.new ≡ []) }
{
    'slots: while let Some(slot) = seen.pop() {
        let SlotSeen {
            at: _,
            live: _,
            dist: _,
            bits,
        } = slot;
        spare.push(bits)?;
    }
    Ok(())
}

// A value as long as this one: one that was kept, if there is one.
fn spare_value(like: &Bits, spare: &mut Listed<Bits>) -> Result<Bits, AllocError>
    ensures { IfOk result (λ bits. length bits ≡ length like.now) }
{
    if let Some(bits) = spare.pop() {
        if bits.count() == like.count() {
            return Ok(bits);
        }
    }
    like.copied()
}

/// Puts a slot without a member last.
pub fn see_empty(back: Back, owner: &Bits, room: &mut LinkRoom) -> Result<(), AllocError>
    ensures seen { OnOk result (SeesSlot back.ops owner.now back.layer None [] room.old.seen room.new.seen) }
    ensures told { room.new.told ≡ room.old.told }
    ensures tids { room.new.tids ≡ room.old.tids }
    ensures entrant { room.new.entrant ≡ room.old.entrant }
{
    let _ = back;
    see_without(None, owner, &mut room.seen, &mut room.spare)?;
    Ok(())
}

// Puts a slot last whose value and distance say nothing.
fn see_without(
    at: Option<Tid>,
    owner: &Bits,
    seen: &mut Listed<SlotSeen>,
    spare: &mut Listed<Bits>,
) -> Result<(), AllocError>
    ensures { OnOk result (SeesWithout at (length owner.now) seen.old seen.new) }
{
    let bits = spare_value(owner, spare)?;
    seen.push(SlotSeen {
        at,
        live: false,
        dist: Dist { num: 0, den: 1 },
        bits,
    })?;
    Ok(())
}

/// Puts a slot last whose member a look told, by its distance to the list's owner. The value is taken, and another as long is left.
pub fn see_told(back: Back, owner: &Bits, at: Tid, room: &mut LinkRoom) -> Result<(), AllocError>
    requires { length owner.now ≡ length room.old.told.bits }
    ensures seen { OnOk result (SeesSlot back.ops owner.now back.layer (Some at)
        ((AtNode at back.layer None, node_told room.old.told.word room.old.told.list_at room.old.told) ∷ [])
        room.old.seen room.new.seen) }
    ensures told { length room.new.told.bits ≡ length room.old.told.bits }
    ensures tids { room.new.tids ≡ room.old.tids }
    ensures entrant { room.new.entrant ≡ room.old.entrant }
{
    let Word::Node = room.told.word else {
        see_without(Some(at), owner, &mut room.seen, &mut room.spare)?;
        return Ok(());
    };
    let Some(_list_at) = room.told.list_at else {
        see_without(Some(at), owner, &mut room.seen, &mut room.spare)?;
        return Ok(());
    };
    see_member(back, owner, at, room)?;
    Ok(())
}

// Puts a slot last whose member stands.
fn see_member(back: Back, owner: &Bits, at: Tid, room: &mut LinkRoom) -> Result<(), AllocError>
    requires { length owner.now ≡ length room.old.told.bits }
    ensures seen { OnOk result (SeesMember back.ops owner.now at room.old.told room.old.seen room.new.seen) }
    ensures told { length room.new.told.bits ≡ length room.old.told.bits }
    ensures tids { room.new.tids ≡ room.old.tids }
    ensures entrant { room.new.entrant ≡ room.old.entrant }
{
    let dist = distance(back.ops, owner, &room.told.bits);
    let other = spare_value(&room.told.bits, &mut room.spare)?;
    let bits = mem::replace(&mut room.told.bits, other);
    room.seen.push(SlotSeen {
        at: Some(at),
        live: has_row(&room.told.ids),
        dist,
        bits,
    })?;
    Ok(())
}

// Whether a row has the value of a member.
fn has_row(ids: &ArrayVec<HeapId, 10>) -> bool
    ensures { result ≡ has_some ids.now.items }
{
    !ids.is_empty()
}

/// What a slot was read to hold.
pub fn held_at(slots: &[Option<Tid>], slot: u16) -> Option<Tid>
    ensures { result ≡ held_in (slice_get slots.now slot) }
{
    match slots.get(slot as usize) {
        Some(held) => *held,
        None => None,
    }
}

/// How a try ended, by the word to the link.
pub fn tried_of(word: Word) -> Tried
    ensures { result ≡ tried_told word }
{
    match word {
        Word::Done => Tried::Linked,
        Word::Changed => Tried::Again,
        _ => Tried::Over,
    }
}

/// How many links a try made.
pub fn links_of(tried: Tried) -> u32
    ensures { result ≡ links_by tried }
{
    match tried {
        Tried::Linked => 1,
        _ => 0,
    }
}
