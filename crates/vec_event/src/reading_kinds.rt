//! The fields of each kind of event, in their order.
#![tactic(auto, unfolding(crate::specs::Reading::put, crate::specs::Reading::join, crate::specs::Reading::link, crate::specs::Reading::relist, crate::specs::Reading::drop_ids, crate::specs::Reading::mark, crate::specs::Reading::entry, crate::specs::Reading::hint, crate::specs::Reading::ivf_add, crate::specs::Reading::ivf_grow, crate::specs::Reading::ivf_drop, crate::specs::Reading::ivf_hint))]

ghost use Rattle.std.specs.Prelude.{◌≡◌, length};
ghost use Rattle.byte_fields.specs.Answers.{Gives, GivesOr};
ghost use Rattle.vec_event.specs.Reading.{put, join, link, relist, drop_ids, mark, entry, hint, block, ivf_add, ivf_grow, ivf_drop, ivf_hint};

use crate::counted::{bits, lists, offsets};
use byte_fields::{
    Halt, Stop, byte_from, four_bytes_from, heap_id, level_beside, optional_place, place,
    two_bytes_from,
};
use index_sizes::{LAST_BLOCK, MOST_BLOCKS};
use std::alloc::Global;
use vec_history::Event;

pub fn put(alloc: Global, bytes: &[u8]) -> Result<(Event, &[u8]), Halt>
    ensures { GivesOr (λ x. (x.0, x.1.now)) result (put bytes.now) }
{
    let (at, rest) = place(bytes)?;
    let (list_at, rest) = place(rest)?;
    let (version, rest) = byte_from(1, 255, rest)?;
    let (level, rest) = byte_from(0, 255, rest)?;
    let (id, rest) = heap_id(rest)?;
    let (bits, rest) = bits(alloc, rest)?;
    let (lists, rest) = lists(alloc, rest)?;
    let event = Event::Put {
        at,
        list_at,
        version,
        level,
        id,
        bits,
        lists,
    };
    Ok((event, rest))
}

pub fn join(bytes: &[u8]) -> Result<(Event, &[u8]), Halt>
    ensures { GivesOr (λ x. (x.0, x.1.now)) result (join bytes.now) }
{
    let (at, rest) = place(bytes)?;
    let (version, rest) = byte_from(1, 255, rest)?;
    let (id, rest) = heap_id(rest)?;
    Ok((Event::Join { at, version, id }, rest))
}

pub fn link(bytes: &[u8]) -> Result<(Event, &[u8]), Halt>
    ensures { GivesOr (λ x. (x.0, x.1.now)) result (link bytes.now) }
{
    let (at, rest) = place(bytes)?;
    let (list_at, rest) = place(rest)?;
    let (version, rest) = byte_from(1, 255, rest)?;
    let (slot, rest) = two_bytes_from(0, 65_535, rest)?;
    let (to, rest) = place(rest)?;
    let event = Event::Link {
        at,
        list_at,
        version,
        slot,
        to,
    };
    Ok((event, rest))
}

pub fn relist(alloc: Global, bytes: &[u8]) -> Result<(Event, &[u8]), Halt>
    ensures { GivesOr (λ x. (x.0, x.1.now)) result (relist bytes.now) }
{
    let (at, rest) = place(bytes)?;
    let (list_at, rest) = place(rest)?;
    let (version, rest) = byte_from(1, 255, rest)?;
    let (lists, rest) = lists(alloc, rest)?;
    let event = Event::Relist {
        at,
        list_at,
        version,
        lists,
    };
    Ok((event, rest))
}

pub fn drop_ids(bytes: &[u8]) -> Result<(Event, &[u8]), Halt>
    ensures { GivesOr (λ x. (x.0, x.1.now)) result (drop_ids bytes.now) }
{
    let (at, rest) = place(bytes)?;
    let (version, rest) = byte_from(1, 255, rest)?;
    let (gone, rest) = two_bytes_from(1, 1_023, rest)?;
    Ok((Event::Drop { at, version, gone }, rest))
}

pub fn mark(bytes: &[u8]) -> Result<(Event, &[u8]), Halt>
    ensures { GivesOr (λ x. (x.0, x.1.now)) result (mark bytes.now) }
{
    let (at, rest) = place(bytes)?;
    let (list_at, rest) = place(rest)?;
    let (version, rest) = byte_from(1, 255, rest)?;
    let event = Event::Mark {
        at,
        list_at,
        version,
    };
    Ok((event, rest))
}

pub fn entry(bytes: &[u8]) -> Result<(Event, &[u8]), Halt>
    ensures { GivesOr (λ x. (x.0, x.1.now)) result (entry bytes.now) }
{
    let (to, rest) = optional_place(bytes)?;
    let (level, rest) = level_beside(to, rest)?;
    Ok((Event::Entry { to, level }, rest))
}

pub fn hint(bytes: &[u8]) -> Result<(Event, &[u8]), Halt>
    ensures { GivesOr (λ x. (x.0, x.1.now)) result (hint bytes.now) }
{
    let (block, rest) = four_bytes_from(0, MOST_BLOCKS, bytes)?;
    Ok((Event::Hint { block }, rest))
}

pub fn ivf_add(alloc: Global, bytes: &[u8]) -> Result<(Event, &[u8]), Halt>
    ensures { GivesOr (λ x. (x.0, x.1.now)) result (ivf_add bytes.now) }
{
    let (block, rest) = block(bytes)?;
    let (id, rest) = heap_id(rest)?;
    let (bits, rest) = bits(alloc, rest)?;
    Ok((Event::IvfAdd { block, id, bits }, rest))
}

pub fn ivf_grow(alloc: Global, bytes: &[u8]) -> Result<(Event, &[u8]), Halt>
    ensures { GivesOr (λ x. (x.0, x.1.now)) result (ivf_grow bytes.now) }
{
    let (list, rest) = block(bytes)?;
    let (last, rest) = block(rest)?;
    let (block, rest) = block(rest)?;
    let (id, rest) = heap_id(rest)?;
    let (bits, rest) = bits(alloc, rest)?;
    let event = Event::IvfGrow {
        list,
        last,
        block,
        id,
        bits,
    };
    Ok((event, rest))
}

pub fn ivf_drop(alloc: Global, bytes: &[u8]) -> Result<(Event, &[u8]), Halt>
    ensures { GivesOr (λ x. (x.0, x.1.now)) result (ivf_drop bytes.now) }
{
    let (block, rest) = block(bytes)?;
    let (gone, rest) = offsets(alloc, rest)?;
    Ok((Event::IvfDrop { block, gone }, rest))
}

pub fn ivf_hint(bytes: &[u8]) -> Result<(Event, &[u8]), Halt>
    ensures { GivesOr (λ x. (x.0, x.1.now)) result (ivf_hint bytes.now) }
{
    let (list, rest) = block(bytes)?;
    let (block, rest) = block(rest)?;
    Ok((Event::IvfHint { list, block }, rest))
}

/// The number of a block or of a list, 0 to 32,767.
fn block(bytes: &[u8]) -> Result<(u32, &[u8]), Stop>
    ensures { Gives (λ x. (x.0, x.1.now)) result (block bytes.now) }
{
    four_bytes_from(0, LAST_BLOCK, bytes)
}
