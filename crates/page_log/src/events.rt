//! Reading the events of a batch, piece by piece.

ghost use Rattle.std.specs.Prelude.{◌≡◌, ◌+◌, ◌-◌, ◌*◌, ◌<◌, ◌≤◌, ◌^◌, ◌++◌, ◌⊎◌, List, None, true, false, length, take, drop, IfOk, MatchBool, min};
ghost use Rattle.page_log.specs.Batches.{Placed, AreEvents, room_of};
ghost use Rattle.page_log.specs.Steps.{AddsFirst, OnlyReads};
ghost use Rattle.vec_outside.specs.Causes.{HasCause};

use crate::finding::read_bytes;
use crate::limits::PIECE;
use std::alloc::{AllocError, Global};
use vec_event::{Event, EventFault, read_event};
use vec_outside::{Area, Disks, Outage};

/// What was read of a piece: how many bytes its whole events have; and whether no event begins behind them, whatever follows the
/// piece.
#[derive(Clone, Copy, Debug, PartialEq, Eq)]
pub struct Piece {
    pub len: usize,
    pub bad: bool,
}

/// Adds the events that stand whole at the front of these bytes, the first of which is at a place.
pub fn read_events(
    alloc: Global,
    at: u64,
    bytes: &[u8],
    events: &mut Vec<(u64, Event)>,
) -> Result<Piece, AllocError>
    requires { at + length bytes.now < 2 ^ 64 }
    ensures { IfOk result (AddsFirst at bytes.now events.old.items events.new.items) }
{
    let mut left = bytes;
    while !left.is_empty() {
        let len = bytes.len() - left.len();
        match read_event(alloc, left) {
            Ok((event, size)) => {
                events.push((at + len as u64, event))?;
                left = &left[size..];
            }
            Err(fault) => match fault {
                EventFault::Memory => return Err(AllocError),
                EventFault::Short => return Ok(Piece { len, bad: false }),
                EventFault::Bad { .. } => return Ok(Piece { len, bad: true }),
            },
        }
    }
    Ok(Piece {
        len: bytes.len(),
        bad: false,
    })
}

/// How many bytes of a batch were read, and how many are read at a time.
#[derive(Clone, Copy)]
struct Progress {
    done: u64,
    most: u64,
}

/// After a piece: the next one begins behind its whole events; where it has none, it is twice as long.
fn next(old: Progress, len: u64) -> Progress
    requires fits { old.done + len < 2 ^ 64 }
    ensures longer { len ≡ 0 → (result.done ≡ old.done) × (result.most ≡ min (old.most * 2) (2 ^ 64 - 1)) }
    ensures further { 0 < len → (result.done ≡ old.done + len) × (result.most ≡ PIECE) }
{
    if len == 0 {
        return Progress {
            done: old.done,
            most: old.most.saturating_mul(2),
        };
    }
    Progress {
        done: old.done + len,
        most: PIECE,
    }
}

/// Whether the bytes behind the whole events of a piece of this size begin with none, where so many bytes are left of the batch.
fn is_bad(piece: Piece, size: u64, left: u64) -> bool
    ensures { MatchBool result ((piece.bad ≡ true) ⊎ ((size ≡ left) × (piece.len < size)))
        ((piece.bad ≡ false) × (size ≡ left → size ≤ piece.len)) }
{
    if piece.bad {
        return true;
    }
    size == left && (piece.len as u64) < size
}

/// Adds the events that so many bytes of an area from a place on spell, and gives the place of the first that can't be read. No
/// more than a piece is in memory at a time, or twice an event that is longer.
pub fn read_batch_events<D: Disks>(
    alloc: Global,
    disks: &mut D,
    area: Area,
    at: u64,
    len: u64,
    events: &mut Vec<(u64, Event)>,
) -> Result<Option<u64>, Outage>
    requires place { at + len < 2 ^ 64 }
    requires within { D.told → at + len ≤ length ((D.disk disks.old).seen area) }
    ensures events { D.told → IfOk result (λ bad. (more : List Placed) × (events.new.items ≡ events.old.items ++ more)
        × AreEvents at (take len (drop at ((D.disk disks.old).seen area))) more bad) }
    ensures more { IfOk result (λ bad. (more : List Placed) × (events.new.items ≡ events.old.items ++ more)) }
    ensures room { IfOk result (λ bad. bad ≡ None → (more : List Placed) × (events.new.items ≡ events.old.items ++ more)
        × (len + 5 * length more ≤ room_of more)) }
    ensures only { OnlyReads (D.disk disks.old) (D.disk disks.new) }
    ensures cause { HasCause (D.count disks.old) (D.count disks.new) result }
{
    let mut progress = Progress {
        done: 0,
        most: PIECE,
    };
    while progress.done < len {
        let left = len - progress.done;
        let size = progress.most.min(left);
        let bytes = read_bytes(alloc, disks, area, at + progress.done, size)?;
        let piece = read_events(alloc, at + progress.done, &bytes, events)?;
        if is_bad(piece, size, left) {
            return Ok(Some(at + progress.done + piece.len as u64));
        }
        progress = next(progress, piece.len as u64);
    }
    Ok(None)
}
