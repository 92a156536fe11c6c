// What a crash leaves of areas in memory.
ghost use Rattle.std.specs.Prelude.{◌≡◌, ◌+◌, ◌≤◌, ◌<◌, ◌++◌, false, length, take, drop, vec_len, IfOk, OnOk};
ghost use Rattle.vec_outside.specs.Areas.{bytes_of};
ghost use Rattle.vec_outside.specs.Crash.{IsChosen, UndoneBy};
ghost use Rattle.vec_outside.specs.Disk.{IsTorn};
ghost use Rattle.vec_outside.specs.MemDisk.{before_call, is_sync_of as is_sync_in, MayMake, timeline_disk, synced_image};

use crate::Area;
use crate::areas::{is_same, overwrite};
use crate::draws::Draws;
use crate::timeline::{Call, Timeline};
use std::alloc::{AllocError, Global};

/// What a crash leaves, of all that it may.
#[derive(Clone, Copy, Debug, PartialEq, Eq)]
pub enum Choice {
    /// All that was written.
    Kept,
    /// What the last syncs left.
    Lost,
    /// Of each write since then all, nothing, or a part of its length, in which each byte is the new
    /// one, the one that stood there, zero or any other, as drawn from this seed. A write that
    /// failed is among them.
    Mixed(u64),
}

/// Where the draws of a choice begin. It promises nothing: any draws give one of the images.
pub fn seed_of(choice: Choice) -> u64 {
    match choice {
        Choice::Mixed(seed) => seed,
        _ => 0,
    }
}

/// An area as its last sync left it, and for each call since then, the newest first, what it wrote
/// there.
#[derive(Drop)]
struct Back {
    bytes: Vec<u8>,
    pieces: Vec<Vec<u8>>,
}

// Takes a write back: the bytes that it took the place of stand there again.
fn unwrite(
    alloc: Global,
    bytes: &mut Vec<u8>,
    at: usize,
    len: usize,
    was: &[u8],
) -> Result<(), AllocError>
    ensures { OnOk result (bytes.new.items
        ≡ take at bytes.old.items ++ was.now ++ drop (at + len) bytes.old.items) }
{
    if at <= bytes.len() && was.len() == len {
        return overwrite(bytes, at, was);
    }
    let mut rest = Vec::new(alloc);
    if at < bytes.len() && len < bytes.len() - at {
        rest.extend_from_slice(&bytes[at + len..])?;
    }
    bytes.truncate(at);
    bytes.extend_from_slice(was)?;
    bytes.extend_from_slice(&rest)
}

// Takes a call back.
fn take_back(alloc: Global, call: &Call, area: Area, bytes: &mut Vec<u8>) -> Result<(), AllocError>
    ensures { OnOk result (bytes.new.items ≡ before_call call.now area bytes.old.items) }
{
    match call {
        Call::Wrote(write) => {
            if is_same(write.area, area) {
                return unwrite(alloc, bytes, write.at, write.len, &write.was);
            }
            Ok(())
        }
        Call::Synced(_) => Ok(()),
    }
}

// Whether a call synced an area.
fn is_sync_of(call: &Call, area: Area) -> bool
    ensures { result ≡ is_sync_in call.now area }
{
    match call {
        Call::Wrote(_) => false,
        Call::Synced(synced) => is_same(*synced, area),
    }
}

// What a call wrote into an area that reads as these bytes after it, or would have written, had it
// not failed.
fn piece_of(alloc: Global, call: &Call, area: Area, now: &[u8]) -> Result<Vec<u8>, AllocError> {
    match call {
        Call::Wrote(write) => {
            let mut piece = Vec::new(alloc);
            if is_same(write.area, area) && write.at <= now.len() {
                let len = write.len.min(now.len() - write.at);
                let end = write.at + len;
                piece.extend_from_slice(&now[write.at..end])?;
            }
            if write.refused.len() > 0 {
                piece.clear();
                piece.extend_from_slice(&write.refused)?;
            }
            Ok(piece)
        }
        Call::Synced(_) => Ok(Vec::new(alloc)),
    }
}

// Goes back to the last sync of an area, or to its start.
fn go_back(alloc: Global, line: &Timeline, area: Area) -> Result<Back, AllocError>
    ensures within { IfOk result (λ back. vec_len back.pieces ≤ length line.now.done.items) }
    ensures undone { IfOk result (λ back. UndoneBy area (bytes_of line.now.areas area)
        (take (vec_len back.pieces) line.now.done.items) back.bytes.items) }
    ensures synced { IfOk result (λ back. back.bytes.items ≡ synced_image line.now area) }
{
    let mut bytes = line.areas.bytes(area).to_vec(alloc)?;
    let mut pieces = Vec::new(alloc);
    for i in 0..line.done.len() {
        let call = &line.done[i];
        if is_sync_of(call, area) {
            return Ok(Back { bytes, pieces });
        }
        let piece = piece_of(alloc, call, area, &bytes)?;
        pieces.push(piece)?;
        take_back(alloc, call, area, &mut bytes)?;
    }
    Ok(Back { bytes, pieces })
}

// What is left of a byte whose write was torn: what stood there, the new one, zero, or any other.
fn torn_byte(stood: u8, new: u8, draws: &mut Draws) -> u8 {
    match draws.up_to(3) {
        0 => stood,
        1 => new,
        2 => 0,
        _ => draws.up_to(255) as u8,
    }
}

// A piece that was torn at a drawn length.
fn torn_piece(
    alloc: Global,
    stood: &[u8],
    piece: &[u8],
    draws: &mut Draws,
) -> Result<Vec<u8>, AllocError>
    ensures { IfOk result (λ torn. vec_len torn ≤ length piece.now) }
{
    let reach = draws.up_to(piece.len());
    let mut torn = Vec::new(alloc);
    for i in 0..reach {
        let before = if i < stood.len() { stood[i] } else { 0 };
        torn.push(torn_byte(before, piece[i], draws))?;
    }
    Ok(torn)
}

// Lets a write of a piece happen, not happen, or tear.
fn tear(
    alloc: Global,
    bytes: &mut Vec<u8>,
    at: usize,
    piece: &[u8],
    draws: &mut Draws,
) -> Result<(), AllocError>
    ensures { OnOk result (IsTorn at (length piece.now) bytes.old.items bytes.new.items) }
{
    if at > bytes.len() {
        // The end that it was to be put behind was lost.
        return Ok(());
    }
    match draws.up_to(2) {
        0 => Ok(()),
        1 => overwrite(bytes, at, piece),
        _ => {
            let torn = torn_piece(alloc, &bytes[at..], piece, draws)?;
            overwrite(bytes, at, &torn)
        }
    }
}

// Lets a call happen to what a crash before it left, as far as a crash may leave it.
fn happen(
    alloc: Global,
    call: &Call,
    area: Area,
    piece: &[u8],
    bytes: &mut Vec<u8>,
    draws: &mut Draws,
) -> Result<(), AllocError>
    requires { is_sync_in call.now area ≡ false }
    ensures { OnOk result (MayMake call.now area bytes.old.items bytes.new.items) }
{
    match call {
        Call::Wrote(write) => {
            if is_same(write.area, area) {
                let len = write.len.min(piece.len());
                return tear(alloc, bytes, write.at, &piece[..len], draws);
            }
            Ok(())
        }
        Call::Synced(_) => Ok(()),
    }
}

// Goes back to the last sync, and then lets each call since then happen anew.
fn mixed(
    alloc: Global,
    line: &Timeline,
    area: Area,
    draws: &mut Draws,
) -> Result<Vec<u8>, AllocError>
    ensures { IfOk result (λ bytes. (timeline_disk line.now).leaves area bytes.items) }
{
    let start = go_back(alloc, line, area)?;
    let mut bytes = start.bytes;
    let mut pieces = start.pieces;
    while let Some(piece) = pieces.pop() {
        let call = &line.done[pieces.len()];
        happen(alloc, call, area, &piece, &mut bytes, draws)?;
    }
    Ok(bytes)
}

/// What a crash leaves of an area.
pub fn left(
    alloc: Global,
    line: &Timeline,
    area: Area,
    choice: Choice,
    draws: &mut Draws,
) -> Result<Vec<u8>, AllocError>
    ensures leaves { IfOk result (λ bytes. (timeline_disk line.now).leaves area bytes.items) }
    ensures chosen { IfOk result (λ bytes. IsChosen choice (bytes_of line.now.areas area)
        (synced_image line.now area) bytes.items) }
{
    match choice {
        Choice::Kept => {
            let kept = line.areas.bytes(area).to_vec(alloc)?;
            Ok(kept)
        }
        Choice::Lost => Ok(go_back(alloc, line, area)?.bytes),
        Choice::Mixed(_) => mixed(alloc, line, area, draws),
    }
}
