//! Finding a batch on the disks.

ghost use Rattle.std.specs.Prelude.{◌≡◌, ◌+◌, ◌<◌, ◌≤◌, ◌^◌, ℕ, List, length, take, drop, IfOk, MatchOption};
ghost use Rattle.page_log.specs.Steps.{OnlyReads, IsFront, IsFound, LiesIn};
ghost use Rattle.vec_outside.specs.Causes.{HasCause};

use crate::limits::OPEN;
use std::alloc::Global;
use vec_outside::{Area, Disks, Outage};

/// What stands at a place of a log area: no open seal, an open one with no whole batch, or a batch with so many bytes
/// of events.
#[derive(Clone, Copy)]
pub enum Found {
    Closed,
    Bad,
    Batch(u64),
}

/// So many bytes of an area from a place on.
pub fn read_bytes<D: Disks>(
    alloc: Global,
    disks: &mut D,
    area: Area,
    at: u64,
    len: u64,
) -> Result<Vec<u8>, Outage>
    requires { D.told → at + len ≤ length ((D.disk disks.old).seen area) }
    ensures bytes { D.told → IfOk result (λ bytes. bytes.items ≡ take len (drop at ((D.disk disks.old).seen area))) }
    ensures size { IfOk result (λ bytes. length bytes.items ≡ len) }
    ensures only { OnlyReads (D.disk disks.old) (D.disk disks.new) }
    ensures cause { HasCause (D.count disks.old) (D.count disks.new) result }
{
    let mut bytes = vec![in alloc; 0u8; len as usize]?;
    disks.read(area, at, &mut bytes)?;
    Ok(bytes)
}

/// The number of bytes of events that the front of a batch tells; None exactly where it is no such front.
fn length_in(front: &[u8]) -> Option<u64>
    ensures { MatchOption result ((len : ℕ) → ¬ IsFront front.now len) (λ len. IsFront front.now len) }
{
    let (seal, rest) = front.split_first()?;
    let (four, none) = rest.split_first_chunk::<4>()?;
    let len = u32::from_le_bytes(*four);
    if *seal != OPEN || !none.is_empty() || len == 0 {
        return None;
    }
    Some(u64::from(len))
}

/// What stands at a place of an area of this size.
pub fn find_batch<D: Disks>(
    alloc: Global,
    disks: &mut D,
    area: Area,
    at: u64,
    size: u64,
) -> Result<Found, Outage>
    requires { D.told → size ≡ length ((D.disk disks.old).seen area) }
    ensures found { D.told → IfOk result (IsFound ((D.disk disks.old).seen area) at) }
    ensures within { IfOk result (LiesIn size at) }
    ensures only { OnlyReads (D.disk disks.old) (D.disk disks.new) }
    ensures cause { HasCause (D.count disks.old) (D.count disks.new) result }
{
    if at >= size {
        return Ok(Found::Closed);
    }
    let front = read_bytes(alloc, disks, area, at, (size - at).min(5))?;
    if front[0] != OPEN {
        return Ok(Found::Closed);
    }
    match length_in(&front) {
        None => Ok(Found::Bad),
        Some(len) => Ok(batch_at(at, size, len)),
    }
}

/// What stands in an area of this size at the front of a batch that tells so many bytes of events.
fn batch_at(at: u64, size: u64, len: u64) -> Found
    requires within { at + 5 ≤ size }
    requires some { 0 < len }
    ensures found { (area : List ℕ) → size ≡ length area → IsFront (take 5 (drop at area)) len → IsFound area at result }
    ensures within { LiesIn size at result }
{
    if len > size - at - 5 {
        return Found::Bad;
    }
    Found::Batch(len)
}
