//! The bytes of a batch behind its seal: four of the length of its events, the events, and a closed seal.

ghost use Rattle.std.specs.Prelude.{◌≡◌, ◌+◌, ◌-◌, ◌<◌, ◌≤◌, ◌^◌, ◌++◌, [], length, take, drop, min, max, All, OnOk, OnErr, IsOk, vec_len, vec_capacity};
ghost use Rattle.vec_event.specs.Spelling.{spelling, IsTyped, IsWritable, RisesFrom};
ghost use Rattle.page_log.specs.Going.{body_of, payload};
ghost use Rattle.page_log.specs.declared.limits.TheConstants.{LONGEST};

use crate::limits::{CLOSED, LONGEST};
use byte_fields::put;
use std::alloc::AllocError;
use vec_event::{Event, write_event};

/// What the types of an event's fields keep of it, and how long it is at most.
#[tactic(auto, using(vec_event::proofs::Lengths::lengths), unfolding(vec_event::specs::Spelling::spelling, vec_event::specs::Spelling::IsWritable, vec_event::specs::Spelling::IsTyped))]
pub fn keep(event: &Event)
    requires { IsWritable event.now }
    ensures typed { IsTyped event.now }
    ensures short { length (spelling event.now) ≤ LONGEST }
{
    match event {
        Event::Put {
            version,
            level,
            bits,
            ..
        } => {
            let _values = (*version, *level, bits.count());
        }
        Event::Join { version, .. } => {
            let _value = *version;
        }
        Event::Link { version, slot, .. } => {
            let _values = (*version, *slot);
        }
        Event::Relist { version, .. } => {
            let _value = *version;
        }
        Event::Drop { version, .. } => {
            let _value = *version;
        }
        Event::Mark { version, .. } => {
            let _value = *version;
        }
        Event::Entry { level, .. } => {
            let _value = *level;
        }
        Event::IvfAdd { bits, .. } => {
            let _value = bits.count();
        }
        Event::IvfGrow { bits, .. } => {
            let _value = bits.count();
        }
        Event::IvfDrop { gone, .. } => keep_offsets(gone.as_slice()),
        _ => (),
    }
}

/// What the type of offsets that rise keeps of them, and how many they are at most.
fn keep_offsets(gone: &[u16])
    requires { RisesFrom 0 gone.now }
    ensures typed { All (λ off. off < 2 ^ 16) gone.now }
    ensures few { length gone.now ≤ 65535 }
{
    keep_values(gone);
    count_offsets(gone);
}

fn keep_values(gone: &[u16])
    ensures { All (λ off. off < 2 ^ 16) gone.now }
{}

fn count_offsets(gone: &[u16])
    requires rising { RisesFrom 0 gone.now }
    requires typed { All (λ off. off < 2 ^ 16) gone.now }
    ensures { length gone.now ≤ 65535 }
{}

/// Four bytes for a length, where there are no bytes yet.
fn begin(fresh: &mut Vec<u8>)
    requires room { vec_len fresh.old + 4 ≤ vec_capacity fresh.old }
    requires headed { 1 ≤ vec_len fresh.old → 5 ≤ vec_len fresh.old }
    ensures same { drop 4 fresh.new.items ≡ drop 4 fresh.old.items }
    ensures len { vec_len fresh.new ≡ max 4 (vec_len fresh.old) }
    ensures capacity { vec_capacity fresh.old ≤ vec_capacity fresh.new }
{
    if fresh.is_empty() {
        put(fresh, &[0; 4]);
    }
}

/// Puts an event behind the others, the first of which stands behind four bytes. It takes no memory where there is room for it
/// and for these four.
pub fn put_event(fresh: &mut Vec<u8>, event: &Event, size: u64) -> Result<(), AllocError>
    requires writable { IsWritable event.now }
    requires size { size ≡ length (spelling event.now) }
    requires short { size ≤ LONGEST }
    requires headed { 1 ≤ vec_len fresh.old → 5 ≤ vec_len fresh.old }
    ensures ok { OnOk result (drop 4 fresh.new.items ≡ drop 4 fresh.old.items ++ spelling event.now) }
    ensures len { OnOk result (vec_len fresh.new ≡ max 4 (vec_len fresh.old) + size) }
    ensures err { OnErr result (fresh.new.items ≡ fresh.old.items) }
    ensures free { vec_len fresh.old + (size + 4) ≤ vec_capacity fresh.old → IsOk result }
    ensures capacity { vec_capacity fresh.old ≤ vec_capacity fresh.new }
{
    fresh.reserve(size as usize + 4)?;
    begin(fresh);
    match write_event(event, fresh) {
        Ok(()) => Ok(()),
        Err(_) => unreachable!(),
    }
}

/// The length of the events behind the first four bytes goes there, and a closed seal behind them.
#[tactic(auto, using(crate::proofs::BatchBytes::whole_body))]
pub fn close(bytes: &mut Vec<u8>) -> Result<(), AllocError>
    requires some { 5 ≤ length bytes.old.items }
    requires few { length bytes.old.items < 2 ^ 32 }
    ensures ok { OnOk result (bytes.new.items ≡ body_of (drop 4 bytes.old.items)) }
    ensures len { OnOk result (length bytes.new.items ≡ length bytes.old.items + 1) }
    ensures whole { OnOk result (bytes.new.items ≡ body_of (payload bytes.new.items)) }
    ensures err { OnErr result (bytes.new.items ≡ bytes.old.items) }
    ensures free { vec_len bytes.old + 1 ≤ vec_capacity bytes.old → IsOk result }
    ensures capacity { vec_capacity bytes.old ≤ vec_capacity bytes.new }
{
    let len = bytes.len() as u32 - 4;
    bytes.push(CLOSED)?;
    write_over(bytes.as_mut_slice(), &len.to_le_bytes());
    Ok(())
}

/// Writes bytes over the first ones.
fn write_over(bytes: &mut [u8], part: &[u8])
    requires { length part.now ≤ length bytes.old }
    ensures { bytes.new ≡ part.now ++ drop (length part.now) bytes.old }
{
    bytes[..part.len()].copy_from_slice(part);
}

/// A batch with more events, which stand behind four bytes.
pub fn join(bytes: &mut Vec<u8>, fresh: &[u8]) -> Result<(), AllocError>
    requires whole { bytes.old.items ≡ body_of (payload bytes.old.items) }
    requires headed { 1 ≤ length fresh.now → 5 ≤ length fresh.now }
    requires few { length bytes.old.items + length fresh.now < 2 ^ 32 }
    ensures ok { OnOk result (bytes.new.items ≡ body_of (payload bytes.old.items ++ drop 4 fresh.now)) }
    ensures len { OnOk result (length bytes.new.items ≤ length bytes.old.items + length fresh.now + min 1 (length fresh.now)) }
    ensures whole { bytes.new.items ≡ body_of (payload bytes.new.items) }
    ensures err { OnErr result (bytes.new.items ≡ bytes.old.items) }
{
    if fresh.is_empty() {
        return Ok(());
    }
    bytes.reserve(fresh.len() + 1)?;
    extend(bytes, fresh);
    match close(bytes) {
        Ok(()) => Ok(()),
        Err(_) => unreachable!(),
    }
}

/// The events of a batch and more of them behind four bytes, with no closed seal.
fn extend(bytes: &mut Vec<u8>, fresh: &[u8])
    requires whole { bytes.old.items ≡ body_of (payload bytes.old.items) }
    requires headed { 5 ≤ length fresh.now }
    requires room { vec_len bytes.old + (length fresh.now + 1) ≤ vec_capacity bytes.old }
    ensures events { drop 4 bytes.new.items ≡ payload bytes.old.items ++ drop 4 fresh.now }
    ensures some { 5 ≤ vec_len bytes.new }
    ensures few { vec_len bytes.new ≤ vec_len bytes.old + length fresh.now }
    ensures room { vec_len bytes.new + 1 ≤ vec_capacity bytes.new }
{
    if bytes.pop().is_none() {
        put(bytes, fresh);
        return;
    }
    put(bytes, &fresh[4..]);
}
