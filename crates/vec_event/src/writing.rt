//! Writing an event.
#![tactic(auto, unfolding(crate::specs::Spelling::spelling))]

ghost use Rattle.std.specs.Prelude.{◌≡◌, ◌≤◌, ◌<◌, ◌^◌, ◌+◌, ◌++◌, length, OnOk, OnErr, IfErr, IsOk, vec_len, vec_capacity, Some, Option};
ghost use Rattle.vec_event.specs.Spelling.{spelling, bits_bytes, lists_bytes, offsets_bytes, RisesFrom, IsWritable};

use crate::fault::EventFault;
use crate::pieces::{put_bits, put_lists, put_offsets};
use crate::sizes::event_size;
use bit_code::Bits;
use byte_fields::put;
use vec_history::Event;
use vec_names::{HeapId, Tid};

/// Appends the spelling of a lasting event with no value that is not allowed, as `read_event` reads it.
/// The only fault is `Memory`, and then the bytes are as before; it does not come where there is room for
/// `event_size` more bytes.
#[tactic(auto, unfolding(crate::specs::Spelling::IsWritable))]
pub fn write_event(event: &Event, into: &mut Vec<u8>) -> Result<(), EventFault>
    requires { IsWritable event.now }
    ensures ok { OnOk result (into.new.items ≡ into.old.items ++ spelling event.now) }
    ensures err { OnErr result (into.new.items ≡ into.old.items) }
    ensures memory { IfErr result (λ fault. fault ≡ EventFault.Memory) }
    ensures room { vec_len into.old + length (spelling event.now) ≤ vec_capacity into.old → IsOk result }
    ensures capacity { vec_capacity into.old ≤ vec_capacity into.new }
{
    into.reserve(event_size(event) as usize)?;
    put_event(event, into);
    Ok(())
}

#[tactic(auto, using(crate::proofs::Lengths::lengths), unfolding(crate::specs::Spelling::spelling, crate::specs::Spelling::IsWritable))]
fn put_event(event: &Event, into: &mut Vec<u8>)
    requires writable { IsWritable event.now }
    requires room { vec_len into.old + length (spelling event.now) ≤ vec_capacity into.old }
    ensures items { into.new.items ≡ into.old.items ++ spelling event.now }
    ensures capacity { vec_capacity into.old ≤ vec_capacity into.new }
{
    // One arm for each kind of event.
    match event {
        Event::Put {
            at,
            list_at,
            version,
            level,
            id,
            bits,
            lists,
        } => {
            let head = NodeHead {
                at: *at,
                list_at: *list_at,
                version: *version,
                level: *level,
                id: *id,
            };
            put_node(into, head, bits, lists.as_slice())
        }
        Event::Join { at, version, id } => put_join(into, *at, *version, *id),
        Event::Link {
            at,
            list_at,
            version,
            slot,
            to,
        } => put_link(into, *at, *list_at, *version, *slot, *to),
        Event::Relist {
            at,
            list_at,
            version,
            lists,
        } => put_relist(into, *at, *list_at, *version, lists.as_slice()),
        Event::Drop { at, version, gone } => put_drop(into, *at, *version, *gone),
        Event::Mark {
            at,
            list_at,
            version,
        } => put_mark(into, *at, *list_at, *version),
        Event::Entry { to, level } => put_entry(into, *to, *level),
        Event::Hint { block } => put_hint(into, *block),
        Event::IvfAdd { block, id, bits } => put_ivf_add(into, *block, *id, bits),
        Event::IvfGrow {
            list,
            last,
            block,
            id,
            bits,
        } => put_ivf_grow(into, *list, *last, *block, *id, bits),
        Event::IvfDrop { block, gone } => put_ivf_drop(into, *block, gone.as_slice()),
        Event::IvfHint { list, block } => put_ivf_hint(into, *list, *block),
        _ => unreachable!(),
    }
}

/// The fields of a Put before its value and its slots.
#[derive(Clone, Copy)]
struct NodeHead {
    at: Tid,
    list_at: Tid,
    version: u8,
    level: u8,
    id: HeapId,
}

fn put_node(into: &mut Vec<u8>, head: NodeHead, bits: &Bits, lists: &[Option<Tid>])
    requires few { length lists.now < 2 ^ 16 }
    requires room { vec_len into.old + (21 + length (bits_bytes bits.now) + length (lists_bytes lists.now)) ≤ vec_capacity into.old }
    ensures items { into.new.items ≡ into.old.items
        ++ spelling (Event.Put head.at head.list_at head.version head.level head.id bits.now lists.now) }
    ensures capacity { vec_capacity into.old ≤ vec_capacity into.new }
{
    put(into, &[1]);
    put(into, &head.at.spelled());
    put(into, &head.list_at.spelled());
    put(into, &[head.version, head.level]);
    put(into, &head.id.spelled());
    put_bits(into, bits);
    put_lists(into, lists);
}

fn put_join(into: &mut Vec<u8>, at: Tid, version: u8, id: HeapId)
    requires { vec_len into.old + 14 ≤ vec_capacity into.old }
    ensures items { into.new.items ≡ into.old.items ++ spelling (Event.Join at version id) }
    ensures capacity { vec_capacity into.old ≤ vec_capacity into.new }
{
    put(into, &[2]);
    put(into, &at.spelled());
    put(into, &[version]);
    put(into, &id.spelled());
}

fn put_link(into: &mut Vec<u8>, at: Tid, list_at: Tid, version: u8, slot: u16, to: Tid)
    requires { vec_len into.old + 22 ≤ vec_capacity into.old }
    ensures items { into.new.items ≡ into.old.items ++ spelling (Event.Link at list_at version slot to) }
    ensures capacity { vec_capacity into.old ≤ vec_capacity into.new }
{
    put(into, &[3]);
    put(into, &at.spelled());
    put(into, &list_at.spelled());
    put(into, &[version]);
    put(into, &slot.to_le_bytes());
    put(into, &to.spelled());
}

fn put_relist(into: &mut Vec<u8>, at: Tid, list_at: Tid, version: u8, lists: &[Option<Tid>])
    requires few { length lists.now < 2 ^ 16 }
    requires room { vec_len into.old + (14 + length (lists_bytes lists.now)) ≤ vec_capacity into.old }
    ensures items { into.new.items ≡ into.old.items ++ spelling (Event.Relist at list_at version lists.now) }
    ensures capacity { vec_capacity into.old ≤ vec_capacity into.new }
{
    put(into, &[4]);
    put(into, &at.spelled());
    put(into, &list_at.spelled());
    put(into, &[version]);
    put_lists(into, lists);
}

fn put_drop(into: &mut Vec<u8>, at: Tid, version: u8, gone: u16)
    requires { vec_len into.old + 10 ≤ vec_capacity into.old }
    ensures items { into.new.items ≡ into.old.items ++ spelling (Event.Drop at version gone) }
    ensures capacity { vec_capacity into.old ≤ vec_capacity into.new }
{
    put(into, &[5]);
    put(into, &at.spelled());
    put(into, &[version]);
    put(into, &gone.to_le_bytes());
}

fn put_mark(into: &mut Vec<u8>, at: Tid, list_at: Tid, version: u8)
    requires { vec_len into.old + 14 ≤ vec_capacity into.old }
    ensures items { into.new.items ≡ into.old.items ++ spelling (Event.Mark at list_at version) }
    ensures capacity { vec_capacity into.old ≤ vec_capacity into.new }
{
    put(into, &[6]);
    put(into, &at.spelled());
    put(into, &list_at.spelled());
    put(into, &[version]);
}

fn put_entry(into: &mut Vec<u8>, to: Option<Tid>, level: u8)
    requires { vec_len into.old + 8 ≤ vec_capacity into.old }
    ensures items { into.new.items ≡ into.old.items ++ spelling (Event.Entry to level) }
    ensures capacity { vec_capacity into.old ≤ vec_capacity into.new }
{
    put(into, &[7]);
    put(into, &Tid::spelled_option(to));
    put(into, &[level]);
}

fn put_hint(into: &mut Vec<u8>, block: u32)
    requires { vec_len into.old + 5 ≤ vec_capacity into.old }
    ensures items { into.new.items ≡ into.old.items ++ spelling (Event.Hint block) }
    ensures capacity { vec_capacity into.old ≤ vec_capacity into.new }
{
    put(into, &[8]);
    put(into, &block.to_le_bytes());
}

fn put_ivf_add(into: &mut Vec<u8>, block: u32, id: HeapId, bits: &Bits)
    requires { vec_len into.old + (11 + length (bits_bytes bits.now)) ≤ vec_capacity into.old }
    ensures items { into.new.items ≡ into.old.items ++ spelling (Event.IvfAdd block id bits.now) }
    ensures capacity { vec_capacity into.old ≤ vec_capacity into.new }
{
    put(into, &[9]);
    put(into, &block.to_le_bytes());
    put(into, &id.spelled());
    put_bits(into, bits);
}

fn put_ivf_grow(into: &mut Vec<u8>, list: u32, last: u32, block: u32, id: HeapId, bits: &Bits)
    requires { vec_len into.old + (19 + length (bits_bytes bits.now)) ≤ vec_capacity into.old }
    ensures items { into.new.items ≡ into.old.items ++ spelling (Event.IvfGrow list last block id bits.now) }
    ensures capacity { vec_capacity into.old ≤ vec_capacity into.new }
{
    put(into, &[10]);
    put(into, &list.to_le_bytes());
    put(into, &last.to_le_bytes());
    put(into, &block.to_le_bytes());
    put(into, &id.spelled());
    put_bits(into, bits);
}

fn put_ivf_drop(into: &mut Vec<u8>, block: u32, gone: &[u16])
    requires rises { RisesFrom 0 gone.now }
    requires room { vec_len into.old + (5 + length (offsets_bytes gone.now)) ≤ vec_capacity into.old }
    ensures items { into.new.items ≡ into.old.items ++ spelling (Event.IvfDrop block gone.now) }
    ensures capacity { vec_capacity into.old ≤ vec_capacity into.new }
{
    put(into, &[11]);
    put(into, &block.to_le_bytes());
    put_offsets(into, gone);
}

fn put_ivf_hint(into: &mut Vec<u8>, list: u32, block: u32)
    requires { vec_len into.old + 9 ≤ vec_capacity into.old }
    ensures items { into.new.items ≡ into.old.items ++ spelling (Event.IvfHint list block) }
    ensures capacity { vec_capacity into.old ≤ vec_capacity into.new }
{
    put(into, &[12]);
    put(into, &list.to_le_bytes());
    put(into, &block.to_le_bytes());
}
