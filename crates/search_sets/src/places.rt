//! Places that were met.

ghost use Rattle.std.specs.Prelude.{◌≡◌, ◌<◌, ◌≤◌, ◌+◌, ◌-◌, not, IfOk, OnOk, length};
ghost use Rattle.std.specs.FinSet as set;
ghost use Rattle.search_sets.specs.Slots.{IsTable, AreEarlier, set_of, with_slot};

use crate::seeking::{is_used, seek};
use crate::slots::Slot;
use std::alloc::{AllocError, Global};
use std::marker::Model;
use vec_names::Tid;

// How many slots a table begins with.
const SLOTS: usize = 4_096;

/// Places, which contracts see as their set: a table that serves many searches, each of which is a round, so that taking all
/// of them out is one addition.
///
/// A place is looked for from its first slot on, up to a slot that this round has not used; where the table ends, it gets a
/// slot more. A round that uses half of the slots makes the table twice as large. It takes memory by the places of one round
/// alone, whatever the index has.
#[derive(Drop)]
pub struct Places {
    slots: Vec<Slot>,
    // The greatest number of a first slot.
    mask: usize,
    round: u32,
    // How many slots this round uses.
    used: usize,
}

impl Model for Places {
    ghost use Rattle.std.specs.FinSet as set;
    ghost use Rattle.vec_names.specs.Order.{tid_cmp};
    ghost use Rattle.vec_names.specs.Places.{tid_code};

    ghost Value = { set.FinSet tid_cmp };

    ghost coded = { set.code tid_code };

    ghost use Rattle.search_sets.specs.Slots.{set_of, IsTable};

    ghost view = { λ p. set_of p.round p.slots.items };

    ghost invariant = { λ p. IsTable p.mask p.round p.slots.items };
}

impl Places {
    /// No places, and room for some thousand. The one error is that there is no memory.
    pub fn new(alloc: Global) -> Result<Places, AllocError>
        ensures { IfOk result (λ places. places ≡ set.empty) }
    {
        let slots = blank_slots(alloc, SLOTS)?;
        Ok(Places {
            slots,
            mask: SLOTS - 1,
            round: 1,
            used: 0,
        })
    }

    /// Takes all of them out, without going through them. It needs no memory.
    pub fn clear(&mut self)
        ensures { self.new ≡ set.empty }
    {
        self.round = next_round(&mut self.slots, self.round);
        self.used = 0;
    }

    pub fn contains(&self, at: Tid) -> bool
        ensures { result ≡ set.contains self.now at }
    {
        has_place(&self.slots, self.mask, self.round, at)
    }

    /// Adds a place, and says whether it is new. The one error is that there is no memory.
    #[inline(always)]
    pub fn insert(&mut self, at: Tid) -> Result<bool, AllocError>
        ensures new { IfOk result (λ is_new. is_new ≡ not (set.contains self.old at)) }
        ensures set { OnOk result (self.new ≡ set.insert self.old at) }
    {
        if self.used > self.mask / 2 {
            self.widen()?;
        }
        let is_new = put_place(&mut self.slots, self.mask, self.round, at)?;
        self.used = self.used.saturating_add(usize::from(is_new));
        Ok(is_new)
    }

    // Twice as many slots. The places stay.
    fn widen(&mut self) -> Result<(), AllocError>
        ensures { OnOk result (self.new ≡ self.old) }
    {
        let alloc = *self.slots.allocator();
        let count = (self.mask + 1) * 2;
        self.slots = refilled(alloc, &self.slots, self.round, count)?;
        self.mask = count - 1;
        self.round = 1;
        Ok(())
    }
}

fn blank_slots(alloc: Global, count: usize) -> Result<Vec<Slot>, AllocError>
    ensures len { IfOk result (λ slots. length slots.items ≡ count) }
    ensures blank { IfOk result (λ slots. AreEarlier 1 slots.items) }
{
    let mut slots = Vec::with_capacity(alloc, count)?;
    for _ in 0..count {
        slots.push(Slot {
            at: Tid { block: 0, off: 1 },
            round: 0,
        })?;
    }
    Ok(slots)
}

// A table of so many slots with the places of a round.
fn refilled(
    alloc: Global,
    slots: &[Slot],
    round: u32,
    count: usize,
) -> Result<Vec<Slot>, AllocError>
    requires { 1 ≤ count }
    ensures table { IfOk result (λ wide. IsTable (count - 1) 1 wide.items) }
    ensures same { IfOk result (λ wide. set_of 1 wide.items ≡ set_of round slots.now) }
{
    let mut wide = blank_slots(alloc, count)?;
    for slot in slots {
        put_again(&mut wide, count - 1, *slot, round)?;
    }
    Ok(wide)
}

// Puts the place of a slot, if it is of the round.
fn put_again(wide: &mut Vec<Slot>, mask: usize, slot: Slot, round: u32) -> Result<(), AllocError>
    requires { IsTable mask 1 wide.old.items }
    ensures table { OnOk result (IsTable mask 1 wide.new.items) }
    ensures set { OnOk result (set_of 1 wide.new.items ≡ with_slot round slot (set_of 1 wide.old.items)) }
{
    if slot.round != round {
        return Ok(());
    }
    put_place(wide, mask, 1, slot.at)?;
    Ok(())
}

// The number of a round that comes after all that the slots name.
fn next_round(slots: &mut Vec<Slot>, round: u32) -> u32
    requires { AreEarlier (round + 1) slots.old.items }
    ensures len { length slots.new.items ≡ length slots.old.items }
    ensures later { AreEarlier result slots.new.items }
{
    if round < u32::MAX {
        return round + 1;
    }
    for slot in slots.iter_mut() {
        slot.round = 0;
    }
    1
}

fn has_place(slots: &[Slot], mask: usize, round: u32, at: Tid) -> bool
    requires { IsTable mask round slots.now }
    ensures { result ≡ set.contains (set_of round slots.now) at }
{
    let k = seek(slots, mask, round, at);
    is_used(slots, round, k)
}

#[inline(always)]
fn put_place(slots: &mut Vec<Slot>, mask: usize, round: u32, at: Tid) -> Result<bool, AllocError>
    requires { IsTable mask round slots.old.items }
    ensures table { IsTable mask round slots.new.items }
    ensures new { IfOk result (λ is_new. is_new ≡ not (set.contains (set_of round slots.old.items) at)) }
    ensures set { OnOk result (set_of round slots.new.items ≡ set.insert (set_of round slots.old.items) at) }
{
    let items = slots.as_slice();
    let count = items.len();
    let k = seek(items, mask, round, at);
    if is_used(items, round, k) {
        return Ok(false);
    }
    if k < count {
        slots[k] = Slot { at, round };
        return Ok(true);
    }
    slots.push(Slot { at, round })?;
    Ok(true)
}
