//! Who holds which gate.

ghost use Rattle.std.specs.Prelude.{◌≡◌, ◌++◌, ◌∷◌, [], ◌+◌, ◌<◌, ◌≤◌, ℕ, ◌↔◌, IsTrue, List, OnOk, OnErr, filter, length, vec_len, vec_capacity};
ghost use Rattle.history_tables.specs.declared.holders.Holder.{Holder as Entries};
ghost use Rattle.vec_history.specs.declared.gate.Hold.{Hold as Ways};
ghost use Rattle.history_tables.specs.Telling.{IsAmong, Agrees, AllAgree, IsHeldAs, IsTaking, held_after, is_other};

use std::alloc::{AllocError, Global};
use vec_history::{Act, Event, Gate, Hold};

/// A desk's hold of a gate.
#[derive(Clone, Copy, Debug, PartialEq, Eq)]
pub struct Holder {
    pub desk: u32,
    pub gate: Gate,
    pub hold: Hold,
}

/// The holds that stand.
#[derive(Drop)]
pub struct Holders {
    pub(crate) held: Vec<Holder>,
}

// Whether a hold of the gate by the desk may stand beside this entry: one of the same gate by another desk, only if both are Shared.
fn agrees(entry: Holder, desk: u32, gate: Gate, hold: Hold) -> bool
    ensures { IsTrue result ↔ Agrees desk gate hold entry }
{
    entry.desk == desk || entry.gate != gate || (hold == Hold::Shared && entry.hold == Hold::Shared)
}

fn is_other(entry: Holder, desk: u32, gate: Gate) -> bool
    ensures { result ≡ is_other desk gate entry }
{
    entry.desk != desk || entry.gate != gate
}

impl Holders {
    /// Nobody holds a gate.
    pub fn new(alloc: Global) -> Holders
        ensures none { result.held.items ≡ [] }
        ensures room { vec_len result.held ≤ vec_capacity result.held }
    {
        Holders {
            held: Vec::new(alloc),
        }
    }

    /// Makes room for so many holds more.
    pub fn reserve(&mut self, holds: usize) -> Result<(), AllocError>
        ensures same { self.new.held.items ≡ self.old.held.items }
        ensures room { OnOk result (vec_len self.new.held + holds ≤ vec_capacity self.new.held) }
        ensures kept { vec_capacity self.old.held ≤ vec_capacity self.new.held }
    {
        self.held.reserve(holds)
    }

    /// How many holds there are.
    pub fn count(&self) -> usize
        ensures { result ≡ length self.now.held.items }
    {
        self.held.as_slice().len()
    }

    /// Whether the hold may stand beside those of the other desks.
    pub fn agree(&self, desk: u32, gate: Gate, hold: Hold) -> bool
        ensures { IsTrue result ↔ AllAgree desk gate hold self.now.held.items }
    {
        for entry in &self.held {
            if !agrees(*entry, desk, gate, hold) {
                return false;
            }
        }
        true
    }

    /// How the desk holds the gate.
    pub fn hold_of(&self, desk: u32, gate: Gate) -> Option<Hold>
        ensures { IsHeldAs desk gate self.now.held.items result }
    {
        for entry in &self.held {
            if !is_other(*entry, desk, gate) {
                return Some(entry.hold);
            }
        }
        None
    }

    /// Whether the desk holds the gate.
    pub fn is_held(&self, desk: u32, gate: Gate) -> bool
        ensures { IsTrue result
            ↔ ((hold : Ways) × IsAmong (record { desk = desk; gate = gate; hold = hold }) self.now.held.items) }
    {
        match self.hold_of(desk, gate) {
            Some(_) => true,
            None => false,
        }
    }

    /// The desk holds the gate in this way, and in no other.
    pub fn take(&mut self, desk: u32, gate: Gate, hold: Hold)
        requires { vec_len self.old.held < vec_capacity self.old.held }
        ensures holds { self.new.held.items ≡ filter (is_other desk gate) self.old.held.items ++ record { desk = desk; gate = gate; hold = hold } ∷ [] }
        ensures longer { vec_len self.new.held ≤ vec_len self.old.held + 1 }
        ensures room { vec_capacity self.old.held ≤ vec_capacity self.new.held }
    {
        self.give(desk, gate);
        let _ = self.held.push(Holder { desk, gate, hold });
    }

    /// The desk does not hold the gate.
    pub fn give(&mut self, desk: u32, gate: Gate)
        ensures holds { self.new.held.items ≡ filter (is_other desk gate) self.old.held.items }
        ensures room { vec_capacity self.old.held ≤ vec_capacity self.new.held }
        ensures fewer { vec_len self.new.held ≤ vec_len self.old.held }
    {
        self.held.retain(|entry| is_other(*entry, desk, gate));
    }

    /// The holds after one act more. It takes no memory.
    pub fn note(&mut self, act: &Act)
        requires { IsTaking act.now.event → vec_len self.old.held < vec_capacity self.old.held }
        ensures holds { self.new.held.items ≡ held_after self.old.held.items act.now }
        ensures longer { vec_len self.new.held ≤ vec_len self.old.held + 1 }
        ensures shorter { (IsTaking act.now.event → ⊥) → vec_len self.new.held ≤ vec_len self.old.held }
        ensures room { vec_capacity self.old.held ≤ vec_capacity self.new.held }
    {
        match &act.event {
            Event::Gate { gate, hold } => self.take(act.desk, *gate, *hold),
            Event::Ungate { gate } => self.give(act.desk, *gate),
            _ => {}
        }
    }
}
