//! The room that each desk has in reserve.

ghost use Rattle.std.specs.Prelude.{◌≡◌, ◌≢◌, ◌+◌, ◌-◌, ◌<◌, ◌≤◌, ◌^◌, ℕ, [], max, min, OnOk, OnErr, IfSome, IfNone, List, vec_len};
ghost use Rattle.history_tables.specs.declared.rooms.Room.{Room as Entries};
ghost use Rattle.history_tables.specs.Rooms.{room_of, room_in_all, with_room, spent, IsFirstOf, IsNoneOf};

use std::alloc::{AllocError, Global};

/// The room of a desk, as a number of acts.
#[derive(Clone, Copy, Debug, PartialEq, Eq)]
pub struct Room {
    pub desk: u32,
    pub acts: u32,
}

/// The room of each desk, as a number of acts, and of all of them together.
#[derive(Drop)]
pub struct Rooms {
    pub(crate) rooms: Vec<Room>,
    pub(crate) all: u64,
    ghost all_is: { all ≡ room_in_all rooms.items },
}

impl Rooms {
    /// No desk has any.
    pub fn new(alloc: Global) -> Rooms
        ensures { result.rooms.items ≡ [] }
    {
        Rooms {
            rooms: Vec::new(alloc),
            all: 0,
        }
    }

    // Where the desk stands in the list, and its room.
    fn find(&self, desk: u32) -> Option<(usize, u32)>
        ensures some { IfSome result (λ found. IsFirstOf self.now.rooms.items desk found.0 found.1) }
        ensures within { IfSome result (λ found. found.0 < vec_len self.now.rooms) }
        ensures none { IfNone result (IsNoneOf self.now.rooms.items desk) }
    {
        for k in 0..self.rooms.len() {
            let room = self.rooms[k];
            if room.desk == desk {
                return Some((k, room.acts));
            }
        }
        None
    }

    /// How many acts a desk has room for.
    pub fn room_of(&self, desk: u32) -> u32
        ensures { result ≡ room_of self.now.rooms.items desk }
    {
        match self.find(desk) {
            Some((_, acts)) => acts,
            None => 0,
        }
    }

    /// How many acts all desks together have room for.
    pub fn all(&self) -> u64
        ensures { result ≡ room_in_all self.now.rooms.items }
    {
        self.all
    }

    /// Makes the desk's room this.
    pub fn set(&mut self, desk: u32, acts: u32) -> Result<(), AllocError>
        requires few { room_in_all self.old.rooms.items + acts < 2 ^ 64 }
        ensures ok { OnOk result (self.new.rooms.items ≡ with_room desk acts self.old.rooms.items) }
        ensures err { OnErr result (self.new.rooms.items ≡ self.old.rooms.items) }
    {
        match self.find(desk) {
            Some((k, before)) => {
                self.all = self.all - u64::from(before) + u64::from(acts);
                self.rooms[k] = Room { desk, acts };
            }
            None => {
                self.rooms.push(Room { desk, acts })?;
                self.all += u64::from(acts);
            }
        }
        Ok(())
    }

    /// The desk has room for one act less, if it has any. It takes no memory.
    pub fn spend(&mut self, desk: u32)
        ensures { self.new.rooms.items ≡ spent desk self.old.rooms.items }
    {
        let Some((k, acts)) = self.find(desk) else {
            return;
        };
        self.all -= u64::from(acts.min(1));
        self.rooms[k] = Room {
            desk,
            acts: acts.saturating_sub(1),
        };
    }
}

/// What a change of one desk's room makes of that of the others, and of all.
pub fn law_rooms()
    ensures set { (rooms : List Entries) (desk acts : ℕ) → room_of (with_room desk acts rooms) desk ≡ acts }
    ensures others { (rooms : List Entries) (desk acts other : ℕ) → other ≢ desk
        → room_of (with_room desk acts rooms) other ≡ room_of rooms other }
    ensures all { (rooms : List Entries) (desk acts : ℕ)
        → room_in_all (with_room desk acts rooms) + room_of rooms desk ≡ room_in_all rooms + acts }
    ensures spent { (rooms : List Entries) (desk : ℕ) → room_of (spent desk rooms) desk ≡ room_of rooms desk - 1 }
    ensures spent_others { (rooms : List Entries) (desk other : ℕ) → other ≢ desk
        → room_of (spent desk rooms) other ≡ room_of rooms other }
    ensures spent_all { (rooms : List Entries) (desk : ℕ)
        → room_in_all (spent desk rooms) ≡ room_in_all rooms - min 1 (room_of rooms desk) }
{}
