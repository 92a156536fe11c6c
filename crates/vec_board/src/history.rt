//! The acts of an index, with what they tell and the room for those to come.

ghost use Rattle.std.specs.Prelude.{◌≡◌, ◌+◌, ◌≤◌, ◌<◌, ◌∷◌, ◌++◌, [], length, vec_len, vec_capacity};
ghost use Rattle.history_tables.specs.Telling.{HasRoom, Tells};
ghost use Rattle.vec_board.specs.declared.limits.TheConstants.{MOST_ACTS};
ghost use Rattle.history_tables.specs.Rooms.{room_in_all};
ghost use Rattle.vec_board.specs.Keeping.{to_come};

use crate::ending::ends;
use crate::limits::MOST_ACTS;
use history_tables::{Rooms, Tables};
use std::alloc::{AllocError, Global};
use vec_history::{Act, Event};

/// The acts of an index since it was opened, with the tables that tell of them, and the room that each desk has in reserve.
#[derive(Drop)]
pub struct History {
    acts: Vec<Act>,
    tables: Tables,
    rooms: Rooms,
    ghost counted: { vec_len acts ≡ length acts.items },
    ghost acts_room: { vec_len acts + to_come rooms.rooms.items tables ≤ vec_capacity acts },
    ghost few: { vec_len acts + to_come rooms.rooms.items tables ≤ MOST_ACTS },
    ghost holds_room: { HasRoom (room_in_all rooms.rooms.items) tables },
    ghost told: { ∥ Tells tables acts.items ∥₁ },
}

impl History {
    ghost use Rattle.std.specs.Prelude.{ℕ, ◌*◌, ◌≢◌, max, List, OnOk, OnErr, IfErr, IsTrue, ◌↔◌};
    ghost use Rattle.vec_history.specs.declared.event.Act.{Act as Acts};
    ghost use Rattle.vec_history.specs.Acts.{act_of};
    ghost use Rattle.vec_history.specs.Settling.{lasting_events};
    ghost use Rattle.history_tables.specs.Telling.{IsEnd, IsToldEnd, ends_owed};
    ghost use Rattle.history_tables.specs.Rooms.{room_of, spent};
    ghost use Rattle.vec_board.specs.Keeping.{one_if_ends};
    ghost use Rattle.vec_board.specs.Ready.{IsReady, IsSameHistory, HasOwnRoom};
    ghost use Rattle.vec_history.specs.declared.event.Event.{Event as Events};

    /// No act yet, and no room in reserve.
    pub fn new(alloc: Global) -> History
        ensures acts { result.acts.items ≡ [] }
        ensures tells { Tells result.tables [] }
        ensures rooms { result.rooms.rooms.items ≡ [] }
    {
        History {
            acts: Vec::new(alloc),
            tables: Tables::new(alloc),
            rooms: Rooms::new(alloc),
        }
    }

    /// The acts, the first one first.
    pub fn acts(&self) -> &[Act]
        ensures { result.now ≡ self.now.acts.items }
    {
        self.acts.as_slice()
    }

    /// The acts alone, the first one first.
    pub fn into_acts(self) -> Vec<Act>
        ensures { result ≡ self.acts }
    {
        let History {
            acts,
            tables: _,
            rooms: _,
        } = self;
        acts
    }

    /// What the acts tell of gates, of the vacuum and of settling.
    pub fn tables(&self) -> &Tables
        ensures { result.now ≡ self.now.tables }
    {
        &self.tables
    }

    /// How many events of the acts are lasting.
    pub fn lasting(&self) -> u64
        ensures { result ≡ lasting_events self.now.acts.items }
    {
        self.tables.lasting()
    }

    /// For how many acts a desk has room in reserve.
    pub fn room_of(&self, desk: u32) -> u32
        ensures { result ≡ room_of self.now.rooms.rooms.items desk }
    {
        self.rooms.room_of(desk)
    }

    /// For how many acts all desks together have room in reserve.
    pub fn room_in_all(&self) -> u64
        ensures told { result ≡ room_in_all self.now.rooms.rooms.items }
        ensures few { result ≤ MOST_ACTS }
    {
        self.rooms.all()
    }

    /// Whether the event ends a hold of the desk, or the phase that stands, if it is an end at all.
    pub fn may_end(&self, desk: u32, event: &Event) -> bool
        ensures told { IsTrue result → one_if_ends event.now ≡ 1 → IsToldEnd self.now.tables desk event.now }
        ensures ends { Tells self.now.tables self.now.acts.items
            → (one_if_ends event.now ≡ 1 → IsEnd self.now.acts.items desk event.now) → IsTrue result }
    {
        !ends(event) || self.tables.is_end(desk, event)
    }

    /// Whether the act has its room: it ends something, or its desk has room in reserve.
    pub fn has_room(&self, desk: u32, event: &Event) -> bool
        ensures { IsTrue result ↔ HasOwnRoom self.now desk event.now }
    {
        ends(event) || self.rooms.room_of(desk) > 0
    }

    /// Makes room for one act beyond all that is to come, whichever it is.
    pub fn reserve_one(&mut self) -> Result<(), AllocError>
        ensures ready { (desk : ℕ) (e : Events) → OnOk result (IsReady self.new desk e) }
        ensures same { IsSameHistory self.old self.new }
    {
        self.reserve_more(1)?;
        Ok(())
    }

    // Room for so many acts more in reserve, each with the end that it may come to owe.
    fn reserve_more(&mut self, count: u32) -> Result<(), AllocError>
        ensures acts { OnOk result
            (vec_len self.new.acts + to_come self.new.rooms.rooms.items self.new.tables + 2 * count ≤ vec_capacity self.new.acts) }
        ensures few { OnOk result
            (vec_len self.new.acts + to_come self.new.rooms.rooms.items self.new.tables + 2 * count ≤ MOST_ACTS) }
        ensures holds { OnOk result (HasRoom (room_in_all self.new.rooms.rooms.items + count) self.new.tables) }
        ensures same { IsSameHistory self.old self.new }
    {
        let all = self.rooms.all() + u64::from(count);
        let more = 2 * all + self.tables.ends_owed();
        if self.acts.len() as u64 + more > MOST_ACTS {
            return Err(AllocError);
        }
        self.acts.reserve(more as usize)?;
        self.tables.reserve(all as usize)
    }

    /// The desk has room in reserve for so many acts at least. It is refused for want of memory; then no room is lost.
    pub fn reserve(&mut self, desk: u32, count: u32) -> Result<(), AllocError>
        ensures own { OnOk result (room_of self.new.rooms.rooms.items desk ≡ max count (room_of self.old.rooms.rooms.items desk)) }
        ensures others { (other : ℕ) → other ≢ desk
            → room_of self.new.rooms.rooms.items other ≡ room_of self.old.rooms.rooms.items other }
        ensures all { room_in_all self.new.rooms.rooms.items ≤ room_in_all self.old.rooms.rooms.items + count }
        ensures acts { self.new.acts.items ≡ self.old.acts.items }
        ensures tells { (acts : List Acts) → Tells self.old.tables acts → Tells self.new.tables acts }
        ensures err { OnErr result (self.new.rooms.rooms.items ≡ self.old.rooms.rooms.items) }
    {
        if count <= self.rooms.room_of(desk) {
            return Ok(());
        }
        self.reserve_more(count)?;
        self.rooms.set(desk, count)
    }

    /// One act more, which takes one of the desk's room. It takes no memory.
    pub fn add(&mut self, desk: u32, event: Event)
        requires ready { IsReady self.old desk event }
        requires ends { one_if_ends event ≡ 1 → IsToldEnd self.old.tables desk event }
        ensures tells { Tells self.old.tables self.old.acts.items → Tells self.new.tables self.new.acts.items }
        ensures acts { self.new.acts.items ≡ self.old.acts.items ++ act_of desk event ∷ [] }
        ensures rooms { self.new.rooms.rooms.items ≡ spent desk self.old.rooms.rooms.items }
    {
        let act = Act { desk, event };
        self.tables.note(&act);
        self.rooms.spend(desk);
        push(&mut self.acts, act);
    }
}

// One more act, for which there is room.
fn push(acts: &mut Vec<Act>, act: Act)
    requires { vec_len acts.old < vec_capacity acts.old }
    ensures items { acts.new.items ≡ acts.old.items ++ act ∷ [] }
    ensures len { vec_len acts.new ≡ vec_len acts.old + 1 }
    ensures capacity { vec_capacity acts.old ≤ vec_capacity acts.new }
{
    let _ = acts.push(act);
}
