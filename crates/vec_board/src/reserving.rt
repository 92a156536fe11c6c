//! Room that a desk has in reserve.

ghost use Rattle.std.specs.Prelude.{◌≡◌, ◌≢◌, ◌+◌, ◌≤◌, ℕ, List, [], max, OnOk, OnErr, IfErr, length};
ghost use Rattle.history_tables.specs.Rooms.{room_in_all};
ghost use Rattle.page_bytes.specs.Content.{Content};
ghost use Rattle.vec_steps.specs.declared.fault.StepFault.TheVariants.{Memory};
ghost use Rattle.vec_steps.specs.Index.{Index};
ghost use Rattle.vec_steps.specs.Desks.{Asks, WantsMemory};
ghost use Rattle.vec_steps.specs.Calls.{Stepped};
ghost use Rattle.vec_board.specs.Standing.{StandsOn, acts_of};
ghost use Rattle.vec_board.specs.Acting.{IsAsBefore};
ghost use Rattle.vec_board.specs.Looking.{desk_of};
ghost use Rattle.vec_board.specs.Serving.{IsOfRoom, IsReserved, MakesFor, StandsSomehow, spare_of};

use crate::board_core::Core;
use vec_steps::{Ask, StepFault, Told, Word};

impl Core {
    /// For how many acts a desk has room in reserve.
    pub fn spare(&self, desk: u32) -> u32
        ensures { result ≡ spare_of self.now desk }
    {
        self.history.room_of(desk)
    }

    // Room in the log for so many events beyond all that are in reserve.
    fn reserve_log(&mut self, count: u32) -> Result<(), StepFault>
        ensures spare { OnOk result (room_in_all self.new.history.rooms.rooms.items + count ≤ self.new.log.spare) }
        ensures same { self.new.history ≡ self.old.history }
        ensures kept { IsAsBefore self.old self.new }
        ensures memory { IfErr result (λ fault. fault ≡ Memory) }
    {
        let events = self.history.room_in_all() + u64::from(count);
        if events > u64::from(u32::MAX) {
            return Err(StepFault::Memory);
        }
        match self.log.reserve(events as u32) {
            Ok(()) => Ok(()),
            Err(_) => Err(StepFault::Memory),
        }
    }

    /// The desk has room in reserve for so many acts at least, in the history and in the log. It is refused for want of memory
    /// alone; then it has the room that it had.
    pub fn reserve(&mut self, desk: u32, count: u32) -> Result<(), StepFault>
        ensures ok { OnOk result (IsReserved self.old self.new desk count) }
        ensures kept { OnErr result (IsAsBefore self.old self.new) }
        ensures memory { IfErr result (λ fault. fault ≡ Memory) }
    {
        self.reserve_log(count)?;
        self.history.reserve(desk, count)?;
        Ok(())
    }

    /// Answers an ask for room in reserve, or for nothing: the word is Done, and no act is made. Of any other ask it answers the
    /// same, and does nothing.
    pub fn make_ready(&mut self, desk: u32, ask: &Ask, told: &mut Told) -> Result<(), StepFault>
        ensures ok { IsOfRoom ask.now → OnOk result (Stepped (Asks (StandsSomehow self.old) (desk_of self.old desk)
            (acts_of self.old) ask.now) (desk_of self.old desk) (acts_of self.old) (acts_of self.new) ask.now ask.now told.new) }
        ensures made { OnOk result (MakesFor self.old self.new desk ask.now []) }
        ensures leaves { (all : List Content) (base : Index) → StandsOn self.old all base → OnOk result (StandsOn self.new all base) }
        ensures kept { OnErr result (IsAsBefore self.old self.new) }
        ensures memory { IfErr result (λ fault. fault ≡ Memory × WantsMemory (spare_of self.old desk) ask.now) }
        ensures bits { told.new.bits ≡ told.old.bits }
    {
        told.at = self.history.acts().len() as u64;
        told.word = Word::Done;
        match ask {
            Ask::Reserve { events } => self.reserve(desk, *events),
            _ => Ok(()),
        }
    }
}
