//! The one way by which an act is made.

ghost use Rattle.std.specs.Prelude.{◌≡◌, ◌⊎◌, ◌+◌, ◌≤◌, ◌<◌, ◌%◌, ◌^◌, ℕ, List, true, if◌then◌else◌, OnOk, OnErr, IfErr, length};
ghost use Rattle.vec_history.specs.Settling.{is_lasting};
ghost use Rattle.vec_event.specs.Spelling.{spelling, IsWritable};
ghost use Rattle.history_tables.specs.Telling.{IsToldEnd};
ghost use Rattle.history_tables.specs.Rooms.{room_in_all, spent};
ghost use Rattle.page_bytes.specs.Content.{Content};
ghost use Rattle.page_redo.specs.Growing.{blocks_after};
ghost use Rattle.index_sizes.specs.declared.limits.TheConstants.{LOG_ROOM};
ghost use Rattle.page_log.specs.Parts.{newer_of, unsettled};
ghost use Rattle.vec_steps.specs.declared.fault.StepFault.TheVariants.{Memory};
ghost use Rattle.vec_steps.specs.Index.{Index};
ghost use Rattle.vec_board.specs.Keeping.{one_if_ends};
ghost use Rattle.vec_board.specs.Ready.{IsReady, HasOwnRoom};
ghost use Rattle.vec_steps.specs.Desks.{used_after};
ghost use Rattle.vec_board.specs.Standing.{acts_of};
ghost use Rattle.vec_board.specs.Acting.{IsMade, IsAsBefore, IsLogReady, IsPrepared, IsCommitFault, ComesTo, PagesComeTo, MayCommit};
ghost use Rattle.vec_board.specs.Acting.{number_after, log_after, room_of};

use crate::board_core::Core;
use crate::changing::not_allowed;
use crate::summary::summary_after;
use page_log::{Log, LogFault};
use page_sets::PageSet;
use vec_history::{Event, is_lasting};
use vec_steps::StepFault;

// The log with a lasting event more, for which it has room and spare.
fn log_event(log: &mut Log, event: &Event)
    requires written { is_lasting event.now ≡ true → IsWritable event.now }
    requires room { is_lasting event.now ≡ true → (newer_of log.old).used + (length (spelling event.now) + 5) ≤ LOG_ROOM }
    requires spare { is_lasting event.now ≡ true → 1 ≤ log.old.spare }
    ensures log { unsettled log.new ≡ log_after (unsettled log.old) event.now }
    ensures spare { log.old.spare ≤ log.new.spare + (if is_lasting event.now then 1 else 0) }
    ensures epoch { log.new.epoch ≡ log.old.epoch }
{
    if !is_lasting(event) {
        return;
    }
    let _ = log.append(event);
}

fn number_after(event: &Event, number: u64) -> u64
    ensures told { result ≡ number_after event.now number }
    ensures few { number < 2 ^ 64 }
{
    if !is_lasting(event) {
        return number;
    }
    number.wrapping_add(1)
}

impl Core {
    /// Makes room for one act of the desk where it has none of its own, in the history and in the log.
    pub(crate) fn make_room(&mut self, desk: u32, event: &Event) -> Result<(), StepFault>
        ensures ready { OnOk result (IsReady self.new.history desk event.now) }
        ensures log { OnOk result (IsLogReady self.new desk event.now) }
        ensures kept { IsAsBefore self.old self.new }
        ensures own { HasOwnRoom self.old.history desk event.now → self.new ≡ self.old }
        ensures wants { IfErr result (λ fault. (fault ≡ Memory) × (HasOwnRoom self.old.history desk event.now → ⊥)) }
    {
        if self.history.has_room(desk, event) {
            return Ok(());
        }
        self.reserve_event()?;
        self.history.reserve_one()?;
        Ok(())
    }

    // Room in the log for one event beyond all others.
    fn reserve_event(&mut self) -> Result<(), StepFault>
        ensures spare { OnOk result (room_in_all self.new.history.rooms.rooms.items + 1 ≤ self.new.log.spare) }
        ensures same { self.new.history ≡ self.old.history }
        ensures kept { IsAsBefore self.old self.new }
        ensures memory { IfErr result (λ fault. fault ≡ Memory) }
    {
        let events = self.history.room_in_all() + 1;
        if events > u64::from(u32::MAX) {
            return Err(StepFault::Memory);
        }
        match self.log.reserve(events as u32) {
            Ok(()) => Ok(()),
            Err(_) => Err(StepFault::Memory),
        }
    }

    /// All of an act that can be refused: makes room for it where it has none of its own, and does
    /// its lasting event to the pages of the set. It is not made yet: `record` is to follow, which
    /// can't be refused.
    pub(crate) fn prepare<P: PageSet>(
        &mut self,
        desk: u32,
        event: &Event,
        grown: u32,
        pages: &mut P,
    ) -> Result<(), StepFault>
        requires { P.may_add pages.old self.old.summary.blocks }
        ensures prepared { OnOk result (IsPrepared self.new desk event.now) }
        ensures kept { IsAsBefore self.old self.new }
        ensures comes { (all : List Content) (base : Index) (left : ℕ)
            → MayCommit self.old (P.held pages.old) all base desk event.now left grown
            → PagesComeTo self.old (P.held pages.old) (P.held pages.new) all desk event.now grown result }
        ensures fault { IfErr result (IsCommitFault self.old desk event.now grown) }
        ensures next { OnOk result (P.may_add pages.new (blocks_after event.now self.new.summary.blocks)) }
    {
        if !self.history.may_end(desk, event) {
            return Err(not_allowed());
        }
        match self.make_room(desk, event) {
            Ok(()) => self.change_pages(event, grown, pages),
            Err(fault) => Err(fault),
        }
    }

    /// The act is made: its pages are changed already.
    pub(crate) fn record(&mut self, desk: u32, event: Event, left: u8)
        requires ready { IsReady self.old.history desk event }
        requires log { IsLogReady self.old desk event }
        requires ends { one_if_ends event ≡ 1 → IsToldEnd self.old.history.tables desk event }
        requires written { is_lasting event ≡ true → IsWritable event }
        requires room { is_lasting event ≡ true → (newer_of self.old.log).used + (length (spelling event) + 5) ≤ LOG_ROOM }
        requires few { is_lasting event ≡ true → blocks_after event self.old.summary.blocks < 2 ^ 32 }
        ensures made { IsMade self.old self.new desk event left }
        ensures number { self.old.number < 2 ^ 64 }
        ensures room { is_lasting event ≡ true → used_after (room_of self.new) (acts_of self.new) ≤ LOG_ROOM }
    {
        self.summary = summary_after(self.summary, &event, left);
        self.number = number_after(&event, self.number);
        log_event(&mut self.log, &event);
        self.history.add(desk, event);
    }

    /// Makes an act of a desk: the one way by which an act is made. Its lasting event goes to the log and is done to the pages of
    /// the set, which has those that it touches and may be given the next one; a fresh page comes for each block that it makes, and
    /// these are `grown` at most. If it is a Drop, the node has `left` rows after it.
    ///
    /// Memory is wanted only where the act has no room of its own or pages come; the log is full exactly where the event has no
    /// room beside what is used. Then nothing was made. What the rules do not allow may be refused by `LogFull` of 0 and 0, and the
    /// pages are then any.
    pub fn commit<P: PageSet>(
        &mut self,
        desk: u32,
        event: Event,
        left: u8,
        grown: u32,
        pages: &mut P,
    ) -> Result<(), StepFault>
        requires { P.may_add pages.old self.old.summary.blocks }
        ensures made { OnOk result (IsMade self.old self.new desk event left) }
        ensures kept { OnErr result (IsAsBefore self.old self.new) }
        ensures comes { (all : List Content) (base : Index) → MayCommit self.old (P.held pages.old) all base desk event left grown
            → ComesTo self.old self.new (P.held pages.old) (P.held pages.new) all base desk event grown result }
        ensures room { OnOk result (is_lasting event ≡ true → used_after (room_of self.new) (acts_of self.new) ≤ LOG_ROOM) }
        ensures fault { IfErr result (IsCommitFault self.old desk event grown) }
        ensures next { OnOk result (P.may_add pages.new self.new.summary.blocks) }
    {
        match self.prepare(desk, &event, grown, pages) {
            Ok(()) => {
                self.record(desk, event, left);
                Ok(())
            }
            Err(fault) => Err(fault),
        }
    }
}
