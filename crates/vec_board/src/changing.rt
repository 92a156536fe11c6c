//! What an act changes beside the history: the pages, and whether the log takes it.

ghost use Rattle.std.specs.Prelude.{◌≡◌, ◌+◌, ◌≤◌, ◌<◌, ◌^◌, ℕ, List, true, IsOk, OnOk, IfErr, length};
ghost use Rattle.vec_history.specs.Settling.{is_lasting};
ghost use Rattle.page_bytes.specs.Content.{Content};
ghost use Rattle.page_redo.specs.Growing.{blocks_after};
ghost use Rattle.page_redo.specs.Fitting.{FitsEach};
ghost use Rattle.page_sets.specs.Committing.{HasTouched, IsCommitted};
ghost use Rattle.vec_steps.specs.declared.fault.StepFault.TheVariants.{Memory};
ghost use Rattle.vec_board.specs.Acting.{IsTaken, MayChange, IsChangeCause, IsChangeFault, IsSameSet, AreMade};

use crate::board_core::Core;
use crate::writable::is_writable;
use index_sizes::LOG_ROOM;
use page_sets::{PageSet, blocks_after, commit};
use vec_event::event_size;
use vec_history::{Event, is_lasting};
use vec_steps::StepFault;

/// The answer to what never comes over a base: an event that the rules do not allow.
pub fn not_allowed() -> StepFault
    ensures { IsChangeFault 0 result }
{
    StepFault::LogFull { used: 0, size: 0 }
}

impl Core {
    /// Whether a lasting event can be written, makes no more new blocks than this, and has room in the epoch of the log.
    fn check(&self, event: &Event, grown: u32) -> Result<(), StepFault>
        ensures taken { OnOk result (is_lasting event.now ≡ true → IsTaken self.now event.now grown) }
        ensures cause { (all : List Content) → MayChange self.now all event.now grown
            → IfErr result (IsChangeCause self.now event.now grown) }
        ensures fault { IfErr result (IsChangeFault 0) }
    {
        if !is_lasting(event) {
            return Ok(());
        }
        if !is_writable(event) {
            return Err(not_allowed());
        }
        let blocks = self.summary.blocks;
        if blocks_after(event, blocks) > u64::from(blocks) + u64::from(grown) {
            return Err(not_allowed());
        }
        let size = event_size(event);
        let used = self.log.used();
        if size.saturating_add(5) > LOG_ROOM - used {
            return Err(StepFault::LogFull { used, size });
        }
        Ok(())
    }

    /// Redoes a lasting event on the pages that it touches.
    fn redo<P: PageSet>(&self, event: &Event, pages: &mut P) -> Result<(), StepFault>
        requires few { blocks_after event.now self.now.summary.blocks < 2 ^ 32 }
        requires lasting { is_lasting event.now ≡ true }
        requires next { P.may_add pages.old self.now.summary.blocks }
        requires room { blocks_after event.now self.now.summary.blocks ≤ self.now.summary.blocks + P.spare pages.old }
        ensures done { (all : List Content) → length all ≡ self.now.summary.blocks
            → HasTouched (P.held pages.old) all event.now self.now.params
            → OnOk result ((after : List Content)
            × IsCommitted (P.held pages.old) (P.held pages.new) all after event.now self.now.params self.now.number) }
        ensures fits { (all : List Content) → length all ≡ self.now.summary.blocks
            → HasTouched (P.held pages.old) all event.now self.now.params → FitsEach all self.now.params event.now → IsOk result }
        ensures fault { IfErr result (IsChangeFault 0) }
        ensures next { OnOk result (P.may_add pages.new (blocks_after event.now self.now.summary.blocks)) }
    {
        match commit(event, &self.params, self.number, self.summary.blocks, pages) {
            Ok(()) => Ok(()),
            Err(_) => Err(not_allowed()),
        }
    }

    /// Does an event to the pages, if it is lasting and the log takes it. The set has the pages that it touches; it comes to have
    /// at most so many new ones.
    pub(crate) fn change_pages<P: PageSet>(
        &self,
        event: &Event,
        grown: u32,
        pages: &mut P,
    ) -> Result<(), StepFault>
        requires { P.may_add pages.old self.now.summary.blocks }
        ensures made { (all : List Content) → length all ≡ self.now.summary.blocks
            → HasTouched (P.held pages.old) all event.now self.now.params
            → OnOk result ((after : List Content)
            × AreMade (is_lasting event.now) (P.held pages.old) (P.held pages.new) all after event.now self.now.params self.now.number) }
        ensures cause { (all : List Content) → length all ≡ self.now.summary.blocks
            → HasTouched (P.held pages.old) all event.now self.now.params → MayChange self.now all event.now grown
            → IfErr result (λ fault. IsChangeCause self.now event.now grown fault × IsSameSet (P.held pages.old) (P.held pages.new)) }
        ensures fault { IfErr result (IsChangeFault grown) }
        ensures taken { OnOk result (is_lasting event.now ≡ true → IsTaken self.now event.now grown) }
        ensures next { OnOk result (P.may_add pages.new (blocks_after event.now self.now.summary.blocks)) }
    {
        match self.check(event, grown) {
            Ok(()) => self.change_checked(event, grown, pages),
            Err(fault) => Err(fault),
        }
    }

    // The same of an event that the log takes, if it is lasting.
    fn change_checked<P: PageSet>(
        &self,
        event: &Event,
        grown: u32,
        pages: &mut P,
    ) -> Result<(), StepFault>
        requires next { P.may_add pages.old self.now.summary.blocks }
        requires taken { is_lasting event.now ≡ true → IsTaken self.now event.now grown }
        ensures made { (all : List Content) → length all ≡ self.now.summary.blocks
            → HasTouched (P.held pages.old) all event.now self.now.params
            → OnOk result ((after : List Content)
            × AreMade (is_lasting event.now) (P.held pages.old) (P.held pages.new) all after event.now self.now.params self.now.number) }
        ensures cause { (all : List Content) → length all ≡ self.now.summary.blocks
            → HasTouched (P.held pages.old) all event.now self.now.params → MayChange self.now all event.now grown
            → IfErr result (λ fault. IsChangeCause self.now event.now grown fault × IsSameSet (P.held pages.old) (P.held pages.new)) }
        ensures fault { IfErr result (IsChangeFault grown) }
        ensures next { OnOk result (P.may_add pages.new (blocks_after event.now self.now.summary.blocks)) }
    {
        if !is_lasting(event) {
            return Ok(());
        }
        match reserve(grown, pages) {
            Ok(()) => self.redo(event, pages),
            Err(fault) => Err(fault),
        }
    }
}

/// Makes room for so many pages in a set, if any are wanted.
fn reserve<P: PageSet>(grown: u32, pages: &mut P) -> Result<(), StepFault>
    ensures held { IsSameSet (P.held pages.old) (P.held pages.new) }
    ensures room { OnOk result (grown ≤ P.spare pages.new) }
    ensures next { (next : ℕ) → P.may_add pages.old next → P.may_add pages.new next }
    ensures memory { IfErr result (λ fault. (fault ≡ Memory) × 1 ≤ grown) }
{
    if grown == 0 {
        return Ok(());
    }
    pages.reserve(grown)
}
