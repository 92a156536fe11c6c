//! All of a board but its pages and its disks.

ghost use Rattle.std.specs.Prelude.{◌≡◌, ◌+◌, ◌≤◌, ◌^◌, length};
ghost use Rattle.vec_names.specs.Params.{IsInRange};
ghost use Rattle.history_tables.specs.Rooms.{room_in_all};
ghost use Rattle.page_log.specs.Parts.{newer_of};
ghost use Rattle.vec_steps.specs.Desks.{used_after};

use crate::history::History;
use crate::summary::Summary;
use page_log::Log;
use std::alloc::Global;
use vec_history::Act;
use vec_names::Params;

/// All of a board but its pages and its disks: the acts since it was opened, what is known of the index without its pages, and the
/// log, whose room is counted from the act of number `since`, when so many bytes were `used`.
#[derive(Drop)]
pub struct Core {
    pub(crate) params: Params,
    pub(crate) summary: Summary,
    pub(crate) history: History,
    pub(crate) log: Log,
    pub(crate) number: u64,
    pub(crate) used: u64,
    pub(crate) since: usize,
    ghost in_range: { ∥ IsInRange params ∥₁ },
    ghost counted: { since ≤ length history.acts.items },
    ghost used_is: { (newer_of log).used ≡ used_after (record { used = used; since = since }) history.acts.items },
    ghost spare: { room_in_all history.rooms.rooms.items ≤ log.spare },
    ghost few_doomed: { summary.doomed ≤ 2 ^ 32 + length history.acts.items },
}

impl Core {
    ghost use Rattle.std.specs.Prelude.{List, [], ℕ};
    ghost use Rattle.page_bytes.specs.Content.{Content};
    ghost use Rattle.page_log.specs.Parts.{unsettled};
    ghost use Rattle.vec_steps.specs.Index.{Index, IsShaped, IsOfParams};
    ghost use Rattle.index_pages.specs.Standing.{AreOf};
    ghost use Rattle.vec_board.specs.Summaries.{Summarizes};
    ghost use Rattle.vec_board.specs.Standing.{StandsOn, acts_of};
    ghost use Rattle.vec_board.specs.Acting.{room_of};

    /// The core of an index that was opened: with these parameters, summary and log, whose next event has this number. It has no
    /// act yet. It takes no memory.
    pub fn over(alloc: Global, params: Params, summary: Summary, log: Log, number: u64) -> Core
        requires params { IsInRange params }
        requires doomed { summary.doomed ≤ 2 ^ 32 }
        ensures stands { (all : List Content) (base : Index) → IsShaped base → IsOfParams params base → AreOf params all base
            → summary.blocks ≡ length all → Summarizes summary base → StandsOn result all base }
        ensures acts { acts_of result ≡ [] }
        ensures params { result.params ≡ params }
        ensures summary { result.summary ≡ summary }
        ensures log { unsettled result.log ≡ unsettled log }
        ensures number { result.number ≡ number }
        ensures room { room_of result ≡ record { used = (newer_of log).used; since = 0 } }
        ensures epoch { result.log.epoch ≡ log.epoch }
    {
        let used = log.used();
        Core {
            params,
            summary,
            history: History::new(alloc),
            log,
            number,
            used,
            since: 0,
        }
    }

    /// The acts since the index was opened, the first one first.
    pub fn acts(&self) -> &[Act]
        ensures { result.now ≡ acts_of self.now }
    {
        self.history.acts()
    }

    /// What is known of the index without its pages.
    pub fn summary(&self) -> Summary
        ensures { result ≡ self.now.summary }
    {
        self.summary
    }

    /// The number that the next lasting event has.
    pub fn number(&self) -> u64
        ensures { result ≡ self.now.number }
    {
        self.number
    }

    /// How much of the epoch's room is used, in bytes.
    pub fn used(&self) -> u64
        ensures { result ≡ used_after (room_of self.now) (acts_of self.now) }
    {
        self.log.used()
    }

    /// The acts, without the rest of the core.
    pub(crate) fn into_acts(self) -> Vec<Act>
        ensures { result.items ≡ acts_of self }
    {
        let Core {
            params: _,
            summary: _,
            history,
            log: _,
            number: _,
            used: _,
            since: _,
        } = self;
        history.into_acts()
    }
}
