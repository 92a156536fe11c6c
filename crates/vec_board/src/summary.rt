//! What is known of an index without its pages.

ghost use Rattle.std.specs.Prelude.{◌≡◌, true, ◌+◌, ◌<◌, ◌≤◌, ◌^◌, ◌==◌, if◌then◌else◌};
ghost use Rattle.vec_history.specs.Settling.{is_lasting};
ghost use Rattle.page_redo.specs.Growing.{blocks_after};
ghost use Rattle.vec_board.specs.Summaries.{summary_after};

use page_sets::blocks_after;
use vec_history::Event;
use vec_names::Tid;

/// What is known of an index without its pages. Of lists it is the number of blocks alone.
#[derive(Clone, Copy, Debug, PartialEq, Eq)]
pub struct Summary {
    /// The number of blocks.
    pub blocks: u32,
    /// The entry point of a graph, and its level; 0 where there is none.
    pub entry: Option<Tid>,
    pub level: u8,
    /// The block where room for a node is looked for first.
    pub hint: u32,
    /// The number of nodes that have no rows left and are not deleted yet.
    pub doomed: u64,
}

/// The summary after an event, which leaves so many rows of the node if it is a Drop.
pub fn summary_after(summary: Summary, event: &Event, left: u8) -> Summary
    requires few { is_lasting event.now ≡ true → blocks_after event.now summary.blocks < 2 ^ 32 }
    requires doomed { summary.doomed + 1 < 2 ^ 64 }
    ensures { result ≡ summary_after summary event.now left }
{
    match event {
        Event::Drop { .. } => Summary {
            doomed: summary.doomed + one_if_none(left),
            ..summary
        },
        Event::Mark { .. } => Summary {
            doomed: summary.doomed.saturating_sub(1),
            ..summary
        },
        Event::Entry { to, level } => Summary {
            entry: *to,
            level: *level,
            ..summary
        },
        Event::Hint { block } => Summary {
            hint: *block,
            ..summary
        },
        Event::Put { .. } => Summary {
            blocks: blocks_after(event, summary.blocks) as u32,
            ..summary
        },
        Event::IvfGrow { .. } => Summary {
            blocks: blocks_after(event, summary.blocks) as u32,
            ..summary
        },
        _ => summary,
    }
}

fn one_if_none(left: u8) -> u64
    ensures told { result ≡ (if left == 0 then 1 else 0) }
    ensures few { result ≤ 1 }
{
    if left == 0 { 1 } else { 0 }
}
