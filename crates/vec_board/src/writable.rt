//! Which events the log can take.
#![tactic(auto, unfolding(vec_event::specs::Spelling::IsWritable))]

ghost use Rattle.std.specs.Prelude.{◌≡◌, ◌↔◌, IsTrue};
ghost use Rattle.byte_fields.specs.Levels.{is_level};
ghost use Rattle.vec_event.specs.Spelling.{IsWritable, RisesFrom};

use index_sizes::{LAST_BLOCK, MOST_BLOCKS, MOST_SLOTS};
use vec_history::Event;
use vec_names::Tid;

/// Whether an event is lasting and has no value that a log does not hold.
pub fn is_writable(event: &Event) -> bool
    ensures { IsTrue result ↔ IsWritable event.now }
{
    match event {
        Event::Put { version, lists, .. } => {
            *version >= 1 && lists.as_slice().len() <= MOST_SLOTS
        }
        Event::Join { version, .. } => *version >= 1,
        Event::Link { version, .. } => *version >= 1,
        Event::Relist { version, lists, .. } => {
            *version >= 1 && lists.as_slice().len() <= MOST_SLOTS
        }
        Event::Drop { version, gone, .. } => *version >= 1 && *gone >= 1 && *gone <= 1023,
        Event::Mark { version, .. } => *version >= 1,
        Event::Entry { to, level } => is_level(*to, *level),
        Event::Hint { block } => *block <= MOST_BLOCKS,
        Event::IvfAdd { block, .. } => *block <= LAST_BLOCK,
        Event::IvfGrow {
            list,
            last,
            block,
            ..
        } => *list <= LAST_BLOCK && *last <= LAST_BLOCK && *block <= LAST_BLOCK,
        Event::IvfDrop { block, gone } => {
            *block <= LAST_BLOCK && gone.as_slice().len() >= 1 && rises(gone.as_slice())
        }
        Event::IvfHint { list, block } => *list <= LAST_BLOCK && *block <= LAST_BLOCK,
        _ => false,
    }
}

// A level stands above 0 only beside an entry point.
fn is_level(to: Option<Tid>, level: u8) -> bool
    ensures { result ≡ is_level to level }
{
    match to {
        Some(_) => true,
        None => level == 0,
    }
}

// Whether each offset is above the one before, and the first above 0.
fn rises(offsets: &[u16]) -> bool
    ensures { IsTrue result ↔ RisesFrom 0 offsets.now }
{
    let mut low: u16 = 0;
    for off in offsets {
        if *off <= low {
            return false;
        }
        low = *off;
    }
    true
}
