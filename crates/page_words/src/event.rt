//! The event that a change makes.

ghost use Rattle.std.specs.Prelude.{◌≡◌};
ghost use Rattle.std.specs.Option.{option_to_list};
ghost use Rattle.page_words.specs.Deciding.{events_of};

use crate::making::Making;
use vec_history::Event;
use vec_steps::{Ask, NewNode};

/// The event that an ask makes, of which this became; None where nothing did. The values and the lists of the ask are moved into
/// it, so it takes no memory.
pub fn event_of(ask: Ask, making: Making) -> Option<Event>
    ensures { option_to_list result ≡ events_of ask making }
{
    match ask {
        Ask::Put { block: _, node } => put_event(node, making),
        Ask::PutNew { node } => put_event(node, making),
        Ask::Link {
            at,
            list_at,
            version,
            to,
            ..
        } => match making {
            Making::Slot(slot) => Some(Event::Link {
                at,
                list_at,
                version,
                slot,
                to,
            }),
            _ => None,
        },
        Ask::Extend {
            list,
            last,
            id,
            bits,
        } => match making {
            Making::Behind(block) => Some(Event::IvfGrow {
                list,
                last,
                block,
                id,
                bits,
            }),
            _ => None,
        },
        other => match making {
            Making::Asked => asked_event(other),
            _ => None,
        },
    }
}

fn put_event(node: NewNode, making: Making) -> Option<Event>
    ensures { option_to_list result ≡ events_of (Ask.PutNew node) making }
{
    let Making::At(place) = making else {
        return None;
    };
    Some(Event::Put {
        at: place.at,
        list_at: place.list_at,
        version: place.version,
        level: node.level,
        id: node.id,
        bits: node.bits,
        lists: node.lists,
    })
}

fn asked_event(ask: Ask) -> Option<Event>
    ensures { option_to_list result ≡ events_of ask Making.Asked }
{
    match ask {
        Ask::Join { at, version, id } => Some(Event::Join { at, version, id }),
        Ask::Relist {
            at,
            list_at,
            version,
            lists,
        } => Some(Event::Relist {
            at,
            list_at,
            version,
            lists,
        }),
        Ask::Drop { at, version, gone } => Some(Event::Drop { at, version, gone }),
        Ask::Mark {
            at,
            list_at,
            version,
        } => Some(Event::Mark {
            at,
            list_at,
            version,
        }),
        Ask::Entry { to, level } => Some(Event::Entry { to, level }),
        Ask::Hint { block } => Some(Event::Hint { block }),
        Ask::Add { block, id, bits } => Some(Event::IvfAdd { block, id, bits }),
        Ask::Cut { block, gone } => Some(Event::IvfDrop { block, gone }),
        Ask::Aim { list, block } => Some(Event::IvfHint { list, block }),
        _ => None,
    }
}
