//! The event of an ask: taken out of it, and given back where it is refused.

ghost use Rattle.std.specs.Prelude.{◌≡◌, ◌∷◌, [], true, false, length};
ghost use Rattle.page_words.specs.Deciding.{events_of};
ghost use Rattle.vec_steps.specs.declared.ask.NewNode.{NewNode as NewNodes};
ghost use Rattle.vec_board.specs.Changes.{rest_of as rest_of_ask, given_back as back_of, put_back as put_from, link_back as link_from, grown_of};

use page_words::{Making, event_of};
use std::mem;
use vec_history::Event;
use vec_names::Tid;
use vec_steps::{Ask, NewNode};

/// What an ask says beside the event that comes of it.
#[derive(Clone, Copy, Debug, PartialEq, Eq)]
pub enum Rest {
    Nothing,
    /// The block on which a node was to be put.
    Block(u32),
    /// A slot of a layer, and what was read in it.
    Slot {
        level: u8,
        layer: u8,
        slot: u16,
        held: Option<Tid>,
    },
}

/// What an ask says beside its event.
pub fn rest_of(ask: &Ask) -> Rest
    ensures { result ≡ rest_of_ask ask.now }
{
    match ask {
        Ask::Put { block, .. } => Rest::Block(*block),
        Ask::Link {
            level,
            layer,
            slot,
            held,
            ..
        } => Rest::Slot {
            level: *level,
            layer: *layer,
            slot: *slot,
            held: *held,
        },
        _ => Rest::Nothing,
    }
}

/// Whether an event comes of an ask, of which this became.
pub fn makes(ask: &Ask, making: Making) -> bool
    ensures one { result ≡ true → length (events_of ask.now making) ≡ 1 }
    ensures none { result ≡ false → events_of ask.now making ≡ [] }
{
    match making {
        Making::Nothing => false,
        Making::Asked => makes_asked(ask),
        Making::Slot(_) => matches!(ask, Ask::Link { .. }),
        Making::At(_) => matches!(ask, Ask::Put { .. } | Ask::PutNew { .. }),
        Making::Behind(_) => matches!(ask, Ask::Extend { .. }),
    }
}

// The same, where it is the event that was asked for.
fn makes_asked(ask: &Ask) -> bool
    ensures one { result ≡ true → length (events_of ask.now Making.Asked) ≡ 1 }
    ensures none { result ≡ false → events_of ask.now Making.Asked ≡ [] }
{
    match ask {
        Ask::Join { .. } => true,
        Ask::Relist { .. } => true,
        Ask::Drop { .. } => true,
        Ask::Mark { .. } => true,
        Ask::Entry { .. } => true,
        Ask::Hint { .. } => true,
        Ask::Add { .. } => true,
        Ask::Cut { .. } => true,
        Ask::Aim { .. } => true,
        _ => false,
    }
}

/// How many new blocks the event of an ask has at most.
pub fn grown(ask: &Ask, making: Making) -> u32
    ensures { result ≡ grown_of ask.now making }
{
    match ask {
        Ask::PutNew { .. } => blocks_of(making),
        Ask::Extend { .. } => 1,
        _ => 0,
    }
}

// On how many blocks a new node stands.
fn blocks_of(making: Making) -> u32
    ensures { (node : NewNodes) → result ≡ grown_of (Ask.PutNew node) making }
{
    match making {
        Making::At(place) => {
            if place.at.block == place.list_at.block {
                1
            } else {
                2
            }
        }
        _ => 0,
    }
}

/// Takes its event out of an ask, of which nothing is left.
pub fn take_event(ask: &mut Ask, making: Making) -> Event
    requires { length (events_of ask.old making) ≡ 1 }
    ensures event { events_of ask.old making ≡ result ∷ [] }
    ensures spent { ask.new ≡ Ask.Spent }
{
    event_of(mem::replace(ask, Ask::Spent), making).unwrap()
}

/// The ask from which the event was taken, beside which it said this.
pub fn given_back(event: Event, rest: Rest) -> Ask
    ensures { result ≡ back_of event rest }
{
    // One arm for each event that an ask may bring.
    match event {
        Event::Put {
            level,
            id,
            bits,
            lists,
            ..
        } => put_back(
            NewNode {
                level,
                id,
                bits,
                lists,
            },
            rest,
        ),
        Event::Join { at, version, id } => Ask::Join { at, version, id },
        Event::Link {
            at,
            list_at,
            version,
            to,
            ..
        } => link_back(at, list_at, version, to, rest),
        Event::Relist {
            at,
            list_at,
            version,
            lists,
        } => Ask::Relist {
            at,
            list_at,
            version,
            lists,
        },
        Event::Drop { at, version, gone } => Ask::Drop { at, version, gone },
        Event::Mark {
            at,
            list_at,
            version,
        } => Ask::Mark {
            at,
            list_at,
            version,
        },
        Event::Entry { to, level } => Ask::Entry { to, level },
        Event::Hint { block } => Ask::Hint { block },
        Event::IvfAdd { block, id, bits } => Ask::Add { block, id, bits },
        Event::IvfGrow {
            list,
            last,
            id,
            bits,
            ..
        } => Ask::Extend {
            list,
            last,
            id,
            bits,
        },
        Event::IvfDrop { block, gone } => Ask::Cut { block, gone },
        Event::IvfHint { list, block } => Ask::Aim { list, block },
        _ => Ask::Spent,
    }
}

fn put_back(node: NewNode, rest: Rest) -> Ask
    ensures { result ≡ put_from node rest }
{
    match rest {
        Rest::Block(block) => Ask::Put { block, node },
        _ => Ask::PutNew { node },
    }
}

fn link_back(at: Tid, list_at: Tid, version: u8, to: Tid, rest: Rest) -> Ask
    ensures { result ≡ link_from at list_at version to rest }
{
    match rest {
        Rest::Slot {
            level,
            layer,
            slot,
            held,
        } => Ask::Link {
            at,
            list_at,
            level,
            version,
            layer,
            slot,
            held,
            to,
        },
        _ => Ask::Spent,
    }
}
