//! The events of an epoch are redone on the pages before them.

ghost use Rattle.std.specs.Prelude.{◌≡◌, ◌↔◌, IfOk, IsTrue};
ghost use Rattle.vec_names.specs.Params.{IsInRange};
ghost use Rattle.vec_recover.specs.Recovering.{FollowsOf};
ghost use Rattle.vec_recover.specs.Parts.{ArePages, IsLogEnd, IsNextBy, IsReplayed};

use crate::redoing::{Redoing, redo_event};
use page_bytes::Page;
use std::alloc::{AllocError, Global};
use vec_history::Event;
use vec_names::{Kind, Params};

// Whether the event follows on the index for which the pages stand.
fn follows(event: &Event, params: &Params, pages: &[Page]) -> bool
    requires params { IsInRange params.now }
    requires pages { ArePages params.now pages.now }
    ensures { IsTrue result ↔ FollowsOf params.now.kind params.now pages.now event.now }
{
    match params.kind {
        Kind::Hnsw => graph_pages::follows(event, params, pages),
        Kind::Ivf => ivf_pages::follows(event, params, pages),
    }
}

// Redoes an event on pages that stand for an index, where it can be.
fn redo_next(
    event: &Event,
    params: &Params,
    wrap: u8,
    number: u64,
    pages: &mut Vec<Page>,
) -> Result<bool, AllocError>
    requires params { IsInRange params.now }
    requires pages { ArePages params.now pages.old.items }
    ensures { IfOk result (IsNextBy params.now wrap number event.now pages.old.items pages.new.items) }
{
    if !follows(event, params, pages.as_slice()) {
        return Ok(false);
    }
    let how = Redoing {
        params: *params,
        wrap,
        number,
    };
    redo_event(event, how, pages)
}

// Redoes the events one after the other, the first as told and each next one with the next number. It tells the place of the
// first that can't be redone.
fn replay(
    events: &[(u64, Event)],
    first: Redoing,
    pages: &mut Vec<Page>,
) -> Result<Option<u64>, AllocError>
    requires params { IsInRange first.params }
    requires pages { ArePages first.params pages.old.items }
    ensures { IfOk result (IsReplayed first events.now pages.old.items pages.new.items) }
{
    let mut number = first.number;
    for placed in events {
        if !redo_next(&placed.1, &first.params, first.wrap, number, pages)? {
            return Ok(Some(placed.0));
        }
        number = number.wrapping_add(1);
    }
    Ok(None)
}

/// The same to the end of an epoch's log, where a batch or an event may stand that its own bytes make bad.
pub(crate) fn replay_log(
    events: &[(u64, Event)],
    bad: Option<u64>,
    first: Redoing,
    pages: &mut Vec<Page>,
) -> Result<Option<u64>, AllocError>
    requires params { IsInRange first.params }
    requires pages { ArePages first.params pages.old.items }
    ensures { IfOk result (IsLogEnd first events.now bad pages.old.items pages.new.items) }
{
    match replay(events, first, pages) {
        Ok(None) => Ok(bad),
        Ok(Some(at)) => Ok(Some(at)),
        Err(fault) => Err(fault),
    }
}
