//! An event is redone on all pages that it touches.

ghost use Rattle.std.specs.Prelude.{◌≡◌, ◌≢◌, ◌≤◌, ◌<◌, ◌+◌, ◌^◌, ℕ, List, Result, Ok, IfOk, OnOk, IsTrue, length};
ghost use Rattle.vec_names.specs.Params.{IsInRange};
ghost use Rattle.page_redo.specs.Redo.{touched};
ghost use Rattle.page_redo.specs.Growing.{blocks_after, extended, new_kind};
ghost use Rattle.vec_recover.specs.Parts.{IsRedoneAt, IsRedoneAtBoth, IsRedoneOn, IsRedoneOrNot, AreTouched};

use page_bytes::{Page, PageKind};
use page_redo::{list_block, redo};
use std::alloc::{AllocError, Global};
use vec_history::Event;
use vec_names::Params;

/// How an event is redone: with the index's parameters, the version at which the log's form wraps, and the event's number.
#[derive(Clone, Copy)]
pub(crate) struct Redoing {
    pub params: Params,
    pub wrap: u8,
    pub number: u64,
}

// How many blocks there are with those that an event makes, in an index with so many.
fn blocks_after(event: &Event, blocks: u64) -> u64
    ensures told { result ≡ blocks_after event.now blocks }
    ensures upward { blocks ≤ result }
    ensures few { blocks ≤ 2 ^ 32 → result ≤ 2 ^ 32 }
{
    match event {
        Event::Put { at, list_at, .. } => {
            blocks.max((u64::from(at.block) + 1).max(u64::from(list_at.block) + 1))
        }
        Event::IvfGrow { block, .. } => blocks.max(u64::from(*block) + 1),
        _ => blocks,
    }
}

fn new_kind(event: &Event) -> PageKind
    ensures { result ≡ new_kind event.now }
{
    match event {
        Event::IvfGrow { .. } => PageKind::IvfEntries,
        _ => PageKind::Hnsw,
    }
}

// Adds a fresh page for each block that the event makes.
fn extend(event: &Event, pages: &mut Vec<Page>) -> Result<(), AllocError>
    ensures told { OnOk result (pages.new.items ≡ extended event.now pages.old.items) }
    ensures few { length pages.old.items ≤ 2 ^ 32 → OnOk result (length pages.new.items ≤ 2 ^ 32) }
{
    let from = pages.len() as u64;
    let upto = blocks_after(event, from);
    for _ in from..upto {
        pages.push(Page::fresh(new_kind(event)))?;
    }
    Ok(())
}

/// The blocks that an event touches: two, or the same one twice. None for a passing event, which touches none.
pub(crate) fn touched_by(event: &Event, params: &Params) -> Option<(u64, u64)>
    requires { IsInRange params.now }
    ensures { AreTouched (touched event.now params.now) result }
{
    match event {
        Event::Put { at, list_at, .. } => Some((u64::from(at.block), u64::from(list_at.block))),
        Event::Mark { at, list_at, .. } => Some((u64::from(at.block), u64::from(list_at.block))),
        Event::Join { at, .. } => Some((u64::from(at.block), u64::from(at.block))),
        Event::Drop { at, .. } => Some((u64::from(at.block), u64::from(at.block))),
        Event::Link { list_at, .. } => Some((u64::from(list_at.block), u64::from(list_at.block))),
        Event::Relist { list_at, .. } => Some((u64::from(list_at.block), u64::from(list_at.block))),
        Event::Entry { .. } => Some((0, 0)),
        Event::Hint { .. } => Some((0, 0)),
        Event::IvfAdd { block, .. } => Some((u64::from(*block), u64::from(*block))),
        Event::IvfGrow { last, block, .. } => Some((u64::from(*block), u64::from(*last))),
        Event::IvfDrop { block, .. } => Some((u64::from(*block), u64::from(*block))),
        Event::IvfHint { list, .. } => {
            let block = list_block(params, *list);
            Some((block, block))
        }
        _ => None,
    }
}

// Redoes the event on the page of this block, where it is there and takes it.
fn redo_at(event: &Event, how: Redoing, block: u64, pages: &mut Vec<Page>) -> bool
    requires params { IsInRange how.params }
    requires few { length pages.old.items ≤ 2 ^ 32 }
    ensures { IsRedoneAt how event.now block pages.old.items pages.new.items result }
{
    if block >= pages.len() as u64 {
        return false;
    }
    let at = block as usize;
    redo(
        event,
        &how.params,
        how.wrap,
        how.number,
        block as u32,
        &mut pages[at],
    )
    .is_ok()
}

// The same on two blocks, or on the one that both are.
fn redo_both(event: &Event, how: Redoing, first: u64, other: u64, pages: &mut Vec<Page>) -> bool
    requires params { IsInRange how.params }
    requires few { length pages.old.items ≤ 2 ^ 32 }
    ensures { IsRedoneAtBoth how event.now first other pages.old.items pages.new.items result }
{
    if !redo_at(event, how, first, pages) {
        return false;
    }
    first == other || redo_at(event, how, other, pages)
}

// Redoes the event on each page that it touches.
fn redo_touched(event: &Event, how: Redoing, pages: &mut Vec<Page>) -> bool
    requires params { IsInRange how.params }
    requires few { length pages.old.items ≤ 2 ^ 32 }
    ensures { IsRedoneOn how event.now pages.old.items pages.new.items result }
{
    match touched_by(event, &how.params) {
        Some((first, other)) => redo_both(event, how, first, other, pages),
        None => true,
    }
}

/// Redoes an event on all pages that it touches, fresh ones among them; false where one of them is not there or does not take it.
pub(crate) fn redo_event(
    event: &Event,
    how: Redoing,
    pages: &mut Vec<Page>,
) -> Result<bool, AllocError>
    requires params { IsInRange how.params }
    requires few { length pages.old.items ≤ 2 ^ 32 }
    ensures { IfOk result (IsRedoneOrNot how event.now pages.old.items pages.new.items) }
{
    extend(event, pages)?;
    Ok(redo_touched(event, how, pages))
}
