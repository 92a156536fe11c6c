//! An event, done to pages.

ghost use Rattle.std.specs.Prelude.{◌≡◌, ◌≢◌, ◌≤◌, ◌<◌, ◌+◌, ◌-◌, ◌^◌, ℕ, List, [], ◌∷◌, true, IsOk, OnOk, IfSome, IfNone, Contains, length, None};
ghost use Rattle.vec_names.specs.Params.{IsInRange};
ghost use Rattle.vec_history.specs.Settling.{is_lasting};
ghost use Rattle.page_bytes.specs.Content.{Content};
ghost use Rattle.page_redo.specs.Redo.{touched};
ghost use Rattle.page_redo.specs.Growing.{blocks_after, new_kind, fresh_page};
ghost use Rattle.page_redo.specs.Fitting.{FitsEach};
ghost use Rattle.page_sets.specs.Sets.{IsPartOf};
ghost use Rattle.page_sets.specs.Committing.{HasTouched, IsCommitted, AreThese, HasThese, FitThese, IsRedoneSet, IsExtended};

use crate::page_set::PageSet;
use page_bytes::PageKind;
use page_redo::{RedoFault, list_block};
use vec_history::Event;
use vec_names::Params;

/// The first block that an event touches, and the other one where it touches two.
#[derive(Clone, Copy, Debug, PartialEq, Eq)]
struct Touched {
    first: u32,
    other: Option<u32>,
}

fn one(block: u32) -> Touched
    ensures { AreThese (block ∷ []) result }
{
    Touched {
        first: block,
        other: None,
    }
}

fn two(first: u32, second: u32) -> Touched
    ensures { AreThese (first ∷ second ∷ []) result }
{
    if second == first {
        return one(first);
    }
    Touched {
        first,
        other: Some(second),
    }
}

// None for an event that goes to no page, or whose block is no number of a page.
fn touched_by(event: &Event, params: &Params) -> Option<Touched>
    requires { IsInRange params.now }
    ensures some { IfSome result (AreThese (touched event.now params.now)) }
    ensures none { IfNone result (is_lasting event.now ≡ true
        → (block : ℕ) × Contains (touched event.now params.now) block × 2 ^ 32 ≤ block) }
{
    match event {
        Event::Put { at, list_at, .. } => Some(two(at.block, list_at.block)),
        Event::Join { at, .. } => Some(one(at.block)),
        Event::Link { list_at, .. } => Some(one(list_at.block)),
        Event::Relist { list_at, .. } => Some(one(list_at.block)),
        Event::Drop { at, .. } => Some(one(at.block)),
        Event::Mark { at, list_at, .. } => Some(two(at.block, list_at.block)),
        Event::Entry { .. } => Some(one(0)),
        Event::Hint { .. } => Some(one(0)),
        Event::IvfAdd { block, .. } => Some(one(*block)),
        Event::IvfGrow { last, block, .. } => Some(two(*block, *last)),
        Event::IvfDrop { block, .. } => Some(one(*block)),
        Event::IvfHint { list, .. } => block_of(list_block(params, *list)),
        _ => None,
    }
}

fn block_of(block: u64) -> Option<Touched>
    ensures some { IfSome result (AreThese (block ∷ [])) }
    ensures none { IfNone result (2 ^ 32 ≤ block) }
{
    if block > u64::from(u32::MAX) {
        return None;
    }
    Some(one(block as u32))
}

/// How many blocks there are with those that an event makes, in an index with so many.
pub fn blocks_after(event: &Event, blocks: u32) -> u64
    ensures told { result ≡ blocks_after event.now blocks }
    ensures upward { blocks ≤ result }
    ensures few { blocks < 2 ^ 32 }
{
    let blocks = u64::from(blocks);
    match event {
        Event::Put { at, list_at, .. } => {
            blocks.max((u64::from(at.block) + 1).max(u64::from(list_at.block) + 1))
        }
        Event::IvfGrow { block, .. } => blocks.max(u64::from(*block) + 1),
        _ => blocks,
    }
}

fn new_kind(event: &Event) -> PageKind
    ensures { result ≡ new_kind event.now }
{
    match event {
        Event::IvfGrow { .. } => PageKind::IvfEntries,
        _ => PageKind::Hnsw,
    }
}

/// Adds a fresh page for each new block. `Unfit` where the set has a page for one of them.
fn extend<P: PageSet>(
    kind: PageKind,
    blocks: u32,
    upto: u32,
    pages: &mut P,
) -> Result<(), RedoFault>
    requires upward { blocks ≤ upto }
    requires next { P.may_add pages.old blocks }
    requires room { upto ≤ blocks + P.spare pages.old }
    ensures done { OnOk result (IsExtended (P.held pages.old) (P.held pages.new) blocks upto (fresh_page kind)) }
    ensures new { ((block : ℕ) → blocks ≤ block → P.held pages.old block ≡ None) → IsOk result }
    ensures next { OnOk result (P.may_add pages.new upto) }
{
    for block in blocks..upto {
        if pages.page(block).is_some() {
            return Err(RedoFault::Unfit);
        }
        pages.add(block, kind);
    }
    Ok(())
}

/// Redoes an event on its two blocks, or on its one.
fn redo_these<P: PageSet>(
    event: &Event,
    params: &Params,
    number: u64,
    touched: Touched,
    pages: &mut P,
) -> Result<(), RedoFault>
    requires { IsInRange params.now }
    ensures redone { (all : List Content) → IsPartOf (P.held pages.old) all → HasThese (P.held pages.old) all touched
        → ((block : ℕ) → touched.other ≡ Some block → block ≢ touched.first)
        → OnOk result ((after : List Content)
        × IsRedoneSet (P.held pages.old) (P.held pages.new) all after params.now number event.now touched) }
    ensures fits { (all : List Content) → HasThese (P.held pages.old) all touched
        → ((block : ℕ) → touched.other ≡ Some block → block ≢ touched.first)
        → FitThese all params.now number event.now touched → IsOk result }
    ensures next { (block : ℕ) → P.may_add pages.old block → P.may_add pages.new block }
{
    pages.redo_on(event, params, number, touched.first)?;
    match touched.other {
        Some(other) => pages.redo_on(event, params, number, other),
        None => Ok(()),
    }
}

/// Does a lasting event to the pages that it touches, of an index with so many blocks: it is redone on each of them, with this
/// number, and a block that it makes new has a fresh page first. The set has room for these, and takes no memory.
///
/// `Unfit` never where the set has the pages as they stand in the index, and the event fits them. Else some pages may be changed.
pub fn commit<P: PageSet>(
    event: &Event,
    params: &Params,
    number: u64,
    blocks: u32,
    pages: &mut P,
) -> Result<(), RedoFault>
    requires params { IsInRange params.now }
    requires few { blocks_after event.now blocks < 2 ^ 32 }
    requires lasting { is_lasting event.now ≡ true }
    requires next { P.may_add pages.old blocks }
    requires room { blocks_after event.now blocks ≤ blocks + P.spare pages.old }
    ensures done { (all : List Content) → length all ≡ blocks → HasTouched (P.held pages.old) all event.now params.now
        → OnOk result ((after : List Content)
        × IsCommitted (P.held pages.old) (P.held pages.new) all after event.now params.now number) }
    ensures fits { (all : List Content) → length all ≡ blocks → HasTouched (P.held pages.old) all event.now params.now
        → FitsEach all params.now event.now → IsOk result }
    ensures next { OnOk result (P.may_add pages.new (blocks_after event.now blocks)) }
{
    let upto = blocks_after(event, blocks) as u32;
    let Some(touched) = touched_by(event, params) else {
        return Err(RedoFault::Unfit);
    };
    extend(new_kind(event), blocks, upto, pages)?;
    redo_these(event, params, number, touched, pages)
}
