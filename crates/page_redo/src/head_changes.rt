//! What an event makes of an element's head.

ghost use Rattle.std.specs.Prelude.{◌≡◌, ◌≤◌, ◌^◌, ◌&&◌, ◌∷◌, [], ◌++◌, ◌%◌, ◌==◌, ◌<◌, nat_lt, length, if◌then◌else◌};
ghost use Rattle.list_values.specs.Masks.{kept};
ghost use Rattle.page_redo.specs.PageChanges.{joined, dropped, marked, is_current};
ghost use Rattle.page_redo.specs.OfParts.{head_after};

use arrayvec::ArrayVec;
use index_sizes::next_version;
use vec_names::HeapId;
use vec_tuples::ElementHead;

/// A change of an element's head. `version` is the element's before it.
#[derive(Clone, Copy)]
pub enum HeadChange {
    /// The element has one more id, its last.
    MoreIds { version: u8, id: HeapId },
    /// The ids go that the mask names, the first by its lowest bit.
    FewerIds { version: u8, gone: u16 },
    /// The element is deleted, and has its next version; `wrap` is the one after which that is 1.
    Deleted { version: u8, wrap: u8 },
}

/// The head after a change, where the element is not deleted, has the version and allows the change.
pub fn head_after(change: HeadChange, head: ElementHead) -> Option<ElementHead>
    ensures { result ≡ head_after change head }
{
    match change {
        HeadChange::MoreIds { version, id } => joined(version, id, head),
        HeadChange::FewerIds { version, gone } => dropped(version, gone, head),
        HeadChange::Deleted { version, wrap } => marked(wrap, version, head),
    }
}

/// Whether a tuple is not deleted and has the version that the event names.
pub fn is_current(deleted: bool, found: u8, version: u8) -> bool
    ensures { result ≡ is_current deleted found version }
{
    !deleted && found == version
}

/// The head with one more id, its last, of at most ten.
fn joined(version: u8, id: HeapId, head: ElementHead) -> Option<ElementHead>
    ensures { result ≡ joined version id head }
{
    let mut head = head;
    if !is_current(head.deleted, head.version, version) {
        return None;
    }
    if head.ids.len() >= 10 {
        return None;
    }
    head.ids.push(id);
    Some(head)
}

/// The head without the ids that the mask names, the first by its lowest bit. The others close up.
fn dropped(version: u8, gone: u16, head: ElementHead) -> Option<ElementHead>
    ensures { result ≡ dropped version gone head }
{
    let mut head = head;
    if !is_current(head.deleted, head.version, version) {
        return None;
    }
    if !is_mask(gone, head.ids.len()) {
        return None;
    }
    head.ids = kept(gone, head.ids.as_slice());
    Some(head)
}

/// Whether a mask names none but the first so many ids.
fn is_mask(gone: u16, count: usize) -> bool
    requires { count ≤ 10 }
    ensures { result ≡ nat_lt gone (2 ^ count) }
{
    gone < 1 << count
}

/// The ids that a mask does not name.
fn kept(gone: u16, ids: &[HeapId]) -> ArrayVec<HeapId, 10>
    requires { length ids.now ≤ 10 }
    ensures { result.items ≡ kept gone ids.now }
{
    let mut left = ArrayVec::new();
    let mut mask = gone;
    'ids: for id in ids {
        keep(mask, *id, &mut left);
        mask /= 2;
    }
    left
}

/// Puts an id last unless the lowest bit names it.
fn keep(mask: u16, id: HeapId, left: &mut ArrayVec<HeapId, 10>)
    requires { length left.old.items < 10 }
    ensures { left.new.items ≡ (if mask % 2 == 1 then left.old.items else left.old.items ++ id ∷ []) }
{
    if mask % 2 == 0 {
        left.push(id);
    }
}

/// The head of the deleted element, with its next version.
fn marked(wrap: u8, version: u8, head: ElementHead) -> Option<ElementHead>
    ensures { result ≡ marked wrap version head }
{
    let mut head = head;
    if !is_current(head.deleted, head.version, version) {
        return None;
    }
    head.deleted = true;
    head.version = next_version(wrap, head.version);
    head.ids = ArrayVec::new();
    Some(head)
}
