//! Changes of one tuple of a graph where it stands: an element's head, a neighbour tuple, the meta tuple.

ghost use Rattle.std.specs.Prelude.{◌≡◌, ◌<◌, ◌^◌, length};
ghost use Rattle.vec_names.specs.Params.{IsInRange};
ghost use Rattle.page_redo.specs.PageTuples.{head_changed, links_changed, meta_changed};
ghost use Rattle.page_redo.specs.PageChanges.{on_graph, on_meta, linked, relisted, entered, hinted};
ghost use Rattle.byte_fields.specs.Levels.{is_level};
ghost use Rattle.page_redo.specs.OfParts.{IsMade, head_after, delete_element, delete_links};

use crate::head_changes::{HeadChange, head_after, is_current};
use crate::items::{head_at, links_head_at, meta_at};
use crate::page_kinds::{is_graph, is_on_graph, is_on_meta};
use crate::tuple_changes::{put_head, put_meta, put_no_slots, put_slot, put_slots};
use index_sizes::{MOST_BLOCKS, next_version};
use page_bytes::Page;
use vec_names::{Params, Tid};
use vec_tuples::Meta;

// ---- nodes

/// A node that is to be deleted: its places, its version before that, and the one after which a version is 1.
#[derive(Clone, Copy)]
pub struct Deletion {
    pub at: Tid,
    pub list_at: Tid,
    pub version: u8,
    pub wrap: u8,
}

/// The element at an offset gets another head.
pub fn change_head(page: &mut Page, params: &Params, off: u16, change: HeadChange) -> Option<()>
    requires { IsInRange params.now }
    ensures { IsMade (on_graph params.now (head_changed (head_after change) params.now off) page.old) page.old page.new result }
{
    if !is_on_graph(page, params) {
        return None;
    }
    let old = head_at(page, params, off)?;
    let new = head_after(change, old)?;
    put_head(page, off, &new);
    Some(())
}

/// A slot of a list becomes a place.
pub fn link(
    page: &mut Page,
    params: &Params,
    off: u16,
    version: u8,
    slot: u16,
    to: Tid,
) -> Option<()>
    requires { IsInRange params.now }
    ensures { IsMade (on_graph params.now (links_changed (linked version slot to) params.now off) page.old) page.old page.new result }
{
    if !is_on_graph(page, params) {
        return None;
    }
    let head = links_head_at(page, params, off)?;
    if !is_current(head.deleted, head.version, version) || slot >= head.count {
        return None;
    }
    put_slot(page, off, slot, to);
    Some(())
}

/// As many slots take the place of a list's slots.
pub fn relist(
    page: &mut Page,
    params: &Params,
    off: u16,
    version: u8,
    slots: &[Option<Tid>],
) -> Option<()>
    requires { IsInRange params.now }
    ensures { IsMade (on_graph params.now (links_changed (relisted version slots.now) params.now off) page.old) page.old page.new result }
{
    if !is_on_graph(page, params) {
        return None;
    }
    let head = links_head_at(page, params, off)?;
    if !is_current(head.deleted, head.version, version) || slots.len() != usize::from(head.count) {
        return None;
    }
    put_slots(page, off, version, slots);
    Some(())
}

/// The element of a node becomes a deleted one, with its next version.
pub fn mark(page: &mut Page, params: &Params, node: Deletion) -> Option<()>
    requires { IsInRange params.now }
    ensures { IsMade (delete_element params.now node page.old) page.old page.new result }
{
    let change = HeadChange::Deleted {
        version: node.version,
        wrap: node.wrap,
    };
    change_head(page, params, node.at.off, change)
}

/// The list of a node becomes that of a deleted one, with its next version.
pub fn empty(page: &mut Page, params: &Params, node: Deletion) -> Option<()>
    requires { IsInRange params.now }
    ensures { IsMade (delete_links params.now node page.old) page.old page.new result }
{
    if !is_on_graph(page, params) {
        return None;
    }
    let off = node.list_at.off;
    let head = links_head_at(page, params, off)?;
    if !is_current(head.deleted, head.version, node.version) {
        return None;
    }
    put_no_slots(page, off, next_version(node.wrap, head.version), head.count);
    Some(())
}

// ---- the meta tuple

/// The graph has another entry point, or none.
pub fn enter(page: &mut Page, to: Option<Tid>, level: u8) -> Option<()>
    ensures { IsMade (on_meta (meta_changed (entered to level)) page.old) page.old page.new result }
{
    if !is_on_meta(page) {
        return None;
    }
    let meta = meta_at(page)?;
    if !is_graph(meta.params.kind) || !is_level(to, level) {
        return None;
    }
    put_meta(
        page,
        Meta {
            entry: to,
            level,
            ..meta
        },
    );
    Some(())
}

/// Whether this is the level of an entry point, or 0 beside none.
fn is_level(to: Option<Tid>, level: u8) -> bool
    ensures { result ≡ is_level to level }
{
    match to {
        None => level == 0,
        Some(_) => true,
    }
}

/// Room for a node is looked for at another block first.
pub fn hint(page: &mut Page, hint: u32) -> Option<()>
    ensures { IsMade (on_meta (meta_changed (hinted hint)) page.old) page.old page.new result }
{
    if !is_on_meta(page) {
        return None;
    }
    let meta = meta_at(page)?;
    if !is_graph(meta.params.kind) || hint < 1 || hint > MOST_BLOCKS {
        return None;
    }
    put_meta(page, Meta { hint, ..meta });
    Some(())
}
