//! Changes of one tuple where it stands on a page.

ghost use Rattle.std.specs.Prelude.{◌≡◌, ◌<◌, ◌≤◌, ◌+◌, ◌*◌, ◌^◌, ◌/◌, length, slice_set, replicate, Some, None, IsSomeAnd, true, false};
ghost use Rattle.vec_names.specs.declared.tid.Tid.{Tid as Tids};
ghost use Rattle.page_bytes.specs.Content.{item_at};
ghost use Rattle.vec_tuples.specs.declared.element.Element.{Element};
ghost use Rattle.vec_tuples.specs.declared.links.Links.{Links};
ghost use Rattle.vec_tuples.specs.declared.centre.CentreTuple.{CentreTuple};
ghost use Rattle.vec_tuples.specs.declared.meta.Meta.{Meta as MetaTuple};
ghost use Rattle.vec_tuples.specs.Spelling.{IsMeta, element_bytes, element_with, links_bytes, meta_bytes, centre_bytes, centre_with, links_with};
ghost use Rattle.page_redo.specs.PageTuples.{with_item, with_head};

use bit_code::Bits;
use index_sizes::MOST_SLOTS;
use page_bytes::{ItemChange, Page};
use vec_names::Tid;
use vec_tuples::{
    ElementHead, Meta, fill_element, fill_links, fill_meta, set_aim, set_head, set_slot,
};

/// An element gets this head.
#[derive(Drop)]
struct NewHead<'a> {
    head: &'a ElementHead,
}

impl ItemChange for NewHead<'_> {
    ghost use Rattle.std.specs.Prelude.{◌≡◌, ◌≤◌, length};
    ghost use Rattle.vec_tuples.specs.declared.element.Element.{Element};
    ghost use Rattle.vec_tuples.specs.Spelling.{element_bytes};
    ghost use Rattle.page_redo.specs.PageTuples.{with_head};

    ghost fits = { λ change old. 80 ≤ length old };

    ghost makes = { λ change old new. (e : Element) → old ≡ element_bytes e → new ≡ element_bytes (with_head change.head.now e) };

    fn change(&self, item: &mut [u8]) {
        set_head(item, self.head);
    }
}

/// A slot of a neighbour tuple becomes this place.
#[derive(Drop)]
struct NewSlot {
    slot: u16,
    to: Tid,
}

impl ItemChange for NewSlot {
    ghost use Rattle.std.specs.Prelude.{◌≡◌, ◌≤◌, ◌+◌, ◌*◌, length, slice_set, Some};
    ghost use Rattle.vec_tuples.specs.declared.links.Links.{Links};
    ghost use Rattle.vec_tuples.specs.Spelling.{links_bytes, links_with};

    ghost fits = { λ change old. 6 * change.slot + 10 ≤ length old };

    ghost makes = { λ change old new. (l : Links) → old ≡ links_bytes l
        → new ≡ links_bytes (links_with l.deleted l.version (slice_set l.tids change.slot (Some change.to))) };

    fn change(&self, item: &mut [u8]) {
        set_slot(item, self.slot, Some(self.to));
    }
}

/// A neighbour tuple gets these slots, as many as it has.
#[derive(Drop)]
struct NewSlots<'a> {
    version: u8,
    tids: &'a [Option<Tid>],
}

impl ItemChange for NewSlots<'_> {
    ghost use Rattle.std.specs.Prelude.{◌≡◌, ◌<◌, ◌+◌, ◌*◌, ◌^◌, length, false};
    ghost use Rattle.vec_tuples.specs.Spelling.{links_bytes, links_with};

    ghost fits = { λ change old. (length change.tids.now < 2 ^ 16) × (length old ≡ 4 + 6 * length change.tids.now) };

    ghost makes = { λ change old new. new ≡ links_bytes (links_with false change.version change.tids.now) };

    fn change(&self, item: &mut [u8]) {
        fill_links(false, self.version, self.tids, item);
    }
}

/// A neighbour tuple becomes that of a deleted element, with as many slots, none of which names a place.
#[derive(Drop)]
struct NoSlots {
    version: u8,
    count: u16,
}

impl ItemChange for NoSlots {
    ghost use Rattle.index_sizes.specs.declared.limits.TheConstants.{MOST_SLOTS};
    ghost use Rattle.std.specs.Prelude.{◌≡◌, ◌≤◌, ◌+◌, ◌*◌, length, true, replicate, None};
    ghost use Rattle.vec_tuples.specs.Spelling.{links_bytes, links_with};

    ghost fits = { λ change old. (change.count ≤ MOST_SLOTS) × (length old ≡ 4 + 6 * change.count) };

    ghost makes = { λ change old new. new ≡ links_bytes (links_with true change.version (replicate change.count None)) };

    fn change(&self, item: &mut [u8]) {
        let none = [None; MOST_SLOTS];
        fill_links(true, self.version, &none[..self.count as usize], item);
    }
}

/// A tuple becomes the element of this head and this value.
#[derive(Drop)]
struct NewElement<'a> {
    head: &'a ElementHead,
    bits: &'a Bits,
}

impl ItemChange for NewElement<'_> {
    ghost use Rattle.std.specs.Prelude.{◌≡◌, ◌+◌, ◌/◌, length};
    ghost use Rattle.vec_tuples.specs.Spelling.{element_bytes, element_with};

    ghost fits = { λ change old. length old ≡ 80 + (length change.bits.now + 7) / 8 };

    ghost makes = { λ change old new. new ≡ element_bytes (element_with change.head.now change.bits.now) };

    fn change(&self, item: &mut [u8]) {
        fill_element(self.head, self.bits, item);
    }
}

/// A meta tuple becomes this one.
#[derive(Drop)]
struct NewMeta {
    meta: Meta,
}

impl ItemChange for NewMeta {
    ghost use Rattle.std.specs.Prelude.{◌≡◌, length};
    ghost use Rattle.vec_tuples.specs.Spelling.{IsMeta, meta_bytes};

    ghost fits = { λ change old. IsMeta change.meta × (length old ≡ 32) };

    ghost makes = { λ change old new. new ≡ meta_bytes change.meta };

    fn change(&self, item: &mut [u8]) {
        fill_meta(&self.meta, item);
    }
}

/// A list looks for room at this block.
#[derive(Drop)]
struct NewAim {
    aim: u32,
}

impl ItemChange for NewAim {
    ghost use Rattle.std.specs.Prelude.{◌≡◌, ◌≤◌, length};
    ghost use Rattle.vec_tuples.specs.declared.centre.CentreTuple.{CentreTuple};
    ghost use Rattle.vec_tuples.specs.Spelling.{centre_bytes, centre_with};

    ghost fits = { λ change old. 8 ≤ length old };

    ghost makes = { λ change old new. (c : CentreTuple) → old ≡ centre_bytes c
        → new ≡ centre_bytes (centre_with c.first change.aim c.bits) };

    fn change(&self, item: &mut [u8]) {
        set_aim(item, self.aim);
    }
}

/// Gives the element at an offset another head, and clears its value where the head is deleted.
pub fn put_head(page: &mut Page, off: u16, head: &ElementHead)
    requires { (e : Element) × (item_at page.old.items off ≡ Some (element_bytes e)) }
    ensures { (e : Element) → item_at page.old.items off ≡ Some (element_bytes e)
        → page.new ≡ with_item page.old off (element_bytes (with_head head.now e)) }
{
    page.change_item(off, &NewHead { head });
}

/// Puts a place into a slot of the neighbour tuple at an offset.
pub fn put_slot(page: &mut Page, off: u16, slot: u16, to: Tid)
    requires { (l : Links) × (item_at page.old.items off ≡ Some (links_bytes l)) × slot < length l.tids }
    ensures { (l : Links) → item_at page.old.items off ≡ Some (links_bytes l)
        → page.new ≡ with_item page.old off (links_bytes (links_with l.deleted l.version (slice_set l.tids slot (Some to)))) }
{
    page.change_item(off, &NewSlot { slot, to });
}

/// Puts an element over an item that is as long.
pub fn put_element_over(page: &mut Page, off: u16, head: &ElementHead, bits: &Bits)
    requires { IsSomeAnd (item_at page.old.items off) (λ x. length x ≡ 80 + (length bits.now + 7) / 8) }
    ensures { page.new ≡ with_item page.old off (element_bytes (element_with head.now bits.now)) }
{
    page.change_item(off, &NewElement { head, bits });
}

/// Puts the list of a node that is not deleted over an item that is as long.
pub fn put_links_over(page: &mut Page, off: u16, version: u8, tids: &[Option<Tid>])
    requires long { IsSomeAnd (item_at page.old.items off) (λ x. length x ≡ 4 + 6 * length tids.now) }
    requires few { length tids.now < 2 ^ 16 }
    ensures { page.new ≡ with_item page.old off (links_bytes (links_with false version tids.now)) }
{
    page.change_item(off, &NewSlots { version, tids });
}

/// Gives the neighbour tuple at an offset, which is not deleted, a version and as many slots as it has.
pub fn put_slots(page: &mut Page, off: u16, version: u8, tids: &[Option<Tid>])
    requires { (l : Links) × (item_at page.old.items off ≡ Some (links_bytes l)) × (length l.tids ≡ length tids.now)
        × length tids.now < 2 ^ 16 }
    ensures { page.new ≡ with_item page.old off (links_bytes (links_with false version tids.now)) }
{
    page.change_item(off, &NewSlots { version, tids });
}

/// Makes the neighbour tuple at an offset that of a deleted element of this version, with as many slots.
pub fn put_no_slots(page: &mut Page, off: u16, version: u8, count: u16)
    requires there { (l : Links) × (item_at page.old.items off ≡ Some (links_bytes l)) × (length l.tids ≡ count) }
    requires few { count ≤ MOST_SLOTS }
    ensures { page.new ≡ with_item page.old off (links_bytes (links_with true version (replicate count None))) }
{
    page.change_item(off, &NoSlots { version, count });
}

/// Puts a meta tuple over that of a page.
pub fn put_meta(page: &mut Page, meta: Meta)
    requires there { (m : MetaTuple) × (item_at page.old.items 1 ≡ Some (meta_bytes m)) }
    requires meta { IsMeta meta }
    ensures { page.new ≡ with_item page.old 1 (meta_bytes meta) }
{
    page.change_item(1, &NewMeta { meta });
}

/// Gives the list tuple at an offset another aim.
pub fn put_aim(page: &mut Page, off: u16, aim: u32)
    requires { (c : CentreTuple) × (item_at page.old.items off ≡ Some (centre_bytes c)) }
    ensures { (c : CentreTuple) → item_at page.old.items off ≡ Some (centre_bytes c)
        → page.new ≡ with_item page.old off (centre_bytes (centre_with c.first aim c.bits)) }
{
    page.change_item(off, &NewAim { aim });
}
