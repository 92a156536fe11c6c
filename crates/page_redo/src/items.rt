//! The tuples at the offsets of a page: looked at, and changed where they stand.

ghost use Rattle.std.specs.Prelude.{◌≡◌, Some};
ghost use Rattle.std.specs.Option.{option_map};
ghost use Rattle.vec_names.specs.Params.{IsInRange};
ghost use Rattle.page_bytes.specs.Content.{item_at};
ghost use Rattle.vec_tuples.specs.declared.element.Element.{Element};
ghost use Rattle.vec_tuples.specs.declared.links.Links.{Links};
ghost use Rattle.vec_tuples.specs.declared.centre.CentreTuple.{CentreTuple};
ghost use Rattle.vec_tuples.specs.declared.meta.Meta.{Meta as MetaTuple};
ghost use Rattle.vec_tuples.specs.Spelling.{IsElement, IsLinks, IsMeta, element_bytes, links_bytes, meta_bytes, centre_bytes, IsCentre};
ghost use Rattle.vec_tuples.specs.Spelling.{head_of_element, head_of_centre};
ghost use Rattle.vec_tuples.specs.Reading.{element, links, centre};
ghost use Rattle.page_redo.specs.PageTuples.{links_head};
ghost use Rattle.page_redo.specs.PageTuples.{in_whole, element_at, links_at, centre_at, meta_at};

use page_bytes::Page;
use vec_names::Params;
use vec_tuples::{ElementHead, Meta, centre_head, element_head, links_head, read_meta};

// `_of` says what an item is, and `_at` what stands at an offset of a page.

/// What stands before the slots of a neighbour tuple: whether the node is deleted, its version, and the number of slots.
#[derive(Clone, Copy)]
pub struct LinksHead {
    pub deleted: bool,
    pub version: u8,
    pub count: u16,
}

/// The head of the element at an offset, if one stands there.
pub fn head_at(page: &Page, params: &Params, off: u16) -> Option<ElementHead>
    requires { IsInRange params.now }
    ensures told { result ≡ option_map head_of_element (element_at params.now page.now off) }

    // Its item is the tuple's spelling.
    ensures spelled { (e : Element) → element_at params.now page.now off ≡ Some e → IsElement params.now e
        × (item_at page.now.items off ≡ Some (element_bytes e)) }
{
    match page.item(off) {
        Some(item) => head_of(item, params),
        None => None,
    }
}

/// The head of the element that an item is as a whole.
pub fn head_of(item: &[u8], params: &Params) -> Option<ElementHead>
    requires { IsInRange params.now }
    ensures told { result ≡ option_map head_of_element (in_whole (element params.now item.now)) }
    ensures spelled { (e : Element) → in_whole (element params.now item.now) ≡ Some e → IsElement params.now e
        × (item.now ≡ element_bytes e) }
{
    element_head(item, params)
}

/// The head of the neighbour tuple at an offset, if one stands there.
pub fn links_head_at(page: &Page, params: &Params, off: u16) -> Option<LinksHead>
    requires { IsInRange params.now }
    ensures told { result ≡ option_map links_head (links_at params.now page.now off) }

    // Its item is the tuple's spelling.
    ensures spelled { (l : Links) → links_at params.now page.now off ≡ Some l → IsLinks params.now l
        × (item_at page.now.items off ≡ Some (links_bytes l)) }
{
    match page.item(off) {
        Some(item) => links_head_of(item, params),
        None => None,
    }
}

/// The head of the neighbour tuple that an item is as a whole.
pub fn links_head_of(item: &[u8], params: &Params) -> Option<LinksHead>
    requires { IsInRange params.now }
    ensures told { result ≡ option_map links_head (in_whole (links params.now item.now)) }
    ensures spelled { (l : Links) → in_whole (links params.now item.now) ≡ Some l → IsLinks params.now l × (item.now ≡ links_bytes l) }
{
    match links_head(item, params) {
        Some((deleted, version, count)) => Some(LinksHead {
            deleted,
            version,
            count,
        }),
        None => None,
    }
}

/// The meta tuple of a page, if its first item is one.
pub fn meta_at(page: &Page) -> Option<Meta>
    ensures told { result ≡ meta_at page.now }

    // Its item is the tuple's spelling.
    ensures spelled { (m : MetaTuple) → meta_at page.now ≡ Some m → IsMeta m × (item_at page.now.items 1 ≡ Some (meta_bytes m)) }
{
    match page.item(1) {
        Some(item) => match read_meta(item) {
            Ok(meta) => Some(meta),
            Err(_) => None,
        },
        None => None,
    }
}

/// The first block and the aim of the list tuple at an offset, if one stands there.
pub fn centre_head_at(page: &Page, params: &Params, off: u16) -> Option<(u32, u32)>
    requires { IsInRange params.now }
    ensures told { result ≡ option_map head_of_centre (centre_at params.now page.now off) }

    // Its item is the tuple's spelling.
    ensures spelled { (l : CentreTuple) → centre_at params.now page.now off ≡ Some l → IsCentre params.now l
        × (item_at page.now.items off ≡ Some (centre_bytes l)) }
{
    match page.item(off) {
        Some(item) => centre_head_of(item, params),
        None => None,
    }
}

/// The first block and the aim of the list tuple that an item is as a whole.
fn centre_head_of(item: &[u8], params: &Params) -> Option<(u32, u32)>
    requires { IsInRange params.now }
    ensures told { result ≡ option_map head_of_centre (in_whole (centre params.now item.now)) }
    ensures spelled { (l : CentreTuple) → in_whole (centre params.now item.now) ≡ Some l → IsCentre params.now l
        × (item.now ≡ centre_bytes l) }
{
    centre_head(item, params)
}
