//! What a chain looks at of each page, beside one another: whether the block has entries, and the block behind it.

ghost use Rattle.std.specs.Prelude.{◌≡◌, IfOk, map, slice_get};
ghost use Rattle.ivf_pages.specs.Walking.{link_of, linked, leads, behind};

use page_bytes::Page;
use page_redo::holds_entries;
use std::alloc::{AllocError, Global};
use vec_names::Listed;

/// What a chain finds at a block.
#[derive(Clone, Copy)]
pub enum Link {
    /// No entries, so that it can't go on there.
    Away,
    /// Entries, and no next block.
    Last,
    /// Entries, and the number of the next block, which may not be there.
    To { block: u32 },
}

/// The links of all pages, each of which is looked at once.
pub fn links_of(alloc: Global, pages: &[Page]) -> Result<Listed<Link>, AllocError>
    ensures { IfOk result (λ links. links ≡ map link_of pages.now) }
{
    let mut links = Listed::new(alloc);
    for page in pages {
        links.push(link_of(page))?;
    }
    Ok(links)
}

fn link_of(page: &Page) -> Link
    ensures { result ≡ link_of page.now }
{
    if holds_entries(page) {
        linked(page.next())
    } else {
        Link::Away
    }
}

fn linked(next: Option<u32>) -> Link
    ensures { result ≡ linked next }
{
    match next {
        Some(block) => Link::To { block },
        None => Link::Last,
    }
}

/// Whether a chain can go on at the block, where it has not met it before.
pub fn leads(links: &Listed<Link>, block: u32) -> bool
    ensures { result ≡ leads (slice_get links.now block) }
{
    match links.get(block as usize) {
        Some(Link::Away) => false,
        Some(Link::Last) => true,
        Some(Link::To { block: _ }) => true,
        None => false,
    }
}

/// The block behind a block of a chain.
pub fn behind(links: &Listed<Link>, block: u32) -> Option<u32>
    ensures { result ≡ behind (slice_get links.now block) }
{
    match links.get(block as usize) {
        Some(Link::To { block: next }) => Some(*next),
        Some(Link::Away) => None,
        Some(Link::Last) => None,
        None => None,
    }
}
