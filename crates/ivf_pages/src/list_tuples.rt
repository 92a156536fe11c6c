//! The meta tuple of an index of lists, and the tuples of its lists.

ghost use Rattle.std.specs.Prelude.{◌≡◌, ℕ, ◌<◌, ◌^◌, IfOk, IfSome, slice_get};
ghost use Rattle.std.specs.Option.{option_map};
ghost use Rattle.vec_names.specs.Params.{IsInRange};
ghost use Rattle.vec_tuples.specs.Reading.{centre};
ghost use Rattle.vec_tuples.specs.Spelling.{head_of_centre};
ghost use Rattle.page_redo.specs.PageTuples.{in_whole, centre_at};
ghost use Rattle.ivf_pages.specs.Standing.{of_lists, params_on, params_in, centre_in};
ghost use Rattle.ivf_pages.specs.Walking.{AreFirstTuples};

use page_bytes::Page;
use page_redo::{centre_head_at, is_graph, is_on_meta, list_block, list_offset, meta_at};
use std::alloc::{AllocError, Global};
use vec_names::{Listed, Params};
use vec_tuples::{CentreTuple, Meta, TupleFault, read_centre};

// ---- block 0

/// The parameters of block 0, where that page holds the meta tuple of an index of lists and nothing else.
pub fn params_in(pages: &[Page]) -> Option<Params>
    ensures told { result ≡ params_in pages.now }
    ensures in_range { IfSome result IsInRange }
{
    match pages.get(0) {
        Some(page) => params_on(page),
        None => None,
    }
}

fn params_on(page: &Page) -> Option<Params>
    ensures told { result ≡ params_on page.now }
    ensures in_range { IfSome result IsInRange }
{
    if !is_on_meta(page) || page.count() != 1 {
        return None;
    }
    match meta_at(page) {
        Some(meta) => of_lists(meta),
        None => None,
    }
}

fn of_lists(meta: Meta) -> Option<Params>
    ensures told { result ≡ of_lists meta }
    ensures same { IfSome result (λ p. p ≡ meta.params) }
{
    if is_graph(meta.params.kind) {
        None
    } else {
        Some(meta.params)
    }
}

// ---- list tuples

/// The tuples of the first lists, up to one that has none.
pub fn first_tuples(
    alloc: Global,
    pages: &[Page],
    params: &Params,
) -> Result<Listed<CentreTuple>, AllocError>
    requires { IsInRange params.now }
    ensures { IfOk result (AreFirstTuples params.now pages.now) }
{
    let mut tuples = Listed::new(alloc);
    for list in 0..params.lists {
        let Some(tuple) = tuple_of(alloc, pages, params, list)? else {
            return Ok(tuples);
        };
        tuples.push(tuple)?;
    }
    Ok(tuples)
}

/// The tuple of a list, if it stands at its place.
fn tuple_of(
    alloc: Global,
    pages: &[Page],
    params: &Params,
    list: u32,
) -> Result<Option<CentreTuple>, AllocError>
    requires { IsInRange params.now }
    ensures { IfOk result (λ tuple. tuple ≡ centre_in params.now pages.now list) }
{
    match pages.get(list_block(params, list) as usize) {
        Some(page) => tuple_at(alloc, page, params, list_offset(params, list)),
        None => Ok(None),
    }
}

fn tuple_at(
    alloc: Global,
    page: &Page,
    params: &Params,
    off: u16,
) -> Result<Option<CentreTuple>, AllocError>
    requires { IsInRange params.now }
    ensures { IfOk result (λ tuple. tuple ≡ centre_at params.now page.now off) }
{
    match page.item(off) {
        Some(item) => tuple_in(alloc, item, params),
        None => Ok(None),
    }
}

/// The list tuple that an item is as a whole, if it is one.
fn tuple_in(alloc: Global, item: &[u8], params: &Params) -> Result<Option<CentreTuple>, AllocError>
    requires { IsInRange params.now }
    ensures { IfOk result (λ tuple. tuple ≡ in_whole (centre params.now item.now)) }
{
    match read_centre(alloc, item, params) {
        Ok(tuple) => Ok(Some(tuple)),
        Err(TupleFault::Memory) => Err(AllocError),
        Err(TupleFault::Bad { .. }) => Ok(None),
    }
}

/// The first block and the aim of a list, if its tuple stands at its place. It takes no memory.
pub fn head_of(pages: &[Page], params: &Params, list: u32) -> Option<(u32, u32)>
    requires { IsInRange params.now }
    ensures { result ≡ option_map head_of_centre (centre_in params.now pages.now list) }
{
    match pages.get(list_block(params, list) as usize) {
        Some(page) => centre_head_at(page, params, list_offset(params, list)),
        None => None,
    }
}
