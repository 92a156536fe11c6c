//! The pages of an HNSW index without nodes.

ghost use Rattle.std.specs.Prelude.{◌≡◌, [], ◌∷◌, None, IfOk, length};
ghost use Rattle.vec_names.specs.Params.{IsInRange};
ghost use Rattle.vec_names.specs.declared.params.Kind.TheVariants.{Hnsw};
ghost use Rattle.page_bytes.specs.declared.kind.PageKind.TheVariants.{Meta as OfMeta};
ghost use Rattle.vec_tuples.specs.Spelling.{meta_bytes};
ghost use Rattle.graph_pages.specs.Standing.{Stands};
ghost use Rattle.empty_index.specs.Empty.{empty_graph};

use page_bytes::{Page, PageKind};
use std::alloc::{AllocError, Global};
use vec_names::Params;
use vec_tuples::{Meta, fill_meta};

// The page of block 0: the meta tuple, of format 2, of an index without an entry point.
fn meta_page(params: Params) -> Page
    requires params { IsInRange params }
    requires nodes { params.kind ≡ Hnsw }
    ensures { result ≡ record {
      kind = OfMeta;
      next = None;
      number = 0;
      items = meta_bytes (record {
        format = 2;
        params = params;
        entry = None;
        level = 0;
        hint = 1;
      }) ∷ [];
    } }
{
    let meta = Meta {
        format: 2,
        params,
        entry: None,
        level: 0,
        hint: 1,
    };
    let mut bytes = [0u8; 32];
    fill_meta(&meta, &mut bytes);
    let mut page = Page::fresh(PageKind::Meta);
    page.add_item(&bytes);
    page
}

/// The pages of an HNSW index with these parameters and without nodes: that of block 0 alone, with the number 0. Its only error is want
/// of memory.
pub fn empty_index(alloc: Global, params: Params) -> Result<Vec<Page>, AllocError>
    requires params { IsInRange params }
    requires nodes { params.kind ≡ Hnsw }
    ensures stand { IfOk result (λ pages. Stands pages.items (empty_graph params)) }
    ensures one { IfOk result (λ pages. length pages.items ≡ 1) }
{
    let mut pages = Vec::new(alloc);
    pages.push(meta_page(params))?;
    Ok(pages)
}
