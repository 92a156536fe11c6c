//! What is known of an index that was read or made, by its pages.

ghost use Rattle.std.specs.Prelude.{◌≡◌, ◌≤◌, ◌<◌, ◌^◌, ℕ, List, All, IfSome, length, slice_get};
ghost use Rattle.std.specs.Option.{option_and_then};
ghost use Rattle.vec_names.specs.Params.{IsInRange};
ghost use Rattle.page_bytes.specs.Content.{IsPage};
ghost use Rattle.page_redo.specs.PageTuples.{meta_at};
ghost use Rattle.vec_board.specs.Boards.{IsOfMeta};
ghost use Rattle.vec_board.specs.Doomed.{doomed_in};

use crate::doomed::doomed_in;
use crate::summary::Summary;
use index_sizes::MOST_BLOCKS;
use page_bytes::Page;
use page_redo::meta_at;
use vec_names::{Kind, Ops, Params};
use vec_tuples::Meta;

/// The parameters of an index, and what is known of it without its pages. Where block 0 has no meta tuple they are of some
/// index, and nothing is claimed of it.
pub fn known_of(pages: &[Page]) -> (Params, Summary)
    requires { length pages.now ≤ MOST_BLOCKS }
    ensures in_range { IsInRange result.0 }
    ensures pages { All IsPage pages.now }
    ensures as_many { result.1.blocks ≡ length pages.now }
    ensures doomed { result.1.doomed ≡ doomed_in result.0 pages.now }
    ensures few { result.1.doomed ≤ 2 ^ 32 }
    ensures meta { IsOfMeta (option_and_then meta_at (slice_get pages.now 0)) result.0 result.1 }
{
    let blocks = pages.len() as u32;
    match first_meta(pages) {
        Some(meta) => (
            meta.params,
            Summary {
                blocks,
                entry: meta.entry,
                level: meta.level,
                hint: meta.hint,
                doomed: doomed_in(pages, &meta.params),
            },
        ),
        None => {
            let params = some_params();
            (
                params,
                Summary {
                    blocks,
                    entry: None,
                    level: 0,
                    hint: 0,
                    doomed: doomed_in(pages, &params),
                },
            )
        }
    }
}

// The meta tuple of block 0.
fn first_meta(pages: &[Page]) -> Option<Meta>
    ensures told { result ≡ option_and_then meta_at (slice_get pages.now 0) }
    ensures in_range { IfSome result (λ m. IsInRange m.params) }
{
    match pages.first() {
        Some(page) => meta_at(page),
        None => None,
    }
}

fn some_params() -> Params
    ensures { IsInRange result }
{
    Params {
        kind: Kind::Hnsw,
        ops: Ops::Hamming,
        bits: 1,
        m: 2,
        ef: 4,
        lists: 0,
    }
}
