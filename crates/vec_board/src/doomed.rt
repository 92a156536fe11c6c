//! How many doomed nodes the pages of a graph have.

ghost use Rattle.std.specs.Prelude.{◌≡◌, ◌≤◌, ◌^◌, ℕ, List, All, Some, length};
ghost use Rattle.std.specs.Option.{option_and_then};
ghost use Rattle.vec_names.specs.Params.{IsInRange};
ghost use Rattle.page_bytes.specs.Content.{IsPage, item_at};
ghost use Rattle.vec_board.specs.Doomed.{doomed_item, doomed_on, doomed_in};

use index_sizes::MOST_BLOCKS;
use page_bytes::Page;
use page_redo::head_of;
use vec_names::Params;

/// How many elements of these pages are not deleted and have no rows; each page is one that has bytes.
pub fn doomed_in(pages: &[Page], params: &Params) -> u64
    requires few { length pages.now ≤ MOST_BLOCKS }
    requires range { IsInRange params.now }
    ensures told { result ≡ doomed_in params.now pages.now }
    ensures pages { All IsPage pages.now }
    ensures low { result ≤ 2 ^ 32 }
{
    let mut sum = 0;
    for page in pages {
        sum += doomed_on(page, params);
    }
    sum
}

fn doomed_on(page: &Page, params: &Params) -> u64
    requires { IsInRange params.now }
    ensures told { result ≡ doomed_on params.now page.now }
    ensures page { IsPage page.now }
    ensures low { result ≤ 65535 }
{
    let _ = page.bytes();
    let mut sum = 0;
    for before in 0..page.count() {
        sum += doomed_at(page, before + 1, params);
    }
    sum
}

fn doomed_at(page: &Page, off: u16, params: &Params) -> u64
    requires { IsInRange params.now }
    ensures told { (x : List ℕ) → item_at page.now.items off ≡ Some x → result ≡ doomed_item params.now x }
    ensures low { result ≤ 1 }
{
    match page.item(off) {
        Some(item) => doomed_item(item, params),
        None => 0,
    }
}

fn doomed_item(item: &[u8], params: &Params) -> u64
    requires { IsInRange params.now }
    ensures told { result ≡ doomed_item params.now item.now }
    ensures low { result ≤ 1 }
{
    let Some(head) = head_of(item, params) else {
        return 0;
    };
    if head.deleted || head.ids.len() > 0 {
        return 0;
    }
    1
}
