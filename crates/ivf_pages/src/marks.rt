//! The marks of blocks: in which chains each of them stands, of those that were followed so far.

ghost use Rattle.std.specs.Prelude.{◌≡◌, ◌==◌, ℕ, replicate, slice_get, IfOk, if◌then◌else◌};
ghost use Rattle.ivf_pages.specs.Walking.{is_own, is_met, is_new, is_shared, visited, shortened, is_in_one, AreChanged, visited_at, shortened_at};

use std::alloc::{AllocError, Global};
use vec_names::Listed;

/// In which chains a block stands, of those that were followed so far.
#[derive(Clone, Copy)]
pub enum Mark {
    /// In none.
    Nowhere,
    /// In that of this list alone.
    Once { list: u32 },
    /// In that of this list alone, which ends at the block although its page names a next one.
    Short { list: u32 },
    /// In several, and so are all blocks behind it.
    Shared,
}

/// So many marks, of blocks that stand nowhere.
pub fn fresh_marks(alloc: Global, count: usize) -> Result<Listed<Mark>, AllocError>
    ensures { IfOk result (λ marks. marks ≡ replicate count Mark.Nowhere) }
{
    let nowhere = Mark::Nowhere;
    let marks = vec![in alloc; nowhere; count]?;
    Ok(Listed::from_vec(marks))
}

/// Whether the block stands in the chain of this list alone.
pub fn is_met(marks: &Listed<Mark>, list: u32, block: u32) -> bool
    ensures { result ≡ is_met list (slice_get marks.now block) }
{
    match marks.get(block as usize) {
        Some(mark) => is_own(list, *mark),
        None => false,
    }
}

fn is_own(list: u32, mark: Mark) -> bool
    ensures { result ≡ is_own list mark }
{
    match mark {
        Mark::Nowhere => false,
        Mark::Once { list: own } => own == list,
        Mark::Short { list: own } => own == list,
        Mark::Shared => false,
    }
}

/// Whether no chain came by the block.
pub fn is_new(marks: &Listed<Mark>, block: u32) -> bool
    ensures { result ≡ is_new (slice_get marks.now block) }
{
    match marks.get(block as usize) {
        Some(Mark::Nowhere) => true,
        Some(Mark::Once { list: _ }) => false,
        Some(Mark::Short { list: _ }) => false,
        Some(Mark::Shared) => false,
        None => false,
    }
}

/// Whether several chains came by the block.
pub fn is_shared(marks: &Listed<Mark>, block: u32) -> bool
    ensures { result ≡ is_shared (slice_get marks.now block) }
{
    match marks.get(block as usize) {
        Some(Mark::Shared) => true,
        Some(Mark::Nowhere) => false,
        Some(Mark::Once { list: _ }) => false,
        Some(Mark::Short { list: _ }) => false,
        None => false,
    }
}

/// Whether the block stands in just one chain, which does not end there against its page.
pub fn is_in_one(marks: &Listed<Mark>, block: u32) -> bool
    ensures { result ≡ is_in_one (slice_get marks.now block) }
{
    match marks.get(block as usize) {
        Some(Mark::Once { list: _ }) => true,
        Some(Mark::Nowhere) => false,
        Some(Mark::Short { list: _ }) => false,
        Some(Mark::Shared) => false,
        None => false,
    }
}

/// The chain of the list comes by the block.
pub fn visit(marks: &mut Listed<Mark>, list: u32, block: u32)
    ensures { AreChanged (visited_at list block) marks.old marks.new }
{
    let Some(mark) = marks.get(block as usize).copied() else {
        return;
    };
    marks.set(block as usize, visited(list, mark));
}

fn visited(list: u32, mark: Mark) -> Mark
    ensures { result ≡ visited list mark }
{
    match mark {
        Mark::Nowhere => Mark::Once { list },
        Mark::Once { list: _ } => Mark::Shared,
        Mark::Short { list: _ } => Mark::Shared,
        Mark::Shared => Mark::Shared,
    }
}

/// The one chain that came by the block ends there, although its page names a next one.
pub fn shorten(marks: &mut Listed<Mark>, block: u32)
    ensures { AreChanged (shortened_at block) marks.old marks.new }
{
    let Some(mark) = marks.get(block as usize).copied() else {
        return;
    };
    marks.set(block as usize, shortened(mark));
}

fn shortened(mark: Mark) -> Mark
    ensures { result ≡ shortened mark }
{
    match mark {
        Mark::Once { list } => Mark::Short { list },
        Mark::Nowhere => Mark::Nowhere,
        Mark::Short { list } => Mark::Short { list },
        Mark::Shared => Mark::Shared,
    }
}
