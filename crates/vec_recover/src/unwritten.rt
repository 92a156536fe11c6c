//! The blocks whose pages the page area may lack.

ghost use Rattle.std.specs.Prelude.{◌≡◌, ◌≤◌, ◌<◌, ◌⊎◌, ◌↔◌, ℕ, List, All, Contains, IfOk, IsTrue, length, slice_get, true};
ghost use Rattle.vec_names.specs.Params.{IsInRange};
ghost use Rattle.page_bytes.specs.Content.{Content};
ghost use Rattle.page_redo.specs.Redo.{touched};
ghost use Rattle.vec_recover.specs.Recovering.{IsImaged, IsTouchedBy};
ghost use Rattle.vec_recover.specs.Parts.{AreMarked, AreMarkedMore, AreUpTo, IsMarked};

use crate::redoing::touched_by;
use index_sizes::MOST_BLOCKS;
use page_bytes::Page;
use std::alloc::{AllocError, Global};
use vec_history::Event;
use vec_names::Params;

/// A mark for each block that an index may have.
#[derive(Drop)]
pub(crate) struct Marks {
    marks: Vec<bool>,
}

impl Marks {
    /// The blocks of these images are marked.
    pub(crate) fn of_images(alloc: Global, images: &[(u32, Page)]) -> Result<Marks, AllocError>
        ensures { IfOk result (λ m. AreMarked m.marks.items (IsImaged images.now)) }
    {
        let mut marks = no_marks(alloc, MOST_BLOCKS as usize)?;
        for image in images {
            mark(&mut marks, u64::from(image.0));
        }
        Ok(Marks { marks })
    }

    /// Marks the blocks that these events touch.
    pub(crate) fn add_events(&mut self, events: &[(u64, Event)], params: &Params)
        requires { IsInRange params.now }
        ensures { (images : List (ℕ × Content)) → AreMarked self.old.marks.items (IsImaged images)
            → AreMarked self.new.marks.items (λ block. IsImaged images block ⊎ IsTouchedBy params.now events.now block) }
    {
        for placed in events {
            mark_event(&mut self.marks, &placed.1, params);
        }
    }

    /// The marked ones among so many blocks, rising.
    pub(crate) fn among(&self, alloc: Global, blocks: u32) -> Result<Vec<u32>, AllocError>
        ensures told { IfOk result (λ list. AreUpTo self.now.marks.items blocks list.items) }
        ensures there { IfOk result (λ list. All (λ block. block < blocks) list.items) }
    {
        let mut list = Vec::new(alloc);
        for block in 0..blocks {
            if is_marked(self.marks.as_slice(), block) {
                list.push(block)?;
            }
        }
        Ok(list)
    }
}

fn no_marks(alloc: Global, count: usize) -> Result<Vec<bool>, AllocError>
    ensures { IfOk result (λ marks. (length marks.items ≡ count) × ((block : ℕ) → IsMarked marks.items block → ⊥)) }
{
    vec![in alloc; false; count]
}

// Whether the block is marked.
fn is_marked(marks: &[bool], block: u32) -> bool
    ensures { IsTrue result ↔ IsMarked marks.now block }
{
    match marks.get(block as usize) {
        Some(mark) => *mark,
        None => false,
    }
}

// Marks a block, where it is one that an index may have.
fn mark(marks: &mut Vec<bool>, block: u64)
    ensures { AreMarkedMore marks.old.items marks.new.items (λ b. b ≡ block) }
{
    if block < marks.len() as u64 {
        marks[block as usize] = true;
    }
}

// Marks the blocks that an event touches.
fn mark_event(marks: &mut Vec<bool>, event: &Event, params: &Params)
    requires { IsInRange params.now }
    ensures { AreMarkedMore marks.old.items marks.new.items (Contains (touched event.now params.now)) }
{
    match touched_by(event, params) {
        Some((first, other)) => {
            mark(marks, first);
            mark(marks, other);
        }
        None => {}
    }
}
