//! All pages of an index, in one list.
#![tactic(auto, using(crate::proofs::PageLists::redone_in, crate::proofs::PageLists::none_there, crate::proofs::PageLists::added_to))]

use crate::page_set::PageSet;
use page_bytes::{Page, PageKind};
use page_redo::{RedoFault, redo};
use vec_history::Event;
use vec_names::Params;
use vec_steps::StepFault;

// The version after which a Mark takes 1.
const LAST_VERSION: u8 = 255;

/// All pages of an index, the page of block 0 first. A page is added behind the last one.
#[derive(Drop)]
pub struct PageList {
    pub pages: Vec<Page>,
}

impl PageSet for PageList {
    ghost use Rattle.std.specs.Prelude.{◌≡◌, ◌-◌, ℕ, slice_get, length, vec_capacity, vec_len};

    ghost held = { λ s block. slice_get s.pages.items block };

    ghost spare = { λ s. vec_capacity s.pages - vec_len s.pages };

    ghost may_add = { λ s block. block ≡ vec_len s.pages };

    fn page(&self, block: u32) -> Option<&Page> {
        self.pages.as_slice().get(block as usize)
    }

    fn redo_on(
        &mut self,
        event: &Event,
        params: &Params,
        number: u64,
        block: u32,
    ) -> Result<(), RedoFault> {
        let at = block as usize;
        if at >= self.pages.as_slice().len() {
            return Err(RedoFault::Unfit);
        }
        redo(
            event,
            params,
            LAST_VERSION,
            number,
            block,
            &mut self.pages[at],
        )
    }

    fn reserve(&mut self, pages: u32) -> Result<(), StepFault> {
        self.pages.reserve(pages as usize)?;
        Ok(())
    }

    fn add(&mut self, _block: u32, kind: PageKind) {
        let _ = self.pages.push(Page::fresh(kind));
    }
}
