//! Some pages of an index, by their blocks.

ghost use Rattle.std.specs.Prelude.{◌≡◌, ◌≢◌, ◌≤◌, ◌+◌, ℕ, None, OnOk, IfErr};
ghost use Rattle.std.specs.Option.{option_copied};
ghost use Rattle.vec_names.specs.Params.{IsInRange};
ghost use Rattle.page_redo.specs.Growing.{fresh_page};
ghost use Rattle.vec_steps.specs.declared.fault.StepFault.TheVariants.{Memory};
ghost use Rattle.page_sets.specs.Sets.{PageMap, IsRedone, IsChangedTo};

use page_bytes::{Page, PageKind};
use page_redo::RedoFault;
use vec_history::Event;
use vec_names::Params;
use vec_steps::StepFault;

/// Some pages of an index, by their blocks. Pages come into it fresh, and change by redo alone.
pub trait PageSet {
    /// The page of each block that it has.
    ghost held: { Self → PageMap };

    /// For how many further pages it has room.
    ghost spare: { Self → ℕ };

    /// It can be given the page of this block next.
    ghost may_add: { Self → ℕ → Type 0 };

    /// The page of a block, where it stands; None if the set does not have it.
    fn page(&self, block: u32) -> Option<&Page>
        ensures { option_copied result ≡ held self.now block };

    /// Does to the page of a block what an event does to it, where it stands, and gives it the event's number. The parameters
    /// are the index's.
    ///
    /// `Unfit` exactly where the set lacks the page, or the event does not fit it; then all pages stay.
    fn redo_on(
        &mut self,
        event: &Event,
        params: &Params,
        number: u64,
        block: u32,
    ) -> Result<(), RedoFault>
        requires { IsInRange params.now }
        ensures done { IsRedone (held self.old) (held self.new) event.now params.now number block result }
        ensures spare { spare self.old ≤ spare self.new }
        ensures next { (next : ℕ) → may_add self.old next → may_add self.new next };

    /// Makes room for so many further pages. The pages stay, and so does the room that there was. It answers want of memory alone.
    fn reserve(&mut self, pages: u32) -> Result<(), StepFault>
        ensures held { (block : ℕ) → held self.new block ≡ held self.old block }
        ensures room { OnOk result (pages ≤ spare self.new) }
        ensures spare { spare self.old ≤ spare self.new }
        ensures next { (next : ℕ) → may_add self.old next → may_add self.new next }
        ensures memory { IfErr result (λ fault. fault ≡ Memory) };

    /// Adds a fresh page of a kind. It takes the room of one page, and no memory.
    fn add(&mut self, block: u32, kind: PageKind)
        requires absent { held self.old block ≡ None }
        requires room { 1 ≤ spare self.old }
        requires next { may_add self.old block }
        ensures added { IsChangedTo (held self.old) (held self.new) block (fresh_page kind) }
        ensures spare { spare self.old ≤ spare self.new + 1 }
        ensures next { may_add self.new (block + 1) };
}
