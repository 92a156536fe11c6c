//! Looks of desks, answered from the summary and from pages.

ghost use Rattle.std.specs.Prelude.{◌≡◌, length, OnOk, IfErr};
ghost use Rattle.vec_steps.specs.declared.fault.StepFault.TheVariants.{Memory};
ghost use Rattle.vec_steps.specs.Desks.{Asks, WantsMemory};
ghost use Rattle.vec_steps.specs.Calls.{Stepped};
ghost use Rattle.vec_board.specs.Standing.{acts_of};
ghost use Rattle.vec_board.specs.Looking.{IsLook, StandsBeside, TellsMeta, desk_of};

use crate::board_core::Core;
use page_sets::{PageSet, look};
use std::alloc::Global;
use vec_steps::{Ask, StepFault, Told, Word};

impl Core {
    /// Answers a look of a desk: at the entry point, a node, the slots of one, the nodes of a page, or the centres or rows of a
    /// block. The set has the page that is looked at; the position is behind all acts. Any other ask is told nothing.
    ///
    /// It is refused for want of memory alone; looks at the entry point, a node and slots need none.
    pub fn look<P: PageSet>(
        &self,
        alloc: Global,
        desk: u32,
        pages: &P,
        ask: &Ask,
        told: &mut Told,
    ) -> Result<(), StepFault>
        requires { length told.old.bits ≡ self.now.params.bits }
        ensures ok { IsLook ask.now → OnOk result (Stepped
            (Asks (StandsBeside self.now (P.held pages.now) ask.now) (desk_of self.now desk) (acts_of self.now) ask.now)
            (desk_of self.now desk) (acts_of self.now) (acts_of self.now) ask.now ask.now told.new) }
        ensures memory { IfErr result (λ fault. (fault ≡ Memory) × WantsMemory 0 ask.now) }
        ensures bits { length told.new.bits ≡ length told.old.bits }
    {
        told.at = self.history.acts().len() as u64;
        match ask {
            Ask::Meta => {
                self.tell_meta(told);
                Ok(())
            }
            _ => look(alloc, &self.params, pages, ask, told),
        }
    }

    // The entry point, its level, the hint and the number of blocks.
    fn tell_meta(&self, told: &mut Told)
        ensures { TellsMeta self.now.summary told.old told.new }
    {
        told.word = Word::Meta;
        told.tid = self.summary.entry;
        told.level = self.summary.level;
        told.hint = self.summary.hint;
        told.blocks = self.summary.blocks;
    }
}
