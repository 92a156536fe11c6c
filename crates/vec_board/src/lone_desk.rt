//! A desk that is alone at a board.

ghost use Rattle.std.specs.Prelude.{◌≡◌, ◌↔◌, IsTrue};
ghost use Rattle.vec_steps.specs.declared.told.Word.TheVariants.{Busy};
ghost use Rattle.vec_board.specs.Standing.{acts_of};
ghost use Rattle.vec_board.specs.Serving.{IsTake};
ghost use Rattle.vec_board.specs.Boards.{HoldsAlone};

use crate::board::Board;
use crate::changing::not_allowed;
use vec_names::Params;
use vec_outside::Disks;
use vec_steps::{Ask, StepFault, Steps, Told, Word};

/// A desk that is alone at a board: its number is 0, and no other desk acts there.
#[derive(Drop)]
pub struct LoneDesk<D: Disks> {
    pub(crate) board: Board<D>,
    ghost alone: { HoldsAlone (acts_of board.core) 0 },
}

impl<D: Disks> LoneDesk<D> {
    /// The desk at a board where no other desk holds a gate.
    pub fn over(board: Board<D>) -> LoneDesk<D>
        requires { HoldsAlone (acts_of board.core) 0 }
        ensures { result.board ≡ board }
    {
        LoneDesk { board }
    }

    /// The number of the epoch.
    pub fn epoch(&self) -> u64
        ensures { result ≡ self.now.board.core.log.epoch }
    {
        self.board.epoch()
    }

    /// The board, with all that the desk did there.
    pub fn into_board(self) -> Board<D>
        ensures { result ≡ self.board }
    {
        let LoneDesk { board } = self;
        board
    }
}

impl<D: Disks> Steps for LoneDesk<D> {
    ghost use Rattle.vec_board.specs.Standing.{acts_of};
    ghost use Rattle.vec_board.specs.Looking.{desk_of};
    ghost use Rattle.vec_board.specs.Serving.{spare_of};
    ghost use Rattle.vec_board.specs.Boards.{StandsWhole, ComesAlone, comes_still, comes_on};

    ghost desk = { λ d. desk_of d.board.core 0 };

    ghost seen = { λ d. acts_of d.board.core };

    ghost spare = { λ d. spare_of d.board.core 0 };

    ghost stands = { λ d base. StandsWhole d.board.core d.board.pages.pages.items (D.count d.board.disks) base };

    ghost comes_from = { λ new old. ComesAlone 0 new.board.core old.board.core };

    fn number(&self) -> u32 {
        0
    }

    fn params(&self) -> Params {
        self.board.core.params
    }

    fn front(&self) -> u64 {
        self.board.acts().len() as u64
    }

    fn step(&mut self, ask: &mut Ask, told: &mut Told) -> Result<(), StepFault> {
        let take = is_take(ask);
        match self.board.serve(0, ask, told) {
            Ok(()) => {
                if is_busy(take, told.word) {
                    return Err(not_allowed());
                }
                Ok(())
            }
            Err(fault) => Err(fault),
        }
    }

    fn settle(&mut self) -> Result<u64, StepFault> {
        self.board.settle(0)
    }

    ghost shaped = { λ d base s. s.stands.shaped };

    ghost index = { λ d base s. s.stands.of_params };

    ghost legal = { λ d base s. s.stands.legal };

    ghost counted = { λ d base s. s.counted };

    ghost comes_itself = { λ d. comes_still 0 d.board.core };

    ghost comes_on = { λ a b c later first. comes_on 0 a.board.core b.board.core c.board.core later first };
}

fn is_take(ask: &Ask) -> bool
    ensures { IsTrue result ↔ IsTake ask.now }
{
    match ask {
        Ask::Take { .. } => true,
        _ => false,
    }
}

// Whether the word to an ask is that another desk holds the gate.
fn is_busy(take: bool, word: Word) -> bool
    ensures { IsTrue result ↔ (IsTrue take × (word ≡ Busy)) }
{
    match word {
        Word::Busy => take,
        _ => false,
    }
}
