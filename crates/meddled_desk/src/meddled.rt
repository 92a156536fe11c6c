//! A desk of number 0 at a board where other desks act before each of its steps.

ghost use Rattle.std.specs.Prelude.{◌≡◌, length};
ghost use Rattle.vec_steps.specs.Index.{OfNodes};
ghost use Rattle.vec_steps.specs.Granting.{AgreesAtTake};
ghost use Rattle.vec_board.specs.Standing.{acts_of};
ghost use Rattle.vec_board.specs.Boards.{StandsWhole};
ghost use Rattle.meddled_desk.specs.Meddling.{Meddles};

use crate::ending::end_holds;
use crate::playing::{Judge, play_next};
use crate::serving::serve_own;
use std::alloc::Global;
use vec_board::Board;
use vec_graph::Graph;
use vec_history::{Gate, Hold, may_take};
use vec_names::Params;
use vec_outside::Disks;
use vec_steps::{Ask, StepFault, Steps, Told};

/// A desk for tests, of number 0, at a board of an HNSW index. Before each of its steps the next group of other desks' asks is played.
///
/// An ask of a group is passed over where that desk may not ask it there, where no memory is found to judge that, and where it is
/// refused or would wait for a gate. So each act that is made is legal. Where a gate that this desk asks for is in other hands, further
/// groups are played until it is free; and where they end before that, the holders end their phase and give the gate back. Judging
/// keeps the graph after each act, so it is for short histories.
#[derive(Drop)]
pub struct Meddled<D: Disks> {
    pub(crate) alloc: Global,
    pub(crate) board: Board<D>,
    pub(crate) base: Graph,
    pub(crate) groups: Vec<Vec<(u32, Ask)>>,
    ghost params: { board.core.params ≡ base.params },
}

impl<D: Disks> Meddled<D> {
    /// A desk at a board that stands on this graph, with the groups of others' asks, each ask with its desk's number; the first group
    /// comes before the first step. Asks of number 0 are passed over. It takes no memory.
    pub fn over(
        alloc: Global,
        board: Board<D>,
        base: Graph,
        mut groups: Vec<Vec<(u32, Ask)>>,
    ) -> Meddled<D>
        requires { StandsWhole board.core board.pages.pages.items (D.count board.disks) (OfNodes base) }
        ensures board { result.board ≡ board }
        ensures base { result.base ≡ base }
    {
        groups.reverse();
        Meddled {
            alloc,
            board,
            base,
            groups,
        }
    }

    /// The board, with all that was done there.
    pub fn into_board(self) -> Board<D>
        ensures { result ≡ self.board }
    {
        let Meddled { board, .. } = self;
        board
    }
}

// Plays the next group; and where the desk of number 0 asks for a gate, sees to it that no other desk stands in its way.
fn make_way<D: Disks>(
    judge: &Judge<'_>,
    board: &mut Board<D>,
    groups: &mut Vec<Vec<(u32, Ask)>>,
    ask: &Ask,
    told: &mut Told,
)
    requires { length told.old.bits ≡ board.old.core.params.bits }
    ensures meddles { Meddles judge.now.base.now (D.count board.old.disks) board.old.core board.new.core board.old.pages.pages.items
        board.new.pages.pages.items }
    ensures agrees { StandsWhole board.old.core board.old.pages.pages.items (D.count board.old.disks) (OfNodes judge.now.base.now)
        → AgreesAtTake (acts_of board.new.core) 0 ask.now }
    ensures disks { board.new.disks ≡ board.old.disks }
    ensures bits { length told.new.bits ≡ length told.old.bits }
{
    play_next(judge, board, groups, told);
    let Ask::Take { gate, hold } = ask else {
        return;
    };
    play_until(judge, board, groups, (*gate, *hold), told);
    end_holds(board, *gate, *hold, told);
}

// Plays further groups until the desk of number 0 may take the gate, or they end.
fn play_until<D: Disks>(
    judge: &Judge<'_>,
    board: &mut Board<D>,
    groups: &mut Vec<Vec<(u32, Ask)>>,
    wanted: (Gate, Hold),
    told: &mut Told,
)
    requires { length told.old.bits ≡ board.old.core.params.bits }
    ensures meddles { Meddles judge.now.base.now (D.count board.old.disks) board.old.core board.new.core board.old.pages.pages.items
        board.new.pages.pages.items }
    ensures disks { board.new.disks ≡ board.old.disks }
    ensures bits { length told.new.bits ≡ length told.old.bits }
{
    for _ in 0..groups.len() {
        if may_take(board.acts(), 0, wanted.0, wanted.1) {
            return;
        }
        play_next(judge, board, groups, told);
    }
}

impl<D: Disks> Steps for Meddled<D> {
    ghost use Rattle.vec_board.specs.Standing.{acts_of};
    ghost use Rattle.vec_board.specs.Looking.{desk_of};
    ghost use Rattle.vec_board.specs.Serving.{spare_of};
    ghost use Rattle.meddled_desk.specs.Meddling.{StandsFor, ComesLater, comes_still, comes_on};

    ghost desk = { λ d. desk_of d.board.core 0 };

    ghost seen = { λ d. acts_of d.board.core };

    ghost spare = { λ d. spare_of d.board.core 0 };

    ghost stands = { λ d index. StandsFor d.base d.board.core d.board.pages.pages.items (D.count d.board.disks) index };

    ghost comes_from = { λ new old. ComesLater new.board.core old.board.core };

    fn number(&self) -> u32 {
        0
    }

    fn params(&self) -> Params {
        self.base.params
    }

    fn front(&self) -> u64 {
        self.board.acts().len() as u64
    }

    fn step(&mut self, ask: &mut Ask, told: &mut Told) -> Result<(), StepFault> {
        let judge = Judge {
            alloc: self.alloc,
            base: &self.base,
        };
        make_way(&judge, &mut self.board, &mut self.groups, ask, told);
        serve_own(&mut self.board, ask, told)
    }

    fn settle(&mut self) -> Result<u64, StepFault> {
        self.board.settle(0)
    }

    ghost shaped = { λ d index s. s.stands.stands.shaped };

    ghost index = { λ d index s. s.stands.stands.of_params };

    ghost legal = { λ d index s. s.stands.stands.legal };

    ghost counted = { λ d index s. s.stands.counted };

    ghost comes_itself = { λ d. comes_still d.board.core };

    ghost comes_on = { λ a b c later first. comes_on a.board.core b.board.core c.board.core later first };
}
