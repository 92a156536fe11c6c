//! Other desks' asks, played at a board.

ghost use Rattle.std.specs.Prelude.{◌≡◌, ◌≢◌, IsTrue, length};
ghost use Rattle.vec_steps.specs.Desks.{MayAskNodes};
ghost use Rattle.meddled_desk.specs.Meddling.{Meddles};

use ask_judge::may_ask;
use graph_judge::{Course, states_of};
use std::alloc::Global;
use vec_board::Board;
use vec_graph::Graph;
use vec_history::Act;
use vec_outside::Disks;
use vec_steps::{Ask, Told};

/// By what others' asks are judged: the graph on which the board stands, and where memory for that is found.
#[derive(Clone, Copy)]
pub(crate) struct Judge<'a> {
    pub(crate) alloc: Global,
    pub(crate) base: &'a Graph,
}

/// Whether this is a desk other than that of number 0, it may ask this after these acts, and memory was found to judge that.
fn may_play(judge: &Judge<'_>, acts: &[Act], desk: u32, ask: &Ask) -> bool
    ensures other { IsTrue result → desk ≢ 0 }
    ensures may { IsTrue result → MayAskNodes judge.now.base.now acts.now desk ask.now }
{
    if desk == 0 {
        return false;
    }
    let Ok(states) = states_of(judge.alloc, judge.base, acts) else {
        return false;
    };
    let course = Course {
        base: judge.base,
        acts,
        states: states.as_slice(),
    };
    may_ask(&course, desk, ask)
}

/// Lets a desk ask this, unless it may not, is the desk of number 0, or no memory is found to judge it. What it is told is not kept.
pub(crate) fn play<D: Disks>(
    judge: &Judge<'_>,
    board: &mut Board<D>,
    desk: u32,
    mut ask: Ask,
    told: &mut Told,
)
    requires { length told.old.bits ≡ board.old.core.params.bits }
    ensures meddles { Meddles judge.now.base.now (D.count board.old.disks) board.old.core board.new.core board.old.pages.pages.items
        board.new.pages.pages.items }
    ensures disks { board.new.disks ≡ board.old.disks }
    ensures bits { length told.new.bits ≡ length told.old.bits }
{
    if !may_play(judge, board.acts(), desk, &ask) {
        return;
    }
    let _ = board.serve(desk, &mut ask, told);
}

/// Plays the next group, which is the last of the list.
pub(crate) fn play_next<D: Disks>(
    judge: &Judge<'_>,
    board: &mut Board<D>,
    groups: &mut Vec<Vec<(u32, Ask)>>,
    told: &mut Told,
)
    requires { length told.old.bits ≡ board.old.core.params.bits }
    ensures meddles { Meddles judge.now.base.now (D.count board.old.disks) board.old.core board.new.core board.old.pages.pages.items
        board.new.pages.pages.items }
    ensures disks { board.new.disks ≡ board.old.disks }
    ensures bits { length told.new.bits ≡ length told.old.bits }
{
    let Some(group) = groups.pop() else {
        return;
    };
    play_group(judge, board, group, told);
}

fn play_group<D: Disks>(
    judge: &Judge<'_>,
    board: &mut Board<D>,
    group: Vec<(u32, Ask)>,
    told: &mut Told,
)
    requires { length told.old.bits ≡ board.old.core.params.bits }
    ensures meddles { Meddles judge.now.base.now (D.count board.old.disks) board.old.core board.new.core board.old.pages.pages.items
        board.new.pages.pages.items }
    ensures disks { board.new.disks ≡ board.old.disks }
    ensures bits { length told.new.bits ≡ length told.old.bits }
{
    for (desk, ask) in group {
        play(judge, board, desk, ask, told);
    }
}
