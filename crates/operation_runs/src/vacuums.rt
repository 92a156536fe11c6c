//! A desk after a vacuum, and what the judge says of its acts.

ghost use Rattle.std.specs.Prelude.{IfOk};
ghost use Rattle.vec_steps.specs.Calls.{HoldsNone};
ghost use Rattle.vec_board.specs.Standing.{acts_of};

use graph_judge::audit_hnsw;
use std::alloc::Global;
use std::test::Fail;
use vec_board::LoneDesk;
use vec_graph::Graph;
use vec_names::{Mapped, Params};
use vec_outside::MemDisks;
use worked_rows::none_held;

/// The same desk, after a look at its acts: it holds no gate.
pub fn at_rest(desk: LoneDesk<MemDisks>) -> Result<LoneDesk<MemDisks>, Fail>
    ensures { IfOk result (λ desk. HoldsNone (acts_of desk.board.core) 0) }
{
    let board = desk.into_board();
    if !none_held(board.acts()) {
        return Err(Fail::new("a desk without a gate"));
    }
    Ok(LoneDesk::over(board))
}

/// By the judge the acts of the desk are legal over the graph without nodes with these parameters.
pub fn judged(alloc: Global, params: Params, desk: LoneDesk<MemDisks>) -> Result<(), Fail> {
    let base = Graph {
        params,
        nodes: Mapped::new(alloc),
        entry: None,
        level: 0,
        hint: 1,
        blocks: 1,
    };
    let board = desk.into_board();
    Ok(audit_hnsw(alloc, &base, board.acts())?)
}
