//! A history with the graphs that it goes through.

ghost use Rattle.std.specs.Prelude.{◌≡◌};
ghost use Rattle.graph_judge.specs.Course.{AreStates};

use vec_graph::Graph;
use vec_history::Act;

/// Acts after a base, with the graph before any of them and that after each, as `states_of` makes them.
#[derive(Clone, Copy)]
pub struct Course<'a> {
    pub base: &'a Graph,
    pub acts: &'a [Act],
    pub states: &'a [Graph],
    pub ghost are_states: { AreStates base.now acts.now states.now },
}

impl<'a> Course<'a> {
    ghost use Rattle.vec_graph.specs.Effect.{after};

    /// The graph after all the acts.
    pub fn last(&self) -> &'a Graph
        ensures { result.now ≡ after self.now.base.now self.now.acts.now }
    {
        &self.states[self.acts.len()]
    }
}
