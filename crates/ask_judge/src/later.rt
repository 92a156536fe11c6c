//! What a desk may ask holds on while other desks act: a law. The function here does no work.

ghost use Rattle.std.specs.Prelude.{ℕ, List, []};
ghost use Rattle.vec_history.specs.declared.event.Act.{Act as Acts};
ghost use Rattle.vec_graph.specs.declared.graph.Graph.{Graph};
ghost use Rattle.vec_graph.specs.Shaped.{IsShaped};
ghost use Rattle.vec_graph.specs.Legal.{IsLegal};
ghost use Rattle.vec_steps.specs.declared.ask.Ask.{Ask as Asked};
ghost use Rattle.vec_steps.specs.Desks.{MayAskNodes};
ghost use Rattle.vec_steps.specs.Calls.{Acts as GoesOn};

/// A law, and no work. What a desk may ask of an index of nodes it may still ask when other desks have acted since, whatever they
/// did, in a legal history from a base that pages can hold.
pub fn law_later_ask()
    ensures { (base : Graph) (old new : List Acts) (desk : ℕ) (ask : Asked) → GoesOn desk old new [] → IsShaped base → IsLegal base new
        → MayAskNodes base old desk ask → MayAskNodes base new desk ask }
{}
