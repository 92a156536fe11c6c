//! What was read of the centres and along a chain, over an index: laws. A function here does no work.

ghost use Rattle.std.specs.Prelude.{◌≡◌, ℕ, Bool, List, [], length, map, Some, None};
ghost use Rattle.vec_history.specs.declared.event.Act.{Act};
ghost use Rattle.vec_history.specs.Acts.{IsRising};
ghost use Rattle.ivf_graph.specs.declared.graph.IvfGraph.{IvfGraph};
ghost use Rattle.ivf_graph.specs.Effect.{state_after};
ghost use Rattle.ivf_graph.specs.Reads.{Walks, centres_read, firsts};
ghost use Rattle.vec_steps.specs.Index.{OfLists};
ghost use Rattle.ivf_ops.specs.declared.near.Near.{Near as Nears};
ghost use Rattle.ivf_ops.specs.declared.met.Met.{Met as Mets};
ghost use Rattle.ivf_ops.specs.Nearness.{found_of};
ghost use Rattle.ivf_ops.specs.Scanning.{ReadsCentres, nearest_lists};
ghost use Rattle.ivf_ops.specs.Standing.{OverBlock};
ghost use Rattle.ivf_ops.specs.Walking.{WalksOn};

use vec_steps::Steps;

/// A law, and no work. The looks of a call that read the centres have positions that do not fall, from where the desk was to where it
/// came. Over an index of lists on which the desk stood, each look is a read of the history there: the chains of the lists that are
/// nearest by what was told begin where a search of so many probes begins them that has these reads.
pub fn law_centres<S: Steps>(steps: &S)
    ensures rising { (old new : List Act) (reads : List ℕ) (query : List Bool) (count : ℕ) (nears : List Nears)
        → ReadsCentres (S.stands steps.now) (S.desk steps.now) old new [] reads query count nears
        → IsRising (length old) reads (length new) }
    ensures firsts { (old new : List Act) (reads : List ℕ) (query : List Bool) (count probes : ℕ) (nears : List Nears) (g : IvfGraph)
        → S.stands steps.now (OfLists g)
        → ReadsCentres (S.stands steps.now) (S.desk steps.now) old new [] reads query count nears
        → map (λ n. n.first) (nearest_lists probes nears)
        ≡ firsts query probes (centres_read (S.desk steps.now).params.bits 1 (map (state_after g new) reads)) }
{}

/// A law, and no work. The looks of a call that walked along one chain have positions that do not fall. Over an index of lists on which
/// the desk stood, and where the first block has its place, the rows met are those that the definition of a search finds along the chain
/// from there, with these reads.
pub fn law_chain<S: Steps>(steps: &S)
    ensures rising { (old new : List Act) (reads : List ℕ) (query : List Bool) (first : ℕ) (have : List Mets)
        → WalksOn (OverBlock (S.stands steps.now) old (Some first)) (S.desk steps.now) old new [] reads query (Some first) [] None [] have
        → IsRising (length old) reads (length new) }
    ensures walk { (old new : List Act) (reads : List ℕ) (query : List Bool) (first : ℕ) (have : List Mets) (g : IvfGraph)
        → OverBlock (S.stands steps.now) old (Some first) (OfLists g)
        → WalksOn (OverBlock (S.stands steps.now) old (Some first)) (S.desk steps.now) old new [] reads query (Some first) [] None [] have
        → Walks query (map (state_after g new) reads) (Some first) [] (map found_of have) }
{}
