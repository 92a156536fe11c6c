//! The counts of an index.

ghost use Rattle.std.specs.Prelude.{◌≡◌, ◌≤◌, IfOk, IfErr, OnOk, length};
ghost use Rattle.vec_names.specs.Params.{IsInRange};
ghost use Rattle.vec_names.specs.declared.params.Kind.TheVariants.{Hnsw};
ghost use Rattle.vec_graph.specs.declared.graph.Graph.{Graph};
ghost use Rattle.vec_graph.specs.Effect.{after};
ghost use Rattle.vec_steps.specs.Index.{OfNodes};
ghost use Rattle.vec_steps.specs.Calls.{DoesSo, Goes, Looks};
ghost use Rattle.layer_search.specs.Looking.{EndedBy};
ghost use Rattle.hnsw_insert.specs.Over.{OverGraphs, OverNodes};
ghost use Rattle.script_jobs.specs.Counting.{CountsNodes, HasBlocks, counts_of};

use crate::counting::with_all;
use crate::looking::{look_at_meta, look_at_page};
use script_words::Counts;
use std::alloc::Global;
use vec_steps::{OpFault, Steps, Told};

// The counts of the nodes on so many blocks.
fn count_on<S: Steps>(steps: &mut S, blocks: u32, told: &mut Told) -> Result<Counts, OpFault>
    requires told { length told.old.bits ≡ (S.desk steps.old).params.bits }
    ensures goes { Goes S.desk S.stands S.comes_from (OverGraphs (S.stands steps.old) (HasBlocks (S.seen steps.old) blocks)) steps.old
        steps.new }
    ensures looked { OnOk result (DoesSo Looks (OverGraphs (S.stands steps.old) (HasBlocks (S.seen steps.old) blocks)) (S.desk steps.old)
        (S.seen steps.old) (S.seen steps.new)) }
    ensures exact { IfOk result (λ counts. (g : Graph) → OverGraphs (S.stands steps.old) (HasBlocks (S.seen steps.old) blocks) (OfNodes g)
        → S.seen steps.new ≡ S.seen steps.old → blocks ≡ (after g (S.seen steps.old)).blocks
        → counts ≡ counts_of (after g (S.seen steps.old))) }
    ensures err { IfErr result (EndedBy (OverGraphs (S.stands steps.old) (HasBlocks (S.seen steps.old) blocks)) (S.desk steps.old)
        (S.seen steps.old) (S.seen steps.new)) }
{
    let mut counts = Counts {
        blocks: u64::from(blocks),
        nodes: 0,
        live: 0,
        doomed: 0,
        deleted: 0,
        entries: 0,
    };
    'page: for block in 1..blocks {
        look_at_page(steps, block, told)?;
        counts = with_all(counts, told.nodes.as_slice())?;
    }
    Ok(counts)
}

// The counts of the graph.
fn count_graph<S: Steps>(steps: &mut S, told: &mut Told) -> Result<Counts, OpFault>
    requires told { length told.old.bits ≡ (S.desk steps.old).params.bits }
    ensures goes { Goes S.desk S.stands S.comes_from (OverNodes (S.stands steps.old)) steps.old steps.new }
    ensures ok { IfOk result (CountsNodes (OverNodes (S.stands steps.old)) (S.desk steps.old) (S.seen steps.old) (S.seen steps.new)) }
    ensures err { IfErr result (EndedBy (OverNodes (S.stands steps.old)) (S.desk steps.old) (S.seen steps.old) (S.seen steps.new)) }
{
    look_at_meta(steps, told)?;
    count_on(steps, told.blocks, told)
}

/// Counts the blocks of a graph, its nodes of each kind and its rows, by looks at the meta tuple and at each page. Where no other desk
/// acts meanwhile, these are the counts of the graph as the desk had seen it. It makes no act.
///
/// Its errors are `Memory`, and `Disk` where a step met a fault of the disks, which leaves an act.
pub fn count_nodes<S: Steps>(alloc: Global, steps: &mut S) -> Result<Counts, OpFault>
    requires params { IsInRange (S.desk steps.old).params }
    requires nodes { (S.desk steps.old).params.kind ≡ Hnsw }
    ensures goes { Goes S.desk S.stands S.comes_from (S.stands steps.old) steps.old steps.new }
    ensures ok { IfOk result (CountsNodes (S.stands steps.old) (S.desk steps.old) (S.seen steps.old) (S.seen steps.new)) }
    ensures err { IfErr result (EndedBy (S.stands steps.old) (S.desk steps.old) (S.seen steps.old) (S.seen steps.new)) }
{
    let mut told = Told::make(alloc, steps.params())?;
    count_graph(steps, &mut told)
}
