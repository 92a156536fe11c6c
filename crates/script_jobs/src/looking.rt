// Looks at the meta tuple and at pages.
ghost use Rattle.std.specs.Prelude.{◌≡◌, ◌<◌, ◌≤◌, OnOk, IfErr, length, map};
ghost use Rattle.vec_graph.specs.declared.graph.Graph.{Graph};
ghost use Rattle.vec_graph.specs.Effect.{after};
ghost use Rattle.graph_search.specs.Reads.{nodes_on};
ghost use Rattle.vec_steps.specs.Index.{Index, OfNodes};
ghost use Rattle.vec_steps.specs.Telling.{seen_told};
ghost use Rattle.vec_steps.specs.Calls.{DoesSo, Goes, Looks};
ghost use Rattle.layer_search.specs.Looking.{EndedBy};
ghost use Rattle.hnsw_insert.specs.Over.{OverGraphs, OverNodes};
ghost use Rattle.script_jobs.specs.Counting.{HasBlocks};

use vec_steps::{Ask, OpFault, Steps, Told};

/// Looks at the meta tuple: so many blocks are there.
pub fn look_at_meta<S: Steps>(steps: &mut S, told: &mut Told) -> Result<(), OpFault>
    requires told { length told.old.bits ≡ (S.desk steps.old).params.bits }
    ensures goes { Goes S.desk S.stands S.comes_from (OverNodes (S.stands steps.old)) steps.old steps.new }
    ensures told { length told.new.bits ≡ (S.desk steps.old).params.bits }
    ensures looked { OnOk result (DoesSo Looks (OverNodes (S.stands steps.old)) (S.desk steps.old) (S.seen steps.old)
        (S.seen steps.new)) }
    ensures there { OnOk result ((base : Index) → OverNodes (S.stands steps.old) base
        → OverGraphs (S.stands steps.new) (HasBlocks (S.seen steps.new) told.new.blocks) base) }
    ensures exact { OnOk result ((g : Graph) → OverNodes (S.stands steps.old) (OfNodes g) → S.seen steps.new ≡ S.seen steps.old
        → told.new.blocks ≡ (after g (S.seen steps.old)).blocks) }
    ensures err { IfErr result (EndedBy (OverNodes (S.stands steps.old)) (S.desk steps.old) (S.seen steps.old) (S.seen steps.new)) }
{
    let mut ask = Ask::Meta;
    steps.step(&mut ask, told)?;
    Ok(())
}

/// Looks at the nodes of a page.
pub fn look_at_page<S: Steps>(steps: &mut S, block: u32, told: &mut Told) -> Result<(), OpFault>
    requires told { length told.old.bits ≡ (S.desk steps.old).params.bits }
    ensures goes { Goes S.desk S.stands S.comes_from (OverGraphs (S.stands steps.old) (λ g. block < (after g (S.seen steps.old)).blocks))
        steps.old steps.new }
    ensures told { length told.new.bits ≡ (S.desk steps.old).params.bits }
    ensures looked { OnOk result (DoesSo Looks (OverGraphs (S.stands steps.old) (λ g. block < (after g (S.seen steps.old)).blocks))
        (S.desk steps.old) (S.seen steps.old) (S.seen steps.new)) }
    ensures exact { OnOk result ((g : Graph)
        → OverGraphs (S.stands steps.old) (λ g. block < (after g (S.seen steps.old)).blocks) (OfNodes g)
        → S.seen steps.new ≡ S.seen steps.old → map seen_told told.new.nodes ≡ nodes_on (after g (S.seen steps.old)) block) }
    ensures err { IfErr result (EndedBy (OverGraphs (S.stands steps.old) (λ g. block < (after g (S.seen steps.old)).blocks))
        (S.desk steps.old) (S.seen steps.old) (S.seen steps.new)) }
{
    let mut ask = Ask::Page { block };
    steps.step(&mut ask, told)?;
    Ok(())
}
