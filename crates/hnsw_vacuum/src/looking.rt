//! Looks at the meta tuple and at pages.

ghost use Rattle.std.specs.Prelude.{◌≡◌, ◌+◌, ℕ, map, length, IfErr, OnOk};
ghost use Rattle.vec_graph.specs.Effect.{after};
ghost use Rattle.graph_search.specs.Reads.{AtMeta, AtPage, OfMeta, OfPage, nodes_on};
ghost use Rattle.vec_steps.specs.Index.{Index};
ghost use Rattle.vec_steps.specs.Telling.{seen_told};
ghost use Rattle.vec_steps.specs.Calls.{Goes};
ghost use Rattle.hnsw_vacuum.specs.Courses.{IsGraphSo, OverGraphs, OverNodes, StopsBy};
ghost use Rattle.hnsw_vacuum.specs.Dropping.{MayDropAll};
ghost use Rattle.hnsw_vacuum.specs.Removing.{HasBlocks, IsOfLooks, LooksOnce, MayRemove, SaysNoMore};

use crate::asking::ask_step;
use std::mem;
use vec_names::Listed;
use vec_steps::{Ask, OpFault, Seen, Steps, Told, Trace};

/// Looks at the meta tuple.
pub fn look_at_meta<S: Steps>(
    steps: &mut S,
    told: &mut Told,
    trace: &mut Trace,
) -> Result<(), OpFault>
    requires told { length told.old.bits ≡ (S.desk steps.old).params.bits }
    ensures goes { Goes S.desk S.stands S.comes_from (OverNodes (S.stands steps.old)) steps.old steps.new }
    ensures told { length told.new.bits ≡ (S.desk steps.old).params.bits }
    ensures ok { OnOk result (LooksOnce (OverNodes (S.stands steps.old)) (S.desk steps.old) (S.seen steps.old) (S.seen steps.new)
        trace.old.reads trace.new.reads AtMeta (OfMeta told.new.tid told.new.level told.new.hint told.new.blocks)) }
    ensures there { OnOk result ((base : Index) → OverNodes (S.stands steps.old) base
        → OverGraphs (S.stands steps.new) (HasBlocks (S.seen steps.new) told.new.blocks) base) }
    ensures err { IfErr result (StopsBy IsOfLooks SaysNoMore (OverNodes (S.stands steps.old)) (S.desk steps.old) (S.seen steps.old)
        (S.seen steps.new)) }
{
    ask_step(steps, Ask::Meta, told)?;
    trace.reads.push(told.at)?;
    Ok(())
}

/// Looks at a page in the first pass, and takes the nodes that it tells.
pub fn look_at_page<S: Steps>(
    steps: &mut S,
    block: u32,
    nodes: &mut Listed<Seen>,
    told: &mut Told,
    trace: &mut Trace,
) -> Result<(), OpFault>
    requires told { length told.old.bits ≡ (S.desk steps.old).params.bits }
    ensures goes { Goes S.desk S.stands S.comes_from (OverGraphs (S.stands steps.old) (λ g. MayRemove g (S.seen steps.old)
        (S.desk steps.old).number (block + 1))) steps.old steps.new }
    ensures told { length told.new.bits ≡ (S.desk steps.old).params.bits }
    ensures ok { OnOk result (LooksOnce (OverGraphs (S.stands steps.old) (λ g. MayRemove g (S.seen steps.old)
        (S.desk steps.old).number (block + 1))) (S.desk steps.old) (S.seen steps.old) (S.seen steps.new) trace.old.reads trace.new.reads
        (AtPage block) (OfPage (map seen_told nodes.new))) }
    ensures are { OnOk result ((base : Index) → OverGraphs (S.stands steps.old) (λ g. MayRemove g (S.seen steps.old)
        (S.desk steps.old).number (block + 1)) base → IsGraphSo (λ g. map seen_told nodes.new ≡ nodes_on (after g (S.seen steps.new)) block)
        base) }
    ensures may { OnOk result ((base : Index) → OverGraphs (S.stands steps.old) (λ g. MayRemove g (S.seen steps.old)
        (S.desk steps.old).number (block + 1)) base → OverGraphs (S.stands steps.new) (λ g. MayDropAll g (S.seen steps.new)
        (S.desk steps.old).number (map seen_told nodes.new)) base) }
    ensures err { IfErr result (StopsBy IsOfLooks SaysNoMore (OverGraphs (S.stands steps.old) (λ g. MayRemove g (S.seen steps.old)
        (S.desk steps.old).number (block + 1))) (S.desk steps.old) (S.seen steps.old) (S.seen steps.new)) }
{
    ask_step(steps, Ask::Page { block }, told)?;
    trace.reads.push(told.at)?;
    mem::swap(nodes, &mut told.nodes);
    Ok(())
}
