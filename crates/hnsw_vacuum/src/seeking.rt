//! Between the passes: which nodes have no rows.

ghost use Rattle.std.specs.Prelude.{◌≡◌, ◌<◌, ◌+◌, ◌∷◌, [], None, ℕ, List, map, length, OnOk, IfOk, IfErr};
ghost use Rattle.vec_history.specs.declared.stage.Stage.TheVariants.{Repair};
ghost use Rattle.vec_history.specs.Phases.{IsInPhase};
ghost use Rattle.vec_graph.specs.Graph.{node_at};
ghost use Rattle.vec_graph.specs.Effect.{after};
ghost use Rattle.graph_search.specs.Reads.{AtNode, AtPage, OfPage, Seen as Telling, node_answer, nodes_on};
ghost use Rattle.vec_steps.specs.Index.{Index};
ghost use Rattle.vec_steps.specs.Telling.{node_told, seen_told};
ghost use Rattle.vec_steps.specs.Calls.{Goes};
ghost use Rattle.hnsw_vacuum.specs.Courses.{IsGraphSo, OverGraphs, OverNodes, StopsBy};
ghost use Rattle.hnsw_vacuum.specs.Removing.{IsOfLooks, LooksOnce, SaysNoMore};
ghost use Rattle.hnsw_vacuum.specs.Seeking.{AreAllDoomed, HasBlock, LooksForDoomed, MakesLooks, Seeks, TellsDoomed, doomed_told};

use crate::asking::ask_step;
use crate::looking::look_at_meta;
use crate::marking::Doomed;
use std::alloc::Global;
use std::mem;
use vec_names::{Listed, Tid};
use vec_steps::{Ask, OpFault, Seen, Steps, Told, Trace, Word};

// Looks at a page, and takes the nodes that it tells.
fn look_at_nodes<S: Steps>(
    steps: &mut S,
    block: u32,
    nodes: &mut Listed<Seen>,
    told: &mut Told,
    trace: &mut Trace,
) -> Result<(), OpFault>
    requires told { length told.old.bits ≡ (S.desk steps.old).params.bits }
    ensures goes { Goes S.desk S.stands S.comes_from (OverGraphs (S.stands steps.old) (HasBlock (S.seen steps.old) block))
        steps.old steps.new }
    ensures told { length told.new.bits ≡ (S.desk steps.old).params.bits }
    ensures ok { OnOk result (LooksOnce (OverGraphs (S.stands steps.old) (HasBlock (S.seen steps.old) block)) (S.desk steps.old)
        (S.seen steps.old) (S.seen steps.new) trace.old.reads trace.new.reads (AtPage block) (OfPage (map seen_told nodes.new))) }
    ensures are { OnOk result ((base : Index) → OverGraphs (S.stands steps.old) (HasBlock (S.seen steps.old) block) base
        → IsGraphSo (λ g. map seen_told nodes.new ≡ nodes_on (after g (S.seen steps.new)) block) base) }
    ensures err { IfErr result (StopsBy IsOfLooks SaysNoMore (OverGraphs (S.stands steps.old) (HasBlock (S.seen steps.old) block))
        (S.desk steps.old) (S.seen steps.old) (S.seen steps.new)) }
{
    ask_step(steps, Ask::Page { block }, told)?;
    trace.reads.push(told.at)?;
    mem::swap(nodes, &mut told.nodes);
    Ok(())
}

// Looks at the node at a place, of any version.
fn look_at_node<S: Steps>(
    steps: &mut S,
    at: Tid,
    told: &mut Told,
    trace: &mut Trace,
) -> Result<(), OpFault>
    requires told { length told.old.bits ≡ (S.desk steps.old).params.bits }
    ensures goes { Goes S.desk S.stands S.comes_from (OverNodes (S.stands steps.old)) steps.old steps.new }
    ensures told { length told.new.bits ≡ (S.desk steps.old).params.bits }
    ensures ok { OnOk result (LooksOnce (OverNodes (S.stands steps.old)) (S.desk steps.old) (S.seen steps.old) (S.seen steps.new)
        trace.old.reads trace.new.reads (AtNode at 0 None) (node_told told.new.word told.new.list_at told.new)) }
    ensures is { OnOk result ((base : Index) → OverNodes (S.stands steps.old) base → IsGraphSo (λ g.
        node_told told.new.word told.new.list_at told.new ≡ node_answer (node_at (after g (S.seen steps.new)) at) 0 None) base) }
    ensures err { IfErr result (StopsBy IsOfLooks SaysNoMore (OverNodes (S.stands steps.old)) (S.desk steps.old) (S.seen steps.old)
        (S.seen steps.new)) }
{
    let ask = Ask::Node {
        at,
        layer: 0,
        version: None,
    };
    ask_step(steps, ask, told)?;
    trace.reads.push(told.at)?;
    Ok(())
}

// The node that a look at this place told, where it has no rows.
fn doomed_of(at: Tid, told: &Told) -> Option<Doomed>
    ensures { result ≡ doomed_told at (node_told told.now.word told.now.list_at told.now) }
{
    let Word::Node = told.word else {
        return None;
    };
    let Some(list_at) = told.list_at else {
        return None;
    };
    if !told.ids.is_empty() {
        return None;
    }
    Some(Doomed {
        at,
        list_at,
        version: told.version,
    })
}

/// Looks at the node at a place, of any version: tells it where it is not deleted and has no rows,
/// as `mark` is to be handed it. None says that no such node stands there.
///
/// No phase is asked for. The errors are those of a step.
pub fn look_for_doomed<S: Steps>(
    steps: &mut S,
    at: Tid,
    told: &mut Told,
    trace: &mut Trace,
) -> Result<Option<Doomed>, OpFault>
    requires told { length told.old.bits ≡ (S.desk steps.old).params.bits }
    ensures goes { Goes S.desk S.stands S.comes_from (OverNodes (S.stands steps.old)) steps.old steps.new }
    ensures told { length told.new.bits ≡ (S.desk steps.old).params.bits }
    ensures ok { IfOk result (λ node. LooksForDoomed (OverNodes (S.stands steps.old)) (S.desk steps.old) (S.seen steps.old)
        (S.seen steps.new) trace.old.reads trace.new.reads at node) }
    ensures tells { IfOk result (λ node. (base : Index) → OverNodes (S.stands steps.old) base
        → IsGraphSo (λ g. TellsDoomed (after g (S.seen steps.new)) at node) base) }
    ensures err { IfErr result (StopsBy IsOfLooks SaysNoMore (OverNodes (S.stands steps.old)) (S.desk steps.old) (S.seen steps.old)
        (S.seen steps.new)) }
{
    look_at_node(steps, at, told, trace)?;
    let node = doomed_of(at, told);
    Ok(node)
}

// Looks at a node that its page told without rows, and puts it last where it has none.
fn find_one<S: Steps>(
    steps: &mut S,
    seen: &Seen,
    found: &mut Listed<Doomed>,
    told: &mut Told,
    trace: &mut Trace,
) -> Result<(), OpFault>
    requires told { length told.old.bits ≡ (S.desk steps.old).params.bits }
    ensures goes { Goes S.desk S.stands S.comes_from (OverNodes (S.stands steps.old)) steps.old steps.new }
    ensures told { length told.new.bits ≡ (S.desk steps.old).params.bits }
    ensures ok { OnOk result (MakesLooks (OverNodes (S.stands steps.old)) (S.desk steps.old) (S.seen steps.old) (S.seen steps.new)
        trace.old.reads trace.new.reads) }
    ensures so { OnOk result ((base : Index) (bound count : ℕ) (left : List Telling) → OverGraphs (S.stands steps.old) (λ g. Seeks g
        (S.seen steps.old) (S.desk steps.old).number bound count (seen_told seen.now ∷ left) found.old) base
        → OverGraphs (S.stands steps.new) (λ g. Seeks g (S.seen steps.new) (S.desk steps.old).number bound count left found.new) base) }
    ensures err { IfErr result (StopsBy IsOfLooks SaysNoMore (OverNodes (S.stands steps.old)) (S.desk steps.old) (S.seen steps.old)
        (S.seen steps.new)) }
{
    if seen.deleted {
        return Ok(());
    }
    if !seen.ids.is_empty() {
        return Ok(());
    }
    let one = look_for_doomed(steps, seen.at, told, trace)?;
    let Some(node) = one else {
        return Ok(());
    };
    found.push(node)?;
    Ok(())
}

// Does so for each node that a page told, in their order.
fn find_all<S: Steps>(
    steps: &mut S,
    nodes: &[Seen],
    found: &mut Listed<Doomed>,
    told: &mut Told,
    trace: &mut Trace,
) -> Result<(), OpFault>
    requires told { length told.old.bits ≡ (S.desk steps.old).params.bits }
    ensures goes { Goes S.desk S.stands S.comes_from (OverNodes (S.stands steps.old)) steps.old steps.new }
    ensures told { length told.new.bits ≡ (S.desk steps.old).params.bits }
    ensures ok { OnOk result (MakesLooks (OverNodes (S.stands steps.old)) (S.desk steps.old) (S.seen steps.old) (S.seen steps.new)
        trace.old.reads trace.new.reads) }
    ensures so { OnOk result ((base : Index) (bound count : ℕ) → OverGraphs (S.stands steps.old) (λ g. Seeks g (S.seen steps.old)
        (S.desk steps.old).number bound count (map seen_told nodes.now) found.old) base
        → OverGraphs (S.stands steps.new) (λ g. Seeks g (S.seen steps.new) (S.desk steps.old).number bound count [] found.new) base) }
    ensures err { IfErr result (StopsBy IsOfLooks SaysNoMore (OverNodes (S.stands steps.old)) (S.desk steps.old) (S.seen steps.old)
        (S.seen steps.new)) }
{
    'node: for k in 0..nodes.len() {
        find_one(steps, &nodes[k], found, told, trace)?;
    }
    Ok(())
}

// Finds the nodes of a page without rows. The block is there. `nodes` is room for what the page
// tells.
fn find_on<S: Steps>(
    steps: &mut S,
    block: u32,
    nodes: &mut Listed<Seen>,
    found: &mut Listed<Doomed>,
    told: &mut Told,
    trace: &mut Trace,
) -> Result<(), OpFault>
    requires told { length told.old.bits ≡ (S.desk steps.old).params.bits }
    ensures goes { Goes S.desk S.stands S.comes_from (OverGraphs (S.stands steps.old) (HasBlock (S.seen steps.old) block))
        steps.old steps.new }
    ensures told { length told.new.bits ≡ (S.desk steps.old).params.bits }
    ensures ok { OnOk result (MakesLooks (OverGraphs (S.stands steps.old) (HasBlock (S.seen steps.old) block)) (S.desk steps.old)
        (S.seen steps.old) (S.seen steps.new) trace.old.reads trace.new.reads) }
    ensures so { OnOk result ((base : Index) (count : ℕ) → block < count → OverGraphs (S.stands steps.old) (λ g. Seeks g
        (S.seen steps.old) (S.desk steps.old).number block count [] found.old) base → OverGraphs (S.stands steps.new) (λ g. Seeks g
        (S.seen steps.new) (S.desk steps.old).number (block + 1) count [] found.new) base) }
    ensures err { IfErr result (StopsBy IsOfLooks SaysNoMore (OverGraphs (S.stands steps.old) (HasBlock (S.seen steps.old) block))
        (S.desk steps.old) (S.seen steps.old) (S.seen steps.new)) }
{
    look_at_nodes(steps, block, nodes, told, trace)?;
    find_all(steps, nodes.as_slice(), found, told, trace)?;
    Ok(())
}

// Finds those of each page from block 1 on, up to so many blocks.
fn find_pages<S: Steps>(
    steps: &mut S,
    count: u32,
    nodes: &mut Listed<Seen>,
    found: &mut Listed<Doomed>,
    told: &mut Told,
    trace: &mut Trace,
) -> Result<(), OpFault>
    requires told { length told.old.bits ≡ (S.desk steps.old).params.bits }
    ensures goes { Goes S.desk S.stands S.comes_from (OverGraphs (S.stands steps.old) (λ g. Seeks g (S.seen steps.old)
        (S.desk steps.old).number 1 count [] found.old)) steps.old steps.new }
    ensures told { length told.new.bits ≡ (S.desk steps.old).params.bits }
    ensures ok { OnOk result (MakesLooks (OverGraphs (S.stands steps.old) (λ g. Seeks g (S.seen steps.old)
        (S.desk steps.old).number 1 count [] found.old)) (S.desk steps.old) (S.seen steps.old) (S.seen steps.new)
        trace.old.reads trace.new.reads) }
    ensures so { OnOk result ((base : Index) → OverGraphs (S.stands steps.old) (λ g. Seeks g (S.seen steps.old)
        (S.desk steps.old).number 1 count [] found.old) base
        → IsGraphSo (λ g. AreAllDoomed (after g (S.seen steps.new)) found.new) base) }
    ensures err { IfErr result (StopsBy IsOfLooks SaysNoMore (OverGraphs (S.stands steps.old) (λ g. Seeks g (S.seen steps.old)
        (S.desk steps.old).number 1 count [] found.old)) (S.desk steps.old) (S.seen steps.old) (S.seen steps.new)) }
{
    'page: for block in 1..count {
        find_on(steps, block, nodes, found, told, trace)?;
    }
    Ok(())
}

/// Finds the nodes without rows, by looks at the meta tuple and at each page from block 1 on, in
/// their order, and at each node that its page told without rows. These are all that stand so at
/// the end, by their places, and no other: none comes while the phase stands.
///
/// The desk is in the phase Repair of its vacuum. The errors are those of a step, `LogFull`, `Disk`
/// and `Memory`; at these nothing is told.
pub fn find_doomed<S: Steps>(
    alloc: Global,
    steps: &mut S,
    told: &mut Told,
    trace: &mut Trace,
) -> Result<Listed<Doomed>, OpFault>
    requires told { length told.old.bits ≡ (S.desk steps.old).params.bits }
    requires phase { IsInPhase (S.seen steps.old) (S.desk steps.old).number Repair }
    ensures goes { Goes S.desk S.stands S.comes_from (OverNodes (S.stands steps.old)) steps.old steps.new }
    ensures told { length told.new.bits ≡ (S.desk steps.old).params.bits }
    ensures ok { OnOk result (MakesLooks (OverNodes (S.stands steps.old)) (S.desk steps.old) (S.seen steps.old) (S.seen steps.new)
        trace.old.reads trace.new.reads) }
    ensures found { IfOk result (λ found. (base : Index) → OverNodes (S.stands steps.old) base
        → IsGraphSo (λ g. AreAllDoomed (after g (S.seen steps.new)) found) base) }
    ensures err { IfErr result (StopsBy IsOfLooks SaysNoMore (OverNodes (S.stands steps.old)) (S.desk steps.old) (S.seen steps.old)
        (S.seen steps.new)) }
{
    look_at_meta(steps, told, trace)?;
    let count = told.blocks;
    let mut nodes = Listed::new(alloc);
    let mut found = Listed::new(alloc);
    find_pages(steps, count, &mut nodes, &mut found, told, trace)?;
    Ok(found)
}
