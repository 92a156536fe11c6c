//! A desk for tests: over a graph that nobody changes.
#![tactic(auto)]

ghost use Rattle.std.specs.Prelude.{◌≡◌, ◌↔◌, ◌<◌, ℕ, OnOk, OnErr, IfErr, IsTrue, length, min, take, drop, Some, true};
ghost use Rattle.vec_graph.specs.Graph.{node_at, layer_slots};
ghost use Rattle.graph_search.specs.Reads.{AtMeta, OfMeta, OfNode, OfList, answer_of, node_answer, list_answer, is_version};
ghost use Rattle.graph_search.specs.Deeds.{is_stale};
ghost use Rattle.vec_steps.specs.declared.fault.StepFault.TheVariants.{LogFull};
ghost use Rattle.vec_steps.specs.Telling.{node_told, list_told};
ghost use Rattle.vec_steps.specs.Still.{AnswersLook, IsRefused, IsOdd, IsWide, still_stands};
ghost use Rattle.vec_steps.specs.Index.{OfNodes};
ghost use Rattle.vec_graph.specs.Shaped.{IsShaped};
ghost use Rattle.vec_names.specs.Params.{IsInRange};
ghost use Rattle.vec_names.specs.declared.params.Kind.TheVariants.{Hnsw};

use crate::ask::Ask;
use crate::fault::StepFault;
use crate::steps::Steps;
use crate::told::{Told, Word};
use index_sizes::{MOST_IDS, MOST_SLOTS};
use vec_graph::{Graph, Node};
use vec_names::{Params, Tid};

/// A desk for tests of what only looks, alone over a graph that stays as it is. It answers the looks at the meta tuple, at a node
/// and at a node's slots, and has no memory for anything else: it makes no act.
#[derive(Drop)]
pub struct StillDesk {
    pub number: u32,
    pub graph: Graph,
}

impl StillDesk {
    /// A desk over the graph of an index, on which it stands.
    pub fn over(number: u32, graph: Graph) -> StillDesk
        requires shaped { IsShaped graph }
        requires params { IsInRange graph.params }
        requires of_nodes { graph.params.kind ≡ Hnsw }
        ensures { still_stands result (OfNodes graph) }
    {
        StillDesk { number, graph }
    }

    // What is asked, by the graph; the position is not touched.
    pub(crate) fn answer(&self, ask: &Ask, told: &mut Told) -> Result<(), StepFault>
        ensures ok { OnOk result (AnswersLook self.now.graph ask.now told.new) }
        ensures err { IfErr result (IsRefused self.now.graph (length told.old.bits) ask.now) }
        ensures at { told.new.at ≡ told.old.at }
        ensures bits { length told.new.bits ≡ length told.old.bits }
    {
        match ask {
            Ask::Spent => Ok(()),
            Ask::Meta => {
                self.tell_meta(told);
                Ok(())
            }
            Ask::Node { at, layer, version } => self.tell_node(*at, *layer, *version, told),
            Ask::List {
                at,
                version,
                layer,
                ..
            } => self.tell_list(*at, *version, *layer, told),
            Ask::Release { .. } => Err(StepFault::LogFull { used: 0, size: 0 }),
            Ask::EndVacuum => Err(StepFault::LogFull { used: 0, size: 0 }),
            _ => Err(StepFault::Memory),
        }
    }

    fn tell_meta(&self, told: &mut Told)
        ensures told { OfMeta told.new.tid told.new.level told.new.hint told.new.blocks ≡ answer_of self.now.graph AtMeta }
        ensures at { told.new.at ≡ told.old.at }
        ensures bits { told.new.bits ≡ told.old.bits }
    {
        told.word = Word::Meta;
        told.tid = self.graph.entry;
        told.level = self.graph.level;
        told.hint = self.graph.hint;
        told.blocks = self.graph.blocks;
    }

    fn tell_node(
        &self,
        at: Tid,
        layer: u8,
        version: Option<u8>,
        told: &mut Told,
    ) -> Result<(), StepFault>
        ensures ok { OnOk result (node_told told.new.word told.new.list_at told.new
            ≡ node_answer (node_at self.now.graph at) layer version) }
        ensures err { IfErr result (λ f. (f ≡ LogFull 0 0) × IsOdd (node_at self.now.graph at) (length told.old.bits)) }
        ensures at { told.new.at ≡ told.old.at }
        ensures bits { length told.new.bits ≡ length told.old.bits }
    {
        match self.graph.nodes.get(at) {
            None => {
                told.word = Word::Gone;
                Ok(())
            }
            Some(node) => show_node(node, layer, version, told),
        }
    }

    fn tell_list(&self, at: Tid, version: u8, layer: u8, told: &mut Told) -> Result<(), StepFault>
        ensures ok { OnOk result (list_told told.new.word told.new
            ≡ list_answer self.now.graph.params.m (node_at self.now.graph at) version layer) }
        ensures err { IfErr result (λ f. (f ≡ LogFull 0 0) × IsWide self.now.graph.params.m (node_at self.now.graph at) layer) }
        ensures at { told.new.at ≡ told.old.at }
        ensures bits { told.new.bits ≡ told.old.bits }
    {
        match self.graph.nodes.get(at) {
            None => {
                told.word = Word::Gone;
                Ok(())
            }
            Some(node) => show_list(self.graph.params.m, node, version, layer, told),
        }
    }
}

fn show_node(node: &Node, layer: u8, version: Option<u8>, told: &mut Told) -> Result<(), StepFault>
    ensures ok { OnOk result (node_told told.new.word told.new.list_at told.new ≡ node_answer (Some node.now) layer version) }
    ensures err { IfErr result (λ f. (f ≡ LogFull 0 0) × IsOdd (Some node.now) (length told.old.bits)) }
    ensures at { told.new.at ≡ told.old.at }
    ensures bits { length told.new.bits ≡ length told.old.bits }
{
    if node.deleted || node.level < layer || !is_wanted(version, node.version) {
        told.word = Word::Gone;
        return Ok(());
    }
    tell_found(node, told)
}

fn is_wanted(version: Option<u8>, here: u8) -> bool
    ensures { result ≡ is_version version here }
{
    match version {
        None => true,
        Some(wanted) => wanted == here,
    }
}

#[tactic(auto, using(crate::proofs::Filling::packed_of, crate::proofs::Filling::unpacked_of))]
fn tell_found(node: &Node, told: &mut Told) -> Result<(), StepFault>
    ensures ok { OnOk result (node_told told.new.word told.new.list_at told.new
        ≡ OfNode node.now.level node.now.version node.now.list_at node.now.ids node.now.bits) }
    ensures err { IfErr result (λ f. (f ≡ LogFull 0 0) × IsOdd (Some node.now) (length told.old.bits)) }
    ensures at { told.new.at ≡ told.old.at }
    ensures bits { length told.new.bits ≡ length told.old.bits }
{
    if node.bits.count() != told.bits.count() {
        return Err(StepFault::LogFull { used: 0, size: 0 });
    }
    if node.ids.len() > MOST_IDS {
        return Err(StepFault::LogFull { used: 0, size: 0 });
    }
    told.ids.clear();
    let _ = told.ids.try_extend_from_slice(node.ids.as_slice());
    told.bits.refill(node.bits.bytes());
    told.word = Word::Node;
    told.level = node.level;
    told.version = node.version;
    told.list_at = Some(node.list_at);
    Ok(())
}

fn show_list(m: u16, node: &Node, version: u8, layer: u8, told: &mut Told) -> Result<(), StepFault>
    ensures ok { OnOk result (list_told told.new.word told.new ≡ list_answer m (Some node.now) version layer) }
    ensures err { IfErr result (λ f. (f ≡ LogFull 0 0) × IsWide m (Some node.now) layer) }
    ensures at { told.new.at ≡ told.old.at }
    ensures bits { told.new.bits ≡ told.old.bits }
{
    if node.deleted || node.version != version {
        told.word = Word::Gone;
        return Ok(());
    }
    let slots = layer_of(m, node.level, layer, node.slots.as_slice());
    if slots.len() > MOST_SLOTS {
        return Err(StepFault::LogFull { used: 0, size: 0 });
    }
    told.tids.refill(slots);
    told.word = Word::List;
    Ok(())
}

// The slots of one layer; none where the node has fewer.
fn layer_of(m: u16, level: u8, layer: u8, slots: &[Option<Tid>]) -> &[Option<Tid>]
    ensures { result.now ≡ layer_slots m level layer slots.now }
{
    if layer == 0 {
        return behind(usize::from(level) * usize::from(m), slots);
    }
    let start = usize::from(level.saturating_sub(layer)) * usize::from(m);
    front(usize::from(m), behind(start, slots))
}

fn behind(start: usize, slots: &[Option<Tid>]) -> &[Option<Tid>]
    ensures { result.now ≡ drop start slots.now }
{
    let start = start.min(slots.len());
    &slots[start..]
}

fn front(count: usize, slots: &[Option<Tid>]) -> &[Option<Tid>]
    ensures { result.now ≡ take count slots.now }
{
    let count = count.min(slots.len());
    &slots[..count]
}

impl Steps for StillDesk {
    ghost use Rattle.std.specs.Prelude.{[], ◌≡◌};
    ghost use Rattle.vec_steps.specs.Still.{still_desk, still_stands, still_comes, still_shaped, still_index, still_legal, still_counted};
    ghost use Rattle.vec_steps.specs.Still.{still_itself, still_on};

    ghost desk = { still_desk };

    ghost seen = { λ d. [] };

    ghost spare = { λ d. 0 };

    ghost stands = { still_stands };

    ghost comes_from = { still_comes };

    fn number(&self) -> u32 {
        self.number
    }

    fn params(&self) -> Params {
        self.graph.params
    }

    fn front(&self) -> u64 {
        0
    }

    fn step(&mut self, ask: &mut Ask, told: &mut Told) -> Result<(), StepFault> {
        told.at = 0;
        self.answer(ask, told)
    }

    fn settle(&mut self) -> Result<u64, StepFault> {
        Err(StepFault::Memory)
    }

    ghost shaped = { still_shaped };

    ghost index = { still_index };

    ghost legal = { still_legal };

    ghost counted = { still_counted };

    ghost comes_itself = { still_itself };

    ghost comes_on = { still_on };
}
