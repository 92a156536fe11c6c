//! What each event changes, as a program.

ghost use Rattle.std.specs.Prelude.{◌≡◌, ◌<◌, ◌≤◌, OnOk, IfOk, replicate, false, length, List, Option, None};
ghost use Rattle.list_values.specs.Masks.{kept};
ghost use Rattle.vec_names.specs.declared.tid.Tid.{Tid as Tids};
ghost use Rattle.vec_graph.specs.Effect.{effect, changed, with_node, with_new, joined, linked, relisted, dropped, marked, blocks_with};

use crate::graph::Graph;
use crate::node::Node;
use bit_code::Bits;
use index_sizes::next_version;
use std::alloc::{AllocError, Global};
use vec_history::Event;
use vec_names::{HeapId, Listed, Tid};

/// What a Put brings: a node with one id.
#[derive(Clone, Copy)]
struct NewNode<'a> {
    at: Tid,
    list_at: Tid,
    version: u8,
    level: u8,
    id: HeapId,
    bits: &'a Bits,
    lists: &'a Listed<Option<Tid>>,
}

impl Graph {
    /// Makes of this graph what the event does. `wrap` is the version after which 1 follows: 255 today, and less
    /// in an older form of the log. Only memory can be wanting; the graph may then be anything.
    pub fn apply(&mut self, wrap: u8, event: &Event, alloc: Global) -> Result<(), AllocError>
        ensures { OnOk result (self.new ≡ effect wrap event.now self.old) }
    {
        // One arm for each kind of event.
        match event {
            Event::Put {
                at,
                list_at,
                version,
                level,
                id,
                bits,
                lists,
            } => {
                let new = NewNode {
                    at: *at,
                    list_at: *list_at,
                    version: *version,
                    level: *level,
                    id: *id,
                    bits,
                    lists,
                };
                self.put(new, alloc)
            }
            Event::Join { at, id, .. } => self.join(*at, *id),
            Event::Link { at, slot, to, .. } => {
                self.link(*at, *slot, *to);
                Ok(())
            }
            Event::Relist { at, lists, .. } => self.relist(*at, lists, alloc),
            Event::Drop { at, gone, .. } => self.drop_ids(*at, *gone, alloc),
            Event::Mark { at, .. } => self.mark(*at, wrap, alloc),
            Event::Entry { to, level } => {
                self.entry = *to;
                self.level = *level;
                Ok(())
            }
            Event::Hint { block } => {
                self.hint = *block;
                Ok(())
            }
            Event::IvfAdd { .. }
            | Event::IvfGrow { .. }
            | Event::IvfDrop { .. }
            | Event::IvfHint { .. }
            | Event::Gate { .. }
            | Event::Ungate { .. }
            | Event::Phase { .. }
            | Event::VacuumEnd
            | Event::Cancel { .. }
            | Event::Settled { .. }
            | Event::DiskFaulted { .. } => Ok(()),
        }
    }

    fn put(&mut self, new: NewNode, alloc: Global) -> Result<(), AllocError>
        ensures { let n = new.entry in
            OnOk result (self.new ≡ with_new self.old (record {
              at = n.at;
              list_at = n.list_at;
              version = n.version;
              level = n.level;
              id = n.id;
              bits = n.bits.now;
              lists = n.lists.now;
            })) }
    {
        let bits = new.bits.copied()?;
        let slots = new.lists.try_clone(alloc)?;
        let mut ids = Listed::new(alloc);
        ids.push(new.id)?;
        let node = Node {
            level: new.level,
            version: new.version,
            deleted: false,
            bits,
            ids,
            list_at: new.list_at,
            slots,
        };
        self.nodes.insert(new.at, node)?;
        let end = (new.at.block + 1).max(new.list_at.block + 1);
        self.blocks = self.blocks.max(end);
        Ok(())
    }

    fn join(&mut self, at: Tid, id: HeapId) -> Result<(), AllocError>
        ensures { OnOk result (self.new ≡ changed self.old at (joined id)) }
    {
        match self.nodes.get_mut(at) {
            Some(node) => node.join(id),
            None => Ok(()),
        }
    }

    fn link(&mut self, at: Tid, slot: u16, to: Tid)
        ensures { self.new ≡ changed self.old at (linked slot to) }
    {
        if let Some(node) = self.nodes.get_mut(at) {
            node.link(slot, to);
        }
    }

    fn relist(
        &mut self,
        at: Tid,
        lists: &Listed<Option<Tid>>,
        alloc: Global,
    ) -> Result<(), AllocError>
        ensures { OnOk result (self.new ≡ changed self.old at (relisted lists.now)) }
    {
        match self.nodes.get_mut(at) {
            Some(node) => node.relist(lists, alloc),
            None => Ok(()),
        }
    }

    fn drop_ids(&mut self, at: Tid, gone: u16, alloc: Global) -> Result<(), AllocError>
        ensures { OnOk result (self.new ≡ changed self.old at (dropped gone)) }
    {
        match self.nodes.get_mut(at) {
            Some(node) => node.drop_ids(gone, alloc),
            None => Ok(()),
        }
    }

    fn mark(&mut self, at: Tid, wrap: u8, alloc: Global) -> Result<(), AllocError>
        ensures { OnOk result (self.new ≡ changed self.old at (marked wrap)) }
    {
        match self.nodes.get_mut(at) {
            Some(node) => node.mark(wrap, alloc),
            None => Ok(()),
        }
    }
}

// ---- one node

impl Node {
    fn join(&mut self, id: HeapId) -> Result<(), AllocError>
        ensures { OnOk result (self.new ≡ joined id self.old) }
    {
        self.ids.push(id)?;
        Ok(())
    }

    fn link(&mut self, slot: u16, to: Tid)
        ensures { self.new ≡ linked slot to self.old }
    {
        if (slot as usize) < self.slots.len() {
            self.slots.set(slot as usize, Some(to));
        }
    }

    fn relist(&mut self, lists: &Listed<Option<Tid>>, alloc: Global) -> Result<(), AllocError>
        ensures { OnOk result (self.new ≡ relisted lists.now self.old) }
    {
        self.slots = lists.try_clone(alloc)?;
        Ok(())
    }

    fn drop_ids(&mut self, gone: u16, alloc: Global) -> Result<(), AllocError>
        ensures { OnOk result (self.new ≡ dropped gone self.old) }
    {
        self.ids = kept_ids(gone, self.ids.as_slice(), alloc)?;
        Ok(())
    }

    fn mark(&mut self, wrap: u8, alloc: Global) -> Result<(), AllocError>
        ensures { OnOk result (self.new ≡ marked wrap self.old) }
    {
        let bits = zeros_like(&self.bits, alloc)?;
        let slots = no_slots(self.slots.len(), alloc)?;
        self.version = next_version(wrap, self.version);
        self.deleted = true;
        self.bits = bits;
        self.ids = Listed::new(alloc);
        self.slots = slots;
        Ok(())
    }
}

// The ids that the mask does not name.
fn kept_ids(gone: u16, ids: &[HeapId], alloc: Global) -> Result<Listed<HeapId>, AllocError>
    ensures { IfOk result (λ left. left ≡ kept gone ids.now) }
{
    let mut left = Listed::new(alloc);
    let mut mask = gone;
    for id in ids {
        if mask % 2 == 0 {
            left.push(*id)?;
        }
        mask = mask / 2;
    }
    Ok(left)
}

// A value of the same length whose places are all 0.
fn zeros_like(bits: &Bits, alloc: Global) -> Result<Bits, AllocError>
    ensures { IfOk result (λ zeros. zeros ≡ replicate (length bits.now) false) }
{
    match Bits::zeros(alloc, bits.count()) {
        Ok(zeros) => Ok(zeros),
        Err(_) => Err(AllocError),
    }
}

// So many slots in which no neighbour stands.
fn no_slots(count: usize, alloc: Global) -> Result<Listed<Option<Tid>>, AllocError>
    ensures { IfOk result (λ slots. slots ≡ replicate count None) }
{
    let none: Option<Tid> = None;
    let slots = vec![in alloc; none; count]?;
    Ok(Listed::from_vec(slots))
}
