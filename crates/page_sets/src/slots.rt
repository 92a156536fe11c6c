//! Looks at the slots of a node.
#![tactic(auto, using(crate::proofs::ElementTold::no_links, crate::proofs::ElementTold::m_low, crate::proofs::NodeLooks::gone_slots))]

ghost use Rattle.std.specs.Prelude.{◌≡◌, ◌≤◌, ◌-◌, ◌+◌, ◌*◌, ◌==◌, if◌then◌else◌, min, take, drop, length};
ghost use Rattle.std.specs.Option.{option_copied};
ghost use Rattle.index_sizes.specs.declared.limits.TheConstants.{MOST_SLOTS as MostSlots};
ghost use Rattle.vec_names.specs.Params.{IsInRange};
ghost use Rattle.vec_tuples.specs.declared.links.Links.{Links};
ghost use Rattle.vec_tuples.specs.Spelling.{links_bytes};
ghost use Rattle.vec_tuples.specs.Reading.{links};
ghost use Rattle.page_redo.specs.PageTuples.{in_whole};
ghost use Rattle.vec_graph.specs.Graph.{layer_slots};
ghost use Rattle.vec_steps.specs.Telling.{list_told};
ghost use Rattle.page_sets.specs.Telling.{slots_answer, read_on};

use page_bytes::Page;
use page_redo::links_head_of;
use vec_names::Params;
use vec_steps::{Slots, Told, Word};
use vec_tuples::slot;

/// Which slots are looked at: those of a layer of a node of this level and version, whose neighbour tuple stands at an offset.
#[derive(Clone, Copy)]
pub struct LayerLook {
    pub off: u16,
    pub level: u8,
    pub version: u8,
    pub layer: u8,
}

/// Tells the slots of a layer, if the neighbour tuple stands there, is not deleted and of the version. It takes no memory.
pub fn tell_list(page: Option<&Page>, params: &Params, look: LayerLook, told: &mut Told)
    requires { IsInRange params.now }
    ensures told { list_told told.new.word told.new
        ≡ slots_answer params.now.m (read_on (links params.now) (option_copied page.entry) look.off) look.level look.version look.layer }
    ensures at { told.new.at ≡ told.old.at }
    ensures bits { told.new.bits ≡ told.old.bits }
{
    let Some(page) = page else {
        told.word = Word::Gone;
        return;
    };
    let Some(item) = page.item(look.off) else {
        told.word = Word::Gone;
        return;
    };
    tell_slots(item, params, look, told);
}

fn tell_slots(item: &[u8], params: &Params, look: LayerLook, told: &mut Told)
    requires { IsInRange params.now }
    ensures told { list_told told.new.word told.new
        ≡ slots_answer params.now.m (in_whole (links params.now item.now)) look.level look.version look.layer }
    ensures at { told.new.at ≡ told.old.at }
    ensures bits { told.new.bits ≡ told.old.bits }
{
    let Some(head) = links_head_of(item, params) else {
        told.word = Word::Gone;
        return;
    };
    if head.deleted || head.version != look.version {
        told.word = Word::Gone;
        return;
    }
    let (from, to) = layer_part(params.m, look.level, look.layer, head.count);
    fill_slots(item, from, to, &mut told.tids);
    told.word = Word::List;
}

/// From which slot on, and up to which, the slots of a layer stand, where there are `count` in all.
fn layer_part(m: u16, level: u8, layer: u8, count: u16) -> (u16, u16)
    requires { m ≤ 100 }
    ensures from { result.0 ≡ min (if layer == 0 then level * m else (level - layer) * m) count }
    ensures to { result.1 ≡ (if layer == 0 then count else min (result.0 + m) count) }
{
    if layer == 0 {
        return ((u16::from(level) * m).min(count), count);
    }
    let from = (u16::from(level.saturating_sub(layer)) * m).min(count);
    (from, (from + m).min(count))
}

fn fill_slots(item: &[u8], from: u16, to: u16, slots: &mut Slots)
    requires { (l : Links) × (item.now ≡ links_bytes l) × (to ≤ length l.tids) × (from ≤ to) × (to ≤ MostSlots) }
    ensures { (l : Links) → item.now ≡ links_bytes l → slots.new ≡ take (to - from) (drop from l.tids) }
{
    slots.clear();
    'slots: for at in from..to {
        slots.add(slot(item, at));
    }
}
