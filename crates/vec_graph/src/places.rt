//! Where a new node may stand.

ghost use Rattle.std.specs.Prelude.{◌≡◌, ◌↔◌, ◌<◌, ◌≤◌, ◌^◌, IsTrue, find};
ghost use Rattle.std.specs.FinMap as map;
ghost use Rattle.vec_names.specs.Places.{tid_of};
ghost use Rattle.vec_graph.specs.Places.{element_need, list_need, taken_on, room, last_off, greatest_off, next_off, fresh_at, fits_one_page};
ghost use Rattle.vec_graph.specs.Places.{is_reusable, reused, together_on, apart_on, fresh_on, place_on, new_blocks, new_place};

use crate::graph::Graph;
use crate::node::Node;
use crate::place::Place;
use index_sizes::{LAST_BLOCK, PAGE_ROOM, element_size, item_need, links_size, slots_of_level};
use vec_names::Tid;

/// The highest offset on a page.
const LAST_OFF: u32 = 65_535;

impl Graph {
    /// The place on a block for a node of this level, if there is one: that of the first deleted node of its level, or
    /// else a fresh one.
    pub fn place_on(&self, block: u32, level: u8) -> Option<Place>
        ensures { result ≡ place_on self.now block level }
    {
        if block < 1 || block >= self.blocks {
            return None;
        }
        match self.reused(block, level) {
            Some(place) => Some(place),
            None => self.fresh_on(block, level),
        }
    }

    /// The place for a node of this level on new blocks; None where their numbers are not in range.
    pub fn new_place(&self, level: u8) -> Option<Place>
        ensures { result ≡ new_place self.now level }
    {
        let block = u64::from(self.blocks);
        if self.fits_one_page(level) {
            fresh_at(block, 1, block, 2)
        } else {
            fresh_at(block, 1, block + 1, 1)
        }
    }

    /// How many new blocks a node of this level takes where it finds no place: 1 or 2.
    pub fn new_blocks(&self, level: u8) -> u32
        ensures { result ≡ new_blocks self.now level }
    {
        if self.fits_one_page(level) { 1 } else { 2 }
    }

    // ---- what stands on a block

    fn element_need(&self) -> u64
        ensures exact { result ≡ element_need self.now }
        ensures small { result < 2 ^ 32 }
    {
        item_need(element_size(self.params.bits))
    }

    fn list_need(&self, level: u8) -> u64
        ensures exact { result ≡ list_need self.now level }
        ensures small { result < 2 ^ 32 }
    {
        item_need(links_size(slots_of_level(self.params.m, level)))
    }

    fn fits_one_page(&self, level: u8) -> bool
        ensures { result ≡ fits_one_page self.now level }
    {
        self.element_need() + self.list_need(level) <= PAGE_ROOM as u64
    }

    fn taken_on(&self, block: u32, at: Tid, node: &Node) -> u64
        ensures { result ≡ taken_on self.now block (at, node.now) }
    {
        let element = if at.block == block {
            self.element_need()
        } else {
            0
        };
        let list = if node.list_at.block == block {
            self.list_need(node.level)
        } else {
            0
        };
        element + list
    }

    fn room(&self, block: u32) -> u64
        ensures { result ≡ room self.now block }
    {
        let mut room = PAGE_ROOM as u64;
        for (at, node) in self.nodes.iter() {
            room = room.saturating_sub(self.taken_on(block, *at, node));
        }
        room
    }

    fn next_off(&self, block: u32) -> u32
        ensures exact { result ≡ next_off self.now block }
        ensures small { result ≤ 65536 }
    {
        let mut last = 0;
        for (at, node) in self.nodes.iter() {
            last = last.max(last_off(block, *at, node));
        }
        u32::from(last) + 1
    }

    // ---- a place

    fn reused(&self, block: u32, level: u8) -> Option<Place>
        ensures { result ≡ reused (find (is_reusable block level) (map.entries self.now.nodes)) }
    {
        for (at, node) in self.nodes.iter() {
            if at.block == block && node.deleted && node.level == level {
                return Some(Place {
                    at: *at,
                    list_at: node.list_at,
                    version: node.version,
                });
            }
        }
        None
    }

    fn fresh_on(&self, block: u32, level: u8) -> Option<Place>
        ensures { result ≡ fresh_on self.now block level }
    {
        if self.fits_one_page(level) {
            self.together_on(block, level)
        } else {
            self.apart_on(block, level)
        }
    }

    fn together_on(&self, block: u32, level: u8) -> Option<Place>
        ensures { result ≡ together_on self.now block level }
    {
        if self.element_need() + self.list_need(level) > self.room(block) {
            return None;
        }
        let off = self.next_off(block);
        fresh_at(u64::from(block), off, u64::from(block), off + 1)
    }

    fn apart_on(&self, block: u32, level: u8) -> Option<Place>
        ensures { result ≡ apart_on self.now block level }
    {
        let blocks = self.blocks;
        if block >= blocks || block + 1 >= blocks {
            return None;
        }
        let behind = block + 1;
        if self.element_need() > self.room(block) || self.list_need(level) > self.room(behind) {
            return None;
        }
        fresh_at(
            u64::from(block),
            self.next_off(block),
            u64::from(behind),
            self.next_off(behind),
        )
    }
}

fn last_off(block: u32, at: Tid, node: &Node) -> u16
    ensures { result ≡ last_off block (at, node.now) }
{
    let element = if at.block == block { at.off } else { 0 };
    let list = if node.list_at.block == block {
        node.list_at.off
    } else {
        0
    };
    element.max(list)
}

// A fresh place, if these numbers are in range.
fn fresh_at(block: u64, off: u32, list_block: u64, list_off: u32) -> Option<Place>
    ensures { result ≡ fresh_at block off list_block list_off }
{
    let at = tid(block, off)?;
    let list_at = tid(list_block, list_off)?;
    Some(Place {
        at,
        list_at,
        version: 1,
    })
}

fn tid(block: u64, off: u32) -> Option<Tid>
    ensures { result ≡ tid_of block off }
{
    if block > u64::from(LAST_BLOCK) {
        return None;
    }
    if off > LAST_OFF {
        return None;
    }
    Tid::new(block as u32, off as u16)
}
