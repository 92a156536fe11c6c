//! What an event does to the page of a block.

ghost use Rattle.vec_names.specs.Params.{IsInRange};
ghost use Rattle.page_redo.specs.PageChanges.{put_element, put_links, grown, chained};
ghost use Rattle.page_redo.specs.Redo.{at_two, changed, redone, Becomes};
ghost use Rattle.page_redo.specs.OfParts.{IsMade, node_of, delete_element, delete_links};

use crate::fault::RedoFault;
use crate::head_changes::HeadChange;
use crate::in_place::{Deletion, change_head, empty, enter, hint, link, mark, relist};
use crate::list_pages::{Growth, add_entry, aim, chain, drop_entries, grow, list_block};
use crate::new_node::{NewNode, put_element, put_links};
use crate::two_places::{grow_both, mark_both, put_both};
use page_bytes::Page;
use vec_history::Event;
use vec_names::Params;

/// Does to the page of a block what an event does to it, and gives the page the event's number. `params` are the
/// index's. `wrap`, 15 or 255, is the version after which a Mark takes 1; after 255 it takes 1 as well. It takes no
/// memory.
///
/// `Unfit` exactly where the event does not touch the block or the page lacks what the event needs, and then the page
/// stays. A passing event touches no block.
pub fn redo(
    event: &Event,
    params: &Params,
    wrap: u8,
    number: u64,
    block: u32,
    page: &mut Page,
) -> Result<(), RedoFault>
    requires { IsInRange params.now }
    ensures { Becomes (redone event.now params.now wrap number block page.old) page.old page.new result }
{
    if change(event, params, wrap, block, page).is_none() {
        return Err(RedoFault::Unfit);
    }
    page.set_number(number);
    Ok(())
}

/// The page but for its number. None where the event does not fit the page, which then stays.
fn change(event: &Event, params: &Params, wrap: u8, block: u32, page: &mut Page) -> Option<()>
    requires { IsInRange params.now }
    ensures { IsMade (changed event.now params.now wrap block page.old) page.old page.new result }
{
    // One arm for each kind of event that changes a page.
    match event {
        Event::Put {
            at,
            list_at,
            version,
            level,
            id,
            bits,
            lists,
        } => put_node(
            page,
            params,
            block,
            NewNode {
                at: *at,
                list_at: *list_at,
                version: *version,
                level: *level,
                id: *id,
                bits,
                slots: lists.as_slice(),
            },
        ),
        Event::Join { at, version, id } => {
            if at.block != block {
                return None;
            }
            let change = HeadChange::MoreIds {
                version: *version,
                id: *id,
            };
            change_head(page, params, at.off, change)
        }
        Event::Link {
            at: _,
            list_at,
            version,
            slot,
            to,
        } => {
            if list_at.block != block {
                return None;
            }
            link(page, params, list_at.off, *version, *slot, *to)
        }
        Event::Relist {
            at: _,
            list_at,
            version,
            lists,
        } => {
            if list_at.block != block {
                return None;
            }
            relist(page, params, list_at.off, *version, lists.as_slice())
        }
        Event::Drop { at, version, gone } => {
            if at.block != block {
                return None;
            }
            let change = HeadChange::FewerIds {
                version: *version,
                gone: *gone,
            };
            change_head(page, params, at.off, change)
        }
        Event::Mark {
            at,
            list_at,
            version,
        } => mark_node(
            page,
            params,
            block,
            Deletion {
                at: *at,
                list_at: *list_at,
                version: *version,
                wrap,
            },
        ),
        Event::Entry { to, level } => {
            if block != 0 {
                return None;
            }
            enter(page, *to, *level)
        }
        Event::Hint { block: room } => {
            if block != 0 {
                return None;
            }
            hint(page, *room)
        }
        Event::IvfAdd {
            block: to,
            id,
            bits,
        } => {
            if *to != block {
                return None;
            }
            add_entry(page, params, *id, bits)
        }
        Event::IvfGrow {
            list: _,
            last,
            block: new,
            id,
            bits,
        } => grow_chain(
            page,
            params,
            block,
            Growth {
                last: *last,
                new: *new,
                id: *id,
                bits,
            },
        ),
        Event::IvfDrop { block: of, gone } => {
            if *of != block {
                return None;
            }
            drop_entries(page, params, gone.as_slice())
        }
        Event::IvfHint { list, block: to } => {
            if list_block(params, *list) != u64::from(block) {
                return None;
            }
            aim(page, params, *list, *to)
        }
        _ => None,
    }
}

/// A new node, where both of its tuples stand on the block or one of them does.
fn put_node(page: &mut Page, params: &Params, block: u32, node: NewNode) -> Option<()>
    requires { IsInRange params.now }
    ensures { let n = node_of node.entry in
        IsMade (at_two n.at.block (put_element params.now n) n.list_at.block (put_links params.now n) block page.old)
        page.old page.new result }
{
    if node.at.block != block {
        if node.list_at.block != block {
            return None;
        }
        return put_links(page, params, node);
    }
    if node.list_at.block != block {
        return put_element(page, params, node);
    }
    put_both(page, params, node)
}

/// A node is deleted, where both of its tuples stand on the block or one of them does.
fn mark_node(page: &mut Page, params: &Params, block: u32, node: Deletion) -> Option<()>
    requires { IsInRange params.now }
    ensures { IsMade
        (at_two node.at.block (delete_element params.now node) node.list_at.block (delete_links params.now node) block page.old)
        page.old page.new result }
{
    if node.at.block != block {
        if node.list_at.block != block {
            return None;
        }
        return empty(page, params, node);
    }
    if node.list_at.block != block {
        return mark(page, params, node);
    }
    mark_both(page, params, node)
}

/// A page more at the end of a list's chain, which is the block or follows it.
fn grow_chain(page: &mut Page, params: &Params, block: u32, growth: Growth) -> Option<()>
    ensures { let g = growth.entry in
        IsMade (at_two g.new (grown params.now g.id g.bits.now) g.last (chained params.now g.new g.bits.now) block page.old)
        page.old page.new result }
{
    if growth.new != block {
        if growth.last != block {
            return None;
        }
        return chain(page, params, growth.new, growth.bits);
    }
    if growth.last != block {
        return grow(page, params, growth.id, growth.bits);
    }
    grow_both(page, params, growth)
}
