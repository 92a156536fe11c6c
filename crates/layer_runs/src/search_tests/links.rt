// The links back to a new node. The desk changes nothing: a link that is asked for is refused for want of memory.
ghost use Rattle.std.specs.Prelude.{◌≡◌, IfOk, length};
ghost use Rattle.layer_search.specs.Listing.{ArePicksLong};

use super::lists::{desk_of, no_reads};
use super::{first_found, put, tid, value};
use bit_code::Bits;
use layer_search::{FoundLists, link_back};
use std::alloc::Global;
use std::test::*;
use vec_graph::Node;
use vec_names::{Listed, Mapped, Tid};
use vec_steps::OpFault;

// The lists of a node whose one neighbour is 0000 at 1/1.
fn one_neighbour(alloc: Global, bits: &Bits) -> Result<FoundLists, Fail>
    requires { length bits.now ≡ 4 }
    ensures { IfOk result (λ f. ArePicksLong 4 f.picks) }
{
    let mut picks = Listed::new(alloc);
    let first = first_found(alloc, "0000", bits)?;
    picks.push((0, first))?;
    Ok(FoundLists {
        lists: Listed::new(alloc),
        picks,
        near: Listed::new(alloc),
        top: Some(0),
    })
}

// 0000 at 1/1, which names these.
fn owner(alloc: Global, names: &[Option<Tid>]) -> Result<Mapped<Node>, Fail> {
    let mut nodes = Mapped::new(alloc);
    put(alloc, &mut nodes, 1, "0000", true, names)?;
    Ok(nodes)
}

// The neighbour names 1/5, where nothing stands. The node at 1/5 is named already, and no link is asked for. For the node at 1/7 the
// second slot is empty, and the link that is asked for is refused. Its list and the member were looked at.
#[test]
fn a_neighbour_names_a_node_once(rt: HostRuntime) -> Result<(), Fail> {
    let alloc = rt.alloc();
    let bits = value(alloc, "0011")?;
    let lists = one_neighbour(alloc, &bits)?;
    let mut trace = no_reads(alloc);
    let mut desk = desk_of(owner(alloc, &[Some(tid(5)), None, None, None])?, Some(0));
    let made = link_back(alloc, &mut desk, tid(5), &bits, &lists, &mut trace)?;
    assert!(rt; made == 0 && trace.reads.len() == 2);
    let refused = match link_back(alloc, &mut desk, tid(7), &bits, &lists, &mut trace) {
        Ok(_) => false,
        Err(fault) => fault == OpFault::Memory,
    };
    assert!(rt; refused && trace.reads.len() == 4);
    Ok(())
}

// All four members are at 1 from the neighbour and at 2 from each other; 0011 is at 2, and at 1 from one of them: it gets no slot.
// Where the neighbour is gone its list alone is looked at.
#[test]
fn a_full_neighbour_leaves_the_farthest_out(rt: HostRuntime) -> Result<(), Fail> {
    let alloc = rt.alloc();
    let bits = value(alloc, "0011")?;
    let lists = one_neighbour(alloc, &bits)?;
    let mut trace = no_reads(alloc);
    let names = [Some(tid(2)), Some(tid(3)), Some(tid(4)), Some(tid(5))];
    let mut nodes = owner(alloc, &names)?;
    let nobody = [None, None, None, None];
    put(alloc, &mut nodes, 2, "0001", true, &nobody)?;
    put(alloc, &mut nodes, 3, "0010", true, &nobody)?;
    put(alloc, &mut nodes, 4, "0100", true, &nobody)?;
    put(alloc, &mut nodes, 5, "1000", true, &nobody)?;
    let mut desk = desk_of(nodes, Some(0));
    let made = link_back(alloc, &mut desk, tid(7), &bits, &lists, &mut trace)?;
    assert!(rt; made == 0 && trace.reads.len() == 5);

    let mut empty = desk_of(Mapped::new(alloc), None);
    let made = link_back(alloc, &mut empty, tid(7), &bits, &lists, &mut trace)?;
    assert!(rt; made == 0 && trace.reads.len() == 6);
    Ok(())
}
