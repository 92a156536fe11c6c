// The lists, by how near their centres are.
#![tactic(auto)]

ghost use Rattle.std.specs.Prelude.{◌≡◌, ◌++◌, OnOk, IfOk, IfErr, length, map};
ghost use Rattle.vec_names.specs.Params.{IsInRange};
ghost use Rattle.vec_names.specs.declared.params.Kind.TheVariants.{Ivf};
ghost use Rattle.ivf_graph.specs.Looks.{centre_pages};
ghost use Rattle.vec_steps.specs.declared.fault.OpFault.TheVariants.{Memory};
ghost use Rattle.vec_steps.specs.Calls.{Goes};
ghost use Rattle.ivf_ops.specs.Nearness.{near_of};
ghost use Rattle.ivf_ops.specs.Scanning.{ReadsCentres, nearest_lists};
ghost use Rattle.ivf_ops.specs.Viewing.{EndedBy};

use crate::looking::look_at_centres;
use crate::near::Near;
use bit_code::Bits;
use bit_dist::distance;
use index_sizes::centres_on_page;
use std::alloc::{AllocError, Global};
use vec_names::{Ops, Params};
use vec_steps::{Centre, OpFault, Steps, Told, Trace};

// On how many blocks the centres stand.
fn pages_of(params: Params) -> u32
    requires params { IsInRange params }
    requires lists { params.kind ≡ Ivf }
    ensures { result ≡ centre_pages params.bits params.lists }
{
    u64::from(params.lists).div_ceil(centres_on_page(params.bits)) as u32
}

// Puts these lists last, with how near each is.
fn put_nears(nears: &mut Vec<Near>, query: &Bits, centres: &[Centre]) -> Result<(), OpFault>
    ensures ok { OnOk result (nears.new.items ≡ nears.old.items ++ map (near_of query.now) centres.now) }
    ensures memory { IfErr result (λ e. e ≡ Memory) }
{
    for centre in centres {
        // Never over a base, where the value has the index's length: each centre has it too.
        if centre.bits.count() != query.count() {
            return Err(OpFault::Memory);
        }
        nears.push(Near {
            dist: distance(Ops::Hamming, &centre.bits, query),
            list: centre.list,
            first: centre.first,
            aim: centre.aim,
        })?;
    }
    Ok(())
}

/// Looks at all blocks of centres, from block 1 on: how near each list is to a value of the index's length, as pgvector's `ivfflat`
/// finds the lists of a scan or of a new row.
///
/// `told` was made for the index. The lists come in the order of their centres, and the looks to the end of `trace`, each by its
/// position. It makes no act. Its errors are `Memory`, also where a centre has another length than the value, and `Disk` where a step
/// met a fault of the disks, which leaves an act.
pub fn read_centres<S: Steps>(
    alloc: Global,
    steps: &mut S,
    query: &Bits,
    told: &mut Told,
    trace: &mut Trace,
) -> Result<Vec<Near>, OpFault>
    requires params { IsInRange (S.desk steps.old).params }
    requires lists { (S.desk steps.old).params.kind ≡ Ivf }
    requires bits { length told.old.bits ≡ (S.desk steps.old).params.bits }
    ensures goes { Goes S.desk S.stands S.comes_from (S.stands steps.old) steps.old steps.new }
    ensures bits { length told.new.bits ≡ (S.desk steps.old).params.bits }
    ensures ok { IfOk result (λ nears. ReadsCentres (S.stands steps.old) (S.desk steps.old) (S.seen steps.old) (S.seen steps.new)
        trace.old.reads trace.new.reads query.now
        (centre_pages (S.desk steps.old).params.bits (S.desk steps.old).params.lists) nears.items) }
    ensures err { IfErr result (EndedBy (S.stands steps.old) (S.desk steps.old) (S.seen steps.old) (S.seen steps.new)) }
{
    let pages = pages_of(steps.params());
    let mut nears = Vec::new(alloc);
    for page in 0..pages {
        look_at_centres(steps, page + 1, told, trace)?;
        put_nears(&mut nears, query, told.centres.as_slice())?;
    }
    Ok(nears)
}

/// The nearest of these lists, so many, or all where there are fewer: of two as near that of the lower number comes first. Its error is
/// want of memory.
pub fn nearest_of(nears: Vec<Near>, probes: u32) -> Result<Vec<Near>, AllocError>
    ensures { IfOk result (λ lists. lists.items ≡ nearest_lists probes nears.items) }
{
    let mut lists = nears;
    lists.sort()?;
    lists.truncate(probes as usize);
    Ok(lists)
}
