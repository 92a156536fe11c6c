//! The centres: first ones, and rounds until no row moves.

ghost use Rattle.std.specs.Prelude.{◌≡◌, ◌≤◌, ◌↔◌, ℕ, List, IsTrue, length, map, IfOk, IfErr};
ghost use Rattle.std.specs.List.{list_all};
ghost use Rattle.index_sizes.specs.declared.limits.TheConstants.{MOST_BITS as GREATEST};
ghost use Rattle.ivf_means.specs.declared.fault.BuildFault.TheVariants.{Memory};
ghost use Rattle.ivf_means.specs.Centres.{values_of, nearest, after_rounds, after_round, centres_of};
ghost use Rattle.ivf_means.specs.Working.{HaveLength, RowsHaveLength};

use crate::assigning::assign;
use crate::first::choose_first;
use crate::recentring::recentre;
use crate::{BuildFault, Row};
use bit_code::Bits;
use index_sizes::{MOST_BITS, MOST_BLOCKS};
use std::alloc::{AllocError, Global};
use std::thread::Threads;
use vec_names::Params;

/// How many rounds there are at most behind the first one.
const MOST_MORE: u32 = 19;

/// The centres of an index of lists over these rows: k-means by Hamming distance. The first centres are the row that the word names,
/// modulo the number of rows, and then each time the row farthest from its nearest centre. In a round each row goes to its nearest
/// centre, the one of the lowest list of equal ones, and each place of a centre becomes 1 where more than half of its rows have a 1;
/// a centre without rows stays. From the second round on the rounds end where no row moved, and after twenty rounds. Without rows all
/// centres are zero.
///
/// The number of workers does not matter. `Memory` is its one refusal.
pub fn centres<R: Threads + Sync>(
    rt: &R,
    alloc: Global,
    rows: &[Row],
    params: Params,
    word: u64,
) -> Result<Vec<Bits>, BuildFault>
    requires bits_low { 1 ≤ params.bits }
    requires bits_high { params.bits ≤ GREATEST }
    requires lists_low { 1 ≤ params.lists }
    requires lists_high { params.lists ≤ MOST_BLOCKS }
    requires long { RowsHaveLength params.bits rows.now }
    ensures value { IfOk result (λ v. v.items ≡ centres_of params word (values_of rows.now)) }
    ensures memory { IfErr result (λ e. e ≡ Memory) }
{
    let mut centres = choose_first(alloc, rows, params, word)?;
    let mut ones = counts(alloc, params.bits as usize)?;
    let mut assigned = assign(rt, alloc, rows, centres.as_slice(), params.bits)?;
    move_all(&mut centres, rows, &assigned, &mut ones);
    for round in 0..MOST_MORE {
        let next = assign(rt, alloc, rows, centres.as_slice(), params.bits)?;
        if are_same(next.as_slice(), assigned.as_slice()) {
            return Ok(centres);
        }
        assigned = next;
        move_all(&mut centres, rows, &assigned, &mut ones);
    }
    Ok(centres)
}

fn are_same(a: &[u32], b: &[u32]) -> bool
    ensures { IsTrue result ↔ (a.now ≡ b.now) }
{
    a == b
}

// Moves each centre to the majority of its rows.
fn move_all(centres: &mut Vec<Bits>, rows: &[Row], assigned: &Vec<u32>, ones: &mut Vec<u64>)
    requires few { length centres.old.items ≤ MOST_BLOCKS }
    requires same { length assigned.now.items ≡ length rows.now }
    requires long { HaveLength (length ones.old.items) centres.old.items }
    requires rows { RowsHaveLength (length ones.old.items) rows.now }
    ensures round { assigned.now.items ≡ map (nearest centres.old.items) (values_of rows.now)
        → centres.new.items ≡ after_round (values_of rows.now) centres.old.items }
    ensures room { length ones.new.items ≡ length ones.old.items }
{
    recentre(
        centres.as_mut_slice(),
        rows,
        assigned.as_slice(),
        ones.as_mut_slice(),
    );
}

// Room for a count for each place.
fn counts(alloc: Global, places: usize) -> Result<Vec<u64>, AllocError>
    requires { places ≤ GREATEST }
    ensures { IfOk result (λ v. length v.items ≡ places) }
{
    vec![in alloc; 0u64; places]
}
