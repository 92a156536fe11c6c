//! The first centres.

ghost use Rattle.std.specs.Prelude.{◌≡◌, ◌<◌, ◌≤◌, ◌-◌, ◌%◌, ℕ, min, length, map, replicate, false, get_or, [], ◌∷◌, IfOk, IfErr};
ghost use Rattle.bit_code.specs.Places.{unequal};
ghost use Rattle.index_sizes.specs.declared.limits.TheConstants.{MOST_BITS as GREATEST};
ghost use Rattle.ivf_means.specs.declared.fault.BuildFault.TheVariants.{Memory};
ghost use Rattle.ivf_means.specs.Centres.{values_of, with_farthest, first_centres};
ghost use Rattle.ivf_means.specs.Working.{RowsHaveLength};

use crate::choosing::greatest_of;
use crate::{BuildFault, Row};
use bit_code::{Bits, count_unequal};
use std::alloc::Global;
use vec_names::Params;

/// The first centres: the row that the word names, then each time the row farthest from its nearest centre. Zeros
/// where there are no rows.
pub fn choose_first(
    alloc: Global,
    rows: &[Row],
    params: Params,
    word: u64,
) -> Result<Vec<Bits>, BuildFault>
    requires bits_low { 1 ≤ params.bits }
    requires bits_high { params.bits ≤ GREATEST }
    requires lists { 1 ≤ params.lists }
    requires long { RowsHaveLength params.bits rows.now }
    ensures value { IfOk result (λ v. v.items ≡ first_centres params word (values_of rows.now)) }
    ensures memory { IfErr result (λ e. e ≡ Memory) }
{
    if rows.is_empty() {
        zeros(alloc, params.lists, params.bits)
    } else {
        spread(alloc, rows, params, word)
    }
}

fn zeros(alloc: Global, lists: u32, bits: u32) -> Result<Vec<Bits>, BuildFault>
    requires low { 1 ≤ bits }
    requires high { bits ≤ GREATEST }
    ensures value { IfOk result (λ v. v.items ≡ replicate lists (replicate bits false)) }
    ensures memory { IfErr result (λ e. e ≡ Memory) }
{
    let mut centres = Vec::with_capacity(alloc, lists as usize)?;
    for list in 0..lists {
        centres.push(zero(alloc, bits)?)?;
    }
    Ok(centres)
}

// A value of zeros. Only memory can be wanting.
fn zero(alloc: Global, bits: u32) -> Result<Bits, BuildFault>
    requires low { 1 ≤ bits }
    requires high { bits ≤ GREATEST }
    ensures value { IfOk result (λ b. b ≡ replicate bits false) }
    ensures memory { IfErr result (λ e. e ≡ Memory) }
{
    match Bits::zeros(alloc, bits) {
        Ok(bits) => Ok(bits),
        Err(_) => Err(BuildFault::Memory),
    }
}

// Each row keeps its distance to its nearest centre so far, so that a further centre costs one distance a row.
fn spread(alloc: Global, rows: &[Row], params: Params, word: u64) -> Result<Vec<Bits>, BuildFault>
    requires some { 1 ≤ length rows.now }
    requires lists { 1 ≤ params.lists }
    requires long { RowsHaveLength params.bits rows.now }
    ensures value { IfOk result (λ v. v.items ≡ with_farthest (params.lists - 1) (values_of rows.now)
        (get_or (values_of rows.now) (word % length rows.now) [] ∷ [])) }
    ensures memory { IfErr result (λ e. e ≡ Memory) }
{
    let mut centres = Vec::with_capacity(alloc, params.lists as usize)?;
    let first = (word % rows.len() as u64) as usize;
    let mut gaps = gaps_to(alloc, rows, &rows[first].bits)?;
    centres.push(rows[first].bits.copied()?)?;
    for more in 1..params.lists {
        let next = greatest_of(gaps.as_slice());
        let chosen = &rows[next];
        narrow(gaps.as_mut_slice(), rows, &chosen.bits);
        centres.push(chosen.bits.copied()?)?;
    }
    Ok(centres)
}

// The distance of each row to a centre.
fn gaps_to(alloc: Global, rows: &[Row], centre: &Bits) -> Result<Vec<u32>, BuildFault>
    requires long { RowsHaveLength (length centre.now) rows.now }
    ensures value { IfOk result (λ v. v.items ≡ map (unequal centre.now) (values_of rows.now)) }
    ensures memory { IfErr result (λ e. e ≡ Memory) }
{
    let mut gaps = Vec::with_capacity(alloc, rows.len())?;
    for row in rows {
        gaps.push(count_unequal(centre, &row.bits))?;
    }
    Ok(gaps)
}

// The least of each row's gap and its distance to one centre more.
fn narrow(gaps: &mut [u32], rows: &[Row], centre: &Bits)
    requires same { length gaps.old ≡ length rows.now }
    requires long { RowsHaveLength (length centre.now) rows.now }
    ensures same { length gaps.new ≡ length gaps.old }
    ensures each { (k : ℕ) → k < length rows.now
        → get_or gaps.new k 0 ≡ min (get_or gaps.old k 0) (unequal centre.now (get_or (values_of rows.now) k [])) }
{
    for k in 0..rows.len() {
        gaps[k] = gaps[k].min(count_unequal(centre, &rows[k].bits));
    }
}
