//! Each row to its nearest centre.

ghost use Rattle.std.specs.Prelude.{◌≡◌, ◌≤◌, ℕ, length, map, IfOk, IfErr};
ghost use Rattle.ivf_means.specs.declared.fault.BuildFault.TheVariants.{Memory};
ghost use Rattle.ivf_means.specs.Centres.{values_of, nearest};
ghost use Rattle.ivf_means.specs.Working.{HaveLength, RowsHaveLength};

use crate::choosing::nearest_of;
use crate::{BuildFault, Row};
use bit_code::Bits;
use index_sizes::MOST_BLOCKS;
use rayon::prelude::*;
use std::alloc::Global;
use std::thread::Threads;

/// The number of each row's nearest centre, the lowest of equal ones. The rows are shared among workers.
pub fn assign<R: Threads + Sync>(
    rt: &R,
    alloc: Global,
    rows: &[Row],
    centres: &[Bits],
    bits: u32,
) -> Result<Vec<u32>, BuildFault>
    requires some { 1 ≤ length centres.now }
    requires few { length centres.now ≤ MOST_BLOCKS }
    requires long { HaveLength bits centres.now }
    requires rows { RowsHaveLength bits rows.now }
    ensures value { IfOk result (λ v. v.items ≡ map (nearest centres.now) (values_of rows.now)) }
    ensures memory { IfErr result (λ e. e ≡ Memory) }
{
    let assigned = rows
        .par_iter()
        .map(
            |row: &Row| -> u32
                requires some { 1 ≤ length centres.now }
                requires few { length centres.now ≤ MOST_BLOCKS }
                requires long { HaveLength (length row.now.bits) centres.now }
                ensures { result ≡ nearest centres.entry.now row.now.bits }
            { nearest_of(centres, &row.bits) },
        )
        .collect(rt, alloc)?;
    Ok(assigned)
}
