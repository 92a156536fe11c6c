//! What a scan keeps between two batches.
#![tactic(auto)]

ghost use Rattle.std.specs.Prelude.{◌≡◌, ◌≤◌, IfOk, IfErr, None};
ghost use Rattle.vec_steps.specs.declared.fault.OpFault.TheVariants.{Memory};
ghost use Rattle.hnsw_scan.specs.Answering.{mode_of};
ghost use Rattle.hnsw_scan.specs.Scanning.{IsUnused, is_spent, wanted_of};

use crate::answer::Mode;
use bit_code::Bits;
use bit_dist::Dist;
use layer_search::Search;
use vec_steps::OpFault;

/// A scan that has had its first batch: the search of the lowest layer, and the distance of the
/// last row answered, if one was.
#[derive(Drop)]
pub struct Going {
    pub search: Search,
    pub last: Option<Dist>,
}

/// How far a scan is.
#[derive(Drop)]
pub enum Progress {
    /// It has had no batch.
    Unused,
    Under(Going),
    /// A call on it ended by a fault.
    Spent,
}

/// A scan of one graph for the rows whose values are nearest to a query, batch by batch, after
/// pgvector's iterative scans. It is used over one index: by desks that come after each other, each
/// of which has seen all that the one before had.
#[derive(Drop)]
pub struct ScanState {
    pub(crate) query: Bits,
    pub(crate) ef: u32,
    pub(crate) mode: Mode,
    pub(crate) max: u64,
    pub(crate) progress: Progress,
}

impl ScanState {
    /// A scan that has had no batch. Each batch takes up to `ef` elements, at least 1; in the modes
    /// that go on, a next batch looks at no further list once `max` elements are known.
    ///
    /// It takes no memory, and does not fail.
    pub fn make(query: Bits, ef: u32, mode: Mode, max: u64) -> Result<ScanState, OpFault>
        requires ef { 1 ≤ ef }
        ensures unused { IfOk result IsUnused }
        ensures wanted { IfOk result (λ state. wanted_of state ≡ record { query = query; ef = ef; mode = mode_of mode; max = max }) }
        ensures memory { IfErr result (λ e. e ≡ Memory) }
    {
        Ok(ScanState {
            query,
            ef,
            mode,
            max,
            progress: Progress::Unused,
        })
    }

    /// Whether a call on it ended by a fault: no further one may be made.
    pub fn spent(&self) -> bool
        ensures { result ≡ is_spent self.now }
    {
        match self.progress {
            Progress::Spent => true,
            _ => false,
        }
    }
}
