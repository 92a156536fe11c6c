//! What the command of a search asks of a scan.

ghost use Rattle.std.specs.Prelude.{◌≡◌};
ghost use Rattle.hnsw_scan.specs.Answering.{mode_of};
ghost use Rattle.script_jobs.specs.Searching.{IsPlanned, max_for, mode_for, number_or};

use hnsw_scan::Mode;
use script_words::Further;

/// How many candidates a search keeps where its command tells no number, as pgvector's `hnsw.ef_search`.
pub const USUAL_EF: u64 = 40;

/// The most candidates that a search may keep, as for pgvector's `hnsw.ef_search`.
pub const MOST_EF: u64 = 1_000;

/// Up to how many known elements a search goes on where its command tells no number, as pgvector's `hnsw.max_scan_tuples`.
pub const USUAL_MAX: u64 = 20_000;

/// The most known elements that a command may tell, as for pgvector's `hnsw.max_scan_tuples`.
pub const MOST_MAX: u64 = 2_147_483_647;

/// What a search asks of its scan: so many elements a batch, 1 to 1,000; how it goes on; and up to how many known elements.
#[derive(Clone, Copy)]
pub struct Plan {
    pub ef: u32,
    pub mode: Mode,
    pub max: u64,
}

// A number of a command, or the usual one.
fn number_or(usual: u64, told: Option<u64>) -> u64
    ensures { result ≡ number_or usual told }
{
    match told {
        Some(number) => number,
        None => usual,
    }
}

// How a search goes on after its first batch.
fn mode_for(further: Option<Further>) -> Mode
    ensures { mode_of result ≡ mode_for further }
{
    match further {
        None => Mode::Off,
        Some(Further::Relaxed { .. }) => Mode::Relaxed,
        Some(Further::Strict { .. }) => Mode::Strict,
    }
}

// Up to how many known elements a search goes on.
fn max_for(further: Option<Further>) -> u64
    ensures { result ≡ max_for further }
{
    match further {
        None => USUAL_MAX,
        Some(Further::Relaxed { most }) => number_or(USUAL_MAX, most),
        Some(Further::Strict { most }) => number_or(USUAL_MAX, most),
    }
}

/// What a search with these numbers asks of its scan; none where one of them is out of its range.
pub fn plan_for(ef: Option<u64>, further: Option<Further>) -> Option<Plan>
    ensures { IsPlanned ef further result }
{
    let ef = number_or(USUAL_EF, ef);
    let max = max_for(further);
    if ef < 1 || ef > MOST_EF || max < 1 || max > MOST_MAX {
        return None;
    }
    Some(Plan {
        ef: ef as u32,
        mode: mode_for(further),
        max,
    })
}
