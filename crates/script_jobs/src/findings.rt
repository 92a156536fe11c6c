//! What a search has found so far.

ghost use Rattle.std.specs.Prelude.{◌≡◌, ◌++◌, [], false, OnOk, length, map, take};
ghost use Rattle.hnsw_scan.specs.Answering.{given_in, mode_of};
ghost use Rattle.script_jobs.specs.Searching.{AreHits, hit_of, is_finished};

use bit_dist::Dist;
use hnsw_scan::{Answer, Batch, Mode};
use script_words::Reply;
use std::alloc::{AllocError, Global};
use vec_names::{HeapId, Listed, Ops};

/// The rows that a search has found, batch after batch; whether the last batch was the end of the scan; and where it looked.
#[derive(Drop)]
pub struct Findings {
    pub hits: Listed<(Dist, HeapId)>,
    pub end: bool,
    pub reads: Listed<u64>,
}

// Puts the rows of a batch last.
fn put_hits(hits: &mut Listed<(Dist, HeapId)>, answers: &[Answer]) -> Result<(), AllocError>
    ensures { OnOk result (hits.new ≡ hits.old ++ map hit_of (given_in answers.now)) }
{
    for answer in answers {
        hits.push((answer.dist, answer.id))?;
    }
    Ok(())
}

// The first hits, at most so many.
fn first_of(hits: Listed<(Dist, HeapId)>, limit: u64) -> Listed<(Dist, HeapId)>
    ensures { result ≡ take limit hits }
{
    let mut hits = hits;
    if limit < hits.len() as u64 {
        hits.truncate(limit as usize);
    }
    hits
}

impl Findings {
    /// Nothing was found yet.
    pub fn new(alloc: Global) -> Findings
        ensures hits { result.hits ≡ [] }
        ensures reads { result.reads ≡ [] }
        ensures end { result.end ≡ false }
    {
        Findings {
            hits: Listed::new(alloc),
            end: false,
            reads: Listed::new(alloc),
        }
    }

    /// Adds the rows and looks of a batch.
    pub fn add(&mut self, batch: Batch) -> Result<(), AllocError>
        ensures hits { OnOk result (self.new.hits ≡ self.old.hits ++ map hit_of (given_in batch.answers)) }
        ensures reads { OnOk result (self.new.reads ≡ self.old.reads ++ batch.trace.reads) }
        ensures end { OnOk result (self.new.end ≡ batch.end) }
    {
        put_hits(&mut self.hits, batch.answers.as_slice())?;
        self.reads.extend_from_slice(batch.trace.reads.as_slice())?;
        self.end = batch.end;
        Ok(())
    }

    /// Whether the search ends here.
    pub fn are_enough(&self, mode: Mode, limit: u64) -> bool
        ensures { result ≡ is_finished (mode_of mode) limit (length self.now.hits) self.now.end }
    {
        match mode {
            Mode::Off => true,
            Mode::Relaxed | Mode::Strict => self.end || limit <= self.hits.len() as u64,
        }
    }

    /// The reply with the first hits, at most so many, and where the search looked.
    pub fn told(self, ops: Ops, limit: u64) -> (Reply, Listed<u64>)
        ensures hits { AreHits ops (take limit self.hits) result.0 }
        ensures reads { result.1 ≡ self.reads }
    {
        let hits = first_of(self.hits, limit).into_vec();
        (Reply::Hits { ops, hits }, self.reads)
    }
}
