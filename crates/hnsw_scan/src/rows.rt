// The rows of elements, and which of them are let through.
#![tactic(auto)]

ghost use Rattle.std.specs.Prelude.{◌≡◌, ◌∷◌, ◌++◌, [], List, IfOk, OnOk, flat_map};
ghost use Rattle.graph_search.specs.Scan.{Given, is_less, last_dist, let_through, rows_of, without_nearer};
ghost use Rattle.graph_search.specs.ByHolding.{elements_in};
ghost use Rattle.hnsw_scan.specs.Answering.{given_in, given_of, mode_of, rows_at};

use crate::answer::{Answer, Mode};
use bit_dist::Dist;
use neighbour_pick::Found;
use std::alloc::{AllocError, Global};
use vec_names::{HeapId, Listed, Tid};

/// Puts rows of one element last, in their order.
pub fn put_rows(
    into: &mut Listed<Answer>,
    at: Tid,
    version: u8,
    dist: Dist,
    ids: &[HeapId],
) -> Result<(), AllocError>
    ensures { OnOk result (given_in into.new ≡ given_in into.old ++ rows_at at version dist ids.now) }
{
    for id in ids {
        into.push(Answer {
            id: *id,
            dist,
            at,
            version,
        })?;
    }
    Ok(())
}

/// The rows of the elements of a batch, in their order.
pub fn rows_in(alloc: Global, batch: &[(Found, bool)]) -> Result<Listed<Answer>, AllocError>
    ensures { IfOk result (λ rows. given_in rows ≡ flat_map rows_of (elements_in batch.now)) }
{
    let mut rows = Listed::new(alloc);
    for taken in batch {
        let element = &taken.0;
        put_rows(
            &mut rows,
            element.at,
            element.version,
            element.dist,
            element.ids.as_slice(),
        )?;
    }
    Ok(rows)
}

/// The rows that a mode lets through, where the last row answered before them had this distance.
pub fn let_through(
    alloc: Global,
    mode: Mode,
    last: Option<Dist>,
    rows: Listed<Answer>,
) -> Result<Listed<Answer>, AllocError>
    ensures { IfOk result (λ answers. given_in answers ≡ let_through (mode_of mode) last (given_in rows)) }
{
    match mode {
        Mode::Off => Ok(Listed::new(alloc)),
        Mode::Relaxed => Ok(rows),
        Mode::Strict => without_nearer(alloc, last, rows.as_slice()),
    }
}

fn without_nearer(
    alloc: Global,
    last: Option<Dist>,
    rows: &[Answer],
) -> Result<Listed<Answer>, AllocError>
    ensures { IfOk result (λ answers. given_in answers ≡ without_nearer last (given_in rows.now)) }
{
    let mut answers = Listed::new(alloc);
    let mut nearest = last;
    for row in rows {
        nearest = put_unless_nearer(&mut answers, nearest, *row)?;
    }
    Ok(answers)
}

// Puts a row last that is not nearer than the last one before it, and tells the distance of the last one now.
fn put_unless_nearer(
    answers: &mut Listed<Answer>,
    last: Option<Dist>,
    row: Answer,
) -> Result<Option<Dist>, AllocError>
    ensures { IfOk result (λ now. (rest : List Given) → given_in answers.new ++ without_nearer now rest
        ≡ given_in answers.old ++ without_nearer last (given_of row ∷ rest)) }
{
    if is_less(row.dist, last) {
        return Ok(last);
    }
    answers.push(row)?;
    Ok(Some(row.dist))
}

fn is_less(dist: Dist, last: Option<Dist>) -> bool
    ensures { result ≡ is_less dist last }
{
    match last {
        None => false,
        Some(last) => dist.cmp(&last).is_lt(),
    }
}

/// The distance of the last row answered, if one was.
pub fn last_dist(last: Option<Dist>, answers: &[Answer]) -> Option<Dist>
    ensures { result ≡ last_dist last (given_in answers.now) }
{
    let mut now = last;
    for answer in answers {
        now = Some(answer.dist);
    }
    now
}
