//! The fields of an index's parameters, each in the range that those before it leave.
#![tactic(auto, unfolding(crate::specs::Reading::params, crate::specs::Reading::kind, byte_fields::specs::Reading::field, crate::specs::Reading::kind_in, crate::specs::Reading::ops_of, crate::specs::Reading::ops_in, crate::specs::Reading::m_of, crate::specs::Reading::ef_of, crate::specs::Reading::lists_of))]

ghost use Rattle.std.specs.Prelude.{◌≡◌, ◌≤◌, IfOk};
ghost use Rattle.byte_fields.specs.Answers.{Gives};
ghost use Rattle.vec_tuples.specs.Reading.{kind, ops_of, m_of, ef_of, lists_of, params};

use byte_fields::{Stop, four_bytes_from, two_bytes_from};
use index_sizes::{MOST_BITS, MOST_BLOCKS};
use vec_names::{Kind, Ops, Params};

pub fn params(bytes: &[u8]) -> Result<(Params, &[u8]), Stop>
    ensures { Gives (λ x. (x.0, x.1.now)) result (params bytes.now) }
{
    let (kind, rest) = kind(bytes)?;
    let (ops, rest) = ops_of(kind, rest)?;
    let (bits, rest) = four_bytes_from(1, MOST_BITS, rest)?;
    let (m, rest) = m_of(kind, rest)?;
    let (ef, rest) = ef_of(kind, m, rest)?;
    let (lists, rest) = lists_of(kind, rest)?;
    let params = Params {
        kind,
        ops,
        bits,
        m,
        ef,
        lists,
    };
    Ok((params, rest))
}

fn kind(bytes: &[u8]) -> Result<(Kind, &[u8]), Stop>
    ensures { Gives (λ x. (x.0, x.1.now)) result (kind bytes.now) }
{
    match bytes.split_first() {
        None => Err(Stop::short(bytes)),
        Some((front, rest)) => match *front {
            1 => Ok((Kind::Hnsw, rest)),
            2 => Ok((Kind::Ivf, rest)),
            _ => Err(Stop::bad(bytes)),
        },
    }
}

/// Lists have the Hamming distance alone.
fn ops_of(kind: Kind, bytes: &[u8]) -> Result<(Ops, &[u8]), Stop>
    ensures { Gives (λ x. (x.0, x.1.now)) result (ops_of kind bytes.now) }
{
    match bytes.split_first() {
        None => Err(Stop::short(bytes)),
        Some((front, rest)) => match (*front, kind) {
            (1, _) => Ok((Ops::Hamming, rest)),
            (2, Kind::Hnsw) => Ok((Ops::Jaccard, rest)),
            _ => Err(Stop::bad(bytes)),
        },
    }
}

fn m_of(kind: Kind, bytes: &[u8]) -> Result<(u16, &[u8]), Stop>
    ensures reads { Gives (λ x. (x.0, x.1.now)) result (m_of kind bytes.now) }
    ensures range { IfOk result (λ x. x.0 ≤ 100) }
{
    match kind {
        Kind::Hnsw => two_bytes_from(2, 100, bytes),
        Kind::Ivf => two_bytes_from(0, 0, bytes),
    }
}

fn ef_of(kind: Kind, m: u16, bytes: &[u8]) -> Result<(u16, &[u8]), Stop>
    requires { m ≤ 100 }
    ensures { Gives (λ x. (x.0, x.1.now)) result (ef_of kind m bytes.now) }
{
    match kind {
        Kind::Hnsw => two_bytes_from(2 * m, 1_000, bytes),
        Kind::Ivf => two_bytes_from(0, 0, bytes),
    }
}

fn lists_of(kind: Kind, bytes: &[u8]) -> Result<(u32, &[u8]), Stop>
    ensures { Gives (λ x. (x.0, x.1.now)) result (lists_of kind bytes.now) }
{
    match kind {
        Kind::Hnsw => four_bytes_from(0, 0, bytes),
        Kind::Ivf => four_bytes_from(1, MOST_BLOCKS, bytes),
    }
}
