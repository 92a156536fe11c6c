// The index that a create names.
ghost use Rattle.std.specs.Prelude.{◌≡◌, ◌≤◌, Some, MatchOption, unwrap_or};
ghost use Rattle.vec_run.specs.Alone.{CanMake, params_of};

use vec_names::{Kind, Ops, Params};

// A number that may be left out, where it is at most this; None where it is greater.
fn at_most(n: Option<u64>, or: u16, most: u16) -> Option<u16>
    requires { or ≤ most }
    ensures { MatchOption result (unwrap_or n or ≤ most → ⊥) (λ small. (small ≡ unwrap_or n or) × (small ≤ most)) }
{
    match n {
        None => Some(or),
        Some(n) => {
            if n > u64::from(most) {
                return None;
            }
            Some(n as u16)
        }
    }
}

/// The parameters that a create names, where each number is in its range.
pub fn params_of(
    ops: Ops,
    bits: u64,
    m: Option<u64>,
    ef: Option<u64>,
    round: Option<u64>,
) -> Option<Params>
    ensures { MatchOption result (CanMake (params_of ops bits m ef) round → ⊥)
        (λ p. (p ≡ params_of ops bits m ef) × CanMake (params_of ops bits m ef) round) }
{
    let (Some(m), Some(ef), Some(round)) = (
        at_most(m, 16, 100),
        at_most(ef, 64, 1000),
        at_most(round, 256, 4096),
    ) else {
        return None;
    };
    if bits > 64_000 {
        return None;
    }
    let params = Params {
        kind: Kind::Hnsw,
        ops,
        bits: bits as u32,
        m,
        ef,
        lists: 0,
    };
    if round >= 1 && params.check() {
        return Some(params);
    }
    None
}
