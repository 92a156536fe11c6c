//! Which rows of a node are dead.

ghost use Rattle.std.specs.Prelude.{◌≡◌, ◌+◌, ◌*◌, ◌≤◌, ◌<◌, length};
ghost use Rattle.hnsw_vacuum.specs.Masks.{IsMaskOf, one_if};

use vec_names::HeapId;

/// Which rows of a node are dead.
#[derive(Clone, Copy)]
pub struct Mask {
    /// The first row by the lowest bit.
    pub gone: u16,
    /// How many it names.
    pub count: u8,
}

// A mask with one row more before the others.
fn with_row(dead: bool, mask: Mask) -> Mask
    requires gone { 2 * mask.gone + 1 < 65536 }
    requires count { mask.count + 1 < 256 }
    ensures gone { result.gone ≡ one_if dead + 2 * mask.gone }
    ensures count { result.count ≡ one_if dead + mask.count }
{
    if dead {
        Mask {
            gone: 2 * mask.gone + 1,
            count: mask.count + 1,
        }
    } else {
        Mask {
            gone: 2 * mask.gone,
            count: mask.count,
        }
    }
}

/// Asks the test about each of at most 10 rows, once.
pub fn judge<F: Fn(HeapId) -> bool>(dead: &F, ids: &[HeapId]) -> Mask
    requires callable { F.IsAlwaysCallable dead.now }
    requires few { length ids.now ≤ 10 }
    ensures { IsMaskOf (λ id b. F.post dead.now id b) ids.now result }
{
    let mut mask = Mask { gone: 0, count: 0 };
    'asking: for k in (0..ids.len()).rev() {
        mask = with_row(dead(ids[k]), mask);
    }
    mask
}
