//! The level of a new node.

ghost use Rattle.std.specs.Prelude.{◌≡◌, ◌≤◌, ◌/◌, ◌^◌};
ghost use Rattle.vec_names.specs.Levels.{most_level, level_of};

use index_sizes::MOST_SLOTS;

/// The highest level of a node where upper layers have `m` slots and the lowest one twice as many: its slots fit
/// one item of a page, and the level one byte.
pub fn most_level(m: u16) -> u8
    ensures { result ≡ most_level m }
{
    let fitting = if m == 0 { 0 } else { MOST_SLOTS as u16 / m };
    fitting.saturating_sub(2).min(255) as u8
}

/// The level of a new node for a random word, `m` being from 2 to 100: the number of levels from 1 on, up to the
/// highest, that the word reaches, each being reached by the lowest 2^64 / m^level words. So each further level comes
/// with one chance in m, as in the HNSW paper where its scale is 1 / ln m. It takes no memory.
pub fn level_of(word: u64, m: u16) -> u8
    requires low { 2 ≤ m }
    requires high { m ≤ 100 }
    ensures { result ≡ level_of word m }
{
    let most = most_level(m);
    let mut reaching = 1u128 << 64;
    'levels: for level in 0..most {
        reaching /= u128::from(m);
        if u128::from(word) >= reaching {
            return level;
        }
    }
    most
}
