//! What a vacuum has done so far, and what is left of its budget.

ghost use Rattle.std.specs.Prelude.{◌≡◌, ◌+◌, true, IfOk, IfErr};
ghost use Rattle.vec_steps.specs.declared.fault.OpFault.TheVariants.{Memory};
ghost use Rattle.vec_steps.specs.Telling.{clear_told, drop_told};
ghost use Rattle.hnsw_vacuum.specs.Tallies.{is_spent, one_less};
ghost use Rattle.hnsw_vacuum.specs.Dropping.{counts_drop};
ghost use Rattle.hnsw_vacuum.specs.Marking.{counts_mark};

use vec_steps::{OpFault, Word};

/// What a vacuum has done so far, and how many changes it may still make.
#[derive(Clone, Copy)]
pub struct Tally {
    /// How many rows its Drops took out.
    pub removed: u64,
    /// How many nodes it deleted.
    pub marked: u64,
    /// How many changes it may still make; None is no bound.
    pub left: Option<u64>,
    /// A change was due for which nothing was left. Nothing more is done then.
    pub due: bool,
}

// Whether no change may be made any more.
pub fn is_spent(left: Option<u64>) -> bool
    ensures { result ≡ is_spent left }
{
    match left {
        Some(count) => count == 0,
        None => false,
    }
}

fn one_less(left: Option<u64>) -> Option<u64>
    ensures { result ≡ one_less left }
{
    match left {
        Some(count) => Some(count.saturating_sub(1)),
        None => None,
    }
}

// A change is due for which nothing is left.
pub fn now_due(tally: Tally) -> Tally
    ensures { result ≡ record tally { due = true } }
{
    Tally {
        removed: tally.removed,
        marked: tally.marked,
        left: tally.left,
        due: true,
    }
}

// A sum beyond 64 bits, which no index comes to, ends a call as want of memory does.
fn sum(a: u64, b: u64) -> Result<u64, OpFault>
    ensures sum { IfOk result (λ n. n ≡ a + b) }
    ensures memory { IfErr result (λ e. e ≡ Memory) }
{
    match a.checked_add(b) {
        Some(sum) => Ok(sum),
        None => Err(OpFault::Memory),
    }
}

// With the rows of a Drop, by its word.
pub fn counts_drop(tally: Tally, dead: u8, word: Word, left: u8) -> Result<Tally, OpFault>
    ensures counted { IfOk result (λ t. t ≡ counts_drop dead (drop_told word left) tally) }
    ensures memory { IfErr result (λ e. e ≡ Memory) }
{
    match word {
        Word::Done => {
            let removed = sum(tally.removed, u64::from(dead))?;
            Ok(Tally {
                removed,
                marked: tally.marked,
                left: one_less(tally.left),
                due: tally.due,
            })
        }
        _ => Ok(tally),
    }
}

// With the node of a Mark, by its word.
pub fn counts_mark(tally: Tally, word: Word) -> Result<Tally, OpFault>
    ensures counted { IfOk result (λ t. t ≡ counts_mark (clear_told word) tally) }
    ensures memory { IfErr result (λ e. e ≡ Memory) }
{
    match word {
        Word::Done => {
            let marked = sum(tally.marked, 1)?;
            Ok(Tally {
                removed: tally.removed,
                marked,
                left: one_less(tally.left),
                due: tally.due,
            })
        }
        _ => Ok(tally),
    }
}
