// The replies of `exact`.
ghost use Rattle.std.specs.Prelude.{◌≡◌, [], ◌++◌, length, OnOk, IfOk};
ghost use Rattle.std.specs.List.{All, cons_option};
ghost use Rattle.script_words.specs.Grammar.{places_in};
ghost use Rattle.script_words.specs.Replies.{hits_text};
ghost use Rattle.vec_names.specs.declared.params.Ops.TheVariants.{Hamming};
ghost use Rattle.vec_run.specs.Replies.{hit_with, nearest};

use bit_code::Bits;
use bit_dist::{Dist, distance};
use script_words::{Command, write_hits};
use std::alloc::{AllocError, Global};
use vec_names::{HeapId, Ops};

/// Appends the reply to a query: the rows among the commands above it, by (distance, id).
pub fn write_answer(
    alloc: Global,
    above: &[Command],
    value: &Bits,
    into: &mut Vec<u8>,
) -> Result<(), AllocError>
    requires { All (λ command. places_in command ≡ length value.now) above.now }
    ensures { OnOk result (into.new.items ≡ into.old.items ++ hits_text Hamming (nearest value.now above.now)) }
{
    let hits = nearest_rows(alloc, above, value)?;
    write_hits(Ops::Hamming, &hits, into)
}

fn nearest_rows(
    alloc: Global,
    above: &[Command],
    value: &Bits,
) -> Result<Vec<(Dist, HeapId)>, AllocError>
    requires { All (λ command. places_in command ≡ length value.now) above.now }
    ensures { IfOk result (λ hits. hits.items ≡ nearest value.now above.now) }
{
    let mut hits = Vec::with_capacity(alloc, above.len())?;
    for command in above {
        push_hit(command, value, &mut hits)?;
    }
    hits.sort()?;
    Ok(hits)
}

// A row is a hit, and no other command is one.
fn push_hit(
    command: &Command,
    value: &Bits,
    hits: &mut Vec<(Dist, HeapId)>,
) -> Result<(), AllocError>
    requires { places_in command.now ≡ length value.now }
    ensures { OnOk result (hits.new.items ≡ hits.old.items ++ cons_option (hit_with value.now command.now) []) }
{
    match command {
        Command::Row { id, bits, .. } => {
            hits.push((distance(Ops::Hamming, bits, value), *id))?;
            Ok(())
        }
        _ => Ok(()),
    }
}
