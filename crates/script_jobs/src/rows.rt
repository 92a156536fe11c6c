//! The insert of a row, as a command.

ghost use Rattle.std.specs.Prelude.{◌≡◌, IfOk, IfErr, OnOk, Some};
ghost use Rattle.vec_names.specs.Params.{IsInRange};
ghost use Rattle.vec_names.specs.declared.params.Kind.TheVariants.{Hnsw};
ghost use Rattle.script_words.specs.declared.command.Command.TheVariants.{Insert};
ghost use Rattle.vec_steps.specs.Calls.{Goes, HoldsNone};
ghost use Rattle.script_jobs.specs.Jobs.{Does, Fails, reply_of};

use bit_code::Bits;
use hnsw_insert::{Inserted, insert};
use script_words::{Refusal, Reply};
use std::alloc::Global;
use vec_names::{HeapId, Listed};
use vec_steps::{OpFault, Steps};

// What an insert is answered.
fn reply_of(inserted: &Inserted) -> Reply
    ensures { result ≡ reply_of inserted.now }
{
    if inserted.joined {
        return Reply::Joined { at: inserted.at };
    }
    Reply::Put {
        at: inserted.at,
        level: inserted.level,
        version: inserted.version,
    }
}

/// Inserts a row, and tells the node that it has now, and where the call looked; or refuses a value of another length.
pub fn insert_row<S: Steps>(
    alloc: Global,
    steps: &mut S,
    id: HeapId,
    bits: &Bits,
    word: u64,
) -> Result<(Reply, Listed<u64>), OpFault>
    requires params { IsInRange (S.desk steps.old).params }
    requires nodes { (S.desk steps.old).params.kind ≡ Hnsw }
    requires gates { HoldsNone (S.seen steps.old) (S.desk steps.old).number }
    ensures goes { Goes S.desk S.stands S.comes_from (S.stands steps.old) steps.old steps.new }
    ensures ok { IfOk result (λ r. Does (S.stands steps.old) (S.desk steps.old) (S.seen steps.old) (S.seen steps.new)
        (Insert id bits.now (Some word)) r.1 r.0) }
    ensures gates { OnOk result (HoldsNone (S.seen steps.new) (S.desk steps.old).number) }
    ensures err { IfErr result (Fails (S.stands steps.old) (S.desk steps.old) (S.seen steps.old) (S.seen steps.new)
        (Insert id bits.now (Some word))) }
{
    match insert(alloc, steps, id, bits, word) {
        Ok(inserted) => Ok((reply_of(&inserted), inserted.trace.reads)),
        Err(OpFault::Dimensions { .. }) => {
            let reply = Reply::Refused {
                why: Refusal::Dimensions,
            };
            Ok((reply, Listed::new(alloc)))
        }
        Err(fault) => Err(fault),
    }
}
