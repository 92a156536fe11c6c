//! A command over an index that stands.

ghost use Rattle.std.specs.Prelude.{◌≡◌, IfOk, IfErr, OnOk};
ghost use Rattle.vec_names.specs.Params.{IsInRange};
ghost use Rattle.vec_names.specs.declared.params.Kind.TheVariants.{Hnsw};
ghost use Rattle.vec_steps.specs.Calls.{Goes, HoldsNone};
ghost use Rattle.script_jobs.specs.Jobs.{CanBeDone, Does, Fails, IsDone};

use crate::job::Job;
use crate::rows::insert_row;
use crate::searching::search_rows;
use crate::stats::count_nodes;
use script_words::{Command, Refusal, Reply};
use std::alloc::Global;
use vec_names::Listed;
use vec_steps::{OpFault, Steps};

// Does a command, and tells its reply and where it looked.
fn do_command<S: Steps>(
    alloc: Global,
    steps: &mut S,
    command: &Command,
) -> Result<(Reply, Listed<u64>), OpFault>
    requires params { IsInRange (S.desk steps.old).params }
    requires nodes { (S.desk steps.old).params.kind ≡ Hnsw }
    requires gates { HoldsNone (S.seen steps.old) (S.desk steps.old).number }
    requires can { CanBeDone command.now }
    ensures goes { Goes S.desk S.stands S.comes_from (S.stands steps.old) steps.old steps.new }
    ensures ok { IfOk result (λ r. Does (S.stands steps.old) (S.desk steps.old) (S.seen steps.old) (S.seen steps.new) command.now r.1 r.0) }
    ensures gates { OnOk result (HoldsNone (S.seen steps.new) (S.desk steps.old).number) }
    ensures err { IfErr result (Fails (S.stands steps.old) (S.desk steps.old) (S.seen steps.old) (S.seen steps.new) command.now) }
{
    match command {
        Command::Row { .. } | Command::Draw { .. } => Ok((Reply::Nothing, Listed::new(alloc))),
        Command::Create { .. } => {
            let reply = Reply::Refused {
                why: Refusal::Exists,
            };
            Ok((reply, Listed::new(alloc)))
        }
        Command::Insert {
            id,
            bits,
            word: Some(word),
        } => insert_row(alloc, steps, *id, bits, *word),
        Command::Search {
            bits,
            limit,
            ef,
            further,
        } => search_rows(alloc, steps, bits, *limit, *ef, *further),
        Command::Stats => {
            let counts = count_nodes(alloc, steps)?;
            Ok((Reply::Stats { counts }, Listed::new(alloc)))
        }
        _ => Err(OpFault::Memory),
    }
}

// These positions in room of just their length, where memory for that is found: a run keeps those of all its jobs.
fn fitted(alloc: Global, reads: Listed<u64>) -> Listed<u64>
    ensures { result ≡ reads }
{
    match reads.try_clone(alloc) {
        Ok(fit) => fit,
        Err(_) => reads,
    }
}

/// Does a command of a script over an index of nodes: what it is answered, and its job. An insert has its word filled in.
///
/// The desk holds no gate. A command that is refused makes no act and no look. Its errors are those of an insert, which has the causes
/// that `hnsw_insert` tells, of a search and of a count: `Memory`, `Full`, `LogFull` and `Disk`; a value of another length is no
/// fault, but is refused.
pub fn one<S: Steps>(
    alloc: Global,
    steps: &mut S,
    line: u64,
    command: &Command,
) -> Result<(Reply, Job), OpFault>
    requires params { IsInRange (S.desk steps.old).params }
    requires nodes { (S.desk steps.old).params.kind ≡ Hnsw }
    requires gates { HoldsNone (S.seen steps.old) (S.desk steps.old).number }
    requires can { CanBeDone command.now }
    ensures goes { Goes S.desk S.stands S.comes_from (S.stands steps.old) steps.old steps.new }
    ensures ok { IfOk result (λ r. IsDone (S.stands steps.old) (S.desk steps.old) (S.seen steps.old) (S.seen steps.new) line
        command.now r.0 r.1) }
    ensures gates { OnOk result (HoldsNone (S.seen steps.new) (S.desk steps.old).number) }
    ensures err { IfErr result (Fails (S.stands steps.old) (S.desk steps.old) (S.seen steps.old) (S.seen steps.new) command.now) }
{
    let before = steps.front();
    let (reply, reads) = do_command(alloc, steps, command)?;
    let job = Job {
        line,
        desk: steps.number(),
        before,
        after: steps.front(),
        reads: fitted(alloc, reads),
    };
    Ok((reply, job))
}
