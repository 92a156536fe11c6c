// The commands of a script over the index that stands.
ghost use Rattle.std.specs.Prelude.{◌≡◌, All, length, IfErr, OnOk};
ghost use Rattle.vec_names.specs.Params.{IsInRange};
ghost use Rattle.vec_names.specs.declared.params.Kind.TheVariants.{Hnsw};
ghost use Rattle.vec_steps.specs.Calls.{Goes, HoldsNone};
ghost use Rattle.script_jobs.specs.Jobs.{CanBeDone};
ghost use Rattle.vec_run.specs.Runs.{RunsAll, RunsOne, StopsAt, StopsIn, stop_of};

use crate::audit::Room;
use crate::done::Done;
use script_jobs::one;
use script_words::Command;
use std::alloc::Global;
use vec_steps::{OpFault, Steps};

/// Why commands over an index were given up.
#[derive(Clone, Copy, Debug, PartialEq, Eq)]
pub enum Stop {
    /// No memory was found.
    Memory,
    /// The index or its log has no room.
    Room(Room),
}

// What a fault makes of a run. A desk that is alone in memory meets no fault of disks.
fn stop_of(fault: OpFault) -> Stop
    ensures { result ≡ stop_of fault }
{
    match fault {
        OpFault::Full { blocks, need } => Stop::Room(Room::Blocks { blocks, need }),
        OpFault::LogFull { used, size } => Stop::Room(Room::Log { used, size }),
        OpFault::Memory | OpFault::Disk { .. } | OpFault::Dimensions { .. } => Stop::Memory,
    }
}

// Does one command.
fn do_next<S: Steps>(
    alloc: Global,
    steps: &mut S,
    line: u64,
    command: &Command,
    done: &mut Done,
) -> Result<(), Stop>
    requires params { IsInRange (S.desk steps.old).params }
    requires nodes { (S.desk steps.old).params.kind ≡ Hnsw }
    requires gates { HoldsNone (S.seen steps.old) (S.desk steps.old).number }
    requires can { CanBeDone command.now }
    ensures goes { Goes S.desk S.stands S.comes_from (S.stands steps.old) steps.old steps.new }
    ensures ok { OnOk result (RunsOne (S.stands steps.old) (S.desk steps.old) (S.seen steps.old) (S.seen steps.new) line command.now
        done.old done.new) }
    ensures gates { OnOk result (HoldsNone (S.seen steps.new) (S.desk steps.old).number) }
    ensures err { IfErr result (StopsAt (S.stands steps.old) (S.desk steps.old) (S.seen steps.old) (S.seen steps.new) command.now
        done.old done.new) }
{
    let (reply, job) = match one(alloc, steps, line, command) {
        Ok(both) => both,
        Err(fault) => return Err(stop_of(fault)),
    };
    match done.complete(alloc, &reply, job) {
        Ok(()) => Ok(()),
        Err(_) => Err(Stop::Memory),
    }
}

/// Does the commands of these lines, one after the other.
pub fn run_all<S: Steps>(
    alloc: Global,
    steps: &mut S,
    lines: &[u64],
    commands: &[Command],
    done: &mut Done,
) -> Result<(), Stop>
    requires params { IsInRange (S.desk steps.old).params }
    requires nodes { (S.desk steps.old).params.kind ≡ Hnsw }
    requires gates { HoldsNone (S.seen steps.old) (S.desk steps.old).number }
    requires long { length lines.now ≡ length commands.now }
    requires can { All CanBeDone commands.now }
    ensures goes { Goes S.desk S.stands S.comes_from (S.stands steps.old) steps.old steps.new }
    ensures ok { OnOk result (RunsAll (S.stands steps.old) (S.desk steps.old) (S.seen steps.old) (S.seen steps.new) lines.now commands.now
        done.old done.new) }
    ensures err { IfErr result (StopsIn (S.stands steps.old) (S.desk steps.old) (S.seen steps.old) (S.seen steps.new) lines.now
        commands.now done.old done.new) }
{
    'command: for i in 0..commands.len() {
        do_next(alloc, steps, lines[i], &commands[i], done)?;
    }
    Ok(())
}
