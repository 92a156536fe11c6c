// Why a source gives no script.
ghost use Rattle.std.specs.Prelude.{◌≡◌};
ghost use Rattle.vec_run.specs.Refusals.{refusal_of, script_refusal};

use script_words::ScriptFault;
use vec_outside::Outage;

/// Why a source gives no script. `Outage` is the other error on the way of `exact`: why the replies
/// were not written.
#[derive(Clone, Copy, Debug, PartialEq, Eq)]
pub enum ReadRefusal {
    /// No memory was found.
    Memory,
    /// A read of the source failed.
    Failed,
    /// The line of this number, from 1, is the first that is outside the form.
    Line(u64),
}

impl From<Outage> for ReadRefusal {
    ghost from_gives = { λ outage e. e ≡ refusal_of outage };

    fn from(outage: Outage) -> Self {
        match outage {
            Outage::Memory => ReadRefusal::Memory,
            Outage::Failed => ReadRefusal::Failed,
        }
    }
}

impl From<ScriptFault> for ReadRefusal {
    ghost from_gives = { λ fault e. e ≡ script_refusal fault };

    fn from(fault: ScriptFault) -> Self {
        match fault {
            ScriptFault::Memory => ReadRefusal::Memory,
            ScriptFault::Line(line) => ReadRefusal::Line(line),
        }
    }
}
