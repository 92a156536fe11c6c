// Three files of the current folder. Of their bytes nothing is told.

use crate::files::Files;
use crate::system::Host;
use crate::{Area, Disks, Outage};
use std::io;

/// The areas as the files `vec_pages.dat`, `vec_log0.dat` and `vec_log1.dat` of the current folder.
///
/// The first call of an area opens its file, or makes an empty one, and locks it: while another
/// opening of it holds the lock, as one of another process does, each call of the area is `Failed`.
/// Then a log of fewer than 40 bytes is filled with zeros to 40 and synced, and the folder is
/// synced, also where the file was found. No file is ever removed. Where this fails the call is
/// `Failed`, and the next one begins it anew; a kill at any point leaves what the next run takes.
/// The file stays open and locked until this value is dropped.
///
/// After a sync of an area that failed, also one of those at its opening, each write and each sync
/// of it is `Failed`: a system may drop what it could not write, and a later sync may succeed
/// without it. For the same reason a new process may read what never reached the disk, until the
/// system is started anew.
///
/// A lock, or a sync of the folder, that the file system does not support counts as done (it answers
/// EINVAL, ENOSYS or EOPNOTSUPP): there nothing keeps two processes apart, or a new file's name
/// after a crash. Mostly each call is one of the system's, at its own place; a first write at a place that
/// this value has not met asks for the length before it.
#[derive(Drop)]
pub struct FileDisks {
    files: Files<Host>,
    faults: u64,
}

impl FileDisks {
    ghost use Rattle.std.specs.Prelude.{◌≡◌, ◌↔◌, IsErr};
    ghost use Rattle.vec_outside.specs.Causes.{HasCause};
    ghost use Rattle.vec_outside.specs.FileDisk.{HasFailed, disks_faults};
    ghost use Rattle.vec_outside.specs.declared.disks.Area.{Area};

    /// Touches no file.
    pub fn make(rt: &HostRuntime) -> FileDisks
        ensures faults { disks_faults result ≡ 0 }
        ensures fresh { (area : Area) → ¬ HasFailed result area }
    {
        FileDisks {
            files: Files::new(Host::new(rt)),
            faults: 0,
        }
    }

    // What the system answered, its error counted.
    fn counted<T: Drop>(&mut self, answer: io::Result<T>) -> Result<T, Outage>
        ensures cause { HasCause (disks_faults self.old) (disks_faults self.new) result }
        ensures err { IsErr result ↔ IsErr answer }
        ensures files { self.new.files ≡ self.old.files }
    {
        match answer {
            Ok(value) => Ok(value),
            Err(_) => {
                self.faults = self.faults.saturating_add(1);
                Err(Outage::Failed)
            }
        }
    }
}

impl Disks for FileDisks {
    ghost use Rattle.std.specs.Prelude.{◌≤◌, IsErr, List, ℕ};
    ghost use Rattle.vec_outside.specs.declared.disks.Area.{Area};
    ghost use Rattle.vec_outside.specs.declared.disks.Area.TheVariants.{Pages};
    ghost use Rattle.vec_outside.specs.Causes.{HasCause};
    ghost use Rattle.vec_outside.specs.Disk.{Image, IsImage, untold_disk};
    ghost use Rattle.vec_outside.specs.FileDisk.{HasFailed, StaysFailed, disks_faults};

    ghost told = { ⊥ };

    ghost disk = { λ disks. untold_disk };

    ghost count = { disks_faults };

    ghost seen_leaves = { λ disks area told. absurd told };

    ghost leaves_told = { λ disks area bytes left. left };

    ghost counts_now = { λ disks t image le is. is Pages };

    ghost only_now = { λ disks image since. absurd since };

    fn len(&mut self, area: Area) -> Result<u64, Outage>
        ensures cause { HasCause (disks_faults self.old) (disks_faults self.new) result }
        ensures stays { StaysFailed self.old self.new }
    {
        let answer = self.files.len(area);
        self.counted(answer)
    }

    fn read(&mut self, area: Area, at: u64, into: &mut [u8]) -> Result<(), Outage>
        ensures cause { HasCause (disks_faults self.old) (disks_faults self.new) result }
        ensures stays { StaysFailed self.old self.new }
    {
        let answer = self.files.read(area, at, into);
        self.counted(answer)
    }

    fn write_at(&mut self, area: Area, at: u64, bytes: &[u8]) -> Result<(), Outage>
        ensures cause { HasCause (disks_faults self.old) (disks_faults self.new) result }
        ensures refused { HasFailed self.old area → IsErr result }
        ensures stays { StaysFailed self.old self.new }
    {
        let answer = self.files.write_at(area, at, bytes);
        self.counted(answer)
    }

    fn sync(&mut self, area: Area) -> Result<(), Outage>
        ensures cause { HasCause (disks_faults self.old) (disks_faults self.new) result }
        ensures refused { HasFailed self.old area → IsErr result }
        ensures failed { IsErr result → HasFailed self.new area }
        ensures stays { StaysFailed self.old self.new }
    {
        let answer = self.files.sync(area);
        self.counted(answer)
    }

    fn faults(&self) -> u64 {
        self.faults
    }
}
