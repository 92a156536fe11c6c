// The files of the three areas, over the calls of the system that they need: what is done once
// for each area before its first call, and after a sync of it that failed.
ghost use Rattle.std.specs.Prelude.{◌≡◌, false, IsErr, IsTrue};
ghost use Rattle.vec_outside.specs.Marks.{Stays, is_marked};
ghost use Rattle.vec_outside.specs.declared.disks.Area.{Area};

use crate::Area;
use crate::areas::place_of;
use crate::marks::{Marks, no_marks};
use crate::system::System;
use std::io;
use std::io::ErrorKind;

// The fewest bytes of a log area. A shorter one is filled with zeros.
const BLANK: usize = 40;

/// The files of the three areas. The first call of an area opens its file, locks it, fills a log
/// that is too short, and makes the file's name durable. Where that fails, the next call begins it
/// anew.
#[derive(Drop)]
pub struct Files<S> {
    system: S,
    /// The areas of which all that was done.
    ready: Marks,
    /// The areas of which a sync failed: what is written since then may never reach the disk.
    failed: Marks,
    /// A length that each file has reached.
    reached: [u64; 3],
}

// Why nothing more is written after a sync that failed.
fn given_up() -> io::Error {
    io::Error::from(ErrorKind::Other)
}

impl<S: System> Files<S> {
    /// Touches no file.
    pub fn new(system: S) -> Files<S>
        ensures { (area : Area) → is_marked result.failed area ≡ false }
    {
        Files {
            system,
            ready: no_marks(),
            failed: no_marks(),
            reached: [0; 3],
        }
    }

    // What a sync of an area answered; one that failed is kept in mind.
    fn noted(&mut self, area: Area, answer: io::Result<()>) -> io::Result<()>
        ensures same { result ≡ answer }
        ensures marked { IsErr result → IsTrue (is_marked self.new.failed area) }
        ensures stays { Stays self.old.failed self.new.failed }
    {
        if answer.is_err() {
            self.failed.mark(area);
        }
        answer
    }

    // Fills a log that is shorter than 40 bytes with zeros.
    fn fill(&mut self, area: Area) -> io::Result<()>
        ensures { Stays self.old.failed self.new.failed }
    {
        let len = self.system.len(area)?;
        if len >= BLANK as u64 {
            return Ok(());
        }
        let zeros = [0; BLANK];
        self.system.write(area, len, &zeros[len as usize..])?;
        let answer = self.system.sync(area);
        self.noted(area, answer)
    }

    // Opens the file of an area, where that was not done yet.
    fn open(&mut self, area: Area) -> io::Result<()>
        ensures { Stays self.old.failed self.new.failed }
    {
        if self.ready.has(area) {
            return Ok(());
        }
        self.system.open(area)?;
        self.system.try_lock(area)?;
        if area != Area::Pages {
            self.fill(area)?;
        }
        // Also of a file that was found: what made it may have been killed before this.
        let answer = self.system.sync_folder();
        self.noted(area, answer)?;
        self.ready.mark(area);
        Ok(())
    }

    /// How many bytes an area has.
    pub fn len(&mut self, area: Area) -> io::Result<u64>
        ensures { Stays self.old.failed self.new.failed }
    {
        self.open(area)?;
        let len = self.system.len(area)?;
        self.reached[place_of(area)] = len;
        Ok(len)
    }

    /// Fills `into`, or fails where the file is shorter.
    pub fn read(&mut self, area: Area, at: u64, into: &mut [u8]) -> io::Result<()>
        ensures { Stays self.old.failed self.new.failed }
    {
        self.open(area)?;
        self.system.read(area, at, into)
    }

    /// Writes all of `bytes`, or fails where the file is shorter than `at`: never behind a hole.
    pub fn write_at(&mut self, area: Area, at: u64, bytes: &[u8]) -> io::Result<()>
        ensures refused { IsTrue (is_marked self.old.failed area) → IsErr result }
        ensures stays { Stays self.old.failed self.new.failed }
    {
        if self.failed.has(area) {
            return Err(given_up());
        }
        self.open(area)?;
        if at > self.reached[place_of(area)] && at > self.len(area)? {
            return Err(io::Error::from(ErrorKind::UnexpectedEof));
        }
        self.system.write(area, at, bytes)?;
        let end = at.saturating_add(bytes.len() as u64);
        let reached = self.reached[place_of(area)];
        self.reached[place_of(area)] = reached.max(end);
        Ok(())
    }

    // A sync, which may be the first call of an area.
    fn sync_open(&mut self, area: Area) -> io::Result<()>
        ensures { Stays self.old.failed self.new.failed }
    {
        self.open(area)?;
        self.system.sync(area)
    }

    /// Makes the bytes and the length of an area durable.
    pub fn sync(&mut self, area: Area) -> io::Result<()>
        ensures refused { IsTrue (is_marked self.old.failed area) → IsErr result }
        ensures marked { IsErr result → IsTrue (is_marked self.new.failed area) }
        ensures stays { Stays self.old.failed self.new.failed }
    {
        if self.failed.has(area) {
            return Err(given_up());
        }
        let answer = self.sync_open(area);
        self.noted(area, answer)
    }
}
