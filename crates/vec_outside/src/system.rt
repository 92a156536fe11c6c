// The calls of the system that files need, one for each, so that tests can let each of them fail.

use crate::Area;
use crate::areas::place_of;
use std::fs::{File, OpenOptions, TryLockError};
use std::io;
use std::io::ErrorKind;
use std::os::fd::AsRawFd;
use std::os::unix::fs::FileExt;

/// What files ask of the system, by area. Of an area that was not opened each call is refused.
pub trait System {
    /// Opens the file of an area, and makes an empty one where there is none.
    fn open(&mut self, area: Area) -> io::Result<()>;

    /// Locks the file of an area, or fails where another opening of it holds the lock.
    fn try_lock(&mut self, area: Area) -> io::Result<()>;

    /// How many bytes the file has.
    fn len(&mut self, area: Area) -> io::Result<u64>;

    /// Fills `into`, or fails where the file is shorter.
    fn read(&mut self, area: Area, at: u64, into: &mut [u8]) -> io::Result<()>;

    /// Writes all of `bytes`, or fails where the system takes none of a piece.
    fn write(&mut self, area: Area, at: u64, bytes: &[u8]) -> io::Result<()>;

    /// Makes the bytes and the length of the file durable.
    fn sync(&mut self, area: Area) -> io::Result<()>;

    /// Makes the names of the files durable.
    fn sync_folder(&mut self) -> io::Result<()>;
}

/// The system itself, with the files of the current folder.
#[derive(Drop)]
pub struct Host {
    rt: HostRuntime,
    files: [Option<File>; 3],
}

fn name_of(area: Area) -> &'static str {
    match area {
        Area::Pages => "vec_pages.dat",
        Area::Log0 => "vec_log0.dat",
        Area::Log1 => "vec_log1.dat",
    }
}

// What the system does not support for a file is taken as done.
fn if_supported(answer: io::Result<()>) -> io::Result<()> {
    match answer {
        Err(error) if is_unsupported(error.kind()) => Ok(()),
        answered => answered,
    }
}

fn is_unsupported(kind: ErrorKind) -> bool {
    match kind {
        ErrorKind::InvalidInput | ErrorKind::Unsupported => true,
        _ => false,
    }
}

impl Host {
    /// No file is open, which is all that there is to say: of files nothing is told.
    pub fn new(rt: &HostRuntime) -> Host {
        Host {
            rt: *rt,
            files: [None, None, None],
        }
    }

    fn file(&self, area: Area) -> io::Result<&File> {
        match &self.files[place_of(area)] {
            Some(file) => Ok(file),
            None => Err(io::Error::from(ErrorKind::NotFound)),
        }
    }
}

impl System for Host {
    fn open(&mut self, area: Area) -> io::Result<()> {
        let file = OpenOptions::new()
            .read(true)
            .write(true)
            .create(true)
            .open(&self.rt, name_of(area))?;
        // Where a standard stream was closed, a file may get its number, and what is meant for the
        // stream.
        let file = if file.as_raw_fd() <= 2 {
            file.try_clone()?
        } else {
            file
        };
        self.files[place_of(area)] = Some(file);
        Ok(())
    }

    fn try_lock(&mut self, area: Area) -> io::Result<()> {
        match self.file(area)?.try_lock() {
            Ok(()) => Ok(()),
            Err(TryLockError::WouldBlock) => Err(io::Error::from(ErrorKind::WouldBlock)),
            Err(TryLockError::Error(error)) => if_supported(Err(error)),
        }
    }

    fn len(&mut self, area: Area) -> io::Result<u64> {
        Ok(self.file(area)?.metadata()?.len())
    }

    fn read(&mut self, area: Area, at: u64, into: &mut [u8]) -> io::Result<()> {
        self.file(area)?.read_exact_at(into, at)
    }

    fn write(&mut self, area: Area, at: u64, bytes: &[u8]) -> io::Result<()> {
        self.file(area)?.write_all_at(bytes, at)
    }

    fn sync(&mut self, area: Area) -> io::Result<()> {
        self.file(area)?.sync_data()
    }

    fn sync_folder(&mut self) -> io::Result<()> {
        if_supported(File::open(&self.rt, ".")?.sync_all())
    }
}
