use crate::files::Files;
use crate::system::{Host, System};
use crate::{
    Area, Choice, Disks, FileDisks, FileSink, FileSource, MemDisks, MemSink, MemSource, NoPace,
    Outage, Pace, Sink, Source, write_synced,
};
use std::alloc::{AllocError, Global};
use std::io::ErrorKind;
use std::test::Fail;
use std::{fs, io};

#[derive(Clone, Copy)]
enum Step {
    Put(Area, u64, &'static [u8]),
    Sync(Area),
    Rest,
}

use Step::{Put, Rest, Sync};

fn take(disks: &mut MemDisks, step: Step) -> Result<(), Outage> {
    match step {
        Put(area, at, bytes) => {
            if at > disks.bytes(area).len() as u64 {
                return Err(Outage::Memory);
            }
            disks.write_at(area, at, bytes)
        }
        Sync(area) => disks.sync(area),
        Rest => Ok(()),
    }
}

fn over(alloc: Global, pages: &[u8], fail: &[u64]) -> Result<MemDisks, AllocError> {
    let pages = pages.to_vec(alloc)?;
    let fail = fail.to_vec(alloc)?;
    Ok(MemDisks::over(alloc, pages, Vec::new(alloc), Vec::new(alloc), fail))
}

// Whether one of the first seeds leaves an area as this.
fn meets(disks: &MemDisks, area: Area, image: &[u8], seeds: u64) -> Result<bool, Outage> {
    for seed in 0..seeds {
        if disks.crash(Choice::Mixed(seed))?.bytes(area) == image {
            return Ok(true);
        }
    }
    Ok(false)
}

// Whether for each of these images some seed leaves the pages so.
fn meets_all(disks: &MemDisks, images: &[&[u8]]) -> Result<bool, Outage> {
    for image in images {
        if !meets(disks, Area::Pages, image, 20_000)? {
            return Ok(false);
        }
    }
    Ok(true)
}

// Whether each of the first seeds leaves an area as this.
fn always(disks: &MemDisks, area: Area, image: &[u8]) -> Result<bool, Outage> {
    for seed in 0..100 {
        if disks.crash(Choice::Mixed(seed))?.bytes(area) != image {
            return Ok(false);
        }
    }
    Ok(true)
}

#[derive(Clone, Copy)]
struct Row {
    pages: &'static [u8],
    fail: &'static [u64],
    steps: [Step; 4],
    kept: &'static [u8],
    lost: &'static [u8],
    /// Images of the pages that some seed leaves. Where none stands here, each leaves what is kept.
    met: &'static [&'static [u8]],
}

const ROWS: [Row; 8] = [
    Row {
        pages: &[1, 2],
        fail: &[],
        steps: [Rest, Rest, Rest, Rest],
        kept: &[1, 2],
        lost: &[1, 2],
        met: &[],
    },
    // Two writes pending in the pages, one of them past the end, and one in a log.
    Row {
        pages: &[1, 2, 3, 4],
        fail: &[],
        steps: [
            Put(Area::Pages, 1, &[9, 9]),
            Put(Area::Log0, 0, &[7]),
            Put(Area::Pages, 3, &[8, 8]),
            Rest,
        ],
        kept: &[1, 9, 9, 8, 8],
        lost: &[1, 2, 3, 4],
        met: &[
            &[1, 9, 9, 8, 8],
            &[1, 2, 3, 4],
            // The later write alone, the earlier one alone, and parts of both.
            &[1, 2, 3, 8, 8],
            &[1, 9, 9, 4],
            &[1, 2, 9, 8],
            &[1, 0, 9, 4],
        ],
    },
    // A sync leaves one image of its area.
    Row {
        pages: &[1, 2, 3, 4],
        fail: &[],
        steps: [
            Put(Area::Pages, 1, &[9, 9]),
            Put(Area::Log0, 0, &[7]),
            Put(Area::Pages, 3, &[8, 8]),
            Sync(Area::Pages),
        ],
        kept: &[1, 9, 9, 8, 8],
        lost: &[1, 9, 9, 8, 8],
        met: &[],
    },
    // A sync that fails leaves them all.
    Row {
        pages: &[1],
        fail: &[2],
        steps: [Put(Area::Pages, 0, &[5]), Sync(Area::Pages), Rest, Rest],
        kept: &[5],
        lost: &[1],
        met: &[&[5], &[1], &[0], &[0xA5]],
    },
    // A write that fails may have reached the disk all the same.
    Row {
        pages: &[1, 2, 3],
        fail: &[1],
        steps: [Put(Area::Pages, 1, &[9, 9]), Rest, Rest, Rest],
        kept: &[1, 2, 3],
        lost: &[1, 2, 3],
        met: &[&[1, 2, 3], &[1, 9, 9], &[1, 9, 3], &[1, 2, 9]],
    },
    // A sync then leaves what is read.
    Row {
        pages: &[1, 2, 3],
        fail: &[1],
        steps: [Put(Area::Pages, 1, &[9, 9]), Sync(Area::Pages), Rest, Rest],
        kept: &[1, 2, 3],
        lost: &[1, 2, 3],
        met: &[],
    },
    // A torn write past the end has any length, and any bytes.
    Row {
        pages: &[],
        fail: &[],
        steps: [Put(Area::Pages, 0, &[5, 6, 7]), Rest, Rest, Rest],
        kept: &[5, 6, 7],
        lost: &[],
        met: &[&[], &[5], &[0], &[0xA5], &[5, 6], &[0, 6, 0], &[5, 6, 7]],
    },
    // Of two writes of one place either may be the last that reached the disk.
    Row {
        pages: &[1],
        fail: &[],
        steps: [
            Put(Area::Pages, 0, &[2]),
            Put(Area::Pages, 0, &[3]),
            Rest,
            Rest,
        ],
        kept: &[3],
        lost: &[1],
        met: &[&[1], &[2], &[3], &[0]],
    },
];

#[test]
fn a_crash_leaves_what_its_choice_says(rt: HostRuntime) -> Result<(), Fail> {
    for row in ROWS {
        let mut disks = over(rt.alloc(), row.pages, row.fail)?;
        for step in row.steps {
            let _ = take(&mut disks, step);
        }
        assert_eq!(rt; disks.bytes(Area::Pages), row.kept);
        assert_eq!(rt; disks.crash(Choice::Kept)?.bytes(Area::Pages), row.kept);
        assert_eq!(rt; disks.crash(Choice::Lost)?.bytes(Area::Pages), row.lost);
        assert!(rt; meets_all(&disks, row.met)?);
        if row.met.is_empty() {
            assert!(rt; always(&disks, Area::Pages, row.kept)?);
        }
        let left = disks.crash(Choice::Mixed(7))?;
        assert!(rt; always(&left, Area::Pages, left.bytes(Area::Pages))?);
    }
    Ok(())
}

// A sync of one area leaves what another might have been.
#[test]
fn a_sync_is_of_one_area(rt: HostRuntime) -> Result<(), Fail> {
    let mut disks = over(rt.alloc(), &[1], &[])?;
    disks.write_at(Area::Log0, 0, &[7])?;
    disks.sync(Area::Pages)?;
    assert!(rt; meets(&disks, Area::Log0, &[], 100)?);
    assert!(rt; meets(&disks, Area::Log0, &[7], 100)?);
    disks.sync(Area::Log0)?;
    assert!(rt; always(&disks, Area::Log0, &[7])?);
    Ok(())
}

#[test]
fn chosen_calls_fail(rt: HostRuntime) -> Result<(), Fail> {
    let steps = [
        Put(Area::Log1, 0, &[1]),
        Sync(Area::Log1),
        Put(Area::Log1, 1, &[2]),
        Sync(Area::Log1),
    ];
    for last in 0..6 {
        let mut disks = MemDisks::empty(rt.alloc())?;
        assert_eq!(rt; disks.bytes(Area::Log0), [0; 40].as_slice());
        disks.stop_after(last);
        let mut done: u64 = 0;
        for step in steps {
            if take(&mut disks, step).is_ok() {
                done = done.saturating_add(1);
            }
        }
        assert_eq!(rt; done, last.min(4), "after {last}");
        assert_eq!(rt; disks.faults(), 4 - last.min(4));
        let mut fresh = disks.crash(Choice::Lost)?;
        assert_eq!(rt; fresh.len(Area::Log1)?, 40);
    }
    let mut disks = over(rt.alloc(), &[1, 2], &[3, 2, 3])?;
    assert_eq!(rt; disks.len(Area::Pages)?, 2);
    assert_eq!(rt; disks.len(Area::Pages), Err(Outage::Failed));
    let mut two = [0; 2];
    assert_eq!(rt; disks.read(Area::Pages, 0, &mut two), Err(Outage::Failed));
    disks.read(Area::Pages, 0, &mut two)?;
    assert_eq!(rt; two, [1, 2]);
    assert_eq!(rt; disks.faults(), 2);
    write_synced(&mut disks, Area::Log0, 0, b"ab")?;
    assert_eq!(rt;
        disks.crash(Choice::Lost)?.bytes(Area::Log0),
        b"ab".as_slice()
    );
    Ok(())
}

#[test]
fn streams_in_memory(rt: HostRuntime) -> Result<(), Fail> {
    let mut source = MemSource::over(b"abcde".to_vec(rt.alloc())?, [2, 2].to_vec(rt.alloc())?);
    let mut piece = [0; 3];
    assert_eq!(rt; source.read(&mut piece)?, 3);
    assert_eq!(rt; piece, *b"abc");
    assert_eq!(rt; source.read(&mut piece), Err(Outage::Failed));
    assert_eq!(rt; source.read(&mut [])?, 0);
    assert_eq!(rt; source.read(&mut piece)?, 2);
    assert!(rt; piece.starts_with(b"de"));
    assert_eq!(rt; source.read(&mut piece)?, 0);
    let mut sink = MemSink::over(b"x".to_vec(rt.alloc())?, [1].to_vec(rt.alloc())?);
    assert_eq!(rt; sink.write(b"lost"), Err(Outage::Failed));
    assert_eq!(rt; sink.write(b"")?, 0);
    assert_eq!(rt; sink.write(b"yz")?, 2);
    assert_eq!(rt; sink.bytes(), b"xyz".as_slice());
    Ok(())
}

// The system, of which the call with this number fails, counted from 1.
#[derive(Drop)]
struct Faulty {
    host: Host,
    fail: u64,
    calls: u64,
}

impl Faulty {
    fn call(&mut self) -> io::Result<()> {
        self.calls = self.calls.saturating_add(1);
        if self.calls == self.fail {
            return Err(io::Error::from(ErrorKind::StorageFull));
        }
        Ok(())
    }
}

impl System for Faulty {
    fn open(&mut self, area: Area) -> io::Result<()> {
        self.call()?;
        self.host.open(area)
    }

    fn try_lock(&mut self, area: Area) -> io::Result<()> {
        self.call()?;
        self.host.try_lock(area)
    }

    fn len(&mut self, area: Area) -> io::Result<u64> {
        self.call()?;
        self.host.len(area)
    }

    fn read(&mut self, area: Area, at: u64, into: &mut [u8]) -> io::Result<()> {
        self.call()?;
        self.host.read(area, at, into)
    }

    fn write(&mut self, area: Area, at: u64, bytes: &[u8]) -> io::Result<()> {
        self.call()?;
        self.host.write(area, at, bytes)
    }

    fn sync(&mut self, area: Area) -> io::Result<()> {
        self.call()?;
        self.host.sync(area)
    }

    fn sync_folder(&mut self) -> io::Result<()> {
        self.call()?;
        self.host.sync_folder()
    }
}

fn with_fault(rt: &HostRuntime, fail: u64) -> Files<Faulty> {
    Files::new(Faulty {
        host: Host::new(rt),
        fail,
        calls: 0,
    })
}

fn clear(rt: &HostRuntime) {
    for name in ["vec_pages.dat", "vec_log0.dat", "vec_log1.dat"] {
        let _ = fs::remove_file(rt, name);
    }
}

/// What is found of a log, and the calls of the system until its length is known: open, lock,
/// length, then where it is short a write and a sync, then the folder's sync, and the length.
#[derive(Clone, Copy)]
struct Start {
    found: Option<&'static [u8]>,
    calls: u64,
    /// Which of them are syncs.
    syncs: &'static [u64],
    begins: &'static [u8],
}

const STARTS: [Start; 3] = [
    Start {
        found: None,
        calls: 7,
        syncs: &[5, 6],
        begins: &[],
    },
    Start {
        found: Some(b"ten bytes."),
        calls: 7,
        syncs: &[5, 6],
        begins: b"ten bytes.",
    },
    Start {
        found: Some(b"a log of forty bytes, which is found whole"),
        calls: 5,
        syncs: &[4],
        begins: b"a log of forty bytes, which is found whole",
    },
];

// A log has at least 40 bytes, zero behind those that were found, whichever call failed before.
#[test]
fn logs_that_are_found(rt: HostRuntime) -> Result<(), Fail> {
    for start in STARTS {
        // With 0 none fails.
        for fail in 0..=start.calls {
            clear(&rt);
            if let Some(bytes) = start.found {
                fs::write(&rt, "vec_log0.dat", bytes)?;
            }
            let mut files = with_fault(&rt, fail);
            assert_eq!(rt; files.len(Area::Log0).is_ok(), fail == 0, "call {fail}");
            // Only after a sync that failed nothing more is written; else the next call begins anew.
            let given_up = start.syncs.contains(&fail);
            assert_eq!(rt; files.write_at(Area::Log0, 0, b"").is_err(), given_up);
            assert_eq!(rt; files.sync(Area::Log0).is_err(), given_up);
            drop(files);
            let want = start.begins.len().max(40);
            assert_eq!(rt; with_fault(&rt, 0).len(Area::Log0)?, want as u64);
            let log = fs::read(&rt, "vec_log0.dat")?;
            assert!(rt; log.starts_with(start.begins));
            assert!(rt; log.iter().skip(start.begins.len()).all(|byte| *byte == 0));
        }
    }
    Ok(())
}

// After a sync that failed the area is read, and no more written; the others go on.
#[test]
fn a_sync_that_fails(rt: HostRuntime) -> Result<(), Fail> {
    clear(&rt);
    // Open, lock, the folder's sync, a write, and the sync.
    let mut files = with_fault(&rt, 5);
    files.write_at(Area::Pages, 0, b"ab")?;
    for _ in 0..2 {
        assert!(rt; files.sync(Area::Pages).is_err());
        assert!(rt; files.write_at(Area::Pages, 0, b"c").is_err());
    }
    let mut two = [0; 2];
    files.read(Area::Pages, 0, &mut two)?;
    assert_eq!(rt; two, *b"ab");
    assert_eq!(rt; files.len(Area::Pages)?, 2);
    files.write_at(Area::Log1, 40, b"ab")?;
    files.sync(Area::Log1)?;
    Ok(())
}

// While one holds the lock, each call of another fails and is counted.
#[test]
fn two_at_a_time(rt: HostRuntime) -> Result<(), Fail> {
    clear(&rt);
    let mut first = FileDisks::make(&rt);
    first.write_at(Area::Log0, 0, b"first")?;
    let mut second = FileDisks::make(&rt);
    assert_eq!(rt; second.len(Area::Log0), Err(Outage::Failed));
    assert_eq!(rt;
        second.write_at(Area::Log0, 0, b"second"),
        Err(Outage::Failed)
    );
    assert_eq!(rt; second.faults(), 2);
    assert_eq!(rt; second.len(Area::Log1)?, 40);
    drop(first);
    let mut back = [0; 5];
    second.read(Area::Log0, 0, &mut back)?;
    assert_eq!(rt; back, *b"first");
    Ok(())
}

fn crosses<T: Send>(_: &T) {}

#[test]
fn files_and_standard_streams(rt: HostRuntime) -> Result<(), Fail> {
    clear(&rt);
    let mut disks = FileDisks::make(&rt);
    crosses(&disks);
    assert_eq!(rt; disks.len(Area::Log0)?, 40);
    assert_eq!(rt; disks.len(Area::Pages)?, 0);
    disks.write_at(Area::Pages, 0, b"abcd")?;
    disks.write_at(Area::Pages, 3, b"xy")?;
    disks.sync(Area::Pages)?;
    assert_eq!(rt; disks.faults(), 0);
    drop(disks);
    let mut disks = FileDisks::make(&rt);
    let mut back = [0; 4];
    disks.read(Area::Pages, 1, &mut back)?;
    assert_eq!(rt; back, *b"bcxy");
    // The file is shorter than asked, and than the place of a write.
    assert_eq!(rt; disks.read(Area::Pages, 2, &mut back), Err(Outage::Failed));
    assert_eq!(rt; disks.write_at(Area::Pages, 6, b"z"), Err(Outage::Failed));
    assert_eq!(rt; disks.len(Area::Pages)?, 5);
    assert_eq!(rt; disks.faults(), 2);
    drop(disks);
    // A folder stands in place of a file.
    fs::remove_file(&rt, "vec_pages.dat")?;
    fs::create_dir(&rt, "vec_pages.dat")?;
    let mut disks = FileDisks::make(&rt);
    assert_eq!(rt; disks.sync(Area::Pages), Err(Outage::Failed));
    assert_eq!(rt; disks.faults(), 1);
    fs::remove_dir(&rt, "vec_pages.dat")?;
    clear(&rt);

    // A test has nothing on its standard input.
    assert_eq!(rt; FileSource::make(&rt).read(&mut back)?, 0);
    assert_eq!(rt; FileSource::make(&rt).read(&mut [])?, 0);
    let mut sink = FileSink::make(&rt);
    assert_eq!(rt; sink.write(b"")?, 0);
    assert_eq!(rt; sink.write(b".\n")?, 2);
    crosses(&MemDisks::empty(rt.alloc())?);
    NoPace.between(1);
    NoPace.looking(0);
    Ok(())
}
