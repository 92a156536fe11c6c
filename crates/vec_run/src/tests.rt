use crate::end::End;
use crate::top::{Outcome, run_alone};
use std::alloc::{AllocError, Global};
use std::test::Fail;
use std::thread::Threads;
use vec_outside::{Disks, MemDisks, MemSink, MemSource, Outage, Sink};

// What a run of these words on this script ended with and wrote, where these calls fail.
fn ran<R: Threads + Sync>(
    rt: &R,
    alloc: Global,
    word: &str,
    script: &[u8],
    reads: &[u64],
    writes: &[u64],
) -> Result<(u8, u64, Vec<u8>), Fail> {
    let mut source = MemSource::over(script.to_vec(alloc)?, reads.to_vec(alloc)?);
    let mut sink = MemSink::over(Vec::new(alloc), writes.to_vec(alloc)?);
    let words = words_of(alloc, word)?;
    let outcome = run_alone(
        rt,
        alloc,
        &words,
        &mut source,
        &mut sink,
        MemDisks::empty(alloc)?,
    );
    Ok((outcome.status, outcome.line, sink.bytes().to_vec(alloc)?))
}

fn words_of(alloc: Global, text: &str) -> Result<Vec<String>, AllocError> {
    let mut words = Vec::new(alloc);
    for word in text.split_whitespace() {
        words.push(String::from_str(alloc, word)?)?;
    }
    Ok(words)
}

const FOUR_ROWS: &[u8] = b"row 1/1 0000\nrow 1/2 0011\nrow 1/3 0111\nquery 0001\n";

const FOUR_REPLIES: &[u8] = b"hit 1/1 1\nhit 1/2 1\nhit 1/3 2\nhits 3\n";

#[test]
fn answered_scripts(rt: HostRuntime) -> Result<(), Fail> {
    let (status, line, text) = ran(&rt, rt.alloc(), "exact", FOUR_ROWS, &[], &[])?;
    assert_eq!(rt; status, 0);
    assert_eq!(rt; line, 0);
    assert_eq!(rt; text.as_slice(), FOUR_REPLIES);
    let table: [(&[u8], &[u8]); 6] = [
        (b"", b""),
        (b"query 0001", b"hits 0\n"),
        // Rows below a query are not answered; a last line may lack its line feed.
        (
            b"row 1/1 1\nquery 1\nrow 1/2 1\nquery 0",
            b"hit 1/1 0\nhits 1\nhit 1/1 1\nhit 1/2 1\nhits 2\n",
        ),
        // Equal distances by id: first the block, then the offset.
        (
            b"row 10/1 1\nrow 9/2 0\nrow 9/1 0\nquery 0\n",
            b"hit 9/1 0\nhit 9/2 0\nhit 10/1 1\nhits 3\n",
        ),
        // One id may name several rows.
        (
            b"row 4294967294/65535 01\nrow 4294967294/65535 10\nquery 01\n",
            b"hit 4294967294/65535 0\nhit 4294967294/65535 2\nhits 2\n",
        ),
        // Lines that are skipped.
        (
            b"\n# any \xff bytes\r\nrow 0/1 0\n\nquery 0\n",
            b"hit 0/1 0\nhits 1\n",
        ),
    ];
    for (script, want) in table {
        let (status, _, text) = ran(&rt, rt.alloc(), "exact", script, &[], &[])?;
        assert_eq!(rt; status, 0);
        assert_eq!(rt; text.as_slice(), want);
    }
    Ok(())
}

#[test]
fn the_longest_value(rt: HostRuntime) -> Result<(), Fail> {
    let alloc = rt.alloc();
    let mut script = b"row 1/1 ".to_vec(alloc)?;
    let value = vec![in alloc; b'0'; 64_000]?;
    script.extend_from_slice(&value)?;
    script.extend_from_slice(b"\nquery ")?;
    script.extend_from_slice(&value)?;
    let (status, _, text) = ran(&rt, rt.alloc(), "exact", &script, &[], &[])?;
    assert_eq!(rt; status, 0);
    assert_eq!(rt; text.as_slice(), b"hit 1/1 0\nhits 1\n".as_slice());
    script.push(b'0')?;
    let (status, line, text) = ran(&rt, rt.alloc(), "exact", &script, &[], &[])?;
    assert_eq!(rt; status, 3);
    assert_eq!(rt; line, 2);
    assert!(rt; text.is_empty());
    Ok(())
}

#[test]
fn refused_scripts(rt: HostRuntime) -> Result<(), Fail> {
    let table: [(&[u8], u64); 20] = [
        (b"row 1/1 \n", 1),
        (b"row 1/1 01x\n", 1),
        (b"query 0\r\n", 1),
        (b" query 0\n", 1),
        (b"query 0 \n", 1),
        (b"query  0\n", 1),
        (b"query\n", 1),
        (b"# good\n\nrow 01/1 0\n", 3),
        (b"row 1/01 0\n", 1),
        (b"row +1/1 0\n", 1),
        (b"row 1/0 0\n", 1),
        (b"row 1/65536 0\n", 1),
        (b"row 4294967295/1 0\n", 1),
        (b"row 1 0\n", 1),
        (b"row 1/1/1 0\n", 1),
        (b"row 1/1 0 7\n", 1),
        (b"stats\n", 1),
        (b"row 1/1 00\nquery 00\nquery 0\n", 3),
        (b"query 00\nrow 1/1 0", 2),
        (b"query 0\nserch 0000", 2),
    ];
    for (script, want) in table {
        let (status, line, text) = ran(&rt, rt.alloc(), "exact", script, &[], &[])?;
        assert_eq!(rt; status, 3);
        assert_eq!(rt; line, want);
        assert!(rt; text.is_empty());
    }
    Ok(())
}

// A script that is cut after each byte is read, or its last line is refused.
#[test]
fn every_cut(rt: HostRuntime) -> Result<(), Fail> {
    let mut line = 1;
    for end in 0..FOUR_ROWS.len() {
        let (status, refused, _) = ran(&rt, rt.alloc(), "exact", &FOUR_ROWS[..end], &[], &[])?;
        if status != 0 {
            assert_eq!(rt; status, 3);
            assert_eq!(rt; refused, line);
        }
        if FOUR_ROWS[end] == b'\n' {
            line = if line < 9 { line + 1 } else { line };
        }
    }
    Ok(())
}

#[test]
fn words_and_faults(rt: HostRuntime) -> Result<(), Fail> {
    for words in ["", "exact now", "Exact", "alone now", "run"] {
        let (status, _, text) = ran(&rt, rt.alloc(), words, FOUR_ROWS, &[], &[])?;
        assert_eq!(rt; status, 2);
        assert!(rt; text.is_empty());
    }
    // The second read fails, after the first gave the whole script.
    let (status, _, text) = ran(&rt, rt.alloc(), "exact", FOUR_ROWS, &[2], &[])?;
    assert_eq!(rt; status, 4);
    assert!(rt; text.is_empty());
    let (status, _, text) = ran(&rt, rt.alloc(), "exact", FOUR_ROWS, &[], &[1])?;
    assert_eq!(rt; status, 5);
    assert!(rt; text.is_empty());
    Ok(())
}

// Takes one byte at a time.
#[derive(Drop)]
struct Drops {
    bytes: Vec<u8>,
}

impl Sink for Drops {
    ghost use Rattle.std.specs.Prelude.{None};

    ghost held = { λ _. None };

    ghost count = { λ _. 0 };

    fn write(&mut self, bytes: &[u8]) -> Result<usize, Outage> {
        if bytes.is_empty() {
            return Ok(0);
        }
        self.bytes.push(bytes[0])?;
        Ok(1)
    }
}

#[test]
fn a_byte_at_a_time(rt: HostRuntime) -> Result<(), Fail> {
    let alloc = rt.alloc();
    let mut source = MemSource::over(FOUR_ROWS.to_vec(alloc)?, Vec::new(alloc));
    let mut sink = Drops {
        bytes: Vec::new(alloc),
    };
    let words = words_of(alloc, "exact")?;
    // Every call of the disks would fail, and none is made.
    let mut disks = MemDisks::empty(alloc)?;
    disks.stop_after(0);
    let outcome: Outcome<MemDisks> = run_alone(&rt, alloc, &words, &mut source, &mut sink, disks);
    assert_eq!(rt; outcome.status, 0);
    assert_eq!(rt; outcome.disks.faults(), 0);
    assert_eq!(rt; sink.bytes.as_slice(), FOUR_REPLIES);
    Ok(())
}

const ENDS: [(End, u8, u64, &str); 7] = [
    (End::Done, 0, 0, "done"),
    (End::Memory, 1, 0, "out of memory"),
    (End::Words, 2, 0, "words refused"),
    (End::Line(12), 3, 12, "line 12 refused"),
    (End::Read, 4, 0, "read fault"),
    (End::Write, 5, 0, "write fault"),
    (End::Room, 7, 0, "room used up"),
];

#[test]
fn ends_and_their_texts(rt: HostRuntime) -> Result<(), Fail> {
    for (end, status, line, text) in ENDS {
        assert_eq!(rt; end.status(), status);
        assert_eq!(rt; end.line(), line);
        assert_eq!(rt; end.to_string(rt.alloc())?.as_str(), text);
    }
    assert_eq!(rt; End::from_status(3, 12), End::Line(12));
    assert_eq!(rt; End::from_status(7, 0), End::Room);
    Ok(())
}

// Scripts of one index, and what is written of them.
const ALONE: [(&[u8], &[u8]); 7] = [
    (b"", b""),
    // Where no index stands.
    (
        b"draw 1\nstats\ninsert 1/1 0000 7\n",
        b"refused no-index\nrefused no-index\n",
    ),
    // Parameters out of range, an index, and a second one.
    (
        b"create hnsw hamming 4 m 16 ef 31\ncreate hnsw hamming 4 m 16 ef 32\n\ncreate hnsw hamming 4\n",
        b"refused params\ncreated blocks 1 entries 0\nrefused exists\n",
    ),
    // A row, and the counts.
    (
        b"create hnsw hamming 4 m 2 ef 4\ninsert 1/1 0000 18446744073709551615\nstats",
        b"created blocks 1 entries 0\nput 1/1 level 0 version 1\nstats blocks 2 nodes 1 live 1 doomed 0 deleted 0 entries 1\n",
    ),
    // An equal value joins its node; one of another length is refused.
    (
        b"create hnsw jaccard 4 m 2 ef 4\ninsert 1/1 0101 18446744073709551615\ninsert 1/2 0101\ninsert 1/3 00000",
        b"created blocks 1 entries 0\nput 1/1 level 0 version 1\njoined 1/1\nrefused dimensions\n",
    ),
    // A node takes ten rows, and a search answers them in their order.
    (
        b"create hnsw hamming 4 m 2 ef 4\ninsert 1/1 0101 18446744073709551615\n\
          insert 1/2 0101 18446744073709551615\ninsert 1/3 0101 18446744073709551615\n\
          insert 1/4 0101 18446744073709551615\ninsert 1/5 0101 18446744073709551615\n\
          insert 1/6 0101 18446744073709551615\ninsert 1/7 0101 18446744073709551615\n\
          insert 1/8 0101 18446744073709551615\ninsert 1/9 0101 18446744073709551615\n\
          insert 1/10 0101 18446744073709551615\ninsert 1/11 0101 18446744073709551615\n\
          search 0101 limit 20\n",
        b"created blocks 1 entries 0\nput 1/1 level 0 version 1\njoined 1/1\njoined 1/1\n\
          joined 1/1\njoined 1/1\njoined 1/1\njoined 1/1\njoined 1/1\njoined 1/1\njoined 1/1\n\
          put 1/3 level 0 version 1\nhit 1/1 0\nhit 1/2 0\nhit 1/3 0\nhit 1/4 0\nhit 1/5 0\n\
          hit 1/6 0\nhit 1/7 0\nhit 1/8 0\nhit 1/9 0\nhit 1/10 0\nhit 1/11 0\nhits 11\n",
    ),
    // The same of a value without a 1, by Jaccard.
    (
        b"create hnsw jaccard 4 m 2 ef 4\ninsert 1/1 0000 18446744073709551615\n\
          insert 1/2 0000 18446744073709551615\ninsert 1/3 0000 18446744073709551615\n\
          insert 1/4 0000 18446744073709551615\ninsert 1/5 0000 18446744073709551615\n\
          insert 1/6 0000 18446744073709551615\ninsert 1/7 0000 18446744073709551615\n\
          insert 1/8 0000 18446744073709551615\ninsert 1/9 0000 18446744073709551615\n\
          insert 1/10 0000 18446744073709551615\ninsert 1/11 0000 18446744073709551615\n\
          search 0000 limit 20\n",
        b"created blocks 1 entries 0\nput 1/1 level 0 version 1\njoined 1/1\njoined 1/1\n\
          joined 1/1\njoined 1/1\njoined 1/1\njoined 1/1\njoined 1/1\njoined 1/1\njoined 1/1\n\
          put 1/3 level 0 version 1\nhit 1/1 1/1\nhit 1/2 1/1\nhit 1/3 1/1\nhit 1/4 1/1\n\
          hit 1/5 1/1\nhit 1/6 1/1\nhit 1/7 1/1\nhit 1/8 1/1\nhit 1/9 1/1\nhit 1/10 1/1\n\
          hit 1/11 1/1\nhits 11\n",
    ),
];

#[test]
fn scripts_of_one_index(rt: HostRuntime) -> Result<(), Fail> {
    for (script, want) in &ALONE {
        let (status, line, text) = ran(&rt, rt.alloc(), "alone", script, &[], &[])?;
        assert_eq!(rt; status, 0);
        assert_eq!(rt; line, 0);
        assert_eq!(rt; text.as_slice(), *want);
    }
    Ok(())
}

// A line that is outside the form: no command is run, not even those above it.
#[test]
fn refused_lines_of_one_index(rt: HostRuntime) -> Result<(), Fail> {
    for script in [
        b"stats\nserch 0000".as_slice(),
        b"stats\nrow 1/1 0000",
        b"stats\nquery 0",
    ] {
        let (status, line, text) = ran(&rt, rt.alloc(), "alone", script, &[], &[])?;
        assert_eq!(rt; status, 3);
        assert_eq!(rt; line, 2);
        assert!(rt; text.is_empty());
    }
    Ok(())
}

// These lines, each with its line feed.
fn joined(alloc: Global, lines: &[&str]) -> Result<Vec<u8>, AllocError> {
    let mut text = Vec::new(alloc);
    for line in lines {
        text.extend_from_slice(line.as_bytes())?;
        text.push(b'\n')?;
    }
    Ok(text)
}

// Lines of scripts with searches, and those that are written of them. The words give level 0.
const SEARCHED: [(&[&str], &[&str]); 4] = [
    (&["search 0000 limit 3"], &["refused no-index"]),
    // No row, a value of another length, and a number out of its range.
    (
        &[
            "create hnsw hamming 4 m 2 ef 4",
            "search 0000 limit 3",
            "search 00000 limit 3",
            "search 0000 limit 3 ef 0",
        ],
        &[
            "created blocks 1 entries 0",
            "hits 0",
            "refused dimensions",
            "refused params",
        ],
    ),
    // Fractions; two zero values are as far apart as can be.
    (
        &[
            "create hnsw jaccard 4 m 2 ef 4",
            "insert 1/1 1100 18446744073709551615",
            "search 1010 limit 5",
            "insert 1/2 0000 18446744073709551615",
            "search 0000 limit 5",
        ],
        &[
            "created blocks 1 entries 0",
            "put 1/1 level 0 version 1",
            "hit 1/1 2/3",
            "hits 1",
            "put 1/3 level 0 version 1",
            "hit 1/1 1/1",
            "hit 1/2 1/1",
            "hits 2",
        ],
    ),
    // Three rows, all of which are found.
    (
        &[
            "create hnsw hamming 4 m 2 ef 4",
            "insert 1/1 0000 18446744073709551615",
            "insert 1/2 0011 18446744073709551615",
            "insert 1/3 0111 18446744073709551615",
            "search 0001 limit 10 ef 4",
        ],
        &[
            "created blocks 1 entries 0",
            "put 1/1 level 0 version 1",
            "put 1/3 level 0 version 1",
            "put 1/5 level 0 version 1",
            "hit 1/1 1",
            "hit 1/2 1",
            "hit 1/3 2",
            "hits 3",
        ],
    ),
];

#[test]
fn searches_of_one_index(rt: HostRuntime) -> Result<(), Fail> {
    let alloc = rt.alloc();
    for (script, want) in &SEARCHED {
        let (status, _, text) = ran(&rt, alloc, "alone", &joined(alloc, script)?, &[], &[])?;
        assert_eq!(rt; status, 0);
        assert_eq!(rt; text.as_slice(), joined(alloc, want)?.as_slice());
    }
    Ok(())
}
