use crate::{
    Command, Counts, Form, Further, MOST_BYTES, Refusal, Reply, ScriptFault, apart, command_lines,
    numbered, one_reading, one_refusal, read_script, write_reply,
};
use bit_dist::Dist;
use std::alloc::Global;
use std::test::Fail;
use vec_names::{HeapId, Ops, Tid};

// The only command of a script.
fn only(alloc: Global, form: Form, text: &str) -> Result<Option<Command>, ScriptFault> {
    let mut commands = read_script(alloc, text.as_bytes(), form)?;
    let last = commands.pop();
    if commands.is_empty() {
        return Ok(last);
    }
    Ok(None)
}

// Where a script is refused, and 0 where it is not.
fn refused(alloc: Global, form: Form, text: &[u8]) -> Result<u64, ScriptFault> {
    match read_script(alloc, text, form) {
        Ok(_) => Ok(0),
        Err(ScriptFault::Line(line)) => Ok(line),
        Err(ScriptFault::Memory) => Err(ScriptFault::Memory),
    }
}

const MOST: u64 = 18_446_744_073_709_551_615;

// Texts, and what they make: the distance, the number of places, m, ef and round.
type Numbers = (Ops, u64, Option<u64>, Option<u64>, Option<u64>);

const CREATED: [(&str, Numbers); 5] = [
    ("create hnsw hamming 4", (Ops::Hamming, 4, None, None, None)),
    (
        "create hnsw jaccard 64000 m 2 ef 4 round 1\n",
        (Ops::Jaccard, 64_000, Some(2), Some(4), Some(1)),
    ),
    (
        "create hnsw hamming 4 ef 10",
        (Ops::Hamming, 4, None, Some(10), None),
    ),
    (
        "create hnsw hamming 0 m 0 round 18446744073709551615",
        (Ops::Hamming, 0, Some(0), None, Some(MOST)),
    ),
    (
        "# an index\n\ncreate hnsw hamming 4 m 3 ef 6",
        (Ops::Hamming, 4, Some(3), Some(6), None),
    ),
];

#[test]
fn indexes_to_make(rt: HostRuntime) -> Result<(), Fail> {
    for (text, want) in CREATED {
        match &only(rt.alloc(), Form::Alone, text)? {
            Some(
                Command::Create {
                    ops,
                    bits,
                    m,
                    ef,
                    round,
                },
            ) => assert!(rt; (*ops, *bits, *m, *ef, *round) == want),
            _ => assert!(rt; false),
        }
    }
    Ok(())
}

const ASKED: [(&str, Option<u64>, Option<Further>); 7] = [
    ("search 01 limit 3", None, None),
    ("search 01 limit 3 ef 10", Some(10), None),
    (
        "search 01 limit 3 relaxed",
        None,
        Some(Further::Relaxed { most: None }),
    ),
    (
        "search 01 limit 3 relaxed 7",
        None,
        Some(Further::Relaxed { most: Some(7) }),
    ),
    (
        "search 01 limit 3 strict",
        None,
        Some(Further::Strict { most: None }),
    ),
    (
        "search 01 limit 3 ef 9 strict 8",
        Some(9),
        Some(Further::Strict { most: Some(8) }),
    ),
    (
        "search 01 limit 3 ef 0 relaxed 0",
        Some(0),
        Some(Further::Relaxed { most: Some(0) }),
    ),
];

#[test]
fn searches(rt: HostRuntime) -> Result<(), Fail> {
    for (text, want_ef, want) in ASKED {
        match &only(rt.alloc(), Form::Alone, text)? {
            Some(
                Command::Search {
                    bits,
                    limit,
                    ef,
                    further,
                },
            ) => {
                assert!(rt; bits.count() == 2 && !bits.get(0) && bits.get(1));
                assert!(rt; *limit == 3 && *ef == want_ef && *further == want);
            }
            _ => assert!(rt; false),
        }
    }
    Ok(())
}

const ROWS: [(&str, HeapId, Option<u64>); 3] = [
    ("row 0/1 1", HeapId { block: 0, off: 1 }, None),
    (
        "row 4294967294/65535 1 0",
        HeapId {
            block: 4_294_967_294,
            off: 65_535,
        },
        Some(0),
    ),
    (
        "row 7/10 1 18446744073709551615",
        HeapId { block: 7, off: 10 },
        Some(MOST),
    ),
];

#[test]
fn rows_and_their_words(rt: HostRuntime) -> Result<(), Fail> {
    for (text, want, want_word) in ROWS {
        match &only(rt.alloc(), Form::Alone, text)? {
            Some(Command::Row { id, word, .. }) => assert!(rt; *id == want && *word == want_word),
            _ => assert!(rt; false),
        }
    }
    match &only(rt.alloc(), Form::Alone, "insert 7/10 11 5")? {
        Some(Command::Insert { id, bits, word }) => {
            assert!(rt;
                *id == HeapId { block: 7, off: 10 } && bits.count() == 2 && *word == Some(5)
            );
        }
        _ => assert!(rt; false),
    }
    match &only(rt.alloc(), Form::Alone, "draw 12")? {
        Some(Command::Draw { seed }) => assert_eq!(rt; *seed, 12),
        _ => assert!(rt; false),
    }
    match &only(rt.alloc(), Form::Alone, "stats")? {
        Some(Command::Stats) => {}
        _ => assert!(rt; false),
    }
    Ok(())
}

// Each breaks one rule of the grammar.
const OUTSIDE: [&[u8]; 28] = [
    b"query 01",
    b"draw",
    b"draw x",
    b"draw 1 2",
    b"draw 01",
    b"draw 18446744073709551616",
    b"create",
    b"create ivfflat hamming 4",
    b"create hnsw euclid 4",
    b"create hnsw hamming",
    b"create hnsw hamming 4 ef 4 m 2",
    b"create hnsw hamming 4 m",
    b"create hnsw hamming 4 m 2 m 3",
    b"create hnsw hamming 4 round 1 x",
    b"insert 1/1",
    b"insert 1/0 1",
    b"insert 1/1 1 2 3",
    b"insert 1/1 1 ",
    b"search 1",
    b"search 1 limit",
    b"search 1 limit x",
    b"search 1 limit 1 probes 1",
    b"search 1 limit 1 relaxed strict",
    b"search 1 limit 1 relaxed 1 ef 2",
    b"search 1  limit 1",
    b"stats 1",
    b"Stats",
    b"vacuum all",
];

#[test]
fn lines_outside_the_form(rt: HostRuntime) -> Result<(), Fail> {
    for text in OUTSIDE {
        assert_eq!(rt; refused(rt.alloc(), Form::Alone, text)?, 1);
    }
    assert_eq!(rt;
        refused(
            rt.alloc(),
            Form::Alone,
            b"stats\n#\n\nrow 1/1 0\nrow 1/2 00\nnone"
        )?,
        6
    );
    assert_eq!(rt;
        refused(rt.alloc(), Form::Exact, b"row 1/1 0\nrow 1/2 00\n")?,
        2
    );
    assert_eq!(rt; refused(rt.alloc(), Form::Exact, b"row 1/1 0 5")?, 1);
    assert_eq!(rt; refused(rt.alloc(), Form::Exact, b"stats")?, 1);
    assert_eq!(rt; MOST_BYTES, 268_435_456);
    one_reading();
    apart();
    one_refusal();
    Ok(())
}

// What a reply writes.
fn text_of(alloc: Global, reply: &Reply) -> Result<Vec<u8>, ScriptFault> {
    let mut text = Vec::new(alloc);
    write_reply(reply, &mut text)?;
    Ok(text)
}

#[test]
fn replies_that_are_lines(rt: HostRuntime) -> Result<(), Fail> {
    let alloc = rt.alloc();
    let Some(at) = Tid::new(1, 3) else {
        return Ok(());
    };
    let table: [(Reply, &[u8]); 9] = [
        (Reply::Nothing, b""),
        (
            Reply::Created {
                blocks: 2,
                entries: 3,
            },
            b"created blocks 2 entries 3\n",
        ),
        (
            Reply::Put {
                at,
                level: 1,
                version: 2,
            },
            b"put 1/3 level 1 version 2\n",
        ),
        (Reply::Joined { at }, b"joined 1/3\n"),
        (
            Reply::Stats { counts: COUNTS },
            b"stats blocks 1 nodes 6 live 3 doomed 2 deleted 1 entries 40\n",
        ),
        (
            Reply::Refused {
                why: Refusal::NoIndex,
            },
            b"refused no-index\n",
        ),
        (
            Reply::Refused {
                why: Refusal::Exists,
            },
            b"refused exists\n",
        ),
        (
            Reply::Refused {
                why: Refusal::Params,
            },
            b"refused params\n",
        ),
        (
            Reply::Refused {
                why: Refusal::Dimensions,
            },
            b"refused dimensions\n",
        ),
    ];
    for (reply, want) in &table {
        assert_eq!(rt; text_of(alloc, reply)?.as_slice(), *want);
    }
    Ok(())
}

const COUNTS: Counts = Counts {
    blocks: 1,
    nodes: 6,
    live: 3,
    doomed: 2,
    deleted: 1,
    entries: 40,
};

#[test]
fn hits_of_both_distances(rt: HostRuntime) -> Result<(), Fail> {
    let alloc = rt.alloc();
    let id = HeapId { block: 7, off: 10 };
    for (ops, want) in [
        (Ops::Hamming, b"hit 7/10 2\nhits 1\n".as_slice()),
        (Ops::Jaccard, b"hit 7/10 2/4\nhits 1\n".as_slice()),
    ] {
        let mut hits = Vec::new(alloc);
        hits.push((Dist { num: 2, den: 4 }, id))?;
        assert_eq!(rt;
            text_of(alloc, &Reply::Hits { ops, hits })?.as_slice(),
            want
        );
    }
    let none = Vec::new(alloc);
    assert_eq!(rt;
        text_of(
            alloc,
            &Reply::Hits {
                ops: Ops::Hamming,
                hits: none
            }
        )?
        .as_slice(),
        b"hits 0\n".as_slice()
    );
    Ok(())
}

// Lines that are skipped are counted, and have no command. Rows are not run yet.
#[test]
fn numbers_of_lines(rt: HostRuntime) -> Result<(), Fail> {
    numbered();
    let text = b"# index\n\ncreate hnsw hamming 4\ninsert 1/1 0000\n\nsearch 0000 limit 1\nstats";
    let numbers = command_lines(rt.alloc(), text)?;
    assert_eq!(rt; numbers.as_slice(), [3, 4, 6, 7].as_slice());
    let commands = read_script(rt.alloc(), text, Form::Rowless)?;
    assert_eq!(rt; commands.len(), 4);
    for line in [b"row 1/1 0".as_slice(), b"query 0"] {
        assert_eq!(rt; refused(rt.alloc(), Form::Rowless, line)?, 1);
    }
    Ok(())
}
