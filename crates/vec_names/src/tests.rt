use super::*;
use std::alloc::AllocError;
use std::test::*;

fn graph(m: u16, ef: u16) -> Params {
    Params {
        kind: Kind::Hnsw,
        ops: Ops::Jaccard,
        bits: 64_000,
        m,
        ef,
        lists: 0,
    }
}

fn lists(ops: Ops, lists: u32) -> Params {
    Params {
        kind: Kind::Ivf,
        ops,
        bits: 1,
        m: 0,
        ef: 0,
        lists,
    }
}

#[test]
fn levels_of_words(rt: HostRuntime) {
    // 2^60 is 2^64 / 16, and 100^9 = 10^18 is below 2^64, where 100^10 is above.
    let rows = [
        (1_152_921_504_606_846_976, 16, 0),
        (1_152_921_504_606_846_975, 16, 1),
        (0, 2, 64),
        (0, 100, 9),
        (1, 2, 63),
        (u64::MAX, 2, 0),
        (0x8000_0000_0000_0000, 2, 0),
        (0x7FFF_FFFF_FFFF_FFFF, 2, 1),
    ];
    for (word, m, level) in rows {
        assert!(rt; level_of(word, m) == level);
    }
    assert!(rt; most_level(2) == 255 && most_level(16) == 82 && most_level(100) == 11);
}

#[test]
fn parameters_in_range(rt: HostRuntime) {
    let rows = [
        (graph(2, 4), true),
        (graph(100, 1_000), true),
        (graph(16, 31), false),
        (graph(1, 4), false),
        (graph(101, 1_000), false),
        (graph(16, 1_001), false),
        (lists(Ops::Hamming, 1), true),
        (lists(Ops::Hamming, 32_768), true),
        (lists(Ops::Hamming, 0), false),
        (lists(Ops::Hamming, 32_769), false),
        (lists(Ops::Jaccard, 100), false),
    ];
    for (params, good) in rows {
        assert_eq!(rt; params.check(), good);
    }
}

#[test]
fn ordered_by_block_then_offset(rt: HostRuntime) {
    assert!(rt; Tid { block: 1, off: 9 } < Tid { block: 2, off: 1 });
    assert!(rt; HeapId { block: 1, off: 1 } < HeapId { block: 1, off: 2 });
    assert!(rt; HeapId { block: 7, off: 2 } == HeapId { block: 7, off: 2 });
}

#[test]
fn pointers_spelled_and_read(rt: HostRuntime) {
    let place = Tid { block: 1, off: 2 };
    let far = HeapId {
        block: 0x0001_0203,
        off: 0x0405,
    };
    assert_eq!(rt; place.spelled(), [0, 0, 1, 0, 2, 0]);
    assert_eq!(rt; far.spelled(), [1, 0, 3, 2, 5, 4]);
    assert_eq!(rt; Tid::spelled_option(None), [255, 255, 255, 255, 0, 0]);
    assert_eq!(rt; HeapId::spelled_option(Some(far)), far.spelled());
    assert_eq!(rt; HeapId::new(1, 0), None);

    // The bytes, the place that they spell, and the row.
    let rows: [([u8; 6], Option<Tid>, Option<HeapId>); 5] = [
        ([0, 0, 1, 0, 2, 0], Tid::new(1, 2), HeapId::new(1, 2)),
        (
            [0, 0, 255, 127, 1, 0],
            Tid::new(32_767, 1),
            HeapId::new(32_767, 1),
        ),
        ([0, 0, 0, 128, 1, 0], None, HeapId::new(32_768, 1)),
        ([0, 0, 1, 0, 0, 0], None, None),
        ([255, 255, 255, 255, 1, 0], None, None),
    ];
    for (bytes, place, row) in rows {
        assert_eq!(rt; Tid::read(bytes), place);
        assert_eq!(rt; HeapId::read(bytes), row);
        assert!(rt; Tid::read_option(bytes).is_some() == place.is_some());
    }
    assert_eq!(rt; Tid::read_option([255, 255, 255, 255, 0, 0]), Some(None));
    assert_eq!(rt; HeapId::read_option([1, 0, 3, 2, 5, 4]), Some(Some(far)));
}

#[test]
fn a_map_as_a_value(rt: HostRuntime) -> Result<(), AllocError> {
    let here = Tid { block: 1, off: 2 };
    let there = Tid { block: 2, off: 1 };
    let mut map = Mapped::new(rt.alloc());
    map.insert(there, 20u32)?;
    map.insert(here, 10)?;
    if let Some(value) = map.get_mut(here) {
        *value = 11;
    }
    assert_eq!(rt; map.get(here).copied(), Some(11));
    assert_eq!(rt; map.iter().next().map(|(place, _)| *place), Some(here));
    assert_eq!(rt; map.remove(there), Some(20));
    assert_eq!(rt; map.len(), 1);
    Ok(())
}
