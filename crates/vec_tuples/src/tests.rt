use super::*;
use arrayvec::ArrayVec;
use std::alloc::Global;
use std::test::*;
use vec_names::{HeapId, Kind, Ops, Params, Tid};

/// A graph of four places with m 2 and ef 4, its entry at 1/1 and its hint 1.
const GRAPH: [u8; 32] = [
    0x56, 0x54, 0x49, 0x42, 2, 0, 1, 1, 4, 0, 0, 0, 2, 0, 4, 0, 0, 0, 0, 0, 0, 0, 1, 0, 1, 0, 0, 0,
    1, 0, 0, 0,
];

/// Three lists of 64,000 places.
const LISTS: [u8; 32] = [
    0x56, 0x54, 0x49, 0x42, 1, 0, 2, 1, 0, 250, 0, 0, 0, 0, 0, 0, 3, 0, 0, 0, 255, 255, 255, 255,
    0, 0, 0, 0, 0, 0, 0, 0,
];

/// Where each field of a meta tuple begins.
const META_PLACES: [u16; 12] = [0, 4, 6, 7, 8, 12, 14, 16, 20, 26, 27, 28];

fn meta_fault(bytes: &[u8]) -> Option<TupleFault> {
    match read_meta(bytes) {
        Ok(_) => None,
        Err(fault) => Some(fault),
    }
}

#[test]
fn metas_there_and_back(rt: HostRuntime) -> Result<(), TupleFault> {
    let meta = read_meta(&GRAPH)?;
    let params = Params {
        kind: Kind::Hnsw,
        ops: Ops::Hamming,
        bits: 4,
        m: 2,
        ef: 4,
        lists: 0,
    };
    assert!(rt; meta.format == 2 && meta.params == params);
    assert!(rt; meta.entry == Tid::new(1, 1) && meta.level == 0 && meta.hint == 1);
    let lists = read_meta(&LISTS)?;
    assert!(rt; lists.format == 1 && lists.params.bits == 64_000 && lists.params.lists == 3);
    for bytes in [GRAPH, LISTS] {
        let meta = read_meta(&bytes)?;
        let mut written = Vec::new(rt.alloc());
        write_meta(&meta, &mut written)?;
        assert!(rt; written.as_slice() == bytes.as_slice());
        let mut filled = [9u8; 32];
        fill_meta(&meta, &mut filled);
        assert!(rt; filled == bytes);
    }
    Ok(())
}

#[test]
fn damaged_metas_by_place(rt: HostRuntime) {
    // The tuple, a byte's place, what stands there, and the fault's place.
    let rows = [
        (GRAPH, 0, 0, 0),
        (GRAPH, 4, 3, 4),
        (GRAPH, 4, 0, 4),
        (GRAPH, 6, 3, 6),
        (GRAPH, 7, 3, 7),
        (LISTS, 7, 2, 7),
        (GRAPH, 8, 0, 8),
        (LISTS, 8, 1, 8),
        (GRAPH, 12, 1, 12),
        (GRAPH, 12, 3, 14),
        (LISTS, 12, 1, 12),
        (GRAPH, 14, 3, 14),
        (GRAPH, 16, 1, 16),
        (LISTS, 16, 0, 16),
        (GRAPH, 24, 0, 20),
        (GRAPH, 21, 1, 20),
        (LISTS, 24, 1, 20),
        (LISTS, 26, 1, 26),
        (GRAPH, 27, 1, 27),
        (GRAPH, 28, 0, 28),
        (LISTS, 28, 1, 28),
    ];
    for (tuple, place, byte, at) in rows {
        let mut bytes = tuple;
        if let Some(there) = bytes.get_mut(place) {
            *there = byte;
        }
        assert_eq!(rt; meta_fault(&bytes), Some(TupleFault::Bad { at }));
    }
    let mut longer = [0u8; 33];
    longer[..32].copy_from_slice(&GRAPH);
    assert_eq!(rt; meta_fault(&longer), Some(TupleFault::Bad { at: 32 }));
    let mut ended = 0;
    for cut in 0..32 {
        if META_PLACES.contains(&(cut as u16)) {
            ended = cut as u16;
        }
        assert_eq!(rt;
            meta_fault(&GRAPH[..cut]),
            Some(TupleFault::Bad { at: ended })
        );
    }
}

/// Four places in three lists.
const FOUR: Params = Params {
    kind: Kind::Ivf,
    ops: Ops::Hamming,
    bits: 4,
    m: 0,
    ef: 0,
    lists: 3,
};

/// The row 1/2 with the value 0011.
const ENTRY: [u8; 17] = [0, 0, 1, 0, 2, 0, 0, 0, 0x24, 0, 0, 0, 4, 0, 0, 0, 0x30];

/// A list from block 3 on that looks for room at block 5, with the centre 0011.
const CENTRE: [u8; 21] = [
    3, 0, 0, 0, 5, 0, 0, 0, 0, 0, 0, 0, 0x24, 0, 0, 0, 4, 0, 0, 0, 0x30,
];

fn entry_fault(alloc: Global, bytes: &[u8]) -> Option<TupleFault> {
    let params = FOUR;
    if !params.check() {
        return None;
    }
    match read_entry(alloc, bytes, &params) {
        Ok(_) => None,
        Err(fault) => Some(fault),
    }
}

fn centre_fault(alloc: Global, bytes: &[u8]) -> Option<TupleFault> {
    let params = FOUR;
    if !params.check() {
        return None;
    }
    match read_centre(alloc, bytes, &params) {
        Ok(_) => None,
        Err(fault) => Some(fault),
    }
}

#[test]
fn entries_and_centres_there_and_back(rt: HostRuntime) -> Result<(), TupleFault> {
    let params = FOUR;
    assert!(rt; params.check());
    let row = read_entry(rt.alloc(), &ENTRY, &params)?;
    assert!(rt; packed(&ENTRY) == [0x30].as_slice());
    assert!(rt; Some(row.id) == HeapId::new(1, 2) && row.bits.count() == 4);
    assert!(rt; row.bits.bytes() == [0x30].as_slice());
    let mut written = Vec::new(rt.alloc());
    write_entry(&row, &mut written)?;
    assert!(rt; written.as_slice() == ENTRY.as_slice());
    if written.len() == 16 + (row.bits.count() as usize + 7) / 8 {
        written.as_mut_slice().fill(9);
        fill_entry(row.id, &row.bits, written.as_mut_slice());
    }
    assert!(rt; written.as_slice() == ENTRY.as_slice());

    let centre = read_centre(rt.alloc(), &CENTRE, &params)?;
    assert!(rt; packed(&CENTRE) == [0x30].as_slice());
    assert!(rt; centre.first == 3 && centre.aim == 5 && centre.bits.get(3));
    assert!(rt; centre_head(&CENTRE, &params) == Some((3, 5)));
    assert!(rt; centre_head(&ENTRY, &params).is_none());
    let mut again = Vec::new(rt.alloc());
    write_centre(&centre, &mut again)?;
    assert!(rt; again.as_slice() == CENTRE.as_slice());
    let mut aimed = CENTRE;
    set_aim(&mut aimed, 0x0102_0304);
    let other = read_centre(rt.alloc(), &aimed, &params)?;
    assert!(rt; other.first == 3 && other.aim == 0x0102_0304);
    assert!(rt; other.bits.bytes() == [0x30].as_slice());
    Ok(())
}

#[test]
fn damaged_entries_and_centres_by_place(rt: HostRuntime) {
    for (place, byte, at) in [
        (4, 0, 0),
        (6, 1, 6),
        (7, 1, 6),
        (8, 0x28, 8),
        (12, 5, 12),
        (16, 0x38, 16),
    ] {
        let mut bytes = ENTRY;
        if let Some(there) = bytes.get_mut(place) {
            *there = byte;
        }
        assert_eq!(rt;
            entry_fault(rt.alloc(), &bytes),
            Some(TupleFault::Bad { at })
        );
    }
    for (cut, at) in [(0, 0), (5, 0), (6, 6), (8, 8), (11, 8), (12, 12), (16, 16)] {
        assert_eq!(rt;
            entry_fault(rt.alloc(), &ENTRY[..cut]),
            Some(TupleFault::Bad { at })
        );
    }
    for (place, byte, at) in [(8, 1, 8), (12, 0x20, 12), (16, 3, 16), (20, 0x31, 20)] {
        let mut bytes = CENTRE;
        if let Some(there) = bytes.get_mut(place) {
            *there = byte;
        }
        assert_eq!(rt;
            centre_fault(rt.alloc(), &bytes),
            Some(TupleFault::Bad { at })
        );
    }
    let mut longer = [0u8; 22];
    longer[..21].copy_from_slice(&CENTRE);
    assert_eq!(rt;
        centre_fault(rt.alloc(), &longer),
        Some(TupleFault::Bad { at: 21 })
    );
}

/// A graph of four places with m 2.
const SMALL: Params = Params {
    kind: Kind::Hnsw,
    ops: Ops::Hamming,
    bits: 4,
    m: 2,
    ef: 4,
    lists: 0,
};

/// The four slots of an element of level 0 and version 1, of which the first names 1/3.
const LINKS: [u8; 28] = [
    2, 1, 4, 0, 0, 0, 1, 0, 3, 0, 255, 255, 255, 255, 0, 0, 255, 255, 255, 255, 0, 0, 255, 255,
    255, 255, 0, 0,
];

fn links_fault(alloc: Global, bytes: &[u8]) -> Option<TupleFault> {
    let params = SMALL;
    if !params.check() {
        return None;
    }
    match read_list(alloc, bytes, &params) {
        Ok(_) => None,
        Err(fault) => Some(fault),
    }
}

#[test]
fn links_there_and_back(rt: HostRuntime) -> Result<(), TupleFault> {
    let params = SMALL;
    assert!(rt; params.check());
    let links = read_list(rt.alloc(), &LINKS, &params)?;
    assert!(rt; !links.deleted && links.version == 1 && links.tids.len() == 4);
    assert!(rt; links.tids.as_slice().first() == Some(&Tid::new(1, 3)));
    assert!(rt; links.tids.as_slice().last() == Some(&None));
    let mut written = Vec::new(rt.alloc());
    if links.tids.len() < 65_536 {
        write_list(&links, &mut written)?;
    }
    assert!(rt; written.as_slice() == LINKS.as_slice());

    // The most slots: of an element of level 12 where m is 97, deleted.
    let mut bytes = Vec::new(rt.alloc());
    bytes.extend_from_slice(&[3, 255, 78, 5])?;
    for _ in 0..1_358 {
        bytes.extend_from_slice(&[255, 255, 255, 255, 0, 0])?;
    }
    let wide = Params {
        kind: Kind::Hnsw,
        ops: Ops::Hamming,
        bits: 4,
        m: 97,
        ef: 194,
        lists: 0,
    };
    assert!(rt; wide.check());
    let most = read_list(rt.alloc(), bytes.as_slice(), &wide)?;
    assert!(rt; most.deleted && most.version == 255 && most.tids.len() == 1_358);
    Ok(())
}

#[test]
fn damaged_links_by_place(rt: HostRuntime) {
    for (place, byte, at) in [
        (0, 1, 0),
        (0, 4, 0),
        (0, 3, 4),
        (1, 0, 1),
        (2, 2, 2),
        (2, 5, 2),
        (3, 6, 2),
        (2, 6, 28),
        (8, 0, 4),
        (14, 1, 10),
        (24, 0, 22),
    ] {
        let mut bytes = LINKS;
        if let Some(there) = bytes.get_mut(place) {
            *there = byte;
        }
        assert_eq!(rt;
            links_fault(rt.alloc(), &bytes),
            Some(TupleFault::Bad { at })
        );
    }
    // The four empty slots of an element of level 0, which were just made.
    let mut empty = LINKS;
    empty[4..10].copy_from_slice(&[255, 255, 255, 255, 0, 0]);
    assert!(rt; links_fault(rt.alloc(), &empty).is_none());
    for cut in 0..28 {
        let at = if cut < 2 {
            cut as u16
        } else if cut < 4 {
            2
        } else {
            ((cut - 4) / 6 * 6 + 4) as u16
        };
        assert_eq!(rt;
            links_fault(rt.alloc(), &LINKS[..cut]),
            Some(TupleFault::Bad { at })
        );
        assert_eq!(rt;
            links_fault(rt.alloc(), &empty[..cut]),
            Some(TupleFault::Bad { at })
        );
    }
}

#[test]
fn links_in_place(rt: HostRuntime) -> Result<(), TupleFault> {
    let params = SMALL;
    assert!(rt; params.check());
    assert!(rt; links_head(&LINKS, &params) == Some((false, 1, 4)));
    assert!(rt; links_head(&LINKS[..27], &params).is_none());
    let links = read_list(rt.alloc(), &LINKS, &params)?;
    assert!(rt; links.tids.len() == 4);
    assert!(rt; slot(&LINKS, 0) == Tid::new(1, 3));
    assert!(rt; slot(&LINKS, 3).is_none());
    let mut changed = LINKS;
    set_slot(&mut changed, 1, Tid::new(258, 5));
    assert!(rt; changed[..10] == LINKS[..10] && changed[16..] == LINKS[16..]);
    assert!(rt; changed[10..16] == [0, 0, 2, 1, 5, 0]);
    let mut filled = [9u8; 28];
    fill_links(
        links.deleted,
        links.version,
        links.tids.as_slice(),
        &mut filled,
    );
    assert!(rt; filled == LINKS);
    Ok(())
}

/// The element of the row 1/1 with the value 0000, level 0 and version 1, whose neighbour tuple is at 1/2.
const ELEMENT: [u8; 81] = [
    1, 0, 0, 1, 0, 0, 1, 0, 1, 0, 255, 255, 255, 255, 0, 0, 255, 255, 255, 255, 0, 0, 255, 255,
    255, 255, 0, 0, 255, 255, 255, 255, 0, 0, 255, 255, 255, 255, 0, 0, 255, 255, 255, 255, 0, 0,
    255, 255, 255, 255, 0, 0, 255, 255, 255, 255, 0, 0, 255, 255, 255, 255, 0, 0, 0, 0, 1, 0, 2, 0,
    0, 0, 0x24, 0, 0, 0, 4, 0, 0, 0, 0,
];

fn element_fault(alloc: Global, bytes: &[u8]) -> Option<TupleFault> {
    let params = SMALL;
    if !params.check() {
        return None;
    }
    match read_element(alloc, bytes, &params) {
        Ok(_) => None,
        Err(fault) => Some(fault),
    }
}

#[test]
fn elements_there_and_back(rt: HostRuntime) -> Result<(), TupleFault> {
    let params = SMALL;
    assert!(rt; params.check());
    let element = read_element(rt.alloc(), &ELEMENT, &params)?;
    assert!(rt; packed(&ELEMENT) == [0].as_slice());
    assert!(rt; element.level == 0 && !element.deleted && element.version == 1);
    assert!(rt;
        element.ids.len() == 1 && element.ids.as_slice().first().copied() == HeapId::new(1, 1)
    );
    assert!(rt; Some(element.list_at) == Tid::new(1, 2));
    assert!(rt; element.bits.count() == 4 && element.bits.bytes() == [0].as_slice());
    let mut written = Vec::new(rt.alloc());
    write_element(&element, &mut written)?;
    assert!(rt; written.as_slice() == ELEMENT.as_slice());
    Ok(())
}

#[test]
fn element_heads_in_place(rt: HostRuntime) -> Result<(), TupleFault> {
    let params = SMALL;
    assert!(rt; params.check());
    let mut bytes = ELEMENT;
    bytes[80] = 0x30;
    let element = read_element(rt.alloc(), &bytes, &params)?;
    assert!(rt; element_head(&bytes[..80], &params).is_none());
    if let Some(mut head) = element_head(&bytes, &params) {
        assert!(rt; head.level == 0 && !head.deleted && head.version == 1);
        assert!(rt; head.ids.len() == 1 && Some(head.list_at) == Tid::new(1, 2));
        let mut filled = [9u8; 81];
        if element.bits.count() == 4 {
            fill_element(&head, &element.bits, &mut filled);
        }
        assert!(rt; filled == bytes);
        head.version = 2;
        set_head(&mut filled, &head);
        assert!(rt; filled[3] == 2 && filled[4..] == bytes[4..]);
        head.deleted = true;
        head.ids = ArrayVec::new();
        set_head(&mut filled, &head);
        assert!(rt; filled[..10] == [1, 0, 1, 2, 255, 255, 255, 255, 0, 0]);
        assert!(rt; filled[10..80] == ELEMENT[10..80] && filled[80] == 0);
    } else {
        assert!(rt; false);
    }
    Ok(())
}

#[test]
fn damaged_elements_by_place(rt: HostRuntime) {
    for (place, byte, at) in [
        (0, 2, 0),
        (2, 2, 2),
        (2, 1, 4),
        (3, 0, 3),
        (8, 0, 4),
        (64, 1, 64),
        (68, 0, 64),
        (71, 1, 70),
        (72, 0x28, 72),
        (76, 5, 76),
        (80, 0x38, 80),
    ] {
        let mut bytes = ELEMENT;
        if let Some(there) = bytes.get_mut(place) {
            *there = byte;
        }
        assert_eq!(rt;
            element_fault(rt.alloc(), &bytes),
            Some(TupleFault::Bad { at })
        );
    }
    // A row stands in each place behind the second, which is empty; and an offset beside no block.
    for place in 2..10usize {
        let from = 4 + 6 * place;
        let mut bytes = ELEMENT;
        bytes[from..from + 6].copy_from_slice(&[0, 0, 1, 0, 1, 0]);
        assert_eq!(rt;
            element_fault(rt.alloc(), &bytes),
            Some(TupleFault::Bad { at: from as u16 })
        );
        let mut odd = ELEMENT;
        odd[from + 4] = 1;
        assert_eq!(rt;
            element_fault(rt.alloc(), &odd),
            Some(TupleFault::Bad { at: from as u16 })
        );
    }
    // A deleted element with a set place.
    let mut deleted = ELEMENT;
    deleted[2] = 1;
    deleted[4..10].copy_from_slice(&[255, 255, 255, 255, 0, 0]);
    assert!(rt; element_fault(rt.alloc(), &deleted).is_none());
    deleted[80] = 0x10;
    assert_eq!(rt;
        element_fault(rt.alloc(), &deleted),
        Some(TupleFault::Bad { at: 80 })
    );
    let mut longer = [0u8; 82];
    longer[..81].copy_from_slice(&ELEMENT);
    assert_eq!(rt;
        element_fault(rt.alloc(), &longer),
        Some(TupleFault::Bad { at: 81 })
    );
}

#[test]
fn cut_elements_by_place(rt: HostRuntime) {
    for cut in 0..81 {
        let at = if cut < 4 {
            cut as u16
        } else if cut < 64 {
            ((cut - 4) / 6 * 6 + 4) as u16
        } else if cut < 70 {
            64
        } else if cut < 72 {
            70
        } else {
            (cut / 4 * 4) as u16
        };
        assert_eq!(rt;
            element_fault(rt.alloc(), &ELEMENT[..cut]),
            Some(TupleFault::Bad { at })
        );
    }
}
