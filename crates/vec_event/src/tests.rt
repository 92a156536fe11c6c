use super::*;
use bit_code::Bits;
use std::alloc::Global;
use std::test::*;
use vec_names::{HeapId, Listed, Tid};

const PUT: [u8; 52] = [
    1, 0, 0, 1, 0, 1, 0, 0, 0, 1, 0, 2, 0, 1, 0, 0, 0, 1, 0, 1, 0, 4, 0, 0, 0, 0, 4, 0, 255, 255,
    255, 255, 0, 0, 255, 255, 255, 255, 0, 0, 255, 255, 255, 255, 0, 0, 255, 255, 255, 255, 0, 0,
];

const JOIN: [u8; 14] = [2, 0, 0, 1, 0, 1, 0, 1, 1, 0, 0, 0, 7, 0];

const LINK: [u8; 22] = [
    3, 0, 0, 1, 0, 1, 0, 0, 0, 1, 0, 2, 0, 1, 0, 0, 0, 0, 1, 0, 3, 0,
];

const RELIST: [u8; 28] = [
    4, 0, 0, 1, 0, 1, 0, 0, 0, 1, 0, 2, 0, 255, 2, 0, 0, 0, 1, 0, 3, 0, 255, 255, 255, 255, 0, 0,
];

const DROP: [u8; 10] = [5, 0, 0, 1, 0, 1, 0, 1, 255, 3];

const MARK: [u8; 14] = [6, 0, 0, 1, 0, 1, 0, 0, 0, 1, 0, 2, 0, 15];

const ENTRY: [u8; 8] = [7, 0, 0, 1, 0, 1, 0, 0];

const HINT: [u8; 5] = [8, 0, 128, 0, 0];

const IVF_ADD: [u8; 16] = [9, 3, 0, 0, 0, 0, 0, 1, 0, 5, 0, 4, 0, 0, 0, 96];

const IVF_GROW: [u8; 24] = [
    10, 2, 0, 0, 0, 3, 0, 0, 0, 4, 0, 0, 0, 0, 0, 1, 0, 6, 0, 4, 0, 0, 0, 240,
];

const IVF_DROP: [u8; 11] = [11, 3, 0, 0, 0, 2, 0, 1, 0, 4, 0];

const IVF_HINT: [u8; 9] = [12, 1, 0, 0, 0, 3, 0, 0, 0];

/// The bytes of the event that these begin with, written again.
fn again(alloc: Global, bytes: &[u8]) -> Result<Vec<u8>, EventFault> {
    let (event, _size) = read_event(alloc, bytes)?;
    let mut written = Vec::new(alloc);
    write_event(&event, &mut written)?;
    Ok(written)
}

fn fault_of(alloc: Global, bytes: &[u8]) -> Option<EventFault> {
    match read_event(alloc, bytes) {
        Ok((_event, _size)) => None,
        Err(fault) => Some(fault),
    }
}

/// The size of the event that these begin with, read and computed.
fn sizes(alloc: Global, bytes: &[u8]) -> Result<(usize, u64), EventFault> {
    let (event, size) = read_event(alloc, bytes)?;
    Ok((size, event_size(&event)))
}

#[test]
fn each_kind_there_and_back_and_cut(rt: HostRuntime) -> Result<(), EventFault> {
    let events: [&[u8]; 12] = [
        &PUT, &JOIN, &LINK, &RELIST, &DROP, &MARK, &ENTRY, &HINT, &IVF_ADD, &IVF_GROW, &IVF_DROP,
        &IVF_HINT,
    ];
    for bytes in events {
        assert!(rt; again(rt.alloc(), bytes)?.as_slice() == bytes);
        let (read, computed) = sizes(rt.alloc(), bytes)?;
        assert!(rt; read == bytes.len() && computed == bytes.len() as u64);
        for cut in 0..bytes.len() {
            assert!(rt; fault_of(rt.alloc(), &bytes[..cut]) == Some(EventFault::Short));
        }
    }
    Ok(())
}

#[test]
#[tactic(auto, unfolding(crate::specs::Spelling::IsWritable))]
fn a_put_by_its_fields(rt: HostRuntime) -> Result<(), EventFault> {
    let mut lists = Listed::new(rt.alloc());
    lists.push(None)?;
    lists.push(None)?;
    lists.push(None)?;
    lists.push(None)?;
    let bits = Bits::zeros(rt.alloc(), 4).ok().ok_or(EventFault::Memory)?;
    let put = Event::Put {
        at: Tid { block: 1, off: 1 },
        list_at: Tid { block: 1, off: 2 },
        version: 1,
        level: 0,
        id: HeapId { block: 1, off: 1 },
        bits,
        lists,
    };
    let mut written = Vec::new(rt.alloc());
    write_event(&put, &mut written)?;
    assert!(rt; written.as_slice() == PUT.as_slice());
    assert_eq!(rt; event_size(&Event::VacuumEnd), 0);
    Ok(())
}

#[test]
fn a_link_by_its_fields(rt: HostRuntime) -> Result<(), EventFault> {
    let mut more = Vec::from_slice(rt.alloc(), &LINK)?;
    more.push(9)?;
    let (event, size) = read_event(rt.alloc(), &more)?;
    assert_eq!(rt; size, 22);
    match event {
        Event::Link {
            at,
            list_at,
            version,
            slot,
            to,
        } => {
            assert!(rt; at.block == 1 && at.off == 1 && list_at.off == 2);
            assert!(rt; version == 1 && slot == 0 && to.off == 3);
        }
        _ => assert!(rt; false),
    }
    Ok(())
}

#[test]
fn bad_values_by_their_places(rt: HostRuntime) {
    let rows: [(&[u8], u32); 21] = [
        // A kind.
        (&[0], 0),
        (&[13], 0),
        // A place, an optional place, one in a list, a heap id.
        (&[2, 0, 0, 0, 128, 1, 0], 1),
        (&[2, 0, 0, 1, 0, 0, 0], 1),
        (&[7, 255, 255, 255, 255, 1, 0], 1),
        (
            &[
                4, 0, 0, 1, 0, 1, 0, 0, 0, 1, 0, 2, 0, 1, 1, 0, 0, 0, 0, 128, 1, 0,
            ],
            16,
        ),
        (&[2, 0, 0, 1, 0, 1, 0, 1, 255, 255, 255, 255, 1, 0], 8),
        // A version.
        (&[2, 0, 0, 1, 0, 1, 0, 0], 7),
        // A count of places, and an unused bit.
        (&[9, 3, 0, 0, 0, 0, 0, 1, 0, 5, 0, 0, 0, 0, 0], 11),
        (&[9, 3, 0, 0, 0, 0, 0, 1, 0, 5, 0, 1, 250, 0, 0], 11),
        (&[9, 3, 0, 0, 0, 0, 0, 1, 0, 5, 0, 4, 0, 0, 0, 8], 15),
        // A count of optional places.
        (&[4, 0, 0, 1, 0, 1, 0, 0, 0, 1, 0, 2, 0, 1, 79, 5], 14),
        // A mask of heap ids.
        (&[5, 0, 0, 1, 0, 1, 0, 1, 0, 0], 8),
        (&[5, 0, 0, 1, 0, 1, 0, 1, 0, 4], 8),
        // A level.
        (&[7, 255, 255, 255, 255, 0, 0, 1], 7),
        // A block, a hint, a list.
        (&[9, 0, 128, 0, 0], 1),
        (&[8, 1, 128, 0, 0], 1),
        (&[12, 0, 128, 0, 0], 1),
        // A count of offsets, and offsets.
        (&[11, 3, 0, 0, 0, 0, 0], 5),
        (&[11, 3, 0, 0, 0, 1, 0, 0, 0], 7),
        (&[11, 3, 0, 0, 0, 2, 0, 5, 0, 5, 0], 9),
    ];
    for (bytes, at) in rows {
        assert!(rt; fault_of(rt.alloc(), bytes) == Some(EventFault::Bad { at }));
    }
}
