use super::*;
use std::alloc::Global;
use std::test::*;
use vec_names::{HeapId, Tid};

const NONE: [u8; 6] = [255, 255, 255, 255, 0, 0];

const PLACE: [u8; 6] = [0, 0, 3, 0, 7, 0];

/// The value that was read, and how many bytes are left behind it.
fn told<T: Copy>(read: Result<(T, &[u8]), Stop>) -> Result<(T, usize), Stop> {
    match read {
        Ok((value, rest)) => Ok((value, rest.len())),
        Err(stop) => Err(stop),
    }
}

fn bad(left: usize) -> Stop {
    Stop {
        cause: Cause::Bad,
        left,
    }
}

fn short(left: usize) -> Stop {
    Stop {
        cause: Cause::Short,
        left,
    }
}

#[test]
fn numbers_from_low_to_high(rt: HostRuntime) {
    assert_eq!(rt; told(byte_from(1, 9, &[9, 0])), Ok((9, 1)));
    assert_eq!(rt; told(byte_from(1, 9, &[10, 0])), Err(bad(2)));
    assert_eq!(rt; told(byte_from(1, 9, &[])), Err(short(0)));
    assert_eq!(rt; told(two_bytes_from(258, 258, &[2, 1, 0])), Ok((258, 1)));
    assert_eq!(rt; told(two_bytes_from(258, 300, &[1, 1, 0])), Err(bad(3)));
    assert_eq!(rt; told(two_bytes_from(0, 300, &[1])), Err(short(1)));
    assert_eq!(rt;
        told(four_bytes_from(0, 65_536, &[0, 0, 1, 0])),
        Ok((65_536, 0))
    );
    assert_eq!(rt;
        told(four_bytes_from(0, 65_535, &[0, 0, 1, 0])),
        Err(bad(4))
    );
    assert_eq!(rt; told(four_bytes_from(0, 65_535, &[0, 0, 1])), Err(short(3)));
}

#[test]
fn places_and_rows(rt: HostRuntime) {
    let at = Tid { block: 3, off: 7 };
    assert_eq!(rt; told(place(&PLACE)), Ok((at, 0)));
    assert_eq!(rt; told(place(&NONE)), Err(bad(6)));
    assert_eq!(rt; told(place(&[0, 0, 3])), Err(short(3)));
    assert_eq!(rt; told(optional_place(&PLACE)), Ok((Some(at), 0)));
    assert_eq!(rt; told(optional_place(&NONE)), Ok((None, 0)));
    assert_eq!(rt; told(no_place(&NONE)), Ok((None, 0)));
    assert_eq!(rt; told(no_place(&PLACE)), Err(bad(6)));
    assert_eq!(rt; told(slot_of(false, &PLACE)), Ok((Some(at), 0)));
    assert_eq!(rt; told(slot_of(true, &PLACE)), Err(bad(6)));
    assert_eq!(rt; told(heap_id(&PLACE)), Ok((HeapId { block: 3, off: 7 }, 0)));
    assert_eq!(rt; told(level_beside(Some(at), &[4])), Ok((4, 0)));
    assert_eq!(rt; told(level_beside(None, &[4])), Err(bad(1)));
    assert_eq!(rt; told(level_beside(None, &[0])), Ok((0, 0)));
}

#[test]
fn packed_places_of_a_value(rt: HostRuntime) {
    match packed_places(4, &[0b1010_0000, 1]) {
        Ok((places, rest)) => {
            assert_eq!(rt; places.len(), 1);
            assert_eq!(rt; rest.len(), 1);
        }
        Err(_) => assert!(rt; false, "no places were read"),
    }
    match packed_places(4, &[0b1010_1000, 1]) {
        Ok(_) => assert!(rt; false, "an unused bit was taken"),
        Err(stop) => assert_eq!(rt; stop, bad(2)),
    }
}

#[test]
fn slots_one_after_the_other(rt: HostRuntime) -> Result<(), Fail> {
    let alloc: Global = rt.alloc();
    let mut bytes = Vec::with_capacity(alloc, 13)?;
    put_slots(&mut bytes, &[Some(Tid { block: 3, off: 7 }), None]);
    let both = [0u8, 0, 3, 0, 7, 0, 255, 255, 255, 255, 0, 0];
    assert_eq!(rt; bytes.as_slice(), both.as_slice());
    put(&mut bytes, &[9]);
    match slots(alloc, false, 2, &bytes) {
        Ok((places, rest)) => {
            let both = [Some(Tid { block: 3, off: 7 }), None];
            assert_eq!(rt; places.as_slice(), &both[..]);
            assert_eq!(rt; rest.len(), 1);
        }
        Err(_) => assert!(rt; false, "no slots were read"),
    }
    match slots(alloc, false, 3, &bytes) {
        Ok(_) => assert!(rt; false, "a third slot was read"),
        Err(halt) => assert_eq!(rt; halt, Halt::Stopped(short(1))),
    }
    match slots(alloc, true, 2, &bytes) {
        Ok(_) => assert!(rt; false, "a closed slot was read"),
        Err(halt) => assert_eq!(rt; halt, Halt::Stopped(bad(13))),
    }
    Ok(())
}
