use crate::*;
use std::test::Fail;
use vec_names::{Kind, Ops, Params};

/// The meta tuple of a graph of four places with m 2 and ef 4: no entry point, the hint 1.
const META: [u8; 32] = [
    0x56, 0x54, 0x49, 0x42, 2, 0, 1, 1, 4, 0, 0, 0, 2, 0, 4, 0, 0, 0, 0, 0, 0xff, 0xff, 0xff, 0xff,
    0, 0, 0, 0, 1, 0, 0, 0,
];

#[test]
fn one_page_with_the_meta_tuple(rt: HostRuntime) -> Result<(), Fail> {
    let params = Params {
        kind: Kind::Hnsw,
        ops: Ops::Hamming,
        bits: 4,
        m: 2,
        ef: 4,
        lists: 0,
    };
    let pages = empty_index(rt.alloc(), params)?;
    assert!(rt; pages.len() == 1 && pages[0].count() == 1);
    let Some(item) = pages[0].item(1) else {
        return Err(Fail::new("an item"));
    };
    assert!(rt; item == META.as_slice());
    Ok(())
}
