//! A list's calls, each once.

use crate::Listed;
use std::alloc::AllocError;
use std::test::*;

#[test]
fn a_list_as_a_value(rt: HostRuntime) -> Result<(), AllocError> {
    let mut list = Listed::new(rt.alloc());
    list.push(3u16)?;
    list.extend_from_slice(&[5, 7, 9])?;
    list.set(0, 4);
    assert_eq!(rt; list.remove(1), 5);
    let copy = list.try_clone(rt.alloc())?;
    assert_eq!(rt; copy.as_slice(), [4u16, 7, 9].as_slice());
    assert_eq!(rt; list.pop(), Some(9));
    assert_eq!(rt; list.get(1).copied(), Some(7));
    list.truncate(1);
    assert_eq!(rt; list.len(), 1);
    list.clear();
    assert!(rt; list.is_empty() && !copy.is_empty());
    assert_eq!(rt; Listed::from_vec(copy.into_vec()).len(), 3);
    Ok(())
}
