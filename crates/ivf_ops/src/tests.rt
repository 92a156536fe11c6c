//! Which lists are nearest, in the worked index: the query 0111 is as near to the centre 1110 of list 1 as to 0001 of list 2.

ghost use Rattle.std.specs.Prelude.{◌≤◌};

use crate::*;
use bit_dist::Dist;
use std::alloc::{AllocError, Global};
use std::test::*;

/// A list whose centre has so many unequal places.
fn near(list: u32, num: u32) -> Near
    requires { list ≤ 2 }
{
    Near {
        dist: Dist { num, den: 1 },
        list,
        first: list + 2,
        aim: list + 2,
    }
}

/// The three lists, the last first.
fn worked(alloc: Global) -> Result<Vec<Near>, AllocError> {
    let mut nears = Vec::new(alloc);
    nears.push(near(2, 2))?;
    nears.push(near(0, 3))?;
    nears.push(near(1, 2))?;
    Ok(nears)
}

#[test]
fn of_two_as_near_the_lower_number_comes_first(rt: HostRuntime) -> Result<(), AllocError> {
    let lists = nearest_of(worked(rt.alloc())?, 1)?;
    assert!(rt; lists.len() == 1 && lists[0].list == 1);
    Ok(())
}

#[test]
fn all_come_where_there_are_fewer_than_asked_for(rt: HostRuntime) -> Result<(), AllocError> {
    let lists = nearest_of(worked(rt.alloc())?, 9)?;
    assert!(rt; lists.len() == 3 && lists[1].list == 2 && lists[2].first == 2);
    Ok(())
}
