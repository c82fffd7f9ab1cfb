//! The arena.

use crate::samples::{ONE, RUN, SECOND};
use std::test::Fail;
use yd_arena::Arena;

#[test]
fn a_run_is_added_found_and_cut(rt: HostRuntime) -> Result<(), Fail> {
    let mut arena = Arena::new(rt.alloc());
    let list = arena.add_list()?;
    arena.reserve(ONE, 1)?;
    let place = arena.add_run(list, None, RUN);
    assert_eq!(rt; arena.next_clock(ONE), 3);
    let Some(found) = arena.find(SECOND) else {
        return Err(Fail::from("no unit"));
    };
    assert_eq!(rt; found.place, place);
    assert_eq!(rt; found.before, 1);
    let last = arena.cut(place, 2)?;
    let second = arena.cut_at(SECOND)?;
    assert_eq!(rt; arena.lists().next(place), second);
    assert_eq!(rt; arena.lists().last(list), Some(last));
    Ok(())
}

#[test]
fn a_gone_run_is_in_no_list(rt: HostRuntime) -> Result<(), Fail> {
    let mut arena = Arena::new(rt.alloc());
    arena.reserve(ONE, 1)?;
    let place = arena.add_loose(RUN);
    assert_eq!(rt; arena.next_clock(ONE), 3);
    assert_eq!(rt; arena.lists().list_of(place), None);
    Ok(())
}
