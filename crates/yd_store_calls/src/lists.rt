//! Runs at places, in lists.

use crate::samples::RUN;
use std::test::Fail;
use yd_arena::Lists;

#[test]
fn a_run_is_cut_in_its_list(rt: HostRuntime) -> Result<(), Fail> {
    let mut lists = Lists::new(rt.alloc());
    let list = lists.add_list()?;
    lists.reserve(3)?;
    let front = lists.add(list, None, RUN);
    let loose = lists.add_loose(RUN);
    let back = lists.cut(front, 1);
    assert_eq!(rt; lists.len(), 3);
    assert_eq!(rt; lists.stretch(back).len, 2);
    assert_eq!(rt; lists.first(list), Some(front));
    assert_eq!(rt; lists.last(list), Some(back));
    assert_eq!(rt; lists.next(front), Some(back));
    assert_eq!(rt; lists.prev(back), Some(front));
    assert_eq!(rt; lists.list_of(loose), None);
    Ok(())
}
