//! The index of runs by clocks.

use crate::samples::{ONE, SECOND};
use std::test::Fail;
use yd_index::Index;
use yd_scan::Finds;

#[test]
fn runs_are_found_by_their_ids(rt: HostRuntime) -> Result<(), Fail> {
    let mut index = Index::new(rt.alloc());
    index.reserve(ONE, 1)?;
    index.add(ONE, 0, 3)?;
    index.cut(SECOND, 1)?;
    assert_eq!(rt; index.next(ONE), 3);
    assert_eq!(rt; index.find(SECOND), Some(1));
    let Some(entry) = index.entry(SECOND) else {
        return Err(Fail::from("no entry"));
    };
    assert_eq!(rt; entry.clock, 1);
    Ok(())
}
