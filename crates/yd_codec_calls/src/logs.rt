//! Logs, written and read.

use std::test::Fail;
use yd_v1::{UpdateList, read_log, read_v1, write_log};

// Two updates: "abc" of client 1 in the root `t`, and the deletion of its first unit.
const LOG: [u8; 21] = [
    13, 1, 1, 1, 0, 4, 1, 1, 116, 3, 97, 98, 99, 0, 6, 0, 1, 1, 1, 0, 1,
];

#[test]
fn a_log_is_read_and_written_again(rt: HostRuntime) -> Result<(), Fail> {
    let updates = read_log(rt.alloc(), &LOG)?;
    assert_eq!(rt; updates.as_slice().len(), 2);
    let written = write_log(rt.alloc(), updates.as_slice())?;
    assert_eq!(rt; written.as_slice(), LOG.as_slice());
    Ok(())
}

#[test]
fn updates_are_put_behind_others(rt: HostRuntime) -> Result<(), Fail> {
    let mut updates = UpdateList::new(rt.alloc());
    updates.push(read_v1(rt.alloc(), &[0, 0])?)?;
    updates.append(read_log(rt.alloc(), &LOG)?)?;
    assert_eq!(rt; updates.as_slice().len(), 3);
    Ok(())
}
