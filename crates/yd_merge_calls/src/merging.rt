//! Merging a text with the same text told as deleted.

use std::alloc::Global;
use std::test::Fail;
use yd_ids::Client;
use yd_merge::{merge, vector_of};
use yd_v1::{read_v1, write_v1};

/// Client 1: "abc" in the root `t`.
const TEXT: [u8; 13] = [1, 1, 1, 0, 4, 1, 1, 0x74, 3, 0x61, 0x62, 0x63, 0];
/// The same three units, which are deleted.
const DELETED: [u8; 10] = [1, 1, 1, 0, 1, 1, 1, 0x74, 3, 0];
/// Both as one update: the units are told as deleted, and a deletion names them.
const MERGED: [u8; 14] = [1, 1, 1, 0, 1, 1, 1, 0x74, 3, 1, 1, 1, 0, 3];

/// The merge of two updates, in V1.
fn merged(alloc: Global, one: &[u8], other: &[u8]) -> Result<Vec<u8>, Fail> {
    let mut updates = Vec::new(alloc);
    updates.push(read_v1(alloc, one)?)?;
    updates.push(read_v1(alloc, other)?)?;
    let update = merge(alloc, updates.as_slice())?;
    let bytes = write_v1(alloc, &update)?;
    Ok(bytes)
}

#[test]
fn what_says_less_is_in_the_merge_in_either_order(rt: HostRuntime) -> Result<(), Fail> {
    let bytes = merged(rt.alloc(), &TEXT, &DELETED)?;
    assert_eq!(rt; bytes.as_slice(), MERGED.as_slice());
    let bytes = merged(rt.alloc(), &DELETED, &TEXT)?;
    assert_eq!(rt; bytes.as_slice(), MERGED.as_slice());
    Ok(())
}

#[test]
fn an_update_reaches_the_clock_behind_its_units(rt: HostRuntime) -> Result<(), Fail> {
    let update = read_v1(rt.alloc(), &TEXT)?;
    let vector = vector_of(rt.alloc(), &update)?;
    assert_eq!(rt; vector.get(Client(1)), 3);
    Ok(())
}
