//! Where updates disagree.

use std::alloc::Global;
use std::test::Fail;
use yd_agreement::disagree;
use yd_ids::{Client, Id};
use yd_v1::read_v1;

/// An update that says nothing.
const NOTHING: [u8; 2] = [0, 0];
/// Client 1: "a" in the root `t`.
const A: [u8; 11] = [1, 1, 1, 0, 4, 1, 1, 0x74, 1, 0x61, 0];
/// The same id with "z".
const Z: [u8; 11] = [1, 1, 1, 0, 4, 1, 1, 0x74, 1, 0x7a, 0];
/// The same id and "a", in the root `u`.
const ELSEWHERE: [u8; 11] = [1, 1, 1, 0, 4, 1, 1, 0x75, 1, 0x61, 0];
/// Client 2: "b" in the root `t`.
const B: [u8; 11] = [1, 1, 2, 0, 4, 1, 1, 0x74, 1, 0x62, 0];
/// Client 1: three units from the same id on, which are deleted.
const DELETED: [u8; 10] = [1, 1, 1, 0, 1, 1, 1, 0x74, 3, 0];

/// Client 1: one character of two units.
const PAIR: [u8; 14] = [1, 1, 1, 0, 4, 1, 1, 0x74, 4, 0xf0, 0x9f, 0x98, 0x80, 0];
/// Its second half, deleted.
const LOW_DELETED: [u8; 9] = [1, 1, 1, 1, 0x81, 1, 0, 1, 0];
/// Its first half, gone.
const HIGH_GONE: [u8; 7] = [1, 1, 1, 0, 0, 1, 0];
/// Both its halves, deleted.
const BOTH_DELETED: [u8; 10] = [1, 1, 1, 0, 1, 1, 1, 0x74, 2, 0];

/// The id on which three updates disagree.
fn disagreement(alloc: Global, one: &[u8], other: &[u8], third: &[u8]) -> Result<Option<Id>, Fail> {
    let mut updates = Vec::new(alloc);
    updates.push(read_v1(alloc, one)?)?;
    updates.push(read_v1(alloc, other)?)?;
    updates.push(read_v1(alloc, third)?)?;
    let found = disagree(alloc, updates.as_slice())?;
    Ok(found)
}

/// The first id of client 1.
fn first() -> Option<Id> {
    Some(Id {
        client: Client(1),
        clock: 0,
    })
}

#[test]
fn one_id_with_two_texts_or_in_two_lists_is_told(rt: HostRuntime) -> Result<(), Fail> {
    for (one, other, found) in [(&A, &Z, first()), (&A, &ELSEWHERE, first()), (&A, &B, None)] {
        assert_eq!(rt; disagreement(rt.alloc(), one, other, &NOTHING)?, found);
        assert_eq!(rt; disagreement(rt.alloc(), other, one, one)?, found);
    }
    Ok(())
}

#[test]
fn a_longer_deleted_run_hides_nothing(rt: HostRuntime) -> Result<(), Fail> {
    assert_eq!(rt; disagreement(rt.alloc(), &A, &DELETED, &Z)?, first());
    assert_eq!(rt; disagreement(rt.alloc(), &DELETED, &Z, &A)?, first());
    assert_eq!(rt; disagreement(rt.alloc(), &A, &DELETED, &A)?, None);
    Ok(())
}

#[test]
fn a_pair_is_collected_whole(rt: HostRuntime) -> Result<(), Fail> {
    assert_eq!(rt;
        disagreement(rt.alloc(), &PAIR, &LOW_DELETED, &NOTHING)?,
        first()
    );
    assert_eq!(rt;
        disagreement(rt.alloc(), &HIGH_GONE, &PAIR, &PAIR)?,
        first()
    );
    assert_eq!(rt;
        disagreement(rt.alloc(), &BOTH_DELETED, &PAIR, &NOTHING)?,
        None
    );
    Ok(())
}
