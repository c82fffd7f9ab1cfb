//! Undos while others change the same.

use std::alloc::Global;
use std::test::Fail;
use yd_any::Text;
use yd_doc::Replica;
use yd_ids::{Client, Id};
use yd_ops::{List, Parent};
use yd_undo::Undo;
use yd_v1::read_v1;
use yd_view::text;

/// Client 1: "abc" in the root `t`.
const ABC: [u8; 13] = [1, 1, 1, 0, 4, 1, 1, 0x74, 3, 0x61, 0x62, 0x63, 0];
/// These three are deleted.
const ABC_GONE: [u8; 6] = [0, 1, 1, 1, 0, 3];
/// Client 2: "X" between "a" and "b".
const INSIDE: [u8; 12] = [1, 1, 2, 0, 0xc4, 1, 0, 1, 1, 1, 0x58, 0];

/// Client 9: 1 under the key `k` of the root `m`, and then 2 in its place.
const ONE: [u8; 14] = [1, 1, 9, 0, 0x28, 1, 1, 0x6d, 1, 0x6b, 1, 0x7d, 1, 0];

const TWO: [u8; 15] = [1, 1, 9, 1, 0x88, 9, 0, 1, 0x7d, 2, 1, 9, 1, 0, 1];
/// Client 20: 3 in the place of 2.
const THREE: [u8; 11] = [1, 1, 20, 0, 0x88, 9, 1, 1, 0x7d, 3, 0];

/// The third unit of client 9.
const THIRD: Id = Id {
    client: Client(9),
    clock: 2,
};

/// A list of a root.
fn list_of(alloc: Global, root: &str, key: Option<Text>) -> Result<List, Fail> {
    let name = Text::copy_of(alloc, root)?;
    Ok(List {
        parent: Parent::Root(name),
        key,
    })
}

/// Hands an update to a replica.
fn receive(alloc: Global, replica: &mut Replica, bytes: &[u8]) -> Result<bool, Fail> {
    let update = read_v1(alloc, bytes)?;
    let brings = replica.apply(&update)?;
    Ok(brings)
}

/// Hands an update to a replica, and notes it as its own.
fn play(alloc: Global, replica: &mut Replica, undo: &mut Undo, bytes: &[u8]) -> Result<(), Fail> {
    let update = read_v1(alloc, bytes)?;
    replica.apply(&update)?;
    undo.note(&update)?;
    Ok(())
}

/// A replica of client 9 that has "abc" in the root `t`.
fn replica_with_abc(alloc: Global) -> Result<Replica, Fail> {
    let mut replica = Replica::new(alloc, Client(9))?;
    receive(alloc, &mut replica, &ABC)?;
    Ok(replica)
}

/// Undoes the newest entry.
fn take_back(replica: &mut Replica, undo: &mut Undo) -> Result<(), Fail> {
    undo.undo(replica)?;
    Ok(())
}

/// How many units the text of the root `t` has, and the second of them.
fn text_of(alloc: Global, replica: &Replica) -> Result<(u64, Option<u16>), Fail> {
    let list = list_of(alloc, "t", None)?;
    let units = text(alloc, replica, &list)?;
    Ok((units.len(), units.unit(1)))
}

/// The unit that stands last under the key `k` of the root `m`.
fn last_under(alloc: Global, replica: &Replica) -> Result<Option<Id>, Fail> {
    let key = Text::copy_of(alloc, "k")?;
    let list = list_of(alloc, "m", Some(key))?;
    Ok(replica.last_of(&list))
}

/// What the text shows where "abc" is deleted, these bytes come, and the deletion is undone.
fn shown_with(alloc: Global, bytes: &[u8]) -> Result<(u64, Option<u16>), Fail> {
    let mut replica = replica_with_abc(alloc)?;
    let mut undo = Undo::new(alloc, 2);
    play(alloc, &mut replica, &mut undo, &ABC_GONE)?;
    receive(alloc, &mut replica, bytes)?;
    take_back(&mut replica, &mut undo)?;
    text_of(alloc, &replica)
}

#[test]
fn what_others_put_inside_stays_there(rt: HostRuntime) -> Result<(), Fail> {
    let shown = shown_with(rt.alloc(), &INSIDE)?;
    assert_eq!(rt; shown, (4, Some(0x58)));
    Ok(())
}

#[test]
fn what_others_deleted_too_is_made_again(rt: HostRuntime) -> Result<(), Fail> {
    let shown = shown_with(rt.alloc(), &ABC_GONE)?;
    assert_eq!(rt; shown, (3, Some(0x62)));
    Ok(())
}

/// The unit that is last under the key where client 20 sets it meanwhile, and the setting is undone.
fn last_with(alloc: Global) -> Result<Option<Id>, Fail> {
    let mut replica = Replica::new(alloc, Client(9))?;
    let mut undo = Undo::new(alloc, 2);
    play(alloc, &mut replica, &mut undo, &ONE)?;
    play(alloc, &mut replica, &mut undo, &TWO)?;
    receive(alloc, &mut replica, &THREE)?;
    take_back(&mut replica, &mut undo)?;
    last_under(alloc, &replica)
}

#[test]
fn a_key_that_others_set_meanwhile_has_the_old_value_again(rt: HostRuntime) -> Result<(), Fail> {
    assert_eq!(rt; last_with(rt.alloc())?, Some(THIRD));
    Ok(())
}
