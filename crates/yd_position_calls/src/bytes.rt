//! Positions as bytes.

use std::alloc::Global;
use std::test::Fail;
use yd_any::Text;
use yd_ids::{Client, Id};
use yd_position::{NumFault, Position, PositionFault, Target, read_position, write_position};

/// Why bytes are no position.
fn fault_of(alloc: Global, bytes: &[u8]) -> Option<PositionFault> {
    read_position(alloc, bytes).err()
}

/// The unit that bytes point at, and their association.
fn unit_of(alloc: Global, bytes: &[u8]) -> Result<Option<(Id, i64)>, Fail> {
    let position = read_position(alloc, bytes)?;
    match position.target {
        Target::Unit(id) => Ok(Some((id, position.assoc))),
        _ => Ok(None),
    }
}

/// The association, where bytes point at the list of the root with a name.
fn assoc_in_root(alloc: Global, bytes: &[u8], root: &str) -> Result<Option<i64>, Fail> {
    let position = read_position(alloc, bytes)?;
    match &position.target {
        Target::Root(name) if name.as_str() == root => Ok(Some(position.assoc)),
        _ => Ok(None),
    }
}

#[test]
fn a_unit_is_pointed_at(rt: HostRuntime) -> Result<(), Fail> {
    let id = Id {
        client: Client(1),
        clock: 2,
    };
    assert_eq!(rt; unit_of(rt.alloc(), &[0, 1, 2, 0x41])?, Some((id, -1)));
    assert_eq!(rt; unit_of(rt.alloc(), &[0, 1, 2])?, Some((id, 0)));
    assert_eq!(rt; unit_of(rt.alloc(), &[1, 1, 0x74, 0])?, None);
    Ok(())
}

#[test]
fn the_first_deviation_is_named(rt: HostRuntime) -> Result<(), Fail> {
    let alloc = rt.alloc();
    assert_eq!(rt;
        fault_of(alloc, &[3, 1, 1, 0]),
        Some(PositionFault::BadForm(0))
    );
    assert_eq!(rt;
        fault_of(alloc, &[0, 1, 1, 0, 0]),
        Some(PositionFault::Trailing(4))
    );
    let short = PositionFault::Number(NumFault::ShortInput(2));
    assert_eq!(rt; fault_of(alloc, &[0, 1]), Some(short));
    let text = PositionFault::Number(NumFault::BadUtf8(1));
    assert_eq!(rt; fault_of(alloc, &[1, 1, 0xff, 0]), Some(text));
    Ok(())
}

#[test]
fn a_position_is_written(rt: HostRuntime) -> Result<(), Fail> {
    let alloc = rt.alloc();
    let unit = Position {
        target: Target::Unit(Id {
            client: Client(1),
            clock: 1,
        }),
        assoc: 0,
    };
    assert_eq!(rt;
        write_position(alloc, &unit)?.as_slice(),
        [0, 1, 1, 0].as_slice()
    );
    let end = Position {
        target: Target::Root(Text::copy_of(alloc, "t")?),
        assoc: 0,
    };
    assert_eq!(rt;
        write_position(alloc, &end)?.as_slice(),
        [1, 1, 0x74, 0].as_slice()
    );
    let front = Position {
        target: Target::Root(Text::copy_of(alloc, "t")?),
        assoc: -1,
    };
    assert_eq!(rt;
        write_position(alloc, &front)?.as_slice(),
        [1, 1, 0x74, 0x41].as_slice()
    );
    Ok(())
}

#[test]
fn a_roots_list_is_pointed_at(rt: HostRuntime) -> Result<(), Fail> {
    let alloc = rt.alloc();
    assert_eq!(rt; assoc_in_root(alloc, &[1, 1, 0x74, 0], "t")?, Some(0));
    assert_eq!(rt; assoc_in_root(alloc, &[1, 1, 0x74, 0x41], "t")?, Some(-1));
    assert_eq!(rt; assoc_in_root(alloc, &[1, 1, 0x75, 0], "t")?, None);
    Ok(())
}
