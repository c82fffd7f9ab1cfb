//! A list in pieces.

ghost use Rattle.std.specs.Prelude.{nat_lt};

use std::test::Fail;
use yd_pieces::{Pieces, Test};

/// Numbers below one.
#[derive(Drop)]
struct Below(u64);

impl Test<u64> for Below {
    ghost passes = { λ s n. nat_lt n s.0 };

    fn passes(&self, item: &u64) -> bool {
        *item < self.0
    }
}

#[test]
fn elements_stand_where_they_are_put(rt: HostRuntime) -> Result<(), Fail> {
    let mut list = Pieces::new(rt.alloc());
    list.reserve(2)?;
    list.push(1)?;
    list.push(3)?;
    list.insert(1, 2)?;
    assert_eq!(rt; list.len(), 3);
    assert_eq!(rt; *list.get(1), 2);
    assert_eq!(rt; list.partition_point(&Below(3)), 2);
    assert_eq!(rt; list.last_passed(&Below(3)).copied(), Some(2));
    assert_eq!(rt; list.last_passed(&Below(1)).copied(), None);
    assert_eq!(rt; list.piece_from(1), [2, 3].as_slice());
    assert_eq!(rt; list.remove(0), 1);
    Ok(())
}
