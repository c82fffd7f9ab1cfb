//! Ids of the tests.

use yd_ids::{Client, Id};

/// The first unit of client 1.
pub const ONE: Id = Id {
    client: Client(1),
    clock: 0,
};
/// The first unit of client 2.
pub const TWO: Id = Id {
    client: Client(2),
    clock: 0,
};
/// The second unit of client 2.
pub const TWO_NEXT: Id = Id {
    client: Client(2),
    clock: 1,
};
/// The first unit of client 3.
pub const THREE: Id = Id {
    client: Client(3),
    clock: 0,
};
/// A unit that is nowhere there.
pub const ABSENT: Id = Id {
    client: Client(9),
    clock: 0,
};
