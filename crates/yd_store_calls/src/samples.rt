//! A run of three units, and ids of its units.

use yd_ids::{Client, Id};
use yd_scan::Stretch;

/// Who made the run.
pub const ONE: Client = Client(1);

/// The id of its second unit.
pub const SECOND: Id = Id {
    client: ONE,
    clock: 1,
};

/// Three units of client 1, put into an empty list.
pub const RUN: Stretch = Stretch {
    id: Id {
        client: ONE,
        clock: 0,
    },
    len: 3,
    left: None,
    right: None,
};
