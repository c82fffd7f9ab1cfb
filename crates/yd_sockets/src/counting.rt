//! Numbers of sessions and of faults.

ghost use Rattle.std.specs.Prelude.{◌≡◌};
ghost use Rattle.yd_world.specs.Plan.{one_more};
ghost use Rattle.yd_sockets.specs.Board.{first_session};

use yd_world::Way;

/// The number of the first session on this side.
pub fn first_session(way: Way) -> u64
    ensures { result ≡ first_session way }
{
    match way {
        Way::Listen => 1,
        Way::Call => 0,
    }
}

/// One more, and at 2^64-1 no more.
pub fn one_more(count: u64) -> u64
    ensures { result ≡ one_more count }
{
    if count < u64::MAX { count + 1 } else { count }
}
