//! What came is joined to what it goes on with.

ghost use Rattle.std.specs.Prelude.{IfSome};
ghost use Rattle.yd_kept.specs.Kept.{JoinsHeld};
ghost use Rattle.yd_received.specs.Received.{IsSingleOf};
ghost use Rattle.yd_held.specs.Joining.{StaysSame};

use yd_held::Held;
use yd_kept::Kept;

/// Joins the entry that came alone, where one did, to the one before it, and the last run of the
/// store to the one before it in its list, where they go on there. No unit changes. It takes time
/// and memory of what is joined, and moves entries of one piece.
pub(crate) fn join(held: &mut Held, kept: &mut Kept, single: Option<usize>)
    requires { IfSome single (IsSingleOf held.old.received) }
    ensures held { StaysSame held.old held.new }
    ensures kept { JoinsHeld kept.old kept.new }
{
    join_entry(held, single);
    kept.join_last();
}

/// Joins an entry, where there is one, to the one before it.
fn join_entry(held: &mut Held, single: Option<usize>)
    requires { IfSome single (IsSingleOf held.old.received) }
    ensures { StaysSame held.old held.new }
{
    if let Some(at) = single {
        held.join(at);
    }
}
