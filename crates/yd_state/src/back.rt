//! Entries that are taken out again, the last one first.

ghost use Rattle.yd_state.specs.Back.{CanBeTakenOut, TakesOut, IsSound};

use yd_held::Held;
use yd_kept::Kept;

/// Takes the units of entries out again, which [`place`](crate::placing::place) put in. It takes no memory.
pub(crate) fn put_out(kept: &mut Kept, held: &Held, order: &[usize])
    requires { CanBeTakenOut held.now order.now kept.old }
    ensures taken { TakesOut held.now order.now kept.old kept.new }
    ensures sound { IsSound kept.new.store }
{
    take_out(kept, held, order);
    // That the store is sound says that its units are found.
    let _ = kept.store();
}

/// Takes the units of entries out again, which were placed in this order. It takes no memory.
pub(crate) fn take_out(kept: &mut Kept, held: &Held, order: &[usize])
    requires { CanBeTakenOut held.now order.now kept.old }
    ensures { TakesOut held.now order.now kept.old kept.new }
{
    let entries = held.received().entries();
    let mut left = order.len();
    while left > 0 {
        left -= 1;
        let id = entries.get(order[left]).id;
        kept.go_back(id.client, id.clock);
    }
}
