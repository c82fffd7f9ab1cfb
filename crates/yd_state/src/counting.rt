//! How much waits.

ghost use Rattle.std.specs.Prelude.{◌≡◌};
ghost use Rattle.std.specs.List.{sum_by};
ghost use Rattle.yd_ids.specs.Id.{IsSpan};
ghost use Rattle.yd_ids.specs.Set.{AreMaximal};
ghost use Rattle.yd_state.specs.Deleting.{span_below};
ghost use Rattle.yd_state.specs.Waiting.{waiting_units, waiting_ids};

use yd_ids::{IdSet, Span, Vector};
use yd_received::{Entries, Place};

/// How many units are not held.
pub(crate) fn count_units(entries: &Entries) -> u128
    ensures { result ≡ sum_by waiting_units entries.now }
{
    let mut count: u128 = 0;
    // So few entries have no more units than the count takes.
    let _count = entries.len();
    for units in entries.iter() {
        if let Place::Waits = units.place {
            count += units.len as u128;
        }
    }
    count
}

/// How many ids of the spans are not below the clocks that are reached.
pub(crate) fn count_ids(vector: &Vector, named: &IdSet) -> u128
    ensures { result ≡ sum_by (waiting_ids vector.now) named.now }
{
    let mut count: u128 = 0;
    for span in named.spans() {
        let held = part_below(span, vector.get(span.client));
        count += (span.len - held.len) as u128;
    }
    count
}

/// The span's ids below a clock.
fn part_below(span: Span, clock: u64) -> Span
    requires { IsSpan span }
    ensures { result ≡ span_below span clock }
{
    Span {
        client: span.client,
        clock: span.clock,
        len: span.len.min(clock.saturating_sub(span.clock)),
    }
}
