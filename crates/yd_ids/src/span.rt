//! How two spans stand to each other, and the span that they make where they touch.

ghost use Rattle.std.specs.Prelude.{◌≡◌, ◌↔◌, ◌<◌, IsTrue};
ghost use Rattle.yd_ids.specs.Id.{IsSpan};
ghost use Rattle.yd_ids.specs.Span.{InSpan, ends_below, BeginsBy, joined};

use crate::id::{Id, Span};

/// The id is one of the span's.
pub fn is_in(span: Span, id: Id) -> bool
    ensures { IsTrue result ↔ InSpan span id }
{
    // No sum, since an end has no bound here.
    span.client.0 == id.client.0 && span.clock <= id.clock && id.clock - span.clock < span.len
}

/// The span ends below the clock of the client, and does not touch it.
pub fn ends_below(span: Span, client: u64, clock: u64) -> bool
    ensures { result ≡ ends_below span client clock }
{
    let ends = span.clock < clock && span.len < clock - span.clock;
    span.client.0 < client || span.client.0 == client && ends
}

/// The span begins where the next does, or before.
pub fn begins_by(span: Span, next: Span) -> bool
    ensures { IsTrue result ↔ BeginsBy span next }
{
    span.client.0 < next.client.0 || span.client.0 == next.client.0 && span.clock <= next.clock
}

/// From the first id of two spans of a client to their last.
pub fn join(span: Span, next: Span) -> Span
    requires is_span { IsSpan span }
    requires is_next { IsSpan next }
    ensures { result ≡ joined span next }
{
    let clock = span.clock.min(next.clock);
    let end = (span.clock + span.len).max(next.clock + next.len);
    Span {
        client: span.client,
        clock,
        len: end - clock,
    }
}
