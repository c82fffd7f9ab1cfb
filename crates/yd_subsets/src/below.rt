//! What a set has below a state vector.

ghost use Rattle.std.specs.Prelude.{◌≡◌, ◌↔◌, ◌<◌, IfOk};
ghost use Rattle.yd_ids.specs.declared.id.Id.{Id};
ghost use Rattle.yd_ids.specs.Id.{IsSpan};
ghost use Rattle.yd_ids.specs.Set.{HasId, AreMaximal};
ghost use Rattle.yd_ids.specs.Vector.{clock_of};
ghost use Rattle.yd_subsets.specs.Below.{span_below};

use std::alloc::Global;
use yd_ids::{IdSet, NoMemory, Span, Vector};

/// The ids of a set that are below their clients' clocks. It takes a look-up for each span.
pub fn part_below(alloc: Global, set: &IdSet, vector: &Vector) -> Result<IdSet, NoMemory>
    ensures ids { IfOk result (λ part. (x : Id) → HasId part x
        ↔ (HasId set.now x × (x.clock < clock_of vector.now x.client.0))) }
    ensures maximal { IfOk result AreMaximal }
{
    let mut below = Vec::new(alloc);
    for span in set.spans() {
        below.push(span_below(span, vector))?;
    }
    let part = IdSet::of_spans(alloc, below)?;
    Ok(part)
}

/// The part of a span below its client's clock.
pub fn span_below(span: Span, vector: &Vector) -> Span
    requires { IsSpan span }
    ensures { result ≡ span_below (clock_of vector.now) span }
{
    let end = vector.get(span.client);
    let len = if span.clock < end {
        span.len.min(end - span.clock)
    } else {
        0
    };
    Span {
        client: span.client,
        clock: span.clock,
        len,
    }
}
