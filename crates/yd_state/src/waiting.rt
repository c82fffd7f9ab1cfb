//! What waits: ids that are deleted by name and not held.

ghost use Rattle.std.specs.Prelude.{◌≡◌, ◌↔◌, ◌⊎◌, ◌≤◌, ◌++◌, IfOk, OnOk};
ghost use Rattle.yd_ids.specs.declared.id.Id.{Id};
ghost use Rattle.yd_ids.specs.Id.{IsSpan};
ghost use Rattle.yd_ids.specs.Set.{HasId, AreMaximal};
ghost use Rattle.yd_ids.specs.Vector.{clock_of};
ghost use Rattle.yd_state.specs.Above.{span_above, spans_above};

use crate::fault::NoMemory;
use std::alloc::Global;
use yd_ids::{IdSet, Span, Vector};

/// The ids of two sets that are not below their clients' clocks. It takes a look-up for each span.
pub(crate) fn part_above(
    alloc: Global,
    waiting: &IdSet,
    more: &IdSet,
    vector: &Vector,
) -> Result<IdSet, NoMemory>
    ensures { IfOk result (λ left. (x : Id) → HasId left x
        ↔ ((HasId waiting.now x ⊎ HasId more.now x) × (clock_of vector.now x.client.0 ≤ x.clock))) }
{
    let mut spans = Vec::new(alloc);
    push_above(&mut spans, waiting, vector)?;
    push_above(&mut spans, more, vector)?;
    let left = IdSet::of_spans(alloc, spans)?;
    Ok(left)
}

/// Pushes the parts of a set's spans that are not below their clients' clocks.
fn push_above(spans: &mut Vec<Span>, set: &IdSet, vector: &Vector) -> Result<(), NoMemory>
    ensures pushed { OnOk result (spans.new.items
        ≡ spans.old.items ++ spans_above (clock_of vector.now) set.now) }
    ensures maximal { OnOk result (AreMaximal set.now) }
{
    for span in set.spans() {
        spans.push(span_above(span, vector))?;
    }
    Ok(())
}

/// The part of a span from its client's clock on.
fn span_above(span: Span, vector: &Vector) -> Span
    requires { IsSpan span }
    ensures { result ≡ span_above (clock_of vector.now) span }
{
    let end = span.clock + span.len;
    let clock = end.min(span.clock.max(vector.get(span.client)));
    Span {
        client: span.client,
        clock,
        len: end - clock,
    }
}
