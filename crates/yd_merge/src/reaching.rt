//! How far updates reach.

ghost use Rattle.std.specs.Prelude.{◌≡◌, [], map, IfOk, OnOk};
ghost use Rattle.yd_words.specs.Each.{Each};
ghost use Rattle.yd_ids.specs.Id.{IsSpan};
ghost use Rattle.yd_ids.specs.Set.{AreMaximal};
ghost use Rattle.yd_ids.specs.Vector.{IsVector};
ghost use Rattle.yd_ops.specs.Valid.{IsValidUpdate};
ghost use Rattle.yd_ops.specs.View.{update_value};
ghost use Rattle.yd_grouping.specs.Groups.{operations_of_groups};
ghost use Rattle.yd_grouping.specs.Merged.{merge_of};
ghost use Rattle.yd_grouping.specs.Reach.{reach_of};
ghost use Rattle.yd_merge.specs.Lending.{IsLent, lent_group};
ghost use Rattle.yd_merge.specs.Reaching.{Reaches, spans_of, started_by, all_started};

use crate::fault::NoMemory;
use crate::lending::{Lent, lend_update, lent_by};
use std::alloc::Global;
use yd_ids::{Id, IdSet, Span, Vector};
use yd_ops::Update;

/// Of each client the smallest clock that none of the update's operations has (Yjs 13,
/// encodeStateVectorFromUpdate), in the time of sorting the spans of its structs.
pub fn vector_of(alloc: Global, update: &Update) -> Result<Vector, NoMemory>
    requires { IsValidUpdate (update_value update.now) }
    ensures { IfOk result (λ vector. vector ≡ reach_of (update_value update.now)) }
{
    let mut lents = Vec::new(alloc);
    lend_update(&mut lents, update)?;
    let vector = reached(alloc, &lents)?;
    Ok(vector)
}

/// Of each client the smallest clock that the merge of the updates does not have. Nothing is merged:
/// it takes the time of sorting the spans of their structs.
pub fn vector_of_all(alloc: Global, updates: &[Update]) -> Result<Vector, NoMemory>
    requires { Each IsValidUpdate (map update_value updates.now) }
    ensures { IfOk result (λ vector. vector
        ≡ reach_of (merge_of (map update_value updates.now))) }
{
    let lents = lent_by(alloc, updates)?;
    let vector = reached(alloc, &lents)?;
    Ok(vector)
}

/// Of each client the clock that what is lent reaches from 0 without a gap.
fn reached(alloc: Global, lents: &[Lent<'_>]) -> Result<Vector, NoMemory>
    requires { Each IsLent lents.now }
    ensures vector { IfOk result IsVector }
    ensures reaches { IfOk result (Reaches (operations_of_groups (map lent_group lents.now))) }
{
    let spans = spans_of(alloc, lents)?;
    let ids = IdSet::of_spans(alloc, spans)?;
    let vector = started(alloc, &ids)?;
    Ok(vector)
}

/// The ids of what is lent.
fn spans_of(alloc: Global, lents: &[Lent<'_>]) -> Result<Vec<Span>, NoMemory>
    requires { Each IsLent lents.now }
    ensures { IfOk result (λ spans. spans.items ≡ spans_of (map lent_group lents.now)) }
{
    let mut spans = Vec::new(alloc);
    for lent in lents {
        let Id { client, clock } = lent.id;
        let len = lent.len;
        spans.push(Span { client, clock, len })?;
    }
    Ok(spans)
}

/// Of each client the clock that ids reach from 0 without a gap.
fn started(alloc: Global, ids: &IdSet) -> Result<Vector, NoMemory>
    requires { AreMaximal ids.now }
    ensures { IfOk result (λ vector. vector ≡ all_started ids.now []) }
{
    let mut vector = Vector::new(alloc);
    for span in ids.spans() {
        start(&mut vector, span)?;
    }
    Ok(vector)
}

/// Raises the clock of the span's client to its end, if the span begins at 0.
fn start(vector: &mut Vector, span: Span) -> Result<(), NoMemory>
    requires { IsSpan span }
    ensures { OnOk result (vector.new ≡ started_by span vector.old) }
{
    if span.clock == 0 {
        vector.raise(span.client, span.len)?;
    }
    Ok(())
}
