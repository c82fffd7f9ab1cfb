//! How far updates reach, of which none is kept.

ghost use Rattle.std.specs.Prelude.{◌≡◌, [], ◌∷◌, ◌++◌, List, IfOk, OnOk};
ghost use Rattle.yd_words.specs.Each.{Each};
ghost use Rattle.yd_ids.specs.Id.{IsSpan};
ghost use Rattle.yd_ids.specs.Set.{AreMaximal};
ghost use Rattle.yd_ids.specs.Vector.{IsVector};
ghost use Rattle.yd_ops.specs.Valid.{IsValidUpdate};
ghost use Rattle.yd_ops.specs.Value.{UpdateValue};
ghost use Rattle.yd_grouping.specs.Groups.{Group, operations_of_groups};
ghost use Rattle.yd_grouping.specs.Merged.{merge_of};
ghost use Rattle.yd_grouping.specs.Reach.{reach_of};
ghost use Rattle.yd_merge.specs.Reaching.{Reaches, all_started, started_by};
ghost use Rattle.yd_skimming.specs.Reaching.{AreIdsOf, HasTaken, HasTakenSections};

use crate::noting::{note, note_struct, note_update};
use std::alloc::Global;
use std::marker::Model;
use yd_fields::LentStruct;
use yd_ids::{Id, IdSet, Span, Vector};
use yd_ops::Update;
use yd_parts::{NoMemory, ReadError};
use yd_reading::StructTaker;
use yd_v1::{UpdateTaker, take_structs_v1};

/// The ids of all structs that it took, and nothing else of them. It is seen as spans of these ids,
/// which may overlap and come in any order. Structs of a client that follow one another are one
/// span, so that a text of many structs takes no more memory than one.
#[derive(Drop)]
pub struct Reach {
    spans: Vec<Span>,
}

impl Model for Reach {
    ghost use Rattle.std.specs.Prelude.{List};
    ghost use Rattle.yd_words.specs.Each.{Each};
    ghost use Rattle.yd_ids.specs.Id.{IsSpan};
    ghost use Rattle.yd_ids.specs.declared.id.Span.{Span};

    ghost Value = { List Span };

    ghost view = { λ it. it.spans.items };

    ghost invariant = { λ it. Each IsSpan it.spans.items };
}

impl Reach {
    /// Nothing was taken.
    pub fn new(alloc: Global) -> Reach
        ensures { HasTaken result [] }
    {
        Reach {
            spans: Vec::new(alloc),
        }
    }

    /// Of each client the smallest clock that the merge of the updates which were taken does not
    /// have (Yjs 13, encodeStateVectorFromUpdate). It takes the time of sorting the spans.
    pub fn vector(self, alloc: Global) -> Result<Vector, NoMemory>
        ensures { IfOk result (λ vector. (updates : List UpdateValue) → Each IsValidUpdate updates
            → HasTaken self updates → vector ≡ reach_of (merge_of updates)) }
    {
        match reached(alloc, self.spans) {
            Ok(vector) => Ok(vector),
            Err(_) => Err(NoMemory),
        }
    }
}

impl StructTaker for Reach {
    ghost took = { HasTakenSections };

    fn begin(&mut self, blocks: u64) -> Result<(), NoMemory> {
        Ok(())
    }

    fn begin_block(&mut self, id: Id, structs: u64) -> Result<(), NoMemory> {
        Ok(())
    }

    #[inline]
    fn take(&mut self, alloc: Global, id: Id, entry: &LentStruct<'_>) -> Result<(), NoMemory> {
        match entry {
            LentStruct::Text(run) => note(&mut self.spans, id, run.text.len())?,
            LentStruct::Made(next) => note_struct(&mut self.spans, id, next)?,
        }
        Ok(())
    }
}

impl UpdateTaker for Reach {
    ghost took = { HasTaken };

    fn take(&mut self, update: Update) -> Result<(), NoMemory> {
        note_update(&mut self.spans, &update)?;
        Ok(())
    }

    fn take_v1(&mut self, alloc: Global, bytes: &[u8]) -> Result<(), ReadError> {
        take_structs_v1(alloc, bytes, self)?;
        Ok(())
    }
}

/// Of each client the clock that the ids of spans reach from 0 without a gap.
fn reached(alloc: Global, spans: Vec<Span>) -> Result<Vector, yd_ids::NoMemory>
    requires { Each IsSpan spans.items }
    ensures vector { IfOk result IsVector }
    ensures reaches { IfOk result (λ vector. (groups : List Group) → AreIdsOf spans.items groups
        → Reaches (operations_of_groups groups) vector) }
{
    let ids = IdSet::of_spans(alloc, spans)?;
    let vector = started(alloc, &ids)?;
    Ok(vector)
}

/// Of each client the end of its span that begins at 0.
fn started(alloc: Global, ids: &IdSet) -> Result<Vector, yd_ids::NoMemory>
    requires { AreMaximal ids.now }
    ensures { IfOk result (λ vector. vector ≡ all_started ids.now []) }
{
    let mut vector = Vector::new(alloc);
    for span in ids.spans() {
        start(&mut vector, span)?;
    }
    Ok(vector)
}

/// Raises the clock of the span's client to its end, if the span begins at 0.
fn start(vector: &mut Vector, span: Span) -> Result<(), yd_ids::NoMemory>
    requires { IsSpan span }
    ensures { OnOk result (vector.new ≡ started_by span vector.old) }
{
    if span.clock == 0 {
        vector.raise(span.client, span.len)?;
    }
    Ok(())
}
