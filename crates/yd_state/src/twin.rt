//! A set of ids that is kept twice, so that it grows without a copy.

ghost use Rattle.std.specs.Prelude.{◌≡◌, [], IfOk, OnOk};
ghost use Rattle.yd_ids.specs.Set.{union_of};
ghost use Rattle.yd_state.specs.Settling.{grown_to};
ghost use Rattle.yd_state.specs.Twin.{IsTwinOf};

use crate::fault::NoMemory;
use std::alloc::Global;
use std::marker::Model;
use std::mem;
use yd_ids::IdSet;

/// So many spans are put in one by one; more are taken in in one pass.
const FEW_SPANS: usize = 8;

/// A set of ids, seen as the list of its maximal spans. Behind it is its twin: the set that it was
/// before it grew last. It grows in its twin, so it is still there where memory ends then. A copy is
/// made at the first growth, and at the first one after memory ended.
#[derive(Drop)]
pub struct TwinSet {
    ids: IdSet,
    twin: Option<Twin>,
}

/// The same set without the ids that came last.
#[derive(Drop)]
pub struct Twin {
    ids: IdSet,
    missing: IdSet,
}

impl Model for TwinSet {
    ghost use Rattle.std.specs.Prelude.{List};
    ghost use Rattle.yd_ids.specs.declared.id.Span.{Span};
    ghost use Rattle.yd_state.specs.Twin.{IsTwinOf};

    ghost Value = { List Span };

    ghost view = { λ it. it.ids };

    ghost invariant = { λ it. IsTwinOf it.ids it.twin };
}

impl TwinSet {
    /// The set without ids.
    pub(crate) fn new(alloc: Global) -> TwinSet
        ensures { result ≡ [] }
    {
        TwinSet {
            ids: IdSet::new(alloc),
            twin: None,
        }
    }

    /// The set, to be read.
    pub(crate) fn ids(&self) -> &IdSet
        ensures { result.now ≡ self.now }
    {
        &self.ids
    }

    /// What the set grows to with the ids of another one; None where it has them all. Then it takes a
    /// look-up for each span of the other, and no memory. Else it is the twin that is handed out, with
    /// what it misses and the other ids: few spans move those of their pieces, and many take one pass.
    pub(crate) fn grown(&mut self, more: &IdSet) -> Result<Option<IdSet>, NoMemory>
        ensures grown { IfOk result (λ grown. grown_to self.old grown ≡ union_of self.old more.now) }
        ensures unchanged { self.new ≡ self.old }
    {
        // That both are maximal says that there is one such set.
        let _ = self.ids.spans();
        let _ = more.spans();
        if self.ids.has_all(more) {
            return Ok(None);
        }
        let mut grown = same_again(&self.ids, self.twin.take())?;
        add(&mut grown, more)?;
        Ok(Some(grown))
    }

    /// Puts what the set grew to in its place. The set that it was becomes the twin.
    pub(crate) fn put(&mut self, grown: Option<IdSet>, more: IdSet)
        requires { grown_to self.old grown ≡ union_of self.old more }
        ensures { self.new ≡ grown_to self.old grown }
    {
        if let Some(ids) = grown {
            let before = mem::replace(&mut self.ids, ids);
            self.twin = Some(Twin {
                ids: before,
                missing: more,
            });
        }
    }
}

/// The same set once more: its twin with what it misses, or a copy where there is none.
fn same_again(set: &IdSet, twin: Option<Twin>) -> Result<IdSet, NoMemory>
    requires { IsTwinOf set.now twin }
    ensures { IfOk result (λ again. again ≡ set.now) }
{
    let Some(Twin { ids, missing }) = twin else {
        let copy = set.copy()?;
        return Ok(copy);
    };
    let mut again = ids;
    add(&mut again, &missing)?;
    Ok(again)
}

/// Adds the ids of another set.
fn add(set: &mut IdSet, more: &IdSet) -> Result<(), NoMemory>
    ensures { OnOk result (set.new ≡ union_of set.old more.now) }
{
    if are_few(more) {
        insert_each(set, more)?;
        return Ok(());
    }
    set.union(more)?;
    Ok(())
}

/// The set has few spans. This chooses the faster way alone.
fn are_few(set: &IdSet) -> bool {
    let mut count: usize = 0;
    for _span in set.spans() {
        if count == FEW_SPANS {
            return false;
        }
        count = count.saturating_add(1);
    }
    true
}

/// Adds the ids of another set, span by span.
fn insert_each(set: &mut IdSet, more: &IdSet) -> Result<(), NoMemory>
    ensures { OnOk result (set.new ≡ union_of set.old more.now) }
{
    // That both are maximal says that either may come first.
    let _ = set.spans();
    for span in more.spans() {
        set.insert(span)?;
    }
    Ok(())
}
