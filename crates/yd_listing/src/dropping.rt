//! What is deleted besides.

ghost use Rattle.std.specs.Prelude.{IfOk};
ghost use Rattle.yd_words.specs.Each.{Each};
ghost use Rattle.yd_listing.specs.Falling.{IsTold, IsCame, IsNamedIn, Drops};

use crate::arriving::add_all;
use crate::came::Came;
use crate::closing::close;
use crate::naming::add_named;
use std::alloc::Global;
use yd_ids::{IdSet, Span};
use yd_kept::Kept;
use yd_ops::NoMemory;

/// What is deleted besides the deleted ids, since deletions name some, and since units came.
/// `waiting` has those named ids that were not held before, and `named` those that are named
/// besides; each may have more of the named ids. It takes a look-up for each span of these and
/// for each row of units that came, and a few steps for each run and each list that falls. Of a
/// named span that was deleted in part all ids are answered again, and lists under the deleted
/// part are passed.
pub fn deletions_besides(
    alloc: Global,
    kept: &Kept,
    deleted: &IdSet,
    waiting: &IdSet,
    named: &IdSet,
    came: &[Came],
) -> Result<IdSet, NoMemory>
    requires told { IsTold kept.now }
    requires came { Each (IsCame kept.now) came.now }
    ensures { IfOk result (Drops kept.now deleted.now (IsNamedIn waiting.now named.now) came.now) }
{
    let mut spans = Vec::new(alloc);
    add_named(alloc, &mut spans, kept, deleted, waiting)?;
    add_named(alloc, &mut spans, kept, deleted, named)?;
    add_all(&mut spans, kept, deleted, came)?;
    close(alloc, &mut spans, kept, deleted)?;
    let besides = IdSet::of_spans(alloc, spans)?;
    Ok(besides)
}
