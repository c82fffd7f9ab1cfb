//! Taking in the operations of runs, or of units that are gone.

ghost use Rattle.std.specs.Prelude.{◌≡◌, ◌↔◌, ◌<◌, ◌≤◌, ◌-◌, ◌⊎◌, ◌∷◌, length, IsTrue, OnOk, IfOk};
ghost use Rattle.std.specs.Bool.{OnFalse};
ghost use Rattle.yd_words.specs.Each.{Each};
ghost use Rattle.yd_ops.specs.Value.{len_of};
ghost use Rattle.yd_ops.specs.View.{content_value, run_value};
ghost use Rattle.yd_entries.specs.Entries.{AreTaken, AreInOrder, operations_in, OnlyAdds, GrowBy};
ghost use Rattle.yd_entries.specs.Taking.{AreCovered, AddsOne, AddsGroup, HasUnits, IsRun, IsKept};
ghost use Rattle.yd_entries.specs.Taking.{IsPassed, IsTakenNext, operations_from_run, AreUnchanged};
ghost use Rattle.yd_entries.specs.Taking.{IsGap};

use crate::entries::Entries;
use crate::entry::Entry;
use crate::fault::NoMemory;
use crate::gaps::{ids_from, known_from};
use crate::pieces::{first_piece, id_at, take_piece, take_whole};
use std::alloc::Global;
use yd_ops::Run;

/// Adds the units of a run with new ids, or as many that are gone, and says whether there are any.
/// Then the run is kept. Where all its ids are new and go to one place, nothing is copied. Where memory
/// ends, a run and some of its units may have been added behind the other runs.
pub fn add_run(
    alloc: Global,
    runs: &mut Vec<Run>,
    taken: &mut Entries,
    run: Run,
    is_gone: bool,
) -> Result<bool, NoMemory>
    requires run { IsRun is_gone (run_value run) }
    requires taken { AreTaken runs.old.items taken.old }
    ensures added { OnOk result (AddsGroup runs.old.items taken.old
        runs.new.items taken.new (operations_from_run is_gone (run_value run))) }
    ensures says { IfOk result (λ says. IsTrue says
        ↔ AddsOne (operations_from_run is_gone (run_value run))
        (operations_in runs.old.items taken.old)) }
    ensures unchanged { IfOk result (λ says. OnFalse says
        (AreUnchanged runs.old.items taken.old runs.new.items taken.new)) }
    ensures grows { GrowBy runs.old.items runs.new.items }
    ensures adds { OnlyAdds (length runs.old.items) taken.old taken.new }
{
    let len = run.len();
    let ids = ids_from(taken, run.id, len);
    if ids.is_new && ids.len == len {
        add_whole(runs, taken, run, is_gone, ids.at)?;
        return Ok(true);
    }
    add_parts(alloc, runs, taken, &run, is_gone)
}

/// Adds the units of a run, all of whose ids are new and go to one place.
fn add_whole(
    runs: &mut Vec<Run>,
    taken: &mut Entries,
    run: Run,
    is_gone: bool,
    at: usize,
) -> Result<(), NoMemory>
    requires run { IsRun is_gone (run_value run) }
    requires taken { AreTaken runs.old.items taken.old }
    requires gap { IsGap taken.old at run.id (len_of (content_value run.content))
        (len_of (content_value run.content)) }
    ensures added { OnOk result (AddsGroup runs.old.items taken.old
        runs.new.items taken.new (operations_from_run is_gone (run_value run))) }
    ensures grows { GrowBy runs.old.items runs.new.items }
    ensures adds { OnlyAdds (length runs.old.items) taken.old taken.new }
{
    let index = runs.len();
    let len = run.len();
    runs.reserve(1)?;
    take_whole(taken, &run, is_gone, index, at, 0, len)?;
    runs.push_reserved(run);
    Ok(())
}

/// Adds the units of a run with new ids, or as many that are gone, and says whether there are any.
/// Then a copy of the run is kept.
fn add_parts(
    alloc: Global,
    runs: &mut Vec<Run>,
    taken: &mut Entries,
    run: &Run,
    is_gone: bool,
) -> Result<bool, NoMemory>
    requires run { IsRun is_gone (run_value run.now) }
    requires taken { AreTaken runs.old.items taken.old }
    ensures added { OnOk result (AddsGroup runs.old.items taken.old
        runs.new.items taken.new (operations_from_run is_gone (run_value run.now))) }
    ensures says { IfOk result (λ says. IsTrue says
        ↔ AddsOne (operations_from_run is_gone (run_value run.now))
        (operations_in runs.old.items taken.old)) }
    ensures unchanged { IfOk result (λ says. OnFalse says
        (AreUnchanged runs.old.items taken.old runs.new.items taken.new)) }
    ensures grows { GrowBy runs.old.items runs.new.items }
    ensures adds { OnlyAdds (length runs.old.items) taken.old taken.new }
{
    let known = known_from(taken, run.id, run.len());
    if known >= run.len() {
        return Ok(false);
    }
    let index = runs.len();
    let copy = run.copy()?;
    runs.push(copy)?;
    add_rest(alloc, runs, taken, run, is_gone, index, known)?;
    Ok(true)
}

/// Adds the units of a run from one on, where those before it are there.
fn add_rest(
    alloc: Global,
    runs: &mut Vec<Run>,
    taken: &mut Entries,
    run: &Run,
    is_gone: bool,
    index: usize,
    known: u64,
) -> Result<(), NoMemory>
    requires run { IsRun is_gone (run_value run.now) }
    requires kept { IsKept runs.old.items index (run_value run.now) }
    requires taken { AreTaken runs.old.items taken.old }
    requires bound { known ≤ len_of (content_value run.now.content) }
    requires known { AreCovered taken.old run.now.id known }
    ensures added { OnOk result (AddsGroup runs.old.items taken.old
        runs.new.items taken.new (operations_from_run is_gone (run_value run.now))) }
    ensures grows { GrowBy runs.old.items runs.new.items }
    ensures adds { OnlyAdds index taken.old taken.new }
{
    let mut from = known;
    while from < run.len() {
        from = add_next(alloc, runs, taken, run, is_gone, index, from)?;
    }
    Ok(())
}

/// Adds units of a run from one on, as many as go together, and gives the number of the next.
fn add_next(
    alloc: Global,
    runs: &mut Vec<Run>,
    taken: &mut Entries,
    run: &Run,
    is_gone: bool,
    index: usize,
    from: u64,
) -> Result<u64, NoMemory>
    requires run { IsRun is_gone (run_value run.now) }
    requires kept { IsKept runs.old.items index (run_value run.now) }
    requires in_order { AreInOrder taken.old }
    requires each { Each HasUnits taken.old }
    requires more { from < len_of (content_value run.now.content) }
    ensures bound { IfOk result (λ next. (from < next)
        × (next ≤ len_of (content_value run.now.content))) }
    ensures taken { IfOk result (λ next.
        IsPassed runs.old.items taken.old runs.new.items taken.new
        (run_value run.now) from (next - from)
        ⊎ IsTakenNext is_gone runs.old.items taken.old runs.new.items taken.new
        (run_value run.now) from (next - from)) }
    ensures grows { GrowBy runs.old.items runs.new.items }
    ensures adds { OnlyAdds index taken.old taken.new }
{
    let ids = ids_from(taken, id_at(run, from), run.len() - from);
    if !ids.is_new {
        return Ok(from + ids.len);
    }
    let piece = first_piece(&run.content, from, from + ids.len);
    take_piece(alloc, runs, taken, run, is_gone, index, ids.at, from, piece)?;
    Ok(from + piece.len)
}
