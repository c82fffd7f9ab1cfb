//! How what a place tells is cut and added to, over a plain vector.

ghost use Rattle.std.specs.Prelude.{◌≡◌, ◌<◌, ◌≤◌, ◌+◌, ◌++◌, ◌∷◌, [], None, map, length, IfSome, IfOk, OnOk, OnErr, slice_set, vec_capacity};
ghost use Rattle.yd_ids.specs.Id.{IsClock};
ghost use Rattle.yd_ops.specs.Value.{len_of};
ghost use Rattle.yd_ops.specs.Cutting.{run_before, run_behind};
ghost use Rattle.yd_ops.specs.View.{content_value, run_value};
ghost use Rattle.yd_store.specs.Contents.{told, run_at, told_before, told_behind, cut_runs, CanBeCut};
ghost use Rattle.yd_store.specs.Halves.{told_as};

use std::alloc::AllocError;
use yd_ids::Id;
use yd_ops::{Content, NoMemory, Run};
use yd_units::Units;

/// Puts what a place tells at the end, where there is memory for it.
pub fn push_told(runs: &mut Vec<Option<Run>>, run: Option<Run>)
    requires { length runs.old.items < vec_capacity runs.old }
    ensures items { runs.new.items ≡ runs.old.items ++ run ∷ [] }
    ensures memory { vec_capacity runs.old ≤ vec_capacity runs.new }
{
    let _ = runs.push(run);
}

/// Lets a place tell nothing.
pub fn drop_told(runs: &mut Vec<Option<Run>>, place: usize)
    requires { place < length runs.old.items }
    ensures items { runs.new.items ≡ slice_set runs.old.items place None }
    ensures memory { vec_capacity runs.new ≡ vec_capacity runs.old }
{
    runs[place] = None;
}

/// Lets a run that is told hold a text.
fn put_text_in(slot: &mut Option<Run>, units: Units)
    ensures { told slot.new ≡ told_as units (told slot.old) }
{
    if let Some(run) = slot {
        run.content = Content::Str(units);
    }
}

/// The same of the run at a place.
pub fn put_text(runs: &mut Vec<Option<Run>>, place: usize, units: Units)
    requires { place < length runs.old.items }
    ensures items { map told runs.new.items ≡ slice_set (map told runs.old.items) place
        (told_as units (run_at (map told runs.old.items) place)) }
    ensures memory { vec_capacity runs.new ≡ vec_capacity runs.old }
    ensures len { length runs.new.items ≡ length runs.old.items }
{
    put_text_in(&mut runs[place], units);
}

/// Leaves the first units of a run in it, and answers the others as a run, as `Run::cut` does.
fn rest_of(run: &mut Run, n: u64) -> Result<Run, NoMemory>
    requires some { 0 < n }
    requires inside { n < len_of (content_value run.old.content) }
    requires fits { IsClock (run.old.id.clock + len_of (content_value run.old.content)) }
    ensures front { OnOk result (run_value run.new ≡ run_before n (run_value run.old)) }
    ensures rest { IfOk result (λ rest. run_value rest ≡ run_behind n (run_value run.old)) }
    ensures unchanged { OnErr result (run_value run.new ≡ run_value run.old) }
{
    let content = run.content.split_off(n)?;
    let client = run.id.client;
    let clock = run.id.clock;
    Ok(Run {
        id: Id {
            client,
            clock: clock + n,
        },
        left: Some(Id {
            client,
            clock: clock + (n - 1),
        }),
        right: run.right,
        list: None,
        content,
    })
}

/// The same of what a place tells.
fn rest_in(slot: &mut Option<Run>, n: u64) -> Result<Option<Run>, NoMemory>
    requires some { 0 < n }
    requires inside { CanBeCut n (told slot.old) }
    ensures front { OnOk result (told slot.new ≡ told_before n (told slot.old)) }
    ensures rest { IfOk result (λ rest. told rest ≡ told_behind n (told slot.old)) }
    ensures unchanged { OnErr result (told slot.new ≡ told slot.old) }
{
    match slot {
        None => Ok(None),
        Some(run) => {
            let rest = rest_of(run, n)?;
            Ok(Some(rest))
        }
    }
}

/// The same of the place.
fn rest_at(runs: &mut Vec<Option<Run>>, place: usize, n: u64) -> Result<Option<Run>, NoMemory>
    requires place { place < length runs.old.items }
    requires some { 0 < n }
    requires inside { CanBeCut n (run_at (map told runs.old.items) place) }
    ensures front { OnOk result (map told runs.new.items ≡ slice_set (map told runs.old.items)
        place (told_before n (run_at (map told runs.old.items) place))) }
    ensures rest { IfOk result (λ rest. told rest ≡
        told_behind n (run_at (map told runs.old.items) place)) }
    ensures unchanged { OnErr result (map told runs.new.items ≡ map told runs.old.items) }
    ensures memory { vec_capacity runs.new ≡ vec_capacity runs.old }
    ensures len { length runs.new.items ≡ length runs.old.items }
{
    let rest = rest_in(&mut runs[place], n)?;
    Ok(rest)
}

/// Cuts what a place tells in two behind so many units. The second part comes last.
pub fn cut_told(runs: &mut Vec<Option<Run>>, place: usize, n: u64) -> Result<(), AllocError>
    requires place { place < length runs.old.items }
    requires some { 0 < n }
    requires inside { CanBeCut n (run_at (map told runs.old.items) place) }
    ensures done { OnOk result (map told runs.new.items ≡
        cut_runs (map told runs.old.items) place n) }
    ensures unchanged { OnErr result (map told runs.new.items ≡ map told runs.old.items) }
{
    runs.reserve(1)?;
    let Ok(rest) = rest_at(runs, place, n) else {
        return Err(AllocError);
    };
    push_told(runs, rest);
    Ok(())
}
