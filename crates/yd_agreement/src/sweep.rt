//! Runs in the order of their first ids, and which of them ends last.

ghost use Rattle.std.specs.Prelude.{◌≡◌, ◌<◌, IfOk, length, suc, take};
ghost use Rattle.yd_words.specs.Each.{Each};
ghost use Rattle.yd_ops.specs.View.{run_value};
ghost use Rattle.yd_agreement.specs.Differing.{DifferAmong, HasRange, content_of, place_of};
ghost use Rattle.yd_agreement.specs.First.{IsFirst, first_of};
ghost use Rattle.yd_agreement.specs.Runs.{AreAscending, ComesBy, IsCover, lent_runs};
ghost use Rattle.yd_agreement.specs.Sweep.{HaveCovers, IsLater, IsSweep, TellsCover};
ghost use Rattle.yd_agreement.specs.Sweep.{ends_later, runs_in};

use crate::differing::{differ_in_content, differ_in_place};
use crate::fault::NoMemory;
use std::alloc::Global;
use yd_ids::{Id, is_smaller};
use yd_ops::Run;

/// Runs in the order of their first ids, and beside each one its cover: of it and those before it,
/// one that ends last (own).
#[derive(Drop)]
pub struct Sweep<'a> {
    runs: Vec<&'a Run>,
    covers: Vec<&'a Run>,
}

impl<'a> Sweep<'a> {
    /// Runs with their covers, which it finds in one pass.
    pub fn new(alloc: Global, runs: Vec<&'a Run>) -> Result<Sweep<'a>, NoMemory>
        requires ascending { AreAscending (lent_runs runs.items) }
        requires ranges { Each HasRange (lent_runs runs.items) }
        ensures swept { IfOk result IsSweep }
        ensures runs { IfOk result (λ sweep. runs_in sweep ≡ lent_runs runs.entry.items) }
    {
        let covers = covers_of(alloc, &runs)?;
        Ok(Sweep { runs, covers })
    }

    /// The first id on which two of the runs differ in content. Each run is compared with the cover
    /// before it alone.
    pub fn first_content(&self) -> Option<Id>
        requires { IsSweep self.now }
        ensures { IsFirst (DifferAmong content_of (runs_in self.now)) result }
    {
        let mut first = None;
        for next in 1..self.runs.len() {
            let found = differ_in_content(self.covers[next - 1], self.runs[next]);
            first = first_of(first, found);
        }
        first
    }

    /// The first id on which two of the runs differ in place. Each run is compared with the cover
    /// before it alone.
    pub fn first_place(&self) -> Option<Id>
        requires { IsSweep self.now }
        ensures { IsFirst (DifferAmong place_of (runs_in self.now)) result }
    {
        let mut first = None;
        for next in 1..self.runs.len() {
            let found = differ_in_place(self.covers[next - 1], self.runs[next]);
            first = first_of(first, found);
        }
        first
    }

    /// Of the runs that begin at an id or before it, the one that ends last, in the time of a
    /// bisection.
    pub fn cover(&self, id: Id) -> Option<&'a Run>
        requires { IsSweep self.now }
        ensures { TellsCover (runs_in self.now) id result }
    {
        let count = self.runs.partition_point(|run| !is_smaller(id, run.id));
        if count == 0 {
            return None;
        }
        Some(self.covers[count - 1])
    }
}

/// The covers of runs.
fn covers_of<'a>(alloc: Global, runs: &[&'a Run]) -> Result<Vec<&'a Run>, NoMemory>
    requires ascending { AreAscending (lent_runs runs.now) }
    requires ranges { Each HasRange (lent_runs runs.now) }
    ensures { IfOk result (λ covers. HaveCovers (lent_runs runs.now) (lent_runs covers.items)
        (length (lent_runs runs.now))) }
{
    let mut covers: Vec<&'a Run> = Vec::new(alloc);
    for next in 0..runs.len() {
        let cover = next_cover(runs, &covers, next);
        covers.push(cover)?;
    }
    Ok(covers)
}

/// The cover of a run and those before it, by the covers so far.
fn next_cover<'a>(runs: &[&'a Run], covers: &[&'a Run], next: usize) -> &'a Run
    requires ascending { AreAscending (lent_runs runs.now) }
    requires ranges { Each HasRange (lent_runs runs.now) }
    requires covers { HaveCovers (lent_runs runs.now) (lent_runs covers.now) next }
    requires inside { next < length runs.now }
    ensures { IsCover (take (suc next) (lent_runs runs.now)) (run_value result.now) }
{
    if next == 0 {
        return runs[next];
    }
    later_of(covers[next - 1], runs[next])
}

/// The one of two runs that ends later.
fn later_of<'a>(cover: &'a Run, next: &'a Run) -> &'a Run
    requires cover { HasRange (run_value cover.now) }
    requires next { HasRange (run_value next.now) }
    requires order { ComesBy cover.now.id next.now.id }
    ensures { IsLater (run_value cover.now) (run_value next.now) (run_value result.now) }
{
    if ends_later(cover, next) {
        return cover;
    }
    next
}

/// The first run is of the second one's client, and ends later.
fn ends_later(run: &Run, other: &Run) -> bool
    requires run { HasRange (run_value run.now) }
    requires other { HasRange (run_value other.now) }
    ensures { result ≡ ends_later (run_value run.now) (run_value other.now) }
{
    run.id.client.0 == other.id.client.0 && other.id.clock + other.len() < run.id.clock + run.len()
}

/// The smaller one of two ids, each of which may be absent.
pub fn first_of(a: Option<Id>, b: Option<Id>) -> Option<Id>
    ensures { result ≡ first_of a b }
{
    match (a, b) {
        (Some(x), Some(y)) => { if is_smaller(y, x) { Some(y) } else { Some(x) } }
        (Some(x), None) => Some(x),
        (None, b) => b,
    }
}
