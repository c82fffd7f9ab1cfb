//! The scan: a walk from run to run that finds the place of a new one.

ghost use Rattle.std.specs.Prelude.{◌≡◌, ◌<◌, ◌≤◌, ◌+◌, ◌^◌, [], ℕ, Option, nat_lt, length, IfSome, slice_index, slice_index_or, slice_set, HoldsAt};
ghost use Rattle.yd_ids.specs.declared.id.Id.{Id as Ident};
ghost use Rattle.yd_words.specs.Member.{IsIn};
ghost use Rattle.yd_chains.specs.Chain.{first_of, behind};
ghost use Rattle.yd_chains.specs.Link.{chain_at, AreSound};
ghost use Rattle.yd_scan.specs.Stretches.{stretch_at, HasOrigins};
ghost use Rattle.yd_scan.specs.Scanning.{is_above, verdict_on, IsScanPlace, Stands};
ghost use Rattle.yd_scan.specs.Verdicts.{verdict_of};

use crate::index::Finds;
use crate::judging::{Verdict, judge, judge_by_left};
use crate::stretch::Stretch;
use yd_chains::Chains;
use yd_ids::Id;

/// The mark of the run that an id stands in, or 0.
fn mark_of<I: Finds>(index: &I, marks: &[u64], origin: Option<Id>) -> u64
    ensures { (bound : ℕ) → is_above (I.places index.now) marks.now bound origin ≡ nat_lt bound result }
{
    let Some(id) = origin else {
        return 0;
    };
    let Some(place) = index.find(id) else {
        return 0;
    };
    mark_at(marks, place)
}

/// The mark of a place, or 0.
fn mark_at(marks: &[u64], place: usize) -> u64
    ensures { result ≡ slice_index marks.now place }
{
    if place < marks.len() { marks[place] } else { 0 }
}

/// What the run at a place does.
fn verdict_at<I: Finds>(
    stretches: &[Stretch],
    index: &I,
    marks: &[u64],
    new: &Stretch,
    i: usize,
    start: u64,
    moved: u64,
) -> Verdict
    requires { i < length stretches.now }
    ensures { verdict_of result ≡ verdict_on (stretch_at stretches.now i) new.now
        (is_above (I.places index.now) marks.now moved (stretch_at stretches.now i).left)
        (is_above (I.places index.now) marks.now start (stretch_at stretches.now i).left) }
{
    if let Some(turn) = judge(&stretches[i], new) {
        return turn;
    }
    let mark = mark_of(index, marks, stretches[i].left);
    judge_by_left(mark, start, moved)
}

/// Gives the next mark to a place.
fn mark(marks: &mut Vec<u64>, counter: &mut u64, i: usize)
    requires place { i < length marks.old.items }
    requires room { counter.old + 1 < 2 ^ 64 }
    ensures marks { marks.new.items ≡ slice_set marks.old.items i (counter.old + 1) }
    ensures counter { counter.new ≡ counter.old + 1 }
{
    *counter += 1;
    marks[i] = *counter;
}

/// What stands behind a place of a list, or first.
fn next_place(chains: &Chains, chain: usize, after: Option<usize>) -> Option<usize>
    requires chain { chain < length chains.now.chains }
    requires after { IfSome after (λ p. (p < chains.now.count) × IsIn p (chain_at chains.now chain)) }
    ensures value { result ≡ first_of (behind after (chain_at chains.now chain)) }
    ensures sound { AreSound chains.now }
{
    match after {
        None => chains.first(chain),
        Some(p) => chains.next(p),
    }
}

/// The place behind which a new run goes: that which the scan of its first unit finds (Yjs 13,
/// `integrate`). Its left origin ends the run at `after`, or is absent at the front.
///
/// `marks` has a number for each place, and `counter` is the last number that was given. Each run
/// that is scanned gets the next number. So a scanned run in front of the place that was found has
/// a number above the counter at the start, and one behind that place a number above the counter at
/// the last move. It takes no memory, and time with the runs that it scans.
pub fn scan<I: Finds>(
    chains: &Chains,
    chain: usize,
    stretches: &[Stretch],
    index: &I,
    marks: &mut Vec<u64>,
    counter: &mut u64,
    new: &Stretch,
    after: Option<usize>,
) -> Option<usize>
    requires chain { chain < length chains.now.chains }
    requires stretches { length stretches.now ≤ chains.now.count }
    requires marks { length stretches.now ≤ length marks.old.items }
    requires low { (i : ℕ) → slice_index marks.old.items i ≤ counter.old }
    requires room { counter.old + length stretches.now < 2 ^ 64 }
    requires stands { Stands (I.places index.now) stretches.now (chain_at chains.now chain) after new.now }
    ensures place { (left right : Ident → Option Ident) →
        HasOrigins left right stretches.now (chain_at chains.now chain) new.now →
        IsScanPlace stretches.now (chain_at chains.now chain) new.now result left right }
    ensures within { IfSome result (λ p. IsIn p (chain_at chains.now chain)) }
    ensures sound { AreSound chains.now }
    ensures len { length marks.new.items ≡ length marks.old.items }
    ensures low { (i : ℕ) → slice_index marks.new.items i ≤ counter.new }
    ensures counter { counter.new ≤ counter.old + length stretches.now }
{
    let start = *counter;
    let mut moved = start;
    let mut place = after;
    let mut at = next_place(chains, chain, after);
    while let Some(i) = at {
        match verdict_at(stretches, index, marks, new, i, start, moved) {
            Verdict::Stops => return place,
            Verdict::Moves => {
                mark(marks, counter, i);
                moved = *counter;
                place = at;
            }
            Verdict::Stays => mark(marks, counter, i),
        }
        at = chains.next(i);
    }
    place
}
