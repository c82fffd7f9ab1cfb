//! Pairs of which an update spells just one half less than full.

ghost use Rattle.std.specs.Prelude.{◌≡◌, ◌↔◌, ◌+◌, map, IfOk, IsTrue};
ghost use Rattle.yd_words.specs.Each.{Each};
ghost use Rattle.yd_ids.specs.Id.{IsClock, IsSpan};
ghost use Rattle.yd_ops.specs.Cutting.{PartsPair};
ghost use Rattle.yd_ops.specs.Valid.{IsValidUpdate};
ghost use Rattle.yd_ops.specs.View.{content_value, run_value, update_value};
ghost use Rattle.yd_agreement.specs.Differing.{DifferAmong, content_of};
ghost use Rattle.yd_agreement.specs.First.{IsFirstBut};
ghost use Rattle.yd_agreement.specs.Parting.{AreWhole, HasPair, IsParted, IsPartedAt};
ghost use Rattle.yd_agreement.specs.Parting.{IsPartedAtEnds, IsPartedBy};
ghost use Rattle.yd_agreement.specs.Sweep.{IsSweep, runs_in};

use crate::fault::NoMemory;
use crate::less::less_in;
use crate::sweep::{Sweep, first_of};
use std::alloc::Global;
use yd_ids::{Id, IdSet, Span};
use yd_ops::{Content, Run, Update};

/// The first id of a high half whose pair one of the runs has, where one of the updates spells just
/// one of the two halves less than full. An id on which the runs differ in content may be left out.
/// It takes a bisection for each end of the spans that updates spell less than full.
pub fn first_parted(
    alloc: Global,
    updates: &[Update],
    full: &Sweep<'_>,
) -> Result<Option<Id>, NoMemory>
    requires valid { Each IsValidUpdate (map update_value updates.now) }
    requires swept { IsSweep full.now }
    requires whole { AreWhole (runs_in full.now) }
    ensures { IfOk result (IsFirstBut (IsParted (runs_in full.now) (map update_value updates.now))
        (DifferAmong content_of (runs_in full.now))) }
{
    let mut first = None;
    for update in updates {
        let less = less_in(alloc, update)?;
        first = first_of(first, parted_by(full, &less));
    }
    Ok(first)
}

/// The first id of a high half whose pair one of the runs has, where just one of the two halves is in
/// the set. An id on which the runs differ in content may be left out.
fn parted_by(full: &Sweep<'_>, set: &IdSet) -> Option<Id>
    requires swept { IsSweep full.now }
    requires whole { AreWhole (runs_in full.now) }
    ensures { IsFirstBut (IsPartedBy (runs_in full.now) set.now)
        (DifferAmong content_of (runs_in full.now)) result }
{
    let mut first = None;
    for span in set.spans() {
        first = first_of(first, parted_at_ends(full, span));
    }
    first
}

/// The same of pairs between whose halves a span begins or ends.
fn parted_at_ends(full: &Sweep<'_>, span: Span) -> Option<Id>
    requires swept { IsSweep full.now }
    requires whole { AreWhole (runs_in full.now) }
    requires span { IsSpan span }
    ensures { IsFirstBut (IsPartedAtEnds (runs_in full.now) span)
        (DifferAmong content_of (runs_in full.now)) result }
{
    let Span { client, clock, len } = span;
    let begins = parted_at(full, Id { client, clock });
    let end = clock + len;
    let ends = parted_at(full, Id { client, clock: end });
    first_of(begins, ends)
}

/// The id of a high half whose pair one of the runs has, where the low half has this id. An id on
/// which the runs differ in content may be left out.
fn parted_at(full: &Sweep<'_>, low: Id) -> Option<Id>
    requires swept { IsSweep full.now }
    requires whole { AreWhole (runs_in full.now) }
    requires clock { IsClock low.clock }
    ensures { IsFirstBut (IsPartedAt (runs_in full.now) low)
        (DifferAmong content_of (runs_in full.now)) result }
{
    if low.clock == 0 {
        return None;
    }
    let high = Id {
        client: low.client,
        clock: low.clock - 1,
    };
    match full.cover(high) {
        None => None,
        Some(cover) => {
            if has_pair(cover, high) {
                return Some(high);
            }
            None
        }
    }
}

/// The run has a pair whose high half has the id.
fn has_pair(run: &Run, high: Id) -> bool
    requires { IsClock high.clock }
    ensures { IsTrue result ↔ HasPair (run_value run.now) high }
{
    if run.id.client.0 != high.client.0 || high.clock < run.id.clock {
        return false;
    }
    parts_pair(&run.content, high.clock - run.id.clock + 1)
}

/// A cut before unit `n` would part a pair.
fn parts_pair(content: &Content, n: u64) -> bool
    ensures { IsTrue result ↔ PartsPair n (content_value content.now) }
{
    match content {
        Content::Str(units) => units.is_cut(n),
        _ => false,
    }
}
