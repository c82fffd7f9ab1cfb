//! Stretches, cut where origins part them.

ghost use Rattle.std.specs.Prelude.{◌≡◌, ◌<◌, IfOk, OnOk};
ghost use Rattle.yd_words.specs.Each.{Each};
ghost use Rattle.yd_order.specs.Stretch.{EndsAtClock};
ghost use Rattle.yd_firsts.specs.Pieces.{ArePiecesOf, CutsOff, PutsPieces, rest_behind, with_rest};

use crate::fault::NoMemory;
use std::alloc::Global;
use yd_ids::{Id, is_smaller};
use yd_order::Stretch;

/// The stretches, each cut behind the left origins and in front of the right origins that lie in
/// it. No clause says where it is cut.
pub(crate) fn pieces_of(alloc: Global, stretches: &[Stretch]) -> Result<Vec<Stretch>, NoMemory>
    requires { Each EndsAtClock stretches.now }
    ensures { IfOk result (λ pieces. ArePiecesOf pieces.items stretches.now) }
{
    let cuts = cuts_of(alloc, stretches)?;
    let mut pieces = Vec::new(alloc);
    for stretch in stretches {
        push_pieces(&mut pieces, *stretch, &cuts)?;
    }
    Ok(pieces)
}

/// The ids in front of which is cut, in order.
fn cuts_of(alloc: Global, stretches: &[Stretch]) -> Result<Vec<Id>, NoMemory> {
    let mut cuts = Vec::new(alloc);
    for stretch in stretches {
        push_cuts(&mut cuts, *stretch)?;
    }
    cuts.sort_unstable();
    Ok(cuts)
}

/// Appends the right origin, and the id behind the left origin.
fn push_cuts(cuts: &mut Vec<Id>, stretch: Stretch) -> Result<(), NoMemory> {
    if let Some(left) = stretch.left {
        cuts.push(Id {
            client: left.client,
            clock: left.clock.saturating_add(1),
        })?;
    }
    if let Some(right) = stretch.right {
        cuts.push(right)?;
    }
    Ok(())
}

/// Appends the pieces of a stretch.
fn push_pieces(pieces: &mut Vec<Stretch>, stretch: Stretch, cuts: &[Id]) -> Result<(), NoMemory>
    requires { EndsAtClock stretch }
    ensures { OnOk result (PutsPieces pieces.old.items pieces.new.items stretch) }
{
    let mut rest = stretch;
    let first = cuts.partition_point(|cut| is_smaller(*cut, stretch.id));
    for at in first..cuts.len() {
        if !lies_in(rest, cuts[at]) {
            break;
        }
        rest = cut_off(pieces, rest, cuts[at])?;
    }
    push_rest(pieces, rest)?;
    Ok(())
}

/// The id is in front of the end of a stretch of its client.
fn lies_in(stretch: Stretch, id: Id) -> bool {
    id.client.0 == stretch.id.client.0 && id.clock < stretch.id.clock.saturating_add(stretch.len)
}

/// Appends what of a stretch is in front of an id, and says what is left. Where the id is not
/// inside, all is left.
fn cut_off(pieces: &mut Vec<Stretch>, stretch: Stretch, id: Id) -> Result<Stretch, NoMemory>
    requires { EndsAtClock stretch }
    ensures { IfOk result (λ rest. CutsOff pieces.old.items pieces.new.items stretch rest) }
{
    if id.clock <= stretch.id.clock {
        return Ok(stretch);
    }
    let len = id.clock - stretch.id.clock;
    if len >= stretch.len {
        return Ok(stretch);
    }
    pieces.push(Stretch {
        id: stretch.id,
        len,
        left: stretch.left,
        right: stretch.right,
    })?;
    Ok(behind(stretch, len))
}

/// What is left of a stretch behind so many units.
fn behind(stretch: Stretch, len: u64) -> Stretch
    requires clocks { EndsAtClock stretch }
    requires some { 0 < len }
    requires inside { len < stretch.len }
    ensures { result ≡ rest_behind stretch len }
{
    Stretch {
        id: Id {
            client: stretch.id.client,
            clock: stretch.id.clock + len,
        },
        len: stretch.len - len,
        left: Some(Id {
            client: stretch.id.client,
            clock: stretch.id.clock + (len - 1),
        }),
        right: stretch.right,
    }
}

/// Appends a stretch that has units.
fn push_rest(pieces: &mut Vec<Stretch>, rest: Stretch) -> Result<(), NoMemory>
    ensures { OnOk result (pieces.new.items ≡ with_rest pieces.old.items rest) }
{
    if rest.len > 0 {
        pieces.push(rest)?;
    }
    Ok(())
}
