//! Pieces, each with one unit that stands for it.

ghost use Rattle.std.specs.Prelude.{◌≡◌, true, IfOk, IfSome};
ghost use Rattle.yd_words.specs.Each.{Each};
ghost use Rattle.yd_order.specs.Stretch.{EndsAtClock};
ghost use Rattle.yd_firsts.specs.Pieces.{AreLasts, BeginsWith, EndsWith, IsFirstOf, IsPieceOf, StandFor, StandsFor, last_of};

use crate::fault::NoMemory;
use std::alloc::Global;
use yd_ids::{Id, is_same};
use yd_order::Stretch;

/// One unit for each piece: its left is the piece that ends with the piece's left origin. There are
/// none where an origin leads into a piece or to no piece.
pub(crate) fn collapsed(alloc: Global, pieces: &[Stretch]) -> Result<Option<Vec<Stretch>>, NoMemory>
    requires { Each EndsAtClock pieces.now }
    ensures { IfOk result (λ found. IfSome found (λ ones.
        StandFor pieces.now pieces.now ones.items)) }
{
    let mut ones = Vec::new(alloc);
    for piece in pieces {
        let Some(one) = one_for(pieces, *piece) else {
            return Ok(None);
        };
        ones.push(one)?;
    }
    Ok(Some(ones))
}

/// The unit that stands for a piece, if its origins lead to pieces.
fn one_for(pieces: &[Stretch], piece: Stretch) -> Option<Stretch>
    requires { Each EndsAtClock pieces.now }
    ensures { IfSome result (StandsFor pieces.now piece) }
{
    if !begins_piece(pieces, piece.right) {
        return None;
    }
    let left = piece_behind(pieces, piece.left)?;
    Some(single(piece, left))
}

/// A piece begins with the right origin, where there is one.
fn begins_piece(pieces: &[Stretch], right: Option<Id>) -> bool
    ensures { result ≡ true → IfSome right (IsFirstOf pieces.now) }
{
    match right {
        None => true,
        Some(id) => beginning_with(pieces, id).is_some(),
    }
}

/// The first unit of the piece that ends with a left origin, where there is one.
fn piece_behind(pieces: &[Stretch], left: Option<Id>) -> Option<Option<Id>>
    requires { Each EndsAtClock pieces.now }
    ensures { IfSome result (IsPieceOf pieces.now left) }
{
    match left {
        None => Some(None),
        Some(id) => {
            let at = ending_with(pieces, id)?;
            Some(Some(pieces[at].id))
        }
    }
}

/// One unit with the id and the right origin of a piece.
fn single(piece: Stretch, left: Option<Id>) -> Stretch
    ensures { result ≡ record { id = piece.id; len = 1; left = left; right = piece.right } }
{
    Stretch {
        id: piece.id,
        len: 1,
        left,
        right: piece.right,
    }
}

/// The last unit of each piece that begins with one of the ids. There are none where one is
/// missing.
pub(crate) fn lasts_of(
    alloc: Global,
    pieces: &[Stretch],
    ids: &[Id],
) -> Result<Option<Vec<Id>>, NoMemory>
    requires { Each EndsAtClock pieces.now }
    ensures { IfOk result (λ found. IfSome found (λ lasts.
        AreLasts pieces.now ids.now lasts.items)) }
{
    let mut lasts = Vec::new(alloc);
    for id in ids {
        let Some(at) = beginning_with(pieces, *id) else {
            return Ok(None);
        };
        lasts.push(last_of(pieces[at]))?;
    }
    Ok(Some(lasts))
}

/// The place of the piece that begins with an id, where it is found.
fn beginning_with(pieces: &[Stretch], id: Id) -> Option<usize>
    ensures { IfSome result (BeginsWith pieces.now id) }
{
    let at = place_of(pieces, id)?;
    if at < pieces.len() && is_same(pieces[at].id, id) {
        return Some(at);
    }
    None
}

/// The place of the piece that ends with an id, where it is found.
fn ending_with(pieces: &[Stretch], id: Id) -> Option<usize>
    requires { Each EndsAtClock pieces.now }
    ensures { IfSome result (EndsWith pieces.now id) }
{
    let at = place_of(pieces, id)?;
    if at < pieces.len() && is_same(last_of(pieces[at]), id) {
        return Some(at);
    }
    None
}

/// The place of the last piece that does not begin behind an id in the order of writing, in which
/// the pieces are.
fn place_of(pieces: &[Stretch], id: Id) -> Option<usize> {
    pieces
        .partition_point(|piece| begins_up_to(*piece, id))
        .checked_sub(1)
}

/// The piece does not begin behind an id: it is of a greater client, or of the same with no greater
/// clock.
fn begins_up_to(piece: Stretch, id: Id) -> bool {
    piece.id.client.0 > id.client.0
        || piece.id.client.0 == id.client.0 && piece.id.clock <= id.clock
}

/// The last unit.
fn last_of(piece: Stretch) -> Id
    requires { EndsAtClock piece }
    ensures { result ≡ last_of piece }
{
    Id {
        client: piece.id.client,
        clock: piece.id.clock + piece.len.saturating_sub(1),
    }
}
