//! The group that begins with a unit of a list.

ghost use Rattle.std.specs.Prelude.{◌≡◌, ◌<◌, ◌≤◌, ◌+◌, ◌-◌, ◌++◌, true, false, IfOk, OnOk, IfSome, Decides, length};
ghost use Rattle.yd_words.specs.Each.{Each};
ghost use Rattle.yd_ids.specs.Id.{IsId, IsClock};
ghost use Rattle.yd_ops.specs.View.{content_value};
ghost use Rattle.yd_state.specs.Lent.{units_left, units_of_view, IsWithin};
ghost use Rattle.yd_copying.specs.Piece.{IsPiece, first_kind, pieces_units, content_kind, can_make};
ghost use Rattle.yd_remaking.specs.Found.{group_behind_of, GoesOn};
ghost use Rattle.yd_remaking.specs.Group.{row_behind};
ghost use Rattle.yd_remaking.specs.Parts.{contents_of, part_of, IsGroupAt};
ghost use Rattle.yd_remaking.specs.Rows.{last_in_row, HoldValid};

use std::alloc::Global;
use yd_copying::Piece;
use yd_ids::Id;
use yd_ops::{Content, NoMemory};
use yd_state::{ListView, RunView};

/// Units of one list that are made again as one run.
#[derive(Drop)]
pub struct Group<'a> {
    /// The unit before the first, deleted or not.
    pub before: Option<Id>,
    /// The units, piece by piece.
    pub pieces: Vec<Piece<'a>>,
    /// How many units there are.
    pub len: u64,
}

/// The group that begins with a unit among those that are still to come, no longer than so many
/// units. There is none where the unit cannot be made, or is not among them. It takes time as reading
/// the list by pieces does, up to the end of the group.
pub fn group_at<'a>(
    alloc: Global,
    view: ListView<'a>,
    id: Id,
    most: u64,
) -> Result<Option<Group<'a>>, NoMemory>
    requires some { 0 < most }
    requires valid { HoldValid (units_left view) }
    ensures { IfOk result (IsGroupAt (units_left view.entry) id most) }
{
    let mut view = view;
    let mut before = None;
    while let Some(piece) = view.next() {
        if has_id(&piece, id) {
            let skipped = id.clock - piece.id.clock;
            if !can_make(piece.content) {
                return Ok(None);
            }
            let before = before_place(&piece, skipped, before);
            let (pieces, len) = group_behind(alloc, &piece, skipped, most, &mut view)?;
            return Ok(Some(Group {
                before,
                pieces,
                len,
            }));
        }
        before = before_place(&piece, piece.len, before);
    }
    Ok(None)
}

/// The id is one of the piece's.
fn has_id(piece: &RunView<'_>, id: Id) -> bool
    ensures { Decides result ((id.client.0 ≡ piece.now.id.client.0) × (piece.now.id.clock ≤ id.clock)
        × (id.clock < piece.now.id.clock + piece.now.len)) }
{
    id.client.0 == piece.id.client.0
        && piece.id.clock <= id.clock
        && id.clock - piece.id.clock < piece.len
}

/// The unit before the one so many behind the first of a piece, where this one is before the piece.
fn before_place(piece: &RunView<'_>, skipped: u64, before: Option<Id>) -> Option<Id>
    requires within { IsWithin piece.now }
    requires inside { skipped ≤ piece.now.len }
    requires in_range { IfSome before IsId }
    ensures unit { result ≡ last_in_row before piece.now.id skipped }
    ensures in_range { IfSome result IsId }
{
    if skipped == 0 {
        return before;
    }
    Some(Id {
        client: piece.id.client,
        clock: piece.id.clock + (skipped - 1),
    })
}

/// Units of the content can be made again.
pub(crate) fn can_make(content: &Content) -> bool
    ensures { result ≡ can_make (content_value content.now) }
{
    match content {
        Content::Nested(_) => false,
        Content::Deleted(_) => false,
        _ => true,
    }
}

/// The kind of a content's units, among those of which one run may have several, and else 0.
fn kind_of(content: &Content) -> u64
    ensures { result ≡ content_kind (content_value content.now) }
{
    match content {
        Content::Str(_) => 1,
        Content::Any(_) => 2,
        Content::Json(_) => 3,
        _ => 0,
    }
}

/// The group that begins so many units behind the first of a piece, and how many units it has.
fn group_behind<'a>(
    alloc: Global,
    piece: &RunView<'a>,
    skipped: u64,
    most: u64,
    view: &mut ListView<'a>,
) -> Result<(Vec<Piece<'a>>, u64), NoMemory>
    requires within { IsWithin piece.now }
    requires inside { skipped < piece.now.len }
    requires makeable { can_make (content_value piece.now.content.now) ≡ true }
    requires some { 0 < most }
    requires valid { HoldValid (units_of_view piece.now ++ units_left view.old) }
    ensures units { IfOk result (λ group. pieces_units group.0.items
        ≡ contents_of (group_behind_of piece.now skipped most (units_left view.old))) }
    ensures len { IfOk result (λ group. group.1
        ≡ length (group_behind_of piece.now skipped most (units_left view.old))) }
    ensures some { IfOk result (λ group. 0 < length group.0.items) }
    ensures pieces { IfOk result (λ group. Each (IsPiece (first_kind group.0.items)) group.0.items) }
{
    let first = part_of(piece, skipped, most);
    let kind = kind_of(piece.content);
    let next = Id {
        client: piece.id.client,
        clock: piece.id.clock + skipped + first.len,
    };
    let len = first.len;
    let mut pieces = Vec::new(alloc);
    pieces.push(first)?;
    let more = grow(&mut pieces, kind, next, most - len, view)?;
    Ok((pieces, len + more))
}

/// The part of a piece from a unit on, no longer than so many.
fn part_of<'a>(piece: &RunView<'a>, skipped: u64, most: u64) -> Piece<'a>
    requires within { IsWithin piece.now }
    requires inside { skipped ≤ piece.now.len }
    ensures { result ≡ part_of piece.now skipped most }
{
    // The length is in range, and so is each place.
    let _len = piece.content.len();
    Piece {
        content: piece.content,
        offset: piece.offset + skipped,
        len: (piece.len - skipped).min(most),
    }
}

/// Adds what goes on a group of a kind, no more than so many units, and tells how many they are.
fn grow<'a>(
    pieces: &mut Vec<Piece<'a>>,
    kind: u64,
    next: Id,
    most: u64,
    view: &mut ListView<'a>,
) -> Result<u64, NoMemory>
    requires valid { HoldValid (units_left view.old) }
    requires pieces { Each (IsPiece kind) pieces.old.items }
    ensures units { OnOk result (pieces_units pieces.new.items ≡ pieces_units pieces.old.items
        ++ contents_of (row_behind kind next most (units_left view.old))) }
    ensures len { IfOk result (λ len. len ≡ length (row_behind kind next most (units_left view.old))) }
    ensures bound { IfOk result (λ len. len ≤ most) }
    ensures pieces { OnOk result (Each (IsPiece kind) pieces.new.items) }
    ensures longer { OnOk result (length pieces.old.items ≤ length pieces.new.items) }
{
    let mut next = next;
    let mut left = most;
    while let Some(piece) = view.next() {
        if left == 0 || !goes_on(&piece, kind, next) {
            return Ok(most - left);
        }
        let part = part_of(&piece, 0, left);
        next.clock += part.len;
        left -= part.len;
        pieces.push(part)?;
    }
    Ok(most - left)
}

/// The piece begins with the next id, and goes on a group of this kind.
fn goes_on(piece: &RunView<'_>, kind: u64, next: Id) -> bool
    ensures { Decides result (GoesOn piece.now kind next) }
{
    kind > 0 && piece.id == next && kind_of(piece.content) == kind
}
