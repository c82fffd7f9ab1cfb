//! Units of one kind, as one content.

ghost use Rattle.std.specs.Prelude.{◌≡◌, ◌<◌, length, true, IfOk};
ghost use Rattle.yd_words.specs.Each.{Each};
ghost use Rattle.yd_ops.specs.Valid.{IsValidContent};
ghost use Rattle.yd_ops.specs.Value.{len_of};
ghost use Rattle.yd_ops.specs.View.{content_value};
ghost use Rattle.yd_copying.specs.Content.{content_of};
ghost use Rattle.yd_copying.specs.Piece.{IsPiece, first_kind, pieces_units};

use crate::mending::whole;
use crate::pieces::Piece;
use crate::values::{json_units, texts, values};
use std::alloc::Global;
use yd_ops::{Content, NoMemory};
use yd_units::Units;

/// What units of pieces hold, as one content of their own: all are of the kind of the first, and where
/// one unit is a content alone, only the first counts. A half that has no partner beside it becomes
/// U+FFFD (own).
pub fn copied(alloc: Global, pieces: &[Piece<'_>]) -> Result<Content, NoMemory>
    requires some { 0 < length pieces.now }
    requires pieces { Each (IsPiece (first_kind pieces.now)) pieces.now }
    ensures content { IfOk result (λ content. content_value content
        ≡ content_of (pieces_units pieces.now)) }
{
    let first = pieces[0].content;
    match first {
        Content::Str(_) => {
            let units = texts(alloc, pieces)?;
            let whole = whole(alloc, &units)?;
            Ok(Content::Str(Units::of_units(whole)))
        }
        Content::Any(_) => Ok(Content::Any(values(alloc, pieces)?)),
        Content::Json(_) => Ok(Content::Json(json_units(alloc, pieces)?)),
        _ => {
            let content = first.copy()?;
            Ok(content)
        }
    }
}
