//! The elements of a list in pieces, one after another.

ghost use Rattle.std.specs.Prelude.{◌≡◌, ◌<◌, ◌++◌, [], All, length, option_copied, slice_get};
ghost use Rattle.std.specs.Iterator.{YieldsFirstRef, item_count};
ghost use Rattle.yd_pieces.specs.Pieces.{joined, IsFilled};

use std::marker::Model;

/// The elements from some place on, seen as the list of those that are still to come.
#[derive(Drop)]
pub struct PiecesIter<'a, T: Drop> {
    piece: &'a [T],
    pieces: &'a [Vec<T>],
    last: &'a [T],
}

impl<'a, T: Drop> Model for PiecesIter<'a, T> {
    ghost use Rattle.std.specs.Prelude.{List, All, ◌++◌};
    ghost use Rattle.std.specs.Coded.{coded_list};
    ghost use Rattle.yd_pieces.specs.Pieces.{joined, IsFilled};

    ghost Value = { List T };

    ghost coded = { coded_list T.code };

    ghost view = { λ it. it.piece.now ++ (joined it.pieces.now ++ it.last.now) };

    ghost invariant = { λ it. All IsFilled it.pieces.now };
}

impl<'a, T: Drop> PiecesIter<'a, T> {
    /// The elements of all pieces and of the last one.
    pub(crate) fn of(pieces: &'a [Vec<T>], last: &'a [T]) -> PiecesIter<'a, T>
        requires { All IsFilled pieces.now }
        ensures { result ≡ joined pieces.now ++ last.now }
    {
        PiecesIter {
            piece: &[],
            pieces,
            last,
        }
    }

    /// The element that comes next, without taking it. It takes no memory.
    pub fn peek(&self) -> Option<&'a T>
        ensures { option_copied result ≡ slice_get self.now 0 }
    {
        if let Some(item) = self.piece.first() {
            return Some(item);
        }
        if let Some(piece) = self.pieces.first() {
            return piece.first();
        }
        self.last.first()
    }
}

impl<'a, T: Drop> Iterator for PiecesIter<'a, T> {
    type Item = &'a T;

    ghost next_gives = { YieldsFirstRef (λ s. s) };

    ghost remaining = { item_count (λ s. s) };

    fn next(&mut self) -> Option<&'a T> {
        if let Some((item, others)) = self.piece.split_first() {
            self.piece = others;
            return Some(item);
        }
        if let Some((piece, others)) = self.pieces.split_first() {
            let (item, rest) = piece.split_first()?;
            self.piece = rest;
            self.pieces = others;
            return Some(item);
        }
        let (item, others) = self.last.split_first()?;
        self.last = others;
        Some(item)
    }
}
