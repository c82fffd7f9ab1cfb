//! Keeping elements of a list in pieces, and dropping the others.

ghost use Rattle.std.specs.Prelude.{◌≡◌, ◌<◌, ◌≤◌, ◌+◌, ◌-◌, ◌^◌, ◌++◌, All, filter, length, vec_capacity};
ghost use Rattle.yd_pieces.specs.Pieces.{joined, IsFilled};

use crate::searching::{Test, len_before};

/// Keeps the elements of a piece that pass.
fn keep_in<T: Drop, P: Test<T>>(piece: &mut Vec<T>, test: &P)
    ensures kept { piece.new.items ≡ filter (P.passes test.now) piece.old.items }
    ensures fewer { length piece.new.items ≤ length piece.old.items }
    ensures capacity { vec_capacity piece.new ≡ vec_capacity piece.old }
{
    piece.retain(|item| test.passes(item));
}

/// Keeps the elements of each piece that pass. A piece may lose all.
fn keep_in_each<T: Drop, P: Test<T>>(pieces: &mut Vec<Vec<T>>, test: &P)
    ensures { joined pieces.new.items ≡ filter (P.passes test.now) (joined pieces.old.items) }
{
    for i in 0..pieces.len() {
        keep_in(&mut pieces[i], test);
    }
}

/// Drops the pieces without an element.
fn drop_empty<T: Drop>(pieces: &mut Vec<Vec<T>>)
    ensures same { joined pieces.new.items ≡ joined pieces.old.items }
    ensures filled { All IsFilled pieces.new.items }
{
    pieces.retain(|piece| !piece.is_empty());
}

/// Keeps the elements of the pieces and of the last one that pass, and answers how many that are.
pub fn keep<T: Drop, P: Test<T>>(pieces: &mut Vec<Vec<T>>, last: &mut Vec<T>, test: &P) -> usize
    requires { length (joined pieces.old.items ++ last.old.items) < 2 ^ 64 }
    ensures kept { joined pieces.new.items ++ last.new.items
        ≡ filter (P.passes test.now) (joined pieces.old.items ++ last.old.items) }
    ensures count { result ≡ length (joined pieces.new.items ++ last.new.items) }
    ensures fewer { result ≤ length (joined pieces.old.items ++ last.old.items) }
    ensures filled { All IsFilled pieces.new.items }
    ensures room { vec_capacity last.old - length last.old.items ≤
        vec_capacity last.new - length last.new.items }
{
    keep_in_each(pieces, test);
    drop_empty(pieces);
    keep_in(last, test);
    len_before(pieces, pieces.len()) + last.len()
}
