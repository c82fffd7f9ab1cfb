//! How marks and counts change, over plain vectors.

ghost use Rattle.std.specs.Prelude.{◌≡◌, ◌<◌, ◌≤◌, ◌+◌, ◌^◌, ◌++◌, ◌∷◌, [], length, IfSome, get_or, slice_set, vec_capacity};
ghost use Rattle.yd_arena.specs.Marks.{mark_at, as_deleted, live_at, with_more, with_less};

use crate::Lists;
use crate::mark::{Mark, live_of};

/// How many units of the run at a place are live.
pub fn live_units(rows: &[Mark], lists: &Lists, place: usize) -> u64
    requires marks { place < length rows.now }
    requires runs { place < length lists.now.stretches }
    ensures { result ≡ live_at lists.now.stretches rows.now place }
{
    live_of(rows[place], lists.stretch(place).len)
}

/// Puts a mark at the end, where there is memory for it.
pub fn push_mark(rows: &mut Vec<Mark>, mark: Mark)
    requires { length rows.old.items < vec_capacity rows.old }
    ensures items { rows.new.items ≡ rows.old.items ++ mark ∷ [] }
    ensures memory { vec_capacity rows.old ≤ vec_capacity rows.new }
{
    let _ = rows.push(mark);
}

/// Lets the mark at a place say deleted.
pub fn set_deleted(rows: &mut Vec<Mark>, place: usize)
    requires { place < length rows.old.items }
    ensures items { rows.new.items ≡
        slice_set rows.old.items place (as_deleted (mark_at rows.old.items place)) }
    ensures memory { vec_capacity rows.new ≡ vec_capacity rows.old }
{
    rows[place].deleted = true;
}

/// Counts so many live units more in a list.
pub fn count_more(live: &mut Vec<u64>, list: Option<usize>, n: u64)
    requires list { IfSome list (λ k. k < length live.old.items) }
    requires fits { IfSome list (λ k. get_or live.old.items k 0 + n < 2 ^ 64) }
    ensures { live.new.items ≡ with_more live.old.items list n }
{
    if let Some(k) = list {
        live[k] += n;
    }
}

/// Counts so many live units less in a list.
pub fn count_less(live: &mut Vec<u64>, list: Option<usize>, n: u64)
    requires list { IfSome list (λ k. k < length live.old.items) }
    requires enough { IfSome list (λ k. n ≤ get_or live.old.items k 0) }
    ensures { live.new.items ≡ with_less live.old.items list n }
{
    if let Some(k) = list {
        live[k] -= n;
    }
}
