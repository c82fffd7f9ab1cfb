//! What was written last, as far as the next struct may join it.

ghost use Rattle.std.specs.Prelude.{◌≡◌};
ghost use Rattle.yd_ids.specs.Ids.{is_same_neighbour};
ghost use Rattle.yd_ops.specs.Joining.{stands_behind};
ghost use Rattle.yd_ops.specs.View.{content_value, run_value, struct_value};
ghost use Rattle.yd_fields.specs.Lent.{lent_run, lent_struct};
ghost use Rattle.yd_skimming.specs.Tails.{goes_on, is_of_kind, joins_tail, run_goes_on};
ghost use Rattle.yd_skimming.specs.Tails.{kind_of, run_tail, struct_tail};

use yd_fields::{LentRun, LentStruct};
use yd_ids::{Id, is_same};
use yd_ops::{Content, Run, Struct};

/// Of what kind a struct is that may join the next one.
#[derive(Clone, Copy)]
pub enum TailKind {
    /// A string.
    Text,
    /// Any-values.
    Values,
    /// JSON units.
    Json,
    /// Deleted units.
    Deleted,
    /// Gone units.
    Gone,
}

/// The end of a struct that the next one may join.
#[derive(Clone, Copy)]
pub struct Tail {
    /// The id behind its last unit.
    pub end: Id,
    /// Its right origin.
    pub right: Option<Id>,
    /// Its kind.
    pub kind: TailKind,
}

/// The tail of a struct that ends before this id. One that stands alone has none.
#[inline]
pub fn tail_of(end: Id, entry: &LentStruct<'_>) -> Option<Tail>
    ensures { result ≡ struct_tail end (lent_struct entry.now) }
{
    match entry {
        LentStruct::Text(run) => Some(Tail {
            end,
            right: run.right,
            kind: TailKind::Text,
        }),
        LentStruct::Made(entry) => tail_of_struct(end, entry),
    }
}

fn tail_of_struct(end: Id, entry: &Struct) -> Option<Tail>
    ensures { result ≡ struct_tail end (struct_value entry.now) }
{
    match entry {
        Struct::Item(run) => tail_of_run(end, run),
        Struct::Skip(_) => None,
        Struct::Gone(_) => Some(Tail {
            end,
            right: None,
            kind: TailKind::Gone,
        }),
    }
}

fn tail_of_run(end: Id, run: &Run) -> Option<Tail>
    ensures { result ≡ run_tail end (run_value run.now) }
{
    match kind_of(&run.content) {
        None => None,
        Some(kind) => Some(Tail {
            end,
            right: run.right,
            kind,
        }),
    }
}

/// The kind of a content, if it is one that joins.
fn kind_of(content: &Content) -> Option<TailKind>
    ensures { result ≡ kind_of (content_value content.now) }
{
    match content {
        Content::Str(_) => Some(TailKind::Text),
        Content::Any(_) => Some(TailKind::Values),
        Content::Json(_) => Some(TailKind::Json),
        Content::Deleted(_) => Some(TailKind::Deleted),
        _ => None,
    }
}

/// A struct that begins at an id joins the struct of the tail.
#[inline]
pub fn joins(tail: &Option<Tail>, id: Id, entry: &LentStruct<'_>) -> bool
    ensures { result ≡ joins_tail tail.now id (lent_struct entry.now) }
{
    match tail {
        None => false,
        Some(tail) => is_same(id, tail.end) && goes_on(tail, entry),
    }
}

/// A struct that begins where the tail ends goes on with it.
fn goes_on(tail: &Tail, entry: &LentStruct<'_>) -> bool
    ensures { result ≡ goes_on tail.now (lent_struct entry.now) }
{
    match entry {
        LentStruct::Text(run) => text_goes_on(tail, run),
        LentStruct::Made(Struct::Item(run)) => run_goes_on(tail, run),
        LentStruct::Made(Struct::Skip(_)) => false,
        LentStruct::Made(Struct::Gone(_)) => matches!(tail.kind, TailKind::Gone),
    }
}

fn text_goes_on(tail: &Tail, run: &LentRun<'_>) -> bool
    ensures { result ≡ run_goes_on tail.now (lent_run run.now) }
{
    stands_behind(run.left, run.id)
        && is_same_neighbour(tail.right, run.right)
        && matches!(tail.kind, TailKind::Text)
}

fn run_goes_on(tail: &Tail, run: &Run) -> bool
    ensures { result ≡ run_goes_on tail.now (run_value run.now) }
{
    stands_behind(run.left, run.id)
        && is_same_neighbour(tail.right, run.right)
        && is_of_kind(tail.kind, &run.content)
}

/// The left origin is the id before this one.
fn stands_behind(left: Option<Id>, id: Id) -> bool
    ensures { result ≡ stands_behind left id }
{
    match left {
        None => false,
        Some(left) => id.client.0 == left.client.0 && 1 <= id.clock && id.clock - 1 == left.clock,
    }
}

/// Both are absent, or both are there and one.
fn is_same_neighbour(a: Option<Id>, b: Option<Id>) -> bool
    ensures { result ≡ is_same_neighbour a b }
{
    match (a, b) {
        (None, None) => true,
        (Some(a), Some(b)) => is_same(a, b),
        _ => false,
    }
}

/// The content is of this kind.
fn is_of_kind(kind: TailKind, content: &Content) -> bool
    ensures { result ≡ is_of_kind kind (content_value content.now) }
{
    match content {
        Content::Str(_) => matches!(kind, TailKind::Text),
        Content::Any(_) => matches!(kind, TailKind::Values),
        Content::Json(_) => matches!(kind, TailKind::Json),
        Content::Deleted(_) => matches!(kind, TailKind::Deleted),
        _ => false,
    }
}
