//! Changes of a store, each where what it names is there.

ghost use Rattle.std.specs.Prelude.{◌≡◌, ◌<◌, ◌≤◌, ◌+◌, true};
ghost use Rattle.yd_arena.specs.Arena.{count_of, next_clock};

use crate::step::{At, Step};
use std::alloc::Global;
use yd_ids::{Client, Id, Span};
use yd_ops::{Content, NoMemory, Run, ends_at_clock};
use yd_store::Store;
use yd_units::Units;

/// Makes a change, or none where something that it names is not there.
pub fn change(alloc: Global, store: &mut Store, step: Step) -> Result<(), NoMemory>
    requires { 1 < count_of store.old.placed }
    ensures { count_of store.new.placed ≡ count_of store.old.placed }
{
    match step {
        Step::Put(list, at, left, right, text) => {
            let content = Content::Str(Units::from_text(alloc, text)?);
            put(store, list, run_of(at, left, right, content))
        }
        Step::Deleted(at, left, count) => {
            put(store, 0, run_of(at, left, None, Content::Deleted(count)))
        }
        Step::Gone(at, len) => add_gone(store, span_of(at, len)),
        Step::Lost(at, text) => {
            let content = Content::Str(Units::from_text(alloc, text)?);
            add_lost(store, run_of(at, None, None, content))
        }
        Step::Add(at, text) => {
            store.reserve(Client(at.0), 1)?;
            let content = Content::Str(Units::from_text(alloc, text)?);
            add_first(store, id_of(at), content)
        }
        Step::Split(at) => split(store, id_of(at)),
        Step::Delete(at, len) => delete(store, span_of(at, len)),
        Step::Mark(at, len) => mark(store, span_of(at, len)),
        Step::Lower(at, len) => lower(store, span_of(at, len)),
        Step::EmptyLost(at, len) => empty_lost(store, span_of(at, len)),
        Step::Back(at) => take_back(store, id_of(at)),
        Step::Join => join(store),
    }
}

fn id_of(at: At) -> Id {
    Id {
        client: Client(at.0),
        clock: at.1,
    }
}

fn span_of(at: At, len: u64) -> Span {
    Span {
        client: Client(at.0),
        clock: at.1,
        len,
    }
}

fn run_of(at: At, left: Option<At>, right: Option<At>, content: Content) -> Run {
    Run {
        id: id_of(at),
        left: left.map(id_of),
        right: right.map(id_of),
        list: None,
        content,
    }
}

/// Whether an origin is absent or held.
fn is_there(store: &Store, id: Option<Id>) -> bool {
    match id {
        None => true,
        Some(id) => store.find(id).is_some(),
    }
}

/// Puts a run into a list by its origins.
fn put(store: &mut Store, list: usize, run: Run) -> Result<(), NoMemory>
    requires { 1 < count_of store.old.placed }
    ensures { count_of store.new.placed ≡ count_of store.old.placed }
{
    if list > 1 || !is_there(store, run.right) || !store.can_integrate(&run, list) {
        return Ok(());
    }
    match store.integrate(run, list) {
        Ok(_) => Ok(()),
        Err(_) => Err(NoMemory),
    }
}

/// Adds units of which only the ids are known.
fn add_gone(store: &mut Store, span: Span) -> Result<(), NoMemory>
    ensures { count_of store.new.placed ≡ count_of store.old.placed }
{
    let is_next = store.next_clock(span.client) == span.clock;
    if is_next && span.len > 0 && ends_at_clock(span.clock, span.len) {
        store.add_gone(span)?;
    }
    Ok(())
}

/// Adds a run whose units are lost.
fn add_lost(store: &mut Store, run: Run) -> Result<(), NoMemory>
    ensures { count_of store.new.placed ≡ count_of store.old.placed }
{
    let is_next = store.next_clock(run.id.client) == run.id.clock;
    if !is_next || run.len() == 0 || !ends_at_clock(run.id.clock, run.len()) {
        return Ok(());
    }
    match store.add_lost(run) {
        Ok(_) => Ok(()),
        Err(_) => Err(NoMemory),
    }
}

/// Adds a run without origins to the first list.
fn add_first(store: &mut Store, id: Id, content: Content) -> Result<(), NoMemory>
    requires { 1 < count_of store.old.placed }
    ensures { count_of store.new.placed ≡ count_of store.old.placed }
{
    let is_next = store.next_clock(id.client) == id.clock;
    if !is_next || content.len() == 0 || !ends_at_clock(id.clock, content.len()) {
        return Ok(());
    }
    let run = Run {
        id,
        left: None,
        right: None,
        list: None,
        content,
    };
    match store.add_run(run, 0, None) {
        Ok(_) => Ok(()),
        Err(_) => Err(NoMemory),
    }
}

/// Lets a run begin with an id.
fn split(store: &mut Store, id: Id) -> Result<(), NoMemory>
    ensures { count_of store.new.placed ≡ count_of store.old.placed }
{
    if id.clock < store.next_clock(id.client) {
        store.split(id)?;
    }
    Ok(())
}

/// Whether all units of a span are held.
fn is_held(store: &Store, span: Span) -> bool
    ensures { result ≡ true →
        span.clock + span.len ≤ next_clock store.now.placed span.client.0 }
{
    let next = store.next_clock(span.client);
    span.clock <= next && span.len <= next - span.clock
}

/// Deletes the units of a span.
fn delete(store: &mut Store, span: Span) -> Result<(), NoMemory>
    ensures { count_of store.new.placed ≡ count_of store.old.placed }
{
    if is_held(store, span) {
        store.delete(span)?;
    }
    Ok(())
}

/// The same, by its parts.
fn mark(store: &mut Store, span: Span) -> Result<(), NoMemory>
    ensures { count_of store.new.placed ≡ count_of store.old.placed }
{
    if is_held(store, span) {
        mark_held(store, span)?;
    }
    Ok(())
}

/// Cuts runs at the ends of a span that is held, and marks it.
fn mark_held(store: &mut Store, span: Span) -> Result<(), NoMemory>
    requires held { span.clock + span.len ≤ next_clock store.old.placed span.client.0 }
    ensures { count_of store.new.placed ≡ count_of store.old.placed }
{
    // That the next clock is one says that the end does not overflow.
    let _ = store.next_clock(span.client);
    store.part_at(Id {
        client: span.client,
        clock: span.clock,
    })?;
    store.part_at(Id {
        client: span.client,
        clock: span.clock + span.len,
    })?;
    store.mark_deleted(span);
    Ok(())
}

/// Spells the units of a span deleted.
fn lower(store: &mut Store, span: Span) -> Result<(), NoMemory>
    ensures { count_of store.new.placed ≡ count_of store.old.placed }
{
    if is_held(store, span) {
        store.lower(span)?;
    }
    Ok(())
}

/// Lets the units of a span be gone.
fn empty_lost(store: &mut Store, span: Span) -> Result<(), NoMemory>
    ensures { count_of store.new.placed ≡ count_of store.old.placed }
{
    if is_held(store, span) {
        store.empty_lost(span)?;
    }
    Ok(())
}

/// Takes a client's units from an id on out again.
fn take_back(store: &mut Store, id: Id) -> Result<(), NoMemory>
    ensures { count_of store.new.placed ≡ count_of store.old.placed }
{
    if id.clock <= store.next_clock(id.client) {
        store.part_at(id)?;
        store.take_back(id.client, id.clock);
    }
    Ok(())
}

/// Joins the last run, if that can be.
fn join(store: &mut Store) -> Result<(), NoMemory>
    ensures { count_of store.new.placed ≡ count_of store.old.placed }
{
    store.join_last()?;
    Ok(())
}
