//! Which right origin counts.

ghost use Rattle.std.specs.Prelude.{◌≡◌, ◌<◌, ◌-◌, true, false, length, IfSome};
ghost use Rattle.yd_words.specs.Member.{IsIn};
ghost use Rattle.yd_scan.specs.Stretches.{stretch_at};
ghost use Rattle.yd_arena.specs.Arena.{count_of, runs_of, places_in, HasUnit};
ghost use Rattle.yd_store.specs.Store.{IsKeptRight, StandsIn};
ghost use Rattle.yd_store.specs.Integrating.{IsPlaceOf};

use crate::parts::is_sound;
use yd_arena::{Arena, Lists};
use yd_ids::Id;

/// The right origin, where it stands in the list.
pub fn kept_right(arena: &Arena, list: usize, right: Option<Id>) -> Option<Id>
    requires { list < count_of arena.now }
    ensures { IsKeptRight arena.now list right result }
{
    let Some(id) = right else {
        return None;
    };
    if stands_in(arena, list, id) {
        return Some(id);
    }
    None
}

/// The right origin, where it stands in the list. The place of its run is known, if there is one.
pub fn kept_at(arena: &Arena, list: usize, right: Option<Id>, place: Option<usize>) -> Option<Id>
    requires list { list < count_of arena.now }
    requires place { IsPlaceOf arena.now right place }
    ensures { IsKeptRight arena.now list right result }
{
    is_sound(arena);
    let Some(place) = place else {
        return None;
    };
    if is_in(arena, list, place) {
        return right;
    }
    None
}

/// Whether a list has a place.
fn is_in(arena: &Arena, list: usize, place: usize) -> bool
    requires list { list < count_of arena.now }
    requires place { place < length (runs_of arena.now) }
    ensures here { result ≡ true → IsIn place (places_in arena.now list) }
    ensures other { result ≡ false → IsIn place (places_in arena.now list) → ⊥ }
{
    match arena.lists().list_of(place) {
        None => false,
        Some(number) => number == list,
    }
}

/// The place behind another in its list, where the run there begins with a unit.
pub fn next_begun(arena: &Arena, after: Option<usize>, id: Id) -> Option<usize>
    ensures begins { IfSome result (λ place. HasUnit (runs_of arena.now) place 0 id) }
{
    let lists = arena.lists();
    let after = after?;
    if after >= lists.len() {
        return None;
    }
    let place = lists.next(after)?;
    if begins(lists, place, id) {
        Some(place)
    } else {
        None
    }
}

/// Whether there is a run at a place, and it begins with a unit.
fn begins(lists: &Lists, place: usize, id: Id) -> bool
    ensures { result ≡ true → HasUnit lists.now.stretches place 0 id }
{
    if place >= lists.len() {
        return false;
    }
    let run = lists.stretch(place);
    run.len > 0 && run.id.client.0 == id.client.0 && run.id.clock == id.clock
}

/// Whether there is a run at a place, and it has a unit.
pub fn has_unit(arena: &Arena, place: usize, id: Id) -> bool
    ensures { result ≡ true → HasUnit (runs_of arena.now) place
        (id.clock - (stretch_at (runs_of arena.now) place).id.clock) id }
{
    let lists = arena.lists();
    if place >= lists.len() {
        return false;
    }
    let run = lists.stretch(place);
    run.id.client.0 == id.client.0 && run.id.clock <= id.clock && id.clock - run.id.clock < run.len
}

/// Whether a unit stands in a list.
pub fn stands_in(arena: &Arena, list: usize, id: Id) -> bool
    requires { list < count_of arena.now }
    ensures here { result ≡ true → StandsIn arena.now list id }
    ensures other { result ≡ false → StandsIn arena.now list id → ⊥ }
{
    let Some(found) = arena.find(id) else {
        return false;
    };
    match arena.lists().list_of(found.place) {
        None => false,
        Some(number) => number == list,
    }
}
