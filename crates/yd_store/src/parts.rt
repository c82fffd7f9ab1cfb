//! Changes of all parts of a store together.

ghost use Rattle.std.specs.Prelude.{◌≡◌, ◌<◌, ◌≤◌, ◌++◌, ◌∷◌, [], ℕ, length, take, IfOk, OnOk, OnErr, IsOk, min};
ghost use Rattle.yd_arena.specs.Lists.{AreLists};
ghost use Rattle.yd_arena.specs.Arena.{runs_of, room_for, count_of, IsArena};
ghost use Rattle.yd_store.specs.Store.{KeepsParts, KeepsRuns};

use crate::contents::Contents;
use std::alloc::AllocError;
use yd_arena::{Arena, Marks};
use yd_ids::{Client, Id};

/// Makes room for so many runs of a client in all parts, or finds no memory for it.
pub fn reserve_parts(
    arena: &mut Arena,
    marks: &mut Marks,
    contents: &mut Contents,
    client: Client,
    more: usize,
) -> Result<(), AllocError>
    ensures kept { KeepsParts arena.old marks.old contents.old arena.new marks.new contents.new }
    ensures rooms { (k : ℕ) → room_for arena.old k ≤ room_for arena.new k }
    ensures marks_kept { marks.old.room ≤ marks.new.room }
    ensures contents_kept { contents.old.room ≤ contents.new.room }
    ensures room { OnOk result (more ≤
        min (room_for arena.new client.0) (min marks.new.room contents.new.room)) }
    ensures lists { AreLists arena.old.linked }
    ensures succeeds { 0 < more → more ≤ room_for arena.old client.0 → more ≤ marks.old.room →
        more ≤ contents.old.room → IsOk result }
{
    // What this reads is a fact for callers: no list has a place twice.
    let _ = arena.lists();
    arena.reserve(client, more)?;
    marks.reserve(more)?;
    contents.reserve(more)?;
    Ok(())
}

/// Takes memory in all parts for so many runs ahead, or finds none.
pub fn reserve_ahead(
    arena: &mut Arena,
    marks: &mut Marks,
    contents: &mut Contents,
    more: usize,
) -> Result<(), AllocError>
    ensures kept { KeepsParts arena.old marks.old contents.old arena.new marks.new contents.new }
    ensures rooms { (k : ℕ) → room_for arena.old k ≤ room_for arena.new k }
    ensures marks_kept { marks.old.room ≤ marks.new.room }
    ensures contents_kept { contents.old.room ≤ contents.new.room }
    ensures lists { AreLists arena.old.linked }
{
    // What this reads is a fact for callers: no list has a place twice.
    let _ = arena.lists();
    arena.reserve_places(more)?;
    marks.reserve(more)?;
    contents.reserve(more)?;
    Ok(())
}

/// Adds a list, without units, to the arena and to the counts, or to neither.
pub fn add_list_parts(arena: &mut Arena, marks: &mut Marks) -> Result<usize, AllocError>
    ensures number { IfOk result (λ list. list ≡ count_of arena.old) }
    ensures lists { OnOk result (arena.new.linked.lists ≡ arena.old.linked.lists ++ [] ∷ []) }
    ensures live { OnOk result (marks.new.live ≡ marks.old.live ++ 0 ∷ []) }
    ensures no_list { OnErr result (arena.new.linked.lists ≡ arena.old.linked.lists) }
    ensures no_count { OnErr result (marks.new.live ≡ marks.old.live) }
    ensures kept { KeepsRuns arena.old marks.old arena.new marks.new }
{
    marks.add_list()?;
    match arena.add_list() {
        Ok(list) => Ok(list),
        Err(fault) => {
            marks.drop_list();
            Err(fault)
        }
    }
}

/// That the index finds the runs, and no list has a place twice, as facts for callers.
pub fn is_sound(arena: &Arena)
    ensures arena { IsArena arena.now.lines (runs_of arena.now) }
    ensures lists { AreLists arena.now.linked }
{
    let _ = arena.lists();
    // No unit has this clock, so nothing is looked up.
    let _ = arena.find(Id {
        client: Client(0),
        clock: u64::MAX,
    });
}
