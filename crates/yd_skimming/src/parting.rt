//! The part of a struct that is in a cut.

ghost use Rattle.std.specs.Prelude.{◌≡◌, ◌+◌, ◌<◌, [], ◌∷◌, false, map, IfOk};
ghost use Rattle.yd_ops.specs.Value.{clocks_of, len_of};
ghost use Rattle.yd_ops.specs.View.{content_value, struct_value};
ghost use Rattle.yd_building.specs.Builder.{group_value};
ghost use Rattle.yd_entries.specs.Entries.{IsTakenOf};
ghost use Rattle.yd_fields.specs.Lent.{lent_struct};
ghost use Rattle.yd_fields.specs.declared.lent.LentStruct.TheVariants.{Made};
ghost use Rattle.yd_merge.specs.Cutting.{behind, cut_entry, cut_gone, cut_lent};
ghost use Rattle.yd_merge.specs.Cutting.{left_out, parts_content, whole_entry};
ghost use Rattle.yd_merge.specs.Told.{group_of_entry};
ghost use Rattle.yd_reading.specs.Taking.{IsPlaced};
ghost use Rattle.yd_skimming.specs.Parting.{is_skip, lent_at, text_run};

use std::alloc::Global;
use std::slice::from_ref;
use yd_building::Group;
use yd_entries::{Entry, Place};
use yd_fields::{LentRun, LentStruct};
use yd_ids::Id;
use yd_merge::group_of;
use yd_ops::{Content, List, Run, Struct};
use yd_parts::NoMemory;
use yd_units::Units;

/// Of a struct at an id, which begins below a clock and ends above it, what is in the cut at that
/// clock, in memory of its own. These are its units from there on. Where that would part a pair,
/// the high half is in the cut too.
#[cold]
pub fn part_of(alloc: Global, id: Id, entry: &LentStruct<'_>, clock: u64) -> Result<Group, NoMemory>
    requires placed { IsPlaced id (lent_struct entry.now) }
    requires units { is_skip (lent_struct entry.now) ≡ false }
    requires begins { id.clock < clock }
    requires ends { clock < id.clock + clocks_of (lent_struct entry.now) }
    ensures { IfOk result (λ group. cut_lent clock (lent_at id entry.now)
        ≡ group_value group ∷ []) }
{
    match entry {
        LentStruct::Text(run) => {
            let run = owned(alloc, run)?;
            part_of_run(alloc, &run, clock)
        }
        LentStruct::Made(entry) => part_of_made(alloc, id, entry, clock),
    }
}

/// The same of a struct that is not lent.
fn part_of_made(alloc: Global, id: Id, entry: &Struct, clock: u64) -> Result<Group, NoMemory>
    requires placed { IsPlaced id (struct_value entry.now) }
    requires units { is_skip (struct_value entry.now) ≡ false }
    requires begins { id.clock < clock }
    requires ends { clock < id.clock + clocks_of (struct_value entry.now) }
    ensures { IfOk result (λ group. cut_lent clock (lent_at id (Made entry.now))
        ≡ group_value group ∷ []) }
{
    match entry {
        Struct::Item(run) => part_of_run(alloc, run, clock),
        Struct::Skip(count) => Ok(part_of_gone(id, *count, clock)),
        Struct::Gone(count) => Ok(part_of_gone(id, *count, clock)),
    }
}

/// The run of a text, in memory of its own.
fn owned(alloc: Global, run: &LentRun<'_>) -> Result<Run, NoMemory>
    ensures { IfOk result (λ owned. owned ≡ text_run run.now) }
{
    let list = copied(&run.list)?;
    let units = Units::from_text(alloc, run.text.as_str())?;
    Ok(Run {
        id: run.id,
        left: run.left,
        right: run.right,
        list,
        content: Content::Str(units),
    })
}

/// A list, if there is one, in memory of its own.
fn copied(list: &Option<List>) -> Result<Option<List>, NoMemory>
    ensures { IfOk result (λ copy. copy ≡ list.now) }
{
    match list {
        None => Ok(None),
        Some(list) => match list.copy() {
            Err(_) => Err(NoMemory),
            Ok(copy) => Ok(Some(copy)),
        },
    }
}

/// The same of a run.
fn part_of_run(alloc: Global, run: &Run, clock: u64) -> Result<Group, NoMemory>
    requires taken { IsTakenOf (run.now ∷ []) (whole_entry run.now) }
    requires begins { run.now.id.clock < clock }
    requires ends { clock < run.now.id.clock + len_of (content_value run.now.content) }
    ensures { IfOk result (λ group. map (group_of_entry (run.now ∷ []))
        (cut_entry (run.now ∷ []) clock (whole_entry run.now)) ≡ group_value group ∷ []) }
{
    let n = left_out(run, clock);
    let entry = behind(run, n);
    match group_of(alloc, from_ref(run), entry) {
        Err(_) => Err(NoMemory),
        Ok(group) => Ok(group),
    }
}

/// How many of a run's first units are not in the cut at a clock.
fn left_out(run: &Run, clock: u64) -> u64
    requires begins { run.now.id.clock < clock }
    requires ends { clock < run.now.id.clock + len_of (content_value run.now.content) }
    ensures left { result ≡ left_out (run.now ∷ []) clock (whole_entry run.now) }
    ensures inside { result < len_of (content_value run.now.content) }
{
    let below = clock - run.id.clock;
    if is_cut(&run.content, below) {
        return below - 1;
    }
    below
}

/// A cut before unit `n` of a content would part a pair.
fn is_cut(content: &Content, n: u64) -> bool
    ensures { result ≡ parts_content (content_value content.now) n }
{
    match content {
        Content::Str(units) => units.is_cut(n),
        _ => false,
    }
}

/// The units of a run behind its first `n`, as an entry of it alone.
fn behind(run: &Run, n: u64) -> Entry
    requires taken { IsTakenOf (run.now ∷ []) (whole_entry run.now) }
    requires inside { n < len_of (content_value run.now.content) }
    ensures { result ≡ behind (whole_entry run.now) n }
{
    let client = run.id.client;
    let clock = run.id.clock + n;
    let left = if n == 0 {
        run.left
    } else {
        Some(Id {
            client,
            clock: clock - 1,
        })
    };
    Entry {
        id: Id { client, clock },
        len: run.len() - n,
        left,
        right: run.right,
        run: 0,
        offset: n,
        is_gone: false,
        place: Place::Waits,
    }
}

/// The same of so many gone units.
fn part_of_gone(id: Id, count: u64, clock: u64) -> Group
    requires begins { id.clock < clock }
    requires ends { clock < id.clock + count }
    ensures { cut_gone clock id count ≡ group_value result ∷ [] }
{
    let first = Id {
        client: id.client,
        clock,
    };
    Group::Gone(first, count - (clock - id.clock))
}
