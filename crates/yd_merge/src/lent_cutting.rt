//! Cutting what is lent by a vector.

ghost use Rattle.std.specs.Prelude.{◌≡◌, ◌+◌, map, IfOk, OnOk};
ghost use Rattle.yd_words.specs.Each.{Each};
ghost use Rattle.yd_ids.specs.Id.{IsClock};
ghost use Rattle.yd_ids.specs.Vector.{clock_of};
ghost use Rattle.yd_ops.specs.View.{update_value};
ghost use Rattle.yd_grouping.specs.Building.{all_pushed};
ghost use Rattle.yd_grouping.specs.Grouped.{grouping_of};
ghost use Rattle.yd_grouping.specs.Groups.{operations_of_groups};
ghost use Rattle.yd_grouping.specs.Merged.{cut_of};
ghost use Rattle.yd_building.specs.Builder.{built_of};
ghost use Rattle.yd_merge.specs.Cutting.{cut_gone, cut_lent, whole_entry};
ghost use Rattle.yd_merge.specs.Lending.{IsLent, AreInTurn, lent_group};

use crate::cutting::push_cut;
use crate::fault::NoMemory;
use crate::lending::Lent;
use std::alloc::Global;
use std::slice::from_ref;
use yd_building::{Builder, Group};
use yd_ids::{Id, IdSet, Vector};
use yd_ops::{Run, Update};
use yd_received::{Entry, Place};

/// What is lent from a vector on, as one grouped update with these deletions. It takes a look-up for
/// each struct, and the time and memory of what it writes.
pub fn cut_lent(
    alloc: Global,
    lents: &[Lent<'_>],
    vector: &Vector,
    deletes: IdSet,
) -> Result<Update, NoMemory>
    requires each { Each IsLent lents.now }
    requires in_turn { AreInTurn (map lent_group lents.now) }
    ensures { IfOk result (λ update. update_value update
        ≡ grouping_of (cut_of (operations_of_groups (map lent_group lents.now))
        (clock_of vector.now)) deletes) }
{
    let mut builder = Builder::new(alloc);
    for lent in lents {
        let clock = vector.get(lent.id.client);
        push_lent(alloc, &mut builder, lent, clock)?;
    }
    let update = builder.finish(deletes)?;
    Ok(update)
}

/// Puts what is lent and in the cut at a clock behind what is built.
fn push_lent(
    alloc: Global,
    builder: &mut Builder,
    lent: &Lent<'_>,
    clock: u64,
) -> Result<(), NoMemory>
    requires { IsLent lent.now }
    ensures { OnOk result (built_of builder.new
        ≡ all_pushed (built_of builder.old) (cut_lent clock lent.now)) }
{
    match lent.run {
        None => push_gone(builder, lent.id, lent.len, clock),
        Some(run) => push_cut(alloc, builder, from_ref(run), whole_entry(run), clock),
    }
}

/// Puts those of so many gone units that are in the cut at a clock behind what is built.
fn push_gone(builder: &mut Builder, id: Id, len: u64, clock: u64) -> Result<(), NoMemory>
    requires { IsClock (id.clock + len) }
    ensures { OnOk result (built_of builder.new
        ≡ all_pushed (built_of builder.old) (cut_gone clock id len)) }
{
    let below = clock.saturating_sub(id.clock);
    if below < len {
        let first = Id {
            client: id.client,
            clock: id.clock + below,
        };
        builder.push(Group::Gone(first, len - below))?;
    }
    Ok(())
}

/// All units of a run, as an entry of it alone.
fn whole_entry(run: &Run) -> Entry
    ensures { result ≡ whole_entry run.now }
{
    Entry {
        id: run.id,
        len: run.len(),
        left: run.left,
        right: run.right,
        run: 0,
        offset: 0,
        is_gone: false,
        place: Place::Waits,
    }
}
