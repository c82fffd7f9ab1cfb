//! The stretches of each list.

ghost use Rattle.std.specs.Prelude.{◌≡◌, ◌<◌, [], Some, true, length, replicate, slice_get};
ghost use Rattle.std.specs.Prelude.{Decides, IfOk, OnOk};
ghost use Rattle.yd_stretches.specs.Stretches.{AreGathered, Gathers};
ghost use Rattle.yd_stretches.specs.Stretches.{stretch_of, stretch_lists, with_last};

use crate::fault::NoMemory;
use std::alloc::Global;
use yd_order::Stretch;
use yd_received::{Entries, Entry, Place};

/// The stretches of each list with a mark, in the order of writing: one pass over the lists, and
/// one over what was taken. What waits or is lost is in no list.
pub fn gathered(
    alloc: Global,
    taken: &Entries,
    stale: &[bool],
) -> Result<Vec<Vec<Stretch>>, NoMemory>
    ensures { IfOk result (λ buckets.
        AreGathered stale.now taken.now (stretch_lists buckets.items)) }
{
    let mut buckets = empty_buckets(alloc, stale.len())?;
    for entry in taken.iter() {
        gather_one(&mut buckets, stale, entry)?;
    }
    Ok(buckets)
}

/// So many lists without a stretch.
fn empty_buckets(alloc: Global, count: usize) -> Result<Vec<Vec<Stretch>>, NoMemory>
    ensures { IfOk result (λ buckets. stretch_lists buckets.items ≡ replicate count []) }
{
    let mut buckets = Vec::new(alloc);
    for _ in 0..count {
        buckets.push(Vec::new(alloc))?;
    }
    Ok(buckets)
}

/// Puts the stretch of an entry behind those of its list, where that has a mark.
fn gather_one(buckets: &mut Vec<Vec<Stretch>>, stale: &[bool], entry: Entry) -> Result<(), NoMemory>
    requires { length buckets.old.items ≡ length stale.now }
    ensures { OnOk result (Gathers stale.now entry
        (stretch_lists buckets.old.items) (stretch_lists buckets.new.items)) }
{
    match entry.place {
        Place::In(n) if is_marked(stale, n) => put(buckets, n, stretch_of(entry))?,
        _ => {}
    }
    Ok(())
}

/// Whether the list with the number has a mark.
fn is_marked(stale: &[bool], n: usize) -> bool
    ensures { Decides result (slice_get stale.now n ≡ Some true) }
{
    n < stale.len() && stale[n]
}

/// The units of an entry as a stretch.
fn stretch_of(entry: Entry) -> Stretch
    ensures { result ≡ stretch_of entry }
{
    Stretch {
        id: entry.id,
        len: entry.len,
        left: entry.left,
        right: entry.right,
    }
}

/// Puts a stretch behind those of the list with the number.
fn put(buckets: &mut Vec<Vec<Stretch>>, n: usize, stretch: Stretch) -> Result<(), NoMemory>
    requires { n < length buckets.old.items }
    ensures { OnOk result (stretch_lists buckets.new.items
        ≡ with_last n stretch (stretch_lists buckets.old.items)) }
{
    buckets[n].push(stretch)?;
    Ok(())
}
