//! How the vectors of an arena grow.

ghost use Rattle.std.specs.Prelude.{◌≡◌, ◌<◌, ◌≤◌, ◌+◌, ◌^◌, ◌++◌, ◌∷◌, [], ℕ, length, OnOk, IsOk, slice_index, slice_set, vec_capacity};
ghost use Rattle.yd_chains.specs.Link.{AreSound, IsFree};
ghost use Rattle.yd_scan.specs.Stretches.{stretch_at};
ghost use Rattle.yd_index.specs.Lines.{next_of, room_of, Adds};
ghost use Rattle.yd_index.specs.Holding.{front_of, rest_of, cut_stretches};
ghost use Rattle.yd_arena.specs.Lists.{PutsBehind, TakesOut};

use std::alloc::AllocError;
use yd_chains::Chains;
use yd_ids::Id;
use yd_index::Index;
use yd_scan::Stretch;

/// Puts a run at the end, where there is memory for it.
pub fn push_stretch(stretches: &mut Vec<Stretch>, new: Stretch)
    requires { length stretches.old.items < vec_capacity stretches.old }
    ensures items { stretches.new.items ≡ stretches.old.items ++ new ∷ [] }
    ensures memory { vec_capacity stretches.old ≤ vec_capacity stretches.new }
{
    let _ = stretches.push(new);
}

/// The units of a run from one on, which is not its first.
fn rest_of(stretch: Stretch, n: u64) -> Stretch
    requires before { 0 < n }
    requires within { n ≤ stretch.len }
    requires fits { stretch.id.clock + n < 18446744073709551616 }
    ensures { result ≡ rest_of stretch n }
{
    let clock = stretch.id.clock + n;
    Stretch {
        id: Id {
            client: stretch.id.client,
            clock,
        },
        len: stretch.len - n,
        left: Some(Id {
            client: stretch.id.client,
            clock: clock - 1,
        }),
        right: stretch.right,
    }
}

/// Leaves so many units of a run, from its first on.
pub fn shorten(stretches: &mut Vec<Stretch>, place: usize, n: u64)
    requires { place < length stretches.old.items }
    ensures items { stretches.new.items ≡
        slice_set stretches.old.items place (front_of (stretch_at stretches.old.items place) n) }
    ensures memory { vec_capacity stretches.new ≡ vec_capacity stretches.old }
{
    stretches[place].len = n;
}

/// Cuts a run in two. The second part goes to the end, where there is memory for it.
pub fn cut_stretch(stretches: &mut Vec<Stretch>, place: usize, n: u64)
    requires inside { place < length stretches.old.items }
    requires before { 0 < n }
    requires within { n ≤ (stretch_at stretches.old.items place).len }
    requires fits { (stretch_at stretches.old.items place).id.clock + n < 18446744073709551616 }
    requires room { length stretches.old.items < vec_capacity stretches.old }
    ensures items { stretches.new.items ≡ cut_stretches stretches.old.items place n }
    ensures memory { vec_capacity stretches.old ≤ vec_capacity stretches.new }
{
    let rest = rest_of(stretches[place], n);
    shorten(stretches, place, n);
    push_stretch(stretches, rest);
}

/// Puts a place behind another in its list, if it is in one.
#[tactic(auto, using(crate::proofs::ListsLemmas::puts_behind, crate::proofs::ListsLemmas::puts_none))]
pub fn put_part(chains: &mut Chains, place: usize, more: usize)
    requires place { place < chains.old.count }
    requires more { more < chains.old.count }
    requires loose { IsFree chains.old more }
    ensures puts { PutsBehind chains.old.chains chains.new.chains place more }
    ensures sound { AreSound chains.old }
    ensures count { chains.new.count ≡ chains.old.count }
{
    let Some(list) = chains.chain_of(place) else {
        return;
    };
    chains.insert(list, Some(place), more);
}

/// Takes a place out of its list, if it is in one.
#[tactic(auto, using(crate::proofs::TakingLemmas::takes_out, crate::proofs::TakingLemmas::takes_none))]
pub fn take_part(chains: &mut Chains, place: usize)
    requires { place < chains.old.count }
    ensures taken { TakesOut chains.old.chains chains.new.chains place }
    ensures sound { AreSound chains.old }
    ensures count { chains.new.count ≡ chains.old.count }
{
    let Some(list) = chains.chain_of(place) else {
        return;
    };
    chains.remove(list, place);
}

/// Gives the scan marks for so many runs, each 0.
pub fn grow_marks(marks: &mut Vec<u64>, most: usize) -> Result<(), AllocError>
    ensures grown { OnOk result (most ≤ length marks.new.items) }
    ensures kept { length marks.old.items ≤ length marks.new.items }
    ensures succeeds { most ≤ length marks.old.items → IsOk result }
    ensures low { (bound : ℕ) → ((i : ℕ) → slice_index marks.old.items i ≤ bound) →
        (i : ℕ) → slice_index marks.new.items i ≤ bound }
{
    while marks.len() < most {
        marks.push(0)?;
    }
    Ok(())
}

/// Gives the lists places for so many runs.
pub fn grow_places(chains: &mut Chains, most: usize) -> Result<(), AllocError>
    ensures grown { OnOk result (most ≤ chains.new.count) }
    ensures kept { chains.old.count ≤ chains.new.count }
    ensures chains { chains.new.chains ≡ chains.old.chains }
    ensures succeeds { most ≤ chains.old.count → IsOk result }
{
    while chains.len() < most {
        chains.add_place()?;
    }
    Ok(())
}

/// From this mark on all are made 0 before a scan, so that the counter has room for one.
const LAST_MARK: u64 = 9223372036854775808;

/// Makes room for the numbers of one scan: a counter that is high begins at 0 again, with all marks.
#[tactic(auto, using(crate::proofs::ListsLemmas::low_zero))]
pub fn begin_scan(marks: &mut Vec<u64>, counter: &mut u64)
    requires { (i : ℕ) → slice_index marks.old.items i ≤ counter.old }
    ensures len { length marks.new.items ≡ length marks.old.items }
    ensures low { (i : ℕ) → slice_index marks.new.items i ≤ counter.new }
    ensures room { counter.new < 9223372036854775808 }
{
    if *counter < LAST_MARK {
        return;
    }
    clear_marks(marks);
    *counter = 0;
}

/// Makes each mark 0.
fn clear_marks(marks: &mut Vec<u64>)
    ensures len { length marks.new.items ≡ length marks.old.items }
    ensures zero { (i : ℕ) → slice_index marks.new.items i ≡ 0 }
{
    for i in 0..marks.len() {
        marks[i] = 0;
    }
}

/// Gives the index the entry of the next run of its client, where there is room for it.
pub fn add_entry(index: &mut Index, new: &Stretch, place: usize)
    requires filled { 0 < new.now.len }
    requires fits { next_of index.old new.now.id.client.0 + new.now.len < 2 ^ 64 }
    requires room { 0 < room_of index.old new.now.id.client.0 }
    ensures done { Adds index.old index.new new.now.id.client.0 place new.now.len }
    ensures rooms { (k : ℕ) → room_of index.old k ≤ room_of index.new k + 1 }
{
    let _ = index.add(new.id.client, place, new.len);
}
