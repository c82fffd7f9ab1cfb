//! What waits, noted by what it lacks: of each client its next units, under an id not held.

ghost use Rattle.std.specs.Prelude.{◌≡◌, ◌≤◌, ◌+◌, ◌++◌, true, false, length, take, drop, map, slice_range, OnOk};
ghost use Rattle.yd_words.specs.Each.{Each};
ghost use Rattle.yd_held.specs.declared.noting.Lack.{Lack};
ghost use Rattle.yd_ids.specs.Id.{IsClock};
ghost use Rattle.yd_held.specs.Noted.{stands_before, same_lack, first_lack, with_lack, AreSorted, Wakes};

use crate::fault::NoMemory;
use yd_ids::{Client, Id, is_same, is_smaller};
use yd_received::Entry;

/// An id that a client's next units lack: they need it, and it is not held.
#[derive(Clone, Copy)]
pub struct Lack {
    /// The id that is not held.
    pub id: Id,
    /// Whose next units lack it.
    pub client: Client,
}

/// Notes a lack at its place, unless it is noted. It takes an insertion, and time with the logarithm
/// of how many are noted.
pub(crate) fn note(lacks: &mut Vec<Lack>, lack: Lack) -> Result<(), NoMemory>
    requires { AreSorted lacks.old.items }
    ensures { OnOk result (lacks.new.items ≡ with_lack lack lacks.old.items) }
{
    let at = place(lacks, lack);
    if at < lacks.len() && is_same_lack(lacks[at], lack) {
        return Ok(());
    }
    lacks.insert(at, lack)?;
    Ok(())
}

/// Takes out what lacked one of these units, which are held now: those clients are to be tried, and
/// the client of the units. It takes time with the logarithm of how many are noted and with how many
/// are taken out, and moves those behind them.
pub(crate) fn wake(
    lacks: &mut Vec<Lack>,
    tries: &mut Vec<Client>,
    held: Entry,
) -> Result<(), NoMemory>
    requires sorted { AreSorted lacks.old.items }
    requires end { IsClock (held.id.clock + held.len) }
    ensures { OnOk result (Wakes held lacks.old.items lacks.new.items
        tries.old.items tries.new.items) }
{
    // Mostly nothing is lacked.
    if lacks.is_empty() {
        tries.push(held.id.client)?;
        return Ok(());
    }
    let end = Id {
        client: held.id.client,
        clock: held.id.clock + held.len,
    };
    let first = place(lacks, first_lack(held.id));
    let last = place(lacks, first_lack(end));
    try_between(lacks, first, last, tries)?;
    tries.push(held.id.client)?;
    take_out(lacks, first, last);
    Ok(())
}

/// Takes out the lacks between two places.
fn take_out(lacks: &mut Vec<Lack>, first: usize, last: usize)
    requires { (first ≤ last) × (last ≤ length lacks.old.items) }
    ensures { lacks.new.items ≡ take first lacks.old.items ++ drop last lacks.old.items }
{
    lacks.drain(first..last);
}

/// Puts the clients of the lacks between two places behind those that are to be tried.
fn try_between(
    lacks: &[Lack],
    first: usize,
    last: usize,
    tries: &mut Vec<Client>,
) -> Result<(), NoMemory>
    requires { (first ≤ last) × (last ≤ length lacks.now) }
    ensures { OnOk result (tries.new.items
        ≡ tries.old.items ++ map (λ (l : Lack). l.client) (slice_range lacks.now first last)) }
{
    for lack in &lacks[first..last] {
        tries.push(lack.client)?;
    }
    Ok(())
}

/// The lack of an id that stands before all others of it.
fn first_lack(id: Id) -> Lack
    ensures { result ≡ first_lack id }
{
    Lack {
        id,
        client: Client(0),
    }
}

/// How many lacks stand before this one.
fn place(lacks: &[Lack], lack: Lack) -> usize
    requires { AreSorted lacks.now }
    ensures bound { result ≤ length lacks.now }
    ensures before { Each (λ l. stands_before l lack ≡ true) (take result lacks.now) }
    ensures behind { Each (λ l. stands_before l lack ≡ false) (drop result lacks.now) }
{
    lacks.partition_point(|other| stands_before(*other, lack))
}

/// The first stands before the second: by the id that is lacked, then by the client.
fn stands_before(a: Lack, b: Lack) -> bool
    ensures { result ≡ stands_before a b }
{
    is_smaller(a.id, b.id) || (is_same(a.id, b.id) && a.client.0 < b.client.0)
}

/// Both are one.
fn is_same_lack(a: Lack, b: Lack) -> bool
    ensures { result ≡ same_lack a b }
{
    is_same(a.id, b.id) && a.client.0 == b.client.0
}
