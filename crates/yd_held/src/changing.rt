//! An update is taken in, and what can be held then is held.

ghost use Rattle.std.specs.Prelude.{◌≡◌, ◌↔◌, ◌⊎◌, ◌≤◌, ◌<◌, [], length, filter, IsTrue, OnOk, IfOk, IfSome, IfNone};
ghost use Rattle.yd_words.specs.Each.{Each};
ghost use Rattle.yd_ops.specs.Operation.{operations_of};
ghost use Rattle.yd_ops.specs.Valid.{IsValidUpdate};
ghost use Rattle.yd_ops.specs.View.{update_value};
ghost use Rattle.yd_ops.specs.Received.{with_groups, groups_of};
ghost use Rattle.yd_received.specs.Received.{taken_of, brings, LowersOne};
ghost use Rattle.yd_entries.specs.Taking.{BringsOperation};
ghost use Rattle.yd_held.specs.Changing.{KeepsNumbers, IsOf, back_to};
ghost use Rattle.yd_held.specs.Held.{held_value, HoldsAll};
ghost use Rattle.yd_held.specs.Holding.{IsHolding, HoldsRest, OnlyHolds};
ghost use Rattle.yd_held.specs.Joining.{CameAlone, NoneCameAlone};
ghost use Rattle.yd_held.specs.Noted.{AreNoted, AreMissing};
ghost use Rattle.yd_held.specs.Turn.{HoldsInTurn, TellsOrder};
ghost use Rattle.yd_held.specs.Noted.{AreSorted};
ghost use Rattle.yd_held.specs.Turn.{LosesOne};
ghost use Rattle.yd_held.specs.declared.parts.Kept.TheVariants.{All};
ghost use Rattle.yd_entries.specs.Entries.{is_of_first};
ghost use Rattle.yd_received.specs.Received.{all_waiting};

use crate::fault::NoMemory;
use crate::holding::hold_all;
use crate::parts::{Before, HeldParts, Kept};
use crate::telling::{held_less, loses_one};
use crate::trying::{clients_from, clients_of};
use std::mem;
use yd_ids::Vector;
use yd_names::Names;
use yd_ops::Update;
use yd_received::{Brought, Entries};

/// What a change of what is held did.
#[derive(Drop)]
pub(crate) struct Changed {
    /// An operation had a new id, or said less than the one that was there.
    pub brings: bool,
    /// All was held anew, since a unit that was in a list is gone.
    pub anew: bool,
    /// The numbers of entries that were held before and are gone, deleted or U+FFFD; each of which less
    /// is told is among them. Where all was held anew there are none.
    pub told: Vec<usize>,
    /// The numbers of the entries that became held, in the order in which they did.
    pub order: Vec<usize>,
    /// The number of the entry that became held, where no other did and no other is of the last run.
    pub single: Option<usize>,
}

/// Takes the update in, and holds what can be held then. What is held stays so at its places, though
/// less may be told of it; where a unit that was in a list is gone, all is held anew. Where memory
/// ends, what was held can be put back.
pub(crate) fn change(
    held: &mut HeldParts,
    before: &mut Before,
    update: Update,
) -> Result<Changed, NoMemory>
    requires update { IsValidUpdate (update_value update) }
    requires holds { HoldsAll (held_value held.old) }
    requires before { IsOf (held_value held.old) before.old }
    ensures received { OnOk result (taken_of held.new.received
        ≡ with_groups (groups_of (update_value update)) (taken_of held.old.received)) }
    ensures brings { IfOk result (λ changed. IsTrue changed.brings
        ↔ BringsOperation (update_value update) (taken_of held.old.received)) }
    ensures anew { IfOk result (λ changed. IsTrue changed.anew
        → LowersOne (operations_of (update_value update)) (taken_of held.old.received)
        × LosesOne (held_value held.old) (held_value held.new)) }
    ensures order { IfOk result (λ changed. TellsOrder changed.anew changed.told.items
        changed.order.items (held_value held.old) (held_value held.new)) }
    ensures numbers { IfOk result (λ changed. KeepsNumbers changed.anew
        held.old.names held.new.names) }
    ensures single { IfOk result (λ changed. IfSome changed.single
        (CameAlone changed.order.items (held_value held.new))) }
    ensures together { IfOk result (λ changed. IfNone changed.single
        (LowersOne (operations_of (update_value update)) (taken_of held.old.received)
        ⊎ NoneCameAlone (length held.old.received.runs) (length held.old.received.entries)
        changed.order.items (held_value held.new))) }
    ensures holds { OnOk result (HoldsAll (held_value held.new)) }
    ensures back { back_to before.new (held_value held.new) ≡ held_value held.old }
{
    let alloc = held.received.allocator();
    let from = held.received.runs().len();
    let count = held.received.entries().len();
    let brought = held.received.take(update)?;
    let brings = brings(&brought);
    if let Brought::Lowered(entries) = brought {
        if loses_one(held.received.entries()) {
            set_aside(held, before, entries);
            let order = hold_more(held)?;
            return Ok(Changed {
                brings,
                anew: true,
                told: Vec::new(alloc),
                order,
                single: None,
            });
        }
        before.kept = Kept::Entries(entries, held.names.len());
        let told = held_less(alloc, held.received.entries(), from)?;
        let order = hold_more(held)?;
        return Ok(Changed {
            brings,
            anew: false,
            told,
            order,
            single: None,
        });
    }
    let order = hold_new(held, from)?;
    let single = single_of(held, from, count, &order);
    Ok(Changed {
        brings,
        anew: false,
        told: Vec::new(alloc),
        order,
        single,
    })
}

/// The number of the entry that became held, where it alone is new, and all that is of the one new
/// run. So many runs and entries there were before.
fn single_of(held: &HeldParts, from: usize, count: usize, order: &[usize]) -> Option<usize>
    requires from { from ≤ length held.now.received.runs }
    requires inside { Each (λ at. at < length held.now.received.entries) order.now }
    requires were { length (filter (is_of_first from) held.now.received.entries) ≡ count }
    ensures single { IfSome result (CameAlone order.now (held_value held.now)) }
    ensures none { IfNone result (NoneCameAlone from count order.now (held_value held.now)) }
{
    let runs = held.received.runs();
    let entries = held.received.entries();
    if runs.len() - from != 1 || entries.len() - count != 1 || order.len() != 1 {
        return None;
    }
    let at = order[0];
    if entries.get(at).run != from {
        return None;
    }
    Some(at)
}

/// An operation had a new id, or said less than the one that was there.
fn brings(brought: &Brought) -> bool
    ensures { result ≡ brings brought.now }
{
    match brought {
        Brought::Nothing => false,
        _ => true,
    }
}

/// Holds what can be held when the runs from one on are new.
fn hold_new(held: &mut HeldParts, from: usize) -> Result<Vec<usize>, NoMemory>
    requires from { from ≤ length held.old.received.runs }
    requires holding { IsHolding (held_value held.old) }
    requires noted { AreNoted held.old.vector held.old.received.runs held.old.lacks.items []
        (filter (is_of_first from) held.old.received.entries) }
    requires missing { AreMissing held.old.vector held.old.lacks.items }
    ensures held { OnOk result (HoldsRest (held_value held.old) (held_value held.new)) }
    ensures turn { IfOk result (λ order.
        HoldsInTurn order.items (held_value held.old) (held_value held.new)) }
    ensures only { OnlyHolds (held_value held.old) (held_value held.new) }
{
    let alloc = held.received.allocator();
    let tries = clients_from(alloc, held.received.runs(), from)?;
    let order = hold_all(held, tries)?;
    Ok(order)
}

/// Lets all wait, and puts aside which lists there are and what is lacked.
fn set_aside(held: &mut HeldParts, before: &mut Before, entries: Entries)
    ensures held { held_value held.new ≡ record {
      received = all_waiting held.old.received;
      vector = [];
      names = [];
      lacks = [];
    } }
    ensures before { before.new ≡ record {
      runs = before.old.runs;
      kept = All entries held.old.names;
      vector = before.old.vector;
      lacks = before.old.lacks;
    } }
{
    let alloc = held.received.allocator();
    let lists = mem::replace(&mut held.names, Names::new(alloc));
    before.kept = Kept::All(entries, lists);
    held.received.wait_all();
    held.vector = Vector::new(alloc);
    held.lacks = Vec::new(alloc);
}

/// Holds what can be held besides what is, whatever is noted of it.
fn hold_more(held: &mut HeldParts) -> Result<Vec<usize>, NoMemory>
    requires holding { IsHolding (held_value held.old) }
    requires sorted { AreSorted held.old.lacks.items }
    requires missing { AreMissing held.old.vector held.old.lacks.items }
    ensures held { OnOk result (HoldsRest (held_value held.old) (held_value held.new)) }
    ensures turn { IfOk result (λ order.
        HoldsInTurn order.items (held_value held.old) (held_value held.new)) }
    ensures only { OnlyHolds (held_value held.old) (held_value held.new) }
{
    let alloc = held.received.allocator();
    let tries = clients_of(alloc, held.received.entries())?;
    let order = hold_all(held, tries)?;
    Ok(order)
}
