//! What is deleted and what waits when more is held or named.

ghost use Rattle.std.specs.Prelude.{◌≡◌, true, [], IfOk, OnOk, OnErr};
ghost use Rattle.yd_ids.specs.Set.{union_of};
ghost use Rattle.yd_arena.specs.Arena.{count_of};
ghost use Rattle.yd_kept.specs.Telling.{IsSoundStore};
ghost use Rattle.yd_kept.specs.Kept.{KeepsHeld};
ghost use Rattle.yd_kept.specs.Marking.{AreHeld, AreParted};
ghost use Rattle.yd_received.specs.Received.{held_of};
ghost use Rattle.yd_listing.specs.Falling.{IsTold};
ghost use Rattle.yd_state.specs.Back.{CanBeTakenOut};
ghost use Rattle.yd_state.specs.Placing.{KeepsIds, KeepsAll, CanBePlaced};
ghost use Rattle.yd_state.specs.Settling.{grown_to, DeletesBy, DeletesOn, DeletesAnew, MarksOn, MarksAnew, ListsGrow};
ghost use Rattle.yd_state.specs.Settling.{CanSettle, known_of, Settles};
ghost use Rattle.yd_state.specs.Telling.{CanBeLess, LeavesLess};

use crate::back::put_out;
use crate::coming::came_of;
use crate::fault::NoMemory;
use crate::less::{Less, ready, tell};
use crate::placing::place;
use crate::sets::Sets;
use crate::twin::TwinSet;
use crate::waiting::part_above;
use yd_held::Held;
use yd_ids::IdSet;
use yd_kept::Kept;
use yd_listing::deletions_besides;

/// What is deleted besides, since entries came into a store.
#[derive(Drop)]
pub(crate) struct Fallen {
    /// The ids that fall.
    pub besides: IdSet,
    /// What the deleted ids grow to with them; None where these are as before.
    pub grown: Option<IdSet>,
}

/// What is to be done in a store whose runs are parted for it.
#[derive(Drop)]
pub(crate) struct Parted {
    /// What is deleted besides.
    pub fallen: Fallen,
    /// What is told less.
    pub less: Vec<Less>,
}

/// Places what became held, tells less of the entries that are `told`, and marks what is deleted then.
/// The sets get what is named besides, what waits and what is deleted. Where all was held anew,
/// another store takes the place of the one that was there. Where memory ends, no unit has changed,
/// and no set.
pub(crate) fn settle(
    kept: &mut Kept,
    held: &Held,
    anew: bool,
    told: &[usize],
    order: &[usize],
    sets: &mut Sets,
    more: IdSet,
) -> Result<(), NoMemory>
    requires { CanSettle anew held.now told.now order.now kept.old }
    ensures settled { OnOk result (Settles anew held.now sets.old more kept.old kept.new
        sets.new.waiting sets.new.deletes) }
    ensures named { OnOk result (sets.new.named ≡ union_of sets.old.named more) }
    ensures unchanged { OnErr result (KeepsHeld kept.old kept.new) }
    ensures sets { OnErr result (sets.new ≡ sets.old) }
{
    let alloc = held.received().allocator();
    let waiting = part_above(alloc, known(sets, anew), &more, held.vector())?;
    let named = sets.named.grown(&more)?;
    if anew {
        settle_anew(
            kept,
            held,
            order,
            sets.named.ids(),
            &mut sets.deletes,
            &more,
        )?;
    } else {
        settle_on(
            kept,
            held,
            told,
            order,
            &mut sets.deletes,
            &sets.waiting,
            &more,
        )?;
    }
    sets.named.put(named, more);
    sets.waiting = waiting;
    Ok(())
}

/// The named ids that may wait.
fn known(sets: &Sets, anew: bool) -> &IdSet
    ensures { result.now ≡ known_of anew sets.now }
{
    if anew {
        sets.named.ids()
    } else {
        &sets.waiting
    }
}

/// Places all that is held in a store that takes the place of the one that was there, and finds what is
/// deleted. Where memory ends, nothing has changed.
fn settle_anew(
    kept: &mut Kept,
    held: &Held,
    order: &[usize],
    named: &IdSet,
    deletes: &mut TwinSet,
    more: &IdSet,
) -> Result<(), NoMemory>
    requires { CanSettle true held.now [] order.now kept.old }
    ensures all { OnOk result (KeepsAll (held_of held.now.received) kept.new) }
    ensures store { OnOk result (IsSoundStore kept.new.store) }
    ensures deletes { OnOk result (DeletesAnew held.now named.now more.now kept.new deletes.new) }
    ensures marks { OnOk result (MarksAnew held.now kept.new deletes.new) }
    ensures unchanged { OnErr result (kept.new ≡ kept.old) }
    ensures as_it_was { OnErr result (deletes.new ≡ deletes.old) }
{
    let alloc = held.received().allocator();
    let mut fresh = Kept::new(alloc);
    let mut fallen = TwinSet::new(alloc);
    // That both are sound says that nothing was held there before.
    let _ = fresh.store();
    settle_on(&mut fresh, held, &[], order, &mut fallen, named, more)?;
    *kept = fresh;
    *deletes = fallen;
    Ok(())
}

/// Places what became held, marks what falls, tells less of what was held, and lets the deleted ids
/// grow. Where memory ends, no unit has changed, and no deleted id.
fn settle_on(
    kept: &mut Kept,
    held: &Held,
    told: &[usize],
    order: &[usize],
    deletes: &mut TwinSet,
    waiting: &IdSet,
    more: &IdSet,
) -> Result<(), NoMemory>
    requires placed { CanBePlaced held.now order.now kept.old }
    requires less { CanBeLess held.now told.now kept.old.store }
    ensures all { OnOk result (KeepsAll (held_of held.now.received) kept.new) }
    ensures store { OnOk result (IsSoundStore kept.new.store) }
    ensures deletes { OnOk result (DeletesOn held.now deletes.old waiting.now more.now
        kept.old kept.new deletes.new) }
    ensures marks { OnOk result (MarksOn held.now kept.old kept.new deletes.old deletes.new) }
    ensures grows { OnOk result (ListsGrow held.now kept.old kept.new) }
    ensures unchanged { OnErr result (KeepsHeld kept.old kept.new) }
    ensures as_it_was { OnErr result (deletes.new ≡ deletes.old) }
{
    // What is held, and that the store is sound, says where each unit stands.
    let _ = held.received();
    place(kept, held, order)?;
    let _ = kept.store();
    match parted_then(kept, held, told, order, deletes, waiting, more) {
        Ok(Parted { fallen, less }) => {
            let Fallen { besides, grown } = fallen;
            kept.mark_each(&besides);
            let _ = kept.store();
            tell(kept, held, less);
            let _ = kept.store();
            deletes.put(grown, besides);
            Ok(())
        }
        Err(NoMemory) => {
            put_out(kept, held, order);
            Err(NoMemory)
        }
    }
}

/// What falls, since entries came into the store, and what is told less there. Its runs are parted
/// for both. Where memory ends, no unit has changed either.
fn parted_then(
    kept: &mut Kept,
    held: &Held,
    told: &[usize],
    order: &[usize],
    deletes: &mut TwinSet,
    waiting: &IdSet,
    more: &IdSet,
) -> Result<Parted, NoMemory>
    requires ids { KeepsIds (held_of held.now.received) kept.old }
    requires less { CanBeLess held.now told.now kept.old.store }
    requires store { IsSoundStore kept.old.store }
    requires came { CanBeTakenOut held.now order.now kept.old }
    ensures deletes { IfOk result (λ parted. DeletesBy held.now order.now kept.old deletes.old
        waiting.now more.now parted.fallen.besides (grown_to deletes.old parted.fallen.grown)) }
    ensures held { IfOk result (λ parted. AreHeld kept.new.store parted.fallen.besides) }
    ensures parted { IfOk result (λ parted. AreParted kept.new.store parted.fallen.besides) }
    ensures less { IfOk result (λ parted. LeavesLess held.now parted.less.items kept.new.store) }
    ensures kept { KeepsHeld kept.old kept.new }
    ensures names { kept.new.names ≡ kept.old.names }
    ensures count { count_of kept.new.store.placed ≡ count_of kept.old.store.placed }
    ensures as_it_was { deletes.new ≡ deletes.old }
{
    // What is held says that no unit of a list is gone.
    let _ = held.received();
    let fallen = fallen_then(kept, held, order, deletes, waiting, more)?;
    kept.part_each(&fallen.besides)?;
    // That the store is sound says that each held unit is found.
    let _ = kept.store();
    let less = ready(kept, held, told)?;
    Ok(Parted { fallen, less })
}

/// What falls, since entries came into the store.
fn fallen_then(
    kept: &Kept,
    held: &Held,
    order: &[usize],
    deletes: &mut TwinSet,
    waiting: &IdSet,
    more: &IdSet,
) -> Result<Fallen, NoMemory>
    requires ids { KeepsIds (held_of held.now.received) kept.now }
    requires told { IsTold kept.now }
    requires came { CanBeTakenOut held.now order.now kept.now }
    ensures deletes { IfOk result (λ fallen. DeletesBy held.now order.now kept.now deletes.old
        waiting.now more.now fallen.besides (grown_to deletes.old fallen.grown)) }
    ensures held { IfOk result (λ fallen. AreHeld kept.now.store fallen.besides) }
    ensures as_it_was { deletes.new ≡ deletes.old }
{
    let alloc = held.received().allocator();
    let came = came_of(alloc, kept, held, order)?;
    let besides = deletions_besides(alloc, kept, deletes.ids(), waiting, more, &came)?;
    let grown = deletes.grown(&besides)?;
    Ok(Fallen { besides, grown })
}
