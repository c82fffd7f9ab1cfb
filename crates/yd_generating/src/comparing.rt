//! Whether replicas are equal.

ghost use Rattle.std.specs.Prelude.{◌≡◌, ◌↔◌, ◌&&◌, IfOk, IfErr, IsTrue};
ghost use Rattle.yd_generator.specs.Generated.{text_list};
ghost use Rattle.yd_generator.specs.Law.{AreAlike, AreEqual};
ghost use Rattle.yd_generator.specs.Plain.{AreShared, IsOfThree, IsPlain};
ghost use Rattle.yd_doc.specs.Kept.{received_of};
ghost use Rattle.yd_generating.specs.Replicas.{received_by};
ghost use Rattle.yd_generating.specs.Same.{HaveSameClocks};
ghost use Rattle.yd_generating.specs.declared.fault.GenerateFault.TheVariants.{NoMemory as NoRoom};

use crate::fault::GenerateFault;
use std::alloc::Global;
use yd_doc::Replica;
use yd_doc::law::own_document_is_replicas;
use yd_ids::{Client, Vector};
use yd_ops::List;
use yd_units::Units;
use yd_view::text;

/// The three replicas have one text, one state vector and one delete set.
pub(crate) fn are_equal(
    alloc: Global,
    list: &List,
    first: &Replica,
    second: &Replica,
    third: &Replica,
) -> Result<bool, GenerateFault>
    requires list { list.now ≡ text_list }
    requires shared { AreShared (received_by first.now second.now third.now) }
    ensures equal { IfOk result (λ equal. IsTrue equal
        ↔ AreEqual (received_by first.now second.now third.now)) }
    ensures memory { IfErr result (λ fault. fault ≡ NoRoom) }
{
    let is_second = are_alike(alloc, list, first, second)?;
    let is_third = are_alike(alloc, list, first, third)?;
    Ok(both(is_second, is_third))
}

/// Two replicas have one text, one state vector and one delete set.
fn are_alike(
    alloc: Global,
    list: &List,
    one: &Replica,
    other: &Replica,
) -> Result<bool, GenerateFault>
    requires list { list.now ≡ text_list }
    requires plain { IsPlain (received_of one.now) }
    requires of_three { IsOfThree (received_of one.now) }
    requires other_plain { IsPlain (received_of other.now) }
    requires other_of_three { IsOfThree (received_of other.now) }
    ensures alike { IfOk result (λ alike.
        IsTrue alike ↔ AreAlike (received_of one.now) (received_of other.now)) }
    ensures memory { IfErr result (λ fault. fault ≡ NoRoom) }
{
    own_document_is_replicas(one);
    own_document_is_replicas(other);
    let shown = text(alloc, one, list)?;
    let other_shown = text(alloc, other, list)?;
    let same_text = is_same_text(&shown, &other_shown);
    let vector = one.vector();
    let other_vector = other.vector();
    let same_vector = have_same_clocks(vector, other_vector);
    let deletes = one.deletes();
    let other_deletes = other.deletes();
    let has_own = deletes.has_all(other_deletes);
    let has_other = other_deletes.has_all(deletes);
    Ok(all_four(same_text, same_vector, has_own, has_other))
}

/// Both hold.
fn both(first: bool, second: bool) -> bool
    ensures { result ≡ (first && second) }
{
    first && second
}

/// All four hold.
fn all_four(first: bool, second: bool, third: bool, fourth: bool) -> bool
    ensures { result ≡ (((first && second) && third) && fourth) }
{
    first && second && third && fourth
}

/// Two texts are one.
fn is_same_text(one: &Units, other: &Units) -> bool
    ensures { IsTrue result ↔ (one.now ≡ other.now) }
{
    if one.len() != other.len() {
        return false;
    }
    for i in 0..one.len() {
        if one.unit(i) != other.unit(i) {
            return false;
        }
    }
    true
}

/// Two vectors have the same clocks of the clients 1, 2 and 3.
fn have_same_clocks(one: &Vector, other: &Vector) -> bool
    ensures { IsTrue result ↔ HaveSameClocks one.now other.now }
{
    one.get(Client(1)) == other.get(Client(1))
        && one.get(Client(2)) == other.get(Client(2))
        && one.get(Client(3)) == other.get(Client(3))
}
