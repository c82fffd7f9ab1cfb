//! Insertions at places that are kept under names.

ghost use Rattle.std.specs.Prelude.{◌≡◌, Some, option_and_then, IfOk, IfSome};
ghost use Rattle.yd_ops.specs.Valid.{IsParent};
ghost use Rattle.yd_doc.specs.Editing.{own_basis};
ghost use Rattle.yd_doc.specs.Kept.{received_of};
ghost use Rattle.yd_playing.specs.Answer.{PlaysAs, AreValid};
ghost use Rattle.yd_playing.specs.Desk.{desk_of, marked as position_marked};
ghost use Rattle.yd_playing.specs.Ended.{insertion_ends, place_over, seen_over};

use crate::desk::{Desk, marked};
use crate::fault::{PlayFault, no_mark, refused};
use crate::undoing::noted;
use std::alloc::Global;
use yd_any::Text;
use yd_doc::{NoMemory, Replica};
use yd_ops::{List, Update};
use yd_places::index_of;
use yd_text::insert;

/// Plays an insertion at the place under a name.
pub(crate) fn play_insert_at(
    alloc: Global,
    replica: &mut Replica,
    desk: &mut Desk,
    number: u64,
    name: &Text,
    text: &Text,
) -> Result<Option<Update>, PlayFault>
    ensures plays { PlaysAs (insertion_ends (own_basis replica.old) (desk_of replica.old desk.old)
        text.now (option_and_then
        (place_over (seen_over (own_basis replica.old) (received_of replica.old)))
        (position_marked name.now desk.old.marks.items))) number (received_of replica.old)
        (desk_of replica.new desk.new) result }
    ensures valid { IfOk result AreValid }
    ensures client { replica.new.client ≡ replica.old.client }
{
    match place_under(replica, desk, name) {
        Err(_) => Err(PlayFault::NoMemory),
        Ok(None) => Err(no_mark(number)),
        Ok(Some((list, index))) => {
            play_insert(alloc, replica, desk, number, &list, index, text.as_str())
        }
    }
}

/// The place under a name, where there is one: its list, and its index there.
fn place_under(replica: &Replica, desk: &Desk, name: &Text) -> Result<Option<(List, u64)>, NoMemory>
    ensures place { IfOk result (λ place. place ≡ option_and_then
        (place_over (seen_over (own_basis replica.now) (received_of replica.now)))
        (position_marked name.now desk.now.marks.items)) }
    ensures in_range { IfOk result (λ place. IfSome place (λ both. IsParent both.0.parent)) }
{
    match marked(desk.marks.as_slice(), name.as_str()) {
        None => Ok(None),
        Some(position) => {
            let place = index_of(replica, position)?;
            Ok(place)
        }
    }
}

/// Plays an insertion at an index of a list.
fn play_insert(
    alloc: Global,
    replica: &mut Replica,
    desk: &mut Desk,
    number: u64,
    list: &List,
    index: u64,
    text: &str,
) -> Result<Option<Update>, PlayFault>
    requires { IsParent list.now.parent }
    ensures plays { PlaysAs (insertion_ends (own_basis replica.old) (desk_of replica.old desk.old)
        text.now (Some (list.now, index))) number (received_of replica.old)
        (desk_of replica.new desk.new) result }
    ensures valid { IfOk result AreValid }
    ensures client { replica.new.client ≡ replica.old.client }
{
    match insert(alloc, replica, list, index, text) {
        Ok(update) => noted(desk, update),
        Err(fault) => Err(refused(number, fault)),
    }
}
