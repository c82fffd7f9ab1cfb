//! Indexes of units: how many a list has, and which unit has an index.

ghost use Rattle.std.specs.Prelude.{◌≡◌, ◌≤◌, ◌+◌, ℕ, length, IfSome};
ghost use Rattle.yd_ids.specs.Id.{IsId};
ghost use Rattle.yd_editing.specs.TextEdit.{counted_units, unit_at};
ghost use Rattle.yd_ops.specs.View.{content_value};
ghost use Rattle.yd_state.specs.Lent.{units_of_view, IsWithin};
ghost use Rattle.yd_doc.specs.Counted.{counted_ids, ids_from, counts};
ghost use Rattle.yd_doc.specs.Kept.{own_document};

use crate::replica::Replica;
use yd_ids::Id;
use yd_ops::{Content, List};
use yd_state::RunView;

impl Replica {
    /// How many live counted units a list has: UTF-16 units, values, embeds, byte strings and types.
    /// Marks are not counted (Yjs 13, the length of a type). It takes a look-up by a hash, and walks
    /// through no list.
    pub fn length(&self, list: &List) -> u64
        ensures { result ≡ length (counted_units (own_document self.now) list.now) }
    {
        self.state.length(list)
    }

    /// The id of the live counted unit with an index, from 0, and none where the index is not below
    /// the length. It takes time as reading the list by pieces does between that unit and the nearer
    /// end of the list, and copies nothing.
    pub fn unit_at(&self, list: &List, index: u64) -> Option<Id>
        ensures unit { result ≡ unit_at (counted_units (own_document self.now) list.now) index }
        ensures in_range { IfSome result IsId }
    {
        let length = self.length(list);
        if length <= index {
            return None;
        }
        let behind = length - index - 1;
        if behind < index {
            return self.unit_from_back(list, behind);
        }
        self.unit_from_front(list, index)
    }

    /// The id of the live counted unit with an index, found from the front.
    fn unit_from_front(&self, list: &List, index: u64) -> Option<Id>
        ensures unit { result ≡ unit_at (counted_units (own_document self.now) list.now) index }
        ensures in_range { IfSome result IsId }
    {
        let mut view = self.list(list);
        let mut left = index;
        while let Some(piece) = view.next() {
            let len = counted_len(&piece);
            if left < len {
                return Some(Id {
                    client: piece.id.client,
                    clock: piece.id.clock + left,
                });
            }
            left -= len;
        }
        None
    }

    /// The id of the live counted unit behind which so many others stand, found from the back.
    fn unit_from_back(&self, list: &List, behind: u64) -> Option<Id>
        ensures unit { (index : ℕ)
            → index + 1 + behind ≡ length (counted_units (own_document self.now) list.now)
            → result ≡ unit_at (counted_units (own_document self.now) list.now) index }
        ensures in_range { IfSome result IsId }
    {
        let mut view = self.list(list);
        let mut left = behind;
        while let Some(piece) = view.next_back() {
            let len = counted_len(&piece);
            if left < len {
                return Some(Id {
                    client: piece.id.client,
                    clock: piece.id.clock + (len - left - 1),
                });
            }
            left -= len;
        }
        None
    }
}

/// How many units of a piece are live and counted: all of them, or none.
pub fn counted_len(piece: &RunView<'_>) -> u64
    requires { IsWithin piece.now }
    ensures ids { counted_ids (units_of_view piece.now) ≡ ids_from piece.now.id result }
    ensures bound { result ≤ piece.now.len }
{
    if piece.deleted {
        return 0;
    }
    if !is_counted(piece.content) {
        return 0;
    }
    piece.len
}

/// Units of the content are counted in lengths.
fn is_counted(content: &Content) -> bool
    ensures { result ≡ counts (content_value content.now) }
{
    match content {
        Content::Format { .. } => false,
        Content::Deleted(_) => false,
        _ => true,
    }
}
