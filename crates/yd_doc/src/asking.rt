//! What an edit asks of single units.

ghost use Rattle.std.specs.Prelude.{◌≡◌, None, Some, IfSome, IfNone};
ghost use Rattle.yd_editing.specs.Refused.{has_high};
ghost use Rattle.yd_making.specs.Standing.{kind_where, list_where, stands_in};
ghost use Rattle.yd_doc.specs.Editing.{own_basis};
ghost use Rattle.yd_doc.specs.Kept.{own_document, received_of};

use crate::replica::Replica;
use yd_ids::Id;
use yd_making::{Basis, kind_of, list_of};
use yd_ops::{Kind, List};

impl Replica {
    /// The list that the unit with the id is in, deleted or not: that of its left origin, else of its
    /// right origin, else the one that it carries (Yjs 13, the parent and key of an item). None where
    /// the id is not held, or its unit is lost. It takes no memory, and time with the logarithm of how
    /// many parts of runs there are.
    pub fn list_of(&self, id: Id) -> Option<&List>
        ensures found { IfSome result (λ list.
            list_where (stands_in (received_of self.now)) id ≡ Some list.now) }
        ensures none { IfNone result (list_where (stands_in (received_of self.now)) id ≡ None) }
    {
        list_of(&self.state, id)
    }

    /// The kind of the nested type that the unit with the id is, deleted or not. None where the id is
    /// not held, or its unit is lost or no type. It takes no memory, and time with the logarithm of
    /// how many parts of runs there are.
    pub fn kind_of(&self, id: Id) -> Option<&Kind>
        ensures found { IfSome result (λ kind.
            kind_where (stands_in (received_of self.now)) id ≡ Some kind.now) }
        ensures none { IfNone result (kind_where (stands_in (received_of self.now)) id ≡ None) }
    {
        kind_of(&self.state, id)
    }

    /// The unit with the id is held and not lost, and holds a nested type, so that lists may belong to
    /// it. It takes no memory, and time with the logarithm of how many parts of runs there are.
    pub fn has_type(&self, id: Id) -> bool
        ensures { result ≡ (own_basis self.now).has_type id }
    {
        let basis = Basis {
            state: &self.state,
            client: self.client,
        };
        basis.has_type(id)
    }

    /// The unit with the id is one of the list's, deleted or not, and is the first half of a pair. It
    /// takes a bisection, and a look-up by a hash.
    pub fn is_high(&self, list: &List, id: Id) -> bool
        ensures { result ≡ has_high ((own_document self.now).units list.now) id }
    {
        let basis = Basis {
            state: &self.state,
            client: self.client,
        };
        basis.is_high(list, id)
    }
}
