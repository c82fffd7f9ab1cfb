//! What is looked for in a crowd: a name, or a parent.

ghost use Rattle.std.specs.Prelude.{◌≡◌};
ghost use Rattle.std.specs.Cmp.{IsTotalOrder};
ghost use Rattle.std.specs.declared.cmp.Ordering.{Ordering};
ghost use Rattle.yd_ops.specs.declared.lists.List.{List as DocList};
ghost use Rattle.yd_names.specs.Order.{list_cmp, list_of, list_total, own_cmp, own_total};

use crate::order::{compare_lists, compare_parents};
use std::cmp::Ordering;
use yd_ops::{List, Parent};

/// What a bisection goes by. Its ghost members are the order of a crowd, and the list that stands
/// in it for what is looked for.
pub(crate) trait Sought {
    ghost cmp: { DocList → DocList → Ordering };

    ghost stands: { Self → DocList };

    /// Whether a list stands before this or behind it.
    fn compare(&self, list: &List) -> Ordering
        ensures { result ≡ cmp list.now (stands self.now) };

    ghost total: { IsTotalOrder cmp };
}

impl Sought for List {
    ghost cmp = { list_cmp };

    ghost stands = { λ list. list };

    ghost total = { list_total };

    fn compare(&self, list: &List) -> Ordering {
        compare_lists(list, self)
    }
}

impl Sought for Parent {
    ghost cmp = { own_cmp };

    ghost stands = { list_of };

    ghost total = { own_total };

    fn compare(&self, list: &List) -> Ordering {
        compare_parents(&list.parent, self)
    }
}
