//! Lists of any-values that become one.

ghost use Rattle.std.specs.Prelude.{◌≡◌, OnOk, OnErr};
ghost use Rattle.yd_any.specs.Rows.{trees_and};
ghost use Rattle.yd_any.specs.AnyView.{any_trees, items_trees};

use crate::any_value::{Any, AnyList};
use crate::fault::NoMemory;

impl AnyList {
    /// Moves the other's values behind these, in time of what it moves. If there is no memory, they
    /// are dropped.
    pub fn append(&mut self, other: AnyList) -> Result<(), NoMemory>
        ensures appended { OnOk result (any_trees self.new
            ≡ trees_and (any_trees self.old) (any_trees other)) }
        ensures unchanged { OnErr result (any_trees self.new ≡ any_trees self.old) }
    {
        let mut other = other;
        append_items(&mut self.items, &mut other.items)
    }
}

#[tactic(auto, using(crate::proofs::RowLemmas::items_joined))]
fn append_items(items: &mut Vec<Any>, others: &mut Vec<Any>) -> Result<(), NoMemory>
    ensures appended { OnOk result (items_trees items.new.items
        ≡ trees_and (items_trees items.old.items) (items_trees others.old.items)) }
    ensures unchanged { OnErr result (items_trees items.new.items ≡ items_trees items.old.items) }
{
    items.append(others)?;
    Ok(())
}
