//! Lists of any-values that are cut in two.

ghost use Rattle.std.specs.Prelude.{◌≡◌, min, IfOk, OnOk, OnErr};
ghost use Rattle.yd_any.specs.Rows.{first_trees, other_trees};
ghost use Rattle.yd_any.specs.AnyView.{any_trees, items_trees};

use crate::any_value::{Any, AnyList};
use crate::fault::NoMemory;

impl AnyList {
    /// Keeps the first `n` values, and gives the others out, in time and memory of what it gives out.
    /// Where there are no more than `n`, it gives out none.
    pub fn split_off(&mut self, n: u64) -> Result<AnyList, NoMemory>
        ensures kept { OnOk result (any_trees self.new ≡ first_trees n (any_trees self.old)) }
        ensures given { IfOk result (λ rest. any_trees rest ≡ other_trees n (any_trees self.old)) }
        ensures unchanged { OnErr result (any_trees self.new ≡ any_trees self.old) }
    {
        let items = split_items(&mut self.items, n)?;
        Ok(AnyList { items })
    }
}

#[tactic(auto, using(crate::proofs::RowLemmas::items_kept, crate::proofs::RowLemmas::items_given))]
fn split_items(items: &mut Vec<Any>, n: u64) -> Result<Vec<Any>, NoMemory>
    ensures kept { OnOk result (items_trees items.new.items
        ≡ first_trees n (items_trees items.old.items)) }
    ensures given { IfOk result (λ rest. items_trees rest.items
        ≡ other_trees n (items_trees items.old.items)) }
    ensures unchanged { OnErr result (items_trees items.new.items ≡ items_trees items.old.items) }
{
    let at = within(n, items.len());
    let rest = items.split_off(at)?;
    Ok(rest)
}

/// The place `n` of a list, and its end where there are no more.
fn within(n: u64, len: usize) -> usize
    ensures { result ≡ min n len }
{
    if n < len as u64 { n as usize } else { len }
}
