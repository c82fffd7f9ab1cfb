//! Items that have lists, in the order of their ids.

ghost use Rattle.std.specs.Prelude.{◌≡◌, ◌<◌, ◌≤◌, ◌+◌, [], ℕ, true, Some, length, slice_get, OnOk, IfSome};
ghost use Rattle.std.specs.Ordering.{nat_cmp};
ghost use Rattle.std.specs.BTreeSet.{contains};
ghost use Rattle.yd_ids.specs.Id.{IsSpan};
ghost use Rattle.yd_meaning.specs.Names.{item_of_parent};
ghost use Rattle.yd_names.specs.Items.{code_of_item, IsRising, IsKnown, IsOther, IsAt, IsFirstFrom, IsFirstClock, earlier, span_behind};

use std::alloc::Global;
use std::collections::BTreeSet;
use yd_ids::{Id, Span};
use yd_ops::{NoMemory, Parent};

/// Codes of items.
#[derive(Drop)]
pub struct Items {
    /// Those that came in their order.
    pub rising: Vec<u128>,
    /// Those that came after greater ones.
    pub others: BTreeSet<u128>,
}

impl Items {
    /// No item.
    pub fn new(alloc: Global) -> Items
        ensures rising { result.rising.items ≡ [] }
    {
        Items {
            rising: Vec::new(alloc),
            others: BTreeSet::new(alloc),
        }
    }

    /// The item of a parent is known from here on, if it is one. It takes no search where no greater
    /// one is known. Where it finds no memory, nothing has changed.
    pub fn add(&mut self, parent: &Parent) -> Result<(), NoMemory>
        requires { IsRising self.old.rising.items }
        ensures rising { IsRising self.new.rising.items }
        ensures kept { (code : ℕ) → IsKnown self.old.rising.items self.old.others code
            → IsKnown self.new.rising.items self.new.others code }
        ensures added { OnOk result (IfSome (item_of_parent parent.now)
            (λ id. IsKnown self.new.rising.items self.new.others (code_of_item id))) }
    {
        let Parent::Item(id) = parent else {
            return Ok(());
        };
        let code = code_of_item(*id);
        if is_last(&self.rising, code) {
            return Ok(());
        }
        if is_behind(&self.rising, code) {
            self.rising.push(code)?;
        } else {
            self.others.insert(code)?;
        }
        Ok(())
    }

    /// The clock of the first known item of a span.
    pub fn first_clock(&self, span: Span) -> Option<u64>
        requires span { IsSpan span }
        requires rising { IsRising self.now.rising.items }
        ensures { IsFirstClock (IsKnown self.now.rising.items self.now.others) span result }
    {
        earlier(
            first_in_order(&self.rising, span),
            first_of_others(&self.others, span),
        )
    }
}

/// All codes are less than another.
fn is_behind(rising: &[u128], code: u128) -> bool
    requires { IsRising rising.now }
    ensures { result ≡ true → (n other : ℕ) → slice_get rising.now n ≡ Some other → other < code }
{
    match rising.last() {
        Some(last) => *last < code,
        None => true,
    }
}

/// The code is the last one.
fn is_last(rising: &[u128], code: u128) -> bool
    ensures { result ≡ true → IsAt rising.now code }
{
    match rising.last() {
        Some(last) => *last == code,
        None => false,
    }
}

/// The clock of the first item of a span among those that came in their order.
fn first_in_order(rising: &[u128], span: Span) -> Option<u64>
    requires span { IsSpan span }
    requires rising { IsRising rising.now }
    ensures { IsFirstClock (IsAt rising.now) span result }
{
    let low = code_of_item(Id {
        client: span.client,
        clock: span.clock,
    });
    let Some(code) = first_from(rising, low) else {
        return None;
    };
    if code - low >= span.len as u128 {
        return None;
    }
    Some(span.clock + (code - low) as u64)
}

/// The first of codes in order from one on.
fn first_from(rising: &[u128], low: u128) -> Option<u128>
    requires { IsRising rising.now }
    ensures { IsFirstFrom rising.now low result }
{
    code_at(rising, rising.partition_point(|code| *code < low))
}

/// The code at a place, where there is one.
fn code_at(codes: &[u128], at: usize) -> Option<u128>
    ensures { result ≡ slice_get codes.now at }
{
    if at < codes.len() {
        return Some(codes[at]);
    }
    None
}

/// The clock of the first item of a span among the others.
fn first_of_others(others: &BTreeSet<u128>, span: Span) -> Option<u64>
    requires { IsSpan span }
    ensures { IsFirstClock (IsOther others.now) span result }
{
    let low = code_of_item(Id {
        client: span.client,
        clock: span.clock,
    });
    let code = *others.range(low..low + span.len as u128).next()?;
    Some(span.clock + (code - low) as u64)
}

/// The lesser of two clocks, where there is one.
fn earlier(one: Option<u64>, other: Option<u64>) -> Option<u64>
    ensures { result ≡ earlier one other }
{
    match one {
        None => other,
        Some(clock) => Some(at_most(clock, other)),
    }
}

/// A clock, or another that is less.
fn at_most(clock: u64, other: Option<u64>) -> u64
    ensures { Some result ≡ earlier (Some clock) other }
{
    match other {
        None => clock,
        Some(other) => clock.min(other),
    }
}

/// The span's ids behind one of its clocks.
pub(crate) fn span_behind(span: Span, clock: u64) -> Span
    requires is_span { IsSpan span }
    requires inside { clock < span.clock + span.len }
    ensures { result ≡ span_behind span clock }
{
    Span {
        client: span.client,
        clock: clock + 1,
        len: span.clock + span.len - (clock + 1),
    }
}

/// The code of an item.
fn code_of_item(id: Id) -> u128
    ensures { result ≡ code_of_item id }
{
    id.client.0 as u128 * 18446744073709551616 + id.clock as u128
}
