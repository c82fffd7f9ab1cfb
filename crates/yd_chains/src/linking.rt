//! Single links, and how they change.

ghost use Rattle.std.specs.Prelude.{◌≡◌, ◌≢◌, ◌<◌, ◌≤◌, ℕ, Some, length, IfSome};
ghost use Rattle.yd_chains.specs.Chain.{LinksIn, LinksOver};
ghost use Rattle.yd_chains.specs.declared.named.TheConstants.{MOST};
ghost use Rattle.yd_chains.specs.Link.{prev_of, next_of, chain_of, SetsNext, SetsPrev, Clears};

use crate::links::{Link, no_link};
use crate::named::Named;

/// The place names another one as the next.
fn set_next(links: &mut Vec<Link>, at: usize, next: Named)
    requires { at < length links.old.items }
    ensures { SetsNext links.old.items links.new.items at next }
{
    links[at].next = next;
}

/// The place names another one as the one before.
fn set_prev(links: &mut Vec<Link>, at: usize, prev: Named)
    requires { at < length links.old.items }
    ensures { SetsPrev links.old.items links.new.items at prev }
{
    links[at].prev = prev;
}

/// Links a place in between two neighbours.
pub fn link_in(
    links: &mut Vec<Link>,
    chain: usize,
    before: Option<usize>,
    behind: Option<usize>,
    place: usize,
)
    requires few_places { length links.old.items ≤ MOST }
    requires chain { chain < MOST }
    requires place { place < length links.old.items }
    requires before { IfSome before (λ p. (p < length links.old.items) × (p ≢ place)) }
    requires behind { IfSome behind (λ p. (p < length links.old.items) × (p ≢ place)) }
    ensures len { length links.new.items ≡ length links.old.items }
    ensures linked { LinksIn (prev_of links.old.items) (next_of links.old.items)
        (prev_of links.new.items) (next_of links.new.items) before behind place }
    ensures chain { chain_of links.new.items place ≡ Some chain }
    ensures others { (i : ℕ) → i ≢ place → chain_of links.new.items i ≡ chain_of links.old.items i }
{
    links[place] = Link {
        chain: Named::some(chain),
        prev: Named::of(before),
        next: Named::of(behind),
    };
    if let Some(p) = before {
        set_next(links, p, Named::some(place));
    }
    if let Some(p) = behind {
        set_prev(links, p, Named::some(place));
    }
}

/// Makes two places neighbours.
pub fn link_over(links: &mut Vec<Link>, before: Named, behind: Named)
    requires before { IfSome before (λ p. p < length links.old.items) }
    requires behind { IfSome behind (λ p. p < length links.old.items) }
    ensures len { length links.new.items ≡ length links.old.items }
    ensures linked { LinksOver (prev_of links.old.items) (next_of links.old.items)
        (prev_of links.new.items) (next_of links.new.items) before behind }
    ensures chains { (i : ℕ) → chain_of links.new.items i ≡ chain_of links.old.items i }
{
    if let Some(p) = before.get() {
        set_next(links, p, behind);
    }
    if let Some(p) = behind.get() {
        set_prev(links, p, before);
    }
}

/// Leaves a place without a chain and without neighbours.
pub fn clear(links: &mut Vec<Link>, place: usize)
    requires { place < length links.old.items }
    ensures { Clears links.old.items links.new.items place }
{
    links[place] = no_link();
}
