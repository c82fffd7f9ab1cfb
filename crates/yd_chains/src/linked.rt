//! Chains over links: their neighbours, and their changes.

ghost use Rattle.std.specs.Prelude.{◌≡◌, ◌≢◌, ◌<◌, ◌≤◌, ℕ, None, Some, length, IfSome};
ghost use Rattle.yd_words.specs.Member.{IsIn};
ghost use Rattle.yd_chains.specs.Chain.{first_of, last_of, behind, before, put_behind, without};
ghost use Rattle.yd_chains.specs.declared.named.TheConstants.{MOST};
ghost use Rattle.yd_chains.specs.Link.{next_of, prev_of, chain_of, places_at, widened, narrowed, IsChain, AreChains, AreFiled, IsLoose, Changes};

use crate::linking::{clear, link_in, link_over};
use crate::links::{Ends, Link};
use crate::named::Named;

/// The ends of a chain that gets one place more between two neighbours.
fn widen(ends: Ends, before: Option<usize>, behind: Option<usize>, place: usize) -> Ends
    requires { place < MOST }
    ensures { result ≡ widened ends before behind place }
{
    Ends {
        first: if before.is_none() {
            Named::some(place)
        } else {
            ends.first
        },
        last: if behind.is_none() {
            Named::some(place)
        } else {
            ends.last
        },
    }
}

/// The ends of a chain that loses what stands between two neighbours.
fn narrow(ends: Ends, before: Named, behind: Named) -> Ends
    ensures { result ≡ narrowed ends before behind }
{
    Ends {
        first: if before.get().is_none() {
            behind
        } else {
            ends.first
        },
        last: if behind.get().is_none() {
            before
        } else {
            ends.last
        },
    }
}

/// What stands behind a place of a chain, or first.
fn next_after(links: &[Link], ends: &[Ends], chain: usize, after: Option<usize>) -> Option<usize>
    requires chains { AreChains links.now ends.now }
    requires chain { chain < length ends.now }
    requires after { IfSome after (λ p. IsIn p (places_at links.now ends.now chain)) }
    ensures { result ≡ first_of (behind after (places_at links.now ends.now chain)) }
{
    match after {
        None => ends[chain].first.get(),
        Some(p) => next_of_link(links, p),
    }
}

/// What a place names as the next.
fn next_of_link(links: &[Link], at: usize) -> Option<usize>
    requires { at < length links.now }
    ensures { result ≡ next_of links.now at }
{
    links[at].next.get()
}

/// Links a loose place into a chain, behind a place of it or at the front.
pub fn insert_in(
    links: &mut Vec<Link>,
    ends: &mut Vec<Ends>,
    chain: usize,
    after: Option<usize>,
    place: usize,
)
    requires chains { AreChains links.old.items ends.old.items }
    requires chain { chain < length ends.old.items }
    requires after { IfSome after (λ p. IsIn p (places_at links.old.items ends.old.items chain)) }
    requires place { place < length links.old.items }
    requires loose { IsLoose links.old.items ends.old.items place }
    requires filed { AreFiled links.old.items ends.old.items }
    requires few_places { length links.old.items ≤ MOST }
    requires few_chains { length ends.old.items ≤ MOST }
    ensures changes { Changes links.old.items links.new.items ends.old.items ends.new.items chain
        (put_behind after place (places_at links.old.items ends.old.items chain)) }
    ensures filed { AreFiled links.new.items ends.new.items }
{
    let next = next_after(links, ends, chain, after);
    link_in(links, chain, after, next, place);
    ends[chain] = widen(ends[chain], after, next, place);
}

/// Takes a place of a chain out.
pub fn remove_in(links: &mut Vec<Link>, ends: &mut Vec<Ends>, chain: usize, place: usize)
    requires chains { AreChains links.old.items ends.old.items }
    requires chain { chain < length ends.old.items }
    requires place { IsIn place (places_at links.old.items ends.old.items chain) }
    requires filed { AreFiled links.old.items ends.old.items }
    ensures changes { Changes links.old.items links.new.items ends.old.items ends.new.items chain
        (without place (places_at links.old.items ends.old.items chain)) }
    ensures filed { AreFiled links.new.items ends.new.items }
{
    let link = links[place];
    link_over(links, link.prev, link.next);
    clear(links, place);
    ends[chain] = narrow(ends[chain], link.prev, link.next);
}

/// What stands behind a place in its chain. Of a place in no chain it is none.
pub fn next_in(links: &[Link], ends: &[Ends], place: usize) -> Option<usize>
    requires chains { AreChains links.now ends.now }
    requires place { place < length links.now }
    requires filed { AreFiled links.now ends.now }
    ensures loose { IsLoose links.now ends.now place → result ≡ None }
    ensures value { (k : ℕ) → k < length ends.now → IsIn place (places_at links.now ends.now k) →
        result ≡ first_of (behind (Some place) (places_at links.now ends.now k)) }
{
    next_of_link(links, place)
}

/// What stands before a place in its chain. Of a place in no chain it is none.
pub fn prev_in(links: &[Link], ends: &[Ends], place: usize) -> Option<usize>
    requires chains { AreChains links.now ends.now }
    requires place { place < length links.now }
    requires filed { AreFiled links.now ends.now }
    ensures loose { IsLoose links.now ends.now place → result ≡ None }
    ensures value { (k : ℕ) → k < length ends.now → IsIn place (places_at links.now ends.now k) →
        result ≡ last_of (before place (places_at links.now ends.now k)) }
{
    prev_of_link(links, place)
}

/// What a place names as the one before it.
fn prev_of_link(links: &[Link], at: usize) -> Option<usize>
    requires { at < length links.now }
    ensures { result ≡ prev_of links.now at }
{
    links[at].prev.get()
}

/// The chain that a place is in.
pub fn chain_in(links: &[Link], ends: &[Ends], place: usize) -> Option<usize>
    requires chains { AreChains links.now ends.now }
    requires filed { AreFiled links.now ends.now }
    requires place { place < length links.now }
    ensures member { (k : ℕ) → k < length ends.now → IsIn place (places_at links.now ends.now k) →
        result ≡ Some k }
    ensures found { IfSome result (λ k.
        (k < length ends.now) × IsIn place (places_at links.now ends.now k)) }
{
    chain_of_link(links, place)
}

/// The chain that a place names.
fn chain_of_link(links: &[Link], at: usize) -> Option<usize>
    requires { at < length links.now }
    ensures { result ≡ chain_of links.now at }
{
    links[at].chain.get()
}
