//! The chains in one arena.

ghost use Rattle.std.specs.Prelude.{◌≡◌, ◌≢◌, ◌<◌, ◌+◌, ◌++◌, ◌∷◌, [], ℕ, None, Some, length, IfSome, IfOk, OnOk, OnErr, Contains, HoldsAt, slice_index_or, slice_set, All};
ghost use Rattle.yd_chains.specs.Link.{chain_at, AreSound, IsFree};
ghost use Rattle.yd_words.specs.Member.{IsIn};
ghost use Rattle.yd_chains.specs.Chain.{first_of, last_of, behind, before, put_behind, without};

use crate::linked::{chain_in, insert_in, next_in, prev_in, remove_in};
use crate::links::{Ends, Link, no_ends, no_link};
use crate::named::MOST;
use std::alloc::{AllocError, Global};
use std::marker::Model;

/// Places from 0 on, and chains of some of them, each place in one chain at most. It has links alone:
/// what lies at a place is its user's, in a vector of his own.
///
/// Contracts see the number of places, `count`, and the places of each chain in order, `chains`.
#[derive(Drop)]
pub struct Chains {
    links: Vec<Link>,
    ends: Vec<Ends>,
}

impl Model for Chains {
    ghost use Rattle.std.specs.Prelude.{length, map};
    ghost use Rattle.yd_chains.specs.declared.named.TheConstants.{MOST};
    ghost use Rattle.yd_chains.specs.Link.{Chained, places_of, AreLinked};

    ghost Value = { Chained };

    ghost view = { λ it. record {
      count = length it.links.items;
      chains = map (places_of it.links.items) it.ends.items;
    } };

    ghost invariant = { λ it. AreLinked it.links.items it.ends.items MOST };
}

impl Chains {
    /// No place, and no chain. It takes no memory.
    pub fn new(alloc: Global) -> Chains
        ensures count { result.count ≡ 0 }
        ensures chains { result.chains ≡ [] }
    {
        Chains {
            links: Vec::new(alloc),
            ends: Vec::new(alloc),
        }
    }

    /// How many places there are.
    pub fn len(&self) -> usize
        ensures count { result ≡ self.now.count }
        ensures sound { AreSound self.now }
    {
        self.links.len()
    }

    /// The chain that a place is in, or None where it is in none.
    pub fn chain_of(&self, place: usize) -> Option<usize>
        requires { place < self.now.count }
        ensures sound { AreSound self.now }
        ensures member { (k : ℕ) → k < length self.now.chains → IsIn place (chain_at self.now k) →
            result ≡ Some k }
        ensures found { IfSome result (λ k.
            (k < length self.now.chains) × IsIn place (chain_at self.now k)) }
    {
        chain_in(&self.links, &self.ends, place)
    }

    /// One place more, in no chain. Its number is how many there were before. It finds no memory where
    /// there are 2^32 - 1 places, which with their runs would take more than a terabyte.
    pub fn add_place(&mut self) -> Result<usize, AllocError>
        ensures place { IfOk result (λ place. place ≡ self.old.count) }
        ensures count { OnOk result (self.new.count ≡ self.old.count + 1) }
        ensures unchanged { OnErr result (self.new.count ≡ self.old.count) }
        ensures chains { self.new.chains ≡ self.old.chains }
    {
        let place = self.links.len();
        if place >= MOST {
            return Err(AllocError);
        }
        self.links.push(no_link())?;
        Ok(place)
    }

    /// One chain more, which is empty. Its number is how many there were before. It finds no memory
    /// where there are 2^32 - 1 chains.
    pub fn add_chain(&mut self) -> Result<usize, AllocError>
        ensures chain { IfOk result (λ chain. chain ≡ length self.old.chains) }
        ensures chains { OnOk result (self.new.chains ≡ self.old.chains ++ [] ∷ []) }
        ensures unchanged { OnErr result (self.new.chains ≡ self.old.chains) }
        ensures count { self.new.count ≡ self.old.count }
    {
        let chain = self.ends.len();
        if chain >= MOST {
            return Err(AllocError);
        }
        self.ends.push(no_ends())?;
        Ok(chain)
    }

    /// Takes memory ahead for so many places more. All places and chains stay, also where it finds none.
    pub fn reserve(&mut self, more: usize) -> Result<(), AllocError>
        ensures { self.new ≡ self.old }
    {
        self.links.reserve(more)?;
        Ok(())
    }

    /// The first place of a chain, or None where it is empty.
    pub fn first(&self, chain: usize) -> Option<usize>
        requires { chain < length self.now.chains }
        ensures value { result ≡ first_of (chain_at self.now chain) }
        ensures sound { AreSound self.now }
    {
        self.ends[chain].first.get()
    }

    /// The last place of a chain, or None where it is empty.
    pub fn last(&self, chain: usize) -> Option<usize>
        requires { chain < length self.now.chains }
        ensures { result ≡ last_of (chain_at self.now chain) }
    {
        self.ends[chain].last.get()
    }

    /// The place behind another in its chain. None is at the end, and behind a place in no chain.
    pub fn next(&self, place: usize) -> Option<usize>
        requires { place < self.now.count }
        ensures sound { AreSound self.now }
        ensures loose { IsFree self.now place → result ≡ None }
        ensures value { (k : ℕ) → k < length self.now.chains → IsIn place (chain_at self.now k) →
            result ≡ first_of (behind (Some place) (chain_at self.now k)) }
    {
        next_in(&self.links, &self.ends, place)
    }

    /// The place before another in its chain. None is at the front, and before a place in no chain.
    pub fn prev(&self, place: usize) -> Option<usize>
        requires { place < self.now.count }
        ensures loose { IsFree self.now place → result ≡ None }
        ensures value { (k : ℕ) → k < length self.now.chains → IsIn place (chain_at self.now k) →
            result ≡ last_of (before place (chain_at self.now k)) }
    {
        prev_in(&self.links, &self.ends, place)
    }

    /// Puts a place that is in no chain into one, behind a place of it or at the front. It takes no
    /// memory, and a few steps.
    pub fn insert(&mut self, chain: usize, after: Option<usize>, place: usize)
        requires chain { chain < length self.old.chains }
        requires after { IfSome after (λ p. IsIn p (chain_at self.old chain)) }
        requires place { place < self.old.count }
        requires loose { IsFree self.old place }
        ensures count { self.new.count ≡ self.old.count }
        ensures chains { self.new.chains ≡
            slice_set self.old.chains chain (put_behind after place (chain_at self.old chain)) }
    {
        insert_in(&mut self.links, &mut self.ends, chain, after, place);
    }

    /// Takes a place out of its chain. It takes no memory, and a few steps.
    pub fn remove(&mut self, chain: usize, place: usize)
        requires chain { chain < length self.old.chains }
        requires place { IsIn place (chain_at self.old chain) }
        ensures count { self.new.count ≡ self.old.count }
        ensures chains { self.new.chains ≡
            slice_set self.old.chains chain (without place (chain_at self.old chain)) }
    {
        remove_in(&mut self.links, &mut self.ends, chain, place);
    }
}
