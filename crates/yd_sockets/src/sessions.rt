//! The open sessions, each with its number.

ghost use Rattle.std.specs.Prelude.{◌≡◌, ◌<◌, ◌++◌, [], ◌∷◌, length, MatchOption, OnOk, OnErr, IfSome, slice_get, Some};
ghost use Rattle.std.specs.List.{remove};
ghost use Rattle.yd_sockets.specs.Numbers.{IsNowhere};

use std::alloc::Global;
use std::marker::Model;
use tungstenite::{MaskKeys, WebSocket};
use yd_lines::line::Given;
use yd_lines::{Link, Stream, line};
use yd_world::{NoMemory, Outage};

/// Open sessions, seen as their numbers, in the order in which they came.
#[derive(Drop)]
pub struct Sessions<L, K> {
    numbers: Vec<u64>,
    lines: Vec<WebSocket<Stream<L>, K>>,
}

impl<L, K> Model for Sessions<L, K> {
    ghost use Rattle.std.specs.Prelude.{ℕ, List, ◌≡◌, length};

    ghost Value = { List ℕ };

    ghost view = { λ s. s.numbers.items };

    ghost invariant = { λ s. length s.numbers.items ≡ length s.lines.items };
}

impl<L: Drop, K: Drop> Sessions<L, K> {
    /// No session.
    pub fn new(alloc: Global) -> Sessions<L, K>
        ensures { result ≡ [] }
    {
        Sessions {
            numbers: Vec::new(alloc),
            lines: Vec::new(alloc),
        }
    }

    /// How many sessions are open.
    pub fn len(&self) -> usize
        ensures { result ≡ length self.now }
    {
        self.numbers.len()
    }

    /// The number of the session at this place.
    pub fn number(&self, at: usize) -> u64
        requires { at < length self.now }
        ensures { slice_get self.now at ≡ Some result }
    {
        self.numbers[at]
    }

    /// Where the session with this number is.
    pub fn find(&self, number: u64) -> Option<usize>
        ensures found { MatchOption result (IsNowhere number self.now)
            (λ at. slice_get self.now at ≡ Some number) }
        ensures within { IfSome result (λ at. at < length self.now) }
    {
        for at in 0..self.numbers.len() {
            if self.numbers[at] == number {
                return Some(at);
            }
        }
        None
    }

    /// One session more, behind the others.
    pub fn add(&mut self, number: u64, line: WebSocket<Stream<L>, K>) -> Result<(), NoMemory>
        ensures added { OnOk result (self.new ≡ self.old ++ number ∷ []) }
        ensures unchanged { OnErr result (self.new ≡ self.old) }
    {
        if self.lines.push(line).is_err() {
            return Err(NoMemory);
        }
        if self.numbers.push(number).is_err() {
            self.lines.pop();
            return Err(NoMemory);
        }
        Ok(())
    }

    /// The session at this place is no more, and its connection is dropped.
    pub fn remove(&mut self, at: usize)
        requires { at < length self.old }
        ensures { self.new ≡ remove self.old at }
    {
        self.numbers.remove(at);
        self.lines.remove(at);
    }
}

impl<L: Link + Drop, K: MaskKeys + Drop> Sessions<L, K> {
    /// What came on the session at this place.
    pub fn take(&mut self, alloc: Global, at: usize) -> Result<Given, NoMemory>
        requires { at < length self.old }
        ensures { self.new ≡ self.old }
    {
        line::take(alloc, &mut self.lines[at])
    }

    /// Sends a message on the session at this place.
    pub fn send(&mut self, alloc: Global, at: usize, bytes: &[u8]) -> Result<(), Outage>
        requires { at < length self.old }
        ensures { self.new ≡ self.old }
    {
        line::send(alloc, &mut self.lines[at], bytes)
    }

    /// Tells the peer of the session at this place why it is left.
    pub fn part(&mut self, alloc: Global, at: usize, reason: &str)
        requires { at < length self.old }
        ensures { self.new ≡ self.old }
    {
        line::part(alloc, &mut self.lines[at], reason)
    }
}
