//! A number or none, in four bytes.

ghost use Rattle.std.specs.Prelude.{◌≡◌, ◌<◌, None, Some, IfSome};
ghost use Rattle.yd_chains.specs.declared.named.TheConstants.{MOST};

use std::marker::Model;

/// The greatest number of places, and of chains, 2^32 - 1. A place and its run take some 300 bytes, so
/// that many would take more than a terabyte. A growth past it finds no memory.
pub const MOST: usize = 4294967295;

/// What is kept for none. No place and no chain has this number.
const NOTHING: u32 = 4294967295;

/// The place or the chain that a link names, or none. Contracts see it as an `Option` of its number.
#[derive(Clone, Copy, Debug)]
pub struct Named {
    kept: u32,
}

impl Model for Named {
    ghost use Rattle.std.specs.Prelude.{ℕ, Option};
    ghost use Rattle.yd_chains.specs.Named.{named_by, kept_for, kept-named};

    ghost Value = { Option ℕ };

    ghost view = { λ it. named_by it.kept };

    ghost inverse = { λ it. record { kept = kept_for it } };

    ghost inverse_ok = { λ it h i. record { kept = kept-named it.kept i } };
}

impl Named {
    /// No number.
    pub fn none() -> Named
        ensures { result ≡ None }
    {
        Named { kept: NOTHING }
    }

    /// This number.
    pub fn some(number: usize) -> Named
        requires { number < MOST }
        ensures { result ≡ Some number }
    {
        Named {
            kept: number as u32,
        }
    }

    /// This number, or none.
    pub fn of(number: Option<usize>) -> Named
        requires { IfSome number (λ n. n < MOST) }
        ensures { result ≡ number }
    {
        match number {
            None => Named::none(),
            Some(n) => Named::some(n),
        }
    }

    /// The number, if it has one.
    pub fn get(self) -> Option<usize>
        ensures { result ≡ self }
    {
        if self.kept == NOTHING {
            return None;
        }
        Some(self.kept as usize)
    }
}
