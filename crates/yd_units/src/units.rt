//! A list of units that can be cut, joined and shown.

ghost use Rattle.std.specs.Prelude.{◌≡◌, ◌↔◌, ◌≤◌, ◌++◌, length, take, drop, slice_get, IsTrue, IsUtf8, IfOk, OnOk, OnErr};
ghost use Rattle.yd_units.specs.Half.{AreUnits, IsCut, IsWhole};
ghost use Rattle.yd_units.specs.Text.{units_of, text_of};

use crate::fault::NoMemory;
use crate::half::{are_whole, parts_a_pair};
use crate::spelling::{push_text, units_of};
use std::alloc::Global;
use std::marker::Model;

/// UTF-16 units, seen as their list. A half may stand without its partner, as in a JavaScript string
/// (The Unicode Standard, section 3.9; that a half is kept is ECMAScript's).
#[derive(Drop)]
pub struct Units {
    units: Vec<u16>,
}

impl Model for Units {
    ghost use Rattle.std.specs.Prelude.{ℕ, List};

    ghost Value = { List ℕ };

    ghost view = { λ it. it.units.items };
}

impl Units {
    /// The units of a text (UTF-16). It takes memory once, two bytes for each byte of the text.
    pub fn from_text(alloc: Global, text: &str) -> Result<Units, NoMemory>
        ensures { IfOk result (λ units. units ≡ units_of text.now) }
    {
        let units = units_of(alloc, text)?;
        Ok(Units { units })
    }

    /// The units of a list, in memory that is handed in. It takes none.
    pub fn of_units(units: Vec<u16>) -> Units
        ensures { result ≡ units.items }
    {
        Units { units }
    }

    /// How many UTF-16 units there are, which is the `length` of a JavaScript string.
    pub fn len(&self) -> u64
        ensures { result ≡ length self.now }
    {
        self.units.len() as u64
    }

    /// The unit at a place, counted in units from 0, and none behind the last.
    pub fn unit(&self, i: u64) -> Option<u16>
        ensures { result ≡ slice_get self.now i }
    {
        if i >= self.len() {
            return None;
        }
        Some(self.units[i as usize])
    }

    /// A cut before unit `n` would part a pair. At either end and past it there is none to part (own).
    pub fn is_cut(&self, n: u64) -> bool
        ensures { IsTrue result ↔ IsCut self.now n }
    {
        parts_a_pair(&self.units, n)
    }

    /// Each half has its partner beside it. A caller also learns here that the numbers have 16 bits.
    pub fn is_whole(&self) -> bool
        ensures whole { IsTrue result ↔ IsWhole self.now }
        ensures fits { AreUnits self.now }
    {
        are_whole(&self.units)
    }

    /// Keeps the first `n` units, and gives the others out, in time and memory of what it gives out. It
    /// may part a pair, so that each half stands without its partner (own).
    pub fn split_off(&mut self, n: u64) -> Result<Units, NoMemory>
        requires { n ≤ length self.old }
        ensures kept { OnOk result (self.new ≡ take n self.old) }
        ensures given { IfOk result (λ tail. tail ≡ drop n self.old) }
        ensures unchanged { OnErr result (self.new ≡ self.old) }
    {
        let units = self.units.split_off(n as usize)?;
        Ok(Units { units })
    }

    /// Appends the other's units, in time of what it appends. Two halves that meet are partners again.
    pub fn append(&mut self, other: &Units) -> Result<(), NoMemory>
        ensures appended { OnOk result (self.new ≡ self.old ++ other.now) }
        ensures unchanged { OnErr result (self.new ≡ self.old) }
    {
        self.units.extend_from_slice(&other.units)?;
        Ok(())
    }

    /// Appends the bytes of the units' text in UTF-8, with U+FFFD for a half without its partner, in one
    /// pass. What it appends is a text whatever the units are.
    pub fn write_text(&self, out: &mut Vec<u8>) -> Result<(), NoMemory>
        ensures written { OnOk result (out.new.items ≡ out.old.items ++ text_of self.now) }
        ensures is_text { IsUtf8 (text_of self.now) }
        ensures unchanged { OnErr result (out.new.items ≡ out.old.items) }
    {
        let len = out.len();
        let written = push_text(&self.units, out);
        if written.is_err() {
            // What was written before memory ended goes again.
            out.truncate(len);
        }
        written
    }

    /// The same units in memory of their own.
    pub fn copy(&self) -> Result<Units, NoMemory>
        ensures { IfOk result (λ copy. copy ≡ self.now) }
    {
        let units = Vec::from_slice(*self.units.allocator(), &self.units)?;
        Ok(Units { units })
    }
}
