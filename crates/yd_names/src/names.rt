//! Names of lists, by their numbers.

ghost use Rattle.std.specs.Prelude.{◌≡◌, ◌≢◌, ◌++◌, ◌∷◌, [], ℕ, Some, length, take, slice_get, IfSome, IfNone, OnOk, OnErr};
ghost use Rattle.yd_names.specs.Coding.{code_of_list};
ghost use Rattle.yd_names.specs.Names.{AreCoded};

use crate::codes::Codes;
use crate::coding::code_of_list;
use crate::crowds::{join_crowd, keep_below, number_in_crowd};
use crate::same::is_same_list;
use crate::slots::CROWDED;
use std::alloc::Global;
use std::marker::Model;
use yd_ops::{List, NoMemory};

/// The names of lists, each under the number of its place.
#[derive(Drop)]
pub struct Names {
    names: Vec<List>,
    // The codes by number, and `CROWDED` for those in the crowd.
    codes: Codes,
    // The numbers of names whose slots were long, in the order of the names.
    crowd: Vec<u32>,
}

impl Model for Names {
    ghost use Rattle.std.specs.Prelude.{List};
    ghost use Rattle.yd_ops.specs.declared.lists.List.{List as DocList};
    ghost use Rattle.yd_names.specs.Names.{AreCoded};

    ghost Value = { List DocList };

    ghost view = { λ it. it.names.items };

    ghost invariant = { λ it. AreCoded it.names.items it.codes it.crowd.items };
}

impl Names {
    /// No name.
    pub fn new(alloc: Global) -> Names
        ensures { result ≡ [] }
    {
        Names {
            names: Vec::new(alloc),
            codes: Codes::new(alloc),
            crowd: Vec::new(alloc),
        }
    }

    /// How many names there are.
    pub fn len(&self) -> usize
        ensures { result ≡ length self.now }
    {
        self.names.len()
    }

    /// The names, by number.
    pub fn as_slice(&self) -> &[List]
        ensures { result.now ≡ self.now }
    {
        &self.names
    }

    /// The number of a name, and none where it is not there. It takes a look-up by a hash, and time with
    /// the length of the name. Where many names share a slot, it takes a bisection among them.
    pub fn number_of(&self, name: &List) -> Option<usize>
        ensures there { IfSome result (λ n. slice_get self.now n ≡ Some name.now) }
        ensures none { IfNone result ((n : ℕ) → slice_get self.now n ≢ Some name.now) }
    {
        if let Some(number) = number_by_code(&self.names, &self.codes, name) {
            return Some(number);
        }
        number_in_crowd(&self.crowd, &self.names, name)
    }

    /// One name more, which gets the next number.
    pub fn push(&mut self, name: List) -> Result<(), NoMemory>
        ensures pushed { OnOk result (self.new ≡ self.old ++ name ∷ []) }
        ensures unchanged { OnErr result (self.new ≡ self.old) }
    {
        self.names.reserve(1)?;
        push_code(&mut self.codes, &mut self.crowd, &self.names, &name)?;
        self.names.push_reserved(name);
        Ok(())
    }

    /// Keeps the first names alone, in time of what it drops and of the crowd.
    pub fn truncate(&mut self, len: usize)
        ensures { self.new ≡ take len self.old }
    {
        self.names.truncate(len);
        self.codes.truncate(len);
        keep_below(&mut self.crowd, len);
    }
}

/// The number of a name that is found by its code.
fn number_by_code(names: &[List], codes: &Codes, name: &List) -> Option<usize>
    requires { length codes.now ≡ length names.now }
    ensures there { IfSome result (λ n. slice_get names.now n ≡ Some name.now) }
    ensures none { IfNone result ((n : ℕ) → slice_get codes.now n ≡ Some (code_of_list name.now) →
        slice_get names.now n ≢ Some name.now) }
{
    let mut next = codes.last_of(code_of_list(name));
    while let Some(number) = next {
        if is_same_list(&names[number], name) {
            return Some(number);
        }
        next = codes.before(number);
    }
    None
}

/// The code of one name more, which joins the crowd where the slot of the code is long.
fn push_code(
    codes: &mut Codes,
    crowd: &mut Vec<u32>,
    names: &[List],
    name: &List,
) -> Result<(), NoMemory>
    requires { AreCoded names.now codes.old crowd.old.items }
    ensures pushed { OnOk result (AreCoded (names.now ++ name.now ∷ []) codes.new crowd.new.items) }
    ensures unchanged { OnErr result (AreCoded names.now codes.new crowd.new.items) }
{
    let code = code_of_list(name);
    if codes.is_long(code) {
        return push_crowded(codes, crowd, names, name);
    }
    codes.push(code)?;
    Ok(())
}

/// One name more in the crowd.
fn push_crowded(
    codes: &mut Codes,
    crowd: &mut Vec<u32>,
    names: &[List],
    name: &List,
) -> Result<(), NoMemory>
    requires { AreCoded names.now codes.old crowd.old.items }
    ensures pushed { OnOk result (AreCoded (names.now ++ name.now ∷ []) codes.new crowd.new.items) }
    ensures unchanged { OnErr result (AreCoded names.now codes.new crowd.new.items) }
{
    // The code goes again where the crowd finds no memory.
    codes.push(CROWDED)?;
    if join_crowd(crowd, names, name).is_err() {
        codes.pop();
        return Err(NoMemory);
    }
    Ok(())
}
