//! Structs as they stand in the input: the text of a run is lent.

ghost use Rattle.std.specs.Prelude.{◌≡◌, length};
ghost use Rattle.yd_units.specs.Text.{units_of};
ghost use Rattle.yd_ops.specs.Value.{clocks_of};
ghost use Rattle.yd_fields.specs.Lent.{lent_struct};

use std::marker::Model;
use yd_ids::Id;
use yd_ops::{List, Struct};

/// A text that is lent, with how many UTF-16 units it has. It is seen as its bytes.
#[derive(Drop)]
pub struct LentText<'a> {
    text: &'a str,
    len: u64,
}

impl<'a> Model for LentText<'a> {
    ghost use Rattle.std.specs.Prelude.{◌≡◌, ℕ, List, length};
    ghost use Rattle.yd_units.specs.Text.{units_of};

    ghost Value = { List ℕ };

    ghost view = { λ it. it.text.now };

    ghost invariant = { λ it. it.len ≡ length (units_of it.text.now) };
}

impl<'a> LentText<'a> {
    /// The text, whose units are counted once.
    pub fn new(text: &'a str) -> LentText<'a>
        ensures { result ≡ text.now }
    {
        let len = count_units(text);
        LentText { text, len }
    }

    /// How many UTF-16 units it has.
    pub fn len(&self) -> u64
        ensures { result ≡ length (units_of self.now) }
    {
        self.len
    }

    /// The text.
    pub fn as_str(&self) -> &'a str
        ensures { result.now ≡ self.now }
    {
        self.text
    }
}

/// A run of a text that is lent.
#[derive(Drop)]
pub struct LentRun<'a> {
    /// The id of the first unit.
    pub id: Id,
    /// The left origin of the first unit.
    pub left: Option<Id>,
    /// The right origin of each unit.
    pub right: Option<Id>,
    /// The list, where both origins are absent.
    pub list: Option<List>,
    /// The text of the units.
    pub text: LentText<'a>,
}

/// A struct of which a text is lent.
#[derive(Drop)]
pub enum LentStruct<'a> {
    /// A run of text.
    Text(LentRun<'a>),
    /// Any other struct.
    Made(Struct),
}

impl<'a> LentStruct<'a> {
    /// How many clocks it takes.
    pub fn len(&self) -> u64
        ensures { result ≡ clocks_of (lent_struct self.now) }
    {
        match self {
            LentStruct::Text(run) => run.text.len(),
            LentStruct::Made(entry) => entry.len(),
        }
    }
}

/// How many units a text has.
fn count_units(text: &str) -> u64
    ensures { result ≡ length (units_of text.now) }
{
    let mut count = 0;
    for c in text.chars() {
        count += c.len_utf16() as u64;
    }
    count
}
