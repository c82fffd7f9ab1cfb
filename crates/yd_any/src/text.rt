//! Texts, each seen as the list of its bytes.

ghost use Rattle.std.specs.Prelude.{◌≡◌, IfOk, string_bytes};
ghost use Rattle.std.specs.Str.{IsUtf8};

use crate::fault::NoMemory;
use std::alloc::Global;
use std::marker::Model;
use std::rc::RcStr;

/// UTF-8 text that does not change. Copies share its bytes.
#[derive(Debug, Drop)]
pub struct Text {
    text: RcStr,
}

impl Model for Text {
    ghost use Rattle.std.specs.Prelude.{List, ℕ};
    ghost use Rattle.std.specs.Rc.{rc_str_bytes};

    ghost Value = { List ℕ };

    ghost view = { λ t. rc_str_bytes t.text };
}

impl Text {
    /// A text with these bytes.
    pub fn copy_of(alloc: Global, text: &str) -> Result<Text, NoMemory>
        ensures { IfOk result (λ t. t ≡ text.now) }
    {
        Ok(Text {
            text: RcStr::from_str(alloc, text)?,
        })
    }

    /// The text of a string.
    pub(crate) fn of_string(text: String) -> Result<Text, NoMemory>
        ensures { IfOk result (λ t. t ≡ string_bytes text) }
    {
        Ok(Text {
            text: RcStr::from_string(text)?,
        })
    }

    /// The text that these bytes are.
    pub(crate) fn of_bytes(bytes: Vec<u8>) -> Result<Text, NoMemory>
        requires { IsUtf8 bytes.items }
        ensures { IfOk result (λ t. t ≡ bytes.items) }
    {
        Text::of_string(String::from_utf8(bytes).unwrap())
    }

    /// The text as it is lent.
    pub fn as_str(&self) -> &str
        ensures { result.now ≡ self.now }
    {
        self.text.as_str()
    }

    /// The same text once more. It takes no memory, and ends as without memory where a number of copies is
    /// reached that no machine holds.
    pub fn copy(&self) -> Result<Text, NoMemory>
        ensures { IfOk result (λ t. t ≡ self.now) }
    {
        Ok(Text {
            text: self.text.clone()?,
        })
    }
}
