//! Reading a column of strings.

ghost use Rattle.std.specs.Prelude.{◌≡◌, IsUtf8};
ghost use Rattle.yd_cols.specs.Answer.{GivesNext};
ghost use Rattle.yd_cols.specs.Reading.{end_of_strings, next_string, strings_in};

use crate::fault::{ColCause, ColFault};
use crate::runs::cause_of;
use crate::string_cutting::string_of;
use crate::uint_reader::UintReader;
use std::marker::Model;
use yd_num::Cursor;

/// Reads a column of strings one by one, in time of the bytes that it reads, and lends each as a
/// part of the column (lib0, StringDecoder; that no string parts a pair is own). No call takes
/// memory.
#[derive(Drop)]
pub struct StringReader<'a> {
    text: &'a str,
    lengths: UintReader<'a>,
}

impl<'a> Model for StringReader<'a> {
    ghost use Rattle.yd_cols.specs.Reading.{StringsLeft};

    ghost Value = { StringsLeft };

    ghost view = { λ r. record { text = r.text.now; lengths = r.lengths } };
}

impl<'a> StringReader<'a> {
    /// A reader before the first string of a column, of which the joined text is read. A fault of
    /// that text has the place 0.
    #[tactic(auto, unfolding(crate::specs::Reading::strings_in))]
    pub fn new(bytes: &'a [u8]) -> Result<StringReader<'a>, ColFault>
        ensures { result ≡ strings_in bytes.now }
    {
        let mut cursor = Cursor::new(bytes);
        match cursor.text() {
            Err(fault) => Err(ColFault {
                cause: cause_of(fault),
                at: 0,
            }),
            Ok(text) => Ok(StringReader {
                text,
                lengths: UintReader::behind(cursor),
            }),
        }
    }

    /// The text that is left is UTF-8: a fact for callers' proofs.
    pub fn is_text(&self)
        ensures { IsUtf8 self.now.text }
    {
        // Only by its field is it known what the type of the text keeps.
        let _text: &str = self.text;
    }

    /// The place of the run that gave the length of the last string, in bytes from the column's
    /// first.
    pub fn place(&self) -> usize
        ensures { result ≡ self.now.lengths.at }
    {
        self.lengths.place()
    }

    /// Lends the next string. After a fault the same is answered again.
    #[tactic(auto, unfolding(crate::specs::Reading::next_string))]
    pub fn next(&mut self) -> Result<&'a str, ColFault>
        ensures { GivesNext (λ s. s.now) self.old self.new result (next_string self.old) }
    {
        let mut lengths = self.lengths.copy();
        let units = lengths.next()?;
        match string_of(self.text, units) {
            Err(cause) => Err(ColFault {
                cause,
                at: lengths.place(),
            }),
            Ok((string, rest)) => {
                self.text = rest;
                self.lengths = lengths;
                Ok(string)
            }
        }
    }

    /// Judges whether a length or a part of the text is left.
    pub fn finish(self) -> Result<(), ColFault>
        ensures { result ≡ end_of_strings self.entry }
    {
        let place = self.lengths.end_place();
        let is_empty = self.text.is_empty();
        self.lengths.finish()?;
        if is_empty {
            return Ok(());
        }
        Err(ColFault {
            cause: ColCause::ColumnLeft,
            at: place,
        })
    }
}
