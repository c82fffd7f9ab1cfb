//! The lines of a script.

ghost use Rattle.std.specs.Prelude.{◌≡◌, ◌∷◌, ◌≢◌, ◌+◌, ◌^◌, ◌<◌, [], length, IfSome, MatchOption};
ghost use Rattle.yd_script.specs.Lines.{lines_behind, lines_of, numbered_of, script_lines};

use std::marker::Model;

/// The lines of a script that are not empty, one after another. A line ends with a line feed, and
/// the last may lack it.
#[derive(Drop)]
pub struct Lines<'a> {
    rest: &'a str,
    before: u64,
}

impl<'a> Model for Lines<'a> {
    ghost use Rattle.std.specs.Prelude.{◌+◌, ◌^◌, ◌<◌, List, length};
    ghost use Rattle.yd_script.specs.Lines.{Numbered, lines_behind};

    ghost Value = { List Numbered };

    ghost view = { λ it. lines_behind it.before it.rest.now };

    ghost invariant = { λ it. it.before + length it.rest.now < 2 ^ 63 };
}

/// A line, and its number from 1. Empty lines count.
#[derive(Drop)]
pub struct NumberedLine<'a> {
    /// Its number.
    pub number: u64,
    /// Its text, without the line feed.
    pub text: &'a str,
}

impl<'a> Lines<'a> {
    /// The lines of a text.
    pub fn of(text: &'a str) -> Lines<'a>
        ensures { result ≡ script_lines text.now }
    {
        Lines {
            rest: text,
            before: 0,
        }
    }

    /// The next line that is not empty.
    pub fn next(&mut self) -> Option<NumberedLine<'a>>
        ensures { MatchOption result (self.old ≡ [])
            (λ line. self.old ≡ numbered_of line ∷ self.new) }
    {
        let (line, rest) = next_line(self.rest, self.before)?;
        self.before = line.number;
        self.rest = rest;
        Some(line)
    }
}

// The first line that is not empty, behind so many lines, and what is behind it.
fn next_line(text: &str, before: u64) -> Option<(NumberedLine<'_>, &str)>
    requires { before + length text.now < 2 ^ 63 }
    ensures lines { MatchOption result (lines_behind before text.now ≡ []) (λ both.
        lines_behind before text.now ≡ numbered_of both.0 ∷ lines_behind both.0.number both.1.now) }
    ensures few { IfSome result (λ both. both.0.number + length both.1.now < 2 ^ 63) }
{
    let mut rest = text;
    let mut number = before;
    while !rest.is_empty() {
        let (line, behind) = first_line(rest);
        number += 1;
        rest = behind;
        if !line.is_empty() {
            return Some((NumberedLine { number, text: line }, rest));
        }
    }
    None
}

// The first line, and what is behind it.
fn first_line(text: &str) -> (&str, &str)
    requires { text.now ≢ [] }
    ensures lines { lines_of text.now ≡ result.0.now ∷ lines_of result.1.now }
    ensures shorter { length result.1.now < length text.now }
{
    match text.split_once('\n') {
        Some(both) => both,
        None => (text, ""),
    }
}
