//! Bytes, and a text that grows after them.

ghost use Rattle.std.specs.Prelude.{◌≡◌, ◌++◌, [], ◌∷◌, OnOk, length};
ghost use Rattle.std.specs.Fmt.{signed_decimal};
ghost use Rattle.json.specs.Print.{escape, quoted};
ghost use Rattle.yd_value.specs.Texts.{Appends, comma_if, enclosed};

use crate::fault::NoMemory;
use crate::page::Page;
use crate::plain::is_plain;
use itoa::Buffer;
use json::Writer;
use std::marker::Model;
use std::mem;

/// Takes the text of a value, a piece at a time.
#[derive(Drop)]
pub struct Printer {
    page: Page,
    // Where the text begins.
    start: usize,
    // One text with its quotes and escapes.
    escaped: Vec<u8>,
}

impl Model for Printer {
    ghost use Rattle.std.specs.Prelude.{◌≤◌, length, take, drop};
    ghost use Rattle.yd_value.specs.Texts.{Printing};

    ghost Value = { Printing };

    ghost view = { λ p. record { before = take p.start p.page; text = drop p.start p.page } };

    ghost invariant = { λ p. p.start ≤ length p.page };
}

impl Printer {
    /// The text begins after these bytes.
    pub fn new(bytes: Vec<u8>) -> Printer
        ensures before { result.before ≡ bytes.items }
        ensures text { result.text ≡ [] }
    {
        let alloc = *bytes.allocator();
        let start = bytes.len();
        Printer {
            page: Page::new(bytes),
            start,
            escaped: Vec::new(alloc),
        }
    }

    /// The bytes and the text.
    pub fn into_bytes(self) -> Vec<u8>
        ensures { result.items ≡ self.before ++ self.text }
    {
        let Printer { page, .. } = self;
        page.into_bytes()
    }

    /// Appends these bytes as they are.
    #[inline(always)]
    pub fn put(&mut self, piece: &[u8]) -> Result<(), NoMemory>
        ensures { Appends result self.old self.new piece.now }
    {
        self.page.put(piece)?;
        Ok(())
    }

    /// Appends a comma where something stands in front.
    #[inline(always)]
    pub fn put_comma(&mut self, after: bool) -> Result<(), NoMemory>
        ensures { Appends result self.old self.new (comma_if after) }
    {
        if after {
            self.page.put(b",")?;
        }
        Ok(())
    }

    /// Appends a number.
    pub fn put_whole(&mut self, n: i64) -> Result<(), NoMemory>
        ensures { Appends result self.old self.new (signed_decimal n) }
    {
        self.put(Buffer::new().format(n).as_bytes())
    }

    /// Appends a text with its escapes, between what opens and what closes it.
    #[inline(always)]
    pub fn enclose(&mut self, opening: &[u8], text: &str, closing: &[u8]) -> Result<(), NoMemory>
        ensures { Appends result self.old self.new (enclosed opening.now text.now closing.now) }
    {
        self.put(opening)?;
        if is_plain(text.as_bytes()) {
            self.put(text.as_bytes())?;
        } else {
            self.put_escaped(text)?;
        }
        self.put(closing)
    }

    fn put_escaped(&mut self, text: &str) -> Result<(), NoMemory>
        ensures { Appends result self.old self.new (escape text.now) }
    {
        self.escaped.clear();
        quote(text, &mut self.escaped)?;
        let end = self.escaped.len() - 1;
        self.page.put(&self.escaped[1..end])?;
        Ok(())
    }
}

/// Fills an empty vector with a text in quotes.
#[tactic(auto, unfolding(json::specs::Print::print_from))]
fn quote(text: &str, out: &mut Vec<u8>) -> Result<(), NoMemory>
    requires { out.old.items ≡ [] }
    ensures { OnOk result (out.new.items ≡ quoted text.now) }
{
    let alloc = *out.allocator();
    let mut writer = Writer::new(mem::replace(out, Vec::new(alloc)));
    writer.string(text)?;
    *out = writer.into_inner();
    Ok(())
}
