//! What is reported of a file of cases.

use crate::case::Case;
use crate::slip::Slip;
use std::alloc::Global;
use yd_app::Word;

/// The lines of a file's mismatches, and how many cases and runs were played.
#[derive(Drop)]
pub struct Report {
    alloc: Global,
    /// A line for each mismatch.
    pub lines: Vec<String>,
    /// How many cases were played.
    pub cases: u64,
    /// How many of them had no mismatch.
    pub passed: u64,
    /// How many runs were played.
    pub runs: u64,
}

/// A case, and what it was played with.
#[derive(Clone, Copy)]
pub struct Wanted<'a> {
    /// The case.
    pub case: &'a Case<'a>,
    /// The words.
    pub words: &'a [Word],
    /// How many bytes of the case's file were there, where it asks for fronts.
    pub front: Option<usize>,
}

impl Report {
    /// Nothing was played yet.
    pub(crate) fn new(alloc: Global) -> Report {
        Report {
            alloc,
            lines: Vec::new(alloc),
            cases: 0,
            passed: 0,
            runs: 0,
        }
    }

    /// How many mismatches there are.
    pub(crate) fn mismatches(&self) -> usize {
        self.lines.len()
    }

    /// One more case was played.
    pub(crate) fn end_case(&mut self, passed: bool) {
        self.cases = self.cases.saturating_add(1);
        if passed {
            self.passed = self.passed.saturating_add(1);
        }
    }

    /// One more run ended, with this status.
    pub(crate) fn expect_status(&mut self, wanted: Wanted<'_>, got: u8) -> Result<(), Slip> {
        self.runs = self.runs.saturating_add(1);
        if wanted.case.status == Some(got) {
            return Ok(());
        }
        let status = wanted.case.status.unwrap_or(0);
        let what = format!(in self.alloc; "status: wanted {status}, got {got}")?;
        self.add(wanted, what.as_str())
    }

    /// Wants these bytes on a stream.
    pub(crate) fn expect_bytes(
        &mut self,
        wanted: Wanted<'_>,
        stream: &str,
        want: &[u8],
        got: &[u8],
    ) -> Result<(), Slip> {
        if want == got {
            return Ok(());
        }
        let (want, got) = (told(self.alloc, want)?, told(self.alloc, got)?);
        let what = format!(in self.alloc; "{stream}: wanted {want}, got {got}")?;
        self.add(wanted, what.as_str())
    }

    fn add(&mut self, wanted: Wanted<'_>, what: &str) -> Result<(), Slip> {
        let (line, name) = (wanted.case.line, wanted.case.name);
        let mut text = format!(in self.alloc; "line {line}: {name}: {what}, of")?;
        for word in wanted.words {
            text.push_str(" ")?;
            text.push_str(word.as_str())?;
        }
        if let Some(len) = wanted.front {
            let cut = format!(in self.alloc; ", cut to {len} bytes")?;
            text.push_str(cut.as_str())?;
        }
        self.lines.push(text)?;
        Ok(())
    }
}

// Bytes as text in quotes, or, where they are none or have signs that do not print, in hexadecimal
// digits.
fn told(alloc: Global, bytes: &[u8]) -> Result<String, Slip> {
    let told = match str::from_utf8(bytes) {
        Ok(text) if bytes.iter().all(|&byte| byte >= b' ' || byte == b'\n') => {
            format!(in alloc; "{text:?}")?
        }
        _ => hex::encode(alloc, bytes)?,
    };
    Ok(told)
}
