//! A file of cases: files and a network that each of them has, and cases.

use crate::case::Case;
use crate::network::Network;
use crate::slip::{Fault, Slip};
use crate::stored::{Stored, add_file};
use std::alloc::Global;

/// What a file of cases has. The files that stand before the first case are in each library, and what
/// happens there happens first in each case.
#[derive(Drop)]
pub struct CaseFile<'a> {
    alloc: Global,
    /// The shared files.
    pub files: Vec<Stored<'a>>,
    /// What happens on the network first, and which calls to it fail.
    pub network: Network,
    /// The cases, in the order of the file. No two have one name.
    pub cases: Vec<Case<'a>>,
}

impl<'a> CaseFile<'a> {
    /// Reads a file of cases, to its end or to the first line with a slip.
    pub(crate) fn read(alloc: Global, text: &'a str) -> Result<CaseFile<'a>, Fault> {
        let mut file = CaseFile {
            alloc,
            files: Vec::new(alloc),
            network: Network::new(alloc),
            cases: Vec::new(alloc),
        };
        let mut line = 0u64;
        for text in text.lines() {
            line = line.saturating_add(1);
            if let Err(slip) = file.take(line, text) {
                return Err(Fault { line, slip });
            }
        }
        match file.end_case() {
            Err(slip) => Err(Fault { line, slip }),
            Ok(()) if file.cases.is_empty() => Err(Fault {
                line,
                slip: Slip::NoCase,
            }),
            Ok(()) => Ok(file),
        }
    }

    // An empty line and a line that begins with `#` say nothing.
    fn take(&mut self, line: u64, text: &'a str) -> Result<(), Slip> {
        if text.is_empty() || text.starts_with('#') {
            return Ok(());
        }
        let (word, rest) = text.split_once(' ').unwrap_or((text, ""));
        if word == "case" {
            return self.begin_case(line, rest);
        }
        match self.cases.last_mut() {
            Some(case) => case.take(self.alloc, self.files.as_slice(), word, rest),
            None if word == "file" => add_file(self.alloc, &mut self.files, rest),
            None => self.network.take(self.alloc, word, rest),
        }
    }

    fn begin_case(&mut self, line: u64, name: &'a str) -> Result<(), Slip> {
        self.end_case()?;
        if name.is_empty() || self.cases.iter().any(|case| case.name == name) {
            return Err(Slip::BadName);
        }
        self.cases.push(Case::new(self.alloc, line, name))?;
        Ok(())
    }

    // The case that is read is whole, or there is none.
    fn end_case(&self) -> Result<(), Slip> {
        match self.cases.last() {
            Some(case) if case.runs.is_empty() => Err(Slip::NoWords),
            Some(case) if case.status.is_none() => Err(Slip::BadStatus),
            _ => Ok(()),
        }
    }
}
