//! A case: what the program is given, and what is wanted of it.

use crate::bytes::{number_of, read_bytes};
use crate::failing::Failing;
use crate::fronts::Fronts;
use crate::network::Network;
use crate::slip::Slip;
use crate::stored::{Stored, add_file, file_of};
use std::alloc::Global;

/// How many words may come in every order.
const MOST_IN_ANY_ORDER: usize = 6;

/// Words of one run.
#[derive(Drop)]
pub struct Run<'a> {
    /// The words, in their order.
    pub words: Vec<&'a str>,
    /// Words behind these, which come in each of their orders: at most six.
    pub loose: Vec<&'a str>,
}

/// A case. Each of its runs has to end in the one way that is wanted.
#[derive(Drop)]
pub struct Case<'a> {
    /// The line of its file on which it begins, from 1 on.
    pub line: u64,
    /// What it shows.
    pub name: &'a str,
    /// The files of its own. One goes before a shared file of the same name.
    pub files: Vec<Stored<'a>>,
    /// What is run.
    pub runs: Vec<Run<'a>>,
    /// The file of which each front is tried in place of the whole.
    pub fronts: Option<Fronts<'a>>,
    /// How many bytes a read gives at most, from 1 on.
    pub piece: Option<usize>,
    /// What fails of the library.
    pub library: Failing,
    /// What happens on the network, behind what happens in each case, and what is wanted of it.
    pub network: Network,
    /// What fails of the output.
    pub out: Failing,
    /// What fails of the error stream.
    pub err: Failing,
    /// The status that is wanted.
    pub status: Option<u8>,
    /// The bytes that are wanted on the output.
    pub wanted_out: Vec<u8>,
    /// The bytes that are wanted on the error stream.
    pub wanted_err: Vec<u8>,
    /// What is wanted there behind these bytes: this text, a space, the front's place, a line feed.
    pub err_at: Option<&'a str>,
}

impl<'a> Case<'a> {
    /// A case of this name that begins at a line.
    pub(crate) fn new(alloc: Global, line: u64, name: &'a str) -> Case<'a> {
        Case {
            line,
            name,
            files: Vec::new(alloc),
            runs: Vec::new(alloc),
            fronts: None,
            piece: None,
            library: Failing::new(alloc),
            network: Network::new(alloc),
            out: Failing::new(alloc),
            err: Failing::new(alloc),
            status: None,
            wanted_out: Vec::new(alloc),
            wanted_err: Vec::new(alloc),
            err_at: None,
        }
    }

    /// Takes a line of the case in, by its first word and what stands behind it. Its library has
    /// the shared files too.
    pub(crate) fn take(
        &mut self,
        alloc: Global,
        shared: &[Stored<'a>],
        word: &str,
        rest: &'a str,
    ) -> Result<(), Slip> {
        match word {
            "file" => add_file(alloc, &mut self.files, rest)?,
            "words" => self.add_run(alloc, rest)?,
            "word" => self.last_run()?.words.push(rest)?,
            "in-every-order" => self.add_loose(rest)?,
            "fronts" => self.set_fronts(alloc, shared, rest)?,
            "piece" => self.set_piece(rest)?,
            "library-fails" => self.library.take_call(rest)?,
            "out-fails" => self.out.take(rest)?,
            "err-fails" => self.err.take(rest)?,

            // What is wanted is one spelling of several: this says so to other implementations.
            "own-spelling" => {}
            "out-file" => {
                let bytes = file_of(self.files.as_slice(), shared, rest)?;
                self.wanted_out.extend_from_slice(bytes)?;
            }
            "err-at" => self.set_err_at(rest)?,
            _ => self.take_wanted(alloc, word, rest)?,
        }
        Ok(())
    }

    fn take_wanted(&mut self, alloc: Global, word: &str, rest: &str) -> Result<(), Slip> {
        match word {
            "status" => self.set_status(rest)?,
            "out" => add_line(&mut self.wanted_out, rest)?,
            "err" => add_line(&mut self.wanted_err, rest)?,
            "out-bytes" => read_bytes(alloc, &mut self.wanted_out, rest)?,
            "err-bytes" => read_bytes(alloc, &mut self.wanted_err, rest)?,
            _ => self.network.take(alloc, word, rest)?,
        }
        Ok(())
    }

    fn set_fronts(
        &mut self,
        alloc: Global,
        shared: &[Stored<'a>],
        text: &'a str,
    ) -> Result<(), Slip> {
        let (name, places) = text.split_once(' ').unwrap_or((text, ""));
        let len = file_of(self.files.as_slice(), shared, name)?.len();
        if self.fronts.is_some() {
            return Err(Slip::BadPlaces);
        }
        self.fronts = Some(Fronts::read(alloc, name, places, len)?);
        Ok(())
    }

    fn set_err_at(&mut self, text: &'a str) -> Result<(), Slip> {
        if self.fronts.is_none() || self.err_at.is_some() {
            return Err(Slip::NoFronts);
        }
        self.err_at = Some(text);
        Ok(())
    }

    fn set_piece(&mut self, text: &str) -> Result<(), Slip> {
        let piece = number_of(text)?;
        if piece == 0 || self.piece.is_some() {
            return Err(Slip::BadNumber);
        }
        self.piece = Some(piece as usize);
        Ok(())
    }

    fn set_status(&mut self, text: &str) -> Result<(), Slip> {
        let status = number_of(text)?;
        if status > 255 || self.status.is_some() {
            return Err(Slip::BadStatus);
        }
        self.status = Some(status as u8);
        Ok(())
    }

    fn add_run(&mut self, alloc: Global, text: &'a str) -> Result<(), Slip> {
        let mut run = Run {
            words: Vec::new(alloc),
            loose: Vec::new(alloc),
        };
        if !text.is_empty() {
            split_words(&mut run.words, text)?;
        }
        self.runs.push(run)?;
        Ok(())
    }

    fn add_loose(&mut self, text: &'a str) -> Result<(), Slip> {
        let loose = &mut self.last_run()?.loose;
        split_words(loose, text)?;
        if loose.len() > MOST_IN_ANY_ORDER {
            return Err(Slip::TooManyFiles);
        }
        Ok(())
    }

    fn last_run(&mut self) -> Result<&mut Run<'a>, Slip> {
        self.runs.last_mut().ok_or(Slip::NoWords)
    }
}

// Adds words that one space parts.
fn split_words<'a>(words: &mut Vec<&'a str>, text: &'a str) -> Result<(), Slip> {
    for word in text.split(' ') {
        if word.is_empty() {
            return Err(Slip::BadWords);
        }
        words.push(word)?;
    }
    Ok(())
}

fn add_line(bytes: &mut Vec<u8>, text: &str) -> Result<(), Slip> {
    bytes.extend_from_slice(text.as_bytes())?;
    bytes.push(b'\n')?;
    Ok(())
}
