//! What the words ask for.

ghost use Rattle.std.specs.Prelude.{◌≡◌, ◌++◌, map, option_map, IfOk, IfErr};
ghost use Rattle.yd_words.specs.Each.{Each};
ghost use Rattle.yd_files.specs.Files.{IsNamed, file_word};
ghost use Rattle.yd_files.specs.Seen.{file_of as seen};
ghost use Rattle.yd_asking.specs.Asking.{StopsAsking, StopsNaming};
ghost use Rattle.yd_asking.specs.Command.{command_of as command_seen, given_files};
ghost use Rattle.yd_asking.specs.Words.{Asks};

use crate::command::{Command, are_wanted, command_of};
use crate::fault::NoMemory;
use crate::word::Word;
use std::alloc::Global;
use yd_ending::Stop;
use yd_files::{File, file_of};

/// A command of files.
#[derive(Drop)]
pub struct Request<'a> {
    /// What is done.
    pub command: Command<'a>,
    /// The files, in the order of the words.
    pub files: Vec<File<'a>>,
}

/// What the words ask for, if they are of a form.
pub fn request_of(alloc: Global, words: &[Word]) -> Result<Request<'_>, Stop<'_>>
    ensures found { IfOk result (λ request. Asks words.now
        (command_seen request.command) (map seen request.files.items)) }
    ensures stops { IfErr result (StopsAsking words.now) }
{
    let Some((command, names)) = command_of(words) else {
        return Err(Stop::Usage);
    };
    let named = named_files(alloc, names)?;
    if !are_wanted(command.wants(), named.as_slice()) {
        return Err(Stop::Usage);
    }
    let files = with_own(alloc, command.own_file(), named)?;
    Ok(Request { command, files })
}

// The files with the command's own in front, if it has one.
fn with_own<'a>(
    alloc: Global,
    own: Option<File<'a>>,
    named: Vec<File<'a>>,
) -> Result<Vec<File<'a>>, NoMemory>
    ensures { IfOk result (λ files. map seen files.items
        ≡ given_files (option_map seen own.entry) ++ map seen named.entry.items) }
{
    match own {
        None => Ok(named),
        Some(file) => {
            let mut rest = named;
            let mut all = Vec::new(alloc);
            all.push(file)?;
            all.append(&mut rest)?;
            Ok(all)
        }
    }
}

// The files that the words name, if each names one.
fn named_files(alloc: Global, words: &[Word]) -> Result<Vec<File<'_>>, Stop<'_>>
    ensures found { IfOk result (λ files. (words.now ≡ map file_word (map seen files.items))
        × Each IsNamed (map seen files.items)) }
    ensures stops { IfErr result (StopsNaming words.now) }
{
    let mut files = Vec::new(alloc);
    for word in words {
        let Some(file) = file_of(word.as_str()) else {
            return Err(Stop::Usage);
        };
        files.push(file)?;
    }
    Ok(files)
}
