//! The commands: the table of their names, the words that each has, and the files that it wants.

ghost use Rattle.std.specs.Prelude.{◌≡◌, ◌↔◌, IfSome, IfNone, IsTrue, Some, None, map, option_map};
ghost use Rattle.yd_files.specs.Seen.{file_of};
ghost use Rattle.yd_asking.specs.Command.{AreWanted, IsOnline, command_of as seen, given_files, own_files, wanted_by};
ghost use Rattle.yd_asking.specs.Table.{command_in, convert_in, cut_in, edit_in, generate_in, merge_in, row_in, serve_in, show_in, sync_in, table};

use crate::format::{Format, format_named};
use crate::mode::mode_named;
use crate::number::number_of;
use crate::word::Word;
use yd_files::{File, Kind};
use yd_ids::Client;
use yd_modes::Mode;

/// Numbers of clients are below this.
const CLIENTS: u64 = 1 << 53;

/// Numbers of turns are below this.
const TURNS: u64 = 1 << 32;

/// Numbers of steps are below this.
const STEPS: u64 = 1_000_001;

/// What is done with files.
#[derive(Clone, Copy)]
pub enum Command<'a> {
    /// The root of this name is shown in a mode, of all that the files hold.
    Show { mode: Mode, root: &'a str },
    /// The file's update is written in this format.
    Convert { form: Format },
    /// All updates are written as one log.
    Pack,
    /// All updates are written as one, in this format.
    Merge { form: Format },
    /// The clock that each client reaches in all updates together is written.
    Vector,
    /// What the file's update has from the state vector under this name on is written in the file's
    /// format.
    Cut { vector: &'a str },
    /// The script under this name is played by this client on what the files hold, and what its lines
    /// made is written as one update.
    Edit { client: Client, script: &'a str },
    /// It is told how much all updates hold, and whether they agree and keep the edit rules.
    Check,
    /// The file's update is served at the address for so many turns, and all that the server then
    /// has is written in the file's format.
    Serve { address: &'a str, turns: u64 },
    /// The file's update is brought in step with a server at the address, in so many turns at most,
    /// and all that the client then has is written in the file's format.
    Sync { address: &'a str, turns: u64 },
    /// A large text is made by so many steps of three replicas, and it is told how much of it is there
    /// and whether they end equal.
    Generate { steps: u64 },
}

/// Which files a command wants.
#[derive(Clone, Copy)]
pub enum Wanted {
    /// One or more.
    Several,
    /// One, which stands for one update.
    OneUpdate,
    /// None or more.
    Any,
    /// None.
    NoFile,
}

impl<'a> Command<'a> {
    /// Which files it wants.
    pub fn wants(self) -> Wanted
        ensures { result ≡ wanted_by (seen self.entry) }
    {
        match self {
            Command::Show { .. } => Wanted::Several,
            Command::Convert { .. } => Wanted::OneUpdate,
            Command::Pack => Wanted::Several,
            Command::Merge { .. } => Wanted::Several,
            Command::Vector => Wanted::Several,
            Command::Cut { .. } => Wanted::OneUpdate,
            Command::Edit { .. } => Wanted::Any,
            Command::Check => Wanted::Several,
            Command::Serve { .. } => Wanted::OneUpdate,
            Command::Sync { .. } => Wanted::OneUpdate,
            Command::Generate { .. } => Wanted::NoFile,
        }
    }

    /// Whether it uses the network.
    pub fn is_online(self) -> bool
        ensures { IsTrue result ↔ IsOnline (seen self.entry) }
    {
        match self {
            Command::Serve { .. } => true,
            Command::Sync { .. } => true,
            _ => false,
        }
    }

    /// The file that its own words name, which is read before all others.
    pub fn own_file(self) -> Option<File<'a>>
        ensures { own_files (seen self.entry) ≡ given_files (option_map file_of result) }
    {
        match self {
            Command::Cut { vector } => Some(File {
                kind: Kind::Vector,
                name: vector,
            }),
            Command::Edit { script, .. } => Some(File {
                kind: Kind::Script,
                name: script,
            }),
            _ => None,
        }
    }
}

/// Whether the files are those that are wanted.
pub fn are_wanted(wanted: Wanted, files: &[File<'_>]) -> bool
    ensures { IsTrue result ↔ AreWanted wanted (map file_of files.now) }
{
    match wanted {
        Wanted::Several => !files.is_empty(),
        Wanted::OneUpdate => is_one_update(files),
        Wanted::Any => true,
        Wanted::NoFile => files.is_empty(),
    }
}

// Whether it is one file that stands for one update.
fn is_one_update(files: &[File<'_>]) -> bool
    ensures { IsTrue result ↔ AreWanted Wanted.OneUpdate (map file_of files.now) }
{
    match files {
        [file] => file.kind.is_one_update(),
        _ => false,
    }
}

/// The command that the words begin with, and the words behind it, which are to name its files.
pub fn command_of(words: &[Word]) -> Option<(Command<'_>, &[Word])>
    ensures found { IfSome result (λ both.
        command_in words.now ≡ Some (seen both.0, both.1.now)) }
    ensures none { IfNone result (command_in words.now ≡ None) }
{
    match words {
        [name, rest @ ..] => command_named(name.as_str(), rest),
        _ => None,
    }
}

// The command of the name, read of the words behind it.
fn command_named<'a>(name: &str, words: &'a [Word]) -> Option<(Command<'a>, &'a [Word])>
    ensures found { IfSome result (λ both.
        row_in table name.now words.now ≡ Some (seen both.0, both.1.now)) }
    ensures none { IfNone result (row_in table name.now words.now ≡ None) }
{
    if name == "show" {
        return show_of(words);
    }
    if name == "convert" {
        return convert_of(words);
    }
    if name == "pack" {
        return Some((Command::Pack, words));
    }
    if name == "merge" {
        return merge_of(words);
    }
    if name == "vector" {
        return Some((Command::Vector, words));
    }
    if name == "cut" {
        return cut_of(words);
    }
    if name == "edit" {
        return edit_of(words);
    }
    if name == "check" {
        return Some((Command::Check, words));
    }
    if name == "serve" {
        return serve_of(words);
    }
    if name == "sync" {
        return sync_of(words);
    }
    if name == "generate" {
        return generate_of(words);
    }
    None
}

// `MODE NAME`
fn show_of(words: &[Word]) -> Option<(Command<'_>, &[Word])>
    ensures found { IfSome result (λ both. show_in words.now ≡ Some (seen both.0, both.1.now)) }
    ensures none { IfNone result (show_in words.now ≡ None) }
{
    match words {
        [mode, root, names @ ..] => {
            let mode = mode_named(mode.as_str())?;
            let root = root.as_str();
            Some((Command::Show { mode, root }, names))
        }
        _ => None,
    }
}

// `FORM`
fn convert_of(words: &[Word]) -> Option<(Command<'_>, &[Word])>
    ensures found { IfSome result (λ both. convert_in words.now ≡ Some (seen both.0, both.1.now)) }
    ensures none { IfNone result (convert_in words.now ≡ None) }
{
    match words {
        [form, names @ ..] => {
            let form = format_named(form.as_str())?;
            Some((Command::Convert { form }, names))
        }
        _ => None,
    }
}

// `FORM`
fn merge_of(words: &[Word]) -> Option<(Command<'_>, &[Word])>
    ensures found { IfSome result (λ both. merge_in words.now ≡ Some (seen both.0, both.1.now)) }
    ensures none { IfNone result (merge_in words.now ≡ None) }
{
    match words {
        [form, names @ ..] => {
            let form = format_named(form.as_str())?;
            Some((Command::Merge { form }, names))
        }
        _ => None,
    }
}

// `VECTORFILE`
fn cut_of(words: &[Word]) -> Option<(Command<'_>, &[Word])>
    ensures found { IfSome result (λ both. cut_in words.now ≡ Some (seen both.0, both.1.now)) }
    ensures none { IfNone result (cut_in words.now ≡ None) }
{
    match words {
        [vector, names @ ..] => {
            let vector = vector.as_str();
            Some((Command::Cut { vector }, names))
        }
        _ => None,
    }
}

// `CLIENT SCRIPT`
fn edit_of(words: &[Word]) -> Option<(Command<'_>, &[Word])>
    ensures found { IfSome result (λ both. edit_in words.now ≡ Some (seen both.0, both.1.now)) }
    ensures none { IfNone result (edit_in words.now ≡ None) }
{
    match words {
        [client, script, names @ ..] => {
            let number = number_of(client.as_str(), CLIENTS)?;
            let client = Client(number);
            let script = script.as_str();
            Some((Command::Edit { client, script }, names))
        }
        _ => None,
    }
}

// `ADDRESS TURNS`
fn serve_of(words: &[Word]) -> Option<(Command<'_>, &[Word])>
    ensures found { IfSome result (λ both. serve_in words.now ≡ Some (seen both.0, both.1.now)) }
    ensures none { IfNone result (serve_in words.now ≡ None) }
{
    match words {
        [address, turns, names @ ..] => {
            let turns = number_of(turns.as_str(), TURNS)?;
            let address = address.as_str();
            Some((Command::Serve { address, turns }, names))
        }
        _ => None,
    }
}

// `ADDRESS TURNS`
fn sync_of(words: &[Word]) -> Option<(Command<'_>, &[Word])>
    ensures found { IfSome result (λ both. sync_in words.now ≡ Some (seen both.0, both.1.now)) }
    ensures none { IfNone result (sync_in words.now ≡ None) }
{
    match words {
        [address, turns, names @ ..] => {
            let turns = number_of(turns.as_str(), TURNS)?;
            let address = address.as_str();
            Some((Command::Sync { address, turns }, names))
        }
        _ => None,
    }
}

// `N`
fn generate_of(words: &[Word]) -> Option<(Command<'_>, &[Word])>
    ensures found { IfSome result (λ both. generate_in words.now ≡ Some (seen both.0, both.1.now)) }
    ensures none { IfNone result (generate_in words.now ≡ None) }
{
    match words {
        [steps, names @ ..] => {
            let steps = number_of(steps.as_str(), STEPS)?;
            Some((Command::Generate { steps }, names))
        }
        _ => None,
    }
}
