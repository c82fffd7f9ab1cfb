//! The system's files.

ghost use Rattle.std.specs.Prelude.{◌≡◌, ◌≤◌, ◌||◌, false, None, Ok, length, is_err, is_ok, IfOk};
ghost use Rattle.yd_world.specs.FileLibrary.{nothing_open};
ghost use Rattle.yd_world.specs.Plan.{counted_fault};

use crate::fault::Failed;
use crate::library::Library;
use crate::plan::one_more;
use std::fs;
use std::io::Read;
use std::marker::Model;
use std::rt::Files;

/// Files of the system by their paths. It tells nothing of their bytes, and after a `begin` that
/// failed the earlier file stays open (own).
#[derive(Drop)]
pub struct FileLibrary<R: Files + Drop> {
    files: R,
    file: Option<R::File>,
    faults: u64,
}

impl<R: Files + Drop> Model for FileLibrary<R> {
    ghost use Rattle.std.specs.Prelude.{is_some};
    ghost use Rattle.yd_world.specs.FileLibrary.{FileState};

    ghost Value = { FileState };

    ghost view = { λ l. record { is_open = is_some l.file; faults = l.faults } };
}

impl<R: Files + Drop> FileLibrary<R> {
    /// No file is open, and there is no fault.
    pub fn new(files: R) -> Self
        ensures { result ≡ nothing_open }
    {
        FileLibrary {
            files,
            file: None,
            faults: 0,
        }
    }
}

impl<R: Files + Drop> Library for FileLibrary<R> {
    ghost told = { λ _. None };

    ghost faults = { λ l. l.faults };

    ghost is_calm = { λ _. ⊥ };

    fn begin(&mut self, name: &str) -> Result<(), Failed>
        ensures opens { self.new.is_open ≡ (is_ok result || self.old.is_open) }
        ensures counts { self.new.faults ≡ counted_fault self.old.faults (is_err result) }
    {
        match fs::open(&self.files, name) {
            Ok(file) => {
                self.file = Some(file);
                Ok(())
            }
            Err(_) => {
                self.faults = one_more(self.faults);
                Err(Failed)
            }
        }
    }

    fn read(&mut self, into: &mut [u8]) -> Result<usize, Failed>
        ensures within { IfOk result (λ count. count ≤ length into.new) }
        ensures before { self.old.is_open ≡ false → result ≡ Ok 0 }
        ensures stays { self.new.is_open ≡ self.old.is_open }
        ensures counts { self.new.faults ≡ counted_fault self.old.faults (is_err result) }
    {
        let Some(file) = &mut self.file else {
            return Ok(0);
        };
        match file.read(into) {
            Ok(count) => Ok(count),
            Err(_) => {
                self.faults = one_more(self.faults);
                Err(Failed)
            }
        }
    }
}
