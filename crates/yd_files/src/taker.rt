//! What takes files, one after another.

ghost use Rattle.std.specs.Prelude.{◌≡◌, [], IfErr, OnOk};
ghost use Rattle.yd_files.specs.Reading.{HaveTaken, RefusedBy, TakesFile, no_inputs};
ghost use Rattle.yd_files.specs.Seen.{inputs_with};
ghost use Rattle.yd_files.specs.Verdict.{HasFirstFaultIn, Inputs};

use crate::inputs::Others;
use crate::kind::Kind;
use crate::taking::take_file;
use std::alloc::Global;
use yd_parts::ReadError;
use yd_v1::UpdateTaker;

/// What takes what files stand for, one file after another.
pub trait FileTaker {
    /// This is what the files that it took stand for together.
    ghost took: { Self → Inputs → Type 0 };

    /// Takes what the bytes of a file of this kind stand for, or tells the first fault in them.
    /// After an error it is left open what was taken.
    fn take(&mut self, alloc: Global, kind: Kind, bytes: &[u8]) -> Result<(), ReadError>
        ensures taken { OnOk result (TakesFile kind bytes.now (took self.old) (took self.new)) }
        ensures refused { IfErr result (RefusedBy (HasFirstFaultIn kind bytes.now)) };
}

/// What files stand for, with their updates in a taker.
#[derive(Drop)]
pub struct Taken<T> {
    /// What is no update.
    pub others: Others,
    /// What took the updates.
    pub updates: T,
}

impl<T: UpdateTaker> Taken<T> {
    /// What no file stands for, if this taker took no update.
    pub fn new(alloc: Global, updates: T) -> Taken<T>
        ensures others { inputs_with result.others [] ≡ no_inputs }
        ensures updates { result.updates ≡ updates }
    {
        Taken {
            others: Others::new(alloc),
            updates,
        }
    }
}

impl<T: UpdateTaker> FileTaker for Taken<T> {
    ghost took = { λ it. HaveTaken it.others (T.took it.updates) };

    fn take(&mut self, alloc: Global, kind: Kind, bytes: &[u8]) -> Result<(), ReadError> {
        take_file(alloc, kind, bytes, &mut self.others, &mut self.updates)
    }
}
