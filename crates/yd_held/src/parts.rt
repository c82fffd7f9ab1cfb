//! What is held of what was received, and what it was before a change.

ghost use Rattle.std.specs.Prelude.{◌≡◌, IfOk};
ghost use Rattle.yd_held.specs.Held.{held_value};
ghost use Rattle.yd_held.specs.Changing.{IsOf, back_to, received_before};
ghost use Rattle.yd_held.specs.Twin.{IsTwinOf};
ghost use Rattle.yd_received.specs.Received.{IsReceived};

use crate::fault::NoMemory;
use crate::noting::Lack;
use crate::twin::same_again;
use yd_ids::Vector;
use yd_names::Names;
use yd_received::{Entries, Received};

/// What was received, and what is held of it, while it changes.
#[derive(Drop)]
pub struct HeldParts {
    /// What was received.
    pub received: Received,
    /// The clock up to which each client's units are held.
    pub vector: Vector,
    /// The lists with units that stand, by number.
    pub names: Names,
    /// What the next units of clients lack, by the ids that they lack.
    pub lacks: Vec<Lack>,
}

/// What it was before a change, as far as the change does not tell any more.
#[derive(Drop)]
pub struct Before {
    /// How many runs there were.
    pub runs: usize,
    /// What is kept of the entries and the lists.
    pub kept: Kept,
    /// The clocks that were reached.
    pub vector: Vector,
    /// What was lacked.
    pub lacks: Vec<Lack>,
}

/// What is kept of the entries and the lists that there were.
#[derive(Drop)]
pub enum Kept {
    /// Others are only added, so it is enough how many lists there were.
    Count(usize),
    /// What was held stays held, and less is told of some entries: so these are kept, and how many
    /// lists there were.
    Entries(Entries, usize),
    /// All is held anew, so the entries are kept, and the lists.
    All(Entries, Names),
}

impl HeldParts {
    /// What it is before a change that only adds to it. It copies what is lacked, and the clocks
    /// where they have no twin.
    pub(crate) fn before(&self, twin: Option<Vector>) -> Result<Before, NoMemory>
        requires { IsTwinOf self.now.vector twin }
        ensures { IfOk result (IsOf (held_value self.now)) }
    {
        let alloc = self.received.allocator();
        Ok(Before {
            runs: self.received.runs().len(),
            kept: Kept::Count(self.names.len()),
            vector: same_again(&self.vector, twin)?,
            lacks: Vec::from_slice(alloc, &self.lacks)?,
        })
    }

    /// Puts back what it was. Where others were only added, what was added to the runs and the
    /// lists goes, and what was taken of them, and units above the old clocks wait again.
    pub(crate) fn put_back(&mut self, before: Before)
        requires { IsReceived (received_before before.kept before.runs before.vector
            self.old.received) }
        ensures { held_value self.new ≡ back_to before (held_value self.old) }
    {
        let Before {
            runs,
            kept,
            vector,
            lacks,
        } = before;
        match kept {
            Kept::Count(lists) => {
                self.received.put_back(runs, &vector);
                self.names.truncate(lists);
            }
            Kept::Entries(entries, lists) => {
                self.received.put_back_entries(runs, entries);
                self.names.truncate(lists);
            }
            Kept::All(entries, lists) => {
                self.received.put_back_entries(runs, entries);
                self.names = lists;
            }
        }
        self.vector = vector;
        self.lacks = lacks;
    }
}
