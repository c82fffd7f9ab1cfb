//! What is told of a client: its clock, and its state.

ghost use Rattle.std.specs.Prelude.{◌≡◌, [], ◌∷◌, ◌++◌, IfOk, OnOk, OnErr};

use std::alloc::Global;
use std::marker::Model;
use yd_any::Text;
use yd_ids::Client;
use yd_parts::NoMemory;

/// What is told of a client (y-protocols, awareness). A state is the text of a JSON value, which is
/// not read, and never the text `null`.
#[derive(Drop)]
pub struct AwareEntry {
    /// Whose clock and state it is.
    pub client: Client,
    /// How often the client set its state or others ended it, below 2^53.
    pub clock: u64,
    /// The state, if the client has one.
    pub state: Option<Text>,
}

impl AwareEntry {
    /// The same entry once more.
    pub fn copy(&self) -> Result<AwareEntry, NoMemory>
        ensures { IfOk result (λ copy. copy ≡ self.now) }
    {
        let state = copy_state(&self.state)?;
        Ok(AwareEntry {
            client: self.client,
            clock: self.clock,
            state,
        })
    }
}

/// The same state once more.
pub(crate) fn copy_state(state: &Option<Text>) -> Result<Option<Text>, NoMemory>
    ensures { IfOk result (λ copy. copy ≡ state.now) }
{
    match state {
        None => Ok(None),
        Some(text) => Ok(Some(text.copy()?)),
    }
}

/// Entries in order.
#[derive(Drop)]
pub struct AwareList {
    entries: Vec<AwareEntry>,
}

impl Model for AwareList {
    ghost use Rattle.std.specs.Prelude.{List};
    ghost use Rattle.yd_sync.specs.declared.entry.AwareEntry.{AwareEntry};

    ghost Value = { List AwareEntry };

    ghost view = { λ it. it.entries.items };
}

impl AwareList {
    /// No entry.
    pub fn new(alloc: Global) -> AwareList
        ensures { result ≡ [] }
    {
        AwareList {
            entries: Vec::new(alloc),
        }
    }

    /// Appends an entry. One that finds no memory is dropped.
    pub fn push(&mut self, item: AwareEntry) -> Result<(), NoMemory>
        ensures appended { OnOk result (self.new ≡ self.old ++ item ∷ []) }
        ensures unchanged { OnErr result (self.new ≡ self.old) }
    {
        self.entries.push(item)?;
        Ok(())
    }

    /// The entries as they are lent.
    pub fn as_slice(&self) -> &[AwareEntry]
        ensures { result.now ≡ self.now }
    {
        self.entries.as_slice()
    }
}
