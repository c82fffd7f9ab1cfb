//! The entries to undo and to do again.

ghost use Rattle.std.specs.Prelude.{◌≡◌, ◌<◌, ◌≤◌, ◌++◌, ◌∷◌, [], suc, length, IfOk, IfErr, OnOk, OnErr};
ghost use Rattle.yd_ops.specs.Valid.{IsValidUpdate};
ghost use Rattle.yd_ops.specs.View.{update_value};
ghost use Rattle.yd_undo.specs.Stacks.{newest, newest_entry, after_note, after_undo, after_redo, exchanged, IsUndone, IsUndoCause};

use crate::entry::{Entry, entry_of};
use crate::turn::{Turn, reserve_one, turn_of};
use std::alloc::Global;
use std::marker::Model;
use std::mem::swap;
use yd_doc::Replica;
use yd_ids::IdSet;
use yd_making::{EditFault, NoMemory};
use yd_ops::Update;

/// What can be undone and done again: entries, the newest last, no more than so many; and the ids of
/// which a deletion was noted or made. So a deletion that is made twice is undone once.
#[derive(Drop)]
pub struct Undo {
    alloc: Global,
    depth: u32,
    noted: IdSet,
    undo: Vec<Entry>,
    redo: Vec<Entry>,
}

impl Model for Undo {
    ghost use Rattle.yd_undo.specs.Stacks.{Stacks, AreStacks};

    ghost Value = { Stacks };

    ghost view = { λ it. record {
      depth = it.depth;
      noted = it.noted;
      undo = it.undo.items;
      redo = it.redo.items;
    } };

    ghost invariant = { λ it. AreStacks (record {
      depth = it.depth;
      noted = it.noted;
      undo = it.undo.items;
      redo = it.redo.items;
    }) };
}

impl Undo {
    /// No entry, and room for so many.
    pub fn new(alloc: Global, depth: u32) -> Undo
        requires { 0 < depth }
        ensures { result ≡ record { depth = depth; noted = []; undo = []; redo = [] } }
    {
        Undo {
            alloc,
            depth,
            noted: IdSet::new(alloc),
            undo: Vec::new(alloc),
            redo: Vec::new(alloc),
        }
    }

    /// Notes an update as the newest entry, an empty one too. The oldest entry beyond the depth is
    /// dropped, but its deletions stay noted, and there is nothing to do again. It takes time with the
    /// update, with what was noted, and for each span of its deletions with what was noted too.
    pub fn note(&mut self, update: &Update) -> Result<(), NoMemory>
        requires { IsValidUpdate (update_value update.now) }
        ensures noted { OnOk result (self.new ≡ after_note self.old (update_value update.now)) }
        ensures unchanged { OnErr result (self.new ≡ self.old) }
    {
        let entry = entry_of(self.alloc, &self.noted, update)?;
        let mut noted = self.noted.copy()?;
        noted.union(&update.deletes)?;
        self.undo.push(entry)?;
        keep_newest(&mut self.undo, self.depth);
        self.redo.clear();
        self.noted = noted;
        Ok(())
    }

    /// Undoes the newest entry, as one edit of the replica, and answers its update. The update becomes
    /// the newest entry to do again, also where it is empty.
    ///
    /// First the entry's inserted ids that are live are removed, and nothing else. Then what it deleted
    /// is made again: in lists without a key in groups, each directly before its first unit, and in a
    /// list with a key the one that stands last, at the end. `Nothing` where there is no entry; else it
    /// refuses as `edit` of these steps does. After any refusal, want of memory included, entries and
    /// replica are as they were. What is made again and where is own.
    ///
    /// It takes time as `edit` of its steps does, as a look-up for each deleted id that is held, and for
    /// each group and each id in a list with a key as reading its list by pieces does.
    pub fn undo(&mut self, replica: &mut Replica) -> Result<Update, EditFault>
        ensures done { IfOk result (λ update. IsUndone (newest_entry self.old.undo)
            replica.old replica.new (update_value update)) }
        ensures stacks { IfOk result (λ update.
            self.new ≡ after_undo self.old (update_value update)) }
        ensures refused { IfErr result (λ fault.
            IsUndoCause fault (newest_entry self.old.undo) replica.old) }
        ensures unchanged { OnErr result ((self.new ≡ self.old) × (replica.new ≡ replica.old)) }
    {
        let Turn {
            update,
            entry,
            noted,
        } = turn_of(self.alloc, replica, &self.noted, self.undo.as_slice())?;
        reserve_one(&mut self.redo)?;
        replica.commit(&update)?;
        self.undo.pop();
        self.redo.push_reserved(entry);
        self.noted = noted;
        Ok(update)
    }

    /// Undoes the newest undo: as `undo`, with the entries to undo and those to do again exchanged.
    pub fn redo(&mut self, replica: &mut Replica) -> Result<Update, EditFault>
        ensures done { IfOk result (λ update. IsUndone (newest_entry self.old.redo)
            replica.old replica.new (update_value update)) }
        ensures stacks { IfOk result (λ update.
            self.new ≡ after_redo self.old (update_value update)) }
        ensures refused { IfErr result (λ fault.
            IsUndoCause fault (newest_entry self.old.redo) replica.old) }
        ensures unchanged { OnErr result ((self.new ≡ self.old) × (replica.new ≡ replica.old)) }
    {
        self.exchange();
        let result = self.undo(replica);
        self.exchange();
        result
    }

    /// Exchanges the entries to undo and those to do again.
    fn exchange(&mut self)
        ensures { self.new ≡ exchanged self.old }
    {
        swap(&mut self.undo, &mut self.redo);
    }
}

/// Drops the oldest entry where there is one more than are kept.
fn keep_newest(entries: &mut Vec<Entry>, depth: u32)
    requires { length entries.old.items ≤ suc depth }
    ensures { entries.new.items ≡ newest depth entries.old.items }
{
    if entries.len() > depth as usize {
        entries.remove(0);
    }
}
