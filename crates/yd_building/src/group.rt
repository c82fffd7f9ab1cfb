//! What one struct has.

ghost use Rattle.std.specs.Prelude.{◌≡◌, true, OnOk, OnErr};
ghost use Rattle.yd_ids.specs.Ids.{is_same};
ghost use Rattle.yd_ops.specs.Operation.{later_id};
ghost use Rattle.yd_ops.specs.View.{struct_value};
ghost use Rattle.yd_grouping.specs.Groups.{start_of, size_of, struct_of, group_joins, joined_group};
ghost use Rattle.yd_building.specs.Builder.{group_value};

use crate::fault::NoMemory;
use yd_ids::Id;
use yd_ops::{Run, Struct};

/// What one struct has: a run, or gone units.
#[derive(Drop)]
pub enum Group {
    /// A run.
    Run(Run),
    /// So many gone units, from an id on.
    Gone(Id, u64),
}

impl Group {
    /// The id of its first unit.
    pub fn id(&self) -> Id
        ensures { result ≡ start_of (group_value self.now) }
    {
        match self {
            Group::Run(run) => run.id,
            Group::Gone(id, _) => *id,
        }
    }

    /// How many units it has.
    pub fn len(&self) -> u64
        ensures { result ≡ size_of (group_value self.now) }
    {
        match self {
            Group::Run(run) => run.len(),
            Group::Gone(_, count) => *count,
        }
    }

    /// Its struct.
    pub fn into_struct(self) -> Struct
        ensures { struct_value result ≡ struct_of (group_value self) }
    {
        match self {
            Group::Run(run) => Struct::Item(run),
            Group::Gone(_, count) => Struct::Gone(count),
        }
    }

    /// The next group goes on where this one ends, so that both are one.
    pub fn joins(&self, next: &Group) -> bool
        ensures { result ≡ group_joins (group_value self.now) (group_value next.now) }
    {
        match (self, next) {
            (Group::Run(run), Group::Run(next)) => run.joins(next),
            (Group::Gone(id, count), Group::Gone(next, _)) => is_later(*next, *id, *count),
            _ => false,
        }
    }

    /// Puts the next group behind this one, in time of what that has. If there is no memory, the next
    /// group is dropped; so it is with more than 2^64-1 gone units.
    pub fn append(&mut self, next: Group) -> Result<(), NoMemory>
        requires { group_joins (group_value self.old) (group_value next) ≡ true }
        ensures appended { OnOk result (group_value self.new
            ≡ joined_group (group_value self.old) (group_value next)) }
        ensures unchanged { OnErr result (group_value self.new ≡ group_value self.old) }
    {
        match (self, next) {
            (Group::Run(run), Group::Run(next)) => {
                run.append(next)?;
                Ok(())
            }
            (Group::Gone(_, count), Group::Gone(_, more)) => match count.checked_add(more) {
                None => Err(NoMemory),
                Some(both) => {
                    *count = both;
                    Ok(())
                }
            },
            // A run and gone units do not join.
            _ => unreachable!(),
        }
    }
}

/// The id is the other client's so many clocks later.
fn is_later(next: Id, id: Id, count: u64) -> bool
    ensures { result ≡ is_same next (later_id id count) }
{
    next.client.0 == id.client.0 && count <= next.clock && next.clock - count == id.clock
}
