//! A block that grows at its end.

ghost use Rattle.std.specs.Prelude.{◌≡◌, [], ◌∷◌, true, IsTrue, IfOk, OnOk};
ghost use Rattle.yd_ops.specs.View.{block_value, struct_value};
ghost use Rattle.yd_reading.specs.Taking.{IsPlaced};
ghost use Rattle.yd_gathering.specs.Growing.{Grows, IsGrown, IsPut, block_from, block_of, end_of};
ghost use Rattle.yd_gathering.specs.Growing.{joined_struct, struct_joins, structs_in};

use std::alloc::Global;
use std::mem;
use yd_ids::{Client, Id};
use yd_ops::{Block, NoMemory, Struct, StructList};

/// Structs of one client, at least one. The last one is kept apart, since the next one may join it.
#[derive(Drop)]
pub struct Growing {
    client: Client,
    // Where the first begins.
    clock: u64,
    // Where the last ends.
    end: u64,
    // All but the last.
    done: StructList,
    last: Struct,
}

impl Growing {
    /// The struct alone, which begins at the id.
    pub fn new(alloc: Global, id: Id, first: Struct) -> Growing
        requires { IsPlaced id (struct_value first) }
        ensures block { block_of result ≡ block_from id (struct_value first ∷ []) }
        ensures grown { IsGrown result }
    {
        Growing {
            client: id.client,
            clock: id.clock,
            end: id.clock + first.len(),
            done: StructList::new(alloc),
            last: first,
        }
    }

    /// The block ends at the id.
    pub fn ends_at(&self, id: Id) -> bool
        ensures { IsTrue result → id ≡ end_of self.now }
    {
        self.client.0 == id.client.0 && self.end == id.clock
    }

    /// Puts a struct behind the others, or joins it to the last one, where that goes on with it. A
    /// block that found no memory is left open: whoever meets that drops it.
    pub fn push(&mut self, next: Struct) -> Result<(), NoMemory>
        requires { IsPlaced (end_of self.old) (struct_value next) }
        ensures { OnOk result (Grows self.old self.new (struct_value next)) }
    {
        let end = self.end + next.len();
        put_behind(&mut self.done, &mut self.last, next)?;
        self.end = end;
        Ok(())
    }

    /// The block.
    pub fn into_block(self) -> Result<Block, NoMemory>
        ensures { IfOk result (λ block. block_value block ≡ block_of self) }
    {
        let mut structs = self.done;
        structs.push(self.last)?;
        Ok(Block {
            client: self.client,
            clock: self.clock,
            structs,
        })
    }
}

// Puts a struct behind the others, or joins it to the last one.
fn put_behind(done: &mut StructList, last: &mut Struct, next: Struct) -> Result<(), NoMemory>
    ensures { OnOk result (IsPut (structs_in done.old last.old) (struct_value next)
        (structs_in done.new last.new)) }
{
    if joins(last, &next) {
        append(last, next)?;
        return Ok(());
    }
    let before = mem::replace(last, next);
    done.push(before)?;
    Ok(())
}

// Both are runs, and the first goes on with the other.
fn joins(last: &Struct, next: &Struct) -> bool
    ensures { result ≡ struct_joins (struct_value last.now) (struct_value next.now) }
{
    match (last, next) {
        (Struct::Item(run), Struct::Item(next)) => run.joins(next),
        _ => false,
    }
}

// Puts the units of the next one behind those of the last.
fn append(last: &mut Struct, next: Struct) -> Result<(), NoMemory>
    requires { struct_joins (struct_value last.old) (struct_value next) ≡ true }
    ensures { OnOk result (struct_value last.new
        ≡ joined_struct (struct_value last.old) (struct_value next)) }
{
    match (last, next) {
        (Struct::Item(run), Struct::Item(next)) => run.append(next),
        // Structs that are no runs do not join.
        _ => unreachable!(),
    }
}
