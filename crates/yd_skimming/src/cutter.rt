//! The cut of an update, written while its structs are taken.

ghost use Rattle.std.specs.Prelude.{◌≡◌, ◌↔◌, ◌+◌, ◌<◌, ℕ, [], ◌++◌, ◌∷◌, List, false};
ghost use Rattle.std.specs.Prelude.{IfOk, IsTrue, OnOk};
ghost use Rattle.std.specs.Bool.{OnTrue};
ghost use Rattle.yd_ids.specs.Vector.{clock_of};
ghost use Rattle.yd_ids.specs.declared.id.Client.{Client};
ghost use Rattle.yd_ops.specs.Deletes.{content_spans, struct_spans};
ghost use Rattle.yd_ops.specs.Value.{UpdateValue, clocks_of};
ghost use Rattle.yd_ops.specs.View.{content_value};
ghost use Rattle.yd_grouping.specs.Building.{Built, all_pushed};
ghost use Rattle.yd_grouping.specs.Merged.{cut_update};
ghost use Rattle.yd_fields.specs.Lent.{lent_struct};
ghost use Rattle.yd_merge.specs.Cutting.{cut_lent};
ghost use Rattle.yd_reading.specs.Taking.{IsPlaced, Section, placed};
ghost use Rattle.yd_skimming.specs.BlockWriting.{IsWrittenAs};
ghost use Rattle.yd_skimming.specs.Cutter.{EndsCut, HasTaken, IsBehind, TookCut};
ghost use Rattle.yd_skimming.specs.GroupWriting.{HasBuilt};
ghost use Rattle.yd_skimming.specs.Parting.{is_skip, lent_at};

use crate::clocks::Clocks;
use crate::group_writing::GroupWriter;
use crate::parting::part_of;
use std::alloc::Global;
use std::marker::{Brand, PhantomData};
use yd_fields::LentStruct;
use yd_ids::{Id, IdSet, Span, Vector};
use yd_ops::{Content, Run, Struct};
use yd_parts::NoMemory;
use yd_reading::StructTaker;

/// Writes what is in the cut of an update by a vector, struct by struct. It treats structs that
/// come in the order of writing, of which none joins another. Once it meets a struct that it does
/// not treat, it is no longer plain, and does nothing more.
#[derive(Drop)]
pub struct Cutter<'a> {
    /// The vector.
    pub vector: Clocks<'a>,
    /// What is written.
    pub writer: GroupWriter,
    /// It met nothing but what it treats.
    pub is_plain: bool,
    /// The id behind the last struct that has units.
    pub behind: Option<Id>,
    /// The ids that structs spell deleted or gone.
    pub named: Vec<Span>,
}

impl<'a> Cutter<'a> {
    /// Nothing is taken yet.
    pub fn new(alloc: Global, vector: &'a Vector) -> Cutter<'a>
        ensures { HasTaken vector.now result [] }
    {
        Cutter {
            vector: Clocks::new(vector),
            writer: GroupWriter::new(alloc),
            is_plain: true,
            behind: None,
            named: Vec::new(alloc),
        }
    }

    /// Takes a struct.
    #[inline]
    fn take(&mut self, alloc: Global, id: Id, entry: &LentStruct<'_>) -> Result<(), NoMemory>
        requires { IsPlaced id (lent_struct entry.now) }
        ensures { OnOk result ((vector : List (Client × ℕ)) (sections : List Section) →
            TookCut vector self.old sections →
            TookCut vector self.new (sections ++ placed id (lent_struct entry.now) ∷ [])) }
    {
        if self.is_plain && !is_skip(entry) {
            self.take_units(alloc, id, entry)?;
        }
        Ok(())
    }

    /// Takes a struct that has units.
    fn take_units(&mut self, alloc: Global, id: Id, entry: &LentStruct<'_>) -> Result<(), NoMemory>
        requires placed { IsPlaced id (lent_struct entry.now) }
        requires units { is_skip (lent_struct entry.now) ≡ false }
        ensures { OnOk result ((vector : List (Client × ℕ)) (sections : List Section) →
            HasTaken vector self.old sections →
            TookCut vector self.new (sections ++ placed id (lent_struct entry.now) ∷ [])) }
    {
        if !is_behind(self.behind, id) {
            self.is_plain = false;
            return Ok(());
        }
        self.behind = Some(Id {
            client: id.client,
            clock: id.clock + entry.len(),
        });
        note(&mut self.named, id, entry)?;
        let clock = self.vector.get(id.client);
        self.is_plain = put_cut(alloc, &mut self.writer, id, entry, clock)?;
        Ok(())
    }

    /// The bytes of what is in the cut, with these deletions and those that structs spell.
    pub fn finish(self, alloc: Global, deletes: &IdSet) -> Result<Vec<u8>, NoMemory>
        requires { (vector : List (Client × ℕ)) × (update : UpdateValue)
            × EndsCut vector self deletes.now update }
        ensures { IfOk result (λ bytes. (vector : List (Client × ℕ)) (update : UpdateValue) →
            EndsCut vector self.entry deletes.now update →
            IsWrittenAs bytes.items (cut_update update (clock_of vector))) }
    {
        let Cutter {
            writer,
            mut named,
            ..
        } = self;
        note_deletes(&mut named, deletes)?;
        match IdSet::of_spans(alloc, named) {
            Err(_) => Err(NoMemory),
            Ok(deletes) => {
                let bytes = writer.finish(alloc, &deletes)?;
                Ok(bytes)
            }
        }
    }
}

/// Writes what a struct has in the cut at a clock, and says so. What joins the struct before is not
/// written.
#[inline]
fn put_cut(
    alloc: Global,
    writer: &mut GroupWriter,
    id: Id,
    entry: &LentStruct<'_>,
    clock: u64,
) -> Result<bool, NoMemory>
    requires placed { IsPlaced id (lent_struct entry.now) }
    requires units { is_skip (lent_struct entry.now) ≡ false }
    ensures { IfOk result (λ put. OnTrue put ((built : Built) → HasBuilt writer.old built →
        HasBuilt writer.new (all_pushed built (cut_lent clock (lent_at id entry.now))))) }
{
    if clock <= id.clock {
        let put = writer.put(alloc, id, entry)?;
        return Ok(put);
    }
    if id.clock + entry.len() <= clock {
        return Ok(true);
    }
    let put = put_part(alloc, writer, id, entry, clock)?;
    Ok(put)
}

/// The same of a struct that begins below the clock and ends above it.
#[cold]
#[inline(never)]
fn put_part(
    alloc: Global,
    writer: &mut GroupWriter,
    id: Id,
    entry: &LentStruct<'_>,
    clock: u64,
) -> Result<bool, NoMemory>
    requires placed { IsPlaced id (lent_struct entry.now) }
    requires units { is_skip (lent_struct entry.now) ≡ false }
    requires begins { id.clock < clock }
    requires ends { clock < id.clock + clocks_of (lent_struct entry.now) }
    ensures { IfOk result (λ put. OnTrue put ((built : Built) → HasBuilt writer.old built →
        HasBuilt writer.new (all_pushed built (cut_lent clock (lent_at id entry.now))))) }
{
    let group = part_of(alloc, id, entry, clock)?;
    let first = group.id();
    let part = LentStruct::Made(group.into_struct());
    let put = writer.put(alloc, first, &part)?;
    Ok(put)
}

/// A struct is a skip, which has no unit.
fn is_skip(entry: &LentStruct<'_>) -> bool
    ensures { result ≡ is_skip (lent_struct entry.now) }
{
    matches!(entry, LentStruct::Made(Struct::Skip(_)))
}

/// What begins at an id is written wholly behind what ends before another.
fn is_behind(end: Option<Id>, id: Id) -> bool
    ensures { IsTrue result ↔ IsBehind end id }
{
    match end {
        None => true,
        Some(end) if end.client.0 == id.client.0 => end.clock <= id.clock,
        Some(end) => end.client.0 > id.client.0,
    }
}

/// Notes the ids that a struct at an id spells deleted or gone.
fn note(named: &mut Vec<Span>, id: Id, entry: &LentStruct<'_>) -> Result<(), NoMemory>
    ensures { OnOk result (named.new.items
        ≡ named.old.items ++ struct_spans id.client id.clock (lent_struct entry.now)) }
{
    match entry {
        LentStruct::Text(_) => Ok(()),
        LentStruct::Made(Struct::Item(run)) => note_run(named, run),
        LentStruct::Made(Struct::Skip(_)) => Ok(()),
        LentStruct::Made(Struct::Gone(count)) => {
            let Id { client, clock } = id;
            let len = *count;
            named.push(Span { client, clock, len })?;
            Ok(())
        }
    }
}

/// Notes the ids of a run that is deleted.
fn note_run(named: &mut Vec<Span>, run: &Run) -> Result<(), NoMemory>
    ensures { OnOk result (named.new.items
        ≡ named.old.items ++ content_spans run.now.id (content_value run.now.content)) }
{
    match &run.content {
        Content::Deleted(count) => {
            let Id { client, clock } = run.id;
            let len = *count;
            named.push(Span { client, clock, len })?;
            Ok(())
        }
        _ => Ok(()),
    }
}

/// Notes the spans of a set.
fn note_deletes(named: &mut Vec<Span>, deletes: &IdSet) -> Result<(), NoMemory>
    ensures { OnOk result (named.new.items ≡ named.old.items ++ deletes.now) }
{
    for span in deletes.spans() {
        named.push(span)?;
    }
    Ok(())
}

/// By which vector an update is cut, where only proofs need to know it.
pub trait CutBy {
    ghost use Rattle.std.specs.Prelude.{ℕ, List};
    ghost use Rattle.yd_ids.specs.declared.id.Client.{Client};

    /// The vector.
    ghost vector: { List (Client × ℕ) };
}

impl CutBy for Brand {
    ghost vector = { [] };
}

/// A cutter as a taker of structs, by the vector that its callers name.
#[derive(Drop)]
pub struct CutWriter<'a, V: CutBy> {
    /// The cutter.
    pub cutter: Cutter<'a>,
    /// By which vector it cuts.
    pub by: PhantomData<V>,
}

impl<'a, V: CutBy> StructTaker for CutWriter<'a, V> {
    ghost took = { λ w sections. TookCut V.vector w.cutter sections };

    fn begin(&mut self, _blocks: u64) -> Result<(), NoMemory> {
        Ok(())
    }

    fn begin_block(&mut self, _id: Id, _structs: u64) -> Result<(), NoMemory> {
        Ok(())
    }

    fn take(&mut self, alloc: Global, id: Id, entry: &LentStruct<'_>) -> Result<(), NoMemory> {
        self.cutter.take(alloc, id, entry)?;
        Ok(())
    }
}
