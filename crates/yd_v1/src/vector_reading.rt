//! State vectors, read.

ghost use Rattle.std.specs.Prelude.{◌≡◌, [], Ok, IfOk, OnOk};
ghost use Rattle.yd_ids.specs.Vector.{IsVector};
ghost use Rattle.yd_parts.specs.Fault.{FailsAs, Gives, Makes};
ghost use Rattle.yd_parts.specs.Plan.{read_by, repeated};
ghost use Rattle.yd_reading.specs.Answer.{ReadsWhole};
ghost use Rattle.yd_fields.specs.UpdatePlan.{entries_step, vector_plan};
ghost use Rattle.yd_v1.specs.Grammar.{FailsV1, FillsV1};
ghost use Rattle.yd_v1.specs.Reading.{v1_at, v1_spot, vector_reading};

use crate::reader::V1Reader;
use std::alloc::Global;
use yd_fields::FieldReader;
use yd_ids::{Client, Vector};
use yd_parts::ReadError;

/// Reads a state vector: the one that the bytes stand for, or the first fault in them, which is
/// ShortInput, NumberTooLarge or Trailing (Yjs 13, decodeStateVector). Clients may come in any order
/// and again; the greatest clock stands, and 0 is as absent (own).
pub fn read_vector(alloc: Global, bytes: &[u8]) -> Result<Vector, ReadError>
    ensures exact { ReadsWhole (λ vector. vector)
        (FillsV1 vector_plan bytes.now) (FailsV1 vector_plan bytes.now) result }
    ensures vector { IfOk result IsVector }
{
    read_vector_v1(alloc, bytes)
}

#[tactic(auto, unfolding(crate::specs::Reading::v1_whole))]
fn read_vector_v1(alloc: Global, bytes: &[u8]) -> Result<Vector, ReadError>
    ensures made { Makes (λ vector. vector) result (vector_reading bytes.now) }
    ensures vector { IfOk result IsVector }
{
    let mut reader = V1Reader::new(bytes);
    let vector = read_entries(alloc, &mut reader)?;
    reader.finish()?;
    Ok(vector)
}

#[tactic(auto, using(yd_reading::proofs::VectorPlanLemmas::read_vector_plan))]
fn read_entries(alloc: Global, reader: &mut V1Reader<'_>) -> Result<Vector, ReadError>
    ensures given { Gives (λ vector. vector) result reader.new
        (read_by v1_at v1_spot vector_plan reader.old) }
    ensures vector { IfOk result IsVector }
{
    let count = reader.get_number()?;
    let entries = read_entry_list(alloc, reader, count)?;
    let vector = Vector::of_entries(alloc, entries)?;
    Ok(vector)
}

fn read_entry_list(
    alloc: Global,
    reader: &mut V1Reader<'_>,
    count: u64,
) -> Result<Vec<(Client, u64)>, ReadError>
    ensures { Gives (λ entries. entries.items) result reader.new
        (read_by v1_at v1_spot (repeated entries_step count []) reader.old) }
{
    let mut entries = Vec::new(alloc);
    for _ in 0..count {
        read_entry(reader, &mut entries)?;
    }
    Ok(entries)
}

#[tactic(auto, unfolding(yd_parts::specs::Plan::read_by, yd_fields::specs::UpdatePlan::entries_step))]
fn read_entry(reader: &mut V1Reader<'_>, entries: &mut Vec<(Client, u64)>) -> Result<(), ReadError>
    ensures taken { OnOk result (read_by v1_at v1_spot
        (entries_step entries.old.items) reader.old ≡ Ok (entries.new.items, reader.new)) }
    ensures fails { FailsAs result (read_by v1_at v1_spot
        (entries_step entries.old.items) reader.old) }
{
    let client = reader.get_number()?;
    let clock = reader.get_number()?;
    entries.push((Client(client), clock))?;
    Ok(())
}
