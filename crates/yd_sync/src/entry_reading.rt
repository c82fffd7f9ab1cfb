//! Entries, read.

ghost use Rattle.std.specs.Prelude.{◌≡◌, ◌∷◌, ◌++◌, [], Ok, IfOk, OnOk};
ghost use Rattle.yd_words.specs.Each.{Each};
ghost use Rattle.yd_parts.specs.Fault.{FailsAs, Gives, Makes};
ghost use Rattle.yd_parts.specs.Plan.{read_by, repeated};
ghost use Rattle.yd_v1.specs.Reading.{v1_at, v1_spot};
ghost use Rattle.yd_sync.specs.Entry.{IsEntry, aware_plan, aware_step, state_of};
ghost use Rattle.yd_sync.specs.MessageReading.{aware_reading};

use crate::entry::{AwareEntry, AwareList};
use std::alloc::Global;
use yd_any::Text;
use yd_fields::FieldReader;
use yd_ids::Client;
use yd_parts::{NoMemory, ReadError};
use yd_v1::V1Reader;

/// Reads entries that fill these bytes, or the first fault in them (y-protocols,
/// applyAwarenessUpdate). A state is carried as it stands.
#[tactic(auto, unfolding(yd_v1::specs::Reading::v1_whole))]
pub(crate) fn read_entries(alloc: Global, bytes: &[u8]) -> Result<AwareList, ReadError>
    ensures made { Makes (λ entries. entries) result (aware_reading bytes.now) }
    ensures valid { IfOk result (Each IsEntry) }
{
    let mut reader = V1Reader::new(bytes);
    let entries = read_counted(alloc, &mut reader)?;
    reader.finish()?;
    Ok(entries)
}

#[tactic(auto, unfolding(crate::specs::Entry::aware_plan, yd_parts::specs::Plan::read_by))]
fn read_counted(alloc: Global, reader: &mut V1Reader<'_>) -> Result<AwareList, ReadError>
    ensures given { Gives (λ entries. entries) result reader.new
        (read_by v1_at v1_spot aware_plan reader.old) }
    ensures valid { IfOk result (Each IsEntry) }
{
    let count = reader.get_number()?;
    let entries = read_each(alloc, reader, count)?;
    Ok(entries)
}

fn read_each(alloc: Global, reader: &mut V1Reader<'_>, count: u64) -> Result<AwareList, ReadError>
    ensures { Gives (λ entries. entries) result reader.new
        (read_by v1_at v1_spot (repeated aware_step count []) reader.old) }
{
    let mut entries = AwareList::new(alloc);
    for _ in 0..count {
        read_entry(alloc, reader, &mut entries)?;
    }
    Ok(entries)
}

#[tactic(auto, unfolding(yd_parts::specs::Plan::read_by, crate::specs::Entry::aware_step))]
fn read_entry(
    alloc: Global,
    reader: &mut V1Reader<'_>,
    entries: &mut AwareList,
) -> Result<(), ReadError>
    ensures taken { OnOk result (read_by v1_at v1_spot
        (aware_step entries.old) reader.old ≡ Ok (entries.new, reader.new)) }
    ensures fails { FailsAs result (read_by v1_at v1_spot (aware_step entries.old) reader.old) }
{
    let client = reader.get_number()?;
    let clock = reader.get_number()?;
    let text = reader.get_string()?;
    match push_entry(alloc, entries, client, clock, text) {
        Ok(()) => Ok(()),
        Err(NoMemory) => Err(ReadError::NoMemory),
    }
}

/// Appends the entry of a client and a clock, with the state that a text tells.
fn push_entry(
    alloc: Global,
    entries: &mut AwareList,
    client: u64,
    clock: u64,
    text: &str,
) -> Result<(), NoMemory>
    ensures { OnOk result (entries.new ≡ entries.old ++ record {
      client = record { 0 = client };
      clock = clock;
      state = state_of text.now;
    } ∷ []) }
{
    let state = state_of(alloc, text)?;
    entries.push(AwareEntry {
        client: Client(client),
        clock,
        state,
    })?;
    Ok(())
}

/// The state that a text tells, which is none where the text is `null`.
fn state_of(alloc: Global, text: &str) -> Result<Option<Text>, NoMemory>
    ensures { IfOk result (λ state. state ≡ state_of text.now) }
{
    if text == "null" {
        return Ok(None);
    }
    Ok(Some(Text::copy_of(alloc, text)?))
}
