//! Reading delete sets.

ghost use Rattle.std.specs.Prelude.{◌≡◌, ◌<◌, ◌^◌, [], Ok, OnOk};
ghost use Rattle.yd_parts.specs.Fault.{FailsAs, Gives};
ghost use Rattle.yd_fields.specs.Field.{ReadsFit};
ghost use Rattle.yd_parts.specs.Plan.{read_by, repeated};
ghost use Rattle.yd_reading.specs.RangesView.{ranges_value};
ghost use Rattle.yd_fields.specs.UpdatePlan.{clients_step, deletes_plan, ranges_step};

use std::alloc::Global;
use yd_fields::FieldReader;
use yd_ids::{Client, IdSet, Span};
use yd_parts::ReadError;

/// Ranges of a client that were read, and where the last of them ends.
#[derive(Drop)]
pub struct RangesRead {
    end: u64,
    spans: Vec<Span>,
}

/// A delete set.
#[tactic(auto, using(crate::proofs::DeletesPlanLemmas::read_deletes_plan))]
pub fn read_deletes<'a, R: FieldReader<'a>>(
    alloc: Global,
    reader: &mut R,
) -> Result<IdSet, ReadError>
    requires sound { R.is_sound reader.old }
    requires fits { ReadsFit R.field_at R.is_sound }
    ensures { Gives (λ set. set) result reader.new
        (read_by R.field_at R.spot_of deletes_plan reader.old) }
{
    let count = reader.get_number()?;
    // Most updates of an editor delete nothing.
    if count == 0 {
        return Ok(IdSet::new(alloc));
    }
    let spans = read_clients(alloc, reader, count)?;
    Ok(IdSet::of_spans(alloc, spans)?)
}

fn read_clients<'a, R: FieldReader<'a>>(
    alloc: Global,
    reader: &mut R,
    count: u64,
) -> Result<Vec<Span>, ReadError>
    ensures { Gives (λ spans. spans.items) result reader.new
        (read_by R.field_at R.spot_of (repeated clients_step count []) reader.old) }
{
    let mut read = RangesRead {
        end: 0,
        spans: Vec::new(alloc),
    };
    for _ in 0..count {
        read_client(reader, &mut read)?;
    }
    Ok(read.spans)
}

#[tactic(auto, using(crate::proofs::DeletesPlanLemmas::read_clients_step))]
fn read_client<'a, R: FieldReader<'a>>(
    reader: &mut R,
    read: &mut RangesRead,
) -> Result<(), ReadError>
    ensures taken { OnOk result (read_by R.field_at R.spot_of
        (clients_step read.old.spans.items) reader.old ≡ Ok (read.new.spans.items, reader.new)) }
    ensures fails { FailsAs result (read_by R.field_at R.spot_of
        (clients_step read.old.spans.items) reader.old) }
{
    let client = reader.get_number()?;
    let count = reader.get_number()?;
    read.end = 0;
    read_ranges(reader, Client(client), count, read)
}

fn read_ranges<'a, R: FieldReader<'a>>(
    reader: &mut R,
    client: Client,
    count: u64,
    read: &mut RangesRead,
) -> Result<(), ReadError>
    requires { read.old.end < 2 ^ 53 }
    ensures taken { OnOk result (read_by R.field_at R.spot_of
        (repeated (ranges_step client) count (ranges_value read.old)) reader.old
        ≡ Ok (ranges_value read.new, reader.new)) }
    ensures fails { FailsAs result (read_by R.field_at R.spot_of
        (repeated (ranges_step client) count (ranges_value read.old)) reader.old) }
{
    for _ in 0..count {
        read_next_range(reader, client, read)?;
    }
    Ok(())
}

#[tactic(auto, using(crate::proofs::DeletesPlanLemmas::read_ranges_step))]
fn read_next_range<'a, R: FieldReader<'a>>(
    reader: &mut R,
    client: Client,
    read: &mut RangesRead,
) -> Result<(), ReadError>
    requires { read.old.end < 2 ^ 53 }
    ensures taken { OnOk result (read_by R.field_at R.spot_of
        (ranges_step client (ranges_value read.old)) reader.old
        ≡ Ok (ranges_value read.new, reader.new)) }
    ensures fails { FailsAs result (read_by R.field_at R.spot_of
        (ranges_step client (ranges_value read.old)) reader.old) }
    ensures in_range { OnOk result (read.new.end < 2 ^ 53) }
{
    let (clock, len) = reader.get_range(read.end)?;
    let end = clock + len;
    read.spans.push(Span { client, clock, len })?;
    read.end = end;
    Ok(())
}
