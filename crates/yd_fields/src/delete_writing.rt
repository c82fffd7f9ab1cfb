//! Writing delete sets.

ghost use Rattle.std.specs.Prelude.{◌≡◌, ◌<◌, length, reverse, IfOk, OnOk};
ghost use Rattle.yd_words.specs.Each.{Each};
ghost use Rattle.yd_ids.specs.Id.{IsSpan};
ghost use Rattle.yd_ids.specs.Set.{AreMaximal};
ghost use Rattle.yd_fields.specs.UpdateFields.{fields_of_deletes, fields_of_group};
ghost use Rattle.yd_fields.specs.UpdateFields.{fields_of_groups, fields_of_ranges, groups_of};
ghost use Rattle.yd_fields.specs.Writes.{AreRangesFrom, IsLastGroup, Writes};

use crate::writer::FieldWriter;
use std::alloc::Global;
use yd_ids::{IdSet, Span};
use yd_parts::{NoMemory, counted};

/// A delete set, its clients descending.
pub fn write_deletes<W: FieldWriter>(
    alloc: Global,
    deletes: &IdSet,
    writer: &mut W,
) -> Result<(), NoMemory>
    ensures { OnOk result (Writes W.with_field W.is_spelled
        (fields_of_deletes deletes.now) writer.old writer.new) }
{
    let spans = spans_of(alloc, deletes)?;
    let count = counted(count_groups(&spans))?;
    writer.put_number(count)?;
    write_groups(&spans, writer)?;
    Ok(())
}

fn spans_of(alloc: Global, deletes: &IdSet) -> Result<Vec<Span>, NoMemory>
    ensures spans { IfOk result (λ spans. spans.items ≡ deletes.now) }
    ensures maximal { OnOk result (AreMaximal deletes.now) }
{
    let mut spans = Vec::new(alloc);
    for span in deletes.spans() {
        spans.push(span)?;
    }
    Ok(spans)
}

/// How many clients the spans have.
fn count_groups(spans: &[Span]) -> usize
    ensures { result ≡ length (groups_of spans.now) }
{
    let mut count = 0;
    let mut rest = spans;
    while !rest.is_empty() {
        rest = &rest[..last_group(rest)];
        count += 1;
    }
    count
}

/// Where the spans of the last client begin.
fn last_group(spans: &[Span]) -> usize
    requires { 0 < length spans.now }
    ensures inside { result < length spans.now }
    ensures last { IsLastGroup spans.now result }
{
    let client = spans[spans.len() - 1].client.0;
    let mut start = spans.len() - 1;
    while start > 0 && spans[start - 1].client.0 == client {
        start -= 1;
    }
    start
}

fn write_groups<W: FieldWriter>(spans: &[Span], writer: &mut W) -> Result<(), NoMemory>
    requires { AreMaximal spans.now }
    ensures { OnOk result (Writes W.with_field W.is_spelled
        (fields_of_groups (reverse (groups_of spans.now))) writer.old writer.new) }
{
    let mut rest = spans;
    while !rest.is_empty() {
        let (others, group) = rest.split_at(last_group(rest));
        write_group(group, writer)?;
        rest = others;
    }
    Ok(())
}

fn write_group<W: FieldWriter>(spans: &[Span], writer: &mut W) -> Result<(), NoMemory>
    requires some { 0 < length spans.now }
    requires clients { Each IsSpan spans.now }
    requires ranges { AreRangesFrom 0 spans.now }
    ensures { OnOk result (Writes W.with_field W.is_spelled
        (fields_of_group spans.now) writer.old writer.new) }
{
    let count = counted(spans.len())?;
    writer.put_number(spans[0].client.0)?;
    writer.put_number(count)?;
    write_ranges(spans, writer)?;
    Ok(())
}

fn write_ranges<W: FieldWriter>(spans: &[Span], writer: &mut W) -> Result<(), NoMemory>
    requires { AreRangesFrom 0 spans.now }
    ensures { OnOk result (Writes W.with_field W.is_spelled
        (fields_of_ranges 0 spans.now) writer.old writer.new) }
{
    let mut before = 0;
    for span in spans {
        writer.put_range(before, span.clock, span.len)?;
        before = span.clock + span.len;
    }
    Ok(())
}
