//! Writing whole lists of bytes, piece by piece.

ghost use Rattle.std.specs.Prelude.{◌≡◌, ◌≢◌, ◌++◌, Err, OnErr, OnOk};
ghost use Rattle.yd_ending.specs.Writing.{TakesAll, TakesPart, CountsFault};

use yd_world::{Outage, Sink};

/// Writes all of the bytes. After an error a front of them was written, and not all.
pub fn write_out<S: Sink>(out: &mut S, bytes: &[u8]) -> Result<(), Outage>
    ensures whole { OnOk result
        (TakesAll (S.bytes_taken out.old) (S.bytes_taken out.new) bytes.now) }
    ensures part { OnErr result
        (TakesPart (S.bytes_taken out.old) (S.bytes_taken out.new) bytes.now) }
    ensures cause { CountsFault (S.faults out.old) (S.faults out.new) result }
    ensures calm { S.is_calm out.old → S.is_calm out.new × (result ≢ Err Outage.Failed) }
{
    let mut rest = bytes;
    while !rest.is_empty() {
        let count = out.write(rest)?;
        if count == 0 {
            return Err(Outage::Failed);
        }
        let (_, after) = rest.split_at(count);
        rest = after;
    }
    Ok(())
}

/// Writes three texts, one after the other. After an error a front of them was written, and not all.
pub fn write_line<S: Sink>(
    sink: &mut S,
    before: &str,
    middle: &str,
    after: &str,
) -> Result<(), Outage>
    ensures whole { OnOk result (TakesAll (S.bytes_taken sink.old) (S.bytes_taken sink.new)
        (before.now ++ middle.now ++ after.now)) }
    ensures part { OnErr result (TakesPart (S.bytes_taken sink.old) (S.bytes_taken sink.new)
        (before.now ++ middle.now ++ after.now)) }
    ensures cause { CountsFault (S.faults sink.old) (S.faults sink.new) result }
    ensures calm { S.is_calm sink.old → S.is_calm sink.new × (result ≢ Err Outage.Failed) }
{
    write_out(sink, before.as_bytes())?;
    write_out(sink, middle.as_bytes())?;
    write_out(sink, after.as_bytes())
}
