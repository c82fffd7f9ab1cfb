//! The line on err of a script's line that is refused.

ghost use Rattle.std.specs.Prelude.{◌++◌, OnErr, OnOk, codes};
ghost use Rattle.yd_ending.specs.Script.{cause_text, edit_text, refused_script_line, with_id, with_number};
ghost use Rattle.yd_ending.specs.Writing.{TakesAll, TakesPart, CountsFault};

use crate::writing::write_line;
use itoa::Buffer;
use yd_causes::LineCause;
use yd_ids::Id;
use yd_making::EditFault;
use yd_world::{Outage, Sink};

/// Writes that the line with this number is refused, in the script under this name.
pub fn tell_line<S: Sink>(
    err: &mut S,
    script: &str,
    number: u64,
    cause: LineCause,
) -> Result<(), Outage>
    ensures whole { OnOk result (TakesAll (S.bytes_taken err.old) (S.bytes_taken err.new)
        (refused_script_line script.now number cause)) }
    ensures part { OnErr result (TakesPart (S.bytes_taken err.old) (S.bytes_taken err.new)
        (refused_script_line script.now number cause)) }
    ensures cause { CountsFault (S.faults err.old) (S.faults err.new) result }
{
    let mut digits = Buffer::new();
    write_line(err, "refused ", script, " line ")?;
    write_line(err, digits.format(number), " ", "")?;
    tell_cause(err, cause)
}

// Writes why a line is refused, and a line feed.
fn tell_cause<S: Sink>(err: &mut S, cause: LineCause) -> Result<(), Outage>
    ensures whole { OnOk result (TakesAll (S.bytes_taken err.old) (S.bytes_taken err.new)
        (cause_text cause ++ codes "\n")) }
    ensures part { OnErr result (TakesPart (S.bytes_taken err.old) (S.bytes_taken err.new)
        (cause_text cause ++ codes "\n")) }
    ensures cause { CountsFault (S.faults err.old) (S.faults err.new) result }
{
    match cause {
        LineCause::BadLine => write_line(err, "BadLine", "", "\n"),
        LineCause::NoTarget(step) => tell_number(err, "NoTarget", step),
        LineCause::NoMark => write_line(err, "NoMark", "", "\n"),
        LineCause::Edit(fault) => tell_edit(err, fault),
    }
}

// Writes why an edit is refused, and a line feed.
fn tell_edit<S: Sink>(err: &mut S, fault: EditFault) -> Result<(), Outage>
    ensures whole { OnOk result (TakesAll (S.bytes_taken err.old) (S.bytes_taken err.new)
        (edit_text fault ++ codes "\n")) }
    ensures part { OnErr result (TakesPart (S.bytes_taken err.old) (S.bytes_taken err.new)
        (edit_text fault ++ codes "\n")) }
    ensures cause { CountsFault (S.faults err.old) (S.faults err.new) result }
{
    match fault {
        EditFault::NoMemory => write_line(err, "NoMemory", "", "\n"),
        EditFault::NoPlace(id) => tell_id(err, "NoPlace", id),
        EditFault::NotHeld(id) => tell_id(err, "NotHeld", id),
        EditFault::ClockFull(clock) => tell_number(err, "ClockFull", clock),
        EditFault::InsidePair(place) => tell_number(err, "InsidePair", place),
        EditFault::OwnWaiting(clock) => tell_number(err, "OwnWaiting", clock),
        EditFault::PastEnd(length) => tell_number(err, "PastEnd", length),
        EditFault::NoKey => write_line(err, "NoKey", "", "\n"),
        EditFault::Nothing => write_line(err, "Nothing", "", "\n"),
    }
}

/// Writes a name and a number, and a line feed.
pub fn tell_number<S: Sink>(err: &mut S, name: &str, number: u64) -> Result<(), Outage>
    ensures whole { OnOk result (TakesAll (S.bytes_taken err.old) (S.bytes_taken err.new)
        (with_number name.now number ++ codes "\n")) }
    ensures part { OnErr result (TakesPart (S.bytes_taken err.old) (S.bytes_taken err.new)
        (with_number name.now number ++ codes "\n")) }
    ensures cause { CountsFault (S.faults err.old) (S.faults err.new) result }
{
    let mut digits = Buffer::new();
    write_line(err, name, " ", "")?;
    write_line(err, digits.format(number), "", "\n")
}

// Writes a name and an id, and a line feed.
fn tell_id<S: Sink>(err: &mut S, name: &str, id: Id) -> Result<(), Outage>
    ensures whole { OnOk result (TakesAll (S.bytes_taken err.old) (S.bytes_taken err.new)
        (with_id name.now id ++ codes "\n")) }
    ensures part { OnErr result (TakesPart (S.bytes_taken err.old) (S.bytes_taken err.new)
        (with_id name.now id ++ codes "\n")) }
    ensures cause { CountsFault (S.faults err.old) (S.faults err.new) result }
{
    let mut digits = Buffer::new();
    write_line(err, name, " ", digits.format(id.client.0))?;
    write_line(err, " ", digits.format(id.clock), "\n")
}
