//! What is refused, and why: the line on err of each kind.

ghost use Rattle.std.specs.Prelude.{◌≡◌, ◌++◌, OnErr, OnOk, codes};
ghost use Rattle.yd_files.specs.Seen.{file_of as seen};
ghost use Rattle.yd_ending.specs.Reason.{cause_name, column_prefix, fault_text};
ghost use Rattle.yd_ending.specs.Lines.{refusal_line, refused_line};
ghost use Rattle.yd_ending.specs.Writing.{TakesAll, TakesPart, CountsFault};

use crate::message::tell_message;
use crate::script::tell_line;
use crate::writing::write_line;
use itoa::Buffer;
use yd_causes::LineCause;
use yd_files::{File, prefix};
use yd_parts::{Cause, Column, Spot};
use yd_sync::MessageFault;
use yd_world::{Outage, Sink};

/// What is refused, and why.
#[derive(Clone, Copy)]
pub enum Refusal<'a> {
    /// The file is outside its grammar: what is wrong first, and where.
    OfFile {
        file: File<'a>,
        cause: Cause,
        spot: Spot,
    },
    /// The line with this number of the script under this name is none, or its edit is refused.
    OfLine {
        script: &'a str,
        number: u64,
        cause: LineCause,
    },
    /// The message that came with this number, counted from 1, is none.
    OfMessage {
        number: u64,
        fault: MessageFault,
    },
}

/// Writes the line of what is refused. After an error a part of it was written.
pub fn tell_refusal<S: Sink>(err: &mut S, refusal: Refusal<'_>) -> Result<(), Outage>
    ensures whole { OnOk result (TakesAll (S.bytes_taken err.old) (S.bytes_taken err.new)
        (refusal_line refusal.entry)) }
    ensures part { OnErr result (TakesPart (S.bytes_taken err.old) (S.bytes_taken err.new)
        (refusal_line refusal.entry)) }
    ensures cause { CountsFault (S.faults err.old) (S.faults err.new) result }
{
    match refusal {
        Refusal::OfFile { file, cause, spot } => tell_file(err, file, cause, spot),
        Refusal::OfLine {
            script,
            number,
            cause,
        } => tell_line(err, script, number, cause),
        Refusal::OfMessage { number, fault } => tell_message(err, number, fault),
    }
}

// Writes the line of a file that is refused for what is wrong first in it.
fn tell_file<S: Sink>(err: &mut S, file: File<'_>, cause: Cause, spot: Spot) -> Result<(), Outage>
    ensures whole { OnOk result (TakesAll (S.bytes_taken err.old) (S.bytes_taken err.new)
        (refused_line (seen file.entry) (record { cause = cause; spot = spot }))) }
    ensures part { OnErr result (TakesPart (S.bytes_taken err.old) (S.bytes_taken err.new)
        (refused_line (seen file.entry) (record { cause = cause; spot = spot }))) }
    ensures cause { CountsFault (S.faults err.old) (S.faults err.new) result }
{
    write_line(err, "refused ", prefix(file.kind), file.name)?;
    write_line(err, " ", "", "")?;
    tell_fault(err, cause, spot)
}

/// Writes a cause and its place, and a line feed.
pub fn tell_fault<S: Sink>(err: &mut S, cause: Cause, spot: Spot) -> Result<(), Outage>
    ensures whole { OnOk result (TakesAll (S.bytes_taken err.old) (S.bytes_taken err.new)
        (fault_text (record { cause = cause; spot = spot }) ++ codes "\n")) }
    ensures part { OnErr result (TakesPart (S.bytes_taken err.old) (S.bytes_taken err.new)
        (fault_text (record { cause = cause; spot = spot }) ++ codes "\n")) }
    ensures cause { CountsFault (S.faults err.old) (S.faults err.new) result }
{
    let mut digits = Buffer::new();
    write_line(err, name_of_cause(cause), " ", "")?;
    write_line(
        err,
        prefix_of_column(spot.column),
        digits.format(spot.at),
        "\n",
    )
}

fn name_of_cause(cause: Cause) -> &'static str
    ensures { result.now ≡ cause_name cause }
{
    match cause {
        Cause::ShortInput => "ShortInput",
        Cause::NumberTooLarge => "NumberTooLarge",
        Cause::BadUtf8 => "BadUtf8",
        Cause::BadInfo => "BadInfo",
        Cause::Subdocument => "Subdocument",
        Cause::BadType => "BadType",
        Cause::BadTag => "BadTag",
        Cause::TooDeep => "TooDeep",
        Cause::BadJson => "BadJson",
        Cause::NumberNotCarried => "NumberNotCarried",
        Cause::EmptyStruct => "EmptyStruct",
        Cause::ClockTooLarge => "ClockTooLarge",
        Cause::Trailing => "Trailing",
        Cause::BadParent => "BadParent",
        Cause::BadFlag => "BadFlag",
        Cause::HalfPair => "HalfPair",
        Cause::ColumnLeft => "ColumnLeft",
        Cause::TooManyStructs => "TooManyStructs",
    }
}

fn prefix_of_column(column: Column) -> &'static str
    ensures { result.now ≡ column_prefix column }
{
    match column {
        Column::Whole => "",
        Column::Head => "head:",
        Column::Keys => "keys:",
        Column::Clients => "clients:",
        Column::Lefts => "lefts:",
        Column::Rights => "rights:",
        Column::Infos => "infos:",
        Column::Strings => "strings:",
        Column::Parents => "parents:",
        Column::Kinds => "kinds:",
        Column::Lengths => "lengths:",
        Column::Rest => "rest:",
    }
}
