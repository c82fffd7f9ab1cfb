//! `generate`: a large text is made by edits that are drawn from a number, and told.

ghost use Rattle.std.specs.Prelude.{◌≡◌, ◌≤◌, ◌++◌, IfOk, OnOk};
ghost use Rattle.yd_files.specs.Verdict.{Inputs};
ghost use Rattle.yd_generating.specs.Line.{IsFoundOf};
ghost use Rattle.yd_asking.specs.Command.{generate as generates};
ghost use Rattle.yd_app.specs.Commands.Generate.{number_text, told_line, verdict};
ghost use Rattle.yd_app.specs.Output.{IsMadeOf};

use crate::fault::NoMemory;
use itoa::Buffer;
use std::alloc::Global;
use yd_generating::{GenerateFault, Generated};

/// One line, of three replicas behind so many steps and two rounds of replies. It reads no file, so it
/// is of any inputs.
pub fn generate(alloc: Global, steps: u64) -> Result<Vec<u8>, NoMemory>
    requires { steps ≤ 1000000 }
    ensures { IfOk result (λ bytes. (inputs : Inputs)
        → IsMadeOf (generates steps) inputs bytes.items) }
{
    let found = found_of(alloc, steps)?;
    let bytes = line_of(alloc, found)?;
    Ok(bytes)
}

// What is found behind so many steps.
fn found_of(alloc: Global, steps: u64) -> Result<Generated, NoMemory>
    requires { steps ≤ 1000000 }
    ensures { IfOk result (IsFoundOf steps) }
{
    match yd_generating::generate(alloc, steps) {
        Ok(found) => Ok(found),
        Err(GenerateFault::NoMemory) => Err(NoMemory),
        // So few steps leave each client a clock.
        Err(GenerateFault::Refused(_)) => unreachable!(),
    }
}

// The line of what was found.
fn line_of(alloc: Global, found: Generated) -> Result<Vec<u8>, NoMemory>
    ensures { IfOk result (λ bytes. bytes.items
        ≡ told_line found.held found.deleted found.length found.equal) }
{
    let mut bytes = Vec::new(alloc);
    push_number(&mut bytes, "held", found.held as u128)?;
    push_number(&mut bytes, "deleted", found.deleted)?;
    push_number(&mut bytes, "length", found.length as u128)?;
    bytes.extend_from_slice(b"equal ")?;
    bytes.extend_from_slice(word_of(found.equal).as_bytes())?;
    bytes.extend_from_slice(b"\n")?;
    Ok(bytes)
}

// Adds a number behind its name, and a space. Where memory ends, a part of it may be added.
fn push_number(bytes: &mut Vec<u8>, name: &str, count: u128) -> Result<(), NoMemory>
    ensures { OnOk result (bytes.new.items ≡ bytes.old.items ++ number_text name.now count) }
{
    let mut digits = Buffer::new();
    bytes.extend_from_slice(name.as_bytes())?;
    bytes.extend_from_slice(b" ")?;
    bytes.extend_from_slice(digits.format(count).as_bytes())?;
    bytes.extend_from_slice(b" ")?;
    Ok(())
}

// The last word.
fn word_of(equal: bool) -> &'static str
    ensures { result.now ≡ verdict equal }
{
    if equal {
        return "yes";
    }
    "no"
}
