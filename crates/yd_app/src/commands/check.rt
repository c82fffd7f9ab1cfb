//! `check`: how much updates hold, and whether they agree and keep the edit rules.

ghost use Rattle.std.specs.Prelude.{◌≡◌, ◌++◌, None, Some, IfOk, OnOk};
ghost use Rattle.yd_words.specs.Each.{Each};
ghost use Rattle.yd_ops.specs.Valid.{IsValidUpdate};
ghost use Rattle.yd_files.specs.Seen.{inputs_of};
ghost use Rattle.yd_asking.specs.Command.{check as checks};
ghost use Rattle.yd_app.specs.Commands.Check.{count_line, findings_text, verdict_line};
ghost use Rattle.yd_app.specs.Output.{IsMadeOf};

use crate::fault::NoMemory;
use itoa::Buffer;
use std::alloc::Global;
use yd_checking::Findings;
use yd_files::Inputs;
use yd_ids::Id;

/// Seven lines, of what is found of all updates together.
pub fn check(alloc: Global, inputs: Inputs) -> Result<Vec<u8>, NoMemory>
    requires { Each IsValidUpdate (inputs_of inputs).updates }
    ensures { IfOk result (λ bytes.
        IsMadeOf checks (inputs_of inputs) bytes.items) }
{
    let found = yd_checking::check(alloc, inputs.updates.into_vec())?;
    let text = text_of(alloc, &found)?;
    Ok(text)
}

fn text_of(alloc: Global, found: &Findings) -> Result<Vec<u8>, NoMemory>
    ensures { IfOk result (λ bytes. bytes.items ≡ findings_text found.now) }
{
    let counts = &found.counts;
    let mut bytes = Vec::new(alloc);
    push_count(&mut bytes, "held", counts.held)?;
    push_count(&mut bytes, "waiting", counts.waiting)?;
    push_count(&mut bytes, "waiting deletes", counts.waiting_deletes)?;
    push_count(&mut bytes, "deleted", counts.deleted)?;
    push_count(&mut bytes, "lists", counts.lists as u128)?;
    push_verdict(&mut bytes, "agree", found.disagreement)?;
    push_verdict(&mut bytes, "honest", found.dishonest)?;
    Ok(bytes)
}

// Adds a line with a number. Where memory ends, a part of it may be added.
fn push_count(bytes: &mut Vec<u8>, name: &str, count: u128) -> Result<(), NoMemory>
    ensures { OnOk result (bytes.new.items ≡ bytes.old.items ++ count_line name.now count) }
{
    let mut digits = Buffer::new();
    bytes.extend_from_slice(name.as_bytes())?;
    bytes.extend_from_slice(b" ")?;
    bytes.extend_from_slice(digits.format(count).as_bytes())?;
    bytes.extend_from_slice(b"\n")?;
    Ok(())
}

// Adds a line that says yes, or the smallest id that breaks what is asked. Where memory ends, a part
// of it may be added.
fn push_verdict(bytes: &mut Vec<u8>, name: &str, breach: Option<Id>) -> Result<(), NoMemory>
    ensures { OnOk result (bytes.new.items ≡ bytes.old.items ++ verdict_line name.now breach) }
{
    match breach {
        None => push_yes(bytes, name),
        Some(id) => push_no(bytes, name, id),
    }
}

fn push_yes(bytes: &mut Vec<u8>, name: &str) -> Result<(), NoMemory>
    ensures { OnOk result (bytes.new.items ≡ bytes.old.items ++ verdict_line name.now None) }
{
    bytes.extend_from_slice(name.as_bytes())?;
    bytes.extend_from_slice(b" yes\n")?;
    Ok(())
}

fn push_no(bytes: &mut Vec<u8>, name: &str, id: Id) -> Result<(), NoMemory>
    ensures { OnOk result (bytes.new.items ≡ bytes.old.items ++ verdict_line name.now (Some id)) }
{
    let mut digits = Buffer::new();
    bytes.extend_from_slice(name.as_bytes())?;
    bytes.extend_from_slice(b" no ")?;
    bytes.extend_from_slice(digits.format(id.client.0).as_bytes())?;
    bytes.extend_from_slice(b" ")?;
    bytes.extend_from_slice(digits.format(id.clock).as_bytes())?;
    bytes.extend_from_slice(b"\n")?;
    Ok(())
}
