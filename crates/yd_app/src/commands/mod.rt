//! The commands, each in a file of its own: bytes made of what files stand for.

ghost use Rattle.std.specs.Prelude.{◌≡◌, ◌⊎◌, ◌↔◌, map, IfOk, IfErr, IsTrue};
ghost use Rattle.yd_words.specs.Each.{Each};
ghost use Rattle.yd_ops.specs.Valid.{IsValidUpdate};
ghost use Rattle.yd_files.specs.Counts.{count_of};
ghost use Rattle.yd_files.specs.Reading.{ReadsCalmly};
ghost use Rattle.yd_files.specs.Seen.{file_of, inputs_of};
ghost use Rattle.yd_serving.specs.Board.{board_of};
ghost use Rattle.yd_asking.specs.Command.{command_of, HasRange, IsOfInputs, IsOnline};
ghost use Rattle.yd_app.specs.Gathered.{IsAtOnce, IsOfReceived};
ghost use Rattle.yd_app.specs.Link.{link_of};
ghost use Rattle.yd_app.specs.Online.{HasTurns, OfInputs, TradesTurns};
ghost use Rattle.yd_app.specs.Output.{IsMadeOf};
ghost use Rattle.yd_app.specs.Stopping.{IsNoLinkFault, MakesIn, MakesOn, MakesOver, StopsMaking};

mod check;
mod convert;
mod cut;
mod cutting;
mod edit;
mod gathering;
mod generate;
mod merge;
mod pack;
mod reply;
mod serve;
mod show;
mod sync;
mod vector;

use gathering::gather_files;
use std::alloc::Global;
use yd_asking::Command;
use yd_ending::Stop;
use yd_files::{File, Inputs, read_files};
use yd_world::{Library, Switchboard};

/// What the command makes of its files, and over the network where it uses one; or why it stops.
pub fn make_of<'a, L: Library, B: Switchboard>(
    alloc: Global,
    command: Command<'a>,
    library: &mut L,
    files: &[File<'a>],
    board: &mut B,
) -> Result<Vec<u8>, Stop<'a>>
    requires range { HasRange (command_of command) }
    ensures makes { MakesIn (L.is_calm library.old) (link_of
        (board_of (B.told board.old) (B.faults board.old) (B.send_faults board.old))
        (board_of (B.told board.new) (B.faults board.new) (B.send_faults board.new)))
        (command_of command.entry) (map file_of files.now) (L.told library.old)
        (L.told library.new) (count_of (L.faults library.old) (L.faults library.new)) result }
    ensures calm { L.is_calm library.old → ReadsCalmly (L.told library.old)
        (map file_of files.now) (count_of (L.faults library.old) (L.faults library.new)) }
    ensures linked { B.is_calm board.old → HasTurns (command_of command.entry) (B.told board.old)
        → IsNoLinkFault result × (B.faults board.new ≡ B.faults board.old) }
    ensures board { (board.new ≡ board.old) ⊎ OfInputs (L.told library.old)
        (map file_of files.now) (λ inputs. TradesTurns (link_of
        (board_of (B.told board.old) (B.faults board.old) (B.send_faults board.old))
        (board_of (B.told board.new) (B.faults board.new) (B.send_faults board.new)))
        (command_of command.entry)) }
{
    if command.is_online() {
        let inputs = read_files(alloc, library, files)?;
        let output = make_online(alloc, command, &inputs, board)?;
        return Ok(output);
    }
    let output = make_alone(alloc, command, library, files)?;
    Ok(output)
}

// What the command makes of its files alone, or why it stops. `pack`, `vector` and `cut` work while
// they read. All other commands are of what the files stand for together; where only what is received
// counts, the updates are gathered.
#[tactic(auto, using(crate::proofs::GatheredLemmas::of_inputs))]
fn make_alone<'a, L: Library>(
    alloc: Global,
    command: Command<'a>,
    library: &mut L,
    files: &[File<'a>],
) -> Result<Vec<u8>, Stop<'a>>
    requires range { HasRange (command_of command) }
    requires alone { ¬ (IsOnline (command_of command)) }
    ensures makes { MakesOn (L.is_calm library.old) (command_of command.entry)
        (map file_of files.now) (L.told library.old) (L.told library.new)
        (count_of (L.faults library.old) (L.faults library.new)) result }
    ensures calm { L.is_calm library.old → ReadsCalmly (L.told library.old)
        (map file_of files.now) (count_of (L.faults library.old) (L.faults library.new)) }
    ensures linked { IsNoLinkFault result }
{
    if is_at_once(&command) {
        let output = make_at_once(alloc, command, library, files)?;
        return Ok(output);
    }
    if is_of_received(&command) {
        let output = make_gathered(alloc, command, library, files)?;
        return Ok(output);
    }
    let output = make_kept(alloc, command, library, files)?;
    Ok(output)
}

// It works while its files are read.
fn is_at_once(command: &Command<'_>) -> bool
    ensures { IsTrue result ↔ IsAtOnce (command_of command.now) }
{
    match command {
        Command::Pack | Command::Vector | Command::Cut { .. } => true,
        _ => false,
    }
}

// It asks of the updates of its files only what is received.
fn is_of_received(command: &Command<'_>) -> bool
    ensures { IsTrue result ↔ IsOfReceived (command_of command.now) }
{
    match command {
        Command::Show { .. } | Command::Merge { .. } | Command::Edit { .. } => true,
        _ => false,
    }
}

// What a command makes of its files that works while they are read.
fn make_at_once<'a, L: Library>(
    alloc: Global,
    command: Command<'a>,
    library: &mut L,
    files: &[File<'a>],
) -> Result<Vec<u8>, Stop<'a>>
    requires { IsAtOnce (command_of command) }
    ensures makes { MakesOn (L.is_calm library.old) (command_of command.entry)
        (map file_of files.now) (L.told library.old) (L.told library.new)
        (count_of (L.faults library.old) (L.faults library.new)) result }
    ensures calm { L.is_calm library.old → ReadsCalmly (L.told library.old)
        (map file_of files.now) (count_of (L.faults library.old) (L.faults library.new)) }
    ensures linked { IsNoLinkFault result }
{
    match command {
        Command::Pack => {
            let log = pack::pack(alloc, library, files)?;
            Ok(log)
        }
        Command::Vector => {
            let written = vector::vector(alloc, library, files)?;
            Ok(written)
        }
        Command::Cut { .. } => {
            let part = cut::cut(alloc, library, files)?;
            Ok(part)
        }
        _ => unreachable!(),
    }
}

// What a command makes of its files that are all kept.
fn make_kept<'a, L: Library>(
    alloc: Global,
    command: Command<'a>,
    library: &mut L,
    files: &[File<'a>],
) -> Result<Vec<u8>, Stop<'a>>
    requires range { HasRange (command_of command) }
    requires together { IsOfInputs (command_of command) }
    ensures makes { MakesOn (L.is_calm library.old) (command_of command.entry)
        (map file_of files.now) (L.told library.old) (L.told library.new)
        (count_of (L.faults library.old) (L.faults library.new)) result }
    ensures calm { L.is_calm library.old → ReadsCalmly (L.told library.old)
        (map file_of files.now) (count_of (L.faults library.old) (L.faults library.new)) }
    ensures linked { IsNoLinkFault result }
{
    let inputs = read_files(alloc, library, files)?;
    let output = output_of(alloc, command, inputs)?;
    Ok(output)
}

// What a command makes of its files that asks of their updates only what is received. They are
// gathered while they are read.
#[tactic(auto, using(crate::proofs::GatheredLemmas::received_inputs))]
fn make_gathered<'a, L: Library>(
    alloc: Global,
    command: Command<'a>,
    library: &mut L,
    files: &[File<'a>],
) -> Result<Vec<u8>, Stop<'a>>
    requires range { HasRange (command_of command) }
    requires received { IsOfReceived (command_of command) }
    ensures makes { MakesOn (L.is_calm library.old) (command_of command.entry)
        (map file_of files.now) (L.told library.old) (L.told library.new)
        (count_of (L.faults library.old) (L.faults library.new)) result }
    ensures calm { L.is_calm library.old → ReadsCalmly (L.told library.old)
        (map file_of files.now) (count_of (L.faults library.old) (L.faults library.new)) }
    ensures linked { IsNoLinkFault result }
{
    let inputs = gather_files(alloc, library, files)?;
    let output = output_of(alloc, command, inputs)?;
    Ok(output)
}

// What the command makes over the network of what its files stand for, or why it stops.
fn make_online<'a, B: Switchboard>(
    alloc: Global,
    command: Command<'a>,
    inputs: &Inputs,
    board: &mut B,
) -> Result<Vec<u8>, Stop<'a>>
    requires valid { Each IsValidUpdate (inputs_of inputs.now).updates }
    requires online { IsOnline (command_of command) }
    ensures makes { MakesOver (link_of
        (board_of (B.told board.old) (B.faults board.old) (B.send_faults board.old))
        (board_of (B.told board.new) (B.faults board.new) (B.send_faults board.new)))
        (command_of command.entry) (inputs_of inputs.now) result }
    ensures linked { B.is_calm board.old → HasTurns (command_of command.entry) (B.told board.old)
        → IsNoLinkFault result × (B.faults board.new ≡ B.faults board.old) }
    ensures few { TradesTurns (link_of
        (board_of (B.told board.old) (B.faults board.old) (B.send_faults board.old))
        (board_of (B.told board.new) (B.faults board.new) (B.send_faults board.new)))
        (command_of command.entry) }
{
    match command {
        Command::Serve { address, turns } => serve::serve(alloc, address, turns, inputs, board),
        Command::Sync { address, turns } => sync::sync(alloc, address, turns, inputs, board),
        _ => unreachable!(),
    }
}

// What the command makes of what its files stand for, or why it refuses that.
fn output_of<'a>(alloc: Global, command: Command<'a>, inputs: Inputs) -> Result<Vec<u8>, Stop<'a>>
    requires valid { Each IsValidUpdate (inputs_of inputs).updates }
    requires range { HasRange (command_of command) }
    requires together { IsOfInputs (command_of command) }
    ensures made { IfOk result (λ bytes.
        IsMadeOf (command_of command.entry) (inputs_of inputs) bytes.items) }
    ensures stops { IfErr result
        (StopsMaking (command_of command.entry) (inputs_of inputs)) }
{
    match command {
        Command::Show { mode, root } => Ok(show::show(alloc, mode, root, inputs)?),
        Command::Convert { form } => Ok(convert::convert(alloc, form, &inputs)?),
        Command::Pack => unreachable!(),
        Command::Merge { form } => Ok(merge::merge(alloc, form, &inputs)?),
        Command::Vector => unreachable!(),
        Command::Cut { .. } => unreachable!(),
        Command::Edit { client, script } => edit::edit(alloc, client, script, inputs),
        Command::Check => Ok(check::check(alloc, inputs)?),
        Command::Serve { .. } => unreachable!(),
        Command::Sync { .. } => unreachable!(),
        Command::Generate { steps } => Ok(generate::generate(alloc, steps)?),
    }
}
