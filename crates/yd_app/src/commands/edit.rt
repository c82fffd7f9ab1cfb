//! `edit`: a script played on what files hold.

ghost use Rattle.std.specs.Prelude.{◌≡◌, map, IfOk, IfErr};
ghost use Rattle.yd_words.specs.Each.{Each};
ghost use Rattle.yd_ids.specs.Id.{IsClient};
ghost use Rattle.yd_ops.specs.Valid.{IsValidUpdate};
ghost use Rattle.yd_ops.specs.View.{update_value};
ghost use Rattle.yd_script.specs.Lines.{script_lines};
ghost use Rattle.yd_files.specs.Seen.{inputs_of};
ghost use Rattle.yd_asking.specs.Command.{edit as edits};
ghost use Rattle.yd_app.specs.Commands.Edit.{MakesUpdates, lines_of_first};
ghost use Rattle.yd_app.specs.Commands.Merge.{MergedStandsAgain, merged_output};
ghost use Rattle.yd_app.specs.Output.{IsMadeOf};
ghost use Rattle.yd_app.specs.Stopping.{StopsMaking};
ghost use Rattle.yd_asking.specs.declared.format.Format.TheVariants.{V1};

use crate::fault::NoMemory;
use crate::format::write_in;
use std::alloc::Global;
use yd_any::Text;
use yd_asking::Format;
use yd_doc::Replica;
use yd_ending::{Refusal, Stop};
use yd_files::Inputs;
use yd_ids::Client;
use yd_merge::merge;
use yd_ops::Update;
use yd_playing::{PlayFault, play};
use yd_v1::UpdateList;

/// The bytes of what the lines of the script make, as one update in V1. The script under the name is
/// the first one of the inputs; a line of it that is refused is told under the name.
pub fn edit<'a>(
    alloc: Global,
    client: Client,
    name: &'a str,
    inputs: Inputs,
) -> Result<Vec<u8>, Stop<'a>>
    requires client { IsClient client }
    requires valid { Each IsValidUpdate (inputs_of inputs).updates }
    ensures made { IfOk result (λ bytes.
        IsMadeOf (edits client name.now) (inputs_of inputs) bytes.items) }
    ensures stops { IfErr result
        (StopsMaking (edits client name.now) (inputs_of inputs)) }
{
    let updates = updates_of(alloc, client, name, inputs)?;
    let bytes = merged(alloc, &updates)?;
    Ok(bytes)
}

// The updates that the lines of the script make.
fn updates_of<'a>(
    alloc: Global,
    client: Client,
    name: &'a str,
    inputs: Inputs,
) -> Result<UpdateList, Stop<'a>>
    requires client { IsClient client }
    requires valid { Each IsValidUpdate (inputs_of inputs).updates }
    ensures made { IfOk result (λ updates.
        MakesUpdates client (inputs_of inputs) (map update_value updates)) }
    ensures valid { IfOk result (λ updates. Each IsValidUpdate (map update_value updates)) }
    ensures stops { IfErr result
        (StopsMaking (edits client name.now) (inputs_of inputs)) }
{
    let Inputs {
        scripts,
        updates,
        ..
    } = inputs;
    let Ok(mut replica) = Replica::of_updates(alloc, client, updates.into_vec()) else {
        return Err(Stop::NoMemory);
    };
    match play(alloc, &mut replica, first_of(&scripts)) {
        Ok(updates) => Ok(updates),
        Err(PlayFault::NoMemory) => Err(Stop::NoMemory),
        Err(PlayFault::Refused { number, cause }) => Err(Stop::Refused(Refusal::OfLine {
            script: name,
            number,
            cause,
        })),
    }
}

// The text of the first script, and without one no line.
fn first_of(scripts: &[Text]) -> &str
    ensures { script_lines result.now ≡ lines_of_first scripts.now }
{
    match scripts {
        [text, ..] => text.as_str(),
        _ => "",
    }
}

// The bytes of the updates as one.
fn merged(alloc: Global, updates: &UpdateList) -> Result<Vec<u8>, NoMemory>
    requires { Each IsValidUpdate (map update_value updates.now) }
    ensures written { IfOk result (λ bytes. bytes.items
        ≡ merged_output V1 (map update_value updates.now)) }
    ensures read_again { IfOk result (λ bytes.
        MergedStandsAgain V1 (map update_value updates.now)) }
{
    let update = merge(alloc, updates.as_slice())?;
    let written = write_in(alloc, Format::V1, &update)?;
    Ok(written)
}
