//! The lines of a script, one after another.

ghost use Rattle.std.specs.Prelude.{◌≡◌, Some, map, IfOk, IfErr};
ghost use Rattle.yd_words.specs.Each.{Each};
ghost use Rattle.yd_ops.specs.Valid.{IsValidUpdate};
ghost use Rattle.yd_ops.specs.View.{update_value};
ghost use Rattle.yd_ops.specs.Received.{received_more};
ghost use Rattle.yd_meaning.specs.Replica.{IsReplicaDocument};
ghost use Rattle.yd_script.specs.Line.{IsValidLine, line_of};
ghost use Rattle.yd_script.specs.Lines.{numbered_of, script_lines};
ghost use Rattle.yd_script.specs.Reading.{line_in};
ghost use Rattle.yd_doc.specs.Kept.{own_document, received_of};
ghost use Rattle.yd_playing.specs.Answer.{PlaysAs, AreValid};
ghost use Rattle.yd_playing.specs.Desk.{desk_of};
ghost use Rattle.yd_playing.specs.Ended.{text_ends};
ghost use Rattle.yd_playing.specs.Played.{ArePlayed};
ghost use Rattle.yd_playing.specs.Stopped.{IsUnread, LeavesPlayed, StopsFor};

use crate::desk::Desk;
use crate::fault::PlayFault;
use crate::lines::{play_asked, push_made};
use std::alloc::Global;
use yd_causes::LineCause;
use yd_doc::Replica;
use yd_doc::law::own_document_is_replicas;
use yd_ops::Update;
use yd_script::{Line, LineFault, Lines, NumberedLine, read_line};
use yd_v1::UpdateList;

/// Plays the lines of a script in their order, and answers the updates that they made: a mark keeps a
/// place and makes none, and each other line is one edit of the replica. Each edit is noted for an
/// undo, but undos and redos are not. The first line that is no line, or whose target leads to no live
/// type, or that names no mark, or whose edit is refused, ends it: its number and why are answered.
/// The replica has then taken the updates of the lines before, and so it has where a growth found no
/// memory. It takes the time of the edits, and for an insertion at a mark time with the marks.
pub fn play(alloc: Global, replica: &mut Replica, script: &str) -> Result<UpdateList, PlayFault>
    ensures played { IfOk result (λ updates. ArePlayed replica.old.client
        (received_of replica.old) (script_lines script.now) (map update_value updates)) }
    ensures received { IfOk result (λ updates. received_of replica.new
        ≡ received_more (received_of replica.old) (map update_value updates)) }
    ensures valid { IfOk result (λ updates. Each IsValidUpdate (map update_value updates)) }
    ensures stops { IfErr result (StopsFor replica.old.client (received_of replica.old)
        (script_lines script.now)) }
    ensures leaves { IfErr result (LeavesPlayed replica.old.client (received_of replica.old)
        (received_of replica.new) (script_lines script.now)) }
    ensures client { replica.new.client ≡ replica.old.client }
{
    let mut updates = UpdateList::new(alloc);
    let mut desk = Desk::new(alloc);
    let mut lines = Lines::of(script);
    while let Some(line) = lines.next() {
        let made = play_line(alloc, replica, &mut desk, &line)?;
        push_made(&mut updates, made)?;
    }
    Ok(updates)
}

/// Plays one line, over the replica's own document.
fn play_line(
    alloc: Global,
    replica: &mut Replica,
    desk: &mut Desk,
    line: &NumberedLine<'_>,
) -> Result<Option<Update>, PlayFault>
    ensures plays { PlaysAs (text_ends replica.old.client (own_document replica.old)
        (desk_of replica.old desk.old) (numbered_of line.now).text) (numbered_of line.now).number
        (received_of replica.old) (desk_of replica.new desk.new) result }
    ensures own { IsReplicaDocument (own_document replica.old) (received_of replica.old) }
    ensures valid { IfOk result AreValid }
    ensures client { replica.new.client ≡ replica.old.client }
{
    own_document_is_replicas(replica);
    let asked = read(alloc, line)?;
    play_asked(alloc, replica, desk, line.number, asked)
}

/// What a line asks for.
fn read(alloc: Global, line: &NumberedLine<'_>) -> Result<Line, PlayFault>
    ensures line { IfOk result (λ asked. line_in (numbered_of line.now).text ≡ Some (line_of asked)) }
    ensures valid { IfOk result (λ asked. IsValidLine (line_of asked)) }
    ensures unread { IfErr result (IsUnread (numbered_of line.now)) }
{
    match read_line(alloc, line.text) {
        Ok(asked) => Ok(asked),
        Err(LineFault::NoMemory) => Err(PlayFault::NoMemory),
        Err(LineFault::BadLine) => Err(PlayFault::Refused {
            number: line.number,
            cause: LineCause::BadLine,
        }),
    }
}
