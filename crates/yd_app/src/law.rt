//! The laws of words and of what is written, each the contract of an empty function, and the
//! program over things in memory.

ghost use Rattle.std.specs.Prelude.{◌≡◌, [], Some};
ghost use Rattle.yd_world.specs.MemoryLibrary.{shelf_of};
ghost use Rattle.yd_world.specs.MemorySink.{IsCalm};
ghost use Rattle.yd_world.specs.ScriptBoard.{failed_sends, traffic_of};
ghost use Rattle.yd_serving.specs.Board.{board_of};
ghost use Rattle.yd_app.specs.Law.{AskForOne, OneEndsOnline, OneIsDue, RunsConverge, ShowsConverge};
ghost use Rattle.yd_app.specs.Law.{CheckRunsConverge, ChecksConverge, GeneratesEqual};
ghost use Rattle.yd_app.specs.Law.{MergeRunsConverge, MergesAreConverted, MergesConverge};
ghost use Rattle.yd_app.specs.Link.{link_of};
ghost use Rattle.yd_app.specs.Online.{HasItsTurns};
ghost use Rattle.yd_app.specs.Run.{Follows, FollowsOnline, Writes};

use crate::program::run;
use std::alloc::Global;
use yd_asking::Word;
use yd_world::{MemoryLibrary, MemorySink, ScriptBoard};

/// Words ask for one command of one list of files at most.
pub fn words_ask_for_one()
    ensures { AskForOne }
{}

/// Where a library tells, something is due by the words and the files: the usage line, the output,
/// or what the first file is that is not accepted; or the words ask for the network. It is one thing,
/// of `show`, `check` and `edit` where the edit rules are kept.
pub fn one_is_due()
    ensures { OneIsDue }
{}

/// Where library and network tell, all that is due over the network has one status and one line on
/// err: the words, the files and what came decide them.
pub fn one_ends_online()
    ensures { OneEndsOnline }
{}

/// Files of the same changes show the same: in any order, repeated or translated, and merged. What
/// they bring has to keep the edit rules, and their operations with one id have to be alike. Where
/// some are merged, they also have to keep the collecting rule: of a pair that one update tells in
/// full, each tells less of both or of neither.
pub fn shows_converge()
    ensures { ShowsConverge }
{}

/// Two runs of `show` over the same changes that answer 0 have written the same, where their updates
/// agree and what they bring keeps the edit rules.
pub fn runs_converge()
    ensures { RunsConverge }
{}

/// Files of the same changes have the same merge, byte for byte, and the same vector: in any order,
/// repeated or translated, and merged. They have to agree as for [`shows_converge`].
pub fn merges_converge()
    ensures { MergesConverge }
{}

/// Two runs of `merge` in one format, or of `vector`, over the same changes that answer 0 have
/// written the same, where their updates agree.
pub fn merge_runs_converge()
    ensures { MergeRunsConverge }
{}

/// Files of the same changes are told alike by `check`, in all lines but that of deleted units: in any
/// order, repeated or translated, and merged. They have to agree as for [`shows_converge`]. Where what
/// they bring keeps the edit rules, so they are in all seven.
pub fn checks_converge()
    ensures { ChecksConverge }
{}

/// Two runs of `check` over the same changes that answer 0 have written the same, where their updates
/// agree and what they bring keeps the edit rules.
pub fn check_runs_converge()
    ensures { CheckRunsConverge }
{}

/// The line of `generate` is one of the number of steps, and ends with `equal yes`. A run of it that
/// answers 0 has written that line.
pub fn generates_equal()
    ensures { GeneratesEqual }
{}

/// `convert` of what `merge` wrote in one format is what `merge` writes in the other. A merge in V2
/// has to have no more structs than a file may declare there.
pub fn merges_are_converted()
    ensures { MergesAreConverted }
{}

/// The program over things in memory. Where no failure is set, the status is that of what is due,
/// or memory is wanted; over the network, where the board has an event for each turn, it is 0, 1, 8
/// or that. Status 0 has written the output.
pub fn run_in_memory(
    alloc: Global,
    words: &[Word],
    library: &mut MemoryLibrary,
    out: &mut MemorySink,
    err: &mut MemorySink,
    board: &mut ScriptBoard,
) -> u8
    ensures completes { library.old.plan.failures ≡ [] → IsCalm out.old
        → Follows words.now (Some (shelf_of library.old)) result }
    ensures completes_online { library.old.plan.failures ≡ [] → IsCalm out.old
        → board.old.plan.failures ≡ [] → HasItsTurns words.now (Some (traffic_of board.old))
        → FollowsOnline words.now (Some (shelf_of library.old)) result }
    ensures converges { result ≡ 0 → Writes words.now (Some (shelf_of library.old)) (link_of
        (board_of (Some (traffic_of board.old)) board.old.plan.faults (failed_sends board.old.sent))
        (board_of (Some (traffic_of board.new)) board.new.plan.faults
        (failed_sends board.new.sent))) (Some out.old.bytes) (Some out.new.bytes) }
{
    run(alloc, words, library, out, err, board)
}
