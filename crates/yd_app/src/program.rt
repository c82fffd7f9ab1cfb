//! The program over the traits of the outside.

ghost use Rattle.std.specs.Prelude.{◌≡◌, ◌∷◌, []};
ghost use Rattle.yd_ending.specs.Status.{IsOneOf};
ghost use Rattle.yd_files.specs.Counts.{count_of};
ghost use Rattle.yd_serving.specs.Board.{board_of};
ghost use Rattle.yd_app.specs.Link.{link_of};
ghost use Rattle.yd_app.specs.Online.{HasItsTurns, LeavesBoard};
ghost use Rattle.yd_app.specs.Run.{Comes, Completes, CutsOff, HasReason, TellsErr, Writes};
ghost use Rattle.yd_app.specs.Stopping.{IsNoLinkFault, MakesAsked, ReadsAsked};

use crate::commands::make_of;
use std::alloc::Global;
use yd_asking::{Word, request_of};
use yd_ending::{Stop, deliver, report};
use yd_world::{Library, Sink, Switchboard};

/// Does what the words ask for, and answers the status. The words that run are `show MODE NAME
/// FILE..`, `convert FORM FILE`, `pack FILE..`, `merge FORM FILE..`, `vector FILE..`, `cut
/// VECTORFILE FILE`, `edit CLIENT SCRIPT FILE..`, `check FILE..`, `serve ADDRESS TURNS FILE`, `sync
/// ADDRESS TURNS FILE` and `generate N`. MODE is `--text`, `--delta`, `--array`, `--map` or
/// `--tree`, FORM is `v1` or `v2`, and FILE is `v1:NAME` or `v2:NAME`. `FILE..` is one or more, for
/// `edit` none or more, and each may also be `log:NAME`. VECTORFILE and SCRIPT are any words: the
/// names of a state vector's file and of a script's. ADDRESS is any word. CLIENT is a number up to
/// 2^53-1 in decimal digits, TURNS one up to 2^32-1, N one up to 1,000,000. Files are read and
/// judged one by one in the order of the words, then the lines of a script or what comes over the
/// network, and nothing is written to out before all are accepted.
pub fn run<L: Library, S: Sink, B: Switchboard>(
    alloc: Global,
    words: &[Word],
    library: &mut L,
    out: &mut S,
    err: &mut S,
    board: &mut B,
) -> u8
    // Why the status comes, and which can come.
    ensures reason { HasReason words.now (L.told library.old) (link_of
        (board_of (B.told board.old) (B.faults board.old) (B.send_faults board.old))
        (board_of (B.told board.new) (B.faults board.new) (B.send_faults board.new)))
        (count_of (L.faults library.old) (L.faults library.new))
        (count_of (S.faults out.old) (S.faults out.new)) result }
    ensures comes { Comes words.now (L.told library.old) result }
    ensures completes { Completes (L.is_calm library.old) (S.is_calm out.old) (B.is_calm board.old)
        words.now (L.told library.old) (link_of
        (board_of (B.told board.old) (B.faults board.old) (B.send_faults board.old))
        (board_of (B.told board.new) (B.faults board.new) (B.send_faults board.new)))
        (count_of (L.faults library.old) (L.faults library.new))
        (count_of (S.faults out.old) (S.faults out.new)) result }

    // What is written is what the updates of the files define, and what came over the network.
    ensures converges { result ≡ 0 → Writes words.now (L.told library.old) (link_of
        (board_of (B.told board.old) (B.faults board.old) (B.send_faults board.old))
        (board_of (B.told board.new) (B.faults board.new) (B.send_faults board.new)))
        (S.bytes_taken out.old) (S.bytes_taken out.new) }
    ensures cuts_off { CutsOff words.now (L.told library.old) (link_of
        (board_of (B.told board.old) (B.faults board.old) (B.send_faults board.old))
        (board_of (B.told board.new) (B.faults board.new) (B.send_faults board.new)))
        (S.bytes_taken out.old) (S.bytes_taken out.new) result }
    ensures untouched { IsOneOf result (1 ∷ 2 ∷ 3 ∷ 6 ∷ 7 ∷ 8 ∷ []) → out.new ≡ out.old }

    // What is said on err, and what is done with the network.
    ensures err { TellsErr (L.is_calm library.old) words.now (L.told library.old)
        (L.told library.new) (link_of
        (board_of (B.told board.old) (B.faults board.old) (B.send_faults board.old))
        (board_of (B.told board.new) (B.faults board.new) (B.send_faults board.new)))
        (count_of (L.faults library.old) (L.faults library.new))
        (count_of (S.faults out.old) (S.faults out.new))
        (count_of (S.faults err.old) (S.faults err.new))
        (S.bytes_taken err.old) (S.bytes_taken err.new) result }
    ensures board { LeavesBoard (board.new ≡ board.old) words.now (L.told library.old) (link_of
        (board_of (B.told board.old) (B.faults board.old) (B.send_faults board.old))
        (board_of (B.told board.new) (B.faults board.new) (B.send_faults board.new))) }
{
    let made = make(alloc, words, library, board);
    let ending = deliver(made, out);
    report(ending, err)
}

// Makes what the words ask for.
fn make<'a, L: Library, B: Switchboard>(
    alloc: Global,
    words: &'a [Word],
    library: &mut L,
    board: &mut B,
) -> Result<Vec<u8>, Stop<'a>>
    ensures makes { MakesAsked (L.is_calm library.old) (link_of
        (board_of (B.told board.old) (B.faults board.old) (B.send_faults board.old))
        (board_of (B.told board.new) (B.faults board.new) (B.send_faults board.new)))
        words.now (L.told library.old) (L.told library.new)
        (count_of (L.faults library.old) (L.faults library.new)) result }
    ensures reads { L.is_calm library.old → ReadsAsked words.now (L.told library.old)
        (count_of (L.faults library.old) (L.faults library.new)) }
    ensures linked { B.is_calm board.old → HasItsTurns words.now (B.told board.old)
        → IsNoLinkFault result × (B.faults board.new ≡ B.faults board.old) }
    ensures board { LeavesBoard (board.new ≡ board.old) words.now (L.told library.old) (link_of
        (board_of (B.told board.old) (B.faults board.old) (B.send_faults board.old))
        (board_of (B.told board.new) (B.faults board.new) (B.send_faults board.new))) }
{
    let request = request_of(alloc, words)?;
    let files = request.files.as_slice();
    let output = make_of(alloc, request.command, library, files, board)?;
    Ok(output)
}
