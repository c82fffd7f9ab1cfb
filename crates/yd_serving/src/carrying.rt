//! Carrying out what a hub orders: sends and closes, and what becomes of sends that fail.

ghost use Rattle.std.specs.Prelude.{◌≡◌, ◌∷◌, ◌++◌, []};
ghost use Rattle.yd_words.specs.Each.{Each};
ghost use Rattle.yd_hub.specs.Actions.{close as closes};
ghost use Rattle.yd_hub.specs.Orders.{IsSendable, orders_in, orders_of};
ghost use Rattle.yd_hub.specs.Sessions.{is_open};
ghost use Rattle.yd_serving.specs.Board.{board_of};
ghost use Rattle.yd_serving.specs.Carried.{CarriesOn, SendsOn};

use crate::fault::NoMemory;
use crate::naming::reason;
use std::alloc::Global;
use yd_hub::{Action, CloseCause};
use yd_sync::write_message;
use yd_world::{Outage, Session, Switchboard};

/// Why a session is closed whose send failed.
const SEND_FAILED: &str = "SendFailed";

/// Carries out actions in their order. A session whose send fails is closed at once and noted as
/// failed, and nothing more is done for one that has failed. A message is written once for all who
/// get it. Where memory ends, what was told is a front.
pub fn carry<B: Switchboard>(
    alloc: Global,
    board: &mut B,
    actions: &[Action],
    failed: &mut Vec<u64>,
) -> Result<(), NoMemory>
    requires sendable { Each IsSendable actions.now }
    ensures carried { CarriesOn (orders_of actions.now) failed.old.items failed.new.items
        (board_of (B.told board.old) (B.faults board.old) (B.send_faults board.old))
        (board_of (B.told board.new) (B.faults board.new) (B.send_faults board.new)) result }
    ensures calm { B.is_calm board.old → B.is_calm board.new }
    ensures faults { B.faults board.new ≡ B.faults board.old }
{
    for action in actions {
        carry_one(alloc, board, action, failed)?;
    }
    Ok(())
}

// A message is written once for all who get it.
fn carry_one<B: Switchboard>(
    alloc: Global,
    board: &mut B,
    action: &Action,
    failed: &mut Vec<u64>,
) -> Result<(), NoMemory>
    requires sendable { IsSendable action.now }
    ensures carried { CarriesOn (orders_in action.now) failed.old.items failed.new.items
        (board_of (B.told board.old) (B.faults board.old) (B.send_faults board.old))
        (board_of (B.told board.new) (B.faults board.new) (B.send_faults board.new)) result }
    ensures calm { B.is_calm board.old → B.is_calm board.new }
    ensures faults { B.faults board.new ≡ B.faults board.old }
{
    match action {
        Action::Send { to, message } => {
            let bytes = write_message(alloc, message)?;
            send_each(board, to.as_slice(), &bytes, failed)?;
            Ok(())
        }
        Action::Close { to, cause } => {
            close(board, *to, *cause, failed)?;
            Ok(())
        }
    }
}

// A message to each of these sessions.
fn send_each<B: Switchboard>(
    board: &mut B,
    to: &[u64],
    bytes: &[u8],
    failed: &mut Vec<u64>,
) -> Result<(), NoMemory>
    ensures sent { SendsOn bytes.now to.now failed.old.items failed.new.items
        (board_of (B.told board.old) (B.faults board.old) (B.send_faults board.old))
        (board_of (B.told board.new) (B.faults board.new) (B.send_faults board.new)) result }
    ensures calm { B.is_calm board.old → B.is_calm board.new }
    ensures faults { B.faults board.new ≡ B.faults board.old }
{
    for session in to {
        send(board, *session, bytes, failed)?;
    }
    Ok(())
}

// A message to a session that has not failed; where its send fails, the session is closed at once.
fn send<B: Switchboard>(
    board: &mut B,
    to: u64,
    bytes: &[u8],
    failed: &mut Vec<u64>,
) -> Result<(), NoMemory>
    ensures sent { SendsOn bytes.now (to ∷ []) failed.old.items failed.new.items
        (board_of (B.told board.old) (B.faults board.old) (B.send_faults board.old))
        (board_of (B.told board.new) (B.faults board.new) (B.send_faults board.new)) result }
    ensures calm { B.is_calm board.old → B.is_calm board.new }
    ensures faults { B.faults board.new ≡ B.faults board.old }
{
    if has_failed(failed, to) {
        return Ok(());
    }
    match board.send(Session(to), bytes) {
        Ok(()) => Ok(()),
        Err(Outage::NoMemory) => Err(NoMemory),
        Err(Outage::Failed) => {
            board.close(Session(to), SEND_FAILED)?;
            failed.push(to)?;
            Ok(())
        }
    }
}

// A session that has not failed is closed.
fn close<B: Switchboard>(
    board: &mut B,
    to: Session,
    cause: CloseCause,
    failed: &[u64],
) -> Result<(), NoMemory>
    ensures closed { CarriesOn (closes to.0 cause ∷ []) failed.now failed.now
        (board_of (B.told board.old) (B.faults board.old) (B.send_faults board.old))
        (board_of (B.told board.new) (B.faults board.new) (B.send_faults board.new)) result }
    ensures calm { B.is_calm board.old → B.is_calm board.new }
    ensures faults { B.faults board.new ≡ B.faults board.old }
{
    if has_failed(failed, to.0) {
        return Ok(());
    }
    board.close(to, reason(cause))?;
    Ok(())
}

// Whether the session is one of those that failed.
fn has_failed(failed: &[u64], session: u64) -> bool
    ensures { result ≡ is_open failed.now session }
{
    for number in failed {
        if *number == session {
            return true;
        }
    }
    false
}
