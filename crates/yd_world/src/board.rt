//! The network.

ghost use Rattle.std.specs.Prelude.{◌≡◌, ◌≢◌, ℕ, Option};
ghost use Rattle.yd_world.specs.Faults.{HasOutage};
ghost use Rattle.yd_world.specs.Traffic.{Traffic, Keeps, TakesEvent, Sends, Closes, HasEvent, IsNoFault};

use crate::blob::Blob8;
use crate::event::{Event, Session};
use crate::fault::{NoMemory, Outage};

/// On which side of a connection the board starts.
#[derive(Clone, Copy, Debug, PartialEq, Eq)]
pub enum Way {
    /// It waits for connections at an address.
    Listen,
    /// It makes one connection to an address, session 0.
    Call,
}

/// What a board was given to do.
#[derive(Debug, Drop)]
pub enum Sent {
    /// A message, and whether its sending failed.
    Message {
        to: Session,
        bytes: Blob8,
        failed: bool,
    },
    /// A session was closed, for a reason.
    Close {
        to: Session,
        reason: Blob8,
    },
}

/// Connections, served in turn by one that asks what happened.
pub trait Switchboard {
    /// The events to come, and what was sent and closed, where they are told.
    ghost told: { Self → Option Traffic };

    /// How many faults of `start` and `next` were counted.
    ghost faults: { Self → ℕ };

    /// How many sends to a session failed.
    ghost send_faults: { Self → ℕ → ℕ };

    /// No call is set to fail.
    ghost is_calm: { Self → Type 0 };

    /// Starts on this side of the address.
    fn start(&mut self, address: &str, way: Way) -> Result<(), Outage>
        ensures told { Keeps (told self.old) (told self.new) }
        ensures cause { HasOutage (faults self.old) (faults self.new) result }
        ensures send_faults { send_faults self.new ≡ send_faults self.old }
        ensures calm { is_calm self.old
            → is_calm self.new × IsNoFault result × (faults self.new ≡ faults self.old) };

    /// What happens next.
    fn next(&mut self) -> Result<Event, Outage>
        ensures takes { TakesEvent (told self.old) (told self.new) result }
        ensures cause { HasOutage (faults self.old) (faults self.new) result }
        ensures send_faults { send_faults self.new ≡ send_faults self.old }
        ensures calm { is_calm self.old → is_calm self.new }
        ensures coming { is_calm self.old → HasEvent (told self.old)
            → IsNoFault result × (faults self.new ≡ faults self.old) };

    /// Sends a message to a session.
    fn send(&mut self, to: Session, message: &[u8]) -> Result<(), Outage>
        ensures sends { Sends (told self.old) (told self.new) to.0 message.now result }
        ensures cause { HasOutage (send_faults self.old to.0) (send_faults self.new to.0) result }
        ensures others { (other : ℕ) → other ≢ to.0
            → send_faults self.new other ≡ send_faults self.old other }
        ensures faults { faults self.new ≡ faults self.old }
        ensures calm { is_calm self.old → is_calm self.new × IsNoFault result
            × (send_faults self.new ≡ send_faults self.old) };

    /// Closes a session, for a reason.
    fn close(&mut self, to: Session, reason: &str) -> Result<(), NoMemory>
        ensures closes { Closes (told self.old) (told self.new) to.0 reason.now result }
        ensures faults { faults self.new ≡ faults self.old }
        ensures send_faults { send_faults self.new ≡ send_faults self.old }
        ensures calm { is_calm self.old → is_calm self.new };
}
