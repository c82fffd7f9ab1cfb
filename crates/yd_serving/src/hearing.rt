//! What a client gets of what happens on the network.

ghost use Rattle.std.specs.Prelude.{◌≡◌, ◌<◌, suc, if◌then◌else◌};
ghost use Rattle.yd_hub.specs.Syncing.{counted, of_event, of_other, peer_turn};
ghost use Rattle.yd_machines.specs.PeerStep.{IsProperEvent, event_value};
ghost use Rattle.yd_serving.specs.Exchange.{IsProperHeard, heard_value};

use yd_machines::PeerEvent;
use yd_world::{Event, What};

/// What a peer gets of what happened.
#[derive(Drop)]
pub(crate) enum Heard {
    /// It is of another session.
    Nothing,
    /// The peer's session ended.
    Close,
    /// This happened to the peer.
    Event(PeerEvent),
}

/// What a peer gets of what happened; its session is 0.
pub(crate) fn heard_of(event: Event) -> Heard
    ensures heard { peer_turn event.now event.what ≡ heard_value result }
    ensures proper { IsProperHeard result }
{
    let now = event.now;
    match event.what {
        What::Opened(session) => heard_if(session.0 == 0, PeerEvent::Opened(now)),
        What::Received(session, bytes) => {
            heard_if(session.0 == 0, PeerEvent::Received(bytes, now))
        }
        What::Closed(session) => {
            if session.0 == 0 {
                Heard::Close
            } else {
                Heard::Nothing
            }
        }
        What::Idle => Heard::Event(PeerEvent::Tick(now)),
    }
}

// The event, where it is of the peer's session.
fn heard_if(is_own: bool, event: PeerEvent) -> Heard
    requires { IsProperEvent event }
    ensures heard { heard_value result ≡ if is_own then of_event (event_value event) else of_other }
    ensures proper { IsProperHeard result }
{
    if is_own {
        Heard::Event(event)
    } else {
        Heard::Nothing
    }
}

/// How many messages came, with that of an event.
pub(crate) fn count_heard(heard: u64, event: &PeerEvent) -> u64
    requires { suc heard < 18446744073709551616 }
    ensures { result ≡ counted (event_value event.now) heard }
{
    match event {
        PeerEvent::Received(_, _) => heard + 1,
        _ => heard,
    }
}
