//! What a client sends at an event, as bytes.

ghost use Rattle.yd_words.specs.Each.{Each};
ghost use Rattle.yd_sync.specs.Message.{IsValidMessage};
ghost use Rattle.yd_machines.specs.PeerStep.{IsProperEvent};
ghost use Rattle.yd_machines.specs.Sent.{values_of};

use std::alloc::Global;
use std::test::Fail;
use yd_machines::{Peer, PeerEvent};
use yd_sync::{Message, write_message};

/// The bytes of messages, one behind the other.
fn bytes_of(alloc: Global, messages: &[Message]) -> Result<Vec<u8>, Fail>
    requires { Each IsValidMessage (values_of messages.now) }
{
    let mut all = Vec::new(alloc);
    for message in messages {
        let bytes = write_message(alloc, message)?;
        all.extend_from_slice(&bytes)?;
    }
    Ok(all)
}

/// What an event sends.
pub(crate) fn sent_at(alloc: Global, peer: &mut Peer, event: &PeerEvent) -> Result<Vec<u8>, Fail>
    requires { IsProperEvent event.now }
{
    let sent = peer.step(event)?;
    bytes_of(alloc, sent.as_slice())
}
