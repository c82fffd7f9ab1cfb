//! What one side of a connection tells the other.

use crate::entry::AwareList;
use yd_any::Blob;
use yd_ids::Vector;
use yd_ops::Update;

/// A message (y-protocols, the sync and awareness protocols; y-websocket, the numbers in front).
#[derive(Drop)]
pub enum Message {
    /// Asks for what is not yet in a document with this state vector.
    Step1(Vector),
    /// Answers such a question.
    Step2(Update),
    /// Tells what was edited.
    Change(Update),
    /// Tells who is there.
    Aware(AwareList),
    /// Something about permission, which nobody here reads.
    Auth(Blob),
    /// Asks who is there.
    Query,
}
