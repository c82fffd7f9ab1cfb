//! What a replica is asked for.

ghost use Rattle.std.specs.Prelude.{◌≡◌, ℕ, IfOk};
ghost use Rattle.yd_ids.specs.Vector.{IsVector, clock_of};
ghost use Rattle.yd_meaning.specs.Held.{held_clock, held_set};
ghost use Rattle.yd_doc.specs.Kept.{own_deletes, received_of};
ghost use Rattle.yd_machines.specs.Asked.{IsAnswering, IsVectorOf};

use crate::fault::NoMemory;
use yd_doc::Replica;
use yd_doc::law::{own_document_is_replicas, received_can_be_grouped, received_is_sound};
use yd_ids::Vector;

/// A replica can answer with each vector that counts what it holds: a law, so the call does nothing
/// (own).
pub fn is_answering(replica: &Replica)
    ensures { IsAnswering replica.now }
{
    received_is_sound(replica);
    received_can_be_grouped(replica);
    own_document_is_replicas(replica);
    let deletes = replica.deletes();
    let _spans = deletes.spans();
}

/// The state vector of a replica, as an answer: it counts what the replica holds (own). Nothing is
/// copied.
pub fn vector_of(replica: &Replica) -> &Vector
    ensures counts { IsVectorOf replica.now result.now }
    ensures valid { IsVector result.now }
{
    is_answering(replica);
    let vector = replica.vector();
    let _entries = vector.iter();
    vector
}
