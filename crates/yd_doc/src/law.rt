//! The laws of replicas, each the contract of a function that does nothing.

ghost use Rattle.std.specs.Prelude.{◌≤◌, ℕ};
ghost use Rattle.yd_ids.specs.Vector.{clock_of};
ghost use Rattle.yd_ops.specs.ReceivedLaw.{IsReceived};
ghost use Rattle.yd_ops.specs.Received.{received_after};
ghost use Rattle.yd_meaning.specs.Held.{held_clock, held_set};
ghost use Rattle.yd_meaning.specs.Law.{IsCompleted};
ghost use Rattle.yd_meaning.specs.Replica.{IsReplicaDocument};
ghost use Rattle.yd_grouping.specs.Groupable.{AreGroupable};
ghost use Rattle.yd_grouping.specs.Merged.{reply_of};
ghost use Rattle.yd_doc.specs.Editing.{HasGrownLists};
ghost use Rattle.yd_doc.specs.Kept.{received_of, own_deletes, own_document};

use crate::replica::Replica;
use yd_ids::Vector;

/// The document of a replica is one that a replica may have that received this: its lists have what
/// stands, as it is held, and where the edit rules are kept it is the one that is defined.
pub fn own_document_is_replicas(replica: &Replica)
    ensures { IsReplicaDocument (own_document replica.now) (received_of replica.now) }
{
    // What is kept is looked at, since its invariant says this.
    let _state = &replica.state;
}

/// Each list of a replica's own document grew by integration scans, from nothing, for every set of
/// operations.
pub fn own_lists_are_grown(replica: &Replica)
    ensures { HasGrownLists replica.now }
{
    // What is kept is looked at, since its invariant says this.
    let _received = replica.state.received();
}

/// A reply leaves the asker with an operation of each id, and with each deletion, that the answerer
/// received, waiting ones too. The vector that was asked with is nowhere above the asker's own. The
/// asker may have received anything before, and neither of them needs to agree with the other.
pub fn replies_complete(answerer: &Replica, asker: &Replica, vector: &Vector)
    ensures { ((client : ℕ) → clock_of vector.now client
        ≤ held_clock (held_set (received_of asker.now).operations) client)
        → IsCompleted (received_of answerer.now) (received_after (received_of asker.now)
        (reply_of (received_of answerer.now) (own_deletes answerer.now) (clock_of vector.now)))
        (clock_of vector.now) }
{
    // What is kept is looked at, since its invariant says that this is of valid updates.
    let _answering = &answerer.state;
    let _asking = &asker.state;
}

/// What a replica received is what valid updates bring: in the order of writing, with whole pairs.
pub fn received_is_sound(replica: &Replica)
    ensures { IsReceived (received_of replica.now) }
{
    // What is kept is looked at, since its invariant says this.
    let _received = replica.state.received();
}

/// What a replica received can be grouped, so that each reply of it is valid.
pub fn received_can_be_grouped(replica: &Replica)
    ensures { AreGroupable (received_of replica.now).operations }
{
    // What is kept is looked at, since its invariant says that this is of valid updates.
    let _state = &replica.state;
}
