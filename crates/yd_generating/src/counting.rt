//! How much a replica holds, and how much of it is deleted.

ghost use Rattle.std.specs.Prelude.{◌≡◌, length};
ghost use Rattle.yd_ids.specs.Set.{AreMaximal};
ghost use Rattle.yd_meaning.specs.Held.{count_of_ids, held_set};
ghost use Rattle.yd_generator.specs.Generated.{delete_set_of};
ghost use Rattle.yd_generator.specs.Plain.{IsOfThree, IsPlain};
ghost use Rattle.yd_doc.specs.Kept.{received_of};

use yd_doc::Replica;
use yd_doc::law::own_document_is_replicas;
use yd_ids::{Client, IdSet};

/// How many units are held: as many of each client as the state vector says.
pub(crate) fn held(replica: &Replica) -> u64
    requires plain { IsPlain (received_of replica.now) }
    requires of_three { IsOfThree (received_of replica.now) }
    ensures { result ≡ length (held_set (received_of replica.now).operations) }
{
    own_document_is_replicas(replica);
    let vector = replica.vector();
    vector.get(Client(1)) + vector.get(Client(2)) + vector.get(Client(3))
}

/// How many held units are deleted.
pub(crate) fn deleted(replica: &Replica) -> u128
    requires { IsPlain (received_of replica.now) }
    ensures { result ≡ count_of_ids (delete_set_of (received_of replica.now)) }
{
    own_document_is_replicas(replica);
    count_ids(replica.deletes())
}

/// How many ids a set has.
fn count_ids(ids: &IdSet) -> u128
    ensures count { result ≡ count_of_ids ids.now }
    ensures maximal { AreMaximal ids.now }
{
    let mut count: u128 = 0;
    for span in ids.spans() {
        count += span.len as u128;
    }
    count
}
