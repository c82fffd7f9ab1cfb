//! A replica of many updates.

ghost use Rattle.std.specs.Prelude.{◌≡◌, map, false, IfOk};
ghost use Rattle.yd_words.specs.Each.{Each};
ghost use Rattle.yd_ids.specs.Id.{IsClient};
ghost use Rattle.yd_ops.specs.Valid.{IsValidUpdate};
ghost use Rattle.yd_ops.specs.View.{update_value};
ghost use Rattle.yd_ops.specs.Received.{received_set};
ghost use Rattle.yd_doc.specs.Kept.{received_of};

use crate::fault::NoMemory;
use crate::replica::Replica;
use std::alloc::Global;
use yd_ids::Client;
use yd_ops::Update;
use yd_state::State;

impl Replica {
    /// A replica of this client that has received these updates, one after another: the way to open
    /// a document that lies in many updates. They are merged first, and of one alone the runs that go on
    /// with one another are joined; then all is received at once. Where memory ends there is no replica.
    pub fn of_updates(
        alloc: Global,
        client: Client,
        updates: Vec<Update>,
    ) -> Result<Replica, NoMemory>
        requires client { IsClient client }
        requires valid { Each IsValidUpdate (map update_value updates.items) }
        ensures received { IfOk result (λ replica.
            received_of replica ≡ received_set (map update_value updates.items)) }
        ensures client { IfOk result (λ replica. replica.client ≡ client) }
        ensures caught_up { IfOk result (λ replica. replica.is_behind ≡ false) }
    {
        let state = State::of_updates(alloc, updates)?;
        Ok(Replica {
            alloc,
            client,
            is_behind: false,
            state,
        })
    }
}
