//! The lengths of lists.

ghost use Rattle.std.specs.Prelude.{◌≡◌, length, filter};
ghost use Rattle.yd_store.specs.Law.{is_live};
ghost use Rattle.yd_state.specs.State.{document_in};

use crate::state::State;
use yd_ops::List;

impl State {
    /// How many units of a list count in lengths and are not deleted. It takes a look-up by a hash,
    /// and walks through no list.
    pub fn length(&self, list: &List) -> u64
        ensures { result ≡ length (filter (is_live (document_in self.now).deleted)
            ((document_in self.now).units list.now)) }
    {
        let Some(number) = self.kept.number_of(list) else {
            return 0;
        };
        let store = self.kept.store();
        // That the store is sound says that its counts are right.
        store.is_sound();
        store.live(number)
    }
}
