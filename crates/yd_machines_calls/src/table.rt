//! A table of who is there, with no replica.

ghost use Rattle.std.specs.Prelude.{IfOk};
ghost use Rattle.yd_words.specs.Each.{Each};
ghost use Rattle.yd_sync.specs.Entry.{IsEntry};

use std::alloc::Global;
use std::test::Fail;
use yd_any::Text;
use yd_aware::Awareness;
use yd_ids::Client;
use yd_sync::{AwareEntry, AwareList};

/// Client 2 has the state `{}` at clock 7.
fn entry_of_two(alloc: Global) -> Result<AwareEntry, Fail>
    ensures { IfOk result IsEntry }
{
    Ok(AwareEntry {
        client: Client(2),
        clock: 7,
        state: Some(Text::copy_of(alloc, "{}")?),
    })
}

/// A copy of that alone.
fn entries(alloc: Global) -> Result<AwareList, Fail>
    ensures { IfOk result (Each IsEntry) }
{
    let entry = entry_of_two(alloc)?;
    let mut entries = AwareList::new(alloc);
    entries.push(entry.copy()?)?;
    Ok(entries)
}

// The state of another is deleted and its clock is kept, so its entry is no news (y-protocols,
// removeAwarenessStates and applyAwarenessUpdate).
#[test]
fn a_state_is_dropped_and_its_clock_stays(rt: HostRuntime) -> Result<(), Fail> {
    let entries = entries(rt.alloc())?;
    let mut table = Awareness::new(rt.alloc(), Some(Client(1)))?;
    assert_eq!(rt; table.own(), Some(Client(1)));
    assert_eq!(rt; table.apply(&entries, 0)?.as_slice().len(), 1);
    assert_eq!(rt; table.get(Client(2)), (7, Some("{}")));
    assert_eq!(rt; table.drop_state(Client(2)), Some(7));
    assert_eq!(rt; table.get(Client(2)), (7, None));
    assert_eq!(rt; table.drop_state(Client(2)), None);
    assert_eq!(rt; table.apply(&entries, 1)?.as_slice().len(), 0);
    assert_eq!(rt; table.get(Client(3)), (0, None));
    Ok(())
}
