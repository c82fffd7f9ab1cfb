//! Chains of places.

use std::test::Fail;
use yd_chains::Chains;

#[test]
fn places_are_linked_and_unlinked(rt: HostRuntime) -> Result<(), Fail> {
    let mut chains = Chains::new(rt.alloc());
    let chain = chains.add_chain()?;
    let front = chains.add_place()?;
    let back = chains.add_place()?;
    chains.insert(chain, None, front);
    chains.insert(chain, Some(front), back);
    assert_eq!(rt; chains.len(), 2);
    assert_eq!(rt; chains.first(chain), Some(front));
    assert_eq!(rt; chains.last(chain), Some(back));
    assert_eq!(rt; chains.next(front), Some(back));
    assert_eq!(rt; chains.prev(back), Some(front));
    assert_eq!(rt; chains.chain_of(back), Some(chain));
    chains.remove(chain, front);
    assert_eq!(rt; chains.first(chain), Some(back));
    Ok(())
}
