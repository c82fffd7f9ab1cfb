//! Calls of `yd_ops` on runs that are cut and that join.

use std::alloc::Global;
use std::test::Fail;
use yd_any::{Any, AnyList, Json, Text};
use yd_ids::{Client, Id};
use yd_ops::{Content, JsonUnit, JsonUnits, List, NoMemory, Parent, Run};
use yd_units::Units;

// Client 1 wrote `abc` into the root `t`. What Yjs writes from clock 1 on is `bc` behind (1, 0).
#[test]
fn a_run_is_cut_and_its_parts_join(rt: HostRuntime) -> Result<(), Fail> {
    let alloc = rt.alloc();
    let id = Id {
        client: Client(1),
        clock: 0,
    };
    let run = Run {
        id,
        left: None,
        right: None,
        list: Some(root(alloc)?),
        content: Content::Str(Units::from_text(alloc, "abc")?),
    };
    assert_eq!(rt; run.len(), 3);
    let (first, other) = run.cut(1).map_err(|_fault| NoMemory)?;
    assert_eq!(rt; (first.len(), other.len()), (1, 2));
    assert!(rt; first.left.is_none() && first.list.is_some());
    assert!(rt; other.left == Some(id) && other.list.is_none());
    assert_eq!(rt; other.id.clock, 1);
    assert!(rt; first.joins(&other) && !other.joins(&first));
    Ok(())
}

fn root(alloc: Global) -> Result<List, Fail> {
    Ok(List {
        parent: Parent::Root(Text::copy_of(alloc, "t")?),
        key: None,
    })
}

#[test]
fn contents_give_their_last_units_out_and_take_others(rt: HostRuntime) -> Result<(), Fail> {
    let alloc = rt.alloc();
    let mut units = JsonUnits::new(alloc);
    units.push(JsonUnit::Undefined)?;
    units.push(JsonUnit::Value(Json::Null))?;
    assert_eq!(rt; units.as_slice().len(), 2);
    let rest = units.split_off(1)?;
    assert_eq!(rt; (units.as_slice().len(), rest.as_slice().len()), (1, 1));
    units.append(rest)?;
    assert_eq!(rt; units.as_slice().len(), 2);
    let mut values = AnyList::new(alloc);
    values.push(Any::Null)?;
    let mut others = AnyList::new(alloc);
    others.push(Any::Undefined)?;
    values.append(others)?;
    let mut content = Content::Any(values);
    assert_eq!(rt; content.len(), 2);
    let rest = content.split_off(1)?;
    assert!(rt; content.len() == 1 && rest.len() == 1);
    // No unit of these is walked.
    let mut content = Content::Deleted(9_007_199_254_740_991);
    assert_eq!(rt; content.len(), 9_007_199_254_740_991);
    let rest = content.split_off(1)?;
    assert!(rt; content.len() == 1 && rest.len() == 9_007_199_254_740_990);
    Ok(())
}
