//! Updates: copied, and made by hand.

use crate::samples::{ABC, EACH};
use std::alloc::Global;
use std::process::Abort;
use std::test::Fail;
use yd_any::Text;
use yd_ids::{Client, Id, IdSet};
use yd_ops::{Block, BlockList, Content, List, Parent, Run, Struct, StructList, Update};
use yd_units::Units;
use yd_v1::{read_v1, write_v1};

#[test]
fn a_copy_of_each_struct_and_content_is_written_alike(rt: HostRuntime) -> Result<(), Fail> {
    let update = read_v1(rt.alloc(), &EACH)?;
    let copy = update.copy()?;
    is_written(&rt, &copy, &EACH)
}

fn is_written(rt: &(impl Abort + AllocGlobal), update: &Update, want: &[u8]) -> Result<(), Fail> {
    assert!(rt; update.is_valid());
    let bytes = write_v1(rt.alloc(), update)?;
    assert_eq!(rt; bytes.as_slice(), want);
    Ok(())
}

#[test]
fn a_string_in_a_root_is_written(rt: HostRuntime) -> Result<(), Fail> {
    let update = update_of(rt.alloc(), abc(rt.alloc())?)?;
    is_written(&rt, &update, &ABC)
}

/// Client 1's "abc" in the root `t`.
fn abc(alloc: Global) -> Result<Run, Fail> {
    let units = Units::from_text(alloc, "abc")?;
    let parent = Parent::Root(Text::copy_of(alloc, "t")?);
    Ok(Run {
        id: Id {
            client: Client(1),
            clock: 0,
        },
        left: None,
        right: None,
        list: Some(List { parent, key: None }),
        content: Content::Str(units),
    })
}

/// An update of one run.
fn update_of(alloc: Global, run: Run) -> Result<Update, Fail> {
    let Id { client, clock } = run.id;
    let mut structs = StructList::new(alloc);
    structs.push(Struct::Item(run))?;
    let mut blocks = BlockList::new(alloc);
    blocks.push(Block {
        client,
        clock,
        structs,
    })?;
    let deletes = IdSet::new(alloc);
    Ok(Update { blocks, deletes })
}
