//! Any-values of each kind, copied and printed.

use std::alloc::Global;
use std::process::Abort;
use std::test::Fail;
use yd_any::{Any, AnyList, AnyPairs, Blob, Text, print_any};

#[test]
fn a_list_with_each_kind_is_printed(rt: HostRuntime) -> Result<(), Fail> {
    let mut list = AnyList::new(rt.alloc());
    list.push(Any::Undefined)?;
    list.push(Any::Null)?;
    list.push(Any::Flag(false))?;
    list.push(Any::Raw4([1, 2, 3, 0xff]))?;
    list.push(Any::Raw8([0x42, 0x78, 0xbc, 0xfe, 0x56, 0x80, 0, 0]))?;
    list.push(Any::Big(-1))?;
    let text =
        "[{\"$undefined\":true},null,false,{\"$raw4\":\"010203ff\"},{\"$raw8\":\"4278bcfe56800000\"},{\"$big\":\"-1\"}]";
    prints(&rt, &Any::List(list), text)
}

#[test]
fn pairs_keep_their_order_and_equal_keys(rt: HostRuntime) -> Result<(), Fail> {
    let pairs = pairs_of(rt.alloc())?;
    let text = "{\"b\":7,\"a\":{\"$blob\":\"01ff\"},\"b\":\"x\"}";
    prints(&rt, &Any::Pairs(pairs), text)
}

/// 7, a byte string and a text, of which the first and the last have one key.
fn pairs_of(alloc: Global) -> Result<AnyPairs, Fail> {
    let mut pairs = AnyPairs::new(alloc);
    pairs.push((Text::copy_of(alloc, "b")?, Any::Whole(7)))?;
    let blob = Blob::copy_of(alloc, &[1, 255])?;
    pairs.push((Text::copy_of(alloc, "a")?, Any::Blob(blob)))?;
    let text = Text::copy_of(alloc, "x")?;
    pairs.push((Text::copy_of(alloc, "b")?, Any::Str(text)))?;
    Ok(pairs)
}

fn prints(rt: &(impl Abort + AllocGlobal), value: &Any, want: &str) -> Result<(), Fail> {
    assert!(rt; value.is_valid());
    let copy = value.copy()?;
    assert!(rt; copy.is_valid());
    let mut out = Vec::new(rt.alloc());
    print_any(&copy, &mut out)?;
    assert_eq!(rt; out.as_slice(), want.as_bytes());
    Ok(())
}
