//! Units cut and joined.

use std::test::Fail;
use yd_units::Units;

#[test]
fn a_pair_is_cut_and_shown_as_two_lone_halves(rt: HostRuntime) -> Result<(), Fail> {
    let mut front = Units::from_text(rt.alloc(), "\u{1f600}a")?;
    assert_eq!(rt; front.len(), 3);
    assert_eq!(rt; front.unit(0), Some(0xd83d));
    assert_eq!(rt; front.unit(1), Some(0xde00));
    assert_eq!(rt; front.unit(2), Some(0x61));
    assert_eq!(rt; front.unit(3), None);
    assert!(rt; front.is_cut(1) && !front.is_cut(2) && front.is_whole());
    let back = front.split_off(1)?;
    assert!(rt; !front.is_whole() && !back.is_whole());
    let mut out = Vec::new(rt.alloc());
    front.write_text(&mut out)?;
    assert_eq!(rt; out.as_slice(), "\u{fffd}".as_bytes());
    back.write_text(&mut out)?;
    assert_eq!(rt; out.as_slice(), "\u{fffd}\u{fffd}a".as_bytes());
    Ok(())
}

#[test]
fn parts_are_joined_again(rt: HostRuntime) -> Result<(), Fail> {
    let mut front = Units::from_text(rt.alloc(), "\u{1f600}a")?;
    assert_eq!(rt; front.len(), 3);
    let back = front.split_off(1)?;
    let mut joined = front.copy()?;
    joined.append(&back)?;
    let mut out = Vec::new(rt.alloc());
    joined.write_text(&mut out)?;
    assert_eq!(rt; out.as_slice(), "\u{1f600}a".as_bytes());
    Ok(())
}
