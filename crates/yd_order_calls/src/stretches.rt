//! Stretches of units in order: the orders were found by hand, from what the origins ask.

ghost use Rattle.std.specs.Prelude.{◌≡◌, true};
ghost use Rattle.yd_words.specs.Each.{Each};
ghost use Rattle.yd_order.specs.Stretch.{EndsAtClock, rows_of_stretches, among_rows};
ghost use Rattle.yd_order_calls.specs.Turns.{are_in_turn};

use crate::samples::{ABSENT, ONE, THREE, TWO, TWO_NEXT};
use std::process::Abort;
use std::test::Fail;
use yd_ids::Id;
use yd_order::{NoMemory, Stretch, arrange_stretches};

// One unit each, put into an empty list.
const FIRST_OF_ONE: Stretch = Stretch {
    id: ONE,
    len: 1,
    left: None,
    right: None,
};

const FIRST_OF_TWO: Stretch = Stretch {
    id: TWO,
    len: 1,
    left: None,
    right: None,
};

const FIRST_OF_THREE: Stretch = Stretch {
    id: THREE,
    len: 1,
    left: None,
    right: None,
};

/// The units of the stretches, which are handed in each behind its origins, are put in this order.
fn are_arranged(
    rt: &(impl Abort + AllocGlobal),
    stretches: &[Stretch],
    order: &[Id],
) -> Result<(), NoMemory>
    requires clocks { Each EndsAtClock stretches.now }
    requires table { are_in_turn (among_rows (rows_of_stretches stretches.now)) ≡ true }
{
    let ids = arrange_stretches(rt.alloc(), stretches)?;
    assert_eq!(rt; ids.as_slice(), order);
    Ok(())
}

#[test]
fn at_one_place_the_smaller_client_stands_first(rt: HostRuntime) -> Result<(), Fail> {
    let stretches = [FIRST_OF_THREE, FIRST_OF_ONE, FIRST_OF_TWO];
    are_arranged(&rt, &stretches, &[ONE, TWO, THREE])?;
    Ok(())
}

#[test]
fn a_unit_stands_behind_its_left(rt: HostRuntime) -> Result<(), Fail> {
    let behind_one = Stretch {
        left: Some(ONE),
        ..FIRST_OF_THREE
    };
    let stretches = [FIRST_OF_ONE, FIRST_OF_TWO, behind_one];
    are_arranged(&rt, &stretches, &[ONE, THREE, TWO])?;
    Ok(())
}

#[test]
fn a_unit_stands_before_its_right(rt: HostRuntime) -> Result<(), Fail> {
    let before_one = Stretch {
        right: Some(ONE),
        ..FIRST_OF_THREE
    };
    let stretches = [FIRST_OF_ONE, FIRST_OF_TWO, before_one];
    are_arranged(&rt, &stretches, &[THREE, ONE, TWO])?;
    Ok(())
}

#[test]
fn the_units_of_a_stretch_stay_together(rt: HostRuntime) -> Result<(), Fail> {
    let before_three = Stretch {
        len: 2,
        right: Some(THREE),
        ..FIRST_OF_TWO
    };
    let stretches = [FIRST_OF_THREE, before_three, FIRST_OF_ONE];
    are_arranged(&rt, &stretches, &[ONE, TWO, TWO_NEXT, THREE])?;
    Ok(())
}

#[test]
fn a_right_that_is_not_there_asks_nothing(rt: HostRuntime) -> Result<(), Fail> {
    let alone = Stretch {
        right: Some(ABSENT),
        ..FIRST_OF_TWO
    };
    are_arranged(&rt, &[alone, FIRST_OF_ONE], &[ONE, TWO])?;
    Ok(())
}

// Client 3's unit has client 2's second unit as its left and the first as its right, which no edit
// gives. In no order it stands as both ask, so the table of all pairs decides: the left counts.
#[test]
fn a_left_behind_its_right_counts(rt: HostRuntime) -> Result<(), Fail> {
    let both_of_two = Stretch {
        len: 2,
        ..FIRST_OF_TWO
    };
    let crossed = Stretch {
        left: Some(TWO_NEXT),
        right: Some(TWO),
        ..FIRST_OF_THREE
    };
    are_arranged(&rt, &[both_of_two, crossed], &[TWO, TWO_NEXT, THREE])?;
    Ok(())
}

#[test]
fn no_units_have_an_empty_order(rt: HostRuntime) -> Result<(), Fail> {
    are_arranged(&rt, &[], &[])?;
    Ok(())
}
