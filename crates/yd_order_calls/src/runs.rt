//! Runs of units in order: the orders were found by hand, from what the origins ask.

ghost use Rattle.std.specs.Prelude.{◌≡◌, true, map};
ghost use Rattle.yd_words.specs.Each.{Each};
ghost use Rattle.yd_meaning.specs.Order.{rows_of};
ghost use Rattle.yd_ops.specs.View.{run_value};
ghost use Rattle.yd_order.specs.Runs.{operations_of_runs, RunEndsAtClock};
ghost use Rattle.yd_order.specs.Stretch.{among_rows};
ghost use Rattle.yd_order_calls.specs.Turns.{are_in_turn};

use crate::samples::{ONE, THREE, TWO, TWO_NEXT};
use std::process::Abort;
use std::test::Fail;
use yd_ids::Id;
use yd_ops::{Content, Kind, List, Parent, Run};
use yd_order::{NoMemory, arrange};
use yd_units::Units;

/// The units of the runs, which are handed in each behind its origins, are put in this order.
fn are_arranged(rt: &(impl Abort + AllocGlobal), runs: &[Run], order: &[Id]) -> Result<(), NoMemory>
    requires clocks { Each RunEndsAtClock (map run_value runs.now) }
    requires table { let operations = operations_of_runs (map run_value runs.now) in
        are_in_turn (among_rows (rows_of operations)) ≡ true }
{
    let ids = arrange(rt.alloc(), runs)?;
    assert_eq!(rt; ids.as_slice(), order);
    Ok(())
}

/// The list in the array that client 3's unit holds.
fn list_of_three() -> Option<List> {
    Some(List {
        parent: Parent::Item(THREE),
        key: None,
    })
}

#[test]
fn at_one_place_the_smaller_client_stands_first(rt: HostRuntime) -> Result<(), Fail> {
    let two = Run {
        id: TWO,
        left: None,
        right: None,
        list: list_of_three(),
        content: Content::Nested(Kind::Map),
    };
    let one = Run {
        id: ONE,
        left: None,
        right: None,
        list: list_of_three(),
        content: Content::Nested(Kind::Array),
    };
    are_arranged(&rt, &[two, one], &[ONE, TWO])?;
    Ok(())
}

#[test]
fn a_run_goes_between_two_units_of_another(rt: HostRuntime) -> Result<(), Fail> {
    let units = Units::from_text(rt.alloc(), "ab")?;
    let two = Run {
        id: TWO,
        left: None,
        right: None,
        list: list_of_three(),
        content: Content::Str(units),
    };
    let between = Run {
        id: ONE,
        left: Some(TWO),
        right: Some(TWO_NEXT),
        list: None,
        content: Content::Nested(Kind::Array),
    };
    are_arranged(&rt, &[two, between], &[TWO, ONE, TWO_NEXT])?;
    Ok(())
}
