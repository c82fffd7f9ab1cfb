//! The runs of columns, each at the front of what is left.

ghost use Rattle.std.specs.Prelude.{◌≡◌, ◌<◌, ◌^◌, IfOk};
ghost use Rattle.yd_cols.specs.Answer.{ReadsRun};
ghost use Rattle.yd_cols.specs.Reading.{diff_run_at, half_of, more_at, uint_run_at};

use crate::run::Run;
use yd_num::{Cursor, NumFault, Signed};

/// The greatest number, 2^53-1.
const MOST: u64 = (1 << 53) - 1;

/// A run of numbers.
#[tactic(auto, unfolding(crate::specs::Reading::uint_run_at))]
pub fn read_uint_run(cursor: &mut Cursor<'_>) -> Result<Run<u64>, NumFault>
    ensures read { ReadsRun cursor.old cursor.new result (uint_run_at cursor.old.unread) }
    ensures in_range { IfOk result (λ run. run.value < 2 ^ 53) }
{
    let number = cursor.signed()?;
    if number.size > MOST {
        return Err(NumFault::NumberTooLarge(0));
    }
    let more = read_more(cursor, number.negative)?;
    Ok(Run {
        value: number.size,
        more,
    })
}

/// A run of differences.
#[tactic(auto, using(crate::proofs::RangeLemmas::signed_in_range), unfolding(crate::specs::Reading::diff_run_at))]
pub fn read_diff_run(cursor: &mut Cursor<'_>) -> Result<Run<i64>, NumFault>
    ensures { ReadsRun cursor.old cursor.new result (diff_run_at cursor.old.unread) }
{
    let number = cursor.signed()?;
    let more = read_more(cursor, number.size % 2 == 1)?;
    Ok(Run {
        value: half_of(number),
        more,
    })
}

/// How many more values than one a run has.
#[tactic(auto, using(crate::proofs::RangeLemmas::unsigned_in_range), unfolding(crate::specs::Reading::more_at))]
pub fn read_more(cursor: &mut Cursor<'_>, is_more: bool) -> Result<u64, NumFault>
    ensures { ReadsRun cursor.old cursor.new result (more_at is_more cursor.old.unread) }
{
    if !is_more {
        return Ok(0);
    }
    let count = cursor.unsigned()?;
    Ok(count + 1)
}

/// Half of a number, rounded down.
fn half_of(number: Signed) -> i64
    requires { number.size < 2 ^ 55 }
    ensures { result ≡ half_of number }
{
    if number.negative {
        return -(((number.size + 1) / 2) as i64);
    }
    (number.size / 2) as i64
}
