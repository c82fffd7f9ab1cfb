//! Runs written behind bytes, each wholly or not at all.

ghost use Rattle.std.specs.Prelude.{◌≡◌, ◌^◌, ◌<◌, ◌≤◌, ◌++◌, OnOk, OnErr};
ghost use Rattle.yd_cols.specs.Column.{doubled};
ghost use Rattle.yd_cols.specs.Writing.{byte_run_bytes, counted_bytes, diff_run_bytes, signed_of, uint_run_bytes};
ghost use Rattle.yd_cols.specs.Writable.{FitsUint, FitsDiff, FitsByte};

use crate::run::Run;
use yd_num::{Bytes, NoMemory, Signed};

/// How many more values than one a run of numbers or of differences has at most, 2^53: its count is
/// one less, and at most 2^53-1 is read.
pub const MOST_MORE: u64 = 1 << 53;

/// A run of numbers (lib0, UintOptRleEncoder).
pub fn write_uint_run(bytes: &mut Bytes, run: Run<u64>) -> Result<(), NoMemory>
    requires { FitsUint run }
    ensures written { OnOk result (bytes.new ≡ bytes.old ++ uint_run_bytes run) }
    ensures unchanged { OnErr result (bytes.new ≡ bytes.old) }
{
    let number = Signed {
        negative: run.more > 0,
        size: run.value,
    };
    write_counted(bytes, number, run.more)
}

/// A run of differences (lib0, IntDiffOptRleEncoder).
pub fn write_diff_run(bytes: &mut Bytes, run: Run<i64>) -> Result<(), NoMemory>
    requires { FitsDiff run }
    ensures written { OnOk result (bytes.new ≡ bytes.old ++ diff_run_bytes run) }
    ensures unchanged { OnErr result (bytes.new ≡ bytes.old) }
{
    let number = doubled_of(run);
    write_counted(bytes, number, run.more)
}

/// A run of bytes with its count (lib0, RleEncoder).
pub fn write_byte_run(bytes: &mut Bytes, run: Run<u8>) -> Result<(), NoMemory>
    requires { FitsByte run }
    ensures written { OnOk result (bytes.new ≡ bytes.old ++ byte_run_bytes run) }
    ensures unchanged { OnErr result (bytes.new ≡ bytes.old) }
{
    let start = bytes.as_slice().len();
    bytes.push_byte(run.value)?;
    if bytes.push_unsigned(run.more).is_err() {
        bytes.truncate(start);
        return Err(NoMemory);
    }
    Ok(())
}

/// Twice the difference, and one more where the run has more than one.
fn doubled_of(run: Run<i64>) -> Signed
    requires { FitsDiff run }
    ensures value { result ≡ signed_of (doubled run) }
    ensures fits { result.size < 2 ^ 55 }
{
    let odd = if run.more > 0 { 1 } else { 0 };
    let number = 2 * run.value + odd;
    Signed {
        negative: number < 0,
        size: number.unsigned_abs(),
    }
}

/// A number, and how many more than two of it there are, where there are more than one.
fn write_counted(bytes: &mut Bytes, number: Signed, more: u64) -> Result<(), NoMemory>
    requires number { number.size < 2 ^ 55 }
    requires count { more ≤ 2 ^ 53 }
    ensures written { OnOk result (bytes.new ≡ bytes.old ++ counted_bytes number more) }
    ensures unchanged { OnErr result (bytes.new ≡ bytes.old) }
{
    let start = bytes.as_slice().len();
    bytes.push_signed(number)?;
    if more > 0 && bytes.push_unsigned(more - 1).is_err() {
        bytes.truncate(start);
        return Err(NoMemory);
    }
    Ok(())
}
