//! Numbers written behind a vector's bytes.

ghost use Rattle.std.specs.Prelude.{◌≡◌, ◌^◌, ◌<◌, ◌++◌, take, vec_len, OnOk, OnErr};
ghost use Rattle.yd_num.specs.Writing.{first_bits, shortest, shortest_signed};

use crate::fault::NoMemory;
use crate::signed::Signed;

/// Writes an unsigned number; where memory ends, some of its bytes stand there.
#[inline(never)]
pub fn write_unsigned(bytes: &mut Vec<u8>, v: u64) -> Result<(), NoMemory>
    requires { v < 2 ^ 56 }
    ensures written { OnOk result (bytes.new.items ≡ bytes.old.items ++ shortest v) }
    ensures kept { OnErr result (take (vec_len bytes.old) bytes.new.items ≡ bytes.old.items) }
{
    let mut rest = v;
    while rest >= 128 {
        bytes.push((rest % 128) as u8 + 128)?;
        rest /= 128;
    }
    bytes.push(rest as u8)?;
    Ok(())
}

/// Writes a signed number; where memory ends, some of its bytes stand there.
#[tactic(auto, unfolding(crate::specs::Writing::shortest_signed))]
pub fn write_signed(bytes: &mut Vec<u8>, s: Signed) -> Result<(), NoMemory>
    requires { s.size < 2 ^ 55 }
    ensures written { OnOk result (bytes.new.items ≡ bytes.old.items ++ shortest_signed s) }
    ensures kept { OnErr result (take (vec_len bytes.old) bytes.new.items ≡ bytes.old.items) }
{
    let first = first_bits_of(s);
    if s.size < 64 {
        bytes.push(first)?;
        return Ok(());
    }
    bytes.push(first + 128)?;
    write_unsigned(bytes, s.size / 64)?;
    Ok(())
}

fn first_bits_of(s: Signed) -> u8
    ensures { result ≡ first_bits s }
{
    let sign = if s.negative { 64 } else { 0 };
    (s.size % 64) as u8 + sign
}
