//! The codes of names.

ghost use Rattle.std.specs.Prelude.{◌≡◌, ◌<◌};
ghost use Rattle.yd_names.specs.Coding.{bound, code_with, code_of_bytes, code_of_parent, code_with_key, code_of_list};

use yd_any::Text;
use yd_ops::{List, Parent};

/// Codes are below this prime number.
const BOUND: u64 = 4294967291;

/// The code of a list, in time with the length of its name.
pub(crate) fn code_of_list(list: &List) -> u32
    ensures { result ≡ code_of_list list.now }
{
    code_with_key(code_of_parent(&list.parent), &list.key)
}

/// The code of a parent: of the name of a root, or of the id of an item.
pub(crate) fn code_of_parent(parent: &Parent) -> u32
    ensures code { result ≡ code_of_parent parent.now }
    ensures low { result < bound }
{
    match parent {
        Parent::Root(name) => code_of_bytes(7, name.as_str().as_bytes()) as u32,
        Parent::Item(id) => code_with(id.client.0 % BOUND, id.clock % BOUND) as u32,
    }
}

/// The code with that of a key, where there is one.
fn code_with_key(code: u32, key: &Option<Text>) -> u32
    requires { code < bound }
    ensures { result ≡ code_with_key code key.now }
{
    match key {
        None => code,
        Some(key) => code_of_bytes(code_with(code as u64, 1), key.as_str().as_bytes()) as u32,
    }
}

/// The code with bytes more.
fn code_of_bytes(code: u64, bytes: &[u8]) -> u64
    requires { code < bound }
    ensures code { result ≡ code_of_bytes code bytes.now }
    ensures low { result < bound }
{
    let mut sum = code;
    for byte in bytes {
        sum = code_with(sum, *byte as u64);
    }
    sum
}

/// The code with a byte more.
fn code_with(code: u64, byte: u64) -> u64
    requires code { code < bound }
    requires byte { byte < bound }
    ensures code { result ≡ code_with code byte }
    ensures low { result < bound }
{
    (code * 31 + byte) % BOUND
}
