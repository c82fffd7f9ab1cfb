//! Numbers in groups of seven bits, at the front of a slice.

ghost use Rattle.std.specs.Prelude.{◌≤◌};
ghost use Rattle.yd_num.specs.Number.{groups_at};
ghost use Rattle.yd_num.specs.Groups.{GivesGroups};

/// What the groups at the front of some bytes are.
pub enum Groups {
    /// They make this number, and take so many bytes.
    Number { value: u64, len: usize },
    /// The bytes end before the last group.
    Short,
    /// The last of the allowed groups still says that more follow.
    Long,
}

/// The number of at most so many groups at the front of the bytes.
#[inline(always)]
pub fn groups_of(bytes: &[u8], most: usize) -> Groups
    requires { most ≤ 8 }
    ensures { GivesGroups bytes.now result (groups_at most bytes.now) }
{
    let mut value = 0;
    let mut weight = 1;
    for i in 0..most {
        if i == bytes.len() {
            return Groups::Short;
        }
        let byte = bytes[i];
        value += u64::from(byte % 128) * weight;
        if byte < 128 {
            return Groups::Number { value, len: i + 1 };
        }
        weight *= 128;
    }
    Groups::Long
}
