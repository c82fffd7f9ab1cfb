//! The lists of a parent.

ghost use Rattle.std.specs.Prelude.{◌≡◌, IfOk};
ghost use Rattle.yd_shown.specs.Shown.{key_list as list_under, own_list as list_of_parent};

use crate::fault::NoMemory;
use yd_any::Text;
use yd_ops::{List, Parent};

/// The list of a parent's own.
pub fn own_list(parent: &Parent) -> Result<List, NoMemory>
    ensures { IfOk result (λ list. list ≡ list_of_parent parent.now) }
{
    let parent = parent.copy()?;
    Ok(List { parent, key: None })
}

/// The list under a key of a parent.
pub fn key_list(parent: &Parent, key: &Text) -> Result<List, NoMemory>
    ensures { IfOk result (λ list. list ≡ list_under parent.now key.now) }
{
    let parent = parent.copy()?;
    let key = key.copy()?;
    Ok(List {
        parent,
        key: Some(key),
    })
}
