//! Why a line is refused.

use yd_making::EditFault;

/// Why a line is refused.
#[derive(Clone, Copy, Debug, PartialEq, Eq)]
pub enum LineCause {
    /// The text is no line of a script.
    BadLine,
    /// The step of its target with this number, from 1, leads to no live type.
    NoTarget(u64),
    /// No place is kept under its name.
    NoMark,
    /// The line's edit is refused. It is never for want of memory.
    Edit(EditFault),
}
