//! Where the units of an entry stand: whether they are held, and in which list.

/// Where units stand.
#[derive(Clone, Copy)]
pub enum Place {
    /// They wait.
    Waits,
    /// They are held, and lost: they are in no list.
    Lost,
    /// They are held, in the list with a number.
    In(usize),
}
