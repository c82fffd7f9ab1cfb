//! The statuses by name.

/// What was asked for was done.
pub const DONE: u8 = 0;

/// An input is refused.
pub const REFUSED: u8 = 1;

/// The words are of no form.
pub const WRONG_USE: u8 = 2;

/// The library failed.
pub const READ_FAULT: u8 = 3;

/// Out failed.
pub const WRITE_FAULT: u8 = 4;

/// Memory is wanted.
pub const NO_MEMORY: u8 = 5;

/// The network failed.
pub const LINK_FAULT: u8 = 6;

/// A file has too many bytes.
pub const TOO_LARGE: u8 = 7;

/// No step 2 came.
pub const NO_STEP_2: u8 = 8;
