//! The laws of positions, each the contract of an empty function.

ghost use Rattle.yd_position.specs.Law.{PositionsAreOne, PositionsAreRead};

/// Bytes are read as the position that they stand for, or refused for their first deviation.
pub fn positions_are_read()
    ensures { PositionsAreRead }
{}

/// Bytes stand for one position, or have one first deviation, and never both.
pub fn positions_are_one()
    ensures { PositionsAreOne }
{}
