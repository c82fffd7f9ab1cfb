//! What is counted of small documents, computed by the checker.

ghost use Rattle.yd_checking.specs.Example.{CountsOfSmall};

/// Texts and arrays with units that are live, deleted, gone, lost or waiting.
pub fn counts_of_small()
    ensures { CountsOfSmall }
{}
