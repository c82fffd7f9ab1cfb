//! The law of scripts, the contract of a function that does nothing.

ghost use Rattle.yd_playing.specs.Law.{LinesEndOneWay};

/// All lines of a script are carried out, or one line is the first that is refused. Where the edit
/// rules are kept at each line, it is one of both, with one row of updates, or for one cause.
pub fn lines_end_one_way()
    ensures { LinesEndOneWay }
{}
