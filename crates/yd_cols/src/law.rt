//! The laws of columns, each the contract of an empty function.

ghost use Rattle.yd_cols.specs.Law.{ColumnsAreRead, ColumnsComeBack, GivenIsSpelled, RunsAreMaximal, ValuesAreRead};

/// What is read of a value is what stands there, and reading fails just where none does.
pub fn values_are_read()
    ensures { ValuesAreRead }
{}

/// A column is read as the values that its bytes stand for, in any cutting into runs, and reading
/// may end just where nothing is left.
pub fn columns_are_read()
    ensures { ColumnsAreRead }
{}

/// What a reader gave so far is what the runs that it read spell, of the last one perhaps a part.
pub fn given_is_spelled()
    ensures { GivenIsSpelled }
{}

/// Whatever is written is cut into runs that could not be longer.
pub fn runs_are_maximal()
    ensures { RunsAreMaximal }
{}

/// What is written of values in range stands for them.
pub fn columns_come_back()
    ensures { ColumnsComeBack }
{}
