//! The laws of V2, each the contract of an empty function.

ghost use Rattle.yd_reading.specs.Files.{FilesAreOne, FilesAreRead};
ghost use Rattle.yd_v2.specs.Columns.{FilesAreColumns};
ghost use Rattle.yd_v2.specs.Grammar.{HasFirstFaultV2, StandsForV2};
ghost use Rattle.yd_v2.specs.Law.{FieldsAreRead, FieldsComeBackV2, FilesAreLimited};
ghost use Rattle.yd_v2.specs.Reading.{v2_reading};

/// The fields of V2 are read as they stand, and fail just where none stands.
pub fn fields_are_read()
    ensures { FieldsAreRead }
{}

/// Fields that were written in V2 are read as they were, whatever is made of them: the law of
/// [`crate::V2Writer`] and [`crate::V2Reader`].
pub fn fields_come_back<X>()
    ensures { FieldsComeBackV2 X }
{}

/// A file in V2 is read as what it stands for, or refused for the first fault in it.
pub fn files_are_read()
    ensures { FilesAreRead v2_reading StandsForV2 HasFirstFaultV2 }
{}

/// A file in V2 stands for one update, or has one first fault, and never both.
pub fn files_are_one()
    ensures { FilesAreOne StandsForV2 HasFirstFaultV2 }
{}

/// A file in V2 stands for an update just where its columns and its rest spell fields that make it,
/// each column the values that go there.
pub fn files_are_columns()
    ensures { FilesAreColumns }
{}

/// A file in V2 stands for no update of more than 4,194,304 structs, in however many blocks.
pub fn files_are_limited()
    ensures { FilesAreLimited }
{}
