//! The laws of V1, each the contract of an empty function.

ghost use Rattle.yd_reading.specs.Files.{FilesAreOne, FilesAreRead};
ghost use Rattle.yd_fields.specs.UpdatePlan.{vector_plan};
ghost use Rattle.yd_v1.specs.Grammar.{FailsV1, FillsV1, HasFirstFaultV1, StandsForV1};
ghost use Rattle.yd_v1.specs.Law.{FieldsAreRead, FieldsComeBackV1};
ghost use Rattle.yd_v1.specs.Log.{HasFirstFaultLog, StandsForLog, log_reading};
ghost use Rattle.yd_v1.specs.LogWriting.{LogsComeBack};
ghost use Rattle.yd_v1.specs.Reading.{v1_reading, vector_reading};

/// The fields of V1 are read as they stand, and fail just where none stands.
pub fn fields_are_read()
    ensures { FieldsAreRead }
{}

/// Fields that were written in V1 are read as they were, whatever is made of them: the law of
/// [`crate::V1Writer`] and [`crate::V1Reader`].
pub fn fields_come_back<X>()
    ensures { FieldsComeBackV1 X }
{}

/// A file in V1 is read as what it stands for, or refused for the first fault in it.
pub fn files_are_read()
    ensures updates { FilesAreRead v1_reading StandsForV1 HasFirstFaultV1 }
    ensures vectors { FilesAreRead vector_reading (FillsV1 vector_plan) (FailsV1 vector_plan) }
{}

/// A file in V1 stands for one value, or has one first fault, and never both.
pub fn files_are_one()
    ensures updates { FilesAreOne StandsForV1 HasFirstFaultV1 }
    ensures vectors { FilesAreOne (FillsV1 vector_plan) (FailsV1 vector_plan) }
{}

/// A log is read as the updates that it stands for, or refused for the first fault in it.
pub fn logs_are_read()
    ensures { FilesAreRead log_reading StandsForLog HasFirstFaultLog }
{}

/// A log stands for one list of updates, or has one first fault, and never both.
pub fn logs_are_one()
    ensures { FilesAreOne StandsForLog HasFirstFaultLog }
{}

/// A log of bodies that stand for updates stands for these updates in order.
pub fn logs_come_back()
    ensures { LogsComeBack }
{}
