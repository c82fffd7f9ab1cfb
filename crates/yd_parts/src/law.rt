//! The laws of parts and of any-values, each the contract of an empty function.

ghost use Rattle.yd_parts.specs.Law.{AnyValuesAreReadAgain, PartsAreRead};

/// Bytes, numbers, texts and byte strings are read as they stand, and fail just where none stands.
pub fn parts_are_read()
    ensures { PartsAreRead }
{}

/// What is written of an any-value is read as that value, whatever follows.
pub fn any_values_are_read_again()
    ensures { AnyValuesAreReadAgain }
{}
