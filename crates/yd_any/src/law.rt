//! The laws of values and their texts, each the contract of an empty function.

ghost use Rattle.yd_any.specs.Law.{LastKeysStand, JsonStays, TextsAreReadBack};

/// An object's value at a key is the last one that was written under that key.
pub fn last_keys_stand()
    ensures { LastKeysStand }
{}

/// An any-value that was made of a JSON value is carried by that JSON value.
pub fn json_stays()
    ensures { JsonStays }
{}

/// The text of a JSON value is read as that value.
pub fn texts_are_read_back()
    ensures { TextsAreReadBack }
{}
