//! Writers of fields, whatever the format.

ghost use Rattle.std.specs.Prelude.{◌≡◌, ◌+◌, ◌<◌, ◌≤◌, ◌^◌, IfOk, OnOk, IsTrue};
ghost use Rattle.yd_any.specs.AnyView.{any_tree};
ghost use Rattle.yd_any.specs.JsonView.{json_tree};
ghost use Rattle.yd_any.specs.Valid.{is_valid_any, is_valid_json};
ghost use Rattle.yd_ids.specs.Id.{IsId};
ghost use Rattle.yd_fields.specs.Field as field;

use yd_any::{Any, Json};
use yd_ids::Id;
use yd_parts::NoMemory;

/// Writes the fields of an update one after the other, in some format (Yjs 13, update encoders).
/// What a writer holds after want of memory is left open. That fields which are spelled are
/// read again is a clause of `finish`, which each format owes for its own reader.
pub trait FieldWriter {
    ghost use Rattle.std.specs.Prelude.{ℕ, List};
    ghost use Rattle.yd_fields.specs.Again.{AreReadAgain, FileReading};
    ghost use Rattle.yd_fields.specs.Field.{Field};

    /// What is left of a file, for the reader of the format.
    ghost Left: { Type 0 };

    /// How the reader of the format reads a file.
    ghost reading: { FileReading Left };

    /// The writer before the first field.
    ghost at_start: { Self };

    /// What the writer is after a field.
    ghost with_field: { Field → Self → Self };

    /// What is written of the field is read as that field.
    ghost is_spelled: { Field → Type 0 };

    /// What is written in all has lengths that are read.
    ghost is_whole: { Self → Type 0 };

    /// The bytes of all fields that were written.
    ghost bytes_of: { Self → List ℕ };

    /// Writes an info byte.
    fn put_info(&mut self, v: u8) -> Result<(), NoMemory>
        ensures put { OnOk result (self.new ≡ with_field (field.info, v) self.old) }
        ensures spelled { OnOk result (is_spelled (field.info, v)) };

    /// Writes a client.
    fn put_client(&mut self, v: u64) -> Result<(), NoMemory>
        requires { v < 2 ^ 53 }
        ensures put { OnOk result (self.new ≡ with_field (field.client, v) self.old) }
        ensures spelled { OnOk result (is_spelled (field.client, v)) };

    /// Writes a left origin, or the id of a parent.
    fn put_left(&mut self, v: Id) -> Result<(), NoMemory>
        requires { IsId v }
        ensures put { OnOk result (self.new ≡ with_field (field.left, v) self.old) }
        ensures spelled { OnOk result (is_spelled (field.left, v)) };

    /// Writes a right origin.
    fn put_right(&mut self, v: Id) -> Result<(), NoMemory>
        requires { IsId v }
        ensures put { OnOk result (self.new ≡ with_field (field.right, v) self.old) }
        ensures spelled { OnOk result (is_spelled (field.right, v)) };

    /// Writes a parent's flag, which is 0 or 1.
    fn put_flag(&mut self, v: u8) -> Result<(), NoMemory>
        requires { v < 2 }
        ensures put { OnOk result (self.new ≡ with_field (field.flag, v) self.old) }
        ensures spelled { OnOk result (is_spelled (field.flag, v)) };

    /// Writes a string.
    fn put_string(&mut self, v: &str) -> Result<(), NoMemory>
        ensures put { OnOk result (self.new ≡ with_field (field.string, v.now) self.old) }
        ensures spelled { OnOk result (is_spelled (field.string, v.now)) };

    /// Writes a key.
    fn put_key(&mut self, v: &str) -> Result<(), NoMemory>
        ensures put { OnOk result (self.new ≡ with_field (field.key, v.now) self.old) }
        ensures spelled { OnOk result (is_spelled (field.key, v.now)) };

    /// Writes the number of a type.
    fn put_kind(&mut self, v: u64) -> Result<(), NoMemory>
        requires { v < 2 ^ 53 }
        ensures put { OnOk result (self.new ≡ with_field (field.kind, v) self.old) }
        ensures spelled { OnOk result (is_spelled (field.kind, v)) };

    /// Writes a length.
    fn put_length(&mut self, v: u64) -> Result<(), NoMemory>
        requires { v < 2 ^ 53 }
        ensures put { OnOk result (self.new ≡ with_field (field.len, v) self.old) }
        ensures spelled { OnOk result (is_spelled (field.len, v)) };

    /// Writes an any-value.
    fn put_any(&mut self, v: &Any) -> Result<(), NoMemory>
        requires { IsTrue (is_valid_any (any_tree v.now)) }
        ensures put { OnOk result (self.new ≡ with_field (field.any, any_tree v.now) self.old) }
        ensures spelled { OnOk result (is_spelled (field.any, any_tree v.now)) };

    /// Writes a byte string.
    fn put_blob(&mut self, v: &[u8]) -> Result<(), NoMemory>
        ensures put { OnOk result (self.new ≡ with_field (field.blob, v.now) self.old) }
        ensures spelled { OnOk result (is_spelled (field.blob, v.now)) };

    /// Writes a JSON value.
    fn put_json(&mut self, v: &Json) -> Result<(), NoMemory>
        requires { IsTrue (is_valid_json (json_tree v.now)) }
        ensures put { OnOk result (self.new ≡ with_field (field.json, json_tree v.now) self.old) }
        ensures spelled { OnOk result (is_spelled (field.json, json_tree v.now)) };

    /// Writes a number.
    fn put_number(&mut self, v: u64) -> Result<(), NoMemory>
        requires { v < 2 ^ 53 }
        ensures put { OnOk result (self.new ≡ with_field (field.number, v) self.old) }
        ensures spelled { OnOk result (is_spelled (field.number, v)) };

    /// Writes the clock and the length of a range, behind another that ends at a clock, or behind 0.
    fn put_range(&mut self, before: u64, clock: u64, len: u64) -> Result<(), NoMemory>
        requires behind { before ≤ clock }
        requires some { 1 ≤ len }
        requires in_range { clock + len < 2 ^ 53 }
        ensures put { OnOk result (self.new
            ≡ with_field (field.range before, (clock, len)) self.old) }
        ensures spelled { OnOk result (is_spelled (field.range before, (clock, len))) };

    /// The bytes of all fields. Whatever fields are spelled, the reader of the format reads them
    /// again from their bytes, one after another and nothing else, where these are whole.
    fn finish(self) -> Result<Vec<u8>, NoMemory>
        ensures written { IfOk result (λ bytes. bytes.items ≡ bytes_of self) }
        ensures whole { OnOk result (is_whole self) }
        ensures read_again { OnOk result
            (AreReadAgain reading with_field is_spelled is_whole bytes_of at_start) };
}
