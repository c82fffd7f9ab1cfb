//! Readers of fields, whatever the format.

ghost use Rattle.std.specs.Prelude.{◌≡◌, ◌+◌, ◌<◌, ◌^◌, IfOk, IsTrue};
ghost use Rattle.yd_any.specs.AnyView.{any_tree};
ghost use Rattle.yd_any.specs.JsonView.{json_tree};
ghost use Rattle.yd_any.specs.Valid.{is_valid_any, is_valid_json};
ghost use Rattle.yd_parts.specs.Fault.{Gives, Makes, TakesNoMemory};
ghost use Rattle.yd_fields.specs.Field as field;

use std::alloc::Global;
use yd_any::{Any, Json};
use yd_ids::Id;
use yd_parts::{ReadError, Spot};

/// Reads the fields of an update one after the other, in some format (Yjs 13, update decoders). What
/// is asked of a reader after an error is left open.
pub trait FieldReader<'a> {
    ghost use Rattle.std.specs.Prelude.{ℕ, Option, Result};
    ghost use Rattle.yd_parts.specs.Fault.{Fault};
    ghost use Rattle.yd_fields.specs.Field.{FieldType, FieldValue, ReadsFit};
    ghost use Rattle.yd_parts.specs.declared.fault.Spot.{Spot};

    /// What reading a field of a type gives, and the reader behind it, or what is wrong.
    ghost field_at: { (t : FieldType) → Self → Result (FieldValue t × Self) Fault };

    /// The spot of the field that was read last.
    ghost spot_of: { Self → Spot };

    /// Whether the input ends, or what is wrong behind the last field.
    ghost end_at: { Self → Result (Unit {0}) Fault };

    /// How many structs may be declared, where there is a limit.
    ghost most_of: { Self → Option ℕ };

    /// The readers that files lead to: the sound ones.
    ghost is_sound: { Self → Type 0 };

    /// Reads an info byte.
    fn get_info(&mut self) -> Result<u8, ReadError>
        ensures given { Gives (λ v. v) result self.new (field_at field.info self.old) }
        ensures memory { TakesNoMemory result };

    /// Reads a client.
    fn get_client(&mut self) -> Result<u64, ReadError>
        ensures given { Gives (λ v. v) result self.new (field_at field.client self.old) }
        ensures memory { TakesNoMemory result };

    /// Reads a left origin, or the id of a parent.
    fn get_left(&mut self) -> Result<Id, ReadError>
        ensures given { Gives (λ id. id) result self.new (field_at field.left self.old) }
        ensures memory { TakesNoMemory result };

    /// Reads a right origin.
    fn get_right(&mut self) -> Result<Id, ReadError>
        ensures given { Gives (λ id. id) result self.new (field_at field.right self.old) }
        ensures memory { TakesNoMemory result };

    /// Reads a parent's flag, which is 0 or 1.
    fn get_flag(&mut self) -> Result<u8, ReadError>
        ensures given { Gives (λ v. v) result self.new (field_at field.flag self.old) }
        ensures memory { TakesNoMemory result };

    /// Lends a string.
    fn get_string(&mut self) -> Result<&'a str, ReadError>
        ensures given { Gives (λ t. t.now) result self.new (field_at field.string self.old) }
        ensures memory { TakesNoMemory result };

    /// Lends a key.
    fn get_key(&mut self) -> Result<&'a str, ReadError>
        ensures given { Gives (λ t. t.now) result self.new (field_at field.key self.old) };

    /// Reads the number of a type.
    fn get_kind(&mut self) -> Result<u64, ReadError>
        ensures given { Gives (λ v. v) result self.new (field_at field.kind self.old) }
        ensures memory { TakesNoMemory result };

    /// Reads a length.
    fn get_length(&mut self) -> Result<u64, ReadError>
        ensures given { Gives (λ v. v) result self.new (field_at field.len self.old) }
        ensures memory { TakesNoMemory result };

    /// Reads an any-value.
    fn get_any(&mut self, alloc: Global) -> Result<Any, ReadError>
        ensures given { Gives any_tree result self.new (field_at field.any self.old) }
        ensures valid { IfOk result (λ value. IsTrue (is_valid_any (any_tree value))) };

    /// Lends a byte string.
    fn get_blob(&mut self) -> Result<&'a [u8], ReadError>
        ensures given { Gives (λ b. b.now) result self.new (field_at field.blob self.old) }
        ensures memory { TakesNoMemory result };

    /// Reads a JSON value.
    fn get_json(&mut self, alloc: Global) -> Result<Json, ReadError>
        ensures given { Gives json_tree result self.new (field_at field.json self.old) }
        ensures valid { IfOk result (λ value. IsTrue (is_valid_json (json_tree value))) };

    /// Reads a number.
    fn get_number(&mut self) -> Result<u64, ReadError>
        ensures given { Gives (λ v. v) result self.new (field_at field.number self.old) }
        ensures memory { TakesNoMemory result };

    /// Reads the clock and the length of a range, behind another that ends at a clock, or behind 0.
    fn get_range(&mut self, before: u64) -> Result<(u64, u64), ReadError>
        requires { before < 2 ^ 53 }
        ensures given { Gives (λ r. r) result self.new (field_at (field.range before) self.old) }
        ensures fits { IfOk result (λ r. r.0 + r.1 < 2 ^ 53) }
        ensures memory { TakesNoMemory result };

    /// The spot of the field that was read last: of its first number, where it has two.
    fn spot(&self) -> Spot
        ensures { result ≡ spot_of self.now };

    /// How many structs may be declared in all, where there is a limit.
    fn most_structs(&self) -> Option<u64>
        ensures { result ≡ most_of self.now };

    /// A reader is always one that a file leads to, and whatever such a reader reads fits its type:
    /// a fact for proofs.
    fn reads_soundly(&self)
        ensures sound { is_sound self.now }
        ensures fits { ReadsFit field_at is_sound };

    /// Judges what follows the last field.
    fn finish(self) -> Result<(), ReadError>
        ensures given { Makes (λ end. end) result (end_at self) }
        ensures memory { TakesNoMemory result };
}
