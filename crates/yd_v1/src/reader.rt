//! Fields, read in V1.

ghost use Rattle.std.specs.Prelude.{◌≡◌, ◌+◌, ◌<◌, ◌^◌, IfOk, IsTrue, None};
ghost use Rattle.yd_any.specs.JsonView.{json_tree};
ghost use Rattle.yd_any.specs.Valid.{is_valid_json};
ghost use Rattle.yd_parts.specs.Fault.{Gives, TakesNoMemory};
ghost use Rattle.yd_parts.specs.Part.{here, part_at, last_spot};
ghost use Rattle.yd_parts.specs.Plan.{read_by};
ghost use Rattle.yd_v1.specs.Reading.{IsSoundV1, flag_plan, id_plan, json_text_plan, range_plan, v1_at, v1_end, v1_spot, v1_start};

use std::alloc::Global;
use std::marker::Model;
use yd_any::{Any, Json};
use yd_fields::FieldReader;
use yd_ids::{Client, Id};
use yd_parts::{Cause, Column, Parts, ReadError, Spot, read_any};
use yd_reading::{flag_of, range_of, value_of_text};

/// Reads the fields of an update in format V1, in which they stand one after another (Yjs 13,
/// UpdateDecoderV1).
#[derive(Drop)]
pub struct V1Reader<'a> {
    parts: Parts<'a>,
    spot: Spot,
}

impl<'a> Model for V1Reader<'a> {
    ghost use Rattle.yd_v1.specs.Reading.{V1Left};

    ghost Value = { V1Left };

    ghost view = { λ r. record { left = r.parts; spot = r.spot } };
}

impl<'a> V1Reader<'a> {
    /// A reader before the first of these bytes.
    pub fn new(bytes: &'a [u8]) -> V1Reader<'a>
        ensures { result ≡ v1_start bytes.now }
    {
        let parts = Parts::new(Column::Whole, bytes);
        let spot = parts.here();
        V1Reader { parts, spot }
    }

    // The next field is the one that will be the last. Column and place are written apart: a whole
    // spot has bytes between them, and these would be written too.
    #[inline(always)]
    fn mark(&mut self)
        ensures { self.new ≡ record { left = self.old.left; spot = here self.old.left } }
    {
        let spot = self.parts.here();
        self.spot.column = spot.column;
        self.spot.at = spot.at;
    }
}

#[tactic(auto, unfolding(crate::specs::Reading::v1_at, yd_parts::specs::Plan::read_by))]
impl<'a> FieldReader<'a> for V1Reader<'a> {
    ghost field_at = { v1_at };

    ghost spot_of = { v1_spot };

    ghost end_at = { v1_end };

    ghost most_of = { λ _. None };

    ghost is_sound = { IsSoundV1 };

    fn get_info(&mut self) -> Result<u8, ReadError> {
        self.mark();
        self.parts.byte()
    }

    fn get_client(&mut self) -> Result<u64, ReadError> {
        self.mark();
        self.parts.unsigned()
    }

    fn get_left(&mut self) -> Result<Id, ReadError> {
        self.mark();
        read_id(&mut self.parts)
    }

    fn get_right(&mut self) -> Result<Id, ReadError> {
        self.mark();
        read_id(&mut self.parts)
    }

    fn get_flag(&mut self) -> Result<u8, ReadError> {
        self.mark();
        read_flag(&mut self.parts)
    }

    fn get_string(&mut self) -> Result<&'a str, ReadError> {
        self.mark();
        self.parts.text()
    }

    fn get_key(&mut self) -> Result<&'a str, ReadError> {
        self.mark();
        self.parts.text()
    }

    fn get_kind(&mut self) -> Result<u64, ReadError> {
        self.mark();
        self.parts.unsigned()
    }

    fn get_length(&mut self) -> Result<u64, ReadError> {
        self.mark();
        self.parts.unsigned()
    }

    fn get_any(&mut self, alloc: Global) -> Result<Any, ReadError> {
        self.mark();
        read_any(alloc, &mut self.parts)
    }

    fn get_blob(&mut self) -> Result<&'a [u8], ReadError> {
        self.mark();
        self.parts.blob()
    }

    fn get_json(&mut self, alloc: Global) -> Result<Json, ReadError> {
        self.mark();
        read_json(alloc, &mut self.parts)
    }

    fn get_number(&mut self) -> Result<u64, ReadError> {
        self.mark();
        self.parts.unsigned()
    }

    fn get_range(&mut self, _before: u64) -> Result<(u64, u64), ReadError> {
        self.mark();
        read_range(&mut self.parts)
    }

    fn spot(&self) -> Spot {
        self.spot
    }

    fn most_structs(&self) -> Option<u64> {
        None
    }

    fn reads_soundly(&self) {}

    fn finish(self) -> Result<(), ReadError> {
        if self.parts.left() == 0 {
            return Ok(());
        }
        Err(ReadError::Fault {
            cause: Cause::Trailing,
            spot: self.parts.here(),
        })
    }
}

#[inline(always)]
#[tactic(auto, unfolding(crate::specs::Reading::id_plan, yd_parts::specs::Plan::read_by))]
fn read_id(parts: &mut Parts<'_>) -> Result<Id, ReadError>
    ensures given { Gives (λ id. id) result parts.new
        (read_by part_at last_spot id_plan parts.old) }
    ensures memory { TakesNoMemory result }
{
    let client = parts.unsigned()?;
    let clock = parts.unsigned()?;
    Ok(Id {
        client: Client(client),
        clock,
    })
}

#[tactic(auto, unfolding(crate::specs::Reading::flag_plan, yd_parts::specs::Plan::read_by))]
fn read_flag(parts: &mut Parts<'_>) -> Result<u8, ReadError>
    ensures given { Gives (λ flag. flag) result parts.new
        (read_by part_at last_spot flag_plan parts.old) }
    ensures memory { TakesNoMemory result }
{
    let number = parts.unsigned()?;
    flag_of(number, parts.spot())
}

#[tactic(auto, unfolding(crate::specs::Reading::json_text_plan, yd_parts::specs::Plan::read_by))]
fn read_json(alloc: Global, parts: &mut Parts<'_>) -> Result<Json, ReadError>
    ensures given { Gives json_tree result parts.new
        (read_by part_at last_spot json_text_plan parts.old) }
    ensures valid { IfOk result (λ value. IsTrue (is_valid_json (json_tree value))) }
{
    let text = parts.text()?;
    value_of_text(alloc, text, parts.spot())
}

#[tactic(auto, unfolding(crate::specs::Reading::range_plan, yd_parts::specs::Plan::read_by))]
fn read_range(parts: &mut Parts<'_>) -> Result<(u64, u64), ReadError>
    ensures given { Gives (λ range. range) result parts.new
        (read_by part_at last_spot range_plan parts.old) }
    ensures fits { IfOk result (λ range. range.0 + range.1 < 2 ^ 53) }
    ensures memory { TakesNoMemory result }
{
    let clock = parts.unsigned()?;
    let spot = parts.spot();
    let len = parts.unsigned()?;
    range_of(clock, len, spot)
}
