//! Fields, written in V1.

ghost use Rattle.std.specs.Prelude.{◌≡◌, ◌++◌, [], OnErr, OnOk};

use std::alloc::Global;
use std::marker::Model;
use yd_any::{Any, Json, text_of_json};
use yd_fields::{FieldWriter, LentStruct, write_lent};
use yd_ids::Id;
use yd_num::Bytes;
use yd_parts::{NoMemory, write_any};
use yd_reading::StructTaker;

/// Writes fields in V1, seen as the bytes of those that were written (Yjs 13, UpdateEncoderV1).
#[derive(Drop)]
pub struct V1Writer {
    alloc: Global,
    bytes: Bytes,
}

impl Model for V1Writer {
    ghost use Rattle.std.specs.Prelude.{ℕ, List};

    ghost Value = { List ℕ };

    ghost view = { λ w. w.bytes };
}

impl V1Writer {
    /// No field yet.
    pub fn new(alloc: Global) -> V1Writer
        ensures { result ≡ [] }
    {
        V1Writer {
            alloc,
            bytes: Bytes::new(alloc),
        }
    }

    // The bytes of the fields that were written.
    pub(crate) fn as_slice(&self) -> &[u8]
        ensures { result.now ≡ self.now }
    {
        self.bytes.as_slice()
    }

    /// No field again. The memory stays.
    pub fn clear(&mut self)
        ensures { self.new ≡ [] }
    {
        self.bytes.truncate(0);
    }

    /// Writes the fields of the other behind those that stand here (own). After want of memory none
    /// of them stands here.
    pub fn append(&mut self, other: &V1Writer) -> Result<(), NoMemory>
        ensures appended { OnOk result (self.new ≡ self.old ++ other.now) }
        ensures unchanged { OnErr result (self.new ≡ self.old) }
    {
        self.bytes.push_all(other.bytes.as_slice())?;
        Ok(())
    }
}

impl FieldWriter for V1Writer {
    ghost use Rattle.std.specs.Prelude.{◌++◌};
    ghost use Rattle.yd_v1.specs.Bytes.{V1Spells, v1_bytes};
    ghost use Rattle.yd_v1.specs.Reading.{V1Left, v1_files};

    ghost Left = { V1Left };

    ghost reading = { v1_files };

    ghost at_start = { [] };

    ghost with_field = { λ f bytes. bytes ++ v1_bytes f };

    ghost is_spelled = { λ f. V1Spells f };

    ghost is_whole = { λ _. Unit {0} };

    ghost bytes_of = { λ bytes. bytes };

    #[tactic(auto, using(crate::proofs::SpellsLemmas::info_spelled))]
    fn put_info(&mut self, v: u8) -> Result<(), NoMemory> {
        self.bytes.push_byte(v)?;
        Ok(())
    }

    #[tactic(auto, using(crate::proofs::SpellsLemmas::client_spelled))]
    fn put_client(&mut self, v: u64) -> Result<(), NoMemory> {
        self.bytes.push_unsigned(v)?;
        Ok(())
    }

    #[tactic(auto, using(crate::proofs::SpellsLemmas::left_spelled))]
    fn put_left(&mut self, v: Id) -> Result<(), NoMemory> {
        self.bytes.push_unsigned(v.client.0)?;
        self.bytes.push_unsigned(v.clock)?;
        Ok(())
    }

    #[tactic(auto, using(crate::proofs::SpellsLemmas::right_spelled))]
    fn put_right(&mut self, v: Id) -> Result<(), NoMemory> {
        self.bytes.push_unsigned(v.client.0)?;
        self.bytes.push_unsigned(v.clock)?;
        Ok(())
    }

    #[tactic(auto, using(crate::proofs::SpellsLemmas::flag_spelled))]
    fn put_flag(&mut self, v: u8) -> Result<(), NoMemory> {
        self.bytes.push_unsigned(u64::from(v))?;
        Ok(())
    }

    #[tactic(auto, using(crate::proofs::SpellsLemmas::string_spelled))]
    fn put_string(&mut self, v: &str) -> Result<(), NoMemory> {
        self.bytes.push_text(v)?;
        Ok(())
    }

    #[tactic(auto, using(crate::proofs::SpellsLemmas::key_spelled))]
    fn put_key(&mut self, v: &str) -> Result<(), NoMemory> {
        self.bytes.push_text(v)?;
        Ok(())
    }

    #[tactic(auto, using(crate::proofs::SpellsLemmas::kind_spelled))]
    fn put_kind(&mut self, v: u64) -> Result<(), NoMemory> {
        self.bytes.push_unsigned(v)?;
        Ok(())
    }

    #[tactic(auto, using(crate::proofs::SpellsLemmas::length_spelled))]
    fn put_length(&mut self, v: u64) -> Result<(), NoMemory> {
        self.bytes.push_unsigned(v)?;
        Ok(())
    }

    #[tactic(auto, using(crate::proofs::SpellsLemmas::any_spelled))]
    fn put_any(&mut self, v: &Any) -> Result<(), NoMemory> {
        write_any(&mut self.bytes, v)?;
        Ok(())
    }

    #[tactic(auto, using(crate::proofs::SpellsLemmas::blob_spelled))]
    fn put_blob(&mut self, v: &[u8]) -> Result<(), NoMemory> {
        self.bytes.push_blob(v)?;
        Ok(())
    }

    #[tactic(auto, using(crate::proofs::SpellsLemmas::json_spelled))]
    fn put_json(&mut self, v: &Json) -> Result<(), NoMemory> {
        let text = text_of_json(self.alloc, v)?;
        self.bytes.push_text(text.as_str())?;
        Ok(())
    }

    #[tactic(auto, using(crate::proofs::SpellsLemmas::number_spelled))]
    fn put_number(&mut self, v: u64) -> Result<(), NoMemory> {
        self.bytes.push_unsigned(v)?;
        Ok(())
    }

    #[tactic(auto, using(crate::proofs::SpellsLemmas::range_spelled))]
    fn put_range(&mut self, _before: u64, clock: u64, len: u64) -> Result<(), NoMemory> {
        self.bytes.push_unsigned(clock)?;
        self.bytes.push_unsigned(len)?;
        Ok(())
    }

    fn finish(self) -> Result<Vec<u8>, NoMemory> {
        Ok(self.bytes.into_vec())
    }
}

impl StructTaker for V1Writer {
    ghost use Rattle.yd_v1.specs.Taking.{WroteSections};

    ghost took = { WroteSections };

    fn begin(&mut self, blocks: u64) -> Result<(), NoMemory> {
        self.put_number(blocks)?;
        Ok(())
    }

    fn begin_block(&mut self, id: Id, structs: u64) -> Result<(), NoMemory> {
        self.put_number(structs)?;
        self.put_client(id.client.0)?;
        self.put_number(id.clock)?;
        Ok(())
    }

    fn take(&mut self, alloc: Global, _id: Id, entry: &LentStruct<'_>) -> Result<(), NoMemory> {
        write_lent(alloc, entry, self)?;
        Ok(())
    }
}
