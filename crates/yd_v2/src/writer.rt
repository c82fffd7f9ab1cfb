//! Fields, written in V2.

ghost use Rattle.std.specs.Prelude.{◌≡◌, ◌^◌, ◌<◌, length, IfOk, OnOk};
ghost use Rattle.yd_cols.specs.Writing.{byte_column, diff_column, string_column, uint_column};
ghost use Rattle.yd_v2.specs.Writing.{FitsFile, PushesColumn, PushesThree, no_fields};

use std::alloc::Global;
use std::marker::Model;
use yd_any::{Any, Json, any_of_json};
use yd_cols::{ByteWriter, IntDiffWriter, StringWriter, UintWriter};
use yd_fields::FieldWriter;
use yd_ids::Id;
use yd_num::Bytes;
use yd_parts::{NoMemory, write_any};

/// How many keys can be written, 2^53-1 (own).
const MOST_KEYS: u64 = (1 << 53) - 1;

/// Writes the fields of an update in V2, each type into its column, or into the rest behind the
/// columns (Yjs 13, UpdateEncoderV2). Keys are numbered as they come, from 0 on, and none is named
/// again, as in Yjs.
#[derive(Drop)]
pub struct V2Writer {
    alloc: Global,
    keys: IntDiffWriter,
    clients: UintWriter,
    lefts: IntDiffWriter,
    rights: IntDiffWriter,
    infos: ByteWriter,
    strings: StringWriter,
    parents: ByteWriter,
    kinds: UintWriter,
    lengths: UintWriter,
    rest: Bytes,
    known: u64,
}

impl Model for V2Writer {
    ghost use Rattle.std.specs.Prelude.{◌^◌, ◌<◌};
    ghost use Rattle.yd_v2.specs.Writing.{V2Written};

    ghost Value = { V2Written };

    ghost view = { λ w. record {
      keys = w.keys;
      clients = w.clients;
      lefts = w.lefts;
      rights = w.rights;
      infos = w.infos;
      strings = w.strings;
      parents = w.parents;
      kinds = w.kinds;
      lengths = w.lengths;
      rest = w.rest;
      known = w.known;
    } };

    ghost invariant = { λ w. w.known < 2 ^ 53 };
}

impl V2Writer {
    /// No field yet.
    pub fn new(alloc: Global) -> V2Writer
        ensures { result ≡ no_fields }
    {
        V2Writer {
            alloc,
            keys: IntDiffWriter::new(alloc),
            clients: UintWriter::new(alloc),
            lefts: IntDiffWriter::new(alloc),
            rights: IntDiffWriter::new(alloc),
            infos: ByteWriter::new(alloc),
            strings: StringWriter::new(alloc),
            parents: ByteWriter::new(alloc),
            kinds: UintWriter::new(alloc),
            lengths: UintWriter::new(alloc),
            rest: Bytes::new(alloc),
            known: 0,
        }
    }
}

impl FieldWriter for V2Writer {
    ghost use Rattle.yd_v2.specs.Reading.{V2Now, v2_files};
    ghost use Rattle.yd_v2.specs.Spelled.{V2Spells};
    ghost use Rattle.yd_v2.specs.Writing.{v2_bytes, v2_put};

    ghost Left = { V2Now };

    ghost reading = { v2_files };

    ghost at_start = { no_fields };

    ghost with_field = { v2_put };

    ghost is_spelled = { V2Spells };

    ghost is_whole = { FitsFile };

    ghost bytes_of = { v2_bytes };

    fn put_info(&mut self, v: u8) -> Result<(), NoMemory> {
        self.infos.push(v)?;
        Ok(())
    }

    fn put_client(&mut self, v: u64) -> Result<(), NoMemory> {
        self.clients.push(v)?;
        Ok(())
    }

    fn put_left(&mut self, v: Id) -> Result<(), NoMemory> {
        self.clients.push(v.client.0)?;
        self.lefts.push(v.clock)?;
        Ok(())
    }

    fn put_right(&mut self, v: Id) -> Result<(), NoMemory> {
        self.clients.push(v.client.0)?;
        self.rights.push(v.clock)?;
        Ok(())
    }

    fn put_flag(&mut self, v: u8) -> Result<(), NoMemory> {
        self.parents.push(v)?;
        Ok(())
    }

    fn put_string(&mut self, v: &str) -> Result<(), NoMemory> {
        self.strings.push(v)?;
        Ok(())
    }

    fn put_key(&mut self, v: &str) -> Result<(), NoMemory> {
        if self.known == MOST_KEYS {
            return Err(NoMemory);
        }
        self.keys.push(self.known)?;
        self.strings.push(v)?;
        self.known += 1;
        Ok(())
    }

    fn put_kind(&mut self, v: u64) -> Result<(), NoMemory> {
        self.kinds.push(v)?;
        Ok(())
    }

    fn put_length(&mut self, v: u64) -> Result<(), NoMemory> {
        self.lengths.push(v)?;
        Ok(())
    }

    fn put_any(&mut self, v: &Any) -> Result<(), NoMemory> {
        write_any(&mut self.rest, v)?;
        Ok(())
    }

    fn put_blob(&mut self, v: &[u8]) -> Result<(), NoMemory> {
        self.rest.push_blob(v)?;
        Ok(())
    }

    fn put_json(&mut self, v: &Json) -> Result<(), NoMemory> {
        let value = any_of_json(self.alloc, v)?;
        write_any(&mut self.rest, &value)?;
        Ok(())
    }

    fn put_number(&mut self, v: u64) -> Result<(), NoMemory> {
        self.rest.push_unsigned(v)?;
        Ok(())
    }

    fn put_range(&mut self, before: u64, clock: u64, len: u64) -> Result<(), NoMemory> {
        self.rest.push_unsigned(clock - before)?;
        self.rest.push_unsigned(len - 1)?;
        Ok(())
    }

    fn finish(self) -> Result<Vec<u8>, NoMemory> {
        let mut file = Bytes::new(self.alloc);
        file.push_unsigned(0)?;
        push_names(&mut file, self.keys, self.clients, self.lefts)?;
        push_items(&mut file, self.rights, self.infos, self.strings)?;
        push_counts(&mut file, self.parents, self.kinds, self.lengths)?;
        file.push_all(self.rest.as_slice())?;
        Ok(file.into_vec())
    }
}

/// The numbers of keys, the clients and the clocks of left origins.
fn push_names(
    file: &mut Bytes,
    keys: IntDiffWriter,
    clients: UintWriter,
    lefts: IntDiffWriter,
) -> Result<(), NoMemory>
    ensures { OnOk result (PushesThree file.old file.new
        (diff_column keys) (uint_column clients) (diff_column lefts)) }
{
    push_diffs(file, keys)?;
    push_uints(file, clients)?;
    push_diffs(file, lefts)?;
    Ok(())
}

/// The clocks of right origins, the info bytes and the strings.
fn push_items(
    file: &mut Bytes,
    rights: IntDiffWriter,
    infos: ByteWriter,
    strings: StringWriter,
) -> Result<(), NoMemory>
    ensures pushed { OnOk result (PushesThree file.old file.new
        (diff_column rights) (byte_column infos) (string_column strings)) }
    ensures fits { OnOk result (length strings.text < 2 ^ 53) }
{
    push_diffs(file, rights)?;
    push_bytes(file, infos)?;
    push_strings(file, strings)?;
    Ok(())
}

/// The flags of parents, the numbers of types and the lengths.
fn push_counts(
    file: &mut Bytes,
    parents: ByteWriter,
    kinds: UintWriter,
    lengths: UintWriter,
) -> Result<(), NoMemory>
    ensures { OnOk result (PushesThree file.old file.new
        (byte_column parents) (uint_column kinds) (uint_column lengths)) }
{
    push_bytes(file, parents)?;
    push_uints(file, kinds)?;
    push_uints(file, lengths)?;
    Ok(())
}

fn push_diffs(file: &mut Bytes, column: IntDiffWriter) -> Result<(), NoMemory>
    ensures { OnOk result (PushesColumn file.old file.new (diff_column column)) }
{
    let bytes = column.finish()?;
    file.push_blob(&bytes)?;
    Ok(())
}

fn push_uints(file: &mut Bytes, column: UintWriter) -> Result<(), NoMemory>
    ensures { OnOk result (PushesColumn file.old file.new (uint_column column)) }
{
    let bytes = column.finish()?;
    file.push_blob(&bytes)?;
    Ok(())
}

fn push_bytes(file: &mut Bytes, column: ByteWriter) -> Result<(), NoMemory>
    ensures { OnOk result (PushesColumn file.old file.new (byte_column column)) }
{
    let bytes = column.finish()?;
    file.push_blob(&bytes)?;
    Ok(())
}

fn push_strings(file: &mut Bytes, column: StringWriter) -> Result<(), NoMemory>
    ensures pushed { OnOk result (PushesColumn file.old file.new (string_column column)) }
    ensures fits { OnOk result (length column.text < 2 ^ 53) }
{
    let bytes = column.finish()?;
    file.push_blob(&bytes)?;
    Ok(())
}
