//! State vectors, written.

ghost use Rattle.std.specs.Prelude.{◌≡◌, ◌++◌, ◌∷◌, [], reverse, IfOk, OnOk};
ghost use Rattle.yd_words.specs.Each.{Each};
ghost use Rattle.yd_ids.specs.Vector.{IsEntry, IsVector};
ghost use Rattle.yd_fields.specs.UpdatePlan.{vector_plan};
ghost use Rattle.yd_v1.specs.Bytes.{V1Spells, v1_bytes, v1_bytes_of_all};
ghost use Rattle.yd_v1.specs.Grammar.{FillsV1};
ghost use Rattle.yd_fields.specs.VectorFields.{fields_of_entries, fields_of_vector};
ghost use Rattle.yd_fields.specs.Writes.{Writes};

use crate::writer::V1Writer;
use std::alloc::Global;
use yd_fields::FieldWriter;
use yd_ids::{Client, Vector};
use yd_parts::{NoMemory, counted};

/// The bytes of a state vector, clients descending, which stand for that vector (Yjs 13,
/// encodeStateVector). One of 2^53 clients or more finds no memory (own).
pub fn write_vector(alloc: Global, vector: &Vector) -> Result<Vec<u8>, NoMemory>
    ensures written { IfOk result (λ bytes. bytes.items
        ≡ v1_bytes_of_all (fields_of_vector vector.now)) }
    ensures read_again { IfOk result (λ bytes. FillsV1 vector_plan bytes.items vector.now) }
{
    let entries = entries_of(alloc, vector)?;
    let count = counted(entries.len())?;
    let mut writer = V1Writer::new(alloc);
    writer.put_number(count)?;
    write_entries(&entries, &mut writer)?;
    let bytes = writer.finish()?;
    Ok(bytes)
}

fn entries_of(alloc: Global, vector: &Vector) -> Result<Vec<(Client, u64)>, NoMemory>
    ensures entries { IfOk result (λ entries. entries.items ≡ reverse vector.now) }
    ensures vector { OnOk result (IsVector vector.now) }
{
    let mut entries = Vec::new(alloc);
    for entry in vector.iter() {
        entries.push(entry)?;
    }
    Ok(entries)
}

fn write_entries(entries: &[(Client, u64)], writer: &mut V1Writer) -> Result<(), NoMemory>
    requires { Each IsEntry entries.now }
    ensures { OnOk result (Writes (λ f bytes. bytes ++ v1_bytes f) V1Spells
        (fields_of_entries entries.now) writer.old writer.new) }
{
    for entry in entries {
        write_entry(*entry, writer)?;
    }
    Ok(())
}

fn write_entry(entry: (Client, u64), writer: &mut V1Writer) -> Result<(), NoMemory>
    requires { IsEntry entry }
    ensures { OnOk result (Writes (λ f bytes. bytes ++ v1_bytes f) V1Spells
        (fields_of_entries (entry ∷ [])) writer.old writer.new) }
{
    writer.put_number(entry.0.0)?;
    writer.put_number(entry.1)?;
    Ok(())
}
