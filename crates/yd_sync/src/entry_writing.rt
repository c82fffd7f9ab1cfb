//! Entries, written.

ghost use Rattle.std.specs.Prelude.{◌≡◌, ◌∷◌, ◌++◌, [], IfOk, OnOk};
ghost use Rattle.yd_words.specs.Each.{Each};
ghost use Rattle.yd_fields.specs.Field as field;
ghost use Rattle.yd_fields.specs.Writes.{Writes};
ghost use Rattle.yd_v1.specs.Bytes.{V1Spells, v1_bytes, v1_bytes_of_all};
ghost use Rattle.yd_v1.specs.Grammar.{FillsV1};
ghost use Rattle.yd_sync.specs.Entry.{IsEntry, aware_plan, fields_of_aware, fields_of_each, text_of_state};

use crate::entry::{AwareEntry, AwareList};
use std::alloc::Global;
use yd_any::Text;
use yd_fields::FieldWriter;
use yd_parts::{NoMemory, counted};
use yd_v1::V1Writer;

/// The bytes of entries, which stand for these entries (y-protocols, encodeAwarenessUpdate).
pub(crate) fn write_entries(alloc: Global, entries: &AwareList) -> Result<Vec<u8>, NoMemory>
    requires { Each IsEntry entries.now }
    ensures written { IfOk result (λ bytes. bytes.items
        ≡ v1_bytes_of_all (fields_of_aware entries.now)) }
    ensures read_again { IfOk result (λ bytes. FillsV1 aware_plan bytes.items entries.now) }
{
    let entries = entries.as_slice();
    let count = counted(entries.len())?;
    let mut writer = V1Writer::new(alloc);
    writer.put_number(count)?;
    write_each(entries, &mut writer)?;
    let bytes = writer.finish()?;
    Ok(bytes)
}

fn write_each(entries: &[AwareEntry], writer: &mut V1Writer) -> Result<(), NoMemory>
    requires { Each IsEntry entries.now }
    ensures { OnOk result (Writes (λ f bytes. bytes ++ v1_bytes f) V1Spells
        (fields_of_each entries.now) writer.old writer.new) }
{
    for entry in entries {
        write_entry(entry, writer)?;
    }
    Ok(())
}

fn write_entry(entry: &AwareEntry, writer: &mut V1Writer) -> Result<(), NoMemory>
    requires { IsEntry entry.now }
    ensures { OnOk result (Writes (λ f bytes. bytes ++ v1_bytes f) V1Spells
        (fields_of_each (entry.now ∷ [])) writer.old writer.new) }
{
    writer.put_number(entry.client.0)?;
    writer.put_number(entry.clock)?;
    write_state(&entry.state, writer)?;
    Ok(())
}

/// The text that tells a state, which is `null` where there is none.
fn write_state(state: &Option<Text>, writer: &mut V1Writer) -> Result<(), NoMemory>
    ensures put { OnOk result (writer.new
        ≡ writer.old ++ v1_bytes (field.string, text_of_state state.now)) }
    ensures spelled { OnOk result (V1Spells (field.string, text_of_state state.now)) }
{
    match state {
        None => writer.put_string("null")?,
        Some(text) => writer.put_string(text.as_str())?,
    }
    Ok(())
}
