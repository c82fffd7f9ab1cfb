//! Taking in the structs of an update, one after another.

ghost use Rattle.std.specs.Prelude.{◌≡◌, ◌↔◌, ◌∷◌, [], false, nat_eq, length, map, IsTrue, OnOk, IfOk};
ghost use Rattle.std.specs.Bool.{OnFalse};
ghost use Rattle.yd_words.specs.Each.{Each};
ghost use Rattle.yd_ids.specs.Id.{IsClient, IsClock};
ghost use Rattle.yd_ops.specs.Operation.{operations_of_run, operations_of_struct};
ghost use Rattle.yd_ops.specs.Operation.{operations_of_structs, operations_of_blocks};
ghost use Rattle.yd_ops.specs.Valid.{IsValidBlock, AreStructsFrom};
ghost use Rattle.yd_ops.specs.View.{content_value, run_value, struct_value, block_value};
ghost use Rattle.yd_ops.specs.Received.{groups_of_structs, groups_of_blocks};
ghost use Rattle.yd_entries.specs.Entries.{AreTaken, operations_in, GrowBy};
ghost use Rattle.yd_entries.specs.Lowering.{level_of_content, IsBacked};
ghost use Rattle.yd_entries.specs.Taking.{BringsOne, AreUnchanged, IsRun, operations_from_run};
ghost use Rattle.yd_received.specs.Structs.{IsStructOf, TakesIn, KeepsToLower, gone_run};

use std::alloc::Global;
use yd_entries::{Entries, NoMemory, add_run, level_from, lower};
use yd_ids::Id;
use yd_ops::{Block, Content, Run, Struct};

/// Takes in the operations of blocks, and says whether they bring something. Before the first entry
/// is lowered, the entries are copied.
pub(crate) fn take_blocks(
    alloc: Global,
    runs: &mut Vec<Run>,
    taken: &mut Entries,
    before: &mut Option<Entries>,
    blocks: Vec<Block>,
) -> Result<bool, NoMemory>
    requires blocks { Each IsValidBlock (map block_value blocks.items) }
    requires taken { AreTaken runs.old.items taken.old }
    ensures taken { OnOk result (TakesIn runs.old.items taken.old
        runs.new.items taken.new (groups_of_blocks (map block_value blocks.items))) }
    ensures brings { IfOk result (λ brings. IsTrue brings
        ↔ BringsOne (operations_of_blocks (map block_value blocks.items))
        (operations_in runs.old.items taken.old)) }
    ensures unchanged { IfOk result (λ brings. OnFalse brings
        (AreUnchanged runs.old.items taken.old runs.new.items taken.new)) }
    ensures lowers { OnOk result (KeepsToLower before.old before.new
        (operations_of_blocks (map block_value blocks.items))
        (operations_in runs.old.items taken.old)) }
    ensures grows { GrowBy runs.old.items runs.new.items }
    ensures backed { IsBacked (length runs.old.items) before.old taken.old
        before.new taken.new }
{
    // As many blocks come as there are.
    let _count = blocks.len();
    let mut brings = false;
    for block in blocks {
        let first = Id {
            client: block.client,
            clock: block.clock,
        };
        let more = take_structs(alloc, runs, taken, before, first, block.structs.into_vec())?;
        brings |= more;
    }
    Ok(brings)
}

/// Takes in the operations of structs that begin at an id, and says whether they bring something.
fn take_structs(
    alloc: Global,
    runs: &mut Vec<Run>,
    taken: &mut Entries,
    before: &mut Option<Entries>,
    first: Id,
    structs: Vec<Struct>,
) -> Result<bool, NoMemory>
    requires client { IsClient first.client }
    requires clock { IsClock first.clock }
    requires structs { AreStructsFrom first.client first.clock (map struct_value structs.items) }
    requires taken { AreTaken runs.old.items taken.old }
    ensures taken { OnOk result (TakesIn runs.old.items taken.old
        runs.new.items taken.new
        (groups_of_structs first.client first.clock (map struct_value structs.items))) }
    ensures brings { IfOk result (λ brings. IsTrue brings
        ↔ BringsOne (operations_of_structs first.client first.clock (map struct_value structs.items))
        (operations_in runs.old.items taken.old)) }
    ensures unchanged { IfOk result (λ brings. OnFalse brings
        (AreUnchanged runs.old.items taken.old runs.new.items taken.new)) }
    ensures lowers { OnOk result (KeepsToLower before.old before.new
        (operations_of_structs first.client first.clock (map struct_value structs.items))
        (operations_in runs.old.items taken.old)) }
    ensures grows { GrowBy runs.old.items runs.new.items }
    ensures backed { IsBacked (length runs.old.items) before.old taken.old
        before.new taken.new }
{
    // As many structs come as there are.
    let _count = structs.len();
    let mut brings = false;
    let mut clock = first.clock;
    for entry in structs {
        let id = Id {
            client: first.client,
            clock,
        };
        let len = entry.len();
        let more = take_struct(alloc, runs, taken, before, id, entry)?;
        brings |= more;
        clock += len;
    }
    Ok(brings)
}

/// Takes in the operations of a struct that begins at an id, and says whether they bring something.
/// A skip brings nothing.
fn take_struct(
    alloc: Global,
    runs: &mut Vec<Run>,
    taken: &mut Entries,
    before: &mut Option<Entries>,
    id: Id,
    entry: Struct,
) -> Result<bool, NoMemory>
    requires entry { IsStructOf id (struct_value entry) }
    requires taken { AreTaken runs.old.items taken.old }
    ensures taken { OnOk result (TakesIn runs.old.items taken.old runs.new.items
        taken.new (operations_of_struct id.client id.clock (struct_value entry) ∷ [])) }
    ensures brings { IfOk result (λ brings. IsTrue brings
        ↔ BringsOne (operations_of_struct id.client id.clock (struct_value entry))
        (operations_in runs.old.items taken.old)) }
    ensures unchanged { IfOk result (λ brings. OnFalse brings
        (AreUnchanged runs.old.items taken.old runs.new.items taken.new)) }
    ensures lowers { OnOk result (KeepsToLower before.old before.new
        (operations_of_struct id.client id.clock (struct_value entry))
        (operations_in runs.old.items taken.old)) }
    ensures grows { GrowBy runs.old.items runs.new.items }
    ensures backed { IsBacked (length runs.old.items) before.old taken.old
        before.new taken.new }
{
    match entry {
        Struct::Item(run) => {
            let brings = take_run(alloc, runs, taken, before, run)?;
            Ok(brings)
        }
        Struct::Skip(_) => Ok(false),
        Struct::Gone(count) => {
            let run = gone_run(id, count);
            let brings = take_less(alloc, runs, taken, before, run, true)?;
            Ok(brings)
        }
    }
}

/// The run that stands for so many units that are gone, from an id on.
fn gone_run(id: Id, count: u64) -> Run
    ensures { run_value result ≡ gone_run id count }
{
    Run {
        id,
        left: None,
        right: None,
        list: None,
        content: Content::Deleted(count),
    }
}

/// Takes in the operations of a run, and says whether they bring something.
fn take_run(
    alloc: Global,
    runs: &mut Vec<Run>,
    taken: &mut Entries,
    before: &mut Option<Entries>,
    run: Run,
) -> Result<bool, NoMemory>
    requires run { IsRun false (run_value run) }
    requires taken { AreTaken runs.old.items taken.old }
    ensures taken { OnOk result (TakesIn runs.old.items taken.old
        runs.new.items taken.new (operations_of_run (run_value run) ∷ [])) }
    ensures brings { IfOk result (λ brings. IsTrue brings
        ↔ BringsOne (operations_of_run (run_value run))
        (operations_in runs.old.items taken.old)) }
    ensures unchanged { IfOk result (λ brings. OnFalse brings
        (AreUnchanged runs.old.items taken.old runs.new.items taken.new)) }
    ensures lowers { OnOk result (KeepsToLower before.old before.new
        (operations_of_run (run_value run))
        (operations_in runs.old.items taken.old)) }
    ensures grows { GrowBy runs.old.items runs.new.items }
    ensures backed { IsBacked (length runs.old.items) before.old taken.old
        before.new taken.new }
{
    if is_deleted(&run.content) {
        let brings = take_less(alloc, runs, taken, before, run, false)?;
        return Ok(brings);
    }
    // What is full lowers nothing.
    let brings = add_run(alloc, runs, taken, run, false)?;
    Ok(brings)
}

/// The content is that of deleted units.
fn is_deleted(content: &Content) -> bool
    ensures { result ≡ nat_eq (level_of_content (content_value content.now)) 1 }
{
    matches!(content, Content::Deleted(_))
}

/// Takes in the operations of a deleted run, or of one that stands for as many units that are gone,
/// and says whether they bring something.
fn take_less(
    alloc: Global,
    runs: &mut Vec<Run>,
    taken: &mut Entries,
    before: &mut Option<Entries>,
    run: Run,
    is_gone: bool,
) -> Result<bool, NoMemory>
    requires run { IsRun is_gone (run_value run) }
    requires deleted { level_of_content (content_value run.content) ≡ 1 }
    requires taken { AreTaken runs.old.items taken.old }
    ensures taken { OnOk result (TakesIn runs.old.items taken.old
        runs.new.items taken.new (operations_from_run is_gone (run_value run) ∷ [])) }
    ensures brings { IfOk result (λ brings. IsTrue brings
        ↔ BringsOne (operations_from_run is_gone (run_value run))
        (operations_in runs.old.items taken.old)) }
    ensures unchanged { IfOk result (λ brings. OnFalse brings
        (AreUnchanged runs.old.items taken.old runs.new.items taken.new)) }
    ensures lowers { OnOk result (KeepsToLower before.old before.new
        (operations_from_run is_gone (run_value run))
        (operations_in runs.old.items taken.old)) }
    ensures grows { GrowBy runs.old.items runs.new.items }
    ensures backed { IsBacked (length runs.old.items) before.old taken.old
        before.new taken.new }
{
    let id = run.id;
    let len = run.len();
    let adds = add_run(alloc, runs, taken, run, is_gone)?;
    let level = level_from(is_gone);
    let lowers = lower(alloc, runs, taken, before, id, len, level)?;
    Ok(adds | lowers)
}
