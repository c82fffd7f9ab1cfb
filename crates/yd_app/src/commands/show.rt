//! `show`: what a reader of a root sees.

ghost use Rattle.std.specs.Prelude.{◌≡◌, IfOk};
ghost use Rattle.yd_words.specs.Each.{Each};
ghost use Rattle.yd_any.specs.Printed.{printed};
ghost use Rattle.yd_doc.specs.Kept.{own_document};
ghost use Rattle.yd_meaning.specs.Text.{shown_text};
ghost use Rattle.yd_modes.specs.Modes.{mode_of};
ghost use Rattle.yd_ops.specs.Valid.{IsValidUpdate};
ghost use Rattle.yd_ops.specs.declared.lists.Parent.TheVariants.{Root as RootOf};
ghost use Rattle.yd_shown.specs.Shown.{own_list, printed_text, shown};
ghost use Rattle.yd_units.specs.Text.{text_of};
ghost use Rattle.yd_files.specs.Seen.{inputs_of};
ghost use Rattle.yd_asking.specs.Command.{show as shows};
ghost use Rattle.yd_app.specs.Commands.Show.{shown_line};
ghost use Rattle.yd_app.specs.Output.{IsMadeOf};

use crate::fault::NoMemory;
use std::alloc::Global;
use yd_any::Text;
use yd_doc::Replica;
use yd_doc::law::own_document_is_replicas;
use yd_files::Inputs;
use yd_ids::Client;
use yd_modes::Mode;
use yd_ops::{List, Parent};
use yd_value::print;
use yd_view::text;

/// What the root shows in the mode in a replica's document of all updates, and a line feed.
pub fn show(alloc: Global, mode: Mode, root: &str, inputs: Inputs) -> Result<Vec<u8>, NoMemory>
    requires { Each IsValidUpdate (inputs_of inputs).updates }
    ensures { IfOk result (λ line.
        IsMadeOf (shows mode root.now) (inputs_of inputs) line.items) }
{
    // It makes no edits, so any client serves.
    let replica = Replica::of_updates(alloc, Client(0), inputs.updates.into_vec())?;
    own_document_is_replicas(&replica);
    let mut line = print_root(alloc, &replica, mode, root)?;
    line.push(b'\n')?;
    Ok(line)
}

// What the root shows: a text as it is, and all else as JSON.
fn print_root(alloc: Global, replica: &Replica, mode: Mode, root: &str) -> Result<Vec<u8>, NoMemory>
    ensures { IfOk result (λ bytes. bytes.items ≡ printed_text (mode_of mode)
        (shown (own_document replica.now) (RootOf root.now) (mode_of mode))) }
{
    match mode {
        Mode::Text => print_text(alloc, replica, root),
        _ => print_value(alloc, replica, mode, root),
    }
}

fn print_text(alloc: Global, replica: &Replica, root: &str) -> Result<Vec<u8>, NoMemory>
    ensures { IfOk result (λ bytes. bytes.items
        ≡ text_of (shown_text (own_document replica.now) (own_list (RootOf root.now)))) }
{
    let parent = root_named(alloc, root)?;
    let list = List { parent, key: None };
    let units = text(alloc, replica, &list)?;
    let mut bytes = Vec::new(alloc);
    units.write_text(&mut bytes)?;
    Ok(bytes)
}

fn print_value(
    alloc: Global,
    replica: &Replica,
    mode: Mode,
    root: &str,
) -> Result<Vec<u8>, NoMemory>
    ensures { IfOk result (λ bytes. bytes.items
        ≡ printed (shown (own_document replica.now) (RootOf root.now) (mode_of mode))) }
{
    let parent = root_named(alloc, root)?;
    let value = yd_modes::show(alloc, replica, &parent, mode)?;
    let mut bytes = Vec::new(alloc);
    print(&value, &mut bytes)?;
    Ok(bytes)
}

fn root_named(alloc: Global, root: &str) -> Result<Parent, NoMemory>
    ensures { IfOk result (λ parent. parent ≡ RootOf root.now) }
{
    let name = Text::copy_of(alloc, root)?;
    Ok(Parent::Root(name))
}
