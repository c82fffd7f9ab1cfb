//! What is shown of a parent, in each mode.

ghost use Rattle.std.specs.Prelude.{◌≡◌, IfOk, map};
ghost use Rattle.yd_any.specs.Tree.{no_fields};
ghost use Rattle.yd_doc.specs.Kept.{own_document};
ghost use Rattle.yd_shown.specs.Pieces.{delta_pieces};
ghost use Rattle.yd_shown.specs.Seen.{seen_units};
ghost use Rattle.yd_shown.specs.Shown.{most_types as types_shown, shown, shown_tree as tree_shown, value_within};
ghost use Rattle.yd_value.specs.View.{shown_tree};
ghost use Rattle.yd_modes.specs.Gathering.{made, told};
ghost use Rattle.yd_modes.specs.Modes.{mode_of};

use crate::fault::NoMemory;
use crate::mode::Mode;
use crate::nesting::{
    gather, gather_values, show_delta, show_keys, show_list, show_map, show_text,
};
use crate::objects::tree_of;
use crate::piece::Piece;
use std::alloc::Global;
use yd_doc::Replica;
use yd_ops::{List, Parent};
use yd_value::Shown;

/// What a parent shows in a mode, with the types that lie in it (Yjs 13, toString, toDelta and
/// toJSON). A type inside 100 others is not shown: an object with the key `$deep` stands for it.
/// Calls nest no deeper than these types. It goes once along the units of each list that it shows,
/// and under a key it looks at the last unit alone. A list is found by a hash of its name, and the
/// keys of a map by one of the parent; where many share a slot, a bisection finds them. It changes
/// nothing, and where it finds no memory there is no value.
pub fn show(
    alloc: Global,
    replica: &Replica,
    parent: &Parent,
    mode: Mode,
) -> Result<Shown, NoMemory>
    ensures { IfOk result (λ value. shown_tree value
        ≡ shown (own_document replica.now) parent.now (mode_of mode)) }
{
    let most = most_types();
    match mode {
        Mode::Text => show_text(alloc, replica, parent),
        Mode::Delta => show_delta(alloc, replica, parent, most),
        Mode::Array => show_list(alloc, replica, parent, most),
        Mode::Map => Ok(Shown::Fields(show_map(alloc, replica, parent, most)?)),
        Mode::Tree => show_tree(alloc, replica, parent, most),
    }
}

/// The tree of a parent: its map and its list, which are found together.
fn show_tree(
    alloc: Global,
    replica: &Replica,
    parent: &Parent,
    most: u64,
) -> Result<Shown, NoMemory>
    ensures { IfOk result (λ value. shown_tree value
        ≡ tree_shown (value_within most (own_document replica.now)) (own_document replica.now)
        parent.now no_fields) }
{
    let lists = replica.lists_of(alloc, parent)?;
    let attributes = show_keys(alloc, replica, parent, lists.keys, most)?;
    let children = gather_values(alloc, replica, lists.own, most)?;
    tree_of(alloc, attributes, Shown::List(children))
}

/// The pieces of a list as a delta: text, embeds and types, each under the attributes that the
/// marks before it set (Yjs 13, toDelta; that neighbouring text with equal attributes is one piece is
/// own). Any-, JSON and binary values give no piece. It takes time as [`show`] does.
pub fn delta(alloc: Global, replica: &Replica, list: &List) -> Result<Vec<Piece>, NoMemory>
    ensures { IfOk result (λ pieces. map made pieces.items
        ≡ map told (delta_pieces (value_within types_shown (own_document replica.now)) no_fields
        (seen_units (own_document replica.now) list.now))) }
{
    let most = most_types();
    let pieces = gather(alloc, replica, list, most)?;
    Ok(pieces)
}

/// How many types inside one another are shown.
#[tactic(auto, unfolding(yd_shown::specs::Shown::most_types))]
fn most_types() -> u64
    ensures { result ≡ types_shown }
{
    100
}
