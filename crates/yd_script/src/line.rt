//! What a line asks for.

use crate::target::Target;
use yd_any::{Any, AnyList, Json, Text};
use yd_ops::Kind;

/// What a line asks for.
#[derive(Drop)]
pub enum Line {
    /// A change of a root or of a type in it.
    Change { target: Target, change: Change },
    /// `["mark",NAME,TARGET,INDEX,ASSOC]`: the place is kept under the name.
    Mark { name: Text, place: Place },
    /// `["insertat",NAME,TEXT]`: the text comes in at the place under the name.
    InsertAt { name: Text, text: Text },
    /// `["undo"]`: the newest edit that is not undone yet is undone.
    Undo,
    /// `["redo"]`: the newest undo is undone.
    Redo,
}

/// A place at an index of a root or of a type in it.
#[derive(Drop)]
pub struct Place {
    /// The root or the type.
    pub target: Target,
    /// The index, from 0 to 2^53-1.
    pub index: u64,
    /// Below 0 the place keeps to what comes before it, and else to what comes behind it. It is from
    /// -(2^53-1) to 2^53-1.
    pub assoc: i64,
}

/// A change of a text, a list or a map. Indexes and lengths count live counted units, of which a text
/// has one for each UTF-16 unit, from 0 to 2^53-1.
#[derive(Drop)]
pub enum Change {
    /// `["insert",TARGET,INDEX,TEXT]`: the text comes in at the index.
    Insert {
        index: u64,
        text: Text,
    },
    /// `["embed",TARGET,INDEX,VALUE]`: the value comes in at the index, as one unit.
    Embed {
        index: u64,
        value: Json,
    },
    /// `["delete",TARGET,INDEX,LEN]`: so many units from the index on go.
    Delete {
        index: u64,
        len: u64,
    },
    /// `["format",TARGET,INDEX,LEN,KEY,VALUE]`: so many units from the index on get the value under
    /// the key.
    Format {
        index: u64,
        len: u64,
        key: Text,
        value: Json,
    },
    /// `["push",TARGET,INDEX,[VALUE,..]]`: the values come in at the index, each as one unit.
    Push {
        index: u64,
        values: AnyList,
    },
    /// `["child",TARGET,INDEX,KIND]`: a type comes in at the index.
    Child {
        index: u64,
        kind: Kind,
    },
    /// `["set",TARGET,KEY,VALUE]`: the value stands under the key.
    Set {
        key: Text,
        value: Any,
    },
    /// `["settype",TARGET,KEY,KIND]`: a type stands under the key.
    SetType {
        key: Text,
        kind: Kind,
    },
    /// `["unset",TARGET,KEY]`: nothing stands under the key.
    Unset {
        key: Text,
    },
}
