//! The modes in which a parent is shown.

/// How a parent is shown.
#[derive(Clone, Copy, Debug, PartialEq, Eq)]
pub enum Mode {
    /// As text.
    Text,
    /// As a delta: text, embeds and types, with attributes.
    Delta,
    /// As the list of its values.
    Array,
    /// As its keys with their values.
    Map,
    /// As its map and its list.
    Tree,
}
