//! The formats in which updates are written.

ghost use Rattle.std.specs.Prelude.{◌≡◌, IfSome, IfNone, Some, None};
ghost use Rattle.yd_asking.specs.Table.{format_in};

/// How an update is written.
#[derive(Clone, Copy)]
pub enum Format {
    /// Field after field.
    V1,
    /// In columns.
    V2,
}

/// The format that the word names.
pub fn format_named(word: &str) -> Option<Format>
    ensures found { IfSome result (λ format. format_in word.now ≡ Some format) }
    ensures none { IfNone result (format_in word.now ≡ None) }
{
    if word == "v1" {
        return Some(Format::V1);
    }
    if word == "v2" {
        return Some(Format::V2);
    }
    None
}
