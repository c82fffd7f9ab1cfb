//! Files, as the words name them.

ghost use Rattle.std.specs.Prelude.{◌≡◌, ◌≢◌, ◌++◌, ℕ, List, IfSome, IfNone};
ghost use Rattle.yd_files.specs.Files.{File as FileValue, HasPrefix, IsNamed, file_word, prefix_of};
ghost use Rattle.yd_files.specs.Seen.{file_of as seen};
ghost use Rattle.yd_files.specs.declared.kind.Kind.{Kind as KindValue};

use crate::kind::Kind;

/// A file of a library.
#[derive(Clone, Copy)]
pub struct File<'a> {
    /// How its bytes are spelled.
    pub kind: Kind,
    /// The name of its bytes.
    pub name: &'a str,
}

/// The file that a word names: its kind, and behind it a name that is not empty.
pub fn file_of(word: &str) -> Option<File<'_>>
    ensures found { IfSome result (λ file. (word.now ≡ file_word (seen file))
        × IsNamed (seen file)) }
    ensures none { IfNone result ((file : FileValue) → IsNamed file → word.now ≢ file_word file) }
{
    let (kind, name) = kind_and_name(word)?;
    if name.is_empty() {
        return None;
    }
    Some(File { kind, name })
}

// The kind, and what stands behind its prefix.
fn kind_and_name(word: &str) -> Option<(Kind, &str)>
    ensures found { IfSome result (λ both. word.now ≡ prefix_of both.0 ++ both.1.now) }
    ensures prefixed { IfSome result (λ both. HasPrefix both.0) }
    ensures none { IfNone result ((kind : KindValue) (name : List ℕ)
        → HasPrefix kind → word.now ≢ prefix_of kind ++ name) }
{
    if let Some(name) = word.strip_prefix("v1:") {
        return Some((Kind::V1, name));
    }
    if let Some(name) = word.strip_prefix("v2:") {
        return Some((Kind::V2, name));
    }
    let name = word.strip_prefix("log:")?;
    Some((Kind::Log, name))
}
