//! The kinds of files: how the bytes of each are spelled.

ghost use Rattle.std.specs.Prelude.{◌≡◌, ◌↔◌, IsTrue};
ghost use Rattle.yd_files.specs.Files.{IsOneUpdate, prefix_of};

/// How a file is spelled.
#[derive(Clone, Copy, Debug, PartialEq, Eq)]
pub enum Kind {
    /// One update in V1.
    V1,
    /// One update in V2.
    V2,
    /// Updates in V1, one behind the other.
    Log,
    /// A state vector.
    Vector,
    /// A script.
    Script,
}

impl Kind {
    /// Whether a file of this kind stands for one update, and not for several.
    pub fn is_one_update(self) -> bool
        ensures { IsTrue result ↔ IsOneUpdate self }
    {
        match self {
            Kind::V1 | Kind::V2 => true,
            Kind::Log | Kind::Vector | Kind::Script => false,
        }
    }
}

/// What stands before the name of a file of this kind, in a word: nothing before that of a state
/// vector or of a script.
pub fn prefix(kind: Kind) -> &'static str
    ensures { result.now ≡ prefix_of kind }
{
    match kind {
        Kind::V1 => "v1:",
        Kind::V2 => "v2:",
        Kind::Log => "log:",
        Kind::Vector | Kind::Script => "",
    }
}
