//! The info byte of a struct.

ghost use Rattle.std.specs.Prelude.{◌≡◌};
ghost use Rattle.yd_fields.specs.StructPlan.{kind_of_info, has_left, has_right, has_key};

// What a struct is, in the low five bits of its info byte (Yjs 13, contentRefs).
const KIND_SUBDOCUMENT: u8 = 9;

/// The bits of a gone run, which are its whole info byte.
pub const KIND_GONE: u8 = 0;

/// The bits of a deleted run.
pub const KIND_DELETED: u8 = 1;

/// The bits of JSON units.
pub const KIND_JSON: u8 = 2;

/// The bits of a byte string.
pub const KIND_BINARY: u8 = 3;

/// The bits of a string.
pub const KIND_STRING: u8 = 4;

/// The bits of an embed.
pub const KIND_EMBED: u8 = 5;

/// The bits of a mark.
pub const KIND_FORMAT: u8 = 6;

/// The bits of a type.
pub const KIND_NESTED: u8 = 7;

/// The bits of any-values.
pub const KIND_ANY: u8 = 8;

/// The bits of a skip.
pub const KIND_SKIP: u8 = 10;

/// The bit of a key.
pub const KEY_BIT: u8 = 32;

/// The bit of a right origin.
pub const RIGHT_BIT: u8 = 64;

/// The bit of a left origin.
pub const LEFT_BIT: u8 = 128;

/// What an item holds.
#[derive(Clone, Copy, Debug, PartialEq, Eq)]
pub enum ContentKind {
    Deleted,
    Json,
    Binary,
    Str,
    Embed,
    Format,
    Nested,
    Any,
}

/// What a struct is, by the low five bits of its info byte (Yjs 13, contentRefs).
#[derive(Clone, Copy, Debug, PartialEq, Eq)]
pub enum StructKind {
    Gone,
    Item(ContentKind),
    Subdocument,
    Skip,
    Unknown,
}

/// The kind of a struct.
pub fn kind_of_info(info: u8) -> StructKind
    ensures { result ≡ kind_of_info info }
{
    match info % KEY_BIT {
        KIND_GONE => StructKind::Gone,
        KIND_DELETED => StructKind::Item(ContentKind::Deleted),
        KIND_JSON => StructKind::Item(ContentKind::Json),
        KIND_BINARY => StructKind::Item(ContentKind::Binary),
        KIND_STRING => StructKind::Item(ContentKind::Str),
        KIND_EMBED => StructKind::Item(ContentKind::Embed),
        KIND_FORMAT => StructKind::Item(ContentKind::Format),
        KIND_NESTED => StructKind::Item(ContentKind::Nested),
        KIND_ANY => StructKind::Item(ContentKind::Any),
        KIND_SUBDOCUMENT => StructKind::Subdocument,
        KIND_SKIP => StructKind::Skip,
        _ => StructKind::Unknown,
    }
}

/// A left origin is there.
pub fn has_left(info: u8) -> bool
    ensures { result ≡ has_left info }
{
    info / LEFT_BIT % 2 == 1
}

/// A right origin is there.
pub fn has_right(info: u8) -> bool
    ensures { result ≡ has_right info }
{
    info / RIGHT_BIT % 2 == 1
}

/// The list has a key, where no origin is there.
pub fn has_key(info: u8) -> bool
    ensures { result ≡ has_key info }
{
    info / KEY_BIT % 2 == 1
}
