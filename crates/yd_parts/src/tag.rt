//! The tags of any-values.

ghost use Rattle.std.specs.Prelude.{◌≡◌};
ghost use Rattle.yd_parts.specs.AnyPlan.{byte_of_tag, tag_of_byte};

/// What an any-value is, by the byte that it begins with (lib0, writeAny).
#[derive(Clone, Copy, Debug, PartialEq, Eq)]
pub enum Tag {
    Undefined,
    Null,
    Whole,
    Raw4,
    Raw8,
    Big,
    False,
    True,
    Str,
    Pairs,
    List,
    Blob,
}

// The bytes of the tags (lib0, writeAny).
const TAG_UNDEFINED: u8 = 127;

const TAG_NULL: u8 = 126;

const TAG_WHOLE: u8 = 125;

const TAG_RAW4: u8 = 124;

const TAG_RAW8: u8 = 123;

const TAG_BIG: u8 = 122;

const TAG_FALSE: u8 = 121;

const TAG_TRUE: u8 = 120;

const TAG_STR: u8 = 119;

const TAG_PAIRS: u8 = 118;

const TAG_LIST: u8 = 117;

const TAG_BLOB: u8 = 116;

/// The byte of a tag.
pub fn byte_of_tag(tag: Tag) -> u8
    ensures { result ≡ byte_of_tag tag }
{
    match tag {
        Tag::Undefined => TAG_UNDEFINED,
        Tag::Null => TAG_NULL,
        Tag::Whole => TAG_WHOLE,
        Tag::Raw4 => TAG_RAW4,
        Tag::Raw8 => TAG_RAW8,
        Tag::Big => TAG_BIG,
        Tag::False => TAG_FALSE,
        Tag::True => TAG_TRUE,
        Tag::Str => TAG_STR,
        Tag::Pairs => TAG_PAIRS,
        Tag::List => TAG_LIST,
        Tag::Blob => TAG_BLOB,
    }
}

/// The tag of a byte, if it is one.
pub fn tag_of_byte(byte: u8) -> Option<Tag>
    ensures { result ≡ tag_of_byte byte }
{
    match byte {
        TAG_UNDEFINED => Some(Tag::Undefined),
        TAG_NULL => Some(Tag::Null),
        TAG_WHOLE => Some(Tag::Whole),
        TAG_RAW4 => Some(Tag::Raw4),
        TAG_RAW8 => Some(Tag::Raw8),
        TAG_BIG => Some(Tag::Big),
        TAG_FALSE => Some(Tag::False),
        TAG_TRUE => Some(Tag::True),
        TAG_STR => Some(Tag::Str),
        TAG_PAIRS => Some(Tag::Pairs),
        TAG_LIST => Some(Tag::List),
        TAG_BLOB => Some(Tag::Blob),
        _ => None,
    }
}
