//! Which types are nested, and their numbers.

ghost use Rattle.std.specs.Prelude.{◌≡◌, ◌<◌};
ghost use Rattle.yd_fields.specs.TypeNumber.{number_of_kind, kind_of_number};

/// Which type is nested, by its number (Yjs 13, typeRefs).
#[derive(Clone, Copy, Debug, PartialEq, Eq)]
pub enum TypeKind {
    Array,
    Map,
    Text,
    Element,
    Fragment,
    Hook,
    ElementText,
}

// The numbers of the types.
const TYPE_ARRAY: u64 = 0;

const TYPE_MAP: u64 = 1;

const TYPE_TEXT: u64 = 2;

const TYPE_ELEMENT: u64 = 3;

const TYPE_FRAGMENT: u64 = 4;

const TYPE_HOOK: u64 = 5;

const TYPE_ELEMENT_TEXT: u64 = 6;

/// The number of a type.
pub fn number_of_kind(kind: TypeKind) -> u64
    ensures number { result ≡ number_of_kind kind }
    ensures small { result < 7 }
{
    match kind {
        TypeKind::Array => TYPE_ARRAY,
        TypeKind::Map => TYPE_MAP,
        TypeKind::Text => TYPE_TEXT,
        TypeKind::Element => TYPE_ELEMENT,
        TypeKind::Fragment => TYPE_FRAGMENT,
        TypeKind::Hook => TYPE_HOOK,
        TypeKind::ElementText => TYPE_ELEMENT_TEXT,
    }
}

/// The type of a number, if it is one.
pub fn kind_of_number(number: u64) -> Option<TypeKind>
    ensures { result ≡ kind_of_number number }
{
    match number {
        TYPE_ARRAY => Some(TypeKind::Array),
        TYPE_MAP => Some(TypeKind::Map),
        TYPE_TEXT => Some(TypeKind::Text),
        TYPE_ELEMENT => Some(TypeKind::Element),
        TYPE_FRAGMENT => Some(TypeKind::Fragment),
        TYPE_HOOK => Some(TypeKind::Hook),
        TYPE_ELEMENT_TEXT => Some(TypeKind::ElementText),
        _ => None,
    }
}
