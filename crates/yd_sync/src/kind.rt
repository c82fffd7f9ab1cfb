//! The numbers that messages begin with.

ghost use Rattle.std.specs.Prelude.{◌≡◌};
ghost use Rattle.yd_sync.specs.Envelope.{outer_kind, sync_kind};

/// What a message is, by the numbers that it begins with.
#[derive(Clone, Copy, Debug, PartialEq, Eq)]
pub(crate) enum Kind {
    Step1,
    Step2,
    Change,
    Aware,
    Auth,
    Query,
    /// No message has this number.
    Other(u64),
}

// The first number of a message (y-websocket).
pub(crate) const OUTER_SYNC: u8 = 0;

pub(crate) const OUTER_AWARE: u8 = 1;

pub(crate) const OUTER_AUTH: u8 = 2;

pub(crate) const OUTER_QUERY: u8 = 3;

// The next number of a sync message (y-protocols, sync).
pub(crate) const SYNC_STEP1: u8 = 0;

pub(crate) const SYNC_STEP2: u8 = 1;

pub(crate) const SYNC_CHANGE: u8 = 2;

/// The kind of a sync message with this second number.
pub(crate) fn sync_kind(inner: u64) -> Kind
    ensures { result ≡ sync_kind inner }
{
    match u8::try_from(inner) {
        Ok(SYNC_STEP1) => Kind::Step1,
        Ok(SYNC_STEP2) => Kind::Step2,
        Ok(SYNC_CHANGE) => Kind::Change,
        _ => Kind::Other(inner),
    }
}

/// The kind of a message with this first number, which is not that of sync messages.
pub(crate) fn outer_kind(outer: u64) -> Kind
    ensures { result ≡ outer_kind outer }
{
    match u8::try_from(outer) {
        Ok(OUTER_AWARE) => Kind::Aware,
        Ok(OUTER_AUTH) => Kind::Auth,
        Ok(OUTER_QUERY) => Kind::Query,
        _ => Kind::Other(outer),
    }
}
