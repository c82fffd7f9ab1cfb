//! The network of a case: what happens on it, which calls to it fail, and what has to be told to it.

use crate::bytes::{bytes_of, number_of};
use crate::failing::Failing;
use crate::slip::Slip;
use std::alloc::Global;
use yd_world::{Blob8, Event, ScriptBoard, Sent, Session, What};

/// What happens.
#[derive(Drop)]
pub enum Happening {
    /// This session opens.
    Opened(u64),
    /// These bytes come from this session.
    Received(u64, Vec<u8>),
    /// This session ends.
    Closed(u64),
    /// Nothing came for a while.
    Idle,
}

/// What happens at a moment, in milliseconds.
#[derive(Drop)]
pub struct Moment {
    /// The moment.
    pub now: u64,
    /// What happens then.
    pub what: Happening,
}

/// What happens, in its order, and what is wanted.
#[derive(Drop)]
pub struct Network {
    /// The moment of what is read next: 0 at first.
    pub now: u64,
    /// What happens.
    pub moments: Vec<Moment>,
    /// The calls that fail.
    pub failing: Failing,
    /// What has to be sent and closed: a line for each, as `tell` writes them.
    pub wanted: String,
}

impl Network {
    /// Nothing happens, no call fails, and nothing is wanted.
    pub(crate) fn new(alloc: Global) -> Network {
        Network {
            now: 0,
            moments: Vec::new(alloc),
            failing: Failing::new(alloc),
            wanted: String::new(alloc),
        }
    }

    /// Takes a line in, by its first word and what stands behind it.
    pub(crate) fn take(&mut self, alloc: Global, word: &str, rest: &str) -> Result<(), Slip> {
        match word {
            "moment" => self.now = number_of(rest)?,
            "opened" => self.add(Happening::Opened(number_of(rest)?))?,
            "received" => {
                let (session, bytes) = session_and(alloc, rest)?;
                self.add(Happening::Received(session, bytes))?;
            }
            "closed" => self.add(Happening::Closed(number_of(rest)?))?,
            "idle" => self.add(Happening::Idle)?,
            "board-fails" => self.failing.take_call(rest)?,
            _ => self.take_wanted(alloc, word, rest)?,
        }
        Ok(())
    }

    fn take_wanted(&mut self, alloc: Global, word: &str, rest: &str) -> Result<(), Slip> {
        match word {
            "sends" | "fails-to-send" => {
                let (session, bytes) = session_and(alloc, rest)?;
                tell_bytes(alloc, &mut self.wanted, word, session, bytes.as_slice())
            }
            "closes" => {
                let (digits, reason) = rest.split_once(' ').unwrap_or((rest, ""));
                tell(alloc, &mut self.wanted, word, number_of(digits)?, reason)
            }
            _ => Err(Slip::UnknownWord),
        }
    }

    fn add(&mut self, what: Happening) -> Result<(), Slip> {
        let now = self.now;
        self.moments.push(Moment { now, what })?;
        Ok(())
    }

    /// Puts what happens on a board, behind what is there, and lets its calls fail.
    pub(crate) fn put_on(&self, alloc: Global, board: &mut ScriptBoard) -> Result<(), Slip> {
        for moment in &self.moments {
            board.add(event_of(alloc, moment)?)?;
        }
        for call in &self.failing.calls {
            board.fail_at(*call)?;
        }
        Ok(())
    }
}

// A session's number, and the bytes behind it.
fn session_and(alloc: Global, text: &str) -> Result<(u64, Vec<u8>), Slip> {
    let (digits, groups) = text.split_once(' ').unwrap_or((text, ""));
    let session = number_of(digits)?;
    let bytes = bytes_of(alloc, groups)?;
    Ok((session, bytes))
}

fn event_of(alloc: Global, moment: &Moment) -> Result<Event, Slip> {
    let what = match &moment.what {
        Happening::Opened(session) => What::Opened(Session(*session)),
        Happening::Received(session, bytes) => {
            What::Received(Session(*session), Blob8::copy_of(alloc, bytes.as_slice())?)
        }
        Happening::Closed(session) => What::Closed(Session(*session)),
        Happening::Idle => What::Idle,
    };
    let now = moment.now;
    Ok(Event { now, what })
}

/// What a board was told, a line for each send and close.
pub(crate) fn told_to(alloc: Global, board: &ScriptBoard) -> Result<String, Slip> {
    let mut lines = String::new(alloc);
    for sent in board.sent() {
        match sent {
            Sent::Message { to, bytes, failed } => {
                let word = if *failed { "fails-to-send" } else { "sends" };
                tell_bytes(alloc, &mut lines, word, to.0, bytes.as_slice())?;
            }
            Sent::Close { to, reason } => {
                let reason = str::from_utf8(reason.as_slice()).unwrap_or("");
                tell(alloc, &mut lines, "closes", to.0, reason)?;
            }
        }
    }
    Ok(lines)
}

fn tell_bytes(
    alloc: Global,
    lines: &mut String,
    word: &str,
    session: u64,
    bytes: &[u8],
) -> Result<(), Slip> {
    let digits = hex::encode(alloc, bytes)?;
    tell(alloc, lines, word, session, digits.as_str())
}

fn tell(
    alloc: Global,
    lines: &mut String,
    word: &str,
    session: u64,
    rest: &str,
) -> Result<(), Slip> {
    let line = format!(in alloc; "{word} {session} {rest}\n")?;
    lines.push_str(line.as_str())?;
    Ok(())
}
