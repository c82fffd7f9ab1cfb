//! A stream whose writes go on where they would block, and which keeps what comes meanwhile.

ghost use Rattle.std.specs.Prelude.{◌≡◌, ◌≢◌, ◌+◌, ◌≤◌, ◌++◌, [], length, true, false, is_err, IfErr, IsErr, OnOk};
ghost use Rattle.std.specs.Io.{WritesAtMost};
ghost use Rattle.std.specs.Io.KnownBytes.{WriteAppends};
ghost use Rattle.std.specs.IoError.{error_kind};
ghost use Rattle.yd_lines.specs.Flow.{Goes, all_to_come};

use crate::held::Held;
use crate::link::Link;
use std::alloc::Global;
use std::io;
use std::io::{ErrorKind, Read, Write};

/// After so many rounds in which no byte moved, a write is given up.
const MOST_STILL: u32 = 1_000_000;

/// How many bytes are read at once while a write would block.
const CHUNK: usize = 4096;

/// A stream under a socket. A write of it never stops half-way because the stream would block; what
/// comes meanwhile is kept, at most 67,108,864 bytes, and later reads give it first. Once a write
/// failed, all later ones fail at once.
#[derive(Drop)]
pub struct Stream<L> {
    inner: L,
    held: Held,
    has_moved: bool,
    is_broken: bool,
}

impl<L> Stream<L> {
    /// The stream, with nothing kept.
    pub fn new(alloc: Global, inner: L) -> Stream<L>
        ensures kept { result.held ≡ [] }
        ensures below { result.inner ≡ inner }
        ensures whole { result.is_broken ≡ false }
    {
        Stream {
            inner,
            held: Held::new(alloc),
            has_moved: false,
            is_broken: false,
        }
    }

    /// The stream below.
    pub fn inner(&self) -> &L
        ensures { result.now ≡ self.now.inner }
    {
        &self.inner
    }

    /// Whether bytes came since this was last asked.
    pub fn take_moved(&mut self) -> bool
        ensures kept { self.new ≡ record self.old { has_moved = false } }
        ensures told { result ≡ self.old.has_moved }
    {
        let has_moved = self.has_moved;
        self.has_moved = false;
        has_moved
    }

    // Keeps these bytes, and tells whether there are any.
    fn keep(&mut self, bytes: &[u8]) -> io::Result<bool>
        requires { length self.old.held + length bytes.now ≤ 67108864 }
        ensures added { OnOk result (self.new.held ≡ self.old.held ++ bytes.now) }
        ensures below { self.new.inner ≡ self.old.inner }
        ensures failed { IfErr result (λ e. error_kind e ≢ ErrorKind.WouldBlock) }
    {
        if self.held.add(bytes).is_err() {
            return Err(io::Error::from(ErrorKind::OutOfMemory));
        }
        self.has_moved = true;
        Ok(!bytes.is_empty())
    }
}

impl<L: Link> Stream<L> {
    // Keeps what has come, if there is room, and tells whether something came.
    fn hold(&mut self) -> io::Result<bool>
        ensures kept { OnOk result (all_to_come self.new.held (L.coming self.new.inner)
            ≡ all_to_come self.old.held (L.coming self.old.inner)) }
        ensures gone { L.gone self.new.inner ≡ L.gone self.old.inner }
        ensures failed { IfErr result (λ e. error_kind e ≢ ErrorKind.WouldBlock) }
    {
        // The memory is found first, so that no byte is lost where there is none.
        let room = match self.held.make_room() {
            Ok(room) => room,
            Err(_) => return Err(io::Error::from(ErrorKind::OutOfMemory)),
        };
        if room == 0 {
            return Ok(false);
        }
        let mut chunk = [0u8; CHUNK];
        match self.inner.receive(&mut chunk[..room]) {
            Ok(count) => self.keep(&chunk[..count]),
            Err(error) => match error.kind() {
                ErrorKind::WouldBlock => Ok(false),
                _ => Err(error),
            },
        }
    }

    // Writes some of the piece, in as many rounds as it takes.
    fn write_patiently(&mut self, piece: &[u8]) -> io::Result<usize>
        ensures bound { WritesAtMost result piece.now }
        ensures goes { Goes (L.gone self.old.inner) (L.gone self.new.inner) result piece.now }
        ensures kept { OnOk result (all_to_come self.new.held (L.coming self.new.inner)
            ≡ all_to_come self.old.held (L.coming self.old.inner)) }
        ensures failed { IfErr result (λ e. error_kind e ≢ ErrorKind.WouldBlock) }
    {
        let mut still = 0;
        for _ in 0..u64::MAX {
            match self.inner.put(piece) {
                Ok(count) => return Ok(count),
                Err(error) => match error.kind() {
                    ErrorKind::WouldBlock => {}
                    _ => return Err(error),
                },
            }
            if self.hold()? {
                still = 0;
            } else if still < MOST_STILL {
                still += 1;
            } else {
                return Err(io::Error::from(ErrorKind::TimedOut));
            }
        }
        Err(io::Error::from(ErrorKind::TimedOut))
    }
}

impl<L: Link> Read for Stream<L> {
    ghost use Rattle.yd_lines.specs.Flow.{all_to_come};

    ghost remaining = { λ s. all_to_come s.held (L.coming s.inner) };

    fn read(&mut self, buf: &mut [u8]) -> io::Result<usize> {
        if !self.held.is_empty() {
            let count = self.held.take(buf);
            self.held.let_go();
            return Ok(count);
        }
        let count = self.inner.receive(buf)?;
        self.has_moved = true;
        Ok(count)
    }
}

impl<L: Link> Write for Stream<L> {
    ghost contents = { λ s. L.gone s.inner };

    #[tactic(auto, using(crate::proofs::FlowLemmas::appends_what_goes))]
    fn write(&mut self, piece: &[u8]) -> io::Result<usize>
        ensures bound { WritesAtMost result piece.now }
        ensures appended { WriteAppends (L.gone self.old.inner) (L.gone self.new.inner) result piece.now }
        ensures kept { OnOk result (all_to_come self.new.held (L.coming self.new.inner)
            ≡ all_to_come self.old.held (L.coming self.old.inner)) }
        ensures failed { IfErr result (λ e. error_kind e ≢ ErrorKind.WouldBlock) }
        ensures broken { self.old.is_broken ≡ true → IsErr result }
        ensures breaks { self.new.is_broken ≡ is_err result }
    {
        if self.is_broken {
            return Err(io::Error::from(ErrorKind::BrokenPipe));
        }
        let written = self.write_patiently(piece);
        self.is_broken = written.is_err();
        written
    }

    fn flush(&mut self) -> io::Result<()> {
        self.inner.flush()
    }
}
