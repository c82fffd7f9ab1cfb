//! What is under a stream: bytes come on it, and bytes go.

ghost use Rattle.std.specs.Prelude.{◌≡◌, ℕ, List, Option, None};
ghost use Rattle.std.specs.Io.{ReadsAtMost, WritesAtMost};
ghost use Rattle.yd_lines.specs.Flow.{Comes, Goes};

use std::io;
use std::io::{Read, Write};

/// A connection under a stream. What comes on it has nothing to do with what goes.
pub trait Link {
    /// The bytes that are to come, where they are known.
    ghost coming: { Self → Option (List ℕ) };

    /// The bytes that went, where they are known.
    ghost gone: { Self → Option (List ℕ) };

    /// Takes some bytes that came, at most as many as `buf` has. An error takes none.
    fn receive(&mut self, buf: &mut [u8]) -> io::Result<usize>
        ensures bound { ReadsAtMost result buf.new }
        ensures comes { Comes (coming self.old) (coming self.new) result buf.new }
        ensures kept { gone self.new ≡ gone self.old };

    /// Lets a front of the piece go, and answers how many bytes it is, at most all. An error lets
    /// none go.
    fn put(&mut self, piece: &[u8]) -> io::Result<usize>
        ensures bound { WritesAtMost result piece.now }
        ensures goes { Goes (gone self.old) (gone self.new) result piece.now }
        ensures kept { coming self.new ≡ coming self.old };

    /// Sees that nothing that was put is kept back. An error leaves what went; of what is to come
    /// nothing is said.
    fn flush(&mut self) -> io::Result<()>
        ensures kept { gone self.new ≡ gone self.old };
}

/// A connection of the system, which tells nothing.
#[derive(Drop)]
pub struct Wire<S>(pub S);

impl<S: Read + Write> Link for Wire<S> {
    ghost coming = { λ _. None };

    ghost gone = { λ _. None };

    fn receive(&mut self, buf: &mut [u8]) -> io::Result<usize> {
        self.0.read(buf)
    }

    fn put(&mut self, piece: &[u8]) -> io::Result<usize> {
        self.0.write(piece)
    }

    fn flush(&mut self) -> io::Result<()> {
        self.0.flush()
    }
}
