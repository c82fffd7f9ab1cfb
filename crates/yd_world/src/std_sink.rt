//! The system's two output streams.

ghost use Rattle.std.specs.Prelude.{◌≡◌, ◌≤◌, None, length, IfErr, IfOk};
ghost use Rattle.yd_world.specs.Plan.{counted_fault};
ghost use Rattle.yd_world.specs.StdSink.{is_fault};

use crate::fault::Outage;
use crate::plan::one_more;
use crate::sink::Sink;
use std::io::{Stderr, Stdout, Write};
use std::marker::Model;

/// One of the system's two output streams, seen as the count of faults. It tells nothing of the
/// bytes (own).
#[derive(Drop)]
pub struct StdSink {
    stream: Stream,
    faults: u64,
}

#[derive(Drop)]
enum Stream {
    Out(Stdout),
    Err(Stderr),
}

impl Model for StdSink {
    ghost use Rattle.std.specs.Prelude.{ℕ};

    ghost Value = { ℕ };

    ghost view = { λ s. s.faults };
}

impl StdSink {
    /// The standard output, with no fault.
    pub fn out(rt: &HostRuntime) -> Self
        ensures { result ≡ 0 }
    {
        StdSink {
            stream: Stream::Out(rt.stdout()),
            faults: 0,
        }
    }

    /// The standard error, with no fault.
    pub fn err(rt: &HostRuntime) -> Self
        ensures { result ≡ 0 }
    {
        StdSink {
            stream: Stream::Err(rt.stderr()),
            faults: 0,
        }
    }
}

impl Sink for StdSink {
    ghost bytes_taken = { λ _. None };

    ghost faults = { λ s. s };

    ghost is_calm = { λ _. ⊥ };

    fn write(&mut self, piece: &[u8]) -> Result<usize, Outage>
        ensures within { IfOk result (λ count. count ≤ length piece.now) }
        ensures counts { self.new ≡ counted_fault self.old (is_fault piece.now result) }
        ensures fails { IfErr result (λ e. e ≡ Outage.Failed) }
    {
        let written = match &mut self.stream {
            Stream::Out(stream) => stream.write(piece),
            Stream::Err(stream) => stream.write(piece),
        };
        match written {
            Err(_) => {
                self.faults = one_more(self.faults);
                Err(Outage::Failed)
            }
            Ok(count) => {
                if count == 0 && !piece.is_empty() {
                    self.faults = one_more(self.faults);
                }
                Ok(count)
            }
        }
    }
}
