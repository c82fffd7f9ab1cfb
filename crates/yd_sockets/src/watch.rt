//! The moments of events.

ghost use Rattle.std.specs.Prelude.{◌≡◌, ◌≤◌, ◌/◌, min, is_some, None};
ghost use Rattle.std.specs.Duration.{as_nanos};

use std::time::{Clock, Duration, Instant};

/// A clock that goes from its start on, in milliseconds.
#[derive(Clone, Copy)]
pub struct Watch {
    start: Option<Instant>,
    moment: u64,
}

impl Watch {
    /// A watch that does not go yet.
    pub fn new() -> Watch
        ensures { result ≡ record { start = None; moment = 0 } }
    {
        Watch {
            start: None,
            moment: 0,
        }
    }

    /// Whether the watch was started.
    pub fn is_started(&self) -> bool
        ensures { result ≡ is_some self.now.start }
    {
        self.start.is_some()
    }

    /// Starts the watch at 0, if the system tells the time.
    pub fn start<C: Clock>(&mut self, clock: &C) -> bool
        ensures started { result ≡ is_some self.new.start }
        ensures moment { self.new.moment ≡ self.old.moment }
    {
        self.start = Instant::now(clock).ok();
        self.start.is_some()
    }

    /// The moment now. It never goes back, and it stays where the system does not tell the time.
    pub fn moment<C: Clock>(&mut self, clock: &C) -> u64
        ensures forward { self.old.moment ≤ result }
        ensures kept { self.new ≡ record self.old { moment = result } }
    {
        if let Some(start) = self.start
            && let Ok(elapsed) = start.elapsed(clock)
        {
            self.moment = self.moment.max(milliseconds(elapsed));
        }
        self.moment
    }
}

/// A duration in whole milliseconds, at most 2^64-1.
pub fn milliseconds(duration: Duration) -> u64
    ensures { result ≡ min (as_nanos duration / 1_000_000) 18_446_744_073_709_551_615 }
{
    duration.as_millis().min(u64::MAX as u128) as u64
}
