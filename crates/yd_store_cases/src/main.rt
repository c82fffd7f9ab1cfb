//! What a store makes of worked cases, a line for each case: its first list, and then its second one,
//! where that is not empty. Runs are parted by `|`, deleted units stand in brackets, and `-` is a unit
//! of which only its neighbours are known. `<` and `>` are the halves of a pair, and `#` is U+FFFD.
//! Behind them stands how many units are live, and of some ids what the store tells. The stored output was worked out by hand, from Yjs's own rule.
//!
//! A change that finds no memory is made once more, and then `again` is said on err. Where a list, the
//! next clocks or a mark is not as before it, the status is 6. Without memory for the rest it is 5.
#![tactic(auto)]

mod cases;
mod changing;
mod playing;
mod step;
mod telling;

use crate::cases::{CUTS, JOINS, LOSSES, SCANS};
use crate::playing::{Retries, play_case};
use std::process::ExitCode;
use yd_world::{Sink, StdSink};

fn main(rt: HostRuntime) -> ExitCode {
    let mut retries = Retries {
        some: false,
        wrong: false,
    };
    let mut lines = Vec::new(rt.alloc());
    for case in CUTS.iter().chain(&JOINS).chain(&LOSSES).chain(&SCANS) {
        if play_case(rt.alloc(), case, &mut lines, &mut retries).is_err() {
            return ExitCode::from(5);
        }
    }
    if retries.wrong {
        return ExitCode::from(6);
    }
    if retries.some {
        let _ = StdSink::err(&rt).write(b"again\n");
    }
    let mut out = StdSink::out(&rt);
    match out.write(&lines) {
        Ok(_) => ExitCode::from(0),
        Err(_) => ExitCode::from(4),
    }
}
