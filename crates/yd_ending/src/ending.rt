//! How a run ends: its status, and its line on err.

ghost use Rattle.std.specs.Prelude.{◌≡◌, ◌≢◌, ◌⊎◌, Err, IsOk, OnErr, OnOk};
ghost use Rattle.yd_world.specs.Faults.{Rose};
ghost use Rattle.yd_ending.specs.Ending.{line_of, status_of};
ghost use Rattle.yd_ending.specs.Writing.{TakesAll, TakesFront, TakesPart, CountsFault};

use crate::refusal::tell_refusal;
use crate::status;
use crate::stop::Stop;
use crate::writing::write_line;
use yd_world::{Outage, Sink};

/// How the program is used.
const USAGE: &str = "usage: ydoc show|merge|cut|vector|convert|edit|serve|sync|check|generate|pack";

/// Writes the ending's line, and answers the status. Where memory ends before the line does, the
/// status says so; a fault of err changes none.
pub fn report<S: Sink>(ending: Result<(), Stop<'_>>, err: &mut S) -> u8
    ensures status { (result ≡ status_of ending.entry)
        ⊎ ((result ≡ 5) × (status_of ending.entry ≢ 0)) }
    ensures silent { status_of ending.entry ≡ 0 → err.new ≡ err.old }
    ensures front { TakesFront (S.bytes_taken err.old) (S.bytes_taken err.new)
        (line_of ending.entry) }
    ensures whole { result ≢ 5
        → TakesAll (S.bytes_taken err.old) (S.bytes_taken err.new) (line_of ending.entry)
        ⊎ Rose (S.faults err.old) (S.faults err.new) }
    ensures short { result ≢ status_of ending.entry
        → TakesPart (S.bytes_taken err.old) (S.bytes_taken err.new) (line_of ending.entry)
        × (S.faults err.new ≡ S.faults err.old) }
{
    match tell(ending, err) {
        Err(Outage::NoMemory) => status::NO_MEMORY,
        _ => status_of_ending(ending),
    }
}

fn tell<S: Sink>(ending: Result<(), Stop<'_>>, err: &mut S) -> Result<(), Outage>
    ensures silent { status_of ending.entry ≡ 0 → IsOk result × (err.new ≡ err.old) }
    ensures whole { OnOk result (TakesAll (S.bytes_taken err.old) (S.bytes_taken err.new)
        (line_of ending.entry)) }
    ensures part { OnErr result (TakesPart (S.bytes_taken err.old) (S.bytes_taken err.new)
        (line_of ending.entry)) }
    ensures cause { CountsFault (S.faults err.old) (S.faults err.new) result }
{
    match ending {
        Ok(()) => Ok(()),
        Err(stop) => tell_stop(stop, err),
    }
}

fn tell_stop<S: Sink>(stop: Stop<'_>, err: &mut S) -> Result<(), Outage>
    ensures whole { OnOk result (TakesAll (S.bytes_taken err.old) (S.bytes_taken err.new)
        (line_of (Err stop.entry))) }
    ensures part { OnErr result (TakesPart (S.bytes_taken err.old) (S.bytes_taken err.new)
        (line_of (Err stop.entry))) }
    ensures cause { CountsFault (S.faults err.old) (S.faults err.new) result }
{
    match stop {
        Stop::Usage => write_line(err, USAGE, "", "\n"),
        Stop::Refused(refusal) => tell_refusal(err, refusal),
        Stop::ReadFault(file) => write_line(err, "read fault ", file.name, "\n"),
        Stop::TooLarge(file) => write_line(err, "limit ", file.name, " TooLarge\n"),
        Stop::NoMemory => write_line(err, "no memory", "", "\n"),
        Stop::WriteFault => write_line(err, "write fault", "", "\n"),
        Stop::LinkFault => write_line(err, "link fault", "", "\n"),
        Stop::NoStep2 => write_line(err, "no step 2", "", "\n"),
    }
}

fn status_of_ending(ending: Result<(), Stop<'_>>) -> u8
    ensures { result ≡ status_of ending.entry }
{
    match ending {
        Ok(()) => status::DONE,
        Err(Stop::Refused(_)) => status::REFUSED,
        Err(Stop::Usage) => status::WRONG_USE,
        Err(Stop::ReadFault(_)) => status::READ_FAULT,
        Err(Stop::WriteFault) => status::WRITE_FAULT,
        Err(Stop::NoMemory) => status::NO_MEMORY,
        Err(Stop::LinkFault) => status::LINK_FAULT,
        Err(Stop::TooLarge(_)) => status::TOO_LARGE,
        Err(Stop::NoStep2) => status::NO_STEP_2,
    }
}
