//! `yd_arrivals LOG` lets an empty replica take the updates of a log one after another, and prints what
//! it tells then. `checks/arrivals.py` compares the lines with those of a plain program.
//!
//! The lines say which client it is; whether each update brought something; how many units and how
//! many deletions wait; the state vector; the delete set; the text of the root `t`; the ids of that
//! list in order, as the replica lends them; the same as its store links them; and which units of the
//! store are types. A deleted id stands behind a `-`.
//!
//! The status is 2 where no log is named, and 5 where it is refused or memory ends.
#![tactic(auto)]

mod telling;

ghost use Rattle.std.specs.Prelude.{map};
ghost use Rattle.yd_words.specs.Each.{Each};
ghost use Rattle.yd_ops.specs.Valid.{IsValidUpdate};
ghost use Rattle.yd_ops.specs.View.{update_value};

use crate::telling::tell;
use std::alloc::Global;
use std::io::{self, Write};
use std::process::ExitCode;
use std::{env, fs};
use yd_doc::Replica;
use yd_ids::Client;
use yd_ops::Update;
use yd_v1::read_log;

fn main(rt: HostRuntime) -> io::Result<ExitCode> {
    let Some(name) = env::args(&rt)?.nth(1) else {
        return Ok(ExitCode::from(2));
    };
    let log = fs::read(&rt, name.as_str())?;
    let Some(lines) = lines_of(rt.alloc(), &log) else {
        return Ok(ExitCode::from(5));
    };
    io::writer(&rt).write_all(&lines)?;
    Ok(ExitCode::from(0))
}

/// The lines of a replica that takes the updates of a log.
fn lines_of(alloc: Global, log: &[u8]) -> Option<Vec<u8>> {
    let Ok(updates) = read_log(alloc, log) else {
        return None;
    };
    let mut replica = Replica::new(alloc, Client(9)).ok()?;
    take_and_tell(alloc, &mut replica, updates.as_slice())
}

/// Lets a replica take the updates, and tells what it has then.
fn take_and_tell(alloc: Global, replica: &mut Replica, updates: &[Update]) -> Option<Vec<u8>>
    requires { Each IsValidUpdate (map update_value updates.now) }
{
    let mut lines = Vec::new(alloc);
    write!(lines, "client {}", replica.client().0).ok()?;
    take_all(replica, updates, &mut lines)?;
    tell(alloc, replica, &mut lines)?;
    Some(lines)
}

/// Takes the updates one after another, and says of each whether it brought something.
fn take_all(replica: &mut Replica, updates: &[Update], lines: &mut Vec<u8>) -> Option<()>
    requires { Each IsValidUpdate (map update_value updates.now) }
{
    write!(lines, "\nbrings ").ok()?;
    for update in updates {
        let brings = replica.apply(update).ok()?;
        lines.push(if brings { b'y' } else { b'n' }).ok()?;
    }
    Some(())
}
