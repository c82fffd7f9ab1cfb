//! How fast the store is, beside plain vectors that do as much of the work as a vector can.
//!
//! With no word it does each job with few runs, and prints what comes of it. `yd_store_speed JOB COUNT`
//! does one job with so many runs, and prints its time too, in microseconds. What is made before, as
//! the list of which a job reads, is not counted. Without memory or clock the status is 5, and for
//! other words it is 2.
#![tactic(auto)]

mod building;
mod crowd;
mod splits;
mod typed;

use std::process::ExitCode;
use std::time::{Clock, Duration};
use std::{env, io};

/// A job, which answers a count and the time that it took.
#[derive(Clone, Copy)]
enum Job {
    Typed,
    Pushed,
    Walk,
    Pass,
    Splits,
    Inserts,
    Crowd,
    Rows,
}

/// The jobs by their words.
const JOBS: [(&str, Job); 8] = [
    ("typed", Job::Typed),
    ("pushed", Job::Pushed),
    ("walk", Job::Walk),
    ("pass", Job::Pass),
    ("splits", Job::Splits),
    ("inserts", Job::Inserts),
    ("crowd", Job::Crowd),
    ("rows", Job::Rows),
];

/// With how many runs each job is done where no word is given.
const FEW: u64 = 50;

fn main(rt: HostRuntime) -> io::Result<ExitCode> {
    let mut words = Vec::new(rt.alloc());
    for word in env::args(&rt)?.skip(1) {
        if words.push(word).is_err() {
            return Ok(ExitCode::from(5));
        }
    }
    match words.as_slice() {
        [] => do_all(&rt),
        [name, count] => do_one(&rt, name.as_str(), count.as_str()),
        _ => Ok(ExitCode::from(2)),
    }
}

/// Does each job with few runs.
fn do_all(rt: &(impl Clock + Print + AllocGlobal)) -> io::Result<ExitCode> {
    for (name, job) in JOBS {
        let Some((result, _)) = done(rt, job, FEW) else {
            return Ok(ExitCode::from(5));
        };
        println!(rt; "{name} {FEW}: {result}")?;
    }
    Ok(ExitCode::from(0))
}

/// Does one job.
fn do_one(
    rt: &(impl Clock + Print + AllocGlobal),
    name: &str,
    count: &str,
) -> io::Result<ExitCode> {
    let Ok(count) = count.parse::<u64>() else {
        return Ok(ExitCode::from(2));
    };
    for (word, job) in JOBS {
        if word == name {
            let Some((result, took)) = done(rt, job, count) else {
                return Ok(ExitCode::from(5));
            };
            println!(rt; "{name} {count}: {result} {}", took.as_micros())?;
            return Ok(ExitCode::from(0));
        }
    }
    Ok(ExitCode::from(2))
}

/// Does a job.
fn done(rt: &(impl Clock + AllocGlobal), job: Job, count: u64) -> Option<(usize, Duration)> {
    match job {
        Job::Typed => typed::typed(rt, count),
        Job::Pushed => typed::pushed(rt, count),
        Job::Walk => typed::walk(rt, count),
        Job::Pass => typed::pass(rt, count),
        Job::Splits => splits::splits(rt, count),
        Job::Inserts => splits::inserts(rt, count),
        Job::Crowd => crowd::crowd(rt, count),
        Job::Rows => crowd::rows(rt, count),
    }
}
