//! `yd_cases FILE.. [--to-fail FILE..]` plays the cases of files through the program, and prints
//! for each file how many pass. What is not as it is wanted is told on err, and for the files behind
//! `--to-fail` on out. It ends with status 0 where all cases of the first files pass, and each file
//! behind `--to-fail` has a slip or a case that fails. `docs/CASES.md` says how cases are written.
#![tactic(auto)]

mod bytes;
mod case;
mod case_file;
mod failing;
mod fronts;
mod network;
mod order;
mod playing;
mod report;
mod slip;
mod stored;

use crate::case_file::CaseFile;
use crate::playing::play_case;
use crate::report::Report;
use crate::slip::Fault;
use std::alloc::Global;
use std::fmt::Display;
use std::process::ExitCode;
use std::rt::Files;
use std::{env, fs, io};

fn main(rt: HostRuntime) -> io::Result<ExitCode> {
    let mut is_to_fail = false;
    let mut files = 0u64;
    let mut is_as_wanted = true;
    for word in env::args(&rt)?.skip(1) {
        if word.as_str() == "--to-fail" {
            is_to_fail = true;
        } else {
            files = files.saturating_add(1);
            is_as_wanted &= passes(&rt, word.as_str(), is_to_fail)? != is_to_fail;
        }
    }
    Ok(ExitCode::from(u8::from(!is_as_wanted || files == 0)))
}

// Whether all cases of the file pass.
fn passes(
    rt: &(impl Files + Print + Eprint + AllocGlobal),
    name: &str,
    is_to_fail: bool,
) -> io::Result<bool> {
    let text = fs::read_to_string(rt, name)?;
    match play(rt.alloc(), text.as_str()) {
        Ok(report) => {
            for line in &report.lines {
                tell(rt, is_to_fail, format_args!("{name}: {line}"))?;
            }
            let (cases, passed, runs) = (report.cases, report.passed, report.runs);
            println!(rt; "{name}: {passed} of {cases} cases pass, in {runs} runs")?;
            Ok(passed == cases)
        }
        Err(fault) => {
            tell(rt, is_to_fail, format_args!("{name}: {fault}"))?;
            Ok(false)
        }
    }
}

// Tells what is wrong: on out where it is wanted, so that it can be compared, and else on err.
fn tell(rt: &(impl Print + Eprint), is_to_fail: bool, what: impl Display + Drop) -> io::Result<()> {
    if is_to_fail {
        rt.println(what)
    } else {
        rt.eprintln(what)
    }
}

// Plays all cases of a file.
fn play(alloc: Global, text: &str) -> Result<Report, Fault> {
    let file = CaseFile::read(alloc, text)?;
    let mut report = Report::new(alloc);
    for case in &file.cases {
        if let Err(slip) = play_case(alloc, &file, case, &mut report) {
            let line = case.line;
            return Err(Fault { line, slip });
        }
    }
    Ok(report)
}
