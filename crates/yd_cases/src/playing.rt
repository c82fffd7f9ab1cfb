//! Playing a case.

use crate::case::{Case, Run};
use crate::case_file::CaseFile;
use crate::failing::Failing;
use crate::network::told_to;
use crate::order::{orders, put_in_order};
use crate::report::{Report, Wanted};
use crate::slip::Slip;
use crate::stored::{Stored, file_of};
use std::alloc::Global;
use yd_app::Word;
use yd_app::law::run_in_memory;
use yd_world::{MemoryLibrary, MemorySink, ScriptBoard};

/// Plays each run of a case in each of its orders, and reports what is not as it is wanted.
pub(crate) fn play_case(
    alloc: Global,
    shared: &CaseFile<'_>,
    case: &Case<'_>,
    report: &mut Report,
) -> Result<(), Slip> {
    let before = report.mismatches();
    for run in &case.runs {
        for number in 0..orders(run.loose.len()) {
            let words = words_of(alloc, run, number)?;
            play_fronts(alloc, shared, case, &words, report)?;
        }
    }
    report.end_case(report.mismatches() == before);
    Ok(())
}

fn words_of(alloc: Global, run: &Run<'_>, number: usize) -> Result<Vec<Word>, Slip> {
    let mut words = Vec::new(alloc);
    for word in &run.words {
        words.push(Word::copy_of(alloc, word)?)?;
    }
    for word in put_in_order(alloc, run.loose.as_slice(), number)? {
        words.push(Word::copy_of(alloc, word)?)?;
    }
    Ok(words)
}

// Plays words with each front of the case's file, or once where it asks for no fronts.
fn play_fronts(
    alloc: Global,
    shared: &CaseFile<'_>,
    case: &Case<'_>,
    words: &[Word],
    report: &mut Report,
) -> Result<(), Slip> {
    let Some(fronts) = &case.fronts else {
        return play_words(alloc, shared, case, words, None, report);
    };
    let len = file_of(case.files.as_slice(), shared.files.as_slice(), fronts.name)?.len();
    for front in 0..len {
        play_words(alloc, shared, case, words, Some(front), report)?;
    }
    Ok(())
}

fn play_words(
    alloc: Global,
    shared: &CaseFile<'_>,
    case: &Case<'_>,
    words: &[Word],
    front: Option<usize>,
    report: &mut Report,
) -> Result<(), Slip> {
    let mut library = library_of(alloc, shared.files.as_slice(), case, front)?;
    let mut out = sink_of(alloc, &case.out)?;
    let mut err = sink_of(alloc, &case.err)?;
    let mut board = board_of(alloc, shared, case)?;
    // It is `run` over these things, so each case makes both calls.
    let status = run_in_memory(alloc, words, &mut library, &mut out, &mut err, &mut board);
    let wanted_err = err_of(alloc, case, front)?;
    let wanted = Wanted { case, words, front };
    report.expect_status(wanted, status)?;
    report.expect_bytes(wanted, "out", case.wanted_out.as_slice(), out.as_slice())?;
    report.expect_bytes(wanted, "err", wanted_err.as_slice(), err.as_slice())?;
    let told = told_to(alloc, &board)?;
    let wanted_told = case.network.wanted.as_bytes();
    report.expect_bytes(wanted, "network", wanted_told, told.as_bytes())
}

// What happens in each case, and then what happens in this one.
fn board_of(alloc: Global, shared: &CaseFile<'_>, case: &Case<'_>) -> Result<ScriptBoard, Slip> {
    let mut board = ScriptBoard::new(alloc);
    shared.network.put_on(alloc, &mut board)?;
    case.network.put_on(alloc, &mut board)?;
    Ok(board)
}

// The shared files, the case's own in their place, and the front in place of its whole file.
fn library_of(
    alloc: Global,
    shared: &[Stored<'_>],
    case: &Case<'_>,
    front: Option<usize>,
) -> Result<MemoryLibrary, Slip> {
    let mut library = MemoryLibrary::new(alloc);
    for file in shared {
        library.add(file.name, file.bytes.as_slice())?;
    }
    for file in &case.files {
        library.add(file.name, file.bytes.as_slice())?;
    }
    if let (Some(fronts), Some(len)) = (&case.fronts, front) {
        let whole = file_of(case.files.as_slice(), shared, fronts.name)?;
        library.add(fronts.name, &whole[..len.min(whole.len())])?;
    }
    for call in &case.library.calls {
        library.fail_at(*call)?;
    }
    if let Some(most) = case.piece {
        library.piece(most.max(1));
    }
    Ok(library)
}

fn sink_of(alloc: Global, failing: &Failing) -> Result<MemorySink, Slip> {
    let mut sink = MemorySink::new(alloc);
    for call in &failing.calls {
        sink.fail_at(*call)?;
    }
    if let Some(limit) = failing.limit {
        sink.fail_after(limit);
    }
    Ok(sink)
}

// What is wanted on err: of a front, its place stands at the end of the last line.
fn err_of(alloc: Global, case: &Case<'_>, front: Option<usize>) -> Result<Vec<u8>, Slip> {
    let mut bytes = Vec::from_slice(alloc, case.wanted_err.as_slice())?;
    if let (Some(text), Some(fronts), Some(len)) = (case.err_at, &case.fronts, front) {
        for piece in [text, " ", fronts.told_at(len), "\n"] {
            bytes.extend_from_slice(piece.as_bytes())?;
        }
    }
    Ok(bytes)
}
