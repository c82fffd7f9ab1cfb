//! `ydoc` shows what stands in Yjs updates and converts them: the program over the system's files
//! and streams. Its words go to `yd_app::run`, which has all promises; what is left here is to take
//! them from the system, and to end with the status that `run` answers.
#![tactic(auto)]

use std::env;
use std::io::ErrorKind;
use std::process::ExitCode;
use yd_app::{NoMemory, Word, run, write_out};
use yd_sockets::{SocketBoard, local_address};
use yd_world::{FileLibrary, StdSink};

fn main(rt: HostRuntime) -> ExitCode {
    let mut library = FileLibrary::new(&rt);
    let mut out = StdSink::out(&rt);
    let mut err = StdSink::err(&rt);
    let mut board = SocketBoard::new(rt.alloc(), &rt);
    let status = match words(&rt) {
        Ok(words) => run(
            rt.alloc(),
            formed(words.as_slice()),
            &mut library,
            &mut out,
            &mut err,
            &mut board,
        ),
        Err(NoMemory) => {
            let _ = write_out(&mut err, b"no memory\n");
            5
        }
    };
    ExitCode::from(status)
}

// The words, or none where a server or a client is asked for at an address that is none of this
// machine: then they are of no form.
fn formed(words: &[Word]) -> &[Word] {
    let [command, address, ..] = words else {
        return words;
    };
    let is_online = command.as_str() == "serve" || command.as_str() == "sync";
    if is_online && local_address(address.as_str()).is_none() {
        return &words[..0];
    }
    words
}

// The words behind the program's name, or none where one is not UTF-8.
fn words(rt: &HostRuntime) -> Result<Vec<Word>, NoMemory> {
    let mut words = Vec::new(rt.alloc());
    match env::args(rt) {
        Ok(arguments) => {
            for argument in arguments.skip(1) {
                let word = Word::copy_of(rt.alloc(), argument.as_str())?;
                if words.push(word).is_err() {
                    return Err(NoMemory);
                }
            }
            Ok(words)
        }
        Err(error) => {
            if error.kind() == ErrorKind::InvalidData {
                Ok(words)
            } else {
                Err(NoMemory)
            }
        }
    }
}
