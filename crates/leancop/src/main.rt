//! `leancop`: connection proofs that can be checked apart from their search.
#![tactic(auto)]

use cop_base::FileLibrary;
use cop_sink::WriteSink;
use leancop_top::{Status, exit_code, run};
use std::io::ErrorKind;
use std::process::ExitCode;
use std::rt::Env;
use std::{env, io};

// The words after the program's own name.
fn read_words<R: Env + AllocGlobal>(rt: &R) -> io::Result<Vec<String>> {
    let mut words = Vec::new(rt.alloc());
    for word in env::args(rt)?.skip(1) {
        words.push(word)?;
    }
    Ok(words)
}

// The exit status where the words cannot be read: 6, as for other streams, or that of the end of memory.
fn unread_code(error: &io::Error) -> u8 {
    match error.kind() {
        ErrorKind::OutOfMemory => exit_code(&Status::NoMemory),
        _ => exit_code(&Status::WriteFault),
    }
}

fn main(rt: HostRuntime) -> ExitCode {
    let code = match read_words(&rt) {
        Ok(words) => {
            let mut library = FileLibrary::new(rt.alloc(), &rt);
            let mut sink = WriteSink::new(io::writer(&rt));
            exit_code(&run(rt.alloc(), &words, &mut library, &mut sink))
        }
        Err(error) => unread_code(&error),
    };
    ExitCode::from(code)
}
