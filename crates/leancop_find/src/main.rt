//! `leancop_find`: texts of closed tableaux, found by any strategy. It may miss one.
#![tactic(auto)]

mod answer;
mod words;

use answer::{FindAnswer, answer_words};
use cop_base::FileLibrary;
use std::io::{self, Write};
use std::process::ExitCode;
use std::rt::Env;
use words::read_words;

// The bytes of the answer, and its exit status.
fn put<W: Write>(out: &mut W, told: &FindAnswer) -> u8 {
    match out.write_all(told.output.as_slice()) {
        Ok(()) => told.code,
        Err(_) => 6,
    }
}

fn main(rt: HostRuntime) -> ExitCode {
    let code = match read_words(&rt) {
        Err(_) => 7,
        Ok(words) => {
            let mut library = FileLibrary::new(rt.alloc(), &rt);
            match answer_words(rt.alloc(), &words, &mut library) {
                Err(_) => 7,
                Ok(told) => put(&mut io::writer(&rt), &told),
            }
        }
    };
    ExitCode::from(code)
}
