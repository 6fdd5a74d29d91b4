//! The words of a run. All but `--strategy=` are those of `leancop tableau`.

use cop_base::NoMemory;
use std::alloc::Global;
use std::rt::Env;
use std::{env, io};

/// The words that `leancop tableau` takes, behind its name, and the number of the strategy, or 0 for all.
#[derive(Drop)]
pub struct Words {
    pub words: Vec<String>,
    pub strategy: u32,
}

/// The words behind the program's name, with `tableau` before them. A strategy that there is not stays among them, where
/// it is a bad word.
pub fn read_words<R: Env + AllocGlobal>(rt: &R) -> io::Result<Words> {
    let mut words = Vec::new(rt.alloc());
    let mut strategy = 0;
    words.push(String::from_str(rt.alloc(), "tableau")?)?;
    for word in env::args(rt)?.skip(1) {
        match strategy_of(word.as_str()) {
            0 => words.push(word)?,
            number => strategy = number,
        }
    }
    Ok(Words { words, strategy })
}

// The number of the strategy that a word asks for, or 0.
fn strategy_of(word: &str) -> u32 {
    match word {
        "--strategy=1" => 1,
        "--strategy=2" => 2,
        "--strategy=3" => 3,
        "--strategy=4" => 4,
        "--strategy=5" => 5,
        "--strategy=6" => 6,
        "--strategy=7" => 7,
        "--strategy=8" => 8,
        "--strategy=9" => 9,
        _ => 0,
    }
}
