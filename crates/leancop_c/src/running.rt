//! Runs of the whole program over the caller's words and files.

ghost use Rattle.std.specs.Prelude.{◌≡◌, Some};
ghost use Rattle.command_line.specs.CommandLine.{asked};
ghost use Rattle.cop_base.specs.Outside.{Rose};
ghost use Rattle.leancop_top.specs.Run.{Decides, IsAnswered};
ghost use Rattle.leancop_top.specs.Statuses.{IsCounted, OnAnswer};
ghost use Rattle.leancop_c.specs.GivenFiles.{files_of, words_of};
ghost use Rattle.leancop_c.specs.Ran.{IsRun, IsRunTold, is_lost};

use crate::files::GivenFiles;
use crate::output::Output;
use crate::room::place;
use crate::words::texts_of;
use crate::{LeancopBytes, LeancopFile};
use cop_base::{NoMemory, ReadRecord};
use cop_sink::PutRecord;
use leancop_top::{Status, exit_code, run};
use std::alloc::Global;

// How a run ended, and all that it wrote.
#[derive(Drop)]
struct Run {
    status: Status,
    output: Vec<u8>,
}

// The output could not be written, which in memory is for want of it alone, or memory ended before.
fn is_lost(status: &Status) -> bool
    ensures { result ≡ is_lost status.now }
{
    match status {
        Status::WriteFault | Status::NoMemory => true,
        _ => false,
    }
}

// What a run says of all files that agree with what was read, it says of those that are given.
fn run_given(
    alloc: Global,
    words: &Vec<String>,
    library: &mut GivenFiles<'_>,
    output: &mut Output,
) -> Status
    ensures answered { OnAnswer result (IsAnswered (Some (files_of library.old.files.now))
        (asked words.now.items) result
        (Some output.old.bytes.items) (Some output.new.bytes.items)) }
    ensures decided { ¬ Rose 0 0 → OnAnswer result
        (Decides (Some (files_of library.old.files.now)) (asked words.now.items) result) }
    ensures counted { IsCounted library.old.misses library.new.misses 0 0
        library.new.history.reads result }
{
    run(alloc, words, library, output)
}

fn run_over(alloc: Global, words: &Vec<String>, files: &[LeancopFile<'_>]) -> Run
    ensures { IsRun (files_of files.now) (asked words.now.items) result.status result.output.items }
{
    let mut library = GivenFiles {
        alloc,
        files,
        misses: 0,
        history: ReadRecord::new(),
    };
    let mut output = Output {
        bytes: Vec::new(alloc),
        faults: 0,
        history: PutRecord::new(),
    };
    let status = run_given(alloc, words, &mut library, &mut output);
    if is_lost(&status) {
        return Run {
            status: Status::NoMemory,
            output: Vec::new(alloc),
        };
    }
    Run {
        status,
        output: output.bytes,
    }
}

/// Runs the program, and places its output. The result is its exit status.
pub fn run_words(
    alloc: Global,
    words: &[LeancopBytes<'_>],
    files: &[LeancopFile<'_>],
    room: &mut [u8],
    length: &mut u64,
) -> u32
    ensures { IsRunTold (files_of files.now) (words_of words.now) room.old result room.new length.new }
{
    *length = 0;
    match texts_of(alloc, words) {
        Ok(Some(texts)) => {
            let ran = run_over(alloc, &texts, files);
            place(room, ran.output.as_slice());
            *length = ran.output.len() as u64;
            u32::from(exit_code(&ran.status))
        }
        Ok(None) => 6,
        Err(NoMemory) => 7,
    }
}
