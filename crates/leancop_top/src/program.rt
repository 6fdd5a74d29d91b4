//! A run of the program.

ghost use Rattle.std.specs.Prelude.{◌≡◌, ◌≤◌, IfOk, IsTrue, List, Ok, Option, ℕ};
ghost use Rattle.calculus.specs.ComputedInstances.{ComputesInstances};
ghost use Rattle.calculus.specs.Problems.{is_problem, setting_fits};
ghost use Rattle.calculus.specs.Soundness.{IsSound};
ghost use Rattle.calculus.specs.Syntax as tree;
ghost use Rattle.cop_base.specs.Outside.{Files, Rose};
ghost use Rattle.cop_base.specs.Reads.{AgreesSince, ReadsOn};
ghost use Rattle.cop_sink.specs.Output.{WentOutInPieces};
ghost use Rattle.command_line.specs.CommandLine.{asked};
ghost use Rattle.leancop_top.specs.Laws.{IsCharacterised, IsIndependent};
ghost use Rattle.leancop_top.specs.Run.{Decides, Ends, IsAnswered, IsCutOff};
ghost use Rattle.leancop_top.specs.Statuses.{IsCounted, OnAnswer};
ghost use Rattle.problem_build.specs.Building.{IsProblemOf};
ghost use Rattle.problem_build.specs.Fetching.{ReadsOnly};
ghost use Rattle.source_theory.specs.Following.{MeansItems};
ghost use Rattle.leancop_top.specs.Opening.{MayRead};

use crate::inputs::read_task;
use crate::performing::perform;
use crate::reply::Reply;
use crate::status::Status;
use crate::writing::put_all;
use cop_base::{Library, NoMemory};
use cop_sink::{PutFault, Sink};
use std::alloc::Global;

// A fault of the sink is told as one.
fn status_of(fault: PutFault) -> Status
    ensures { result ≡ Status.WriteFault }
{
    match fault {
        PutFault::Failed => Status::WriteFault,
    }
}

fn answer<L: Library>(alloc: Global, words: &[String], lib: &mut L) -> Result<Reply, NoMemory>
    ensures same_files { L.holds lib.new ≡ L.holds lib.old }
    ensures more_faults { L.faults lib.old ≤ L.faults lib.new }
    ensures more_misses { L.misses lib.old ≤ L.misses lib.new }
    ensures reads_on { ReadsOn (L.holds lib.old) (L.reads lib.old) (L.reads lib.new) }
    ensures reads_only { (files : Files) → AgreesSince files (L.reads lib.old) (L.reads lib.new)
        → ReadsOnly (MayRead files (asked words.now)) (L.reads lib.old) (L.reads lib.new) }
    ensures ends { (told : Option Files) → ReadsOn told (L.reads lib.old) (L.reads lib.new)
        → IfOk result (λ r. Ends told (asked words.now) r.status r.output.items) }
    ensures counted { IfOk result (λ r. IsCounted
        (L.misses lib.old) (L.misses lib.new) (L.faults lib.old) (L.faults lib.new)
        (L.reads lib.new) r.status) }
{
    let task = read_task(alloc, words, lib)?;
    perform(alloc, task)
}

/// Does all that the program does. `words` are the words after the program's own name. The whole
/// output is built before the first byte is written.
#[tactic(auto, using(calculus::proofs::CasesLaws::computes_instances, calculus::proofs::SoundnessLaws::sound, crate::proofs::Laws::characterised, crate::proofs::Laws::independent, source_theory::proofs::FollowingLaws::means_items))]
pub fn run<L: Library, K: Sink>(
    alloc: Global,
    words: &Vec<String>,
    lib: &mut L,
    out: &mut K,
) -> Status
    // Of every map of files that agrees with what this run read; so of the files that the library
    // tells, which agree by `reads_on` (the law `for-told`).
    ensures agreeing { (told : Option Files) → ReadsOn told (L.reads lib.old) (L.reads lib.new)
        → OnAnswer result (IsAnswered told (asked words.now.items) result
        (K.written out.old) (K.written out.new)) }
    ensures agreeing_cut_off { (told : Option Files)
        → ReadsOn told (L.reads lib.old) (L.reads lib.new)
        → result ≡ Status.WriteFault → IsCutOff told (asked words.now.items)
        (L.misses lib.old) (L.misses lib.new) (L.faults lib.old) (L.faults lib.new)
        (L.reads lib.new) (K.written out.old) (K.written out.new) }
    // Where no file fails, what the words ask for is decided, unless memory ends or the sink fails.
    ensures agreeing_decided { (told : Option Files)
        → ReadsOn told (L.reads lib.old) (L.reads lib.new)
        → ¬ Rose (L.faults lib.old) (L.faults lib.new)
        → OnAnswer result (Decides told (asked words.now.items) result) }
    // No other files are read than the problem's, by the walk over its includes, and that of the
    // second operand; none for bad words and for a problem that is generated.
    ensures reads_only { (files : Files) → AgreesSince files (L.reads lib.old) (L.reads lib.new)
        → ReadsOnly (MayRead files (asked words.now.items)) (L.reads lib.old) (L.reads lib.new) }
    ensures reads_on { ReadsOn (L.holds lib.old) (L.reads lib.old) (L.reads lib.new) }

    // A file that is missing or could not be read was counted, and so was a fault of the sink.
    ensures counted { IsCounted
        (L.misses lib.old) (L.misses lib.new) (L.faults lib.old) (L.faults lib.new)
        (L.reads lib.new) result }
    ensures write_fault { result ≡ Status.WriteFault → Rose (K.faults out.old) (K.faults out.new) }
    ensures no_memory { result ≡ Status.NoMemory → K.written out.new ≡ K.written out.old }

    // All goes out in pieces of 4,096 bytes, the last one as short as what is left.
    ensures pieces { WentOutInPieces 4096 (K.puts out.old) (K.puts out.new) }

    // No file changes, and no count falls.
    ensures same_files { L.holds lib.new ≡ L.holds lib.old }
    ensures more_misses { L.misses lib.old ≤ L.misses lib.new }
    ensures more_faults { L.faults lib.old ≤ L.faults lib.new }
    ensures more_put_faults { K.faults out.old ≤ K.faults out.new }

    // Laws over the definitions, which hold of them whatever the body does: what has a derivation,
    // or is accepted, is true at the root of each structure of its setting, in any logic, so a
    // formula that a finite structure makes false has none; and the clauses of tableaux are the
    // instances that the rules define by cases.
    ensures sound { (P : tree.Problem) → IsTrue (is_problem P) → IsSound P }
    // Some tableau is closed within some limit exactly where some instances span, and where there
    // is a derivation; and the bounds of a search decide nothing but what is reached.
    ensures characterised { (P : tree.Problem) → IsTrue (is_problem P) → IsCharacterised P }
    ensures independent { (P : tree.Problem) → IsIndependent P }
    ensures instances { (P : tree.Problem) → ComputesInstances P }
    // Where the formula of a problem of files is true in a structure in which `=` is identity, the
    // conjecture follows there from the premises as the items state them.
    ensures means_items { (files : Files) (name root : List ℕ) (setting : tree.Setting) (P : tree.Problem)
        → IsTrue (setting_fits P.setting.logic P.setting.domains)
        → IsProblemOf files name root setting (Ok P) → MeansItems ℕ ℕ files name root P }
{
    match answer(alloc, words.as_slice(), lib) {
        Ok(reply) => match put_all(out, reply.output.as_slice()) {
            Ok(()) => reply.status,
            Err(fault) => status_of(fault),
        },
        Err(NoMemory) => Status::NoMemory,
    }
}
