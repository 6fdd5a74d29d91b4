//! The checker and the whole program for C. `include/leancop.h` declares what is exported.
#![tactic(auto)]

mod faults;
mod files;
mod formula;
mod judging;
mod names;
mod output;
mod room;
mod running;
mod settings;
mod words;

ghost use Rattle.std.specs.Prelude.{◌≡◌, ◌≢◌, ◌↔◌, IsTrue, None};
ghost use Rattle.calculus.specs.ComputedInstances.{ComputesInstances};
ghost use Rattle.calculus.specs.Problems.{is_problem};
ghost use Rattle.calculus.specs.Soundness.{IsSound};
ghost use Rattle.calculus.specs.Syntax as tree;
ghost use Rattle.calculus.specs.declared.fault.CheckFault.{CheckFault};
ghost use Rattle.leancop_c.specs.GivenFiles.{files_of, words_of};
ghost use Rattle.leancop_c.specs.Names.{cause_words, fault_words, padded, prints};
ghost use Rattle.leancop_c.specs.Numbers.{fault_number, refusal_number, setting_numbered};
ghost use Rattle.leancop_c.specs.Ran.{IsRunTold};
ghost use Rattle.leancop_c.specs.Told.{IsAccepted, IsFormula, IsRefused, IsRejectedBy, IsTold, IsWritten};
ghost use Rattle.leancop_top.specs.FaultTexts.{fault_text};
ghost use Rattle.problem_build.specs.Refusals.{Refusal};

use crate::formula::write_canonical;
use crate::judging::judge_texts;
use crate::names::{cause_words, fault_words, named};
use crate::running::run_words;
use std::alloc::Global;

/// Bytes of the caller.
#[repr(C)]
#[derive(Clone, Copy)]
pub struct LeancopBytes<'a> {
    pub bytes: &'a [u8],
}

/// A file of the caller.
#[repr(C)]
#[derive(Clone, Copy)]
pub struct LeancopFile<'a> {
    pub name: LeancopBytes<'a>,
    pub bytes: LeancopBytes<'a>,
}

/// A judgement. `status` is that of the program, `fault` the number of the cause where it is 4 or 8, `line` that of the
/// first fault where it is 8, from 1, and `offset` the byte of the problem where it is 4, from 0, or the greatest number
/// where no place is told. What is reserved is 0.
#[repr(C)]
#[derive(Clone, Copy)]
pub struct LeancopJudgement {
    pub status: u32,
    pub fault: u32,
    pub line: u64,
    pub offset: u64,
    pub reserved: [u64; 4],
}

/// Words, and zeros behind them.
#[repr(C)]
#[derive(Clone, Copy)]
pub struct LeancopName {
    pub text: [u8; 32],
}

/// Judges a derivation of the problem that one text states without includes.
#[unsafe(no_mangle)]
pub extern "C" fn leancop_check(
    alloc: Global,
    logic: u32,
    domains: u32,
    problem: &[u8],
    derivation: &[u8],
    judgement: &mut LeancopJudgement,
)
    ensures told { IsTold (setting_numbered logic domains) problem.now derivation.now judgement.new }

    // By the status: acceptance is the one judgement, and the formula is true at the root of each
    // structure; a rejection is the one judgement, and a refusal the one of the problem.
    ensures accepted { judgement.new.status ≡ 0
        → IsAccepted (setting_numbered logic domains) problem.now derivation.now }
    ensures rejected { judgement.new.status ≡ 8 → IsRejectedBy (setting_numbered logic domains)
        problem.now derivation.now judgement.new.line judgement.new.fault }
    ensures refused { judgement.new.status ≡ 4 → IsRefused (setting_numbered logic domains)
        problem.now 4 judgement.new.offset judgement.new.fault }
    ensures including { judgement.new.status ≡ 6 → IsRefused (setting_numbered logic domains)
        problem.now 6 judgement.new.offset judgement.new.fault }
    ensures no_setting { judgement.new.status ≡ 5 ↔ (setting_numbered logic domains ≡ None) }
{
    *judgement = judge_texts(alloc, logic, domains, problem, derivation);
}

/// The version: 1,000,000 times the first number, 1,000 times the second, and the third.
#[unsafe(no_mangle)]
pub extern "C" fn leancop_version() -> u32
    ensures { result ≡ 1000000 }
{
    1000000
}

/// The words that the program prints for the fault with this number.
#[unsafe(no_mangle)]
#[tactic(auto, using(crate::proofs::NameLaws::fault_printed))]
pub extern "C" fn leancop_fault_name(fault: u32) -> LeancopName
    ensures told { result.text ≡ padded (fault_words fault) }

    // These are the program's words.
    ensures printed { (f : CheckFault) → fault_words (fault_number f) ≡ fault_text f }
{
    named(fault_words(fault))
}

/// The words that the program prints for the cause with this number.
#[unsafe(no_mangle)]
#[tactic(auto, using(crate::proofs::NameLaws::cause_printed))]
pub extern "C" fn leancop_cause_name(cause: u32) -> LeancopName
    ensures told { result.text ≡ padded (cause_words cause) }

    // These are the program's words; a missing file is told without a cause.
    ensures printed { (r : Refusal) → prints r (cause_words (refusal_number r)) }
{
    named(cause_words(cause))
}

/// Writes the canonical formula of the problem that one text states without includes.
#[unsafe(no_mangle)]
pub extern "C" fn leancop_formula(
    alloc: Global,
    logic: u32,
    domains: u32,
    problem: &[u8],
    room: &mut [u8],
    length: &mut u64,
) -> u32
    ensures told { IsWritten (setting_numbered logic domains)
        problem.now room.old result room.new length.new }
    ensures formula { result ≡ 0 → IsFormula (setting_numbered logic domains)
        problem.now room.old room.new length.new }
    ensures no_formula { result ≢ 0 → (room.new ≡ room.old) × (length.new ≡ 0) }
    ensures no_setting { result ≡ 5 ↔ (setting_numbered logic domains ≡ None) }
{
    write_canonical(alloc, logic, domains, problem, room, length)
}

/// Does all that the program does, over these files and no others.
#[unsafe(no_mangle)]
#[tactic(auto, using(calculus::proofs::CasesLaws::computes_instances, calculus::proofs::SoundnessLaws::sound))]
pub extern "C" fn leancop_run(
    alloc: Global,
    words: &[LeancopBytes<'_>],
    files: &[LeancopFile<'_>],
    room: &mut [u8],
    length: &mut u64,
) -> u32
    ensures told { IsRunTold (files_of files.now) (words_of words.now)
        room.old result room.new length.new }

    // Laws over the definitions, as at the program's own run.
    ensures sound { (P : tree.Problem) → IsTrue (is_problem P) → IsSound P }
    ensures instances { (P : tree.Problem) → ComputesInstances P }
{
    run_words(alloc, words, files, room, length)
}
