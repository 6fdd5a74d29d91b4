//! What good words ask for.

ghost use Rattle.std.specs.Prelude.{◌≡◌, Option, map, string_bytes};
ghost use Rattle.std.specs.Option.{option_map};
ghost use Rattle.command_line.specs.CommandLine.{
  asked,
  bounds_in,
  check_in,
  command_by,
  domains_in,
  generated_in,
  in_intuitionistic,
  intuitionistic_in,
  is_intuitionistic,
  logic_in,
  misfit,
  place_of,
  problem_in,
  request,
  steps_in,
  tower_place,
  value_in,
  version_in,
};
ghost use Rattle.command_line.specs.CommandView.{
  the_bounds,
  the_command,
  the_generated_problem,
  the_intuitionistic_file,
  the_problem_file,
};
ghost use Rattle.command_line.specs.Values.{number_of};

use crate::bounds::Bounds;
use crate::given::{given, is_given, operand, operand_in, value_in};
use crate::good_words::first_bad;
use crate::table::{CommandName, OptionName, command_named};
use crate::value::{MAX_SIZE, MAX_STEPS, domains_of, family_of, logic_of, number_of, version_of};
use calculus::family::Family;
use calculus::limits::MAX_PATH_LIMIT;
use calculus::version::Version;
use cop_base::PathLimit;
use logic_rules::{Domains, Logic, Setting};

// The path limit and the budget where none is asked for.
pub const USUAL_LIMIT: u8 = 100;

pub const USUAL_STEPS: u64 = 10_000_000;

/// A problem by the name of its main file, the root of the files that it includes (empty where
/// there is none), and the setting in which it is read.
#[derive(Clone, Copy)]
pub struct ProblemFile<'a> {
    pub name: &'a str,
    pub root: &'a str,
    pub setting: Setting,
}

/// A problem of intuitionistic logic, which has one setting.
#[derive(Clone, Copy)]
pub struct IntuitionisticFile<'a> {
    pub name: &'a str,
    pub root: &'a str,
}

impl<'a> IntuitionisticFile<'a> {
    /// The same with its setting.
    pub fn problem_file(self) -> ProblemFile<'a>
        ensures { the_problem_file result ≡ in_intuitionistic (the_intuitionistic_file self.entry) }
    {
        ProblemFile {
            name: self.name,
            root: self.root,
            setting: Setting::new(Logic::Intuitionistic, Domains::Cumulative),
        }
    }
}

/// A problem that is generated: its family, its size, and the setting in which it is read.
#[derive(Clone, Copy)]
pub struct GeneratedProblem {
    pub family: Family,
    pub size: u32,
    pub setting: Setting,
}

/// What the words ask for, or the place of the bad or missing word, from 1.
pub enum Command<'a> {
    Prove {
        problem: ProblemFile<'a>,
        bounds: Bounds,
        version: Version,
    },
    Check {
        problem: ProblemFile<'a>,
        derivation: &'a str,
    },
    /// The derivation is judged for the problem's translation into S4.
    CheckTranslated {
        problem: IntuitionisticFile<'a>,
        derivation: &'a str,
    },
    Transfer {
        problem: IntuitionisticFile<'a>,
        derivation: &'a str,
    },
    Migrate {
        problem: ProblemFile<'a>,
        derivation: &'a str,
    },
    Make {
        problem: GeneratedProblem,
        bounds: Bounds,
    },
    Model {
        problem: ProblemFile<'a>,
        structure: &'a str,
        steps: u64,
    },
    Tableau {
        problem: ProblemFile<'a>,
        bounds: Bounds,
    },
    Tcheck {
        problem: ProblemFile<'a>,
        tableau: &'a str,
    },
    Convert {
        problem: ProblemFile<'a>,
        tableau: &'a str,
    },
    Bad {
        place: u64,
    },
}

fn logic_in(words: &[String]) -> Logic
    ensures { result ≡ logic_in (map string_bytes words.now) }
{
    match logic_of(value_in(OptionName::Logic, words)) {
        Some(logic) => logic,
        None => Logic::Classical,
    }
}

fn is_intuitionistic(logic: Logic) -> bool
    ensures { result ≡ is_intuitionistic logic }
{
    match logic {
        Logic::Intuitionistic => true,
        Logic::Classical | Logic::D | Logic::T | Logic::S4 | Logic::S5 => false,
    }
}

fn place_of(option: OptionName, words: &[String]) -> Option<u64>
    ensures { result ≡ place_of option (map string_bytes words.now) }
{
    match given(option, words) {
        Some((place, _)) => Some(place),
        None => None,
    }
}

// The place of the family of generated problems, where it is that of towers.
fn tower_place(command: CommandName, words: &[String]) -> Option<u64>
    ensures { result ≡ tower_place command (map string_bytes words.now) }
{
    match (command, operand(0, words)) {
        (CommandName::Make, Some((place, "tower"))) => Some(place),
        _ => None,
    }
}

// The place of a good word that does not fit the logic.
fn misfit(command: CommandName, words: &[String]) -> Option<u64>
    ensures { result ≡ misfit command (map string_bytes words.now) }
{
    let logic = logic_in(words);
    if !logic.is_modal()
        && let Some(place) = place_of(OptionName::Domains, words)
    {
        return Some(place);
    }
    if !is_intuitionistic(logic)
        && let Some(place) = place_of(OptionName::As, words)
    {
        return Some(place);
    }
    if logic.is_modal() {
        None
    } else {
        tower_place(command, words)
    }
}

fn domains_in(words: &[String]) -> Domains
    ensures { result ≡ domains_in (map string_bytes words.now) }
{
    match domains_of(value_in(OptionName::Domains, words)) {
        Some(domains) => domains,
        None => Domains::Constant,
    }
}

fn problem_in(words: &[String]) -> ProblemFile<'_>
    ensures { the_problem_file result ≡ problem_in (map string_bytes words.now) }
{
    ProblemFile {
        name: operand_in(0, words),
        root: value_in(OptionName::Root, words),
        setting: Setting::new(logic_in(words), domains_in(words)),
    }
}

// The path limit that an option gives.
fn limit_in(option: OptionName, words: &[String]) -> Option<PathLimit>
    ensures { option_map (λ l. l.number) result
        ≡ number_of MAX_PATH_LIMIT (value_in option (map string_bytes words.now)) }
{
    match number_of(u64::from(MAX_PATH_LIMIT), value_in(option, words)) {
        Some(number) => Some(PathLimit {
            number: number as u8,
        }),
        None => None,
    }
}

fn intuitionistic_in(words: &[String]) -> IntuitionisticFile<'_>
    ensures { the_intuitionistic_file result ≡ intuitionistic_in (map string_bytes words.now) }
{
    let root = value_in(OptionName::Root, words);
    IntuitionisticFile {
        name: operand_in(0, words),
        root,
    }
}

fn generated_in(words: &[String]) -> GeneratedProblem
    ensures { the_generated_problem result ≡ generated_in (map string_bytes words.now) }
{
    let family = match family_of(operand_in(0, words)) {
        Some(family) => family,
        None => Family::Chain,
    };
    let size = match number_of(MAX_SIZE, operand_in(1, words)) {
        Some(size) => size as u32,
        None => 1,
    };
    GeneratedProblem {
        family,
        size,
        setting: Setting::new(logic_in(words), domains_in(words)),
    }
}

fn steps_in(words: &[String]) -> u64
    ensures { result ≡ steps_in (map string_bytes words.now) }
{
    match number_of(MAX_STEPS, value_in(OptionName::Steps, words)) {
        Some(steps) => steps,
        None => USUAL_STEPS,
    }
}

fn bounds_in(words: &[String]) -> Bounds
    ensures { the_bounds result ≡ bounds_in (map string_bytes words.now) }
{
    let limit = match limit_in(OptionName::Limit, words) {
        Some(limit) => limit,
        None => PathLimit {
            number: USUAL_LIMIT,
        },
    };
    let steps = steps_in(words);
    let cut = limit_in(OptionName::Cut, words);
    Bounds { limit, steps, cut }
}

fn version_in(words: &[String]) -> Version
    ensures { result ≡ version_in (map string_bytes words.now) }
{
    match version_of(value_in(OptionName::Format, words)) {
        Some(version) => version,
        None => Version::One,
    }
}

fn check_in(words: &[String]) -> Command<'_>
    ensures { the_command result ≡ check_in (map string_bytes words.now) }
{
    let derivation = operand_in(1, words);
    if is_given(OptionName::As, words) {
        Command::CheckTranslated {
            problem: intuitionistic_in(words),
            derivation,
        }
    } else {
        Command::Check {
            problem: problem_in(words),
            derivation,
        }
    }
}

fn request(command: CommandName, words: &[String]) -> Command<'_>
    ensures { the_command result ≡ request command (map string_bytes words.now) }
{
    match command {
        CommandName::Prove => Command::Prove {
            problem: problem_in(words),
            bounds: bounds_in(words),
            version: version_in(words),
        },
        CommandName::Check => check_in(words),
        CommandName::Transfer => Command::Transfer {
            problem: intuitionistic_in(words),
            derivation: operand_in(1, words),
        },
        CommandName::Migrate => Command::Migrate {
            problem: problem_in(words),
            derivation: operand_in(1, words),
        },
        CommandName::Make => Command::Make {
            problem: generated_in(words),
            bounds: bounds_in(words),
        },
        CommandName::Model => Command::Model {
            problem: problem_in(words),
            structure: operand_in(1, words),
            steps: steps_in(words),
        },
        CommandName::Tableau => Command::Tableau {
            problem: problem_in(words),
            bounds: bounds_in(words),
        },
        CommandName::Tcheck => Command::Tcheck {
            problem: problem_in(words),
            tableau: operand_in(1, words),
        },
        CommandName::Convert => Command::Convert {
            problem: problem_in(words),
            tableau: operand_in(1, words),
        },
    }
}

fn command_by(command: CommandName, words: &[String]) -> Command<'_>
    ensures { the_command result ≡ command_by command (map string_bytes words.now) }
{
    if let Some(place) = first_bad(command, words) {
        return Command::Bad { place };
    }
    if let Some(place) = misfit(command, words) {
        return Command::Bad { place };
    }
    request(command, words)
}

/// Words are judged from left to right, and the first bad one is told.
pub fn command_of(words: &[String]) -> Command<'_>
    ensures { the_command result ≡ asked words.now }
{
    match words {
        [] => Command::Bad { place: 1 },
        [command, rest @ ..] => match command_named(command.as_str()) {
            Some(command) => command_by(command, rest),
            None => Command::Bad { place: 1 },
        },
    }
}
