//! What the value of an option, or an operand, may be.

ghost use Rattle.std.specs.Prelude.{◌≡◌, ◌<◌, ◌≤◌, ◌^◌, ℕ, IfSome, IsNone, decimal};
ghost use Rattle.command_line.specs.Values.{
  domains_of,
  family_of,
  is_operand,
  is_value,
  logic_of,
  number_of,
  version_of,
};

use crate::table::{Operand, OptionName};
use calculus::family::Family;
use calculus::limits::MAX_PATH_LIMIT;
use calculus::version::Version;
use itoa::Buffer;
use logic_rules::{Domains, Logic};

// The greatest budget that can be asked for.
pub const MAX_STEPS: u64 = 1 << 40;

// The greatest size of a generated problem.
pub const MAX_SIZE: u64 = 150;

pub fn logic_of(value: &str) -> Option<Logic>
    ensures { result ≡ logic_of value.now }
{
    match value {
        "classical" => Some(Logic::Classical),
        "intuitionistic" => Some(Logic::Intuitionistic),
        "d" => Some(Logic::D),
        "t" => Some(Logic::T),
        "s4" => Some(Logic::S4),
        "s5" => Some(Logic::S5),
        _ => None,
    }
}

pub fn domains_of(value: &str) -> Option<Domains>
    ensures { result ≡ domains_of value.now }
{
    match value {
        "constant" => Some(Domains::Constant),
        "cumulative" => Some(Domains::Cumulative),
        "varying" => Some(Domains::Varying),
        _ => None,
    }
}

// The number that is written in just these bytes, without sign and without leading zeros.
fn plain_number(value: &str) -> Option<u64>
    ensures some { IfSome result (λ n. value.now ≡ decimal n) }
    ensures small { IfSome result (λ n. n < 2 ^ 64) }
    ensures none { IsNone result → (n : ℕ) → n < 2 ^ 64 → ¬ (value.now ≡ decimal n) }
{
    let Ok(number) = value.parse::<u64>() else {
        return None;
    };
    let mut buffer = Buffer::new();
    if buffer.format(number).as_bytes() == value.as_bytes() {
        Some(number)
    } else {
        None
    }
}

pub fn number_of(most: u64, value: &str) -> Option<u64>
    ensures number { result ≡ number_of most value.now }
    ensures from_one { IfSome result (λ n. 1 ≤ n) }
    ensures to_most { IfSome result (λ n. n ≤ most) }
{
    match plain_number(value) {
        Some(number) if 1 <= number && number <= most => Some(number),
        _ => None,
    }
}

pub fn version_of(value: &str) -> Option<Version>
    ensures { result ≡ version_of value.now }
{
    match value {
        "1" => Some(Version::One),
        "2" => Some(Version::Two),
        _ => None,
    }
}

pub fn family_of(word: &str) -> Option<Family>
    ensures { result ≡ family_of word.now }
{
    match word {
        "chain" => Some(Family::Chain),
        "shift" => Some(Family::Shift),
        "tower" => Some(Family::Tower),
        _ => None,
    }
}

/// Whether the option may have this value.
pub fn is_value(option: OptionName, value: &str) -> bool
    ensures { result ≡ is_value option value.now }
{
    match option {
        OptionName::Root => value != "",
        OptionName::Logic => logic_of(value).is_some(),
        OptionName::Domains => domains_of(value).is_some(),
        OptionName::Limit | OptionName::Cut => number_of(
            u64::from(MAX_PATH_LIMIT),
            value,
        ).is_some(),
        OptionName::Steps => number_of(MAX_STEPS, value).is_some(),
        OptionName::Format => version_of(value).is_some(),
        OptionName::As => value == "s4",
    }
}

/// Whether a word that begins as no option does may be this operand.
pub fn is_operand(operand: Operand, word: &str) -> bool
    ensures { result ≡ is_operand operand word.now }
{
    match operand {
        Operand::Family => family_of(word).is_some(),
        Operand::Size => number_of(MAX_SIZE, word).is_some(),
        Operand::Problem | Operand::Derivation | Operand::Structure | Operand::Tableau => {
            word != ""
        }
    }
}
