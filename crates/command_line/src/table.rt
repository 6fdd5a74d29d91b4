//! What each command takes: a row for each command, and one for each option.

ghost use Rattle.std.specs.Prelude.{◌≡◌};
ghost use Rattle.command_line.specs.Table.{command_named, front_of, operands_of, options_of};

#[derive(Clone, Copy)]
pub enum CommandName {
    Prove,
    Check,
    Make,
    Migrate,
    Model,
    Transfer,
    Tableau,
    Tcheck,
    Convert,
}

#[derive(Clone, Copy)]
pub enum Operand {
    Problem,
    Derivation,
    Structure,
    Tableau,
    Family,
    Size,
}

#[derive(Clone, Copy)]
pub enum OptionName {
    Root,
    Logic,
    Domains,
    Limit,
    Steps,
    Cut,
    Format,
    As,
}

pub fn command_named(word: &str) -> Option<CommandName>
    ensures { result ≡ command_named word.now }
{
    match word {
        "prove" => Some(CommandName::Prove),
        "check" => Some(CommandName::Check),
        "make" => Some(CommandName::Make),
        "migrate" => Some(CommandName::Migrate),
        "model" => Some(CommandName::Model),
        "transfer" => Some(CommandName::Transfer),
        "tableau" => Some(CommandName::Tableau),
        "tcheck" => Some(CommandName::Tcheck),
        "convert" => Some(CommandName::Convert),
        _ => None,
    }
}

/// The operands of a command, in their order. All are wanted.
pub fn operands_of(command: CommandName) -> &'static [Operand]
    ensures { result.now ≡ operands_of command }
{
    match command {
        CommandName::Prove => &[Operand::Problem],
        CommandName::Check => &[Operand::Problem, Operand::Derivation],
        CommandName::Make => &[Operand::Family, Operand::Size],
        CommandName::Migrate => &[Operand::Problem, Operand::Derivation],
        CommandName::Model => &[Operand::Problem, Operand::Structure],
        CommandName::Transfer => &[Operand::Problem, Operand::Derivation],
        CommandName::Tableau => &[Operand::Problem],
        CommandName::Tcheck => &[Operand::Problem, Operand::Tableau],
        CommandName::Convert => &[Operand::Problem, Operand::Tableau],
    }
}

/// The options of a command.
pub fn options_of(command: CommandName) -> &'static [OptionName]
    ensures { result.now ≡ options_of command }
{
    match command {
        CommandName::Prove => &[
            OptionName::Root,
            OptionName::Logic,
            OptionName::Domains,
            OptionName::Limit,
            OptionName::Steps,
            OptionName::Cut,
            OptionName::Format,
        ],
        CommandName::Check => &[
            OptionName::Root,
            OptionName::Logic,
            OptionName::Domains,
            OptionName::As,
        ],
        CommandName::Make => &[
            OptionName::Logic,
            OptionName::Domains,
            OptionName::Limit,
            OptionName::Steps,
        ],
        CommandName::Model => &[
            OptionName::Root,
            OptionName::Logic,
            OptionName::Domains,
            OptionName::Steps,
        ],
        CommandName::Transfer => &[OptionName::Root],
        CommandName::Tableau => &[
            OptionName::Root,
            OptionName::Logic,
            OptionName::Domains,
            OptionName::Limit,
            OptionName::Steps,
            OptionName::Cut,
        ],
        CommandName::Migrate | CommandName::Tcheck | CommandName::Convert => {
            &[OptionName::Root, OptionName::Logic, OptionName::Domains]
        }
    }
}

/// The word of an option begins so, and its value follows.
pub fn front_of(option: OptionName) -> &'static str
    ensures { result.now ≡ front_of option }
{
    match option {
        OptionName::Root => "--root=",
        OptionName::Logic => "--logic=",
        OptionName::Domains => "--domains=",
        OptionName::Limit => "--limit=",
        OptionName::Steps => "--steps=",
        OptionName::Cut => "--cut=",
        OptionName::Format => "--format=",
        OptionName::As => "--as=",
    }
}
