//! The subcommands of `podctl`, and which options each of them has.
ghost use Rattle.std.specs.Prelude.{◌≡◌};
ghost use Rattle.std.specs.Option.{option_map};
ghost use Rattle.program_words.specs.Given as spec;
ghost use Rattle.program_words.specs.Readings as readings;

/// A subcommand.
#[derive(Clone, Copy, Debug, PartialEq, Eq)]
pub enum Subcommand {
    Init,
    Pipe,
    Check,
    Audit,
    Load,
    Report,
    Ship,
    Follow,
}

/// An option with a value.
#[derive(Clone, Copy, Debug, PartialEq, Eq)]
pub enum Parameter {
    /// `--base B` of `init`.
    Base,
    /// `--owner A` of `init`.
    Owner,
    /// `--fresh A` of `pipe`.
    Fresh,
    /// `--agent A` of `report`.
    Agent,
}

/// An option without a value.
#[derive(Clone, Copy, Debug, PartialEq, Eq)]
pub enum Flag {
    /// `--owner` of `pipe`.
    AsOwner,
    /// `--trail` of `pipe`.
    Trail,
}

/// Splits a word such as `--base=B` of a subcommand at its first `=`.
pub fn split_value(word: &str) -> Option<(&str, &str)>
    ensures { option_map (λ p. (p.0.now, p.1.now)) result ≡ spec.split_value word.now }
{
    word.split_once('=')
}

impl Subcommand {
    /// The subcommand that a word names.
    pub(crate) fn of(word: &str) -> Option<Subcommand>
        ensures { result ≡ readings.subcommand_of word.now }
    {
        match word {
            "init" => Some(Subcommand::Init),
            "pipe" => Some(Subcommand::Pipe),
            "check" => Some(Subcommand::Check),
            "audit" => Some(Subcommand::Audit),
            "load" => Some(Subcommand::Load),
            "report" => Some(Subcommand::Report),
            "ship" => Some(Subcommand::Ship),
            "follow" => Some(Subcommand::Follow),
            _ => None,
        }
    }

    /// Whether the subcommand has an operand.
    pub(crate) fn has_operand(self) -> bool
        ensures { result ≡ spec.has_operand self }
    {
        matches!(self, Subcommand::Load)
    }

    /// The flag of the subcommand that a word is.
    pub(crate) fn flag_of(self, word: &str) -> Option<Flag>
        ensures { result ≡ spec.flag_of self word.now }
    {
        match self {
            Subcommand::Pipe => match word {
                "--owner" => Some(Flag::AsOwner),
                "--trail" => Some(Flag::Trail),
                _ => None,
            },
            _ => None,
        }
    }

    /// The parameter of the subcommand whose word it is: its value is the next word.
    pub(crate) fn parameter_of(self, word: &str) -> Option<Parameter>
        ensures { result ≡ spec.parameter_of self word.now }
    {
        match self {
            Subcommand::Init => match word {
                "--base" => Some(Parameter::Base),
                "--owner" => Some(Parameter::Owner),
                _ => None,
            },
            Subcommand::Pipe => match word {
                "--fresh" => Some(Parameter::Fresh),
                _ => None,
            },
            Subcommand::Report => match word {
                "--agent" => Some(Parameter::Agent),
                _ => None,
            },
            _ => None,
        }
    }

    /// The parameter of the subcommand that a word names together with its value.
    pub(crate) fn assigned_of<'a>(self, word: &'a str) -> Option<(Parameter, &'a str)>
        ensures { option_map (λ p. (p.0, p.1.now)) result ≡ spec.assigned_of self word.now }
    {
        let (name, value) = split_value(word)?;
        let parameter = self.parameter_of(name)?;
        Some((parameter, value))
    }
}
