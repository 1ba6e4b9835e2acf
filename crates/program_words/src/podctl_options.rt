//! [`Given`]: what the words after a subcommand set.
ghost use Rattle.std.specs.Prelude.{◌≡◌, map, if◌then◌else◌, is_some, Some, None};
ghost use Rattle.std.specs.Option.{option_map};
ghost use Rattle.std.specs.String.{string_bytes};
ghost use Rattle.program_words.specs.Given as spec;
ghost use Rattle.program_words.specs.Givens.{given_of};

use crate::subcommand::{Flag, Parameter, Subcommand};

/// What the next word may be.
#[derive(Clone, Copy, Debug, PartialEq, Eq)]
pub enum Mode {
    /// An option or an operand.
    Options,
    /// The value of that option.
    Value(Parameter),
    /// An operand: `--` has ended the options.
    Operands,
}

/// What words have set: the values of options, the flags, and the operand.
#[derive(Clone, Copy)]
pub(crate) struct Given<'a> {
    pub(crate) base: Option<&'a str>,
    pub(crate) owner: Option<&'a str>,
    pub(crate) fresh: Option<&'a str>,
    pub(crate) agent: Option<&'a str>,
    pub(crate) as_owner: bool,
    pub(crate) trail: bool,
    pub(crate) operand: Option<&'a str>,
    pub(crate) mode: Mode,
}

/// Whether a word of `podctl` begins with `-`, as no value of an option does.
pub fn is_dashed(word: &str) -> bool
    ensures { result ≡ spec.is_dashed word.now }
{
    word.as_bytes().starts_with(b"-")
}

/// The new value of an option of `podctl`, where it had none before.
fn first_value<'a>(before: Option<&'a str>, value: &'a str) -> Option<&'a str>
    ensures { option_map (λ word. word.now) result
        ≡ (if is_some before.entry then None else Some value.now) }
{
    match before {
        None => Some(value),
        Some(_) => None,
    }
}

impl<'a> Given<'a> {
    /// What is set before any word of `podctl` sets an option.
    pub(crate) fn nothing() -> Given<'a>
        ensures { given_of result ≡ spec.nothing_given }
    {
        Given {
            base: None,
            owner: None,
            fresh: None,
            agent: None,
            as_owner: false,
            trail: false,
            operand: None,
            mode: Mode::Options,
        }
    }

    /// Sets the value of an option of `podctl`, where it has none yet.
    fn with_parameter(self, parameter: Parameter, value: &'a str) -> Option<Given<'a>>
        ensures { option_map given_of result
            ≡ spec.with_parameter parameter value.now (given_of self.entry) }
    {
        match parameter {
            Parameter::Base => {
                let base = first_value(self.base, value)?;
                Some(Given {
                    base: Some(base),
                    ..self
                })
            }
            Parameter::Owner => {
                let owner = first_value(self.owner, value)?;
                Some(Given {
                    owner: Some(owner),
                    ..self
                })
            }
            Parameter::Fresh => {
                let fresh = first_value(self.fresh, value)?;
                Some(Given {
                    fresh: Some(fresh),
                    ..self
                })
            }
            Parameter::Agent => {
                let agent = first_value(self.agent, value)?;
                Some(Given {
                    agent: Some(agent),
                    ..self
                })
            }
        }
    }

    /// Sets the value of an option of `podctl`, where it has none yet and the value is no option.
    fn with_value(self, parameter: Parameter, value: &'a str) -> Option<Given<'a>>
        ensures { option_map given_of result
            ≡ spec.with_value parameter value.now (given_of self.entry) }
    {
        if is_dashed(value) {
            None
        } else {
            self.with_parameter(parameter, value)
        }
    }

    /// Sets a flag of `podctl`, where it isn't set yet.
    fn with_flag(self, flag: Flag) -> Option<Given<'a>>
        ensures { option_map given_of result ≡ spec.with_flag flag (given_of self.entry) }
    {
        match flag {
            Flag::AsOwner => {
                if self.as_owner {
                    None
                } else {
                    Some(Given {
                        as_owner: true,
                        ..self
                    })
                }
            }
            Flag::Trail => {
                if self.trail {
                    None
                } else {
                    Some(Given {
                        trail: true,
                        ..self
                    })
                }
            }
        }
    }

    /// Sets the operand of a subcommand of `podctl`, where it has one and it isn't set yet.
    fn with_operand(self, subcommand: Subcommand, word: &'a str) -> Option<Given<'a>>
        ensures { option_map given_of result
            ≡ spec.with_operand subcommand word.now (given_of self.entry) }
    {
        if subcommand.has_operand() && self.operand.is_none() && !is_dashed(word) {
            Some(Given {
                operand: Some(word),
                ..self
            })
        } else {
            None
        }
    }

    /// Reads a word of `podctl` where options may be.
    fn after_option(self, subcommand: Subcommand, word: &'a str) -> Option<Given<'a>>
        ensures { option_map given_of result
            ≡ spec.after_option subcommand word.now (given_of self.entry) }
    {
        if word == "--" {
            return Some(Given {
                mode: Mode::Operands,
                ..self
            });
        }
        if let Some(flag) = subcommand.flag_of(word) {
            return self.with_flag(flag);
        }
        if let Some(parameter) = subcommand.parameter_of(word) {
            return Some(Given {
                mode: Mode::Value(parameter),
                ..self
            });
        }
        match subcommand.assigned_of(word) {
            Some((parameter, value)) => self.with_value(parameter, value),
            None => self.with_operand(subcommand, word),
        }
    }

    /// Reads one more word after a subcommand of `podctl`.
    fn after_word(self, subcommand: Subcommand, word: &'a str) -> Option<Given<'a>>
        ensures { option_map given_of result
            ≡ spec.after_word subcommand (given_of self.entry) word.now }
    {
        match self.mode {
            Mode::Options => self.after_option(subcommand, word),
            Mode::Value(parameter) => {
                let given = Given {
                    mode: Mode::Options,
                    ..self
                };
                given.with_value(parameter, word)
            }
            Mode::Operands => self.with_operand(subcommand, word),
        }
    }
}

/// Reads these words after a subcommand of `podctl`, after those that set this. Each option is set
/// once, so the depth of the recursion is bounded by the number of options.
fn given_after<'a>(
    words: &'a [String],
    subcommand: Subcommand,
    given: Given<'a>,
) -> Option<Given<'a>>
    ensures { option_map given_of result
        ≡ spec.given_after subcommand (given_of given.entry) (map string_bytes words.now) }
{
    match words.split_first() {
        Some((word, rest)) => {
            let given = given.after_word(subcommand, word.as_str())?;
            given_after(rest, subcommand, given)
        }
        None => Some(given),
    }
}

/// What the words after a subcommand of `podctl` set of its options.
pub(crate) fn given_by<'a>(subcommand: Subcommand, words: &'a [String]) -> Option<Given<'a>>
    ensures { option_map given_of result
        ≡ spec.given_after subcommand spec.nothing_given (map string_bytes words.now) }
{
    given_after(words, subcommand, Given::nothing())
}
