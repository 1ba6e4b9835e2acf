//! [`Given`]: what words set.
ghost use Rattle.std.specs.Prelude.{◌≡◌, map, if◌then◌else◌, is_some, None};
ghost use Rattle.std.specs.Option.{option_map};
ghost use Rattle.std.specs.String.{string_bytes};
ghost use Rattle.program_words.specs.PoddReadings as spec;

use crate::podd_reader::{PORT_LIMIT, WORKERS_LIMIT};
use crate::{number_up_to, split_value};

/// An option. Each has a value.
#[derive(Clone, Copy, Debug, PartialEq, Eq)]
pub enum Parameter {
    /// `--port P`.
    Port,
    /// `--workers W`.
    Workers,
}

/// What the next word may be.
#[derive(Clone, Copy, Debug, PartialEq, Eq)]
pub enum Mode {
    /// An option.
    Options,
    /// The value of that option.
    Value(Parameter),
    /// Nothing: `--` has ended the options.
    Nothing,
}

/// What words have set.
#[derive(Clone, Copy, Debug, PartialEq, Eq)]
pub struct Given {
    pub port: Option<u16>,
    pub workers: Option<u16>,
    pub mode: Mode,
}

/// The option of `podd` that a word is.
fn parameter_of(word: &str) -> Option<Parameter>
    ensures { result ≡ spec.parameter_of word.now }
{
    match word {
        "--port" => Some(Parameter::Port),
        "--workers" => Some(Parameter::Workers),
        _ => None,
    }
}

/// The option of `podd` that a word names together with its value.
fn assigned_of(word: &str) -> Option<(Parameter, &str)>
    ensures { option_map (λ p. (p.0, p.1.now)) result ≡ spec.assigned_of word.now }
{
    let (name, value) = split_value(word)?;
    let parameter = parameter_of(name)?;
    Some((parameter, value))
}

/// The number that the value of an option of `podd` is, from 1 to a limit.
fn positive(word: &str, most: u16) -> Option<u16>
    ensures { result ≡ spec.positive most word.now }
{
    let number = number_up_to(word, most)?;
    if number == 0 { None } else { Some(number) }
}

/// The new value of an option of `podd`, where it had none before.
fn first_setting(before: Option<u16>, value: Option<u16>) -> Option<u16>
    ensures { result ≡ (if is_some before then None else value) }
{
    match before {
        None => value,
        Some(_) => None,
    }
}

impl Given {
    /// What is set before any word of `podd` sets an option.
    pub(crate) fn nothing() -> Given
        ensures { result ≡ spec.nothing_given }
    {
        Given {
            port: None,
            workers: None,
            mode: Mode::Options,
        }
    }

    /// Sets the value of an option of `podd`, where it has none yet.
    fn with_value(self, parameter: Parameter, value: &str) -> Option<Given>
        ensures { result ≡ spec.with_value parameter value.now self }
    {
        match parameter {
            Parameter::Port => {
                let port = first_setting(self.port, positive(value, PORT_LIMIT))?;
                Some(Given {
                    port: Some(port),
                    workers: self.workers,
                    mode: Mode::Options,
                })
            }
            Parameter::Workers => {
                let workers = first_setting(self.workers, positive(value, WORKERS_LIMIT))?;
                Some(Given {
                    port: self.port,
                    workers: Some(workers),
                    mode: Mode::Options,
                })
            }
        }
    }

    /// Reads a word of `podd` where options may be.
    fn after_option(self, word: &str) -> Option<Given>
        ensures { result ≡ spec.after_option word.now self }
    {
        if word == "--" {
            return Some(Given {
                mode: Mode::Nothing,
                ..self
            });
        }
        if let Some(parameter) = parameter_of(word) {
            return Some(Given {
                mode: Mode::Value(parameter),
                ..self
            });
        }
        match assigned_of(word) {
            Some((parameter, value)) => self.with_value(parameter, value),
            None => None,
        }
    }

    /// Reads one more word of `podd`.
    fn after_word(self, word: &str) -> Option<Given>
        ensures { result ≡ spec.after_word self word.now }
    {
        match self.mode {
            Mode::Options => self.after_option(word),
            Mode::Value(parameter) => self.with_value(parameter, word),
            Mode::Nothing => None,
        }
    }
}

/// Reads these words of `podd`, after those that set this. Each option is set once, so the depth of
/// the recursion is bounded by the number of options.
pub(crate) fn given_after(words: &[String], given: Given) -> Option<Given>
    ensures { result ≡ spec.given_after given (map string_bytes words.now) }
{
    match words.split_first() {
        Some((word, rest)) => {
            let given = given.after_word(word.as_str())?;
            given_after(rest, given)
        }
        None => Some(given),
    }
}
