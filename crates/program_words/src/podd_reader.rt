//! The settings of words.
ghost use Rattle.std.specs.Prelude.{◌≡◌, ◌≤◌, map, IfSome};
ghost use Rattle.std.specs.Option.{option_and_then};
ghost use Rattle.std.specs.String.{string_bytes};
ghost use Rattle.program_words.specs.PoddReadings.{reading};
ghost use Rattle.program_words.specs.PoddReadings as spec;

use crate::podd_options::{Given, Mode, given_after};

/// The greatest port.
pub const PORT_LIMIT: u16 = 65_535;

/// The most workers.
pub const WORKERS_LIMIT: u16 = 64;

/// The port where none is given.
pub const DEFAULT_PORT: u16 = 8_080;

/// The number of workers where none is given.
pub const DEFAULT_WORKERS: u16 = 4;

/// What `podd` is to serve with: the port on loopback, and the number of workers, each of which
/// serves one connection at a time.
#[derive(Clone, Copy, Debug, PartialEq, Eq)]
pub struct Settings {
    pub port: u16,
    pub workers: u16,
}

/// Reads the settings of `podd` from what its words have set; none where an option is without its
/// value.
fn settings_of(given: Given) -> Option<Settings>
    ensures { result ≡ spec.settings_of given }
{
    let settings = Settings {
        port: given.port.unwrap_or(DEFAULT_PORT),
        workers: given.workers.unwrap_or(DEFAULT_WORKERS),
    };
    match given.mode {
        Mode::Value(_) => None,
        Mode::Options => Some(settings),
        Mode::Nothing => Some(settings),
    }
}

/// Reads the settings of `podd` from its words, by what these have set.
fn settings_in(words: &[String]) -> Option<Settings>
    ensures { result ≡ option_and_then spec.settings_of
        (spec.given_after spec.nothing_given (map string_bytes words.now)) }
{
    settings_of(given_after(words, Given::nothing())?)
}

/// Reads the settings of `podd` from the words after the program's name: `--port P`, from 1 to
/// [`PORT_LIMIT`] and [`DEFAULT_PORT`] where it is absent, and `--workers W`, from 1 to
/// [`WORKERS_LIMIT`] and [`DEFAULT_WORKERS`] where it is absent, each at most once, in two words or
/// as `--name=value`. None where the words are invalid.
#[tactic(auto, unfolding(crate::specs::PoddReadings::reading))]
pub fn read_settings(words: &[String]) -> Option<Settings>
    ensures reading { result ≡ reading (map string_bytes words.now) }
    ensures port { IfSome result (λ settings. (1 ≤ settings.port) × (settings.port ≤ PORT_LIMIT)) }
    ensures workers { IfSome result
        (λ settings. (1 ≤ settings.workers) × (settings.workers ≤ WORKERS_LIMIT)) }
{
    settings_in(words)
}
