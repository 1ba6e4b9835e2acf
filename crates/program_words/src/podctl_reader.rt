//! The command of words.
ghost use Rattle.std.specs.Prelude.{◌≡◌, IfOk, IfErr, IfSome, Some, is_some, true, false, map};
ghost use Rattle.std.specs.Option.{option_copied};
ghost use Rattle.std.specs.String.{string_bytes};
ghost use Rattle.program_words.specs.Givens.{given_of};
ghost use Rattle.program_words.specs.Readings.{IsSound, reading};
ghost use Rattle.program_words.specs.Readings as spec;

use crate::command::{Asking, Command};
use crate::numeric_word::{LOAD_LIMIT, number_up_to};
use crate::podctl_options::{Given, Mode, given_by};
use crate::subcommand::Subcommand;
use iri_ref::{Iri, IriFault};
use pod_base::{Mem, NoMemory};
use pod_rows::is_base;
use std::alloc::Global;
use token_table::laws::agents_are_absolute;

/// Reads the agent whom a word of `podctl` names, where it is an absolute IRI.
fn agent_of(alloc: Global, word: &str) -> Mem<Option<Iri>>
    ensures agent { IfOk result (λ found. found ≡ spec.agent_of word.now) }
    ensures out_of_memory { IfErr result (λ _. is_some (spec.agent_of word.now) ≡ true) }
{
    agents_are_absolute();
    match Iri::read(alloc, word) {
        Ok(iri) => Ok(Some(iri)),
        Err(IriFault::BadReference) => Ok(None),
        Err(IriFault::NoMemory) => Err(NoMemory),
    }
}

/// Reads the command `podctl init` of a store with that base, where the word is one.
fn init_of(alloc: Global, base: &str, owner: &str) -> Mem<Option<Command>>
    ensures command { IfOk result (λ found. found ≡ spec.init_of base.now owner.now) }
    ensures out_of_memory { IfErr result (λ _.
        is_some (spec.init_of base.now owner.now) ≡ true) }
{
    if !is_base(base) {
        return Ok(None);
    }
    match agent_of(alloc, owner) {
        Ok(Some(owner)) => match Iri::read(alloc, base) {
            Ok(base) => Ok(Some(Command::Init { base, owner })),
            Err(_) => Err(NoMemory),
        },
        Ok(None) => Ok(None),
        Err(NoMemory) => Err(NoMemory),
    }
}

/// Reads the command `podctl init` of a store, where base and owner are given.
fn init_from(alloc: Global, base: Option<&str>, owner: Option<&str>) -> Mem<Option<Command>>
    ensures command { IfOk result (λ found. found ≡ spec.init_from
        (option_copied base.entry) (option_copied owner.entry)) }
    ensures out_of_memory { IfErr result (λ _. is_some (spec.init_from
        (option_copied base.entry) (option_copied owner.entry)) ≡ true) }
{
    match base {
        Some(base) => match owner {
            Some(owner) => init_of(alloc, base, owner),
            None => Ok(None),
        },
        None => Ok(None),
    }
}

/// Reads the owner of a new pod in memory, for the command `podctl pipe --fresh`.
fn fresh_of(alloc: Global, owner: &str) -> Mem<Option<Asking>>
    ensures asking { IfOk result (λ found. found ≡ spec.asking_of false (Some owner.now)) }
    ensures out_of_memory { IfErr result (λ _.
        is_some (spec.asking_of false (Some owner.now)) ≡ true) }
{
    match agent_of(alloc, owner) {
        Ok(Some(owner)) => Ok(Some(Asking::Fresh(owner))),
        Ok(None) => Ok(None),
        Err(NoMemory) => Err(NoMemory),
    }
}

/// Reads how the requests of `podctl pipe` are authenticated; none where both options are set.
fn asking_of(alloc: Global, as_owner: bool, fresh: Option<&str>) -> Mem<Option<Asking>>
    ensures asking { IfOk result (λ found. found
        ≡ spec.asking_of as_owner (option_copied fresh.entry)) }
    ensures out_of_memory { IfErr result (λ _. is_some (spec.asking_of as_owner
        (option_copied fresh.entry)) ≡ true) }
{
    match fresh {
        Some(owner) => {
            if as_owner {
                Ok(None)
            } else {
                fresh_of(alloc, owner)
            }
        }
        None => {
            if as_owner {
                Ok(Some(Asking::Owner))
            } else {
                Ok(Some(Asking::ByTokens))
            }
        }
    }
}

/// Reads the command `podctl pipe` of a connection whose requests are authenticated so.
fn pipe_from(trail: bool, asking: Option<Asking>) -> Option<Command>
    ensures { result ≡ spec.pipe_from trail asking }
{
    match asking {
        Some(asking) => Some(Command::Pipe { asking, trail }),
        None => None,
    }
}

/// Reads the command `podctl pipe` of a connection.
fn pipe_of(alloc: Global, as_owner: bool, fresh: Option<&str>, trail: bool) -> Mem<Option<Command>>
    ensures command { IfOk result (λ found. found
        ≡ spec.pipe_from trail (spec.asking_of as_owner (option_copied fresh.entry))) }
    ensures out_of_memory { IfErr result (λ _. is_some
        (spec.pipe_from trail (spec.asking_of as_owner (option_copied fresh.entry))) ≡ true) }
{
    match asking_of(alloc, as_owner, fresh) {
        Ok(asking) => Ok(pipe_from(trail, asking)),
        Err(NoMemory) => Err(NoMemory),
    }
}

/// Reads the command `podctl load`, where its number of requests is given.
fn load_from(operand: Option<&str>) -> Option<Command>
    ensures { result ≡ spec.load_from (option_copied operand.entry) }
{
    let requests = number_up_to(operand?, LOAD_LIMIT)?;
    Some(Command::Load(requests))
}

/// Reads the command `podctl report` on the agent whom a word names, where it is an absolute IRI.
fn report_on(alloc: Global, agent: &str) -> Mem<Option<Command>>
    ensures command { IfOk result (λ found. found ≡ spec.report_from (Some agent.now)) }
    ensures out_of_memory { IfErr result (λ _.
        is_some (spec.report_from (Some agent.now)) ≡ true) }
{
    match agent_of(alloc, agent) {
        Ok(Some(agent)) => Ok(Some(Command::Report { agent: Some(agent) })),
        Ok(None) => Ok(None),
        Err(NoMemory) => Err(NoMemory),
    }
}

/// Reads the command `podctl report`: of an agent where one is given, and else of everyone.
fn report_from(alloc: Global, agent: Option<&str>) -> Mem<Option<Command>>
    ensures command { IfOk result (λ found. found ≡ spec.report_from (option_copied agent.entry)) }
    ensures out_of_memory { IfErr result (λ _.
        is_some (spec.report_from (option_copied agent.entry)) ≡ true) }
{
    match agent {
        Some(agent) => report_on(alloc, agent),
        None => Ok(Some(Command::Report { agent: None })),
    }
}

/// Reads the command of a subcommand of `podctl` whose words set this.
fn command_of(alloc: Global, subcommand: Subcommand, given: Given) -> Mem<Option<Command>>
    ensures command { IfOk result (λ found. found
        ≡ spec.command_of subcommand (given_of given.entry)) }
    ensures out_of_memory { IfErr result (λ _.
        is_some (spec.command_of subcommand (given_of given.entry)) ≡ true) }
{
    match subcommand {
        Subcommand::Init => init_from(alloc, given.base, given.owner),
        Subcommand::Pipe => pipe_of(alloc, given.as_owner, given.fresh, given.trail),
        Subcommand::Check => Ok(Some(Command::Check)),
        Subcommand::Audit => Ok(Some(Command::Audit)),
        Subcommand::Load => Ok(load_from(given.operand)),
        Subcommand::Report => report_from(alloc, given.agent),
        Subcommand::Ship => Ok(Some(Command::Ship)),
        Subcommand::Follow => Ok(Some(Command::Follow)),
    }
}

/// Reads the command of a subcommand of `podctl` whose words set this, where no option is without
/// its value.
fn command_from(alloc: Global, subcommand: Subcommand, given: Given) -> Mem<Option<Command>>
    ensures command { IfOk result (λ found. found
        ≡ spec.command_from subcommand (given_of given.entry)) }
    ensures out_of_memory { IfErr result (λ _.
        is_some (spec.command_from subcommand (given_of given.entry)) ≡ true) }
{
    match given.mode {
        Mode::Value(_) => Ok(None),
        Mode::Options => command_of(alloc, subcommand, given),
        Mode::Operands => command_of(alloc, subcommand, given),
    }
}

/// Reads the command of a subcommand of `podctl` with these words after it.
fn command_after(alloc: Global, words: &[String], subcommand: Subcommand) -> Mem<Option<Command>>
    ensures command { IfOk result (λ found. found
        ≡ spec.command_after (map string_bytes words.now) subcommand) }
    ensures out_of_memory { IfErr result (λ _. is_some
        (spec.command_after (map string_bytes words.now) subcommand) ≡ true) }
{
    match given_by(subcommand, words) {
        Some(given) => command_from(alloc, subcommand, given),
        None => Ok(None),
    }
}

/// Reads the command of `podctl` whose subcommand the first word names, with these words after it.
fn command_named(alloc: Global, word: &str, words: &[String]) -> Mem<Option<Command>>
    ensures command { IfOk result (λ found. found
        ≡ spec.command_named word.now (map string_bytes words.now)) }
    ensures out_of_memory { IfErr result (λ _. is_some
        (spec.command_named word.now (map string_bytes words.now)) ≡ true) }
{
    match Subcommand::of(word) {
        Some(subcommand) => command_after(alloc, words, subcommand),
        None => Ok(None),
    }
}

/// Reads the command of `podctl` from the words after the program's name; none where they are
/// invalid. Whether they are is decided without memory, so the call is out of memory only where
/// they are valid.
#[tactic(auto, unfolding(crate::specs::Readings::reading))]
pub fn read(alloc: Global, words: &[String]) -> Mem<Option<Command>>
    ensures reading { IfOk result (λ found. found ≡ reading (map string_bytes words.now)) }
    ensures sound { IfOk result (λ found. IfSome found IsSound) }
    ensures out_of_memory { IfErr result (λ _.
        is_some (reading (map string_bytes words.now)) ≡ true) }
{
    match words.split_first() {
        Some((word, rest)) => command_named(alloc, word.as_str(), rest),
        None => Ok(None),
    }
}
