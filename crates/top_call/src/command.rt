//! The words of the command line.

ghost use Rattle.std.specs.Prelude.{◌≡◌, ◌<◌, IfOk, IfSome, false, codes};
ghost use Rattle.op_table.specs.Kind.{IsKind, values_of};
ghost use Rattle.op_table.specs.declared.kind.Width.TheVariants.{W32, W64};
ghost use Rattle.op_table.specs.Words.{integer};
ghost use Rattle.clap.specs.Words.{first_of, found_of, rows_of, subcommand_rows_of};
ghost use Rattle.top_call.specs.Commands.{IsAsked, IsTargetAsked, ReadsWords, command_by, command_in, command_of, generated, number_of, target_named, text_of};

use crate::command_line::command_line;
use clap::ArgMatches;
use clap::error::ErrorKind;
use op_table::{Class, Kind, Width, read_value};
use std::alloc::Global;
use target_desc::{Target, builtin};
use thiserror::Error;
use work_lang::many_fits;

/// What the words ask for.
#[derive(Clone, Copy, Debug, PartialEq, Eq)]
pub enum Command {
    /// Reads a workload, runs it and writes the report: on its own target, or on this one.
    Run { target: Option<Target> },
    /// Reads a workload and writes its canonical text.
    Check,
    /// Reads a workload and writes the canonical text of the same workload in version 2.
    Convert,
    /// Reads a workload and writes its plan table: on its own target, or on this one.
    Plan { target: Option<Target> },
    /// Writes the built-in targets, and reads nothing.
    Targets,
    /// Runs the workload that a seed generates, of so many threads with so many calls each, and writes its last values.
    /// It reads nothing.
    Many { seed: u64, threads: u32, calls: u32 },
}

/// Why there is no command.
#[derive(Clone, Copy, Debug, PartialEq, Eq, Error)]
pub enum WordsFault {
    /// The words are no form.
    #[error("the words are no form")]
    Usage,
    /// Memory was wanting.
    #[error("out of memory")]
    NoMemory,
}

const U64: Kind = Kind {
    width: Width::W64,
    signed: false,
    class: Class::Int,
};

const U32: Kind = Kind {
    width: Width::W32,
    signed: false,
    class: Class::Int,
};

/// The built-in target of a name, where one is given. None: it is the name of no built-in target.
#[tactic(auto, unfolding(crate::specs::Commands::target_named))]
fn target_named(name: Option<&str>) -> Option<Option<Target>>
    ensures value { result ≡ target_named (text_of name.entry) }
    ensures target { IfSome result (λ t. IsTargetAsked t) }
{
    match name {
        None => Some(None),
        Some(name) => match builtin(name.as_bytes()) {
            Some(target) => Some(Some(target)),
            None => None,
        },
    }
}

/// The number that a text spells, of an unsigned kind.
#[tactic(auto, unfolding(crate::specs::Commands::number_of))]
fn number_of(kind: Kind, text: Option<&str>) -> Option<u128>
    requires { IsKind kind }
    ensures value { result ≡ number_of kind (text_of text.entry) }
    ensures fits { IfSome result (λ n. n < values_of kind) }
{
    match text {
        None => None,
        Some(text) => match read_value(kind, text.as_bytes()) {
            Ok(n) => Some(n),
            Err(_) => None,
        },
    }
}

/// The text of a value, where it is given.
fn value<'a>(values: &ArgMatches<'a>, id: &str) -> Option<&'a str>
    ensures { text_of result ≡ first_of id.now (rows_of (found_of values.now)) }
{
    values.get_str(id)
}

/// The target that the values of a subcommand name, if any.
fn target_in(values: &ArgMatches<'_>) -> Option<Option<Target>>
    ensures value { result ≡ target_named (first_of (codes "target") (rows_of (found_of values.now))) }
    ensures target { IfSome result (λ t. IsTargetAsked t) }
{
    target_named(value(values, "target"))
}

/// A value that is a number of 64 bits.
fn long_number(values: &ArgMatches<'_>, id: &str) -> Option<u64>
    ensures { result ≡ number_of (integer false W64) (first_of id.now (rows_of (found_of values.now))) }
{
    let number = number_of(U64, value(values, id))?;
    Some(number as u64)
}

/// A value that is a number of 32 bits.
fn number(values: &ArgMatches<'_>, id: &str) -> Option<u32>
    ensures { result ≡ number_of (integer false W32) (first_of id.now (rows_of (found_of values.now))) }
{
    let number = number_of(U32, value(values, id))?;
    Some(number as u32)
}

/// The generated run that the values name.
fn generated(values: &ArgMatches<'_>) -> Option<Command>
    ensures value { result ≡ generated (rows_of (found_of values.now)) }
    ensures asked { IfSome result (λ command. IsAsked command) }
{
    let seed = long_number(values, "SEED")?;
    let threads = number(values, "THREADS")?;
    let calls = number(values, "CALLS")?;
    if many_fits(threads, calls) {
        Some(Command::Many {
            seed,
            threads,
            calls,
        })
    } else {
        None
    }
}

/// The command of a subcommand with its values.
fn command_by(name: &str, values: &ArgMatches<'_>) -> Option<Command>
    ensures value { result ≡ command_by name.now (rows_of (found_of values.now)) }
    ensures asked { IfSome result (λ command. IsAsked command) }
{
    if name == "run" {
        let target = target_in(values)?;
        Some(Command::Run { target })
    } else if name == "check" {
        Some(Command::Check)
    } else if name == "convert" {
        Some(Command::Convert)
    } else if name == "plan" {
        let target = target_in(values)?;
        Some(Command::Plan { target })
    } else if name == "targets" {
        Some(Command::Targets)
    } else if name == "many" {
        generated(values)
    } else {
        None
    }
}

/// The command that words ask for which clap has taken.
#[tactic(auto, unfolding(crate::specs::Commands::command_in))]
fn command_in(matches: &ArgMatches<'_>) -> Option<Command>
    ensures value { result ≡ command_in (subcommand_rows_of matches.now) }
    ensures asked { IfSome result (λ command. IsAsked command) }
{
    match matches.subcommand() {
        Some((name, values)) => command_by(name, values),
        None => None,
    }
}

/// What the words ask for, the program's name apart: `run` and `plan`, each alone or with `--target` and one of the
/// names of targets, `check`, `convert`, `targets`, and `many` with a seed, a number of threads and a number of calls.
/// Usage comes exactly where clap doesn't take the words, they name no subcommand, or a value isn't of its form; a call
/// for help is Usage too.
pub fn read_words(alloc: Global, words: &[String]) -> Result<Command, WordsFault>
    ensures value { ReadsWords (command_of words.now) result }
    ensures asked { IfOk result (λ command. IsAsked command) }
{
    let Ok(line) = command_line(alloc) else {
        return Err(WordsFault::NoMemory);
    };
    match line.try_get_matches_from(words) {
        Ok(matches) => match command_in(&matches) {
            Some(command) => Ok(command),
            None => Err(WordsFault::Usage),
        },
        Err(error) => match error.kind() {
            ErrorKind::OutOfMemory => Err(WordsFault::NoMemory),
            _ => Err(WordsFault::Usage),
        },
    }
}
