//! The command line, built for clap.

ghost use Rattle.std.specs.Prelude.{◌≡◌, IfOk, false};
ghost use Rattle.clap.specs.declared.builder.command.Command.TheViews.{out-Command};
ghost use Rattle.clap.specs.Words.{App, app_of, rule_of, with_rule, with_subcommand};
ghost use Rattle.top_call.specs.CommandLine.{alone, command_line, generated, program, target_rule, targeted, value_rule};

use clap::{Arg, Command};
use std::alloc::{AllocError, Global};

/// The program, whose words come without its name.
fn program<'a>(alloc: Global) -> Command<'a>
    ensures app { app_of result ≡ program }
    ensures local { (out-Command result).has_globals ≡ false }
{
    Command::new(alloc, "portable").no_binary_name(true)
}

/// A value that has to be there.
fn value<'a>(alloc: Global, id: &'a str) -> Arg<'a>
    ensures rule { rule_of result ≡ value_rule id.now }
    ensures local { result.global ≡ false }
{
    Arg::new(alloc, id).required(true)
}

/// A subcommand that may name a target.
fn targeted<'a>(alloc: Global, name: &'a str) -> Result<Command<'a>, AllocError>
    ensures app { IfOk result (λ c. app_of c ≡ targeted name.now) }
    ensures local { IfOk result (λ c. (out-Command c).has_globals ≡ false) }
{
    Command::new(alloc, name).arg(Arg::new(alloc, "target").long("target"))
}

/// A subcommand with the three values of a generated run.
fn generated<'a>(alloc: Global, name: &'a str) -> Result<Command<'a>, AllocError>
    ensures app { IfOk result (λ c. app_of c ≡ generated name.now) }
    ensures local { IfOk result (λ c. (out-Command c).has_globals ≡ false) }
{
    Command::new(alloc, name)
        .arg(value(alloc, "SEED"))?
        .arg(value(alloc, "THREADS"))?
        .arg(value(alloc, "CALLS"))
}

/// The command line: `run` and `plan`, each with `--target` and a name or without, `check`, `convert`, `targets`, and
/// `many` with a seed, a number of threads and a number of calls.
#[tactic(auto, unfolding(crate::specs::CommandLine::command_line))]
pub(crate) fn command_line<'a>(alloc: Global) -> Result<Command<'a>, AllocError>
    ensures { IfOk result (λ c. app_of c ≡ command_line) }
{
    program(alloc)
        .subcommand(targeted(alloc, "run")?)?
        .subcommand(Command::new(alloc, "check"))?
        .subcommand(Command::new(alloc, "convert"))?
        .subcommand(targeted(alloc, "plan")?)?
        .subcommand(Command::new(alloc, "targets"))?
        .subcommand(generated(alloc, "many")?)
}
