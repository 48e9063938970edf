//! The command whose words are read.
ghost use Rattle.std.specs.Prelude.{◌≡◌, IfOk, map};
ghost use Rattle.clap.specs.Words.{FailsBy, app_of, fault_of, found_of, matches_of, rows_of};
ghost use Rattle.clap.specs.Words.{with_rule};
ghost use Rattle.request.specs.Command.{option_rule, parcours, with_options};

use clap::{Arg, ArgMatches, Command, Error};
use std::alloc::{AllocError, Global};

/// The command with one more option of one text value.
fn with_option<'a>(
    alloc: Global,
    command: Command<'a>,
    name: &'a str,
) -> Result<Command<'a>, AllocError>
    ensures { IfOk result (λ c.
        app_of c ≡ with_rule (app_of command.entry) (option_rule name.entry.now)) }
{
    let option = Arg::new(alloc, name).long(name);
    command.arg(option)
}

/// The options, each of one text value.
const OPTIONS: [&str; 7] = [
    "days", "wish", "school", "picker", "number", "start", "term",
];

/// The command with options of one text value each.
fn with_options<'a>(
    alloc: Global,
    command: Command<'a>,
    names: &[&'a str],
) -> Result<Command<'a>, AllocError>
    ensures { IfOk result (λ c. app_of c
        ≡ with_options (app_of command.entry) (map (λ s. s.now) names.entry.now)) }
{
    let mut command = command;
    for name in names {
        command = with_option(alloc, command, name)?;
    }
    Ok(command)
}

/// The command `parcours`.
fn command<'a>(alloc: Global) -> Result<Command<'a>, AllocError>
    ensures { IfOk result (λ c. app_of c ≡ parcours) }
{
    let mode = Arg::new(alloc, "mode").required(true);
    let command = Command::new(alloc, "parcours").arg(mode)?;
    with_options(alloc, command, &OPTIONS)
}

/// The matches of the words, the program's name first.
pub(crate) fn parse<'a>(alloc: Global, words: &'a [&'a str]) -> Result<ArgMatches<'a>, Error>
    ensures kinds { FailsBy (fault_of parcours (map (λ s. s.now) words.entry.now)) result }
    ensures matches { IfOk result (λ m.
        rows_of (found_of m) ≡ matches_of parcours (map (λ s. s.now) words.entry.now)) }
{
    let command = command(alloc)?;
    command.try_get_matches_from(words)
}
