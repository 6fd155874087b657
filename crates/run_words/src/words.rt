//! What the words of the command line say.

ghost use Rattle.std.specs.Prelude.{◌≡◌, ◌≤◌, false, Some, None, IfOk, IfSome, option_map};
ghost use Rattle.clap.specs.Words.{app_of, rule_of, with_rule, first_value, found_of};
ghost use Rattle.plain_types.specs.Limits.{IsWorkerCount};
ghost use Rattle.run_words.specs.Calls.{option_rule, bare_app, app_with_board, app_with_files, drc_app};
ghost use Rattle.run_words.specs.Calls.{number_in, workers_of, source_of, reading_of, reading_by, words_of};
ghost use Rattle.run_words.specs.CallValues.{source_in, reading_in, SourceFits, RequestFits};

use clap::error::ErrorKind;
use clap::{Arg, ArgMatches, Command};
use exact_dec::count_of;
use std::alloc::{AllocError, Global};

/// The most workers.
pub(crate) const MOST_WORKERS: u32 = plain_types::MOST_WORKERS as u32;

/// The greatest generated board.
const MOST_MADE: u32 = 90_000;

/// Where the board comes from.
#[derive(Clone, Copy)]
pub enum BoardSource<'a> {
    /// The file of this name.
    File(&'a str),
    /// The generated board of so many vias and segments, from 1 to 90,000.
    Made(u32),
}

/// What the words ask for: the texts, and the number of workers, from 1 to 64.
#[derive(Clone, Copy)]
pub struct Request<'a> {
    pub board: BoardSource<'a>,
    pub project: Option<&'a str>,
    pub rules: Option<&'a str>,
    pub script: Option<&'a str>,
    pub workers: u32,
}

/// An option that has a value.
fn option<'a>(alloc: Global, name: &'a str) -> Arg<'a>
    ensures rule { rule_of result ≡ option_rule name.entry.now }
    ensures local { result.global ≡ false }
{
    Arg::new(alloc, name).long(name)
}

/// The program's command without its arguments.
fn bare_command<'a>(alloc: Global) -> Command<'a>
    ensures { app_of result ≡ bare_app }
{
    Command::new(alloc, "drc")
        .no_binary_name(true)
        .disable_help_flag(true)
        .disable_version_flag(true)
}

/// The command with one more option that has a value.
fn with_option<'a>(
    alloc: Global,
    command: Command<'a>,
    name: &'a str,
) -> Result<Command<'a>, AllocError>
    ensures { IfOk result (λ more.
        app_of more ≡ with_rule (app_of command.entry) (option_rule name.entry.now)) }
{
    command.arg(option(alloc, name))
}

/// `drc [BOARD]`.
fn command_with_board<'a>(alloc: Global) -> Result<Command<'a>, AllocError>
    ensures { IfOk result (λ command. app_of command ≡ app_with_board) }
{
    bare_command(alloc).arg(Arg::new(alloc, "BOARD"))
}

/// `drc [BOARD] [--project FILE] [--rules FILE] [--script FILE]`.
fn command_with_files<'a>(alloc: Global) -> Result<Command<'a>, AllocError>
    ensures { IfOk result (λ command. app_of command ≡ app_with_files) }
{
    let command = command_with_board(alloc)?;
    let command = with_option(alloc, command, "project")?;
    let command = with_option(alloc, command, "rules")?;
    with_option(alloc, command, "script")
}

/// The program's command, with `[--workers N] [--make N]` behind the files.
fn command<'a>(alloc: Global) -> Result<Command<'a>, AllocError>
    ensures { IfOk result (λ command. app_of command ≡ drc_app) }
{
    let command = command_with_files(alloc)?;
    let command = with_option(alloc, command, "workers")?;
    with_option(alloc, command, "make")
}

/// What the words ask for, or none where they are no command line.
pub(crate) fn request_of<'a>(
    alloc: Global,
    words: &'a [&'a str],
) -> Result<Option<Request<'a>>, AllocError>
    ensures reading { IfOk result (λ request.
        option_map reading_in request ≡ reading_of (words_of words.entry.now)) }
    ensures fits { IfOk result (λ request. IfSome request RequestFits) }
{
    let command = command(alloc)?;
    match command.try_get_matches_from(words) {
        Ok(matches) => Ok(request_in(&matches)),
        Err(error) => match error.kind() {
            ErrorKind::OutOfMemory => Err(AllocError),
            _ => Ok(None),
        },
    }
}

/// What the matches ask for.
fn request_in<'a>(matches: &ArgMatches<'a>) -> Option<Request<'a>>
    ensures reading { option_map reading_in result
        ≡ reading_by (λ name. first_value (found_of matches.now) name) }
    ensures fits { IfSome result RequestFits }
{
    let board = source_of(matches.get_str("BOARD"), matches.get_str("make"))?;
    let workers = workers_of(matches.get_str("workers"))?;
    Some(Request {
        board,
        project: matches.get_str("project"),
        rules: matches.get_str("rules"),
        script: matches.get_str("script"),
        workers,
    })
}

/// Exactly one of a file and a generated board.
fn source_of<'a>(name: Option<&'a str>, count: Option<&'a str>) -> Option<BoardSource<'a>>
    ensures source { option_map source_in result
        ≡ source_of (option_map (λ text. text.now) name.entry)
        (option_map (λ text. text.now) count.entry) }
    ensures fits { IfSome result SourceFits }
{
    match (name, count) {
        (Some(name), None) => Some(BoardSource::File(name)),
        (None, Some(count)) => made_of(count),
        _ => None,
    }
}

/// The generated board of a number from 1 to 90,000.
fn made_of<'a>(count: &str) -> Option<BoardSource<'a>>
    ensures source { option_map source_in result ≡ source_of None (Some count.now) }
    ensures fits { IfSome result SourceFits }
{
    let count = number_in(count, MOST_MADE)?;
    Some(BoardSource::Made(count))
}

/// A number of workers from 1 to 64, 1 where none is given.
fn workers_of(count: Option<&str>) -> Option<u32>
    ensures workers { result ≡ workers_of (option_map (λ text. text.now) count.entry) }
    ensures fits { IfSome result IsWorkerCount }
{
    match count {
        Some(count) => number_in(count, MOST_WORKERS),
        None => Some(1),
    }
}

/// The number that the text spells, from 1 to `most`.
pub(crate) fn number_in(text: &str, most: u32) -> Option<u32>
    ensures number { result ≡ number_in 1 most text.now }
    ensures fits { IfSome result (λ number. (1 ≤ number) × (number ≤ most)) }
{
    match count_of(text.as_bytes()) {
        Ok(number) if 1 <= number && number <= most => Some(number),
        _ => None,
    }
}
