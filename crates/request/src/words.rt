//! The words after the program's name.
ghost use Rattle.std.specs.Prelude.{◌≡◌, ◌≤◌, IfOk, IfSome, map, option_map, string_bytes};
ghost use Rattle.std.specs.Prelude.{unwrap_or};
ghost use Rattle.clap.specs.Words.{first_of, found_of, rows_of};
ghost use Rattle.dossier_csv.specs.Columns.{number_of};
ghost use Rattle.calendar.specs.Texts.{date_in};
ghost use Rattle.request.specs.Modes.{AreNumbers, IsMode};
ghost use Rattle.request.specs.Request.{IsDeadlines, IsRequest, IsStart, Reads, between};
ghost use Rattle.request.specs.Request.{deadlines_option, deadlines_with, in_start_years};
ghost use Rattle.request.specs.Request.{mode_option, named_words, number_option, numbers_option};
ghost use Rattle.request.specs.Request.{picker_named, picker_option, request_in, request_of};
ghost use Rattle.request.specs.Request.{request_of_named, start_option};

use crate::command::parse;
use crate::modes::{Mode, Numbers, mode_of};
use crate::pickers::{PickerChoice, PickerName};
use crate::refusal::{BadWords, WordsRefusal};
use crate::request::{Deadlines, Request};
use admit_core::{MAX_DAY, MAX_NUMBER};
use calendar::{Civil, parts, read_date};
use clap::ArgMatches;
use dossier_csv::number_of;
use sample_gen::MAX_CANDIDATES;
use std::alloc::{AllocError, Global};

/// The picker of a word.
fn picker_named(text: &str) -> Option<PickerChoice>
    ensures { result ≡ picker_named text.now }
{
    match text {
        "first" => Some(PickerChoice::Same(PickerName::First)),
        "last" => Some(PickerChoice::Same(PickerName::Last)),
        "turn" => Some(PickerChoice::Same(PickerName::Turn)),
        "each" => Some(PickerChoice::Each),
        _ => None,
    }
}

/// The number that a text writes, where it is in the range.
fn number_between(text: &str, least: u32, most: u32) -> Option<u32>
    ensures value { result ≡ between least most (number_of text.now) }
    ensures range { IfSome result (λ number. (least ≤ number) × (number ≤ most)) }
{
    let number = number_of(text.as_bytes())?;
    if u64::from(least) <= number && number <= u64::from(most) {
        Some(number as u32)
    } else {
        None
    }
}

/// The first year in which a campaign may begin: the day before it is still a date that is read.
const FIRST_START_YEAR: u32 = 1901;

/// The last year in which a campaign may begin: all its days and deadlines are dates.
const LAST_START_YEAR: u32 = 2298;

/// The date that a text names, of a year in which a campaign may begin.
fn start_date(text: &str) -> Option<Civil>
    ensures value { result ≡ in_start_years (date_in text.now) }
    ensures range { IfSome result IsStart }
{
    let date = read_date(text.as_bytes())?;
    let (year, _, _) = parts(date);
    if FIRST_START_YEAR <= year && year <= LAST_START_YEAR {
        Some(date)
    } else {
        None
    }
}

/// The value of an argument, where it is given.
fn value_of<'a>(matches: &ArgMatches<'a>, id: &str) -> Option<&'a str>
    ensures { option_map (λ s. s.now) result ≡ first_of id.now (rows_of (found_of matches.now)) }
{
    matches.get_str(id)
}

/// The number of an option, where it is given.
#[tactic(auto, unfolding(crate::specs::Request::number_option))]
fn number_option(
    matches: &ArgMatches<'_>,
    id: &str,
    least: u32,
    most: u32,
) -> Result<Option<u32>, BadWords>
    ensures value { result ≡ number_option id.now least most (rows_of (found_of matches.now)) }
    ensures range { IfOk result (λ number. IfSome number (λ n. (least ≤ n) × (n ≤ most))) }
{
    let Some(text) = value_of(matches, id) else {
        return Ok(None);
    };
    match number_between(text, least, most) {
        Some(number) => Ok(Some(number)),
        None => Err(BadWords),
    }
}

/// The numbers that a mode may need, each tested whether or not the mode needs it.
#[tactic(auto, unfolding(crate::specs::Request::numbers_option))]
fn numbers_option(matches: &ArgMatches<'_>) -> Result<Numbers, BadWords>
    ensures value { result ≡ numbers_option (rows_of (found_of matches.now)) }
    ensures range { IfOk result AreNumbers }
{
    Ok(Numbers {
        number: number_option(matches, "number", 1, MAX_CANDIDATES)?,
        wish: number_option(matches, "wish", 1, MAX_NUMBER)?,
        school: number_option(matches, "school", 1, MAX_NUMBER)?,
    })
}

/// The mode, which is required.
#[tactic(auto, unfolding(crate::specs::Request::mode_option))]
fn mode_option(matches: &ArgMatches<'_>, numbers: Numbers) -> Result<Mode, BadWords>
    requires { AreNumbers numbers }
    ensures value { result ≡ mode_option numbers (rows_of (found_of matches.now)) }
    ensures known { IfOk result IsMode }
{
    match value_of(matches, "mode") {
        None => Err(BadWords),
        Some(text) => mode_of(text, numbers).ok_or(BadWords),
    }
}

/// The picker, which is the first where none is given.
#[tactic(auto, unfolding(crate::specs::Request::picker_option))]
fn picker_option(matches: &ArgMatches<'_>) -> Result<PickerChoice, BadWords>
    ensures { result ≡ picker_option (rows_of (found_of matches.now)) }
{
    match value_of(matches, "picker") {
        None => Ok(PickerChoice::Same(PickerName::First)),
        Some(text) => picker_named(text).ok_or(BadWords),
    }
}

/// The date of day 1, where it is given.
#[tactic(auto, unfolding(crate::specs::Request::start_option))]
fn start_option(matches: &ArgMatches<'_>) -> Result<Option<Civil>, BadWords>
    ensures value { result ≡ start_option (rows_of (found_of matches.now)) }
    ensures range { IfOk result (λ start. IfSome start IsStart) }
{
    let Some(text) = value_of(matches, "start") else {
        return Ok(None);
    };
    match start_date(text) {
        Some(start) => Ok(Some(start)),
        None => Err(BadWords),
    }
}

/// The date of day 1 and the term of offers, which are given together or not at all.
fn deadlines_with(start: Option<Civil>, term: Option<u32>) -> Result<Option<Deadlines>, BadWords>
    requires start { IfSome start IsStart }
    requires term { IfSome term (λ n. n ≤ 366) }
    ensures value { result ≡ deadlines_with start term }
    ensures range { IfOk result (λ deadlines. IfSome deadlines IsDeadlines) }
{
    match (start, term) {
        (None, None) => Ok(None),
        (Some(start), Some(term)) => Ok(Some(Deadlines { start, term })),
        _ => Err(BadWords),
    }
}

/// When offers lapse.
#[tactic(auto, unfolding(crate::specs::Request::deadlines_option))]
fn deadlines_option(matches: &ArgMatches<'_>) -> Result<Option<Deadlines>, BadWords>
    ensures value { result ≡ deadlines_option (rows_of (found_of matches.now)) }
    ensures range { IfOk result (λ deadlines. IfSome deadlines IsDeadlines) }
{
    let start = start_option(matches)?;
    let term = number_option(matches, "term", 0, MAX_DAY)?;
    deadlines_with(start, term)
}

/// How many days are run; 1 where it is not given.
fn days_of(days: Option<u32>) -> u32
    requires { IfSome days (λ n. (1 ≤ n) × (n ≤ 366)) }
    ensures value { result ≡ unwrap_or days 1 }
    ensures least { 1 ≤ result }
    ensures most { result ≤ 366 }
{
    days.unwrap_or(1)
}

/// What the matches of the command ask for.
#[tactic(auto, unfolding(crate::specs::Request::request_in))]
fn request_in(matches: &ArgMatches<'_>) -> Result<Request, BadWords>
    ensures value { result ≡ request_in (rows_of (found_of matches.now)) }
    ensures known { IfOk result IsRequest }
{
    let numbers = numbers_option(matches)?;
    Ok(Request {
        mode: mode_option(matches, numbers)?,
        days: days_of(number_option(matches, "days", 1, MAX_DAY)?),
        picker: picker_option(matches)?,
        deadlines: deadlines_option(matches)?,
    })
}

/// What the words ask for, the program's name first.
fn read_named(alloc: Global, words: &[&str]) -> Result<Request, WordsRefusal>
    ensures value { Reads result (request_of_named (map (λ s. s.now) words.now)) }
    ensures known { IfOk result IsRequest }
{
    let matches = parse(alloc, words)?;
    Ok(request_in(&matches)?)
}

/// The words with the program's name before them.
fn with_name<'a>(alloc: Global, words: &'a [String]) -> Result<Vec<&'a str>, AllocError>
    ensures { IfOk result (λ all.
        map (λ s. s.now) all.items ≡ named_words (map string_bytes words.entry.now)) }
{
    let mut all: Vec<&'a str> = Vec::new(alloc);
    all.push("parcours")?;
    for word in words {
        all.push(word.as_str())?;
    }
    Ok(all)
}

/// What the words ask for: they are bad where the command refuses them or a value fails its test.
pub fn read_request(alloc: Global, words: &[String]) -> Result<Request, WordsRefusal>
    ensures value { Reads result (request_of (map string_bytes words.now)) }
    ensures known { IfOk result IsRequest }
{
    let all = with_name(alloc, words)?;
    read_named(alloc, all.as_slice())
}
