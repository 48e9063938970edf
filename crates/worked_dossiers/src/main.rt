//! Looks at worked dossiers, and prints a line for each thing that is looked at: whether it is as
//! its file says. The bars fall in the plain and in the linked system of boarding schools side by
//! side, which must answer alike from fall to fall; the tables of next mornings are made; chains of
//! a first day are tested; and single calls of passes, days, campaigns and beds are made. Its words
//! are the names of the files.
//!
//! `worked_dossiers dossiers.txt mornings.txt chains.txt calls.txt`
#![tactic(auto)]

ghost use Rattle.std.specs.Prelude.{◌<◌};

mod alike;
mod calls;
mod campaigns;
mod chains;
mod mornings;
mod tables;
mod views;

use admit_core::InFault;
use alike::{Seen, seen_of};
use calls::called_in;
use case_file::{Section, Slots, sections, slot_named};
use chains::verdict_in;
use dossier_check::check;
use mornings::morning_in;
use sample_gen::sample;
use std::alloc::{AllocError, Global};
use std::{env, fs, io};
use tables::dossier_of;

/// What is seen in the dossier that slots stand for.
fn seen_in(alloc: Global, slots: &Slots) -> Result<Option<Seen>, InFault> {
    let dossier = dossier_of(alloc, slots)?;
    Ok(seen_of(alloc, &dossier)?)
}

/// What is seen in a sample.
fn seen_in_sample(alloc: Global, number: u32) -> Result<Option<Seen>, InFault>
    requires some { 0 < number }
    requires at_most { number < 5000 }
{
    let tables = sample(alloc, number)?;
    let checked = check(alloc, &tables)?;
    Ok(seen_of(alloc, &checked.dossier)?)
}

/// How many bars fall in a sample in which both systems answer alike; none elsewhere.
fn falls_in_sample(alloc: Global, number: u32) -> u32 {
    if number < 1 || number > 4999 {
        return 0;
    }
    match seen_in_sample(alloc, number) {
        Ok(Some(seen)) => seen.falls,
        _ => 0,
    }
}

/// The line of a dossier in which this is to be seen.
fn line_of(
    alloc: Global,
    name: &str,
    seen: &Result<Option<Seen>, InFault>,
    text: &str,
) -> Result<String, AllocError> {
    match seen {
        Ok(Some(seen)) if seen.text.as_str() == text => format!(in alloc; "ok: {name}"),
        Ok(Some(seen)) => format!(in alloc; "FAILED: {name}\n{}", seen.text),
        Ok(None) => format!(in alloc; "FAILED: {name}: the systems do not answer alike"),
        Err(_) => format!(in alloc; "FAILED: {name}: no dossier"),
    }
}

/// The line of a sample in which bars are to fall.
fn sample_line(alloc: Global, number: &str) -> Result<String, AllocError> {
    let falls = falls_in_sample(alloc, number.parse::<u32>().unwrap_or(0));
    let verdict = if falls > 0 { "ok" } else { "FAILED" };
    format!(in alloc; "{verdict}: the sample of {number}")
}

/// The line of what is seen of a dossier, which is to be this text.
fn seen_line(
    alloc: Global,
    name: &str,
    what: &str,
    seen: &Result<String, InFault>,
    text: &str,
) -> Result<String, AllocError> {
    match seen {
        Ok(seen) if seen.as_str() == text => format!(in alloc; "ok: {name}: {what}"),
        Ok(seen) => format!(in alloc; "FAILED: {name}: {what}\n{seen}"),
        Err(_) => format!(in alloc; "FAILED: {name}: {what}: no dossier"),
    }
}

/// The line of a section in which a slot of a dossier stands, or its tables or a chain are looked
/// at; none where there is nothing to print.
fn take_other(
    alloc: Global,
    name: &str,
    slots: &mut Slots,
    section: &Section<'_>,
) -> Result<Option<String>, AllocError> {
    let text = section.text.as_str();
    match section.name {
        "morning" => {
            let seen = morning_in(alloc, slots, section.words.parse::<u32>().unwrap_or(0));
            Ok(Some(seen_line(alloc, name, section.line, &seen, text)?))
        }
        "verdict" => {
            let seen = verdict_in(alloc, slots);
            Ok(Some(seen_line(alloc, name, section.line, &seen, text)?))
        }
        "pass"
        | "run_day"
        | "run_dated_day"
        | "campaign"
        | "with_beds"
        | "least_beds"
        | "grown_bars"
        | "make_morning"
        | "auto_one"
        | "envy_list" => {
            let number = section.words.parse::<u32>().unwrap_or(0);
            let seen = called_in(alloc, slots, section.name, number);
            Ok(Some(seen_line(alloc, name, section.line, &seen, text)?))
        }
        other => match slot_named(other) {
            Some(slot) => {
                slots.put(alloc, slot, text.as_bytes())?;
                Ok(None)
            }
            None => Ok(Some(format!(in alloc; "FAILED: no section is {other}")?)),
        },
    }
}

/// Takes a section, and answers what there is to print.
fn take(
    alloc: Global,
    name: &mut String,
    slots: &mut Slots,
    section: &Section<'_>,
) -> Result<Option<String>, AllocError> {
    match section.name {
        "dossier" => {
            *name = String::from_str(alloc, section.words)?;
            *slots = Slots::new();
            Ok(None)
        }
        "falls" => {
            let seen = seen_in(alloc, slots);
            Ok(Some(line_of(alloc, name.as_str(), &seen, section.text.as_str())?))
        }
        "sample" => Ok(Some(sample_line(alloc, section.words)?)),
        _ => take_other(alloc, name.as_str(), slots, section),
    }
}

/// Looks at the dossiers of a file.
fn run_file(rt: &HostRuntime, file: &str) -> io::Result<()> {
    let alloc = rt.alloc();
    let text = fs::read_to_string(rt, file)?;
    let mut name = String::new(alloc);
    let mut slots = Slots::new();
    for section in &sections(alloc, text.as_str())? {
        if let Some(line) = take(alloc, &mut name, &mut slots, section)? {
            rt.println(line)?;
        }
    }
    Ok(())
}

fn main(rt: HostRuntime) -> io::Result<()> {
    for file in env::args(&rt)?.skip(1) {
        run_file(&rt, file.as_str())?;
    }
    Ok(())
}
