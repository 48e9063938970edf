//! Runs worked cases of single crates by their own calls, and prints a line for each: whether it
//! comes to what its file says. Its words are the names of the files.
//!
//! `worked_parts dates.txt slots.txt`
#![tactic(auto)]

mod dates;
mod devices;
mod market_rows;
mod market_words;
mod matchings;
mod orders;
mod plain;
mod queues;
mod reports;
mod samples;
mod shelves;
mod slots;
mod tables;
mod texts;

use admit_core::OutOfMemory;
use case_file::{Section, sections};
use std::alloc::AllocError;
use std::{env, fs, io};
use texts::bytes_in;

/// What an input of a section comes to.
fn answer_of(rt: HostRuntime, section: &Section<'_>, input: &str) -> Result<String, OutOfMemory> {
    let alloc = rt.alloc();
    match section.name {
        "date" => dates::parts_in(alloc, input),
        "deadline" => dates::deadline_in(alloc, input),
        "day" => dates::day_in(alloc, input),
        "number" => dates::number_in(alloc, input),
        "rows" => slots::rows_in(alloc, section.words, input),
        "bytes" => slots::bytes_read(alloc, section.words, input),
        "cuts" => slots::cuts_in(alloc, section.words, input),
        "order" => orders::order_in(alloc, input),
        "queues" => queues::queues_in(alloc, input),
        "nation" => orders::nation_in(alloc, input),
        _ => other_answer(rt, section.name, input),
    }
}

/// The same of the other sections.
fn other_answer(rt: HostRuntime, name: &str, input: &str) -> Result<String, OutOfMemory> {
    let alloc = rt.alloc();
    match name {
        "slot" => shelves::slot_in(alloc, input),
        "reads" => shelves::reads_in(alloc, input),
        "sink" => shelves::sink_in(alloc, input),
        "texts" => shelves::texts_in(alloc, input),
        "file" => devices::file_in(rt, input),
        "pieces" => devices::pieces_in(rt, input),
        "missing" => devices::missing_in(rt, input),
        "folder" => devices::folder_in(rt, input),
        "output" => devices::output_in(rt, input),
        "prints" => devices::printed(rt, input),
        "market" => market_words::market_in(alloc, input),
        "matchings" => matchings::matchings_in(alloc, input),
        "counts" => samples::counts_in(alloc, input),
        "sample" => samples::sample_in(alloc, input),
        "offer" => samples::offer_in(alloc, input),
        "report" => reports::report_in(alloc, input),
        _ => Ok(String::from_str(alloc, "no such section")?),
    }
}

/// The line of a row, which has an input and what it is to come to.
fn line_of(rt: HostRuntime, section: &Section<'_>, row: &str) -> Result<String, OutOfMemory> {
    let (input, wanted) = row.rsplit_once(" = ").unwrap_or((row, ""));
    let found = answer_of(rt, section, input)?;
    let name = section.name;
    if found.as_bytes() == bytes_in(rt.alloc(), wanted)?.as_slice() {
        return Ok(format!(in rt.alloc(); "ok: {name}: {row}")?);
    }
    Ok(format!(in rt.alloc(); "FAILED: {name}: {input} = {found}")?)
}

/// Runs the cases of a section.
fn run_section(rt: HostRuntime, section: &Section<'_>) -> io::Result<()> {
    for row in section.text.lines() {
        let line = line_of(rt, section, row).map_err(|_| AllocError)?;
        rt.println(line)?;
    }
    Ok(())
}

/// Runs the cases of a file.
fn run_file(rt: HostRuntime, name: &str) -> io::Result<()> {
    let file = fs::read_to_string(&rt, name)?;
    for section in &sections(rt.alloc(), file.as_str())? {
        run_section(rt, section)?;
    }
    Ok(())
}

fn main(rt: HostRuntime) -> io::Result<()> {
    for name in env::args(&rt)?.skip(1) {
        run_file(rt, name.as_str())?;
    }
    Ok(())
}
