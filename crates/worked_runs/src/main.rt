//! Runs worked cases over devices in memory, and prints a line for each run: whether it ended and
//! wrote as the case says. Its words are the names of the files of cases.
//!
//! `worked_runs orders.txt days.txt`
#![tactic(auto)]

mod bench;
mod expected;
mod outside;
mod sweeps;
mod told;

use bench::Bench;
use case_file::{Section, sections};
use std::{env, fs, io};

/// Prints what the sections of a case give.
fn run_case(rt: &HostRuntime, bench: &mut Bench, sections: &[Section<'_>]) -> io::Result<()> {
    for line in bench.play(rt.alloc(), sections)? {
        rt.println(line)?;
    }
    Ok(())
}

/// Runs the cases of a file.
fn run_file(rt: &HostRuntime, name: &str) -> io::Result<()> {
    let file = fs::read_to_string(rt, name)?;
    let mut bench = Bench::new(rt.alloc());
    let sections = sections(rt.alloc(), file.as_str())?;
    for case in sections.chunk_by(|_, next| next.name != "case") {
        run_case(rt, &mut bench, case)?;
    }
    Ok(())
}

fn main(rt: HostRuntime) -> io::Result<()> {
    for name in env::args(&rt)?.skip(1) {
        run_file(&rt, name.as_str())?;
    }
    Ok(())
}
