//! The bench on which the sections of a file are carried out.
ghost use Rattle.std.specs.Prelude.{◌≤◌};

use crate::expected::Expected;
use crate::outside::{CALM, Outside, Ran, play};
use crate::sweeps::{comes_about, each_cut_is_answered, each_read_fails, each_room_cuts_off};
use crate::told::Told;
use admit_core::Slot;
use bar_fixpoint::{FirstPicker, LastPicker, TiredPicker, TurnPicker};
use case_file::{Section, Slots, slot_named};
use replay_cli::Pickers;
use std::alloc::{AllocError, Global};

/// What the sections so far have laid out.
#[derive(Drop)]
pub(crate) struct Bench {
    case: String,
    words: String,
    slots: Slots,
    outside: Outside,
    told: Option<Told>,
    expected: Expected,
    written: Vec<u8>,
}

/// The line of a run, or of many that are alike.
fn line_of(alloc: Global, is_well: bool, case: &str, what: &str) -> Result<String, AllocError> {
    let verdict = if is_well { "ok" } else { "FAILED" };
    format!(in alloc; "{verdict}: {case}: {what}")
}

/// What a run came to that did not end as it is to end.
fn failure_of(alloc: Global, case: &str, ran: &Ran) -> Result<String, AllocError> {
    let status = ran.status;
    let text = Vec::from_slice(alloc, ran.text.as_slice())?;
    let text = String::from_utf8(text).unwrap_or(String::new(alloc));
    format!(in alloc; "FAILED: {case}: status {status}\n{text}")
}

/// The number of the pick that the first picker refuses in a case, where it does.
fn refused_pick(sections: &[Section<'_>]) -> Option<u64> {
    let tires = sections.iter().find(|section| section.name == "tires")?;
    tires.words.parse::<u64>().ok()
}

impl Bench {
    /// A bench with nothing on it.
    pub(crate) fn new(alloc: Global) -> Bench {
        Bench {
            case: String::new(alloc),
            words: String::new(alloc),
            slots: Slots::new(),
            outside: CALM,
            told: None,
            expected: Expected::nothing(alloc),
            written: Vec::new(alloc),
        }
    }

    /// Carries out a case with pickers that were never asked, and answers the lines to print.
    pub(crate) fn play(
        &mut self,
        alloc: Global,
        sections: &[Section<'_>],
    ) -> Result<Vec<String>, AllocError> {
        match refused_pick(sections) {
            Some(pick) if pick > 0 => self.play_tired(alloc, sections, pick),
            _ => self.play_anew(alloc, sections),
        }
    }

    fn play_anew(
        &mut self,
        alloc: Global,
        sections: &[Section<'_>],
    ) -> Result<Vec<String>, AllocError> {
        let mut pickers = Pickers {
            first: Some(Box::new(alloc, FirstPicker::new(alloc))?),
            last: Some(Box::new(alloc, LastPicker::new(alloc))?),
            turn: Some(Box::new(alloc, TurnPicker::new(alloc))?),
        };
        self.take_all(alloc, sections, &mut pickers)
    }

    /// The same with a first picker that refuses one pick.
    fn play_tired(
        &mut self,
        alloc: Global,
        sections: &[Section<'_>],
        pick: u64,
    ) -> Result<Vec<String>, AllocError>
        requires { 1 ≤ pick }
    {
        let mut pickers = Pickers {
            first: Some(Box::new(alloc, TiredPicker::new(alloc, pick))?),
            last: Some(Box::new(alloc, LastPicker::new(alloc))?),
            turn: Some(Box::new(alloc, TurnPicker::new(alloc))?),
        };
        self.take_all(alloc, sections, &mut pickers)
    }

    fn take_all(
        &mut self,
        alloc: Global,
        sections: &[Section<'_>],
        pickers: &mut Pickers,
    ) -> Result<Vec<String>, AllocError> {
        let mut lines = Vec::new(alloc);
        for section in sections {
            if let Some(line) = self.take(alloc, section, pickers)? {
                lines.push(line)?;
            }
        }
        Ok(lines)
    }

    /// Carries out a section, and answers what there is to print.
    fn take(
        &mut self,
        alloc: Global,
        section: &Section<'_>,
        pickers: &mut Pickers,
    ) -> Result<Option<String>, AllocError> {
        match section.name {
            "exit" | "begins" => {
                self.expect(alloc, section)?;
                Ok(Some(self.run(alloc, pickers)?))
            }
            "same" | "rooms" | "reads" | "cuts" => {
                let is_well = self.run_many(alloc, section)?;
                let line = line_of(alloc, is_well, self.case.as_str(), section.line)?;
                Ok(Some(line))
            }
            _ if self.lay_out(alloc, section)? => Ok(None),
            _ => Ok(Some(line_of(alloc, false, "no such section", section.line)?)),
        }
    }

    /// Lays out what a section gives, and answers whether there is a section of its name.
    fn lay_out(&mut self, alloc: Global, section: &Section<'_>) -> Result<bool, AllocError> {
        match section.name {
            "dossier" => self.slots = Slots::new(),
            "case" => self.begin(alloc, section.words)?,
            "words" => self.words = String::from_str(alloc, section.words)?,
            "fails" => self.outside.failing_read = section.words.parse::<u64>().ok(),
            "room" => self.outside.room = section.words.parse::<u64>().ok(),
            "tires" => {}
            "told" => self.told = Some(Told::read(alloc, section.words)?),
            "final" => self.hand_on(alloc)?,
            name => match slot_named(name) {
                Some(slot) => self.slots.put(alloc, slot, section.text.as_bytes())?,
                None => return Ok(false),
            },
        }
        Ok(true)
    }

    fn begin(&mut self, alloc: Global, name: &str) -> Result<(), AllocError> {
        self.case = String::from_str(alloc, name)?;
        self.slots.begin_case();
        self.outside = CALM;
        self.told = None;
        Ok(())
    }

    /// Makes the final state that the last run wrote the state slot.
    fn hand_on(&mut self, alloc: Global) -> Result<(), AllocError> {
        let written = Vec::from_slice(alloc, self.written.as_slice())?;
        let written = String::from_utf8(written).unwrap_or(String::new(alloc));
        let (_, state) = written.as_str().split_once("\nfinal\n").unwrap_or(("", ""));
        self.slots.put(alloc, Slot::State, state.as_bytes())
    }

    /// Notes how the next run is to end.
    fn expect(&mut self, alloc: Global, section: &Section<'_>) -> Result<(), AllocError> {
        self.expected = Expected {
            status: section.words.parse::<u8>().unwrap_or(255),
            text: Vec::from_slice(alloc, section.text.as_bytes())?,
            is_front: section.name == "begins",
            told: self.told.take(),
        };
        Ok(())
    }

    /// Runs the program with the words that are laid out.
    fn run(&mut self, alloc: Global, pickers: &mut Pickers) -> Result<String, AllocError> {
        let words = self.words.as_str();
        let ran = play(alloc, words, &self.slots, self.outside, pickers)?;
        let line = if self.expected.is_met(&ran) {
            line_of(alloc, true, self.case.as_str(), words)?
        } else {
            failure_of(alloc, self.case.as_str(), &ran)?
        };
        self.written = ran.text;
        Ok(line)
    }

    /// Whether runs like the last one, each with new pickers, end as they are to end.
    fn run_many(&mut self, alloc: Global, section: &Section<'_>) -> Result<bool, AllocError> {
        let words = self.words.as_str();
        let slots = &mut self.slots;
        let expected = &self.expected;
        match section.name {
            "rooms" => each_room_cuts_off(alloc, words, slots, expected),
            "reads" => each_read_fails(alloc, words, slots, expected, section.words),
            "cuts" => each_cut_is_answered(alloc, words, slots, section.words),
            _ => comes_about(alloc, section.words, slots, CALM, expected),
        }
    }
}
