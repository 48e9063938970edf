//! How slots, statuses, bounds and refusals are printed.
ghost use Rattle.std.specs.Prelude.{◌≡◌, ◌++◌, OnErr, OnOk, Some, string_bytes};
ghost use Rattle.admit_core.specs.Texts.{KeepsRoom, LacksRoom};
ghost use Rattle.admit_core.specs.Lines.{bound_letter, kept_by, kept_text, reason_name, reason_number, reason_text, refusal_text, slot_name, status_word};

use crate::ranking::Bound;
use crate::refusal::{Reason, Refusal};
use crate::slot::Slot;
use crate::state::Status;
use crate::text::push_after;
use std::alloc::AllocError;

impl Slot {
    /// The name of the file, without its ending.
    pub fn name(self) -> &'static str
        ensures { result.now ≡ slot_name self }
    {
        match self {
            Slot::Groups => "groups",
            Slot::Programmes => "programmes",
            Slot::Schools => "schools",
            Slot::Rankings => "rankings",
            Slot::Boarding => "boarding",
            Slot::Wishes => "wishes",
            Slot::State => "state",
            Slot::Ceilings => "ceilings",
            Slot::Answers => "answers",
            Slot::Chain => "chain",
        }
    }
}

impl Status {
    /// The word of a row of the states' file.
    pub fn word(self) -> &'static str
        ensures { result.now ≡ status_word self }
    {
        match self {
            Status::Waiting => "waiting",
            Status::Offered => "offered",
            Status::Accepted => "accepted",
            Status::Refused => "refused",
            Status::Withdrawn => "withdrawn",
            Status::Quit => "quit",
            Status::AutoRefused => "auto_refused",
            Status::AutoWithdrawn => "auto_withdrawn",
            Status::Lapsed => "lapsed",
        }
    }
}

impl Bound {
    /// The letter of a position in the line of a group's rules.
    pub fn letter(self) -> &'static str
        ensures { result.now ≡ bound_letter self }
    {
        match self {
            Bound::Free => "-",
            Bound::Scholar => "s",
            Bound::Resident => "r",
            Bound::Both => "b",
            Bound::Alone => "x",
        }
    }
}

impl Reason {
    /// The number that is printed for the reason. 19 is not used.
    pub fn number(&self) -> u32
        ensures { result ≡ reason_number self.now }
    {
        match self {
            Reason::Header => 1,
            Reason::FieldCount(_) => 2,
            Reason::NotNumber(_) => 3,
            Reason::OutOfRange(_) => 4,
            Reason::NotFlag(_) => 5,
            Reason::NotWord(_) => 6,
            Reason::TooManyRows => 7,
            Reason::TooLarge => 8,
            Reason::Repeat(_) => 9,
            Reason::Unknown(_) => 10,
            Reason::RankTaken(_) => 11,
            Reason::Unranked => 12,
            Reason::NoBoardingRank => 13,
            Reason::PreferenceMixed(_) => 14,
            Reason::PreferenceTaken(_) => 15,
            Reason::TwoAccepted(_) => 16,
            Reason::DayFalls => 17,
            Reason::UnfitAnswer(_) => 18,
            Reason::NotDate(_) => 20,
        }
    }
}

/// What a reason keeps beside its name.
#[derive(Clone, Copy)]
enum Kept {
    Nothing,
    Number(u64),
    Found(Status),
}

impl Kept {
    /// Adds it as it stands after the name.
    fn push_onto(self, text: &mut String) -> Result<(), AllocError>
        ensures all { OnOk result
            (string_bytes text.new ≡ string_bytes text.old ++ kept_text self) }
        ensures full { OnErr result (LacksRoom text.old (kept_text self)) }
        ensures room { KeepsRoom text.old text.new }
    {
        match self {
            Kept::Nothing => Ok(()),
            Kept::Number(number) => push_after(text, " ", number),
            Kept::Found(status) => {
                text.push_str(" ")?;
                text.push_str(status.word())
            }
        }
    }
}

impl Reason {
    fn name(&self) -> &'static str
        ensures { result.now ≡ reason_name self.now }
    {
        match self {
            Reason::Header => "Header",
            Reason::FieldCount(_) => "FieldCount",
            Reason::NotNumber(_) => "NotNumber",
            Reason::OutOfRange(_) => "OutOfRange",
            Reason::NotFlag(_) => "NotFlag",
            Reason::NotWord(_) => "NotWord",
            Reason::TooManyRows => "TooManyRows",
            Reason::TooLarge => "TooLarge",
            Reason::Repeat(_) => "Repeat",
            Reason::Unknown(_) => "Unknown",
            Reason::RankTaken(_) => "RankTaken",
            Reason::Unranked => "Unranked",
            Reason::NoBoardingRank => "NoBoardingRank",
            Reason::PreferenceMixed(_) => "PreferenceMixed",
            Reason::PreferenceTaken(_) => "PreferenceTaken",
            Reason::TwoAccepted(_) => "TwoAccepted",
            Reason::DayFalls => "DayFalls",
            Reason::UnfitAnswer(_) => "UnfitAnswer",
            Reason::NotDate(_) => "NotDate",
        }
    }

    fn kept(&self) -> Kept
        ensures { result ≡ kept_by self.now }
    {
        match self {
            Reason::Header => Kept::Nothing,
            Reason::FieldCount(found) => Kept::Number(*found),
            Reason::NotNumber(field) => Kept::Number(*field as u64),
            Reason::OutOfRange(field) => Kept::Number(*field as u64),
            Reason::NotFlag(field) => Kept::Number(*field as u64),
            Reason::NotWord(field) => Kept::Number(*field as u64),
            Reason::TooManyRows => Kept::Nothing,
            Reason::TooLarge => Kept::Nothing,
            Reason::Repeat(first) => Kept::Number(*first),
            Reason::Unknown(field) => Kept::Number(*field as u64),
            Reason::RankTaken(first) => Kept::Number(*first),
            Reason::Unranked => Kept::Nothing,
            Reason::NoBoardingRank => Kept::Nothing,
            Reason::PreferenceMixed(first) => Kept::Number(*first),
            Reason::PreferenceTaken(first) => Kept::Number(*first),
            Reason::TwoAccepted(first) => Kept::Number(*first),
            Reason::DayFalls => Kept::Nothing,
            Reason::UnfitAnswer(status) => Kept::Found(*status),
            Reason::NotDate(field) => Kept::Number(*field as u64),
        }
    }
}

impl Reason {
    /// Adds the reason's name, and the value that it keeps.
    fn push_onto(&self, text: &mut String) -> Result<(), AllocError>
        ensures all { OnOk result
            (string_bytes text.new ≡ string_bytes text.old ++ reason_text self.now) }
        ensures full { OnErr result (LacksRoom text.old (reason_text self.now)) }
        ensures room { KeepsRoom text.old text.new }
    {
        text.push_str(self.name())?;
        self.kept().push_onto(text)
    }
}

impl Refusal {
    /// Adds the line of the refusal, without its line feed.
    pub fn push_onto(&self, text: &mut String) -> Result<(), AllocError>
        ensures all { OnOk result
            (string_bytes text.new ≡ string_bytes text.old ++ refusal_text self.now) }
        ensures full { OnErr result (LacksRoom text.old (refusal_text self.now)) }
        ensures room { KeepsRoom text.old text.new }
    {
        text.push_str("refused ")?;
        text.push_str(self.slot.name())?;
        push_after(text, " row ", self.row)?;
        push_after(text, " reason ", self.reason.number() as u64)?;
        text.push_str(" ")?;
        self.reason.push_onto(text)
    }
}
