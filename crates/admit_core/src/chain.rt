//! Chains: the falls of days, written down so that a reader can test them without making them.
ghost use Rattle.std.specs.Prelude.{◌≡◌, ◌++◌, OnErr, OnOk, Some, string_bytes};
ghost use Rattle.admit_core.specs.Texts.{KeepsRoom, LacksRoom};
ghost use Rattle.admit_core.specs.ChainLines.{chain_reason_name, chain_reason_number, check_reason_name, check_reason_number, chain_fault_text};

use crate::sequence::Sequence;
use crate::text::push_after;
use std::alloc::AllocError;

/// A written fall of a school's bar. The school and the wishes are ids as read.
#[derive(Drop)]
pub struct FallLine {
    pub row: u64,
    pub school: u32,
    pub from: u32,
    pub to: u32,
    pub wishes: Sequence<u32>,
}

/// The falls of one pass, the row of its own line, and that of the line that follows.
#[derive(Drop)]
pub struct PassChain {
    pub row: u64,
    pub falls: Sequence<FallLine>,
    pub next_row: u64,
}

/// The passes of one day, and the row of the line that follows.
#[derive(Drop)]
pub struct DayChain {
    pub passes: Sequence<PassChain>,
    pub next_row: u64,
}

/// The days 1, 2, .. of a chain.
#[derive(Drop)]
pub struct Chain {
    pub days: Sequence<DayChain>,
}

/// Why a text is no chain.
#[derive(Clone, Copy)]
pub enum ChainReason {
    NotLine,
    WrongNumber,
    NoEnd,
    AfterEnd,
}

/// The row at which a text is no chain, counted from 1, and why.
#[derive(Clone, Copy)]
pub struct ChainFault {
    pub row: u64,
    pub reason: ChainReason,
}

/// Why a day's chain is not valid. `StillOver` keeps the place of the school.
#[derive(Clone, Copy)]
pub enum CheckReason {
    NotOver,
    WrongWishes,
    WrongBar,
    StillOver { school: u32 },
    PassMissing,
    PassExtra,
}

impl ChainReason {
    /// The number that is printed for the reason.
    pub fn number(&self) -> u32
        ensures { result ≡ chain_reason_number self.now }
    {
        match self {
            ChainReason::NotLine => 1,
            ChainReason::WrongNumber => 2,
            ChainReason::NoEnd => 3,
            ChainReason::AfterEnd => 4,
        }
    }

    /// The reason's name.
    pub fn name(&self) -> &'static str
        ensures { result.now ≡ chain_reason_name self.now }
    {
        match self {
            ChainReason::NotLine => "NotLine",
            ChainReason::WrongNumber => "WrongNumber",
            ChainReason::NoEnd => "NoEnd",
            ChainReason::AfterEnd => "AfterEnd",
        }
    }
}

impl CheckReason {
    /// The number that is printed for the reason.
    pub fn number(&self) -> u32
        ensures { result ≡ check_reason_number self.now }
    {
        match self {
            CheckReason::NotOver => 1,
            CheckReason::WrongWishes => 2,
            CheckReason::WrongBar => 3,
            CheckReason::StillOver { school: _ } => 4,
            CheckReason::PassMissing => 5,
            CheckReason::PassExtra => 6,
        }
    }

    /// The reason's name, without the school that is kept.
    pub fn name(&self) -> &'static str
        ensures { result.now ≡ check_reason_name self.now }
    {
        match self {
            CheckReason::NotOver => "NotOver",
            CheckReason::WrongWishes => "WrongWishes",
            CheckReason::WrongBar => "WrongBar",
            CheckReason::StillOver { school: _ } => "StillOver",
            CheckReason::PassMissing => "PassMissing",
            CheckReason::PassExtra => "PassExtra",
        }
    }
}

impl ChainFault {
    /// Adds the line of the fault, without its line feed.
    pub fn push_onto(&self, text: &mut String) -> Result<(), AllocError>
        ensures all { OnOk result
            (string_bytes text.new ≡ string_bytes text.old ++ chain_fault_text self.now) }
        ensures full { OnErr result (LacksRoom text.old (chain_fault_text self.now)) }
        ensures room { KeepsRoom text.old text.new }
    {
        push_after(text, "not a chain row ", self.row)?;
        push_after(text, " reason ", self.reason.number() as u64)?;
        text.push_str(" ")?;
        text.push_str(self.reason.name())
    }
}
