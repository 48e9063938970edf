//! What has been read of a chain, line by line.
ghost use Rattle.std.specs.Prelude.{◌≡◌, [], OnOk, IfOk};
ghost use Rattle.certificate.specs.Grammar.{misplaced_at};
ghost use Rattle.certificate.specs.Open.{days_until, opened, passes_until};

use crate::fault::misplaced;
use crate::line::{Kind, Line};
use admit_core::{ChainReason, DayChain, FallLine, OutOfMemory, PassChain, Sequence};
use std::alloc::Global;
use std::marker::Model;
use std::mem;

/// The days that have ended, and the passes of the last day that have: `day` is how many days have
/// begun, and `pass` how many passes of the last one. With these are the row and the falls of the
/// pass that is open.
pub(crate) struct Reading {
    days: Vec<DayChain>,
    day: u32,
    passes: Vec<PassChain>,
    pass: u32,
    row: u64,
    falls: Vec<FallLine>,
}

// Not derived: so what has been read is dropped in one step where it is held, and not by each list.
impl Drop for Reading {
    fn drop(self) {
        let Reading {
            days: _,
            day: _,
            passes: _,
            pass: _,
            row: _,
            falls: _,
        } = self;
    }
}

impl Model for Reading {
    ghost use Rattle.certificate.specs.Open.{Open};

    ghost Value = { Open };

    ghost view = { λ r. record {
      days = r.days.items;
      day = r.day;
      passes = r.passes.items;
      pass = r.pass;
      row = r.row;
      falls = r.falls.items;
    } };
}

impl Reading {
    /// Nothing read yet.
    pub(crate) fn new(alloc: Global) -> Reading
        ensures { result
            ≡ record { days = []; day = 0; passes = []; pass = 0; row = 0; falls = [] } }
    {
        Reading {
            days: Vec::new(alloc),
            day: 0,
            passes: Vec::new(alloc),
            pass: 0,
            row: 0,
            falls: Vec::new(alloc),
        }
    }

    /// Why a line may not come next.
    pub(crate) fn misplaced(&self, kind: Kind) -> Option<ChainReason>
        ensures { result ≡ misplaced_at self.now.day self.now.pass kind }
    {
        misplaced(kind, self.day, self.pass)
    }

    /// Ends the open pass, if there is one, with the line at a row.
    fn end_pass(&mut self, alloc: Global, row: u64) -> Result<(), OutOfMemory>
        ensures { OnOk result
            (self.new ≡ record self.old { passes = passes_until row self.old; falls = [] }) }
    {
        let falls = mem::replace(&mut self.falls, Vec::new(alloc));
        if self.pass > 0 {
            let falls = Sequence::from_vec(falls);
            self.passes.push(PassChain {
                row: self.row,
                falls,
                next_row: row,
            })?;
        }
        Ok(())
    }

    /// Ends the open pass and day, if there are any, with the line at a row.
    fn end_day(&mut self, alloc: Global, row: u64) -> Result<(), OutOfMemory>
        ensures { OnOk result (self.new
            ≡ record self.old { days = days_until row self.old; passes = []; falls = [] }) }
    {
        self.end_pass(alloc, row)?;
        let passes = mem::replace(&mut self.passes, Vec::new(alloc));
        if self.day > 0 {
            let passes = Sequence::from_vec(passes);
            self.days.push(DayChain {
                passes,
                next_row: row,
            })?;
        }
        Ok(())
    }

    /// Adds the line at a row.
    pub(crate) fn add(&mut self, alloc: Global, row: u64, line: Line) -> Result<(), OutOfMemory>
        ensures { OnOk result (self.new ≡ opened row line self.old) }
    {
        match line {
            Line::Day(number) => {
                self.end_day(alloc, row)?;
                self.day = number;
                self.pass = 0;
                self.row = row;
            }
            Line::Pass(number) => {
                self.end_pass(alloc, row)?;
                self.pass = number;
                self.row = row;
            }
            Line::Fall(fall) => self.falls.push(fall)?,
            Line::End => {}
        }
        Ok(())
    }

    /// The days, which the line at a row ends.
    pub(crate) fn finish(self, alloc: Global, row: u64) -> Result<Vec<DayChain>, OutOfMemory>
        ensures { IfOk result (λ days. days.items ≡ days_until row self) }
    {
        let mut reading = self;
        reading.end_day(alloc, row)?;
        Ok(mem::replace(&mut reading.days, Vec::new(alloc)))
    }
}
