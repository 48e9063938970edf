//! The falls of a pass, tested line by line.
ghost use Rattle.std.specs.Prelude.{◌≡◌, ◌<◌, ◌==◌, ◌&&◌, Err, IfOk, OnOk, length, option_map, slice_index, true};
ghost use Rattle.admit_core.specs.Boarding.{boarding};
ghost use Rattle.admit_core.specs.Chains.{bars_by, line_fault, lines_fault, pass_fault, school_of_line};
ghost use Rattle.admit_core.specs.Falls.{is_overfilled};
ghost use Rattle.admit_core.specs.Proposals.{proposed};
ghost use Rattle.certificate.specs.Checked.{Finds};
ghost use Rattle.certificate.specs.declared.stop.CheckStop.TheVariants as stops;

use crate::grounds::Grounds;
use crate::pass_test::PassTest;
use crate::stop::{CheckStop, rejected_at};
use admit_core::{CheckReason, FallLine, PassChain, Steps};
use bar_fixpoint::Falling;
use day_state::DayState;
use dossier_check::school_place;
use std::alloc::Global;
use std::marker::Brand;
use std::sync::ledger::{Blank, Ledger};

/// Whether a line tells these bars before and after its fall.
fn tells_bars(line: &FallLine, from: u32, to: u32) -> bool
    ensures { result ≡ ((line.now.from == from) && (line.now.to == to)) }
{
    line.from == from && line.to == to
}

impl PassTest<'_, '_> {
    /// Tests the line of a fall at the present bars, and answers the place of its school. It takes
    /// memory only where the school is overfilled.
    fn check_line(&self, alloc: Global, line: &FallLine) -> Result<u32, CheckStop>
        ensures found { Finds result (option_map (λ reason. (line.now.row, reason))
            (line_fault self.now.state self.now.orders self.now.ceilings self.now.bars line.now)) }
        ensures school { IfOk result (λ h. h ≡ school_of_line self.now.state line.now) }
        ensures within { IfOk result (λ h. h < length self.now.ceilings) }
        ensures falls { IfOk result (λ h. line.now.to < slice_index self.now.bars h) }
        ensures over { result ≡ Err stops.OutOfMemory → is_overfilled
            (boarding self.now.state self.now.orders self.now.ceilings) self.now.bars
            (school_of_line self.now.state line.now) ≡ true }
    {
        let _ = self.state.marks(); // one for each wish
        let row = line.row;
        let Some(school) = school_place(self.index, line.school) else {
            return Err(rejected_at(row, CheckReason::NotOver));
        };
        let Some(over) = self.round.first_over(school) else {
            return Err(rejected_at(row, CheckReason::NotOver));
        };
        let ranks = self.ranks_up_to(alloc, school, over)?;
        if !self.show_ranks(school, &ranks, line.wishes.as_slice()) {
            return Err(rejected_at(row, CheckReason::WrongWishes));
        }
        let from = self.round.bar(school);
        if !tells_bars(line, from, over - 1) {
            return Err(rejected_at(row, CheckReason::WrongBar));
        }
        Ok(school)
    }

    /// Tests the lines of falls from the present bars on, which they lower.
    fn check_lines<L: Ledger>(
        &mut self,
        alloc: Global,
        lines: &[FallLine],
        steps: &mut Steps<L>,
    ) -> Result<(), CheckStop>
        ensures found { Finds result (lines_fault
            self.old.state self.old.orders self.old.ceilings self.old.bars lines.now) }
        ensures bars { OnOk result (self.new
            ≡ record self.old { bars = bars_by self.old.state self.old.bars lines.now }) }
    {
        for line in lines {
            let school = self.check_line(alloc, line)?;
            self.lower(school, line.to, steps);
        }
        Ok(())
    }

    /// Tests the falls of a pass that has just begun, and answers the places of the wishes that are
    /// proposed under the last bars.
    fn offers<L: Ledger>(
        &mut self,
        alloc: Global,
        pass: &PassChain,
        steps: &mut Steps<L>,
    ) -> Result<Vec<u32>, CheckStop>
        requires { self.old.bars ≡ self.old.ceilings }
        ensures found { Finds result
            (pass_fault self.old.state self.old.orders self.old.ceilings pass.now) }
        ensures offers { IfOk result (λ v. v.items ≡ proposed self.old.state self.old.orders
            (bars_by self.old.state self.old.ceilings pass.now.falls)) }
    {
        self.check_lines(alloc, pass.falls.as_slice(), steps)?;
        if let Some(school) = self.first_overfilled() {
            let reason = CheckReason::StillOver { school };
            return Err(rejected_at(pass.next_row, reason));
        }
        Ok(self.proposed(alloc)?)
    }
}

/// Tests the falls of a pass from the ceilings on, and answers the places of the wishes that are
/// proposed under the last bars.
pub(crate) fn offers_of(
    alloc: Global,
    state: &DayState<'_>,
    grounds: &Grounds<'_, '_>,
    ceilings: &[u32],
    pass: &PassChain,
) -> Result<Vec<u32>, CheckStop>
    requires same { grounds.now.dossier ≡ state.now.dossier }
    requires ceilings { length ceilings.now ≡ length state.now.dossier.schools }
    ensures found { Finds result (pass_fault state.now grounds.now.orders ceilings.now pass.now) }
    ensures offers { IfOk result (λ v. v.items ≡ proposed state.now grounds.now.orders
        (bars_by state.now ceilings.now pass.now.falls)) }
{
    let test = PassTest::begin(alloc, grounds, state, ceilings)?;
    counted_offers::<Brand>(alloc, Blank::new(1), test, pass)
}

/// The offers of a pass that has just begun, with a counter that nobody reads.
fn counted_offers<L: Ledger>(
    alloc: Global,
    blank: Blank,
    test: PassTest<'_, '_>,
    pass: &PassChain,
) -> Result<Vec<u32>, CheckStop>
    requires name { blank.name ≡ L.name }
    requires parts { blank.parts ≡ L.parts }
    requires shared { 0 < L.parts }
    requires begun { test.bars ≡ test.ceilings }
    ensures found { Finds result
        (pass_fault test.entry.state test.entry.orders test.entry.ceilings pass.now) }
    ensures offers { IfOk result (λ v. v.items ≡ proposed test.entry.state test.entry.orders
        (bars_by test.entry.state test.entry.ceilings pass.now.falls)) }
{
    let mut test = test;
    let mut steps: Steps<L> = Steps::new(blank);
    test.offers(alloc, pass, &mut steps)
}
