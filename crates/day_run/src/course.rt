//! How far a campaign has come.
ghost use Rattle.std.specs.Prelude.{◌≡◌, ◌<◌, length, IfOk, IsTrue};
ghost use Rattle.admit_core.specs.CallOrder.{AreCallOrders};
ghost use Rattle.admit_core.specs.EveningLaws.{last_bars};
ghost use Rattle.admit_core.specs.Lapses.{AreTermsFor};
ghost use Rattle.day_run.specs.CampaignDays.{EndsNextDay, IsBegun, pass_of};
ghost use Rattle.desk_day.specs.LastPasses.{IsLastPass};

use admit_core::{CallOrders, DayRecord, Dossier, OutOfMemory, PassEnd, Terms};
use bar_fixpoint::Picker;
use day_state::DayState;
use desk_day::{DayRefusal, Desk, ceilings_on, own_ceilings, run_day_along};
use linked_demand::Roster;
use std::alloc::Global;
use std::marker::Model;

/// The days of a campaign, without the picker.
pub struct Course<'d> {
    desk: Desk<'d>,
    roster: Roster<'d, 'd>,
    terms: Option<Terms>,
    day: u32,
    has_day: bool,
    bars: Vec<u32>,
    ceilings: Vec<u32>,
}

// Not derived, so that a course is dropped in one step where it is held, and not part by part.
impl Drop for Course<'_> {
    fn drop(self) {
        let Course {
            desk: _,
            roster: _,
            terms: _,
            day: _,
            has_day: _,
            bars: _,
            ceilings: _,
        } = self;
    }
}

impl<'d> Model for Course<'d> {
    ghost use Rattle.day_run.specs.CampaignDays.{Progress, IsAlong, progress};

    ghost Value = { Progress };

    ghost view = { λ s. progress s.roster.orders s.terms s.day s.has_day s.desk s.bars.items
        s.ceilings.items };

    ghost invariant = { λ s. IsAlong s.roster (progress s.roster.orders s.terms s.day s.has_day
        s.desk s.bars.items s.ceilings.items) };
}

impl<'d> Course<'d> {
    /// No day was run.
    pub(crate) fn begin(
        alloc: Global,
        dossier: &'d Dossier,
        orders: &'d CallOrders,
        terms: Option<Terms>,
    ) -> Result<Course<'d>, OutOfMemory>
        requires orders { AreCallOrders dossier.now.groups orders.now.orders }
        requires before { AreTermsFor dossier.now terms }
        ensures { IfOk result (IsBegun dossier.now orders.now.orders terms) }
    {
        let bars = own_ceilings(alloc, dossier)?;
        let ceilings = own_ceilings(alloc, dossier)?;
        let desk = Desk::begin(alloc, dossier)?;
        let roster = Roster::build(alloc, desk.now(), orders)?;
        Ok(Course {
            desk,
            roster,
            terms,
            day: 0,
            has_day: false,
            bars,
            ceilings,
        })
    }

    /// Runs the next day under its ceilings.
    pub(crate) fn next_day(
        &mut self,
        alloc: Global,
        picker: &mut dyn Picker,
    ) -> Result<DayRecord, DayRefusal>
        requires { self.old.day < 366 }

        ensures { EndsNextDay
            (record { course = self.old; told = told picker.old; choice = choice picker.old })
            (record { course = self.new; told = told picker.new; choice = choice picker.new })
            result }
    {
        self.has_day = false;
        let day = self.day + 1;
        let Ok(ceilings) = ceilings_on(alloc, self.desk.now().dossier(), day) else {
            return Err(self.desk.refused(self.terms.as_ref(), day));
        };
        let done = run_day_along(
            alloc,
            &mut self.desk,
            &self.roster,
            ceilings.as_slice(),
            self.terms.as_ref(),
            day,
            picker,
        )?;
        keep_bars(&mut self.bars, done.passes.as_slice());
        self.ceilings = ceilings;
        self.day = day;
        self.has_day = true;
        Ok(done)
    }

    /// The number of days that were run.
    pub fn day(&self) -> u32
        ensures { result ≡ self.now.day }
    {
        self.day
    }

    /// Whether the last day that was tried came about; it then left its last pass.
    pub fn has_day(&self) -> bool
        ensures has_day { result ≡ self.now.has_day }
        ensures last { IsTrue result → IsLastPass (pass_of self.now) self.now.present }
    {
        self.has_day
    }

    /// The present state.
    pub fn state(&self) -> &DayState<'d>
        ensures { result.now ≡ self.now.present }
    {
        self.desk.now()
    }

    /// The state in which the last pass began.
    pub fn opening(&self) -> &DayState<'d>
        ensures { result.now ≡ self.now.opening }
    {
        self.desk.opening()
    }

    /// The bars of the last pass, by school; before the first day they are the schools' own
    /// ceilings.
    pub fn bars(&self) -> &[u32]
        ensures { result.now ≡ self.now.bars }
    {
        self.bars.as_slice()
    }

    /// The ceilings of the last day, by school.
    pub fn ceilings(&self) -> &[u32]
        ensures { result.now ≡ self.now.ceilings }
    {
        self.ceilings.as_slice()
    }

    /// The call orders.
    pub fn orders(&self) -> &CallOrders
        ensures { result.now.orders ≡ self.now.orders }
    {
        self.roster.orders()
    }
}

/// Keeps the bars of the last pass.
fn keep_bars(bars: &mut Vec<u32>, passes: &[PassEnd])
    requires { length bars.old.items ≡ length (last_bars passes.now) }
    ensures { bars.new.items ≡ last_bars passes.now }
{
    if let Some(last) = passes.last() {
        copy_bars(bars, last.pass.bars.as_slice());
    }
}

fn copy_bars(bars: &mut Vec<u32>, from: &[u32])
    requires { length bars.old.items ≡ length from.now }
    ensures { bars.new.items ≡ from.now }
{
    bars.as_mut_slice().copy_from_slice(from);
}
