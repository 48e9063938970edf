//! A campaign: day after day, with a picker of its own.
ghost use Rattle.std.specs.Prelude.{◌≡◌, ◌<◌, length, IfOk, IfErr, IsTrue, None, Some};
ghost use Rattle.admit_core.specs.CallOrder.{AreCallOrders};
ghost use Rattle.day_run.specs.CampaignDays.{EndsNextDay, IsBegun, pass_of};
ghost use Rattle.desk_day.specs.LastPasses.{IsLastPass};

use crate::course::Course;
use admit_core::{CallOrders, DayRecord, Dossier, Terms};
use bar_fixpoint::Picker;
use day_state::DayState;
use desk_day::DayRefusal;
use std::alloc::Global;
use std::mem;

/// Memory ran out; the picker that was handed in comes back.
#[derive(Drop)]
pub struct NoRoom {
    pub picker: Box<dyn Picker>,
}

/// A campaign of a dossier: how far it has come, and the picker that its next day asks.
#[derive(Drop)]
pub struct Campaign<'d> {
    pub course: Course<'d>,
    pub picker: Box<dyn Picker>,
}

impl<'d> Campaign<'d> {
    /// A campaign without lapses, of which no day was run.
    pub fn begin(
        alloc: Global,
        dossier: &'d Dossier,
        orders: &'d CallOrders,
        picker: Box<dyn Picker>,
    ) -> Result<Campaign<'d>, NoRoom>
        requires { AreCallOrders dossier.now.groups orders.now.orders }
        ensures begun { IfOk result (λ campaign. IsBegun dossier.now orders.now.orders None
            campaign.course) }
        ensures picker { IfOk result (λ campaign. campaign.picker ≡ picker) }
        ensures back { IfErr result (λ no_room. no_room.picker ≡ picker) }
    {
        match Course::begin(alloc, dossier, orders, None) {
            Ok(course) => Ok(Campaign { course, picker }),
            Err(_) => Err(NoRoom { picker }),
        }
    }

    /// A campaign in which offers lapse by these terms, of which no day was run.
    pub fn begin_dated(
        alloc: Global,
        dossier: &'d Dossier,
        orders: &'d CallOrders,
        terms: Terms,
        picker: Box<dyn Picker>,
    ) -> Result<Campaign<'d>, NoRoom>
        requires orders { AreCallOrders dossier.now.groups orders.now.orders }
        requires before { length terms.before ≡ length dossier.now.wishes }
        ensures begun { IfOk result (λ campaign. IsBegun dossier.now orders.now.orders (Some terms)
            campaign.course) }
        ensures picker { IfOk result (λ campaign. campaign.picker ≡ picker) }
        ensures back { IfErr result (λ no_room. no_room.picker ≡ picker) }
    {
        match Course::begin(alloc, dossier, orders, Some(terms)) {
            Ok(course) => Ok(Campaign { course, picker }),
            Err(_) => Err(NoRoom { picker }),
        }
    }

    /// Runs the next day under its ceilings, with the present picker. After a refusal the campaign
    /// stands at the evening before, and the same day may be tried again.
    pub fn next_day(&mut self, alloc: Global) -> Result<DayRecord, DayRefusal>
        requires { self.old.course.day < 366 }

        ensures { EndsNextDay
            (record {
              course = self.old.course;
              told = told self.old.picker;
              choice = choice self.old.picker;
            })
            (record {
              course = self.new.course;
              told = told self.new.picker;
              choice = choice self.new.picker;
            }) result }
    {
        self.course.next_day(alloc, &mut *self.picker)
    }

    /// The number of days that were run.
    pub fn day(&self) -> u32
        ensures { result ≡ self.now.course.day }
    {
        self.course.day()
    }

    /// Whether the last day that was tried came about; it then left its last pass.
    pub fn has_day(&self) -> bool
        ensures has_day { result ≡ self.now.course.has_day }
        ensures last { IsTrue result → IsLastPass (pass_of self.now.course)
            self.now.course.present }
    {
        self.course.has_day()
    }

    /// The present state: that of the evening of the last day.
    pub fn state(&self) -> &DayState<'d>
        ensures { result.now ≡ self.now.course.present }
    {
        self.course.state()
    }

    /// The state in which the last pass began.
    pub fn opening(&self) -> &DayState<'d>
        ensures { result.now ≡ self.now.course.opening }
    {
        self.course.opening()
    }

    /// The bars of the last pass, by school.
    pub fn bars(&self) -> &[u32]
        ensures { result.now ≡ self.now.course.bars }
    {
        self.course.bars()
    }

    /// The ceilings of the last day, by school.
    pub fn ceilings(&self) -> &[u32]
        ensures { result.now ≡ self.now.course.ceilings }
    {
        self.course.ceilings()
    }

    /// The call orders.
    pub fn orders(&self) -> &CallOrders
        ensures { result.now.orders ≡ self.now.course.orders }
    {
        self.course.orders()
    }

    /// Takes another picker; the old one comes back as it was, and nothing else changes.
    pub fn set_picker(&mut self, picker: Box<dyn Picker>) -> Box<dyn Picker>
        ensures old { result ≡ self.old.picker }
        ensures new { self.new.picker ≡ picker }
        ensures course { self.new.course ≡ self.old.course }
    {
        mem::replace(&mut self.picker, picker)
    }

    /// Ends the campaign; the picker comes back as it is.
    pub fn into_picker(self) -> Box<dyn Picker>
        ensures { result ≡ self.entry.picker }
    {
        let Campaign { course: _, picker } = self;
        picker
    }
}
