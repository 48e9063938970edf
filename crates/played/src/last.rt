//! What the days of a run leave.
ghost use Rattle.std.specs.Prelude.{◌≡◌, true, false, IfOk, IsOk, length};
ghost use Rattle.admit_core.specs.CallOrder.{AreCallOrders};
ghost use Rattle.admit_core.specs.Days.{first_evening};
ghost use Rattle.played.specs.PlayedDays.{first_desk};

use admit_core::{CallOrders, Dossier, OutOfMemory};
use day_state::{DayState, Marks};
use desk_day::Desk;
use linked_demand::Roster;
use std::alloc::Global;
use std::marker::Model;

/// A desk, and the roster along which its days are run. Both are of one dossier.
pub struct DeskAlong<'a, 'd> {
    pub(crate) desk: Desk<'d>,
    pub(crate) roster: Roster<'a, 'd>,
}

// Not derived: so it is dropped in one step where it is held.
impl Drop for DeskAlong<'_, '_> {
    fn drop(self) {
        let DeskAlong { desk: _, roster: _ } = self;
    }
}

impl<'a, 'd> Model for DeskAlong<'a, 'd> {
    ghost use Rattle.std.specs.Prelude.{◌≡◌};
    ghost use Rattle.played.specs.LastDesks.{DeskBy};

    ghost Value = { DeskBy };

    ghost view = { λ s. record { desk = s.desk; orders = s.roster.orders } };

    ghost invariant = { λ s. s.roster.dossier ≡ s.desk.present.dossier };
}

impl<'a, 'd> DeskAlong<'a, 'd> {
    /// The desk that a dossier comes in with, and the roster of its call orders.
    pub fn begin(
        alloc: Global,
        dossier: &'d Dossier,
        orders: &'a CallOrders,
    ) -> Result<DeskAlong<'a, 'd>, OutOfMemory>
        requires { AreCallOrders dossier.now.groups orders.now.orders }
        ensures { IfOk result (λ along. along ≡ record {
          desk = first_desk dossier.now;
          orders = orders.now.orders;
        }) }
    {
        let desk = Desk::begin(alloc, dossier)?;
        let roster = Roster::build(alloc, desk.now(), orders)?;
        Ok(DeskAlong { desk, roster })
    }

    /// The desk.
    pub fn desk(&self) -> &Desk<'d>
        ensures { result.now ≡ self.now.desk }
    {
        &self.desk
    }

    /// The roster, of the desk's dossier.
    pub fn roster(&self) -> &Roster<'a, 'd>
        ensures dossier { result.now.dossier ≡ self.now.desk.present.dossier }
        ensures orders { result.now.orders ≡ self.now.orders }
    {
        &self.roster
    }

    /// Takes the pair apart.
    pub(crate) fn into_parts(self) -> (Desk<'d>, Roster<'a, 'd>)
        ensures desk { result.0 ≡ self.entry.desk }
        ensures dossier { result.1.dossier ≡ self.entry.desk.present.dossier }
        ensures orders { result.1.orders ≡ self.entry.orders }
    {
        let DeskAlong { desk, roster } = self;
        (desk, roster)
    }

    /// Gives back the other states, and returns the present one and the roster.
    pub fn into_now(self) -> (DayState<'d>, Roster<'a, 'd>)
        ensures state { result.0 ≡ self.entry.desk.present }
        ensures dossier { result.1.dossier ≡ self.entry.desk.present.dossier }
        ensures orders { result.1.orders ≡ self.entry.orders }
    {
        let DeskAlong { desk, roster } = self;
        (desk.into_now(), roster)
    }
}

/// The state that a dossier comes in with, and the roster of its call orders.
fn first_along<'a, 'd>(
    alloc: Global,
    dossier: &'d Dossier,
    orders: &'a CallOrders,
) -> Result<(DayState<'d>, Roster<'a, 'd>), OutOfMemory>
    requires { AreCallOrders dossier.now.groups orders.now.orders }
    ensures state { IfOk result (λ parts. parts.0 ≡ first_evening dossier.now) }
    ensures roster { IfOk result (λ parts. parts.1 ≡ record {
      dossier = dossier.now;
      orders = orders.now.orders;
    }) }
{
    let state = DayState::begin(alloc, dossier)?;
    let roster = Roster::build(alloc, &state, orders)?;
    Ok((state, roster))
}

/// The desk after the days of a run, with the roster along which they were run. Where no day was
/// run it is the one that a dossier comes in with, and neither is made before it is asked for.
pub struct LastDesk<'a, 'd> {
    dossier: &'d Dossier,
    orders: &'a CallOrders,
    along: Option<DeskAlong<'a, 'd>>,
}

// Not derived: so it is dropped in one step where it is held.
impl Drop for LastDesk<'_, '_> {
    fn drop(self) {
        let LastDesk {
            dossier: _,
            orders: _,
            along: _,
        } = self;
    }
}

impl<'a, 'd> Model for LastDesk<'a, 'd> {
    ghost use Rattle.admit_core.specs.CallOrder.{AreCallOrders};
    ghost use Rattle.played.specs.LastDesks.{DeskLeft, desk_left};

    ghost Value = { DeskLeft };

    ghost view = { λ s. desk_left s.dossier.now s.orders.now.orders s.along };

    ghost invariant = { λ s. AreCallOrders s.dossier.now.groups s.orders.now.orders };
}

impl<'a, 'd> LastDesk<'a, 'd> {
    /// The desk of a dossier of which no day was run, with its call orders.
    pub fn first(dossier: &'d Dossier, orders: &'a CallOrders) -> LastDesk<'a, 'd>
        requires { AreCallOrders dossier.now.groups orders.now.orders }
        ensures { result ≡ record {
          desk = first_desk dossier.now;
          orders = orders.now.orders;
          is_begun = false;
        } }
    {
        LastDesk {
            dossier,
            orders,
            along: None,
        }
    }

    /// The desk after days.
    pub fn after_days(along: DeskAlong<'a, 'd>) -> LastDesk<'a, 'd>
        ensures { result ≡ record {
          desk = along.entry.desk;
          orders = along.entry.orders;
          is_begun = true;
        } }
    {
        LastDesk {
            dossier: along.roster.dossier(),
            orders: along.roster.orders(),
            along: Some(along),
        }
    }

    /// The call orders by which the days were run.
    pub fn orders(&self) -> &'a CallOrders
        ensures { result.now.orders ≡ self.now.orders }
    {
        match &self.along {
            Some(along) => along.roster.orders(),
            None => self.orders,
        }
    }

    /// The desk and the roster. Where days were run both are there, and no memory is taken.
    pub fn into_along(self, alloc: Global) -> Result<DeskAlong<'a, 'd>, OutOfMemory>
        ensures along { IfOk result (λ along. along ≡ record {
          desk = self.entry.desk;
          orders = self.entry.orders;
        }) }
        ensures begun { self.entry.is_begun ≡ true → IsOk result }
    {
        let LastDesk {
            dossier,
            orders,
            along,
        } = self;
        match along {
            Some(along) => Ok(along),
            None => DeskAlong::begin(alloc, dossier, orders),
        }
    }

    /// The present state and the roster, without the other states. Where days were run both are
    /// there, and no memory is taken; elsewhere only these two are made.
    pub fn into_now_along(
        self,
        alloc: Global,
    ) -> Result<(DayState<'d>, Roster<'a, 'd>), OutOfMemory>
        ensures now { IfOk result (λ parts. parts.0 ≡ self.entry.desk.present) }
        ensures roster { IfOk result (λ parts. parts.1 ≡ record {
          dossier = self.entry.desk.present.dossier;
          orders = self.entry.orders;
        }) }
        ensures begun { self.entry.is_begun ≡ true → IsOk result }
    {
        let LastDesk {
            dossier,
            orders,
            along,
        } = self;
        match along {
            Some(along) => Ok(along.into_now()),
            None => first_along(alloc, dossier, orders),
        }
    }

    /// The present state, without the others and the roster. Where days were run it is there, and
    /// no memory is taken; elsewhere it alone is made.
    pub fn into_now(self, alloc: Global) -> Result<DayState<'d>, OutOfMemory>
        ensures now { IfOk result (λ state. state ≡ self.entry.desk.present) }
        ensures begun { self.entry.is_begun ≡ true → IsOk result }
    {
        let LastDesk {
            dossier,
            orders: _,
            along,
        } = self;
        match along {
            Some(along) => Ok(along.into_now().0),
            None => DayState::begin(alloc, dossier),
        }
    }

    /// The dossier, and the marks of its wishes in the present state. Where days were run, both are
    /// there, and no memory is taken.
    pub fn into_marks(self, alloc: Global) -> Result<(&'d Dossier, Marks), OutOfMemory>
        ensures dossier { IfOk result (λ parts. parts.0.now ≡ self.entry.desk.present.dossier) }
        ensures marks { IfOk result (λ parts. parts.1 ≡ self.entry.desk.present.marks) }
        ensures one_each { IfOk result (λ parts. length parts.1 ≡ length parts.0.now.wishes) }
        ensures begun { self.entry.is_begun ≡ true → IsOk result }
    {
        let state = self.into_now(alloc)?;
        Ok((state.dossier(), state.into_marks()))
    }
}
