//! Days that led to a desk.
ghost use Rattle.std.specs.Prelude.{◌≡◌, IfOk};

use admit_core::{CallOrders, DayRecord, OutOfMemory};
use played::{DeskAlong, LastDesk};
use std::alloc::Global;

/// All days that were asked for, and what they left: the desk after them, with the call orders by
/// which they were run and the roster, which is made when it is asked for where no day was run.
pub(crate) struct AllPlayed<'a, 'd> {
    pub days: Vec<DayRecord>,
    pub last: LastDesk<'a, 'd>,
}

// Not derived, so that it is dropped in one step where it is held, and not list by list.
impl Drop for AllPlayed<'_, '_> {
    fn drop(self) {
        let AllPlayed { days: _, last: _ } = self;
    }
}

impl<'a, 'd> AllPlayed<'a, 'd> {
    /// The call orders alone.
    pub fn into_orders(self) -> &'a CallOrders
        ensures { result.now.orders ≡ self.entry.last.orders }
    {
        let AllPlayed { days: _, last } = self;
        last.orders()
    }

    /// The days alone.
    pub fn into_days(self) -> Vec<DayRecord>
        ensures { result.items ≡ self.entry.days.items }
    {
        let AllPlayed { days, last: _ } = self;
        days
    }

    /// The desk alone.
    pub fn into_last(self) -> LastDesk<'a, 'd>
        ensures { result ≡ self.entry.last }
    {
        let AllPlayed { days: _, last } = self;
        last
    }

    /// The days, and the desk and the roster that they left. Both are made here where no day was
    /// run.
    pub fn into_along(
        self,
        alloc: Global,
    ) -> Result<(Vec<DayRecord>, DeskAlong<'a, 'd>), OutOfMemory>
        ensures days { IfOk result (λ parts. parts.0.items ≡ self.entry.days.items) }
        ensures along { IfOk result (λ parts. parts.1 ≡ record {
          desk = self.entry.last.desk;
          orders = self.entry.last.orders;
        }) }
    {
        let AllPlayed { days, last } = self;
        let along = last.into_along(alloc)?;
        Ok((days, along))
    }

    /// The days, and what they left.
    pub fn into_parts(self) -> (Vec<DayRecord>, LastDesk<'a, 'd>)
        ensures days { result.0.items ≡ self.entry.days.items }
        ensures last { result.1 ≡ self.entry.last }
    {
        let AllPlayed { days, last } = self;
        (days, last)
    }
}
