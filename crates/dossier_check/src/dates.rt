//! Since when each wish has its status.
ghost use Rattle.std.specs.Prelude.{◌≡◌, IfOk, IfSome, None, length, replicate};
ghost use Rattle.std.specs.List.{list_all};
ghost use Rattle.dossier_check.specs.Dates.{date_of_wish, dates_of, is_undated};
ghost use Rattle.dossier_check.specs.Keys.{AreKeysOf};

use crate::items::{Keys, Places, state_row_of};
use crate::made::{Makes, made_of};
use admit_core::{OutOfMemory, Since, StateRow, Tables, WishRow};
use std::alloc::Global;
use std::marker::Model;

/// How dates are kept.
#[derive(Drop)]
pub(crate) enum Kept {
    /// No wish has one: the number of wishes.
    Undated(usize),
    Listed(Vec<Option<Since>>),
}

/// Since when each wish has its status, by the wishes' places. No list is kept where none has a
/// date.
pub struct Dates {
    kept: Kept,
}

// Not derived: so dates are dropped in one step where they are held, and not by each way.
impl Drop for Dates {
    fn drop(self) {
        let Dates { kept: _ } = self;
    }
}

impl Model for Dates {
    ghost use Rattle.std.specs.Prelude.{List, Option};
    ghost use Rattle.admit_core.specs.declared.tables.Since.{Since};
    ghost use Rattle.dossier_check.specs.Dates.{kept_dates};

    ghost Value = { List (Option Since) };

    ghost view = { λ x. kept_dates x.kept };
}

impl Dates {
    /// The dates of a number of wishes, none of which has one.
    fn undated(wishes: usize) -> Dates
        ensures { result ≡ replicate wishes None }
    {
        Dates {
            kept: Kept::Undated(wishes),
        }
    }

    /// The list of the dates; where there is none, no wish has one.
    pub fn as_slice(&self) -> Option<&[Option<Since>]>
        ensures listed { IfSome result (λ dates. dates.now ≡ self.now) }
        ensures undated { result ≡ None → self.now ≡ replicate (length self.now) None }
    {
        match &self.kept {
            Kept::Undated(_) => None,
            Kept::Listed(dates) => Some(dates.as_slice()),
        }
    }

    /// The number of wishes.
    pub fn len(&self) -> usize
        ensures { result ≡ length self.now }
    {
        match &self.kept {
            Kept::Undated(wishes) => *wishes,
            Kept::Listed(dates) => dates.len(),
        }
    }
}

/// Whether no status has a date.
fn is_undated(rows: &[StateRow]) -> bool
    ensures { result ≡ list_all is_undated rows.now }
{
    rows.iter().all(|row| row.since.is_none())
}

impl<'a> Makes<WishRow, Option<Since>> for Places<'a> {
    ghost can_make = { λ c. AreKeysOf c.tables.now c.keys.now };

    ghost made = { λ c. date_of_wish c.tables.now };

    fn make(&self, row: &WishRow, _number: usize) -> Option<Since> {
        match state_row_of(self.tables, self.keys, row) {
            Some(row) => row.since,
            None => None,
        }
    }
}

/// The date of each wish's status.
fn list_dates(
    alloc: Global,
    tables: &Tables,
    keys: &Keys,
) -> Result<Vec<Option<Since>>, OutOfMemory>
    requires { AreKeysOf tables.now keys.now }
    ensures { IfOk result (λ dates. dates.items ≡ dates_of tables.now) }
{
    made_of(alloc, &Places { tables, keys }, tables.wishes.as_slice())
}

/// Since when the wishes have their statuses.
pub(crate) fn dates_of(alloc: Global, tables: &Tables, keys: &Keys) -> Result<Dates, OutOfMemory>
    requires { AreKeysOf tables.now keys.now }
    ensures { IfOk result (λ dates. dates ≡ dates_of tables.now) }
{
    if is_undated(tables.state.as_slice()) {
        return Ok(Dates::undated(tables.wishes.len()));
    }
    Ok(Dates {
        kept: Kept::Listed(list_dates(alloc, tables, keys)?),
    })
}
