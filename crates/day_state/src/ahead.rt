//! Wishes that are read ahead of a walk along their places.
ghost use Rattle.std.specs.Prelude.{◌≡◌, ◌<◌, length, IfOk};
ghost use Rattle.std.specs.Option.{ForSome};
ghost use Rattle.day_state.specs.Ahead.{StandThere};
ghost use Rattle.day_state.specs.Kept.{wish_in};

use crate::mark::wish_at;
use admit_core::{OutOfMemory, Wish};
use std::alloc::Global;
use std::marker::Model;

/// How many wishes are read at once.
const AT_ONCE: usize = 64;

/// A wish and its place.
#[derive(Clone, Copy)]
pub(crate) struct Placed {
    pub(crate) place: u32,
    pub(crate) wish: Wish,
}

/// Wishes along an order of their places, some of which are read at once: a step that keeps
/// something of each wish makes the next one wait for its row, and so reads one row at a time.
#[derive(Drop)]
pub(crate) struct Ahead<'a> {
    wishes: &'a [Wish],
    order: &'a [u32],
    /// The place in the order of the first one that isn't read yet.
    unread: usize,
    rows: Vec<Placed>,
    /// The place in `rows` of the next one.
    at: usize,
    /// How many of the next ones stand in turn, and so are not read ahead.
    in_turn: usize,
}

impl<'a> Model for Ahead<'a> {
    ghost use Rattle.std.specs.Prelude.{List};
    ghost use Rattle.admit_core.specs.declared.dossier.Wish.{Wish};
    ghost use Rattle.day_state.specs.Ahead.{StandThere};

    ghost Value = { List Wish };

    ghost view = { λ a. a.wishes.now };

    ghost invariant = { λ a. StandThere a.wishes.now a.rows.items };
}

/// Adds the wishes at these places.
fn read_rows(wishes: &[Wish], places: &[u32], rows: &mut Vec<Placed>) -> Result<(), OutOfMemory>
    requires { StandThere wishes.now rows.old.items }
    ensures { StandThere wishes.now rows.new.items }
{
    for place in places {
        if let Some(wish) = wishes.get(*place as usize) {
            rows.push(Placed {
                place: *place,
                wish: *wish,
            })?;
        }
    }
    Ok(())
}

/// The wish at a place, which is this one where it was read ahead.
fn placed_wish(wishes: &[Wish], read: Option<Placed>, place: u32) -> Wish
    requires place { place < length wishes.now }
    requires right { ForSome read (λ r. r.wish ≡ wish_in wishes.now r.place) }
    ensures { result ≡ wish_in wishes.now place }
{
    match read {
        Some(row) if row.place == place => row.wish,
        _ => wish_at(wishes, place),
    }
}

/// Whether places may stand one behind another: the rows of such are near already. It decides
/// nothing but the cost.
fn stand_in_turn(places: &[u32]) -> bool {
    match (places.first(), places.last()) {
        (Some(first), Some(last)) => u64::from(last.abs_diff(*first)) + 1 == places.len() as u64,
        _ => false,
    }
}

impl<'a> Ahead<'a> {
    /// Nothing is read yet.
    pub(crate) fn along(
        alloc: Global,
        wishes: &'a [Wish],
        order: &'a [u32],
    ) -> Result<Ahead<'a>, OutOfMemory>
        ensures { IfOk result (λ ahead. ahead ≡ wishes.now) }
    {
        Ok(Ahead {
            wishes,
            order,
            unread: 0,
            rows: Vec::with_capacity(alloc, AT_ONCE)?,
            at: 0,
            in_turn: 0,
        })
    }

    /// Reads the next wishes of the order, where they do not stand in turn.
    fn read_on(&mut self) -> Result<(), OutOfMemory>
        ensures { self.new ≡ self.old }
    {
        let from = self.unread.min(self.order.len());
        let to = from.saturating_add(AT_ONCE).min(self.order.len());
        let places = &self.order[from..to];
        self.at = 0;
        self.unread = to;
        self.rows.clear();
        if stand_in_turn(places) {
            self.in_turn = places.len();
            return Ok(());
        }
        read_rows(self.wishes, places, &mut self.rows)
    }

    /// The wish at the next place of the order.
    pub(crate) fn next(&mut self, place: u32) -> Result<Wish, OutOfMemory>
        requires { place < length self.old }
        ensures wish { IfOk result (λ wish. wish ≡ wish_in self.old place) }
        ensures same { self.new ≡ self.old }
    {
        if self.in_turn == 0 && self.rows.len() <= self.at {
            self.read_on()?;
        }
        if self.in_turn > 0 {
            self.in_turn -= 1;
            return Ok(wish_at(self.wishes, place));
        }
        let read = self.rows.get(self.at).copied();
        self.at = self.at.saturating_add(1);
        Ok(placed_wish(self.wishes, read, place))
    }
}
