//! Who is served in each programme while wishes are closed.
ghost use Rattle.std.specs.Prelude.{◌≡◌, ℕ, ◌+◌, ◌<◌, ◌&&◌, ◌||◌, true, false, not, length, slice_set, slice_index_or, count_by, IfOk};
ghost use Rattle.std.specs.List.{enumerate_from};
ghost use Rattle.admit_core.specs.State.{entries, is_waiting};
ghost use Rattle.day_state.specs.Bundles.{seat_bundle};
ghost use Rattle.day_state.specs.Kept.{has_seat_there, mark_in};
ghost use Rattle.admit_core.specs.Lists.{is_among};
ghost use Rattle.linked_demand.specs.Marks.{is_new, MarksWishes};
ghost use Rattle.linked_demand.specs.Lineups.{IsLineupOf};
ghost use Rattle.linked_demand.specs.Opens.{all_exempt, opens_of};
ghost use Rattle.admit_core.specs.declared.dossier.Wish.{Wish};
ghost use Rattle.admit_core.specs.declared.state.Mark.{Mark};
ghost use Rattle.linked_demand.specs.Links.{LinksRow, WaitsAt, AllOpenWait};
ghost use Rattle.linked_demand.specs.Demand.{all_proposed, is_proposed_at};
ghost use Rattle.std.specs.Option.{ForSome};
ghost use Rattle.linked_demand.specs.Filled.{bed_sought, wants_bed};
ghost use Rattle.linked_demand.specs.Rows.{needs_bed, row_item, IsItem, IsOpenItem};

use crate::closed::leaves_by_closing;
use crate::cursors::Cursors;
use crate::fresh::note_fresh;
use crate::fronts::{list_fronts, list_open};
use crate::line::{fresh_claim, is_reached, reached_after};
use crate::lineup::Lineup;
use crate::marks::Marks;
use crate::notes::Notes;
use crate::open_wishes::OpenWishes;
use crate::opening::open_under;
use crate::rows::{RowWish, has_item_bed, is_item_live};
use crate::seats::{needs_no_seat, reached_of};
use crate::wishes::waits;
use admit_core::{CallOrders, OutOfMemory, Steps};
use day_state::DayState;
use proposals::wish_at;
use std::alloc::Global;
use std::marker::Model;
use std::sync::ledger::Ledger;

/// Whether an open wish has a seat: by its place, which may be reached, or by need of none, which
/// is asked of the others alone.
fn is_seated(state: &DayState<'_>, notes: &Notes, wish: u32, reached: bool) -> bool
    requires wish { wish < length state.now.dossier.wishes }
    ensures { result ≡ (reached
        || slice_index_or (all_exempt state.now notes.now.called_by_limit) wish false) }
{
    reached || needs_no_seat(state, notes, wish)
}

/// Whether a wish of a row has a seat where it is open, by what its item tells, if it waits.
fn is_item_seated(state: &DayState<'_>, item: &RowWish, reached: bool) -> bool
    requires wish { item.now.wish < length state.now.dossier.wishes }
    requires bundle { item.now.bundle ≡ seat_bundle state.now.dossier item.now.wish }
    ensures { is_waiting (mark_in state.now.marks item.now.wish) ≡ true → result ≡ (reached
        || (item.now.called_by_limit || has_seat_there state.now item.now.wish)) }
{
    reached || (item.called_by_limit || is_item_live(state, item))
}

/// The same of a wish that may be closed.
fn is_served(state: &DayState<'_>, notes: &Notes, wish: u32, open: bool, reached: bool) -> bool
    requires wish { wish < length state.now.dossier.wishes }
    ensures { result ≡ («open»
        && (reached
        || slice_index_or (all_exempt state.now notes.now.called_by_limit) wish false)) }
{
    open && is_seated(state, notes, wish, reached)
}

/// How far the seats of each programme reach along its line, while wishes are closed.
pub struct SeatLinks<'a, 'd> {
    state: &'a DayState<'d>,
    orders: &'a CallOrders,
    opens: OpenWishes,
    lineup: &'a Lineup,
    reached: Vec<usize>,
    cursors: Cursors,
    beside: Vec<u32>,
}

// Not derived: so links are dropped in one step where they are held, and not list by list.
impl Drop for SeatLinks<'_, '_> {
    fn drop(self) {
        let SeatLinks {
            state: _,
            orders: _,
            opens: _,
            lineup: _,
            reached: _,
            cursors: _,
            beside: _,
        } = self;
    }
}

impl<'a, 'd> Model for SeatLinks<'a, 'd> {
    ghost use Rattle.linked_demand.specs.Links.{LinksRow};
    ghost use Rattle.linked_demand.specs.Lineups.{AreKept};

    ghost Value = { LinksRow };

    ghost view = { λ l. record {
      state = l.state.now;
      orders = l.orders.now.orders;
      opens = l.opens;
    } };

    ghost invariant = { λ l. AreKept l.state.now l.orders.now.orders l.opens
        l.reached.items l.lineup.now l.beside.items };
}

impl<'a, 'd> SeatLinks<'a, 'd> {
    /// The links of a state where the wishes are open that are not barred by these bars.
    pub fn build(
        alloc: Global,
        state: &'a DayState<'d>,
        orders: &'a CallOrders,
        lineup: &'a Lineup,
        bars: &[u32],
    ) -> Result<SeatLinks<'a, 'd>, OutOfMemory>
        requires lineup { IsLineupOf state.now.dossier orders.now.orders lineup.now }
        requires bars { length bars.now ≡ length state.now.dossier.schools }
        ensures { IfOk result (λ l. l ≡ record {
          state = state.now;
          orders = orders.now.orders;
          opens = opens_of state.now bars.now;
        }) }
    {
        let _ = state.marks(); // one for each wish
        let opens = open_under(alloc, state, orders, &lineup.boarders, bars)?;
        let reached = reached_of(alloc, state, orders, lineup, &opens)?;
        let cursors = Cursors::new(alloc, state.shared_in_programmes())?;
        let beside = state.waiting_beside_live(alloc)?;
        Ok(SeatLinks {
            state,
            orders,
            opens,
            lineup,
            reached,
            cursors,
            beside,
        })
    }

    /// Whether a wish of a row is proposed, where it is open.
    fn proposes(&self, item: &RowWish) -> bool
        requires { IsItem self.now.state.dossier self.now.orders item.now }
        ensures { IsOpenItem self.now item.now → result ≡ is_proposed_at self.now item.now.wish }
    {
        let front = self.reached[item.programme as usize];
        let reached = is_reached(item.place as usize, front);
        is_item_seated(self.state, item, reached)
    }

    /// Closes a waiting wish. It ticks once for each wish that becomes proposed and is open under
    /// these bars, and marks it.
    pub fn close<L: Ledger>(
        &mut self,
        item: &RowWish,
        bars: &[u32],
        marked: &mut Marks,
        steps: &mut Steps<L>,
    )
        requires waits { (w : Wish) × (m : Mark) × WaitsAt self.old.state item.now.wish w m }
        requires item { item.now ≡ row_item self.old.state self.old.orders item.now.wish }
        requires open_wait { AllOpenWait self.old.state self.old.opens }
        requires bars { length bars.now ≡ length self.old.state.dossier.schools }
        requires marked { length marked.old ≡ length self.old.state.dossier.wishes }
        ensures value { self.new ≡ record self.old
            { opens = slice_set self.old.opens item.now.wish false } }
        ensures steps { steps.new
            ≡ steps.old + count_by (is_new self.old.state bars.now self.old self.new)
            (enumerate_from 0 (entries self.old.state)) }
        ensures marked { MarksWishes self.old.state (is_new self.old.state bars.now self.old
            self.new) marked.old marked.new }
    {
        let lineup = self.lineup;
        let programme = item.programme as usize;
        let claims = &lineup.claims[programme];
        let before = self.reached[programme];
        let leaves = leaves_by_closing(
            self.state,
            claims,
            &mut self.cursors,
            &mut self.opens,
            item,
            before,
        );
        let now = reached_after(self.state, &self.opens, claims, before, leaves);
        self.reached[programme] = now;
        let fresh = fresh_claim(self.state, &self.opens, claims, before, now);
        note_fresh(
            self.state,
            bars,
            &self.opens,
            &lineup.notes,
            fresh,
            marked,
            steps,
        );
    }

    /// The state.
    pub fn state(&self) -> &'a DayState<'d>
        ensures { result.now ≡ self.now.state }
    {
        self.state
    }

    /// Whether a wish is open, and its candidate has no bed in its school.
    fn wants_bed(&self, wish: u32) -> bool
        requires { wish < length self.now.state.dossier.wishes }
        ensures { result ≡ wants_bed self.now.state self.now.opens wish }
    {
        self.opens.get(wish) && !self.state.is_live_in_its_school(wish)
    }

    /// Whether the wish of an item waits, and its candidate has no bed in its school.
    pub fn needs_bed(&self, item: &RowWish) -> bool
        requires { IsItem self.now.state.dossier self.now.orders item.now }
        ensures { result ≡ needs_bed self.now.state item.now }
    {
        waits(self.state, item.wish) && !has_item_bed(self.state, item)
    }

    /// Whether the wish of an item demands a bed: it waits and is proposed, and its candidate has
    /// none in its school. The seat is asked first, since the item and a small table tell it.
    pub fn demands(&self, item: &RowWish) -> bool
        requires item { IsItem self.now.state.dossier self.now.orders item.now }
        requires open { needs_bed self.now.state item.now ≡ true → IsOpenItem self.now item.now }
        ensures { result ≡ (needs_bed self.now.state item.now
            && is_proposed_at self.now item.now.wish) }
    {
        self.proposes(item) && self.needs_bed(item)
    }

    /// The school in which a wish demands a bed: it is proposed, and its candidate has none there.
    pub fn bed_sought(&self, wish: u32) -> Option<u32>
        requires wish { wish < length self.now.state.dossier.wishes }
        requires waits { AllOpenWait self.now.state self.now.opens }
        ensures sought { result ≡ bed_sought self.now wish }
        ensures school { ForSome result (λ h. h < length self.now.state.dossier.schools) }
    {
        let school = wish_at(self.state, wish).school?;
        if self.wants_bed(wish) && self.is_proposed(wish) {
            return Some(school);
        }
        None
    }

    /// Whether a wish is open.
    pub fn is_open(&self, wish: u32) -> bool
        ensures { result ≡ slice_index_or self.now.opens wish false }
    {
        self.opens.get(wish)
    }

    /// The places of the wishes that are proposed, in no order, and some of them more than once,
    /// where those that are open wait. Each is met in the claims that the seats reach, or needs no
    /// seat, or both.
    pub fn proposed_listed(&self, alloc: Global) -> Result<Vec<u32>, OutOfMemory>
        requires { AllOpenWait self.now.state self.now.opens }
        ensures { IfOk result (λ v. (k : ℕ) → is_among k v.items
            ≡ is_among k (all_proposed self.now)) }
    {
        let lineup = self.lineup;
        let mut found = Vec::new(alloc);
        list_open(&self.opens, &lineup.limited, &mut found)?;
        list_open(&self.opens, &self.beside, &mut found)?;
        list_fronts(&self.opens, &lineup.claims, &self.reached, &mut found)?;
        Ok(found)
    }

    /// The places of the wishes that are proposed, ascending, each once, where those that are open
    /// wait.
    pub fn proposed_places(&self, alloc: Global) -> Result<Vec<u32>, OutOfMemory>
        requires { AllOpenWait self.now.state self.now.opens }
        ensures { IfOk result (λ v. v.items ≡ all_proposed self.now) }
    {
        let mut found = self.proposed_listed(alloc)?;
        found.sort_unstable();
        found.dedup();
        Ok(found)
    }

    /// Whether a waiting wish is proposed.
    pub fn is_proposed(&self, wish: u32) -> bool
        requires { (w : Wish) × (m : Mark) × WaitsAt self.now.state wish w m }
        ensures { result ≡ is_proposed_at self.now wish }
    {
        let lineup = self.lineup;
        let programme = wish_at(self.state, wish).programme as usize;
        let place = lineup.notes.place(wish) as usize;
        let open = self.opens.get(wish);
        let reached = is_reached(place, self.reached[programme]);
        is_served(self.state, &lineup.notes, wish, open, reached)
    }
}
