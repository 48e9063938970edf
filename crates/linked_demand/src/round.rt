//! The boarding schools of a state, with the lines of its programmes.
ghost use Rattle.std.specs.Prelude.{◌≡◌, ◌+◌, ◌<◌, [], length, slice_get, slice_index, slice_set, IfOk, IsOk};
ghost use Rattle.admit_core.specs.State.{free_beds};
ghost use Rattle.linked_demand.specs.Lent.{lent};
ghost use Rattle.linked_demand.specs.Lineups.{IsLineupOf};
ghost use Rattle.admit_core.specs.Proposals.{demanded_ranks, proposed};
ghost use Rattle.admit_core.specs.Boarding.{boarding};
ghost use Rattle.bar_fixpoint.specs.Overfilled.{all_overfilled, rank_over};
ghost use Rattle.linked_demand.specs.Rounds.{bar_each, is_proposed_in};
ghost use Rattle.linked_demand.specs.Ticks.{changes_between};

use crate::beds::own_beds;
use crate::cut::close_past;
use crate::ends::front_in;
use crate::housed::Housed;
use crate::housing::{cut_school, house_marked};
use crate::lineup::Lineup;
use crate::links::SeatLinks;
use crate::marks::Marks;
use crate::over::{demands_in, front_of};
use crate::overfilled::Overfilled;
use crate::rows::RowWish;
use crate::schools::{Schools, school_count, schools_of};
use admit_core::{CallOrders, OutOfMemory, Steps};
use bar_fixpoint::Falling;
use day_state::DayState;
use proposals::names_up_to;
use std::alloc::Global;
use std::marker::Model;
use std::sync::ledger::Ledger;

/// The boarding schools (*internats*) of a state, with their ceilings and their present bars, and
/// with the beds that they are lent: its state is seen with these. It keeps who is served in each
/// programme, who has a bed in each school, and which are overfilled: a fall costs the wishes that
/// it closes and those that become proposed.
pub struct LinkedRound<'a, 'd> {
    links: SeatLinks<'a, 'd>,
    boarders: &'a [Vec<RowWish>],
    ceilings: Vec<u32>,
    bars: Vec<u32>,
    beds: Vec<u32>,
    ends: Vec<usize>,
    overfilled: Overfilled,
    marked: Marks,
    housed: Vec<Housed<'a>>,
}

// Not derived: so a round is dropped in one step where it is held, and not by each list.
impl Drop for LinkedRound<'_, '_> {
    fn drop(self) {
        let LinkedRound {
            links: _,
            boarders: _,
            ceilings: _,
            bars: _,
            beds: _,
            ends: _,
            overfilled: _,
            marked: _,
            housed: _,
        } = self;
    }
}

impl<'a, 'd> Model for LinkedRound<'a, 'd> {
    ghost use Rattle.linked_demand.specs.Lent.{lent};
    ghost use Rattle.linked_demand.specs.Rounds.{Round, IsRoundAlong};

    ghost Value = { Round };

    ghost view = { λ r. record {
      state = lent r.links.state r.beds.items;
      orders = r.links.orders;
      ceilings = r.ceilings.items;
      bars = r.bars.items;
    } };

    ghost invariant = { λ r. IsRoundAlong r.links r.ceilings.items r.bars.items r.beds.items
        r.boarders.now r.ends.items (record {
          overfilled = r.overfilled;
          marked = r.marked;
          housed = r.housed.items;
        }) };
}

impl<'a, 'd> LinkedRound<'a, 'd> {
    /// The schools of a state with their own beds, and with their bars at the ceilings.
    ///
    /// It costs about the number of wishes: the walk along the call orders is the lineup's, as are
    /// the boarders of each school by rank.
    pub fn build(
        alloc: Global,
        state: &'a DayState<'d>,
        orders: &'a CallOrders,
        lineup: &'a Lineup,
        ceilings: &[u32],
    ) -> Result<LinkedRound<'a, 'd>, OutOfMemory>
        requires lineup { IsLineupOf state.now.dossier orders.now.orders lineup.now }
        requires ceilings { length ceilings.now ≡ length state.now.dossier.schools }
        ensures round { IfOk result
            (λ r. r ≡ record {
              state = state.now;
              orders = orders.now.orders;
              ceilings = ceilings.now;
              bars = ceilings.now;
            }) }
        ensures system { IfOk result (λ r. ⟦<LinkedRound<'a, 'd> as Falling>⟧.system r ≡ boarding
            state.now orders.now.orders ceilings.now) }
        ensures bars { IfOk result (λ r. ⟦<LinkedRound<'a, 'd> as Falling>⟧.bars r ≡ ceilings.now) }
        ensures offers { IfOk result (λ r. ⟦<LinkedRound<'a, 'd> as Falling>⟧.offers r ≡ proposed
            state.now orders.now.orders) }
    {
        let beds = own_beds(alloc, state)?;
        LinkedRound::build_with(alloc, state, orders, lineup, beds, ceilings)
    }

    /// The schools of a state with these beds, one number each, and with their bars at the
    /// ceilings.
    pub(crate) fn build_with(
        alloc: Global,
        state: &'a DayState<'d>,
        orders: &'a CallOrders,
        lineup: &'a Lineup,
        beds: Vec<u32>,
        ceilings: &[u32],
    ) -> Result<LinkedRound<'a, 'd>, OutOfMemory>
        requires lineup { IsLineupOf state.now.dossier orders.now.orders lineup.now }
        requires beds { length beds.items ≡ length state.now.dossier.schools }
        requires ceilings { length ceilings.now ≡ length state.now.dossier.schools }
        ensures round { IfOk result
            (λ r. r ≡ record {
              state = lent state.now beds.items;
              orders = orders.now.orders;
              ceilings = ceilings.now;
              bars = ceilings.now;
            }) }
        ensures bars { IfOk result (λ r. ⟦<LinkedRound<'a, 'd> as Falling>⟧.bars r ≡ ceilings.now) }
    {
        let bars = ceilings.to_vec(alloc)?;
        let own = ceilings.to_vec(alloc)?;
        let links = SeatLinks::build(alloc, state, orders, lineup, ceilings)?;
        let boarders = lineup.boarders.as_slice();
        let Schools {
            ends,
            overfilled,
            marked,
            housed,
        } = schools_of(alloc, &links, boarders, &beds, ceilings)?;
        Ok(LinkedRound {
            links,
            boarders,
            ceilings: own,
            bars,
            beds,
            ends,
            overfilled,
            marked,
            housed,
        })
    }

    /// The demanded rank of a school that is the first to have no bed, where the school is
    /// overfilled.
    pub fn first_over(&self, i: u32) -> Option<u32>
        requires { i < length self.now.bars }
        ensures { result ≡ slice_get (demanded_ranks self.now.state self.now.orders self.now.bars i)
            (free_beds self.now.state i) }
    {
        self.overfilled.get(i)
    }

    /// Whether the wish at a place is proposed at the present bars.
    pub fn is_proposed(&self, wish: u32) -> bool
        requires { wish < length self.now.state.dossier.wishes }
        ensures { result ≡ is_proposed_in self.now wish }
    {
        if !self.links.is_open(wish) {
            return false;
        }
        self.links.is_proposed(wish)
    }

    /// The places of the wishes that are proposed at the present bars, ascending. It goes along the
    /// claims that the seats reach, and along the wishes that may need none: those that a limit
    /// calls, and those that wait beside a live one.
    pub fn proposed(&self, alloc: Global) -> Result<Vec<u32>, OutOfMemory>
        ensures places { IfOk result (λ v. v.items ≡ proposed self.now.state self.now.orders
            self.now.bars) }
        ensures offers { IfOk result (λ v. v.items ≡ ⟦<LinkedRound<'a, 'd> as Falling>⟧.offers
            self.now (⟦<LinkedRound<'a, 'd> as Falling>⟧.bars self.now)) }
    {
        self.links.proposed_places(alloc)
    }
}

impl Falling for LinkedRound<'_, '_> {
    ghost use Rattle.admit_core.specs.Boarding.{boarding};
    ghost use Rattle.admit_core.specs.Proposals.{proposed};
    ghost use Rattle.admit_core.proofs.DemandLaws.{boarding_is_lawful};
    ghost use Rattle.linked_demand.specs.Rounds.{bar_each, length-bar_each};

    ghost system = { λ r. boarding r.state r.orders r.ceilings };

    ghost bars = { λ r. bar_each r.ceilings r.bars };

    ghost offers = { λ r. proposed r.state r.orders };

    ghost cost = { λ r. changes_between r.state r.orders };

    ghost lends = { λ r. Unit {0} };

    ghost lawful = { λ r. boarding_is_lawful r.state r.orders r.ceilings };

    ghost one_bar_each = { λ r. length-bar_each r.ceilings r.bars };

    fn count(&self) -> u32 {
        school_count(self.links.state())
    }

    fn bar(&self, i: u32) -> u32 {
        self.bars[i as usize]
    }

    fn over(&self, _alloc: Global, i: u32) -> Result<Option<u32>, OutOfMemory>
        requires { i < length self.now.ceilings }
        ensures over { IfOk result (λ over. over ≡ rank_over
            (boarding self.now.state self.now.orders self.now.ceilings)
            (bar_each self.now.ceilings self.now.bars) i) }
        ensures always { IsOk result }
    {
        let _ = &self.bars; // learns the invariant
        Ok(self.first_over(i))
    }

    fn overfilled(&self, alloc: Global) -> Result<Vec<u32>, OutOfMemory>
        ensures places { IfOk result (λ places. places.items ≡ all_overfilled
            (boarding self.now.state self.now.orders self.now.ceilings)
            (bar_each self.now.ceilings self.now.bars)) }
        ensures always { all_overfilled (boarding self.now.state self.now.orders self.now.ceilings)
            (bar_each self.now.ceilings self.now.bars) ≡ [] → IsOk result }
    {
        let _ = &self.bars; // learns the invariant
        let places = self.overfilled.places();
        if places.is_empty() {
            return Ok(Vec::new(alloc));
        }
        Ok(places.to_vec(alloc)?)
    }

    fn listed(&self) -> Option<&[u32]> {
        let _ = &self.bars; // learns the invariant
        Some(self.overfilled.places())
    }

    fn names(&self, alloc: Global, i: u32, upto: u32) -> Result<Vec<u32>, OutOfMemory> {
        let first = front_in(self.boarders, &self.ends, i as usize);
        let front = front_of(first, upto);
        let demands = demands_in(alloc, &self.links, front)?;
        names_up_to(alloc, &demands, upto)
    }

    fn lower<L: Ledger>(&mut self, i: u32, to: u32, steps: &mut Steps<L>)
        requires in_range { i < length self.old.ceilings }
        requires lower { to < slice_index (bar_each self.old.ceilings self.old.bars) i }
        ensures bars { bar_each self.new.ceilings self.new.bars
            ≡ slice_set (bar_each self.old.ceilings self.old.bars) i to }
        ensures same { boarding self.new.state self.new.orders self.new.ceilings
            ≡ boarding self.old.state self.old.orders self.old.ceilings }
        ensures offers { proposed self.new.state self.new.orders
            ≡ proposed self.old.state self.old.orders }
        ensures round { self.new ≡ record self.old { bars = slice_set self.old.bars i to } }
        ensures cost { changes_between self.new.state self.new.orders
            ≡ changes_between self.old.state self.old.orders }
        ensures steps { steps.new ≡ steps.old + changes_between self.old.state self.old.orders
            (bar_each self.old.ceilings self.old.bars)
            (bar_each self.new.ceilings self.new.bars) }
    {
        self.bars[i as usize] = to;
        let front = front_in(self.boarders, &self.ends, i as usize);
        let marked = &mut self.marked;
        let end = close_past(&mut self.links, front, to, &self.bars, marked, steps);
        self.ends[i as usize] = end;
        cut_school(&mut self.housed, &mut self.overfilled, i, to);
        house_marked(
            &self.links,
            &self.beds,
            &mut self.marked,
            &mut self.housed,
            &mut self.overfilled,
        );
    }
}
