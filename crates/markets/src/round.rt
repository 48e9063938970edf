//! A market as a system of falling bars.
ghost use Rattle.std.specs.Prelude.{ℕ, ◌≡◌, ◌<◌, ◌≤◌, length, map, filter, nat_le, slice_get, slice_index, ◌-◌, [], sum, IfOk, IsOk};
ghost use Rattle.markets.specs.Markets.{market_order, candidate_at};
ghost use Rattle.markets.specs.Bars.{market_system, place_codes, place_code};
ghost use Rattle.markets.specs.Rounds.{IsRound, held_to};
ghost use Rattle.bar_fixpoint.specs.Overfilled.{all_overfilled, rank_over};

use crate::market::Market;
use crate::ranked::Ranked;
use crate::seating::{Seating, is_at, lower_to, seated_under};
use admit_core::{OutOfMemory, Steps};
use bar_fixpoint::Falling;
use std::alloc::Global;
use std::sync::ledger::Ledger;

/// A market and its present bars, which stand on positions in the programmes' orders. It keeps
/// where in their list each candidate stands, and which programmes have more candidates than seats:
/// a fall costs the positions that the bar passes and the entries that candidates move on by.
#[derive(Drop)]
pub struct MarketRound<'a> {
    market: Ranked<'a>,
    bars: Vec<u32>,
    seating: Seating,
    ghost round: { IsRound market bars.items seating.stands.items seating.places.items
        seating.filling },
}

/// The candidates at the first positions of an order who have a place in its programme.
fn names_within(
    alloc: Global,
    market: &Market,
    places: &[Option<u32>],
    programme: u32,
    upto: u32,
) -> Result<Vec<u32>, OutOfMemory>
    requires programme { programme < length market.now.orders }
    requires places { length places.now ≡ length market.now.lists }
    requires upto { upto ≤ length (market_order market.now programme) }
    ensures names { IfOk result (λ names. names.items ≡
        map (candidate_at market.now programme) (held_to market.now places.now programme upto)) }
    ensures always { upto ≡ 0 → IsOk result }
{
    let order = market.order(programme);
    let mut names = Vec::new(alloc);
    for place in 0..upto {
        let candidate = order[place as usize];
        if is_at(programme, places[candidate as usize]) {
            names.push(candidate)?;
        }
    }
    Ok(names)
}

impl<'a> MarketRound<'a> {
    /// The system of a market, with its bars at the ceilings. It costs the length of the market's
    /// lists and orders.
    pub fn build(alloc: Global, market: &'a Market) -> Result<MarketRound<'a>, OutOfMemory>
        ensures system { IfOk result (λ r. ⟦<MarketRound<'a> as Falling>⟧.system r
            ≡ market_system market.now) }
        ensures bars { IfOk result (λ r. ⟦<MarketRound<'a> as Falling>⟧.bars r
            ≡ (market_system market.now).ceilings) }
        ensures offers { IfOk result (λ r. ⟦<MarketRound<'a> as Falling>⟧.offers r
            ≡ place_codes market.now) }
    {
        let bars = ceilings(alloc, market)?;
        let market = Ranked::build(alloc, market)?;
        let seating = seated_under(alloc, &market, &bars)?;
        Ok(MarketRound {
            market,
            bars,
            seating,
        })
    }

    /// The present bars, one for each programme, and the place of each candidate under them.
    pub(crate) fn into_parts(self) -> (Vec<u32>, Vec<Option<u32>>)
        ensures bars { result.0.items ≡ ⟦<MarketRound<'a> as Falling>⟧.bars self.entry }
        ensures places { map place_code result.1.items ≡ ⟦<MarketRound<'a> as Falling>⟧.offers
            self.entry (⟦<MarketRound<'a> as Falling>⟧.bars self.entry) }
    {
        let MarketRound { bars, seating, .. } = self;
        let Seating { places, .. } = seating;
        (bars, places)
    }
}

/// The number of candidates of each programme.
fn ceilings(alloc: Global, market: &Market) -> Result<Vec<u32>, OutOfMemory>
    ensures { IfOk result (λ v. v.items ≡ map length market.now.orders) }
{
    let mut ceilings = Vec::new(alloc);
    for programme in 0..market.programmes() {
        ceilings.push(market.order(programme).len() as u32)?;
    }
    Ok(ceilings)
}

/// The first position, from the last one up, that has no seat: those who have a place at it and
/// before it are more than the seats by one. It goes along the positions from the bar on.
fn first_over(market: &Market, bar: u32, seating: &Seating, programme: u32) -> Option<u32>
    requires programme { programme < length market.now.orders }
    requires bar { bar ≤ length (market_order market.now programme) }
    requires seats { length seating.now.filling.seats ≡ length market.now.orders }
    requires places { length seating.now.places.items ≡ length market.now.lists }
    requires count { slice_index seating.now.filling.counts programme
        ≡ length (held_to market.now seating.now.places.items programme bar) }
    ensures { result ≡ slice_get (held_to market.now seating.now.places.items programme bar)
        (slice_index seating.now.filling.seats programme) }
{
    let seats = seating.filling.seats(programme);
    let mut left = seating.filling.count(programme);
    if left <= seats {
        return None;
    }
    let order = market.order(programme);
    for passed in 0..bar {
        let position = bar - passed;
        let candidate = order[position as usize - 1];
        if is_at(programme, seating.places[candidate as usize]) {
            left -= 1;
            if left == seats {
                return Some(position);
            }
        }
    }
    None
}

impl Falling for MarketRound<'_> {
    ghost use Rattle.markets.specs.Bars.{market_system, place_codes};
    ghost use Rattle.markets.specs.KeptPositions.{lawful_by};
    ghost use Rattle.markets.specs.Rounds.{bar_each};

    ghost system = { λ r. market_system r.market };

    ghost bars = { λ r. r.bars.items };

    ghost offers = { λ r. place_codes r.market };

    ghost cost = { λ _ upper lower. sum upper - sum lower };

    ghost lends = { λ r. Unit {0} };

    ghost lawful = { λ r. lawful_by r.market r.round.positions };

    ghost one_bar_each = { λ r. bar_each r.market r.bars.items r.round.seated.one_bar_each };

    fn count(&self) -> u32 {
        self.market.market().programmes()
    }

    fn bar(&self, i: u32) -> u32 {
        self.bars[i as usize]
    }

    fn over(&self, _alloc: Global, i: u32) -> Result<Option<u32>, OutOfMemory>
        requires { i < length (market_system self.now.market).ceilings }
        ensures over { IfOk result (λ over. over ≡
            rank_over (market_system self.now.market) self.now.bars.items i) }
        ensures always { IsOk result }
    {
        let bar = self.bars[i as usize];
        Ok(first_over(self.market.market(), bar, &self.seating, i))
    }

    fn overfilled(&self, alloc: Global) -> Result<Vec<u32>, OutOfMemory>
        ensures places { IfOk result (λ places. places.items ≡
            all_overfilled (market_system self.now.market) self.now.bars.items) }
        ensures always { all_overfilled (market_system self.now.market) self.now.bars.items ≡ []
            → IsOk result }
    {
        self.seating.filling.overfilled(alloc)
    }

    fn listed(&self) -> Option<&[u32]> {
        Some(self.seating.filling.listed())
    }

    fn names(&self, alloc: Global, i: u32, upto: u32) -> Result<Vec<u32>, OutOfMemory>
        requires { i < length (market_system self.now.market).ceilings }
        ensures names { IfOk result (λ names. names.items ≡
            map ((market_system self.now.market).name self.now.bars.items i)
            (filter (λ rank. nat_le rank upto)
            ((market_system self.now.market).ranks self.now.bars.items i))) }
        ensures always { upto ≡ 0 → IsOk result }
    {
        let end = self.bars[i as usize].min(upto);
        names_within(alloc, self.market.market(), &self.seating.places, i, end)
    }

    fn lower<L: Ledger>(&mut self, i: u32, to: u32, steps: &mut Steps<L>) {
        lower_to(
            &self.market,
            &mut self.bars,
            &mut self.seating,
            i,
            to,
            steps,
        );
    }
}
