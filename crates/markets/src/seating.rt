//! Where the candidates of a market stand under bars, and how they move on as bars fall.
ghost use Rattle.std.specs.Prelude.{ℕ, ◌≡◌, ◌<◌, ◌≤◌, ◌-◌, ◌+◌, length, slice_index, slice_set, IfOk, Some};
ghost use Rattle.markets.specs.Markets.{market_order};
ghost use Rattle.markets.specs.Matchings.{is_at, place_of};
ghost use Rattle.markets.specs.Seatings.{AreTied, HasMovedOn, IsLeaving};
ghost use Rattle.markets.specs.Fillings.{counted_in};
ghost use Rattle.markets.specs.Rounds.{IsRound};

use crate::counts::counts_of;
use crate::filling::Filling;
use crate::ranked::Ranked;
use crate::standing::{first_within, place_at, places_at, stands_under};
use admit_core::{OutOfMemory, Steps};
use std::alloc::Global;
use std::sync::ledger::Ledger;

/// The entry of each candidate's list at which they stand, their place, and how many each programme
/// has.
#[derive(Drop)]
pub struct Seating {
    pub stands: Vec<u32>,
    pub places: Vec<Option<u32>>,
    pub filling: Filling,
    ghost tied: { AreTied stands.items places.items filling },
}

/// Whether a place is in a programme.
pub fn is_at(programme: u32, place: Option<u32>) -> bool
    ensures { result ≡ is_at programme place }
{
    match place {
        Some(other) => programme == other,
        None => false,
    }
}

/// The candidates of a market under bars.
pub fn seated_under(
    alloc: Global,
    market: &Ranked<'_>,
    bars: &[u32],
) -> Result<Seating, OutOfMemory>
    requires bars { length bars.now ≡ length market.now.orders }
    requires under { (p : ℕ) → slice_index bars.now p ≤ length (market_order market.now p) }
    ensures { IfOk result (λ s. IsRound market.now bars.now s.stands.items
        s.places.items s.filling) }
{
    market.market().stands();
    let stands = stands_under(alloc, market, bars)?;
    let places = places_at(alloc, market.market(), bars, &stands)?;
    let counts = counts_of(alloc, market.market(), &places)?;
    let filling = Filling::build(alloc, market.market().all_seats(), counts)?;
    Ok(Seating {
        stands,
        places,
        filling,
    })
}

/// Puts the place of a candidate who had one, and counts them where they are now.
fn put_place(seating: &mut Seating, candidate: u32, had: u32, place: Option<u32>)
    requires had { place_of seating.old.places.items candidate ≡ Some had }
    requires within { (p : ℕ) → place ≡ Some p → p < length seating.old.filling.seats }
    ensures places { seating.new.places.items ≡ slice_set seating.old.places.items candidate place }
    ensures stands { seating.new.stands.items ≡ seating.old.stands.items }
    ensures seats { seating.new.filling.seats ≡ seating.old.filling.seats }
{
    seating.places[candidate as usize] = place;
    let left = seating.filling.count(had) - 1;
    seating.filling.put(had, left);
    count_in(&mut seating.filling, place);
}

/// Counts one more where a place is.
fn count_in(filling: &mut Filling, place: Option<u32>)
    requires within { (p : ℕ) → place ≡ Some p → p < length filling.old.counts }
    requires seats { length filling.old.seats ≡ length filling.old.counts }
    requires few { (p : ℕ) → place ≡ Some p → slice_index filling.old.counts p ≤ 16000000 }
    ensures counts { filling.new.counts ≡ counted_in filling.old.counts place }
    ensures seats { filling.new.seats ≡ filling.old.seats }
{
    if let Some(programme) = place {
        let count = filling.count(programme) + 1;
        filling.put(programme, count);
    }
}

/// A candidate moves on to the next entry of their list within reach.
fn move_on(market: &Ranked<'_>, bars: &[u32], seating: &mut Seating, candidate: u32, had: u32)
    requires leaves { IsLeaving market.now bars.now candidate had seating.old.stands.items
        seating.old.places.items }
    requires seats { seating.old.filling.seats ≡ market.now.seats }
    ensures moved { HasMovedOn market.now bars.now candidate seating.old.stands.items
        seating.old.places.items seating.new.stands.items seating.new.places.items }
    ensures seats { seating.new.filling.seats ≡ seating.old.filling.seats }
{
    market.market().stands();
    let passed = seating.stands[candidate as usize] + 1;
    let stand = first_within(market, bars, candidate, passed);
    let place = place_at(market.market(), candidate, stand);
    seating.stands[candidate as usize] = stand;
    put_place(seating, candidate, had, place);
}

/// Lowers a bar by one position: whoever has a place there moves on.
fn step_down(market: &Ranked<'_>, bars: &mut Vec<u32>, seating: &mut Seating, programme: u32)
    requires programme { programme < length market.now.orders }
    requires above { 0 < slice_index bars.old.items programme }
    requires round { IsRound market.now bars.old.items seating.old.stands.items
        seating.old.places.items seating.old.filling }
    ensures round { IsRound market.now bars.new.items seating.new.stands.items
        seating.new.places.items seating.new.filling }
    ensures bars { bars.new.items ≡ slice_set bars.old.items programme
        (slice_index bars.old.items programme - 1) }
{
    let bar = bars[programme as usize] - 1;
    let candidate = market.market().order(programme)[bar as usize];
    bars[programme as usize] = bar;
    if is_at(programme, seating.places[candidate as usize]) {
        move_on(market, bars, seating, candidate, programme);
    }
}

/// Lowers a bar. It costs the positions that it passes, a step each, and the entries by which those
/// who have a place there move on.
pub fn lower_to<L: Ledger>(
    market: &Ranked<'_>,
    bars: &mut Vec<u32>,
    seating: &mut Seating,
    programme: u32,
    to: u32,
    steps: &mut Steps<L>,
)
    requires programme { programme < length market.now.orders }
    requires lower { to ≤ slice_index bars.old.items programme }
    requires round { IsRound market.now bars.old.items seating.old.stands.items
        seating.old.places.items seating.old.filling }
    ensures round { IsRound market.now bars.new.items seating.new.stands.items
        seating.new.places.items seating.new.filling }
    ensures bars { bars.new.items ≡ slice_set bars.old.items programme to }
    ensures steps { steps.new ≡ steps.old + (slice_index bars.old.items programme - to) }
{
    let from = bars[programme as usize];
    for _passed in to..from {
        step_down(market, bars, seating, programme);
        steps.tick();
    }
}
