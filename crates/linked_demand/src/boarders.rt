//! The wishes with a school, by their rank there.
ghost use Rattle.std.specs.Prelude.{◌≡◌, ◌<◌, ◌≤◌, ◌&&◌, length, is_some, nat_eq, not, sum, All, IfOk, IfSome, Some};
ghost use Rattle.std.specs.List.{list_any};
ghost use Rattle.admit_core.specs.State.{is_school};
ghost use Rattle.day_state.specs.Kept.{wish_in};
ghost use Rattle.linked_demand.specs.Boarders.{AreBoarders, AreByPlace, AreBySchool, IsBoarder};
ghost use Rattle.linked_demand.specs.Rows.{item_at};
ghost use Rattle.linked_demand.specs.Seats.{AreNotes, boards_at, may_share_school};

use crate::notes::Notes;
use crate::rows::{RowWish, put_in, rows_with_room};
use crate::wishes::wish_count;
use admit_core::{CallOrders, OutOfMemory};
use day_state::{BundleNumber, DayState};
use proposals::{Ranked, sort_by_rank, wish_at};
use std::alloc::Global;

/// A wish with a school: its rank there, its programme, the number of its bundle in the programme,
/// and whether its candidate may have another wish with the school.
#[derive(Clone, Copy)]
struct Boarder {
    wish: u32,
    school: u32,
    rank: u32,
    programme: u32,
    bundle: BundleNumber,
    shared: bool,
}

impl Ranked for Boarder {
    ghost rank_of = { λ boarder. boarder.rank };

    fn rank(&self) -> u32 {
        self.rank
    }
}

/// Whether the wish at a place has a school.
fn has_school(state: &DayState<'_>, place: u32, school: u32) -> bool
    requires { place < length state.now.dossier.wishes }
    ensures { result ≡ is_school (wish_in state.now.dossier.wishes place).school school }
{
    match wish_at(state, place).school {
        None => false,
        Some(own) => own == school,
    }
}

/// Whether another one of some wishes has a school.
fn has_other(state: &DayState<'_>, own: &[u32], wish: u32, school: u32) -> bool
    requires { All (λ k. k < length state.now.dossier.wishes) own.now }
    ensures { result ≡ list_any (λ k. not (nat_eq k wish)
        && is_school (wish_in state.now.dossier.wishes k).school school) own.now }
{
    own.iter().any(|place| *place != wish && has_school(state, *place, school))
}

/// Whether the candidate of a wish may have another one with its school. Of one with many wishes it
/// is not asked: each of them would be asked about all others.
fn may_share(state: &DayState<'_>, wish: u32, school: u32) -> bool
    requires wish { wish < length state.now.dossier.wishes }
    requires school { (wish_in state.now.dossier.wishes wish).school ≡ Some school }
    ensures { result ≡ may_share_school state.now.dossier wish }
{
    let own = state.own_wishes_beside(wish);
    own.len() > 16 || has_other(state, own, wish, school)
}

/// The wish at a place, where it has a school.
fn boarder_at(state: &DayState<'_>, place: u32) -> Option<Boarder>
    requires { place < length state.now.dossier.wishes }
    ensures boards { is_some result ≡ boards_at state.now.dossier place }
    ensures wish { IfSome result (λ b. b.wish ≡ place) }
    ensures right { IfSome result (IsBoarder state.now.dossier) }
{
    let wish = wish_at(state, place);
    match wish.school {
        None => None,
        Some(school) => Some(Boarder {
            wish: place,
            school,
            rank: wish.board_rank,
            programme: wish.programme,
            bundle: state.seat_bundle(place),
            shared: may_share(state, place, school),
        }),
    }
}

/// How many wishes have a school: room is made by it, so the clause alone bounds it.
fn boarder_count(state: &DayState<'_>) -> usize
    ensures few { result ≤ length state.now.dossier.wishes }
{
    let dossier = state.dossier();
    let wishes = dossier.wishes.as_slice().iter();
    wishes.filter(|wish| wish.school.is_some()).count()
}

/// The wishes with a school, by place.
fn boarders_by_place(alloc: Global, state: &DayState<'_>) -> Result<Vec<Boarder>, OutOfMemory>
    ensures { IfOk result (λ v. AreByPlace state.now.dossier v.items) }
{
    let mut boarders = Vec::with_capacity(alloc, boarder_count(state))?;
    let count = wish_count(state);
    for place in 0..count {
        if let Some(boarder) = boarder_at(state, place) {
            boarders.push(boarder)?;
        }
    }
    Ok(boarders)
}

/// The wishes with a school, in order by their rank there, those of one rank by place.
fn boarders_by_rank(alloc: Global, state: &DayState<'_>) -> Result<Vec<Boarder>, OutOfMemory>
    ensures { IfOk result (λ v. AreBoarders state.now.dossier v.items) }
{
    let mut boarders = boarders_by_place(alloc, state)?;
    sort_by_rank(&mut boarders)?;
    Ok(boarders)
}

/// How many of them each school has: room is made by it, so the clause alone bounds them.
fn counts_by_school(
    alloc: Global,
    boarders: &[Boarder],
    schools: usize,
) -> Result<Vec<u32>, OutOfMemory>
    requires { All (λ b. b.school < schools) boarders.now }
    ensures one_each { IfOk result (λ v. length v.items ≡ schools) }
    ensures few { IfOk result (λ v. sum v.items ≤ length boarders.now) }
{
    let mut counts = vec![in alloc; 0u32; schools]?;
    for boarder in boarders {
        let school = boarder.school as usize;
        counts[school] = counts[school].saturating_add(1);
    }
    Ok(counts)
}

/// What its school keeps of a wish, by what is known of it from the line of its programme.
fn item_of(state: &DayState<'_>, orders: &CallOrders, notes: &Notes, boarder: Boarder) -> RowWish
    requires boarder { IsBoarder state.now.dossier boarder }
    requires notes { AreNotes state.now.dossier orders.now.orders notes.now }
    ensures { result ≡ item_at state.now.dossier orders.now.orders boarder.wish }
{
    let wish = boarder.wish;
    RowWish {
        rank: boarder.rank,
        wish,
        programme: boarder.programme,
        place: notes.place(wish),
        bundle: boarder.bundle,
        shared: boarder.shared,
        called_by_limit: notes.is_called_by_limit(wish),
    }
}

/// For each school the wishes that have it, by their rank there, those of one rank by place.
pub fn boarders_by_school(
    alloc: Global,
    state: &DayState<'_>,
    orders: &CallOrders,
    notes: &Notes,
) -> Result<Vec<Vec<RowWish>>, OutOfMemory>
    requires { AreNotes state.now.dossier orders.now.orders notes.now }
    ensures { IfOk result (λ v. AreBySchool state.now.dossier orders.now.orders v.items) }
{
    let boarders = boarders_by_rank(alloc, state)?;
    let schools = state.dossier().schools.len();
    let counts = counts_by_school(alloc, &boarders, schools)?;
    let mut rows = rows_with_room(alloc, &counts)?;
    for boarder in boarders.as_slice() {
        let item = item_of(state, orders, notes, *boarder);
        put_in(&mut rows, boarder.school, item)?;
    }
    Ok(rows)
}
