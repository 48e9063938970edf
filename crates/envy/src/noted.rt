//! Whether a wish blocks, by what is noted once of a state.
ghost use Rattle.std.specs.Prelude.{◌≡◌, ◌<◌, IfOk, IfSome, length};
ghost use Rattle.admit_core.specs.Blocking.{has_better, is_missed, lacks_school, wants_more};
ghost use Rattle.day_state.specs.Kept.{mark_in, wish_in};
ghost use Rattle.envy.specs.Blocks.{block_at, found_at};
ghost use Rattle.envy.specs.Known.{envied_by, has_reason, is_below};

use crate::blocks::Block;
use crate::known::{best_wishes, first_own, last_live, wish_count};
use admit_core::{Mark, OutOfMemory, Status, Wish};
use day_state::{DayState, seats_left};
use linked_demand::Roster;
use proposals::{mark_at, programme_count, wish_at};
use std::alloc::Global;
use std::marker::Model;

/// A state along the roster of its dossier: of each candidate the best live wish, and of each
/// programme the last live one are noted.
#[derive(Drop)]
pub(crate) struct Noted<'a, 'o, 'd> {
    state: &'a DayState<'d>,
    roster: &'a Roster<'o, 'd>,
    best: Vec<Option<u32>>,
    lasts: Vec<Option<u32>>,
}

impl<'a, 'o, 'd> Model for Noted<'a, 'o, 'd> {
    ghost use Rattle.envy.specs.Noted.{AreNoted, Seen};

    ghost Value = { Seen };

    ghost view = { λ n. record { state = n.state.now; orders = n.roster.now.orders } };

    ghost invariant = { λ n. AreNoted n.state.now n.roster.now n.best.items n.lasts.items };
}

/// Whether its candidate did not give a wish up themself, and it is not live.
fn is_missed(mark: Mark) -> bool
    ensures { result ≡ is_missed mark.status }
{
    matches!(
        mark.status,
        Status::Waiting | Status::AutoRefused | Status::AutoWithdrawn
    )
}

/// Whether a wish is without boarding.
fn lacks_school(wish: Wish) -> bool
    ensures { result ≡ lacks_school wish.school }
{
    wish.school.is_none()
}

/// Whether a number that may be missing is below another.
fn is_below(number: Option<u32>, other: u32) -> bool
    ensures { result ≡ is_below number other }
{
    match number {
        None => false,
        Some(number) => number < other,
    }
}

/// Whether a seat is left, or somebody is envied.
fn has_reason(block: Block) -> bool
    ensures { result ≡ has_reason block }
{
    block.left > 0 || block.envied.is_some()
}

impl<'a, 'o, 'd> Noted<'a, 'o, 'd> {
    /// A state, of which all is noted.
    pub(crate) fn of(
        alloc: Global,
        state: &'a DayState<'d>,
        roster: &'a Roster<'o, 'd>,
    ) -> Result<Noted<'a, 'o, 'd>, OutOfMemory>
        requires { roster.now.dossier ≡ state.now.dossier }
        ensures { IfOk result (λ noted. noted
            ≡ record { state = state.now; orders = roster.now.orders }) }
    {
        let best = best_wishes(alloc, state)?;
        let lasts = last_live(alloc, state, roster)?;
        Ok(Noted {
            state,
            roster,
            best,
            lasts,
        })
    }

    /// Whether the candidate of the wish at a place holds one that they prefer.
    fn has_better(&self, place: u32) -> bool
        requires { place < length self.now.state.dossier.wishes }
        ensures { result
            ≡ has_better self.now.state (wish_in self.now.state.dossier.wishes place) }
    {
        let held = self.best[first_own(self.state, place) as usize];
        is_below(held, wish_at(self.state, place).preference)
    }

    /// Whether the candidate of the wish at a place has nothing that is as good.
    fn wants_more(&self, place: u32) -> bool
        requires { place < length self.now.state.dossier.wishes }
        ensures { result ≡ wants_more self.now.state
            (wish_in self.now.state.dossier.wishes place) (mark_in self.now.state.marks place) }
    {
        let state = self.state;
        let _ = state.marks(); // one for each wish
        let wish = wish_at(state, place);
        lacks_school(wish)
            && wish.preference > 0
            && is_missed(mark_at(state, place))
            && !state.is_live_in_its_programme(place)
            && !self.has_better(place)
    }

    /// The candidate of the last live wish of a programme, where they stand behind that of a wish.
    fn envied_by(&self, last: Option<u32>, wish: u32) -> Option<u32>
        requires last { IfSome last (λ k. k < length self.now.state.dossier.wishes) }
        requires wish { wish < length self.now.state.dossier.wishes }
        ensures { result ≡ envied_by self.now.state.dossier self.now.orders last wish }
    {
        let roster = self.roster;
        match last {
            Some(last) if roster.place_in_line(wish) < roster.place_in_line(last) => {
                Some(wish_at(self.state, last).candidate)
            }
            _ => None,
        }
    }

    /// What is told of the wish at a place.
    fn block_at(&self, wish: u32) -> Block
        requires { wish < length self.now.state.dossier.wishes }
        ensures { result ≡ block_at self.now.state self.now.orders wish }
    {
        let state = self.state;
        let dossier = state.dossier();
        let _ = &dossier.wishes; // learns that the dossier is valid
        let _ = state.marks(); // one for each wish
        let _ = programme_count(state); // each wish is for one of them
        let _ = self.roster.orders(); // those of the dossier
        let programme = wish_at(state, wish).programme;
        Block {
            wish,
            left: seats_left(state, programme),
            envied: self.envied_by(self.lasts[programme as usize], wish),
        }
    }

    /// What is told of the wish at a place, where it blocks.
    pub(crate) fn found_at(&self, place: u32) -> Option<Block>
        requires { place < length self.now.state.dossier.wishes }
        ensures { result ≡ found_at self.now.state self.now.orders place }
    {
        if !self.wants_more(place) {
            return None;
        }
        let block = self.block_at(place);
        if has_reason(block) { Some(block) } else { None }
    }

    /// The number of wishes.
    pub(crate) fn wish_count(&self) -> u32
        ensures count { result ≡ length self.now.state.dossier.wishes }
        ensures one_each { length self.now.state.marks ≡ result }
    {
        let _ = self.state.marks(); // one for each wish
        wish_count(self.state)
    }
}
