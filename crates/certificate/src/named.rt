//! The wishes that a fall names.
ghost use Rattle.std.specs.Prelude.{◌≡◌, ◌<◌, All, IfOk, length, filter, map, nat_le};
ghost use Rattle.admit_core.specs.Chains.{shows_rank, shows_ranks};
ghost use Rattle.admit_core.specs.Proposals.{demanded_ranks, demands_bed};
ghost use Rattle.day_state.specs.Kept.{mark_in, wish_in};

use crate::pass_test::PassTest;
use admit_core::OutOfMemory;
use bar_fixpoint::Falling;
use day_state::DayState;
use dossier_check::wish_place;
use proposals::wish_at;
use std::alloc::Global;

/// The boarding ranks of wishes.
fn ranks_of(alloc: Global, state: &DayState<'_>, places: &[u32]) -> Result<Vec<u32>, OutOfMemory>
    requires { All (λ k. k < length state.now.dossier.wishes) places.now }
    ensures { IfOk result (λ v.
        v.items ≡ map (λ k. (wish_in state.now.dossier.wishes k).board_rank) places.now) }
{
    let mut ranks = Vec::with_capacity(alloc, places.len())?;
    for place in places {
        ranks.push(wish_at(state, *place).board_rank)?;
    }
    Ok(ranks)
}

impl PassTest<'_, '_> {
    /// The demanded ranks of a school up to one of them.
    pub(crate) fn ranks_up_to(
        &self,
        alloc: Global,
        school: u32,
        most: u32,
    ) -> Result<Vec<u32>, OutOfMemory>
        requires { school < length self.now.ceilings }
        ensures { IfOk result (λ v. v.items ≡ filter (λ rank. nat_le rank most)
            (demanded_ranks self.now.state self.now.orders self.now.bars school)) }
    {
        let _ = self.state.marks(); // one for each wish
        let names = self.round.names(alloc, school, most)?;
        ranks_of(alloc, self.state, &names)
    }

    /// Whether the wish at a place demands a bed of a school at the present bars.
    fn demands_bed(&self, school: u32, place: u32) -> bool
        requires { place < length self.now.state.dossier.wishes }
        ensures { result ≡ demands_bed self.now.state self.now.orders self.now.bars school
            (wish_in self.now.state.dossier.wishes place) (mark_in self.now.state.marks place) }
    {
        let wish = wish_at(self.state, place);
        let Some(own) = wish.school else {
            return false;
        };
        if own != school || wish.board_rank == 0 {
            return false;
        }
        if self.state.is_live_in_its_school(place) {
            return false;
        }
        self.round.is_proposed(place)
    }

    /// Whether a wish shows a rank of a school: it demands a bed there at this rank.
    fn shows_rank(&self, school: u32, rank: u32, id: u32) -> bool
        ensures { result
            ≡ shows_rank self.now.state self.now.orders self.now.bars school rank id }
    {
        let _ = self.state.marks(); // one for each wish
        let dossier = self.state.dossier();
        let _ = &dossier.wishes; // learns that the dossier is valid
        match wish_place(self.index, id) {
            None => false,
            Some(place) => {
                let demands = self.demands_bed(school, place);
                demands && rank == wish_at(self.state, place).board_rank
            }
        }
    }

    /// Whether each of the wishes shows the rank at its place of the list.
    pub(crate) fn show_ranks(&self, school: u32, ranks: &[u32], ids: &[u32]) -> bool
        ensures { result ≡ shows_ranks self.now.state self.now.orders self.now.bars school
            ranks.now ids.now }
    {
        if ids.len() != ranks.len() {
            return false;
        }
        for place in 0..ids.len() {
            if !self.shows_rank(school, ranks[place], ids[place]) {
                return false;
            }
        }
        true
    }
}
