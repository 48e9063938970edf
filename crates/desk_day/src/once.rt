//! One wish of each candidate, however many of theirs are named.
ghost use Rattle.std.specs.Prelude.{◌≡◌, ◌<◌, ◌+◌, ◌++◌, length, All, IfOk, OnErr, vec_capacity, vec_len};
ghost use Rattle.admit_core.specs.DossierRows.{candidate_of};
ghost use Rattle.desk_day.specs.DayPlaces.{AreWishesOf};
ghost use Rattle.desk_day.specs.Once.{AreOfOneEach, NamesSame, first_own};

use admit_core::OutOfMemory;
use day_state::DayState;

/// The first wish of a wish's candidate.
fn first_beside(state: &DayState<'_>, place: u32) -> u32
    requires { place < length state.now.dossier.wishes }
    ensures within { result < length state.now.dossier.wishes }
    ensures same { candidate_of state.now.dossier result ≡ candidate_of state.now.dossier place }
    ensures first { result ≡ first_own state.now.dossier place }
{
    let own = state.own_wishes_beside(place);
    own[0]
}

/// Puts in each wish's place the first wish of its candidate.
fn lead_to_firsts(places: &mut Vec<u32>, state: &DayState<'_>)
    requires { AreWishesOf state.now.dossier places.old.items }
    ensures names { NamesSame state.now.dossier places.old.items places.new.items }
    ensures firsts { All (λ k. k ≡ first_own state.now.dossier k) places.new.items }
{
    for index in 0..places.len() {
        places[index] = first_beside(state, places[index]);
    }
}

/// Leaves one wish of each candidate who has some of these. So a walk along them looks at each
/// candidate once.
pub(crate) fn keep_one_of_each(places: &mut Vec<u32>, state: &DayState<'_>)
    requires { AreWishesOf state.now.dossier places.old.items }
    ensures names { NamesSame state.now.dossier places.old.items places.new.items }
    ensures once { AreOfOneEach state.now.dossier places.new.items }
{
    lead_to_firsts(places, state);
    places.sort_unstable();
    places.dedup();
}

/// One wish of each candidate of these wishes or of the offers of a pass.
pub(crate) fn with_offers(
    places: Vec<u32>,
    state: &DayState<'_>,
    offers: &[u32],
) -> Result<Vec<u32>, OutOfMemory>
    requires places { AreWishesOf state.now.dossier places.items }
    requires offers { AreWishesOf state.now.dossier offers.now }
    ensures names { IfOk result (λ asked. NamesSame state.now.dossier (places.items ++ offers.now)
        asked.items) }
    ensures once { IfOk result (λ asked. AreOfOneEach state.now.dossier asked.items) }
    ensures full { OnErr result (vec_capacity places < vec_len places + length offers.now) }
{
    let mut asked = places;
    asked.extend_from_slice(offers)?;
    keep_one_of_each(&mut asked, state);
    Ok(asked)
}
