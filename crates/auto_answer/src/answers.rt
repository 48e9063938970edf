//! The automatic answers.
ghost use Rattle.std.specs.Prelude.{◌≡◌, ◌<◌, All, length};
ghost use Rattle.admit_core.specs.AutoAnswer.{auto_one, auto_all, freed_by, freed};
ghost use Rattle.auto_answer.specs.AnsweredAt.{IsCount, answered_at, asked_at, freed_asked, freed_at, is_live_ranked};
ghost use Rattle.auto_answer.specs.Laws.{AreAnsweredBut};

use admit_core::{Freed, Stamp};
use day_state::{DayState, freed_in_all};

/// Answers for a candidate who ranks their wishes; nothing changes for one who doesn't.
pub fn auto_one(state: &mut DayState<'_>, candidate: u32, stamp: Stamp) -> Freed
    ensures state { state.new ≡ auto_one state.old candidate stamp }
    ensures freed { result ≡ freed_by state.old state.new candidate }
{
    state.answer_automatically(candidate, stamp)
}

/// Answers for all candidates who rank their wishes.
///
/// It looks at each wish once, and asks a candidate at most twice: at the first of their live
/// wishes, and again at the one that they keep. One without a live wish is not asked.
pub fn auto_all(state: &mut DayState<'_>, stamp: Stamp) -> Freed
    ensures state { state.new ≡ auto_all state.old stamp }
    ensures freed { result ≡ freed state.old state.new }
{
    let _ = state.marks(); // one for each wish
    let mut all = Freed { seats: 0, beds: 0 };
    let count = state.dossier().wishes.len() as u32;
    for place in 0..count {
        all = ask_at(state, place, stamp, all);
    }
    all
}

/// Answers for the candidates of these wishes, where all others have been answered for.
///
/// A candidate with several wishes among them is answered for once for each, which changes nothing
/// after the first time.
pub fn auto_some(state: &mut DayState<'_>, places: &[u32], stamp: Stamp) -> Freed
    requires within { All (λ place. place < length state.old.dossier.wishes) places.now }
    requires others { AreAnsweredBut places.now state.old stamp }
    ensures state { state.new ≡ auto_all state.old stamp }
    ensures freed { result ≡ freed state.old state.new }
{
    let _ = state.marks(); // one for each wish
    let _ = state.dossier().wishes.len(); // at most 16,000,000
    let mut all = Freed { seats: 0, beds: 0 };
    for place in places {
        all = answer_at(state, *place, stamp, all);
    }
    all
}

/// Answers for the candidate of a wish. It answers what that frees and what was freed before, in
/// all.
fn answer_at(state: &mut DayState<'_>, place: u32, stamp: Stamp, before: Freed) -> Freed
    requires place { place < length state.old.dossier.wishes }
    requires counts { IsCount (freed_at state.old place stamp before) }
    ensures state { state.new ≡ answered_at state.old place stamp }
    ensures freed { result ≡ freed_at state.old place stamp before }
{
    let own = state.answer_beside(place, stamp);
    freed_in_all(before, own)
}

/// The same where the wish is live and its candidate ranks their wishes; else nothing.
fn ask_at(state: &mut DayState<'_>, place: u32, stamp: Stamp, before: Freed) -> Freed
    requires place { place < length state.old.dossier.wishes }
    requires counts { IsCount (freed_at state.old place stamp before) }
    ensures state { state.new ≡ asked_at state.old place stamp }
    ensures freed { result ≡ freed_asked state.old place stamp before }
{
    if is_live_ranked(state, place) {
        answer_at(state, place, stamp, before)
    } else {
        before
    }
}

/// Whether a wish is live, and its candidate ranks their wishes.
fn is_live_ranked(state: &DayState<'_>, place: u32) -> bool
    requires { place < length state.now.dossier.wishes }
    ensures { result ≡ is_live_ranked state.now place }
{
    state.status(place).is_live()
        && state.dossier().wishes.as_slice()[place as usize].preference > 0
}
