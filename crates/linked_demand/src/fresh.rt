//! Wishes that become proposed.
ghost use Rattle.std.specs.Prelude.{◌≡◌, ◌+◌, ◌<◌, ◌&&◌, length, count_by, All};
ghost use Rattle.admit_core.specs.declared.dossier.Wish.{Wish};
ghost use Rattle.admit_core.specs.declared.state.Mark.{Mark};
ghost use Rattle.admit_core.specs.Lists.{is_among};
ghost use Rattle.linked_demand.specs.Opens.{all_exempt};
ghost use Rattle.linked_demand.specs.Marks.{is_fresh, MarksWishes};

use crate::marks::Marks;
use crate::notes::Notes;
use crate::open_wishes::OpenWishes;
use crate::seats::needs_no_seat;
use admit_core::Steps;
use day_state::DayState;
use proposals::is_open;
use std::sync::ledger::Ledger;

/// Whether a wish is open, by its flag and under bars, and is called by its turn alone.
fn is_fresh(
    state: &DayState<'_>,
    bars: &[u32],
    opens: &OpenWishes,
    notes: &Notes,
    wish: u32,
) -> bool
    requires wish { wish < length state.now.dossier.wishes }
    requires bars { length bars.now ≡ length state.now.dossier.schools }
    ensures { result ≡ is_fresh state.now bars.now opens.now
        (all_exempt state.now notes.now.called_by_limit) wish }
{
    opens.get(wish) && !needs_no_seat(state, notes, wish) && is_open(state, bars, wish)
}

/// Ticks once for each wish of a claim that is fresh, and marks it.
pub fn note_fresh<L: Ledger>(
    state: &DayState<'_>,
    bars: &[u32],
    opens: &OpenWishes,
    notes: &Notes,
    claim: &[u32],
    marked: &mut Marks,
    steps: &mut Steps<L>,
)
    requires claim { All (λ v. v < length state.now.dossier.wishes) claim.now }
    requires bars { length bars.now ≡ length state.now.dossier.schools }
    requires marked { length marked.old ≡ length state.now.dossier.wishes }
    ensures steps { steps.new
        ≡ steps.old + count_by (is_fresh state.now bars.now opens.now
        (all_exempt state.now notes.now.called_by_limit)) claim.now }
    ensures marked { MarksWishes state.now (λ x. is_among x.0 claim.now
        && is_fresh state.now bars.now opens.now
        (all_exempt state.now notes.now.called_by_limit) x.0) marked.old marked.new }
{
    for wish in claim {
        if is_fresh(state, bars, opens, notes, *wish) {
            steps.tick();
            marked.set(*wish);
        }
    }
}
