//! What the questions of beds are asked of.
ghost use Rattle.std.specs.Prelude.{◌≡◌};

use day_state::DayState;
use linked_demand::Roster;
use std::marker::Model;

/// A state and the roster of its dossier, about which several questions of beds are asked. Both are
/// lent. Other beds are lent to the rounds in turn, so neither is copied.
#[derive(Drop)]
pub struct BedQuestions<'a, 'd> {
    pub(crate) state: &'a DayState<'d>,
    pub(crate) roster: &'a Roster<'a, 'd>,
}

impl<'a, 'd> Model for BedQuestions<'a, 'd> {
    ghost use Rattle.std.specs.Prelude.{◌≡◌};
    ghost use Rattle.bed_need.specs.Questions.{Questions};

    ghost Value = { Questions };

    ghost view = { λ q. record { state = q.state.now; orders = q.roster.now.orders } };

    ghost invariant = { λ q. q.roster.now.dossier ≡ q.state.now.dossier };
}

impl<'a, 'd> BedQuestions<'a, 'd> {
    /// The questions of a state, along the roster of its dossier.
    pub fn along(state: &'a DayState<'d>, roster: &'a Roster<'a, 'd>) -> BedQuestions<'a, 'd>
        requires { roster.now.dossier ≡ state.now.dossier }
        ensures { result ≡ record { state = state.now; orders = roster.now.orders } }
    {
        BedQuestions { state, roster }
    }

    /// The state that is asked about.
    pub(crate) fn state(&self) -> &'a DayState<'d>
        ensures { result.now ≡ self.now.state }
    {
        self.state
    }
}
