//! What the tests of all days of a chain share.
ghost use Rattle.std.specs.Prelude.{◌≡◌};
ghost use Rattle.certificate.specs.Checked.{ids_in};

use dossier_check::Index;
use linked_demand::Roster;
use std::marker::Model;

/// What does not change from day to day while a chain is tested: the roster of the run, and the
/// index of the ids of its dossier. Both are lent, and nothing is made of them.
#[derive(Drop)]
pub struct Grounds<'a, 'd> {
    pub(crate) roster: &'a Roster<'a, 'd>,
    pub(crate) index: &'a Index,
}

impl<'a, 'd> Model for Grounds<'a, 'd> {
    ghost use Rattle.std.specs.Prelude.{◌≡◌};
    ghost use Rattle.certificate.specs.Checked.{ids_in};
    ghost use Rattle.linked_demand.specs.Rosters.{Setting};

    ghost Value = { Setting };

    ghost view = { λ g. g.roster.now };

    ghost invariant = { λ g. g.index.now ≡ ids_in g.roster.now.dossier };
}

impl<'a, 'd> Grounds<'a, 'd> {
    /// The grounds along a roster, which all days, states and ceilings of its dossier share.
    pub fn along(roster: &'a Roster<'a, 'd>, index: &'a Index) -> Grounds<'a, 'd>
        requires { index.now ≡ ids_in roster.now.dossier }
        ensures { result ≡ roster.now }
    {
        Grounds { roster, index }
    }
}
