//! The pass that a day closed with.
ghost use Rattle.std.specs.Prelude.{◌≡◌, ◌≤◌, ◌<◌, length};
ghost use Rattle.std.specs.Option.{ForSome};
ghost use Rattle.admit_core.specs.Proposals.{order_of};
ghost use Rattle.day_state.specs.Kept.{wish_in};
ghost use Rattle.desk_day.specs.LastPasses.{IsOfDossier, last_pass};

use admit_core::{CallOrders, Wish};
use day_state::DayState;
use desk_day::Desk;
use proposals::{call_everyone, order_of, programme_count, wish_at};
use std::marker::Model;

/// The state in which a day's last pass began, the call orders, the ceilings of the day and the
/// bars of the pass.
#[derive(Drop)]
pub struct Closing<'p, 'd> {
    pub opening: &'p DayState<'d>,
    pub orders: &'p CallOrders,
    pub ceilings: &'p [u32],
    pub bars: &'p [u32],
}

impl<'p, 'd> Model for Closing<'p, 'd> {
    ghost use Rattle.admit_core.specs.Explanations.{LastPass};
    ghost use Rattle.desk_day.specs.LastPasses.{IsOfDossier, last_pass};

    ghost Value = { LastPass };

    ghost view = { λ p. last_pass p.opening.now p.orders.now.orders p.ceilings.now p.bars.now };

    ghost invariant = { λ p. IsOfDossier
        (last_pass p.opening.now p.orders.now.orders p.ceilings.now p.bars.now) };
}

impl<'p, 'd> Closing<'p, 'd> {
    /// The pass that a day on a desk closed with.
    pub fn of_desk(
        desk: &'p Desk<'d>,
        orders: &'p CallOrders,
        ceilings: &'p [u32],
        bars: &'p [u32],
    ) -> Closing<'p, 'd>
        requires { IsOfDossier
            (last_pass desk.now.opening orders.now.orders ceilings.now bars.now) }
        ensures { result ≡ last_pass desk.now.opening orders.now.orders ceilings.now bars.now }
    {
        Closing {
            opening: desk.opening(),
            orders,
            ceilings,
            bars,
        }
    }

    /// The call order of a programme.
    pub fn order_of(&self, programme: u32) -> &'p [u32]
        requires { programme < length self.now.opening.dossier.programmes }
        ensures order { result.now ≡ order_of self.now.opening.dossier self.now.orders programme }
        ensures few { length result.now ≤ 16000000 }
    {
        let dossier = self.opening.dossier();
        let _ = &dossier.wishes; // learns the invariant
        call_everyone(self.opening, self.orders);
        order_of(self.opening, self.orders, programme)
    }

    /// The wish at a place.
    pub fn wish_at(&self, place: u32) -> Wish
        requires { place < length self.now.opening.dossier.wishes }
        ensures wish { result ≡ wish_in self.now.opening.dossier.wishes place }
        ensures programme { result.programme < length self.now.opening.dossier.programmes }
        ensures school { ForSome result.school (λ h. h < length self.now.opening.dossier.schools) }
    {
        let _ = programme_count(self.opening); // each wish is for one of them
        wish_at(self.opening, place)
    }
}
