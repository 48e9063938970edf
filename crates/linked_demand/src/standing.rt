//! Where candidates stand among those who wish for a programme.
ghost use Rattle.std.specs.Prelude.{◌≡◌, ◌<◌, length};
ghost use Rattle.day_state.specs.Kept.{wish_in};
ghost use Rattle.linked_demand.specs.Opens.{line_of};
ghost use Rattle.linked_demand.specs.Rows.{line_place};

use crate::roster::Roster;

impl Roster<'_, '_> {
    /// How many stand before a wish's candidate in the line of its programme: those who wish for
    /// it, in call order. It is looked up.
    pub fn place_in_line(&self, wish: u32) -> u32
        requires { wish < length self.now.dossier.wishes }
        ensures place { result ≡ line_place self.now.dossier self.now.orders
            (wish_in self.now.dossier.wishes wish) }
        ensures called { result < length (line_of self.now.dossier self.now.orders
            (wish_in self.now.dossier.wishes wish).programme) }
    {
        self.lineup.notes.place(wish)
    }
}
