//! What a run works on.
ghost use Rattle.std.specs.Prelude.{◌≡◌, length};

use admit_core::{Dossier, Sequence};
use dossier_check::{Dates, Index};

/// What a run works on.
#[derive(Drop)]
pub struct Input {
    pub dossier: Dossier,
    pub index: Index,
    /// Since when each wish has its status.
    pub dates: Dates,
    /// The bytes of the chain slot; none where the mode does not read it.
    pub chain: Sequence<u8>,
    ghost one_each: { length dates ≡ length dossier.wishes },
    ghost wishes_have_ids: { length index.wishes ≡ length dossier.wishes },
    ghost schools_have_ids: { length index.schools ≡ length dossier.schools },
}
