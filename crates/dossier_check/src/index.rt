//! The places of ids.
ghost use Rattle.std.specs.Prelude.{◌≡◌, position, nat_eq};

use crate::row_ids::RowIds;
use std::marker::Model;

/// The ids of the wishes and of the schools. A contract sees them as two lists, by place.
#[derive(Drop)]
pub struct Index {
    pub(crate) wishes: RowIds,
    pub(crate) schools: RowIds,
}

impl Model for Index {
    ghost use Rattle.dossier_check.specs.Ids.{Ids, IsSmall};

    ghost Value = { Ids };

    ghost view = { λ x. record { wishes = x.wishes.keys; schools = x.schools.keys } };

    ghost invariant = { λ x. IsSmall
        (record { wishes = x.wishes.keys; schools = x.schools.keys }) };
}

/// The place of the wish with this id; none where no wish has it.
pub fn wish_place(index: &Index, id: u32) -> Option<u32>
    ensures { result ≡ position (nat_eq id) index.now.wishes }
{
    let place = index.wishes.get_index_of(id)?;
    Some(place as u32)
}

/// The place of the school with this id; none where no school has it.
pub fn school_place(index: &Index, id: u32) -> Option<u32>
    ensures { result ≡ position (nat_eq id) index.now.schools }
{
    let place = index.schools.get_index_of(id)?;
    Some(place as u32)
}
