//! What the slots from the wishes on are tested by.

use crate::row_ids::RowIds;
use crate::who_is_ranked::WhoIsRanked;
use indexmap::IndexSet;
use keyed_hash::Keyed;

/// What the rows before the wishes are found by.
#[derive(Clone, Copy)]
pub(crate) struct Known<'a> {
    /// The key is of all rows.
    pub(crate) keyed: Keyed,
    pub(crate) programmes: &'a RowIds,
    pub(crate) schools: &'a RowIds,
    pub(crate) ranked: WhoIsRanked<'a>,
    /// The pairs of school and candidate.
    pub(crate) boarded: &'a IndexSet<(u32, u32), Keyed>,
}
