//! Rankings and the call orders that come of them.

use crate::sequence::Sequence;

/// A candidate of a ranking (*classement*), a lesser rank being the better one.
#[derive(Clone, Copy)]
pub struct Ranked {
    pub candidate: u32,
    pub rank: u32,
    pub scholar: bool,
    pub resident: bool,
}

/// A ranking with its two minimum rates, from 0 to 100 per cent. The list ascends by rank.
#[derive(Drop)]
pub struct RankGroup {
    pub id: u32,
    pub scholar_pct: u32,
    pub resident_pct: u32,
    pub list: Sequence<Ranked>,
}

/// Which minimum rates bound when a position of a call order was filled. `Alone` says that both
/// bound, that no resident scholar remained, and that scholarship alone ruled.
#[derive(Clone, Copy, Debug, PartialEq, Eq)]
pub enum Bound {
    Free,
    Scholar,
    Resident,
    Both,
    Alone,
}

/// The order in which a group's candidates are called (*ordre d'appel*), by their ids, with the
/// bound of each position.
#[derive(Drop)]
pub struct CallOrder {
    pub list: Sequence<u32>,
    pub trace: Sequence<Bound>,
}

/// One call order for each ranking group.
#[derive(Drop)]
pub struct CallOrders {
    pub orders: Sequence<CallOrder>,
}
