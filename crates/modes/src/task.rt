//! What a run is to do.
use intake::{DatedTerms, Input};
use request::Request;

/// What a run is to do: what is asked for, what was read, and the terms of its offers, where these
/// lapse.
#[derive(Clone, Copy)]
pub(crate) struct Task<'r> {
    pub request: &'r Request,
    pub input: &'r Input,
    pub dated: Option<&'r DatedTerms>,
}

/// What a mode asks of a picker, which it is lent once its days have led to a desk.
#[derive(Clone, Copy)]
pub(crate) enum Asking {
    /// How many beds a school, named by its id, needs.
    Beds { school: u32 },
    /// The dossier's market.
    Market,
}
