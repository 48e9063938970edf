//! What is kept of a pass and of a day.

use crate::sequence::Sequence;
use crate::state::{Change, Freed};

/// One fall of a school's bar: `to` is one less than the first demanded rank that finds no bed. The
/// wishes show it, one for each demanded rank up to that one.
#[derive(Drop)]
pub struct Fall {
    pub school: u32,
    pub from: u32,
    pub to: u32,
    pub wishes: Sequence<u32>,
}

/// The bars at the end of a pass, the falls that led to them, and the places of the wishes that
/// were offered.
#[derive(Drop)]
pub struct PassRecord {
    pub bars: Sequence<u32>,
    pub falls: Sequence<Fall>,
    pub offers: Sequence<u32>,
}

/// A pass with the automatic answers that followed it.
#[derive(Drop)]
pub struct PassEnd {
    pub pass: PassRecord,
    pub autos: Sequence<Change>,
    pub freed: Freed,
}

/// An offer that ended with its deadline; `offered` is the offer's day.
#[derive(Clone, Copy)]
pub struct Lapse {
    pub wish: u32,
    pub offered: i32,
}

/// How long an offer stands, in days, and the offer day of each wish that came in as offered, day 1
/// being the first of the campaign.
#[derive(Drop)]
pub struct Terms {
    pub term: u32,
    pub before: Sequence<i32>,
}

/// A day's passes, and the seats and beds that are left in the evening.
#[derive(Drop)]
pub struct DayRecord {
    pub day: u32,
    pub passes: Sequence<PassEnd>,
    pub left: Sequence<u32>,
    pub free: Sequence<u32>,
    pub lapsed: Sequence<Lapse>,
}
