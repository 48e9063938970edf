//! Why a wish stands as it does.

use crate::state::{Stamp, Status};

/// Why a bar is as low as it is: it never fell, or the school's beds were demanded.
#[derive(Clone, Copy)]
pub enum BarCause {
    Ceiling,
    Full { beds: u32 },
}

/// Why a wish stands as it does. A school is a place; `position` is the candidate's in the call
/// order, counted from 1.
#[derive(Clone, Copy)]
pub enum Explanation {
    Gone {
        status: Status,
        stamp: Stamp,
    },
    Live {
        status: Status,
        stamp: Stamp,
    },
    Barred {
        school: u32,
        rank: u32,
        bar: u32,
        cause: BarCause,
    },
    NoSeat {
        ahead: u32,
        left: u32,
        position: u32,
        limit: u32,
    },
}
