//! What became of each wish.
ghost use Rattle.std.specs.Prelude.{◌≡◌};
ghost use Rattle.admit_core.specs.State.{is_live, is_live_status, is_waiting, is_waiting_status};

/// What became of a wish. It is live while it is offered or accepted.
#[derive(Clone, Copy, Debug, PartialEq, Eq)]
pub enum Status {
    Waiting,
    Offered,
    Accepted,
    Refused,
    Withdrawn,
    Quit,
    AutoRefused,
    AutoWithdrawn,
    Lapsed,
}

impl Status {
    /// Whether a wish of this status is live.
    pub fn is_live(self) -> bool
        ensures { result ≡ is_live_status self }
    {
        matches!(self, Status::Offered | Status::Accepted)
    }

    /// Whether a wish of this status waits.
    pub fn is_waiting(self) -> bool
        ensures { result ≡ is_waiting_status self }
    {
        matches!(self, Status::Waiting)
    }
}

/// When a wish last changed its status: the state that came in is day 0 pass 0, a day's lapses and
/// answers are its pass 0, and the passes are counted from 1.
#[derive(Clone, Copy, PartialEq, Eq)]
pub struct Stamp {
    pub day: u32,
    pub pass: u32,
}

/// A wish's status, and since when it has had it.
#[derive(Clone, Copy, PartialEq, Eq)]
pub struct Mark {
    pub status: Status,
    pub stamp: Stamp,
}

impl Mark {
    /// Whether the wish is live.
    pub fn is_live(self) -> bool
        ensures { result ≡ is_live self }
    {
        self.status.is_live()
    }

    /// Whether the wish waits.
    pub fn is_waiting(self) -> bool
        ensures { result ≡ is_waiting self }
    {
        self.status.is_waiting()
    }
}

/// In how many programmes, and in how many schools, candidates were live and no longer are.
#[derive(Clone, Copy)]
pub struct Freed {
    pub seats: u32,
    pub beds: u32,
}

/// A wish's new status.
#[derive(Clone, Copy)]
pub struct Change {
    pub wish: u32,
    pub status: Status,
}
