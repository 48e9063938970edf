//! The data of the admission engine, and the definitions of its rules (in `specs/`, one file a
//! topic). These compute, so worked cases are theorems. A dossier's rows name one another by place.
//!
//! `let wish = dossier.wishes.as_slice()[place as usize];`
#![tactic(auto)]

mod bar_laws;
mod chain;
mod chain_laws;
mod dossier;
mod evening_laws;
mod explanation;
mod lines;
mod order_laws;
mod ranking;
mod records;
mod refusal;
mod sequence;
mod slot;
mod state;
mod steps;
mod tables;
mod text;
mod with_beds;
mod worked;

pub use bar_laws::laws_of_bars;
pub use chain::{Chain, ChainFault, ChainReason, CheckReason, DayChain, FallLine, PassChain};
pub use chain_laws::laws_of_chains;
pub use dossier::{
    Answer, AnswerKind, CeilingChange, Dossier, FIRST_ROW, MAX_DAY, MAX_NUMBER, MAX_ROWS,
    Programme, School, Wish, limits_of_rules,
};
pub use evening_laws::laws_of_evenings;
pub use explanation::{BarCause, Explanation};
pub use order_laws::laws_of_call_orders;
pub use ranking::{Bound, CallOrder, CallOrders, RankGroup, Ranked};
pub use records::{DayRecord, Fall, Lapse, PassEnd, PassRecord, Terms};
pub use refusal::{InFault, OutOfMemory, Reason, Refusal};
pub use sequence::Sequence;
pub use slot::{PerSlot, Slot};
pub use state::{Change, Freed, Mark, Stamp, Status};
pub use steps::Steps;
pub use tables::{
    AnswerRow, BoardRow, CeilingRow, GroupRow, ProgrammeRow, RankRow, SchoolRow, Since, StateRow,
    Tables, WishRow,
};
pub use text::push_after;
pub use worked::{worked_chains, worked_days, worked_faults, worked_rows};
