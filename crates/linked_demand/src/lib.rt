//! The boarding schools of a state as a system of falling bars that keeps who is served, who has a
//! bed and which schools are overfilled: a fall costs the wishes that it closes and those that
//! become proposed, not a look at all schools or all wishes. The plain form is `demand`. The
//! `Lineup` is shared by all passes.
//!
//! `let schools = LinkedRound::build(alloc, &state, &orders, &lineup, ceilings)?;`
#![tactic(auto)]

mod beds;
mod boarders;
mod calling;
mod claims;
mod closed;
mod cursors;
mod cut;
mod ends;
mod fresh;
mod fronts;
mod guesses;
mod housed;
mod housing;
mod law;
mod limited;
mod line;
mod lineup;
mod links;
mod marks;
mod notes;
mod open_wishes;
mod opening;
mod over;
mod overfilled;
mod roster;
mod round;
mod row_beds;
mod rows;
mod schools;
mod seats;
mod standing;
mod wishes;
mod wishing;

pub use beds::own_beds;
pub use law::law_of_changes;
pub use lineup::Lineup;
pub use roster::Roster;
pub use round::LinkedRound;
