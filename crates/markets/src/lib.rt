//! Markets of candidates and programmes, solved by bars that fall. Each candidate lists programmes,
//! best first, and each programme orders its candidates; the bars stand on positions in these
//! orders. What they leave is stable, and the best stable matching for every candidate.
//!
//! `let solved = solve(alloc, &market, &mut FirstPicker::new(alloc), &mut steps)?;`
#![tactic(auto)]

mod calling;
mod counts;
mod fault;
mod filling;
mod in_place;
mod laws;
mod listers;
mod lists;
mod market;
mod named;
mod orders;
mod owned;
mod ranked;
mod round;
mod seating;
mod solution;
mod stamps;
mod standing;
mod text;

pub use counts::counts_of;
pub use fault::MarketFault;
pub use laws::laws_of_markets;
pub use listers::listers_of;
pub use market::Market;
pub use named::{Named, from_dossier};
pub use ranked::Ranked;
pub use round::MarketRound;
pub use seating::is_at;
pub use solution::{Solved, solve};
pub use text::market_text;
