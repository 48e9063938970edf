//! What is known of markets beside their solution: who blocks a matching first, and what holds of
//! all stable matchings. The markets themselves and their solution are those of the crate
//! `markets`, and have their names here too.
//!
//! `let block = first_block(alloc, &market, &places)?;`
#![tactic(auto)]

mod block;
mod laws;

pub use block::{MarketBlock, first_block};
pub use laws::{laws_of_stable_matchings, worked_markets};
pub use markets::{
    Market, MarketFault, MarketRound, Named, Solved, from_dossier, laws_of_markets, market_text,
    solve,
};
