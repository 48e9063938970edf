//! Witnesses of laws: for each law that has premises a worked case that meets all of them, with
//! what the law concludes there, so that no law holds for want of a case. The text of a witness is
//! that of its law, with a value for each variable and a product for each arrow, which
//! `tools/laws_without_witness.py` compares. The calls do nothing: their clauses are theorems.
//!
//! `witnesses_of_bars();`
#![tactic(auto)]

mod answers;
mod automatic_days;
mod bars;
mod beds;
mod call_orders;
mod chains;
mod changes;
mod definitions;
mod evenings;
mod matchings;
mod passes;
mod promises;
mod read;
mod told;

pub use answers::{witnesses_of_answers, witnesses_of_automatic_answers};
pub use automatic_days::witnesses_of_automatic_days;
pub use bars::{witnesses_of_bars, witnesses_of_runs};
pub use beds::witnesses_of_beds;
pub use call_orders::{witnesses_of_call_orders, witnesses_of_least_orders};
pub use chains::witnesses_of_written_chains;
pub use changes::{
    witness_of_better_places, witness_of_struck_wishes, witness_of_unread_orders,
    witnesses_of_kinder_dossiers,
};
pub use definitions::{worked_definitions, worked_relations};
pub use evenings::{witness_of_limits, witnesses_of_campaign_bars, witnesses_of_days_and_evenings};
pub use matchings::{
    witnesses_of_markets, witnesses_of_stable_matchings, worked_market_of_dossier,
};
pub use passes::{witnesses_of_evenings, witnesses_of_passes};
pub use promises::{witnesses_of_exchanges, witnesses_of_offers, witnesses_of_places};
pub use read::{worked_dates, worked_samples, worked_shapes, worked_slots};
pub use told::{witnesses_of_days, witnesses_of_explanations};
