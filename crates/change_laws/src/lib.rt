//! What a change of a dossier does to whole campaigns, whichever schools were picked. The calls do
//! nothing: their clauses are theorems over the definitions of the rules.
#![tactic(auto)]

mod laws;

pub use laws::{
    law_of_better_places, law_of_kinder_dossiers, law_of_struck_wishes, law_of_unread_orders,
};
