//! Call orders the plain way, held against those of `call_order`: for each position the whole
//! ranking is gone along, and each candidate of it looked for among those who were called. So its
//! steps grow with the cube of the number of candidates.
//!
//! `let order = call_order_scanned(alloc, &group)?;`
#![tactic(auto)]

mod scan;

pub use scan::call_order_scanned;
