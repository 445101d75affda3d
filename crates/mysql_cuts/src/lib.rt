//! Cuts of a list of rows into bulk requests: which of them fit, and which are fewest.
//!
//! A request of `COM_STMT_BULK_EXECUTE` has a head of 7 bytes, two bytes for each parameter type that it sends,
//! and the bytes of its rows. A server accepts no request that exceeds its limit, so a long list of rows is
//! cut, in order, into several requests. [`cut_is_fewest`] checks whether a given cut fits and no other fitting
//! cut has fewer requests.
#![tactic(auto)]

mod fewest;
pub mod laws;
mod rule;

pub use fewest::cut_is_fewest;
pub use rule::BulkRule;
