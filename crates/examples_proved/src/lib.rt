//! Callers of the library with contracts of their own, which rest on its contracts and laws: `docs/USING.md` walks through one.
#![tactic(auto)]

mod audit;
mod client;
mod gtids;
mod load;
mod observe;
mod proxy;
mod report;
mod server;

pub use audit::{Sent, is_whole_session};
pub use client::execution;
pub use gtids::{check, kept, merged};
pub use load::stream;
pub use observe::follow;
pub use proxy::{forward, forward_command, statement};
pub use report::{sum_of_column, value_at};
pub use server::{resend, send_row};
