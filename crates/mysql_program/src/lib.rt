//! The commands of the program `mypackets` that show one packet, and `bulk`.
#![tactic(auto)]

mod answer;
mod bulk_call;
mod capabilities;
mod command;
mod commands;
mod decimal;
mod digits;
mod input;
pub mod laws;
mod lines;
mod parts;
mod program;
mod row_text;
mod time_text;
mod type_words;
mod word;

pub use program::{refuse_memory, run};
