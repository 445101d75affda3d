//! Operations on batches of packets, for the benchmark in `bench/`, which calls them from C.
//!
//! Each takes the bytes of many packets, one after the other, and answers a sum over what it read or wrote, so that no
//! work is dropped. Where packets differ in length, each stands after its own length in two bytes.
#![tactic(auto)]

mod bulk;
mod columns;
mod errors;
mod executions;
mod handshakes;
mod observed;
mod ok_packets;
mod packets;
mod replication;
mod row_views;
mod rows;
mod sent;
mod statements;
mod stored_rows;
mod streams;
