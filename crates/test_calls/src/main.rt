//! Answers rows of the program `mypackets`: a line for each line of its input.
//!
//! A request is the program's words, and after ` < ` its input, in which `/` stands for a line feed; after ` <x ` the
//! input stands in hexadecimal digits. A word `""` is empty, in a word `\` stands for a line feed, and `(none)` stands for
//! no words. The answer is `status N` and the lines that are written, with `; ` in front of each.
//!
//! After `fails` it is what becomes of such a call on readers and writers that fail, and after `endless` on an input without
//! end. `tour` makes the calls of the README's tour, `kind` reads an OK packet of a kind that stands here, `flags` prints flag words, and `gtid_sets` reads the
//! sets of GTIDs that an OK packet tells. `session`, `conversation`, `payloads` and `agreed` tell packets apart, `packets` reads
//! them, `statements` reads the parameters of executions and the values of rows, and `observer` reads all of a connection.
#![tactic(auto)]

mod call;
mod conversation;
mod fails;
mod flags;
mod gtid_sets;
mod kind;
mod observer;
mod packets;
mod statements;
mod tour;

use std::io;
use test_probe::out::Out;
use test_probe::request::Request;
use test_probe::{Answers, Ends};

struct Program;

impl Answers for Program {
    fn answer(out: &mut Out, request: &Request<'_>) -> bool {
        match request.line.split_once(' ') {
            Some(("fails", call)) => fails::fails(out, request, call).end(out),
            Some(("endless", call)) => fails::endless(out, request, call).end(out),
            Some(("kind", _)) => kind::kind(out, request),
            Some(("flags", _)) => flags::flags(out, request),
            Some(("session", _)) => conversation::session(out, request),
            Some(("conversation", _)) => conversation::conversation(out, request),
            Some(("packets", _)) => conversation::packets(out, request),
            Some(("payloads", _)) => conversation::payloads(out, request),
            Some(("agreed", _)) => conversation::agreed(out, request),
            Some(("statements", _)) => statements::statements(out, request),
            Some(("observer", _)) => observer::observer(out, request),
            Some(("gtid_sets", _)) => gtid_sets::gtid_sets(out, request),
            None if request.line == "tour" => tour::tour(out, request.alloc),
            _ => call::ran(out, request).end(out),
        }
        true
    }
}

fn main(rt: HostRuntime) -> io::Result<()> {
    test_probe::run::<Program>(&rt)
}
