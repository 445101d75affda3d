//! Recipes of what a driver sends and reads, each over a reader and a writer of the caller's.
//!
//! `examples_driver RECIPE USER PASSWORD PATH DATABASE ARG ..` talks to a server on its standard input and output, and writes
//! what it read as lines of standard error. The file PATH has the results of cryptography that is done elsewhere: see
//! [`passwords`]. `examples_driver proxy` talks to no server, and replays a recorded conversation: see [`relay`].
#![tactic(auto)]

mod authenticate;
mod bulk;
mod connection;
mod error;
mod errors;
mod execute;
mod infile;
mod login;
mod passwords;
mod play;
mod proxy;
mod query;
mod relay;
mod replica;
mod rows;
mod session_changes;
mod words;

use crate::connection::Connection;
use crate::error::Result;
use crate::login::login;
use crate::passwords::Passwords;
use crate::play::{Arguments, play};
use crate::relay::relay;
use std::process::ExitCode;
use std::{env, io};

/// The words of the command line, without the program's name.
fn command_line(rt: &HostRuntime) -> Result<Vec<String>> {
    Ok(env::args(rt)?.skip(1).collect(rt.alloc())?)
}

/// The word at a place, or an empty one.
fn word(words: &[String], place: usize) -> &str {
    match words.get(place) {
        Some(word) => word.as_str(),
        None => "",
    }
}

fn run(rt: &HostRuntime) -> Result<()> {
    let words = command_line(rt)?;
    if word(&words, 0) == "proxy" {
        return relay(rt);
    }
    let mut connection = Connection::new(rt.alloc(), rt.reader(), io::writer(rt));
    let mut answers = Passwords {
        rt,
        password: word(&words, 2),
        path: word(&words, 3),
    };
    login(
        &mut connection,
        word(&words, 1),
        word(&words, 4),
        &mut answers,
    )?;
    let arguments = Arguments(words.get(5..).unwrap_or(&[]));
    play(rt, &mut connection, word(&words, 0), &arguments)
}

fn main(rt: HostRuntime) -> ExitCode {
    match run(&rt) {
        Ok(()) => ExitCode::SUCCESS,
        Err(error) => {
            let _ = eprintln!(rt; "error: {error}");
            ExitCode::FAILURE
        }
    }
}
