//! Reads a recording of a connection, and writes what each of its packets holds: `mypackets conversation`.
//!
//! Its arguments are the words after `conversation`.
#![tactic(auto)]

use mysql_show::arguments;
use std::io::{self, ErrorKind};
use std::process::ExitCode;

fn main(rt: HostRuntime) -> ExitCode {
    let mut writer = io::writer(&rt);
    let status = match arguments(&rt) {
        Ok(words) => mysql_recorder::run(rt.alloc(), &words, &mut rt.reader(), &mut writer),
        Err(error) if error.kind() == ErrorKind::OutOfMemory => {
            mysql_recorder::refuse_memory(&mut writer)
        }
        // A word that is no text is a bad call.
        Err(_) => mysql_recorder::refuse_call(&mut writer),
    };
    ExitCode::from(status)
}
