//! Reads a MySQL packet given as hexadecimal digits, and writes what it holds.
#![tactic(auto)]

use mysql_show::arguments;
use std::io::{self, ErrorKind};
use std::process::ExitCode;

fn main(rt: HostRuntime) -> ExitCode {
    let mut writer = io::writer(&rt);
    let status = match arguments(&rt) {
        Ok(words) => mysql_program::run(rt.alloc(), &words, &mut rt.reader(), &mut writer),
        Err(error) if error.kind() == ErrorKind::OutOfMemory => {
            mysql_program::refuse_memory(&mut writer)
        }
        // A word that is no text is a bad call.
        Err(_) => mysql_program::run(rt.alloc(), &[], &mut rt.reader(), &mut writer),
    };
    ExitCode::from(status)
}
