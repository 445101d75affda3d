//! The arguments of a program.

use std::{env, io};

/// The words after the program's name.
///
/// The error is `OutOfMemory` if an allocation fails, and another one for a word that is no text.
pub fn arguments(rt: &HostRuntime) -> io::Result<Vec<String>> {
    let mut words = Vec::new(rt.alloc());
    for word in env::args(rt)?.skip(1) {
        words.push(word)?;
    }
    Ok(words)
}
