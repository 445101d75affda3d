//! The cryptography that the program does itself, and that it asks for.

use crate::authenticate::Answers;
use crate::error::{Error, Result};
use crate::words::Digits;
use mysql_packets::packets::AuthPlugin;
use sha1::Sha1;
use sha2::{Digest, Sha256};
use std::alloc::Global;
use std::fs;

/// A password, and the path of a file with what the program can't compute: signatures and encrypted passwords.
#[derive(Drop)]
pub struct Passwords<'a> {
    pub rt: &'a HostRuntime,
    pub password: &'a str,
    pub path: &'a str,
}

impl Answers for Passwords<'_> {
    fn answer(&mut self, plugin: &AuthPlugin<'_>, scramble: &[u8]) -> Result<Vec<u8>> {
        let alloc = self.rt.alloc();
        let password = self.password.as_bytes();
        if password.is_empty() {
            return Ok(Vec::new(alloc));
        }
        match plugin {
            AuthPlugin::MysqlNativePassword => native(alloc, password, scramble),
            AuthPlugin::CachingSha2Password => caching_sha2(alloc, password, scramble),
            _ => asked(self.rt, self.path, plugin.as_bytes(), scramble),
        }
    }

    fn encrypted(&mut self, key: &str, scramble: &[u8]) -> Result<Vec<u8>> {
        asked(self.rt, self.path, key.as_bytes(), scramble)
    }
}

/// Writes a line with the name or the key and the scramble, and reads the result from the file, which may be a pipe.
fn asked(rt: &HostRuntime, path: &str, of: &[u8], scramble: &[u8]) -> Result<Vec<u8>> {
    eprintln!(rt; "answer: {} {}", Digits(of), Digits(scramble))?;
    let text = fs::read_to_string(rt, path)?;
    hex::decode(rt.alloc(), text.trim()).map_err(|_| Error::Unknown(
        "an answer that is not hexadecimal",
    ))
}

/// The bytes of both, each pair as one.
fn mixed(alloc: Global, first: &[u8], second: &[u8]) -> Result<Vec<u8>> {
    Ok(
        first
            .iter()
            .zip(second)
            .map(|(a, b)| *a ^ *b)
            .collect(alloc)?,
    )
}

/// `mysql_native_password`: SHA1(password) mixed with SHA1(scramble, SHA1(SHA1(password))).
fn native(alloc: Global, password: &[u8], scramble: &[u8]) -> Result<Vec<u8>> {
    let once = Sha1::digest(password);
    let mut hasher = Sha1::new();
    hasher.update(scramble);
    hasher.update(&Sha1::digest(&once));
    mixed(alloc, &once, &hasher.finalize())
}

/// `caching_sha2_password`: SHA256(password) mixed with SHA256(SHA256(SHA256(password)), scramble).
fn caching_sha2(alloc: Global, password: &[u8], scramble: &[u8]) -> Result<Vec<u8>> {
    let once = Sha256::digest(password);
    let mut hasher = Sha256::new();
    hasher.update(Sha256::digest(&once));
    hasher.update(scramble);
    mixed(alloc, &once, &hasher.finalize())
}
