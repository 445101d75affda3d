//! The responses of authentication plugins to a nonce.
#![tactic(auto, using(crate::proofs::Mixed::mixing))]

ghost use Rattle.std.specs.Prelude.{◌≡◌, [], ◌++◌, length};
ghost use Rattle.sha1.specs.Sha1.{sha1};
ghost use Rattle.sha2.specs.Sha256.{sha256};
ghost use Rattle.mysql_packets_c.specs.Output.{Puts};
ghost use Rattle.mysql_packets_c.specs.Scramble as spec;

use crate::output::put;
use sha1::Sha1;
use sha2::{Digest, Sha256};

/// XORs bytes with an equal number of others.
fn mix(first: &[u8], second: &[u8], out: &mut [u8])
    requires len { length second.now ≡ length first.now }
    requires first { out.old ≡ first.now }
    ensures { out.new ≡ spec.mixed first.now second.now }
{
    for place in 0..first.len() {
        out[place] = first[place] ^ second[place];
    }
}

/// Returns the digest of the nonce and of the hash that a server keeps of the password.
fn challenged(nonce: &[u8], once: &[u8; 20]) -> [u8; 20]
    ensures { result ≡ sha1 (nonce.now ++ sha1 once.now) }
{
    let mut hasher = Sha1::new();
    hasher.update(nonce);
    hasher.update(&Sha1::digest(once));
    hasher.finalize()
}

/// Writes the response of `mysql_native_password`: 20 bytes, or none for an empty password. If the buffer is too small (5),
/// `written` is the length needed.
#[unsafe(no_mangle)]
pub extern "C" fn myp_scramble_native(
    password: &[u8],
    nonce: &[u8],
    out: &mut [u8],
    written: &mut usize,
) -> u32
    ensures value { Puts (spec.native_answer password.now nonce.now) result out.old out.new written.new }
{
    if password.is_empty() {
        return put(&[], out, written);
    }
    let once = Sha1::digest(password);
    let mut answer = once;
    mix(&once, &challenged(nonce, &once), &mut answer);
    put(&answer, out, written)
}

/// Returns the digest of the hash that a server keeps of the password, and of the nonce.
fn challenged_sha2(nonce: &[u8], once: &[u8; 32]) -> [u8; 32]
    ensures { result ≡ sha256 (sha256 once.now ++ nonce.now) }
{
    let twice = Sha256::digest(once);
    let mut hasher = Sha256::new();
    hasher.update(&twice);
    hasher.update(nonce);
    hasher.finalize()
}

/// Writes the response of `caching_sha2_password`: 32 bytes, or none for an empty password. If the buffer is too small (5),
/// `written` is the length needed.
#[unsafe(no_mangle)]
pub extern "C" fn myp_scramble_sha2(
    password: &[u8],
    nonce: &[u8],
    out: &mut [u8],
    written: &mut usize,
) -> u32
    ensures value { Puts (spec.sha2_answer password.now nonce.now) result out.old out.new written.new }
{
    if password.is_empty() {
        return put(&[], out, written);
    }
    let once = Sha256::digest(password);
    let mut answer = once;
    mix(&once, &challenged_sha2(nonce, &once), &mut answer);
    put(&answer, out, written)
}
