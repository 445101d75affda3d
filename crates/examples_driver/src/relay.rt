//! Replays a recorded conversation through the proxy: each line of the standard input is a piece of what a side sent, as
//! `client HEX` or `server HEX`, and each line of the standard output is what is forwarded of it, in the same form.

use crate::error::{Error, Result};
use crate::proxy::Proxy;
use crate::words::Digits;
use mysql_packets::conversation::Side;
use std::io::{BufRead, BufReader};

/// The side that a line begins with, and the digits after it.
fn piece(line: &str) -> Result<(Side, &str)> {
    match line.split_once(' ') {
        Some(("client", digits)) => Ok((Side::Client, digits)),
        Some(("server", digits)) => Ok((Side::Server, digits)),
        _ => Err(Error::Unknown("a line of another side")),
    }
}

/// Passes each line of the input through a proxy, and returns the number of packets that were forwarded as their records are
/// written.
pub fn relay(rt: &HostRuntime) -> Result<()> {
    let mut proxy = Proxy::new(rt.alloc());
    for line in BufReader::new(rt.alloc(), rt.reader())?.lines(rt.alloc()) {
        let line = line?;
        pass(rt, &mut proxy, line.as_str())?;
    }
    Ok(eprintln!(rt;
        "values: {}, as read: {}, as sent: {}",
        proxy.values, proxy.as_read, proxy.as_sent
    )?)
}

fn pass(rt: &HostRuntime, proxy: &mut Proxy, line: &str) -> Result<()> {
    let alloc = rt.alloc();
    let (from, digits) = piece(line)?;
    let bytes = hex::decode(alloc, digits).map_err(|_| Error::Unknown("no digits"))?;
    let mut out = Vec::new(alloc);
    proxy.pass(from, &bytes, &mut out)?;
    let side = match from {
        Side::Client => "client",
        Side::Server => "server",
    };
    Ok(println!(rt; "{side} {}", Digits(&out))?)
}
