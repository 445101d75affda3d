//! A call of the program: its words, and its input.

use mysql_packets::run;
use std::alloc::{AllocError, Global};
use std::io::{Read, Write};
use test_probe::counted;
use test_probe::out::Out;
use test_probe::request::Request;

/// A call.
#[derive(Drop)]
pub struct Call {
    alloc: Global,
    words: Vec<String>,
    pub input: Vec<u8>,
}

impl Call {
    /// The call that a text spells, which ends a request.
    pub fn of(request: &Request<'_>, text: &str) -> Result<Self, AllocError> {
        let alloc = request.alloc;
        let (call, input) = match text.split_once(" <x ") {
            Some((call, _)) => (call, request.bytes.clone()?),
            None => {
                let (call, input) = text.split_once(" < ").unwrap_or((text, ""));
                (call, input.replace(alloc, '/', "\n")?.into_bytes())
            }
        };
        Ok(Call {
            alloc,
            words: words(alloc, call)?,
            input,
        })
    }

    /// Its status, on a reader and a writer.
    pub fn status<R: Read, W: Write>(&self, reader: &mut R, writer: &mut W) -> u8 {
        run(self.alloc, self.words.as_slice(), reader, writer)
    }
}

/// The words of a call.
fn words(alloc: Global, call: &str) -> Result<Vec<String>, AllocError> {
    call.split(' ')
        .filter(|shown| *shown != "(none)")
        .map(|shown| word(alloc, shown))
        .try_collect(alloc)
}

/// A word of a call.
fn word(alloc: Global, shown: &str) -> Result<String, AllocError> {
    let spelled = if shown == "\"\"" { "" } else { shown };
    spelled.replace(alloc, '\\', "\n")
}

/// Runs the program, and adds its status and its lines.
pub fn ran(out: &mut Out, request: &Request<'_>) -> Result<(), AllocError> {
    let call = Call::of(request, request.line)?;
    // (capacity for the lines, so that the growths that are met are the program's own)
    let mut written = Vec::with_capacity(request.alloc, 8192)?;
    let mut reader = call.input.as_slice();
    let status = counted!(request.alloc; value call.status(&mut reader, &mut written));
    show(out, status, written.as_slice());
    Ok(())
}

/// Adds a status and the lines that were written.
fn show(out: &mut Out, status: u8, written: &[u8]) {
    out.word("status ");
    out.display(&status);
    for line in str::from_utf8(written).unwrap_or("?").lines() {
        out.push(";");
        out.word(line);
    }
}
