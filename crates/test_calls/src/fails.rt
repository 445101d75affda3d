//! Readers that fail, that give one byte a read, that are interrupted, that never end; writers that fail, that take one byte
//! a write, that are interrupted, that take nothing.

use crate::call::Call;
use std::alloc::{AllocError, Global};
use std::io;
use std::io::{ErrorKind, Read, Write};
use test_probe::out::Out;
use test_probe::request::Request;

/// Gives one byte of another reader a read, for this many reads. Each read after those fails so.
#[derive(Drop)]
struct SlowReader<R> {
    inner: R,
    left: usize,
    fault: ErrorKind,
}

impl<R: Read> Read for SlowReader<R> {
    fn read(&mut self, buf: &mut [u8]) -> io::Result<usize> {
        if self.left == 0 {
            return Err(io::Error::from(self.fault));
        }
        self.left -= 1;
        let most = buf.len().min(1);
        self.inner.read(&mut buf[..most])
    }
}

/// How a write that is not taken fails; or none, where it takes nothing.
type Then = Option<ErrorKind>;

/// Takes one byte a write, for this many writes, each of which is interrupted first where that is so. Writes after those are not
/// taken. It fails at a byte that is not the next one of those that are wanted.
#[derive(Drop)]
struct SlowWriter<'a> {
    wanted: &'a [u8],
    left: usize,
    fault: Then,
    interrupts: bool,
    was_interrupted: bool,
}

impl Write for SlowWriter<'_> {
    fn write(&mut self, buf: &[u8]) -> io::Result<usize> {
        let Some(byte) = buf.first() else {
            return Ok(0);
        };
        if self.left == 0 {
            return match self.fault {
                Some(fault) => Err(io::Error::from(fault)),
                None => Ok(0),
            };
        }
        if self.interrupts && !self.was_interrupted {
            self.was_interrupted = true;
            return Err(io::Error::from(ErrorKind::Interrupted));
        }
        self.was_interrupted = false;
        match self.wanted.split_first() {
            Some((first, rest)) if first == byte => self.wanted = rest,
            _ => return Err(io::Error::from(ErrorKind::InvalidData)),
        }
        self.left -= 1;
        Ok(1)
    }

    fn flush(&mut self) -> io::Result<()> {
        Ok(())
    }
}

/// An end of a call that fails.
#[derive(Clone, Copy)]
enum End {
    /// A reader that fails so.
    Reader(ErrorKind),
    /// A writer that fails so or takes nothing, and whether each write that it takes is interrupted first.
    Writer(Then, bool),
}

/// What becomes of a call where an end fails after some reads or writes, all of which it makes.
enum Outcome {
    /// It fails, as it must: at a read with nothing written, at a write after what was taken.
    Fails,
    /// It answers as where nothing fails.
    Answers,
    Other,
}

/// A call, and what it answers where nothing fails.
#[derive(Drop)]
struct Answered {
    call: Call,
    status: u8,
    text: Vec<u8>,
}

impl Answered {
    fn of(request: &Request<'_>, text: &str) -> Result<Self, AllocError> {
        let call = Call::of(request, text)?;
        let mut text = Vec::new(request.alloc);
        let status = call.status(&mut call.input.as_slice(), &mut text);
        Ok(Answered { call, status, text })
    }

    fn outcome(&self, status: u8, is_front: bool, is_whole: bool) -> Outcome {
        match status {
            3 if is_front => Outcome::Fails,
            _ if is_whole && status == self.status => Outcome::Answers,
            _ => Outcome::Other,
        }
    }

    fn on_reader(&self, alloc: Global, left: usize, fault: ErrorKind) -> Outcome {
        let inner = self.call.input.as_slice();
        let mut reader = SlowReader { inner, left, fault };
        let mut written = Vec::new(alloc);
        let status = self.call.status(&mut reader, &mut written);
        let is_read = reader.left == 0;
        self.outcome(
            status,
            is_read && written.is_empty(),
            is_read && written == self.text,
        )
    }

    fn on_writer(&self, left: usize, fault: Then, interrupts: bool) -> Outcome {
        let wanted = self.text.as_slice();
        let mut writer = SlowWriter {
            wanted,
            left,
            fault,
            interrupts,
            was_interrupted: false,
        };
        let status = self
            .call
            .status(&mut self.call.input.as_slice(), &mut writer);
        let is_written = writer.left == 0;
        self.outcome(status, is_written, is_written && writer.wanted.is_empty())
    }

    /// How many reads or writes of one byte it makes, each of which ends it where it fails; none, where one doesn't.
    fn failures(&self, alloc: Global, end: End) -> Option<usize> {
        // (a call reads its input, and that it has ended; or nothing)
        let most = self.call.input.len().max(self.text.len()).saturating_add(1);
        for left in 0..=most {
            let outcome = match end {
                End::Reader(fault) => self.on_reader(alloc, left, fault),
                End::Writer(fault, interrupts) => self.on_writer(left, fault, interrupts),
            };
            match outcome {
                Outcome::Fails => {}
                Outcome::Answers => return Some(left),
                Outcome::Other => return None,
            }
        }
        None
    }
}

/// `fails CALL`: its status; how many reads of one byte it makes, each of which ends it where it fails, and where it is
/// interrupted; and whether `each` write of one byte ends it where it fails, where it takes nothing, and where it fails after
/// others that were interrupted once and made again.
pub fn fails(out: &mut Out, request: &Request<'_>, text: &str) -> Result<(), AllocError> {
    let it = Answered::of(request, text)?;
    out.show("status", it.status);
    let failed = ErrorKind::Other;
    for (name, fault) in [
        ("reads", failed),
        ("interrupted_reads", ErrorKind::Interrupted),
    ] {
        out.show(name, it.failures(request.alloc, End::Reader(fault)));
    }
    for (name, fault, interrupts) in [
        ("writes", Some(failed), false),
        ("full_writes", None, false),
        ("resumed_writes", Some(failed), true),
    ] {
        let made = it.failures(request.alloc, End::Writer(fault, interrupts));
        out.show(name, made.map(|_| "each"));
    }
    Ok(())
}

/// The bound of reads of one call.
const MOST_READS: usize = 1_048_576;

/// `endless CALL`: its status and what it writes, on its input and line feeds without end, and how many reads of one byte it makes.
pub fn endless(out: &mut Out, request: &Request<'_>, text: &str) -> Result<(), AllocError> {
    let call = Call::of(request, text)?;
    let inner = call.input.as_slice().chain(io::repeat(b'\n'));
    let mut reader = SlowReader {
        inner,
        left: MOST_READS + 1,
        fault: ErrorKind::Other,
    };
    let mut written = Vec::new(request.alloc);
    let status = call.status(&mut reader, &mut written);
    out.show("status", status);
    out.show("reads", (MOST_READS + 1).saturating_sub(reader.left));
    out.show("written", written.len());
    Ok(())
}
