//! Sends and receives packets over the caller's reader and writer: their frames, and the kind of each packet.

use crate::error::{Error, Result};
use mysql_packets::constants::{CapabilityFlags, Flags};
use mysql_packets::conversation::{PacketKind, PacketKindTag, Session, Side};
use mysql_packets::frames::{FrameReader, write_frames};
use mysql_packets::packets::{ProgressReport, SessionCapabilities};
use mysql_packets::proto::MySerialize;
use std::alloc::Global;
use std::io::{self, Read, Write};

/// The longest payload that is received: the most that a server's `max_allowed_packet` can be.
const LONGEST: usize = 1 << 30;

/// The maximum number of pipelined commands: each is answered before the next is sent.
const WAITING: usize = 0;

/// The number of bytes to read at once.
const PIECE: usize = 1 << 14;

/// A session with a server.
#[derive(Drop)]
pub struct Connection<R, W> {
    /// The allocator.
    pub alloc: Global,
    /// Whether the server calls itself a MariaDB.
    pub is_mariadb: bool,
    /// The reports of progress that came since the last command.
    pub reports: Vec<ProgressReport<'static>>,
    session: Session,
    reader: R,
    writer: W,
    frames: FrameReader,
    /// The bytes that were read; those between the two positions are not parsed yet.
    input: Vec<u8>,
    passed: usize,
    filled: usize,
}

impl<R: Read, W: Write> Connection<R, W> {
    /// Creates a connection on which nothing was read yet.
    pub fn new(alloc: Global, reader: R, writer: W) -> Self {
        Connection {
            alloc,
            is_mariadb: false,
            reports: Vec::new(alloc),
            session: Session::new(alloc, WAITING),
            reader,
            writer,
            frames: FrameReader::new(alloc, LONGEST),
            input: Vec::new(alloc),
            passed: 0,
            filled: 0,
        }
    }

    /// The capabilities that both sides agreed on: none before the login.
    pub fn agreed(&self) -> Option<SessionCapabilities> {
        self.session.agreed()
    }

    /// Those of them that MySQL has too.
    pub fn capabilities(&self) -> CapabilityFlags {
        match self.agreed() {
            Some(agreed) => agreed.mysql,
            None => CapabilityFlags::from_bits_retain(0),
        }
    }

    /// Whether the last command is answered.
    pub fn is_idle(&self) -> bool {
        self.session.is_idle()
    }

    /// Whether the server's next packet may be of this kind.
    pub fn may_receive(&self, name: PacketKindTag) -> bool {
        self.session.may_receive(Side::Server, name)
    }

    /// Receives the next packet: its kind and its payload.
    pub fn receive(&mut self) -> Result<(PacketKind, Vec<u8>)> {
        for _ in 0..u64::MAX {
            let mut rest = self.input.get(self.passed..self.filled).unwrap_or(&[]);
            let found = self.frames.read(&mut rest)?;
            self.passed = self.filled.saturating_sub(rest.len());
            if let Some(payload) = found {
                let (kind, _command) = self.session.next(Side::Server, payload.as_slice())?;
                let packet = payload.as_slice().to_vec(self.alloc)?;
                self.frames.recycle(payload);
                return Ok((kind, packet));
            }
            self.fill()?;
        }
        Err(Error::Unknown("a packet without an end"))
    }

    /// Reads on, where all that was read is passed.
    fn fill(&mut self) -> Result<()> {
        if self.input.is_empty() {
            self.input = vec![in self.alloc; 0u8; PIECE]?;
        }
        self.passed = 0;
        self.filled = self.reader.read(&mut self.input)?;
        if self.filled == 0 {
            return Err(Error::Io(io::ErrorKind::UnexpectedEof.into()));
        }
        Ok(())
    }

    /// Sends a packet with this payload, with the next sequence number after what was received.
    pub fn send(&mut self, payload: &[u8]) -> Result<()> {
        self.session.next(Side::Client, payload)?;
        let mut frames = Vec::new(self.alloc);
        let number = write_frames(&mut frames, self.frames.number(), payload)?;
        self.put(&frames, number)
    }

    /// Sends a packet of the library, with the next sequence number after what was received.
    pub fn send_packet<P: MySerialize>(&mut self, packet: &P) -> Result<()> {
        let mut payload = Vec::new(self.alloc);
        packet.serialize(&mut payload)?;
        self.send(&payload)
    }

    /// Sends a command: the number of its first frame is 0.
    pub fn command(&mut self, payload: &[u8]) -> Result<()> {
        self.begin();
        self.send(payload)
    }

    /// Sends a command that is a packet of the library's.
    pub fn command_packet<P: MySerialize>(&mut self, packet: &P) -> Result<()> {
        self.begin();
        self.send_packet(packet)
    }

    /// Sends a command that is a byte and a text.
    pub fn command_text(&mut self, code: u8, text: &str) -> Result<()> {
        let mut command = vec![in self.alloc; code]?;
        command.extend_from_slice(text.as_bytes())?;
        self.command(&command)
    }

    fn begin(&mut self) {
        self.frames.expect(0);
        self.reports.clear();
    }

    /// All frames are sent in one write, so that no packet waits for the other side. The answer has the sequence number after
    /// them.
    fn put(&mut self, frames: &[u8], number: u8) -> Result<()> {
        self.frames.expect(number);
        self.writer.write_all(frames)?;
        self.writer.flush()?;
        Ok(())
    }
}
