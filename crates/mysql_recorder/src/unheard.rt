//! Pipelined commands since the last packet of the server.

use mysql_conversation::{PacketKind, Side};

/// The number of bytes of a command that determine its answer: the first byte, and the flags of an execution.
const FRONT: usize = 6;

/// The first bytes of a command.
#[derive(Clone, Copy)]
pub(crate) struct Front {
    bytes: [u8; FRONT],
    len: usize,
}

impl Front {
    /// Takes the first bytes of a payload.
    fn of(payload: &[u8]) -> Self {
        let mut bytes = [0; FRONT];
        for (place, byte) in bytes.iter_mut().zip(payload) {
            *place = *byte;
        }
        Front {
            bytes,
            len: payload.len().min(FRONT),
        }
    }

    /// The first bytes.
    pub(crate) fn as_slice(&self) -> &[u8] {
        &self.bytes[..self.len.min(FRONT)]
    }
}

/// The number of pipelined commands since the last packet of the server, and the last of them.
#[derive(Clone, Copy)]
pub(crate) struct Unheard {
    count: u64,
    last: Option<Front>,
}

impl Unheard {
    /// Creates the state without commands.
    pub(crate) fn none() -> Self {
        Unheard {
            count: 0,
            last: None,
        }
    }

    /// Updates the state by a packet.
    pub(crate) fn hear(&mut self, side: Side, kind: PacketKind, is_early: bool, payload: &[u8]) {
        match (side, kind) {
            (Side::Client, PacketKind::Command(_)) if is_early => {
                self.count = self.count.saturating_add(1);
                self.last = Some(Front::of(payload));
            }
            (Side::Client, _) => {}
            (Side::Server, _) => *self = Unheard::none(),
        }
    }

    /// The only command, if there is exactly one.
    pub(crate) fn only(&self) -> Option<Front> {
        if self.count == 1 { self.last } else { None }
    }
}
