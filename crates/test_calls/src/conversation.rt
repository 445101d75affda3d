//! Conversations.
//!
//! `session LIMIT WORD ..`: a session from the greeting on. `conversation login LIMIT MYSQL MARIADB WORD ..`: what follows a login, under
//! these capabilities; `conversation commands ..`: a connection that is taken up between two commands. A word is `>` or `<` with the bytes
//! of a piece of the client's or the server's stream after it, frames with their headers; `tls`: what comes is deciphered.
//! `packets LIMIT WORD ..`: as `session`, and what its packets hold (`packets.rt`).
//! `may_receive` as the last word: the kinds that may come next. `payloads ..`: as `conversation`, but a word has a payload, without headers, and no command may come early.

use crate::packets::Watched;
use mysql_packets::constants::{CapabilityFlags, Flags, MariadbCapabilities};
use mysql_packets::conversation::{
    Conversation, InitialPhase, PacketKind, PacketKindTag, Pipeline, PipelineState, Session,
    SessionError, Side, UnexpectedPacket, agreed_on,
};
use mysql_packets::frames::{FrameError, FrameReader};
use mysql_packets::packets::SessionCapabilities;
use std::alloc::Global;
use test_probe::counted;
use test_probe::prelude::{Out, Request};

/// The longest payload that is joined.
const LONGEST: usize = 1 << 26;

/// What follows packets.
pub trait Tracker {
    fn next(&mut self, from: Side, payload: &[u8]) -> Result<(PacketKind, u64), SessionError>;

    fn may_receive(&self, from: Side, name: PacketKindTag) -> bool;

    fn tls_established(&mut self) {}

    /// Goes on from what a packet of this kind leaves in plain numbers.
    fn restart(&mut self, _alloc: Global, _kind: PacketKind) {}

    /// Adds what a packet of this kind holds.
    fn see(&mut self, _out: &mut Out, _from: Side, _kind: PacketKind, _payload: &[u8]) {}
}

impl Tracker for Session {
    fn next(&mut self, from: Side, payload: &[u8]) -> Result<(PacketKind, u64), SessionError> {
        Session::next(self, from, payload)
    }

    fn may_receive(&self, from: Side, name: PacketKindTag) -> bool {
        Session::may_receive(self, from, name)
    }

    fn tls_established(&mut self) {
        Session::tls_established(self)
    }

    /// After a request for TLS the numbers are of what is decrypted, so it stays as it is.
    fn restart(&mut self, alloc: Global, kind: PacketKind) {
        if let PacketKind::SslRequest = kind {
            return;
        }
        if let Ok(state) = self.login_state() {
            if let Some(again) = Session::from_login_state(alloc, self.limit(), &state) {
                *self = again;
            }
        }
    }
}

impl Tracker for Pipeline {
    fn next(&mut self, from: Side, payload: &[u8]) -> Result<(PacketKind, u64), SessionError> {
        Pipeline::next(self, from, payload)
    }

    fn may_receive(&self, from: Side, name: PacketKindTag) -> bool {
        Pipeline::may_receive(self, from, name)
    }
}

impl Tracker for Conversation {
    fn next(&mut self, from: Side, payload: &[u8]) -> Result<(PacketKind, u64), SessionError> {
        match Conversation::next(self, from, payload) {
            Ok(kind) => Ok((kind, 0)),
            Err(UnexpectedPacket) => Err(SessionError::UnexpectedPacket),
        }
    }

    fn may_receive(&self, from: Side, name: PacketKindTag) -> bool {
        Conversation::may_receive(self, from, name)
    }
}

/// A conversation in which eight commands may wait, in plain numbers.
#[derive(Drop)]
struct Numbers {
    alloc: Global,
    agreed: SessionCapabilities,
    state: PipelineState,
}

impl Numbers {
    /// What a packet is. A row leaves the numbers as they are: otherwise it is an error that no conversation returns.
    fn next(&mut self, from: Side, payload: &[u8]) -> Result<(PacketKind, u64), SessionError> {
        let before = self.state;
        let row = match from {
            Side::Client => None,
            Side::Server => self.state.row(self.agreed, payload),
        };
        let taken = self.state.next(self.alloc, self.agreed, from, payload);
        let is_row = row.is_none_or(|row| taken == Ok(row) && self.state == before);
        if is_row && self.state.is_valid() {
            taken
        } else {
            Err(SessionError::Encrypted)
        }
    }
}

/// A pipeline in which eight commands may wait, and the same in plain numbers, which must agree.
#[derive(Drop)]
struct Both {
    pipeline: Pipeline,
    numbers: Numbers,
}

impl Tracker for Both {
    fn next(&mut self, from: Side, payload: &[u8]) -> Result<(PacketKind, u64), SessionError> {
        let taken = self.pipeline.next(from, payload);
        if self.pipeline.limit() != 8 || taken == Err(SessionError::Memory) {
            return taken;
        }
        let is_same = self.numbers.next(from, payload) == taken;
        if is_same && self.numbers.state.is_idle() == self.pipeline.is_idle() {
            taken
        } else {
            Err(SessionError::Encrypted)
        }
    }

    fn may_receive(&self, from: Side, name: PacketKindTag) -> bool {
        self.pipeline.may_receive(from, name)
    }
}

/// The sign of a side.
fn sign_of(side: Side) -> &'static str {
    match side {
        Side::Client => ">",
        Side::Server => "<",
    }
}

/// Adds a packet's kind, whose name is found by its place, and what the kind tells.
pub(crate) fn show_kind(out: &mut Out, side: Side, kind: PacketKind) {
    out.word(sign_of(side));
    if let Some(name) = PacketKindTag::ALL.get(usize::from(kind.name().index())) {
        out.push(name.as_str());
    }
    match kind {
        PacketKind::Command(code) => show_number(out, u64::from(code)),
        PacketKind::ColumnCount(count, follow) => {
            show_number(out, count);
            show_absent(out, follow);
        }
        PacketKind::PrepareOk(columns, params, follow) => {
            show_number(out, u64::from(columns));
            show_number(out, u64::from(params));
            show_absent(out, follow);
        }
        _ => {}
    }
}

/// Adds a number to the last word.
fn show_number(out: &mut Out, number: u64) {
    out.push(":");
    out.display(&number);
}

/// Adds that definitions are left out.
fn show_absent(out: &mut Out, follow: bool) {
    if !follow {
        out.push(":absent");
    }
}

/// Adds a packet, and whether it came. A call that memory is refused for is made again.
fn take<T: Tracker>(out: &mut Out, tracker: &mut T, side: Side, payload: &[u8]) -> bool {
    for _ in 0..2 {
        match counted!(out.alloc(); tracker.next(side, payload)) {
            Ok((kind, number)) => {
                show_kind(out, side, kind);
                out.push("#");
                out.display(&number);
                tracker.see(out, side, kind, payload);
                tracker.restart(out.alloc(), kind);
                return true;
            }
            Err(SessionError::Memory) => out.field("next", "Memory"),
            Err(why) => {
                out.word(sign_of(side));
                out.push("refused:");
                out.push(match why {
                    SessionError::UnexpectedPacket => "Unexpected",
                    SessionError::Full => "Full",
                    SessionError::Memory => "Memory",
                    SessionError::Encrypted => "Encrypted",
                    SessionError::Compressed => "Compressed",
                });
                return false;
            }
        }
    }
    false
}

/// Adds the packets of a piece of a stream, and whether all came. It is somebody else's stream: a packet begins with the number that
/// it was sent with.
fn take_piece<T: Tracker>(
    out: &mut Out,
    tracker: &mut T,
    reader: &mut FrameReader,
    side: Side,
    piece: &[u8],
) -> bool {
    let mut input = piece;
    for _ in 0..=piece.len() {
        reader.resync_sequence(input);
        match reader.read(&mut input) {
            Ok(Some(payload)) => {
                let taken = take(out, tracker, side, payload.as_slice());
                reader.recycle(payload);
                if !taken {
                    return false;
                }
            }
            Ok(None) => return true,
            Err(FrameError::Memory) => out.lose(),
            Err(error) => {
                out.error(&error);
                return false;
            }
        }
    }
    true
}

/// The side that a word is of, and its bytes.
pub(crate) fn piece_of(alloc: Global, word: &str) -> Option<(Side, Vec<u8>)> {
    let (side, digits) = match word.strip_prefix('>') {
        Some(digits) => (Side::Client, digits),
        None => (Side::Server, word.strip_prefix('<')?),
    };
    let bytes = hex::decode(alloc, digits).ok()?;
    Some((side, bytes))
}

/// Adds the kinds that may come next, of both sides.
fn show_expected<T: Tracker>(out: &mut Out, tracker: &T) {
    out.word("may_receive");
    for side in [Side::Client, Side::Server] {
        for name in PacketKindTag::ALL {
            if tracker.may_receive(side, name) {
                out.push(":");
                out.push(sign_of(side));
                out.push(name.as_str());
            }
        }
    }
}

/// Adds the packets of pieces, from a word on, until one doesn't come. `may_receive` at the end adds the kinds that may come then.
fn take_all<T: Tracker>(out: &mut Out, request: &Request<'_>, tracker: &mut T, from: usize) {
    let mut client = FrameReader::new(request.alloc, LONGEST);
    let mut server = FrameReader::new(request.alloc, LONGEST);
    for word in request.line.split(' ').skip(from) {
        match word {
            "tls" => {
                tracker.tls_established();
                continue;
            }
            "may_receive" => break,
            _ => {}
        }
        let Some((side, piece)) = piece_of(request.alloc, word) else {
            return out.word("bad");
        };
        let reader = match side {
            Side::Client => &mut client,
            Side::Server => &mut server,
        };
        if !take_piece(out, tracker, reader, side, piece.as_slice()) {
            break;
        }
    }
    if request.line.ends_with(" may_receive") {
        show_expected(out, tracker);
    }
}

/// The flags that both sides have.
fn show_agreed(out: &mut Out, agreed: Option<SessionCapabilities>) {
    if let Some(agreed) = agreed {
        out.show("mysql", agreed.mysql.0);
        out.show("mariadb", agreed.mariadb.0);
    }
}

/// How many commands may wait, where that is not as it was asked for.
fn show_other_limit(out: &mut Out, asked: usize, limit: usize) {
    if limit != asked {
        out.show("limit", limit);
    }
}

/// A session.
pub fn session(out: &mut Out, request: &Request<'_>) {
    let limit = request.number(1) as usize;
    let mut session = Session::new(request.alloc, limit);
    take_all(out, request, &mut session, 2);
    out.show("at_rest", session.is_idle());
    show_other_limit(out, limit, session.limit());
    show_agreed(out, session.agreed());
}

/// A session, and what its packets hold.
pub fn packets(out: &mut Out, request: &Request<'_>) {
    let mut watched = Watched::new(request.alloc, request.number(1) as usize);
    take_all(out, request, &mut watched, 2);
}

/// What both sides agreed on, by words.
pub(crate) fn agreed_by(request: &Request<'_>, place: usize) -> SessionCapabilities {
    SessionCapabilities {
        mysql: CapabilityFlags::from_bits_retain(request.number(place)),
        mariadb: MariadbCapabilities::from_bits_retain(request.number(place.wrapping_add(1))),
    }
}

/// Where it begins, by the first word.
fn opening_by(request: &Request<'_>) -> InitialPhase {
    match request.word(1) {
        "login" => InitialPhase::Login,
        _ => InitialPhase::Commands,
    }
}

/// A conversation before its first packet, in plain numbers.
fn numbers_of(request: &Request<'_>, agreed: SessionCapabilities) -> Numbers {
    Numbers {
        alloc: request.alloc,
        agreed,
        state: PipelineState::new(opening_by(request)),
    }
}

/// A conversation of frames, in which commands may come early. Where eight may wait, it is also taken in plain numbers.
pub fn conversation(out: &mut Out, request: &Request<'_>) {
    let limit = request.number(2) as usize;
    let agreed = agreed_by(request, 3);
    let opening = opening_by(request);
    let mut both = Both {
        pipeline: Pipeline::new(request.alloc, agreed, opening, limit),
        numbers: numbers_of(request, agreed),
    };
    take_all(out, request, &mut both, 5);
    out.show("at_rest", both.pipeline.is_idle());
    out.show("waiting", both.pipeline.waiting());
    show_other_limit(out, limit, both.pipeline.limit());
}

/// A conversation of payloads, in which none may. It is also taken in plain numbers.
pub fn payloads(out: &mut Out, request: &Request<'_>) {
    let agreed = agreed_by(request, 2);
    let mut conversation = Conversation::new(request.alloc, agreed, opening_by(request));
    let mut numbers = numbers_of(request, agreed);
    for word in request.line.split(' ').skip(4) {
        if word == "may_receive" {
            break;
        }
        let Some((side, payload)) = piece_of(request.alloc, word) else {
            return out.word("bad");
        };
        match conversation.next(side, payload.as_slice()) {
            Ok(kind) => {
                show_kind(out, side, kind);
                let by_numbers = numbers.next(side, payload.as_slice());
                if by_numbers != Ok((kind, numbers.state.number)) {
                    out.word("numbers");
                }
            }
            Err(UnexpectedPacket) => {
                out.word(sign_of(side));
                out.push("refused:Unexpected");
            }
        }
    }
    if request.line.ends_with(" may_receive") {
        show_expected(out, &conversation);
    }
    out.show("at_rest", conversation.is_idle());
    if numbers.state.is_idle() != conversation.is_idle() {
        out.word("numbers");
    }
}

/// The flags that both have, of those of a server and those of a client.
pub fn agreed(out: &mut Out, request: &Request<'_>) {
    show_agreed(
        out,
        Some(agreed_on(agreed_by(request, 1), agreed_by(request, 3))),
    );
}
