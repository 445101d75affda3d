//! Connections that are watched: each packet by its kind and its record.

use crate::packets::Packets;
use crate::row_views::sum_of_text;
use crate::streams::{LIMIT, Wrong};
use mysql_commands::Command;
use mysql_conversation::{Session, SessionError, Side};
use mysql_frames::FrameReader;
use mysql_observer::{
    ClientPacket, ClientRecord, Observer, ObserverLimits, ReadContext, ServerPacket, server_packet,
};
use mysql_statements::{PipelinedLimits, RowColumn, StatementLimits};
use std::alloc::Global;

const LIMITS: ObserverLimits = ObserverLimits {
    waiting: 16,
    statements: StatementLimits {
        statements: 16,
        types: 1024,
    },
    early: PipelinedLimits {
        commands: 16,
        bytes: 1024,
    },
    columns: 1024,
};

/// The greeting and the login of a server and a client that speak the protocol of 4.1, and that end rows with EOF packets.
const GREETING: &[u8] =
    b"\x0a8.0.36\x00\x01\x00\x00\x00abcdefgh\x00\x01\x82\x21\x02\x00\x00\x00\x15\x00\x00\x00\x00\x00\x00\x00\x00\x00\x00ijklmnopqrst\x00";

const LOGIN: &[u8] =
    b"\x01\x82\x00\x00\x00\x00\x00\x01\x21\x00\x00\x00\x00\x00\x00\x00\x00\x00\x00\x00\x00\x00\x00\x00\x00\x00\x00\x00\x00\x00\x00\x00user\x00\x00";

const OK: &[u8] = b"\x00\x00\x00\x02\x00\x00\x00";

/// The definition of a column, of the ten that the rows have.
const COLUMN: &[u8] =
    b"\x03def\x00\x01t\x01t\x01a\x01a\x0c\x2d\x00\x14\x00\x00\x00\xfd\x00\x00\x00\x00\x00";

const COLUMNS: u8 = 10;

impl From<SessionError> for Wrong {
    fn from(_refusal: SessionError) -> Self {
        Wrong::Packet
    }
}

/// A session after its login.
fn session(alloc: Global) -> Result<Session, SessionError> {
    let mut session = Session::new(alloc, 16);
    session.next(Side::Server, GREETING)?;
    session.next(Side::Client, LOGIN)?;
    session.next(Side::Server, OK)?;
    Ok(session)
}

/// An observer after a login.
fn observer(alloc: Global) -> Result<Observer, SessionError> {
    let mut observer = Observer::new(alloc, LIMITS);
    observer.next(Side::Server, GREETING)?;
    observer.next(Side::Client, LOGIN)?;
    observer.next(Side::Server, OK)?;
    Ok(observer)
}

/// What a packet of the server adds to the sum: the values of a row, or how many rows are affected.
#[inline(always)]
fn sum_of_packet(packet: ServerPacket<'_, '_, RowColumn>) -> Result<u64, Wrong> {
    match packet {
        ServerPacket::TextRow(row) => Ok(sum_of_text(row)?),
        ServerPacket::Ok(ok) => Ok(ok.affected_rows()),
        _other => Err(Wrong::Packet),
    }
}

fn rows_in_session(alloc: Global, batch: &[u8]) -> Result<u64, Wrong> {
    let mut session = session(alloc)?;
    session.next(Side::Client, b"\x03SELECT a FROM t")?;
    session.next(Side::Server, &[COLUMNS])?;
    for _ in 0..COLUMNS {
        session.next(Side::Server, COLUMN)?;
    }
    session.next(Side::Server, b"\xfe\x00\x00\x02\x00")?;
    let context: ReadContext<'_, RowColumn> = ReadContext {
        agreed: session.agreed(),
        column_count: usize::from(COLUMNS),
        columns: None,
        semi_sync: false,
    };
    let mut frames = FrameReader::new(alloc, LIMIT);
    let mut input = batch;
    let mut left = batch.len();
    let mut sum = 0u64;
    'payloads: while left > 0 {
        left -= 1;
        match frames.read(&mut input)? {
            Some(payload) => {
                let payload = payload.as_slice();
                let (kind, _exchange) = session.next(Side::Server, payload)?;
                let packet = server_packet(alloc, &context, kind, payload)?;
                sum = sum.wrapping_add(sum_of_packet(packet)?);
            }
            None => return Ok(sum),
        }
    }
    Ok(sum)
}

/// Reads a stream of text rows of ten columns down to their values, by a session and a reader by kind, and answers a sum over these.
#[unsafe(no_mangle)]
pub extern "C" fn bench_text_rows_in_session(alloc: Global, batch: &[u8]) -> u64 {
    rows_in_session(alloc, batch).unwrap_or(0)
}

/// What the next packet of the server adds to the sum.
#[inline(always)]
fn served(observer: &mut Observer, payload: &[u8]) -> Result<u64, Wrong> {
    let kind = observer.next(Side::Server, payload)?.kind;
    sum_of_packet(observer.server_packet(kind, payload)?)
}

fn rows_observed(alloc: Global, batch: &[u8]) -> Result<u64, Wrong> {
    let mut observer = observer(alloc)?;
    observer.next(Side::Client, b"\x03SELECT a FROM t")?;
    observer.next(Side::Server, &[COLUMNS])?;
    for _ in 0..COLUMNS {
        observer.next(Side::Server, COLUMN)?;
    }
    observer.next(Side::Server, b"\xfe\x00\x00\x02\x00")?;
    let mut frames = FrameReader::new(alloc, LIMIT);
    let mut input = batch;
    let mut left = batch.len();
    let mut sum = 0u64;
    'payloads: while left > 0 {
        left -= 1;
        match frames.read(&mut input)? {
            Some(payload) => sum = sum.wrapping_add(served(&mut observer, payload.as_slice())?),
            None => return Ok(sum),
        }
    }
    Ok(sum)
}

/// Reads a stream of text rows of ten columns down to their values, by an observer, and answers a sum over these.
#[unsafe(no_mangle)]
pub extern "C" fn bench_text_rows_observed(alloc: Global, batch: &[u8]) -> u64 {
    rows_observed(alloc, batch).unwrap_or(0)
}

/// The length of a query.
#[inline(always)]
fn length_of_query(packet: ClientPacket<'_>) -> Result<u64, Wrong> {
    match packet {
        ClientPacket::Command(command) => match command {
            Command::Query(query) => Ok(query.text().len() as u64),
            _other => Err(Wrong::Packet),
        },
        _other => Err(Wrong::Packet),
    }
}

/// What the next query adds to the sum.
fn asked(observer: &mut Observer, payload: &[u8]) -> Result<u64, Wrong> {
    let kind = observer.next(Side::Client, payload)?.kind;
    match observer.client_packet(kind, payload)? {
        ClientRecord::Packet(packet) => length_of_query(packet),
        ClientRecord::Execution(_head, _params) => Err(Wrong::Packet),
    }
}

fn exchanges_observed(alloc: Global, batch: &[u8]) -> Result<u64, Wrong> {
    let mut observer = observer(alloc)?;
    let mut is_query = true;
    let mut sum = 0u64;
    for packet in Packets::new(batch) {
        let one = if is_query {
            asked(&mut observer, packet)
        } else {
            served(&mut observer, packet)
        }?;
        sum = sum.wrapping_add(one);
        is_query = !is_query;
    }
    Ok(sum)
}

/// Reads queries and their OK packets, by an observer, and answers a sum over them.
#[unsafe(no_mangle)]
pub extern "C" fn bench_exchanges_observed(alloc: Global, batch: &[u8]) -> u64 {
    exchanges_observed(alloc, batch).unwrap_or(0)
}
