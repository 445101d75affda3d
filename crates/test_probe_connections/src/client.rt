//! What a client says of itself: its answer to a handshake, and the change of a session's user.
//!
//! `response BYTES`, `tls_of BYTES`, and `make_response VERSION CAPABILITIES MARIADB SIZE SCRAMBLE USER DATABASE PLUGIN ATTRIBUTES
//! [ZSTD_LEVEL]`;
//! `change_user CAPABILITIES BYTES`, `more_data CAPABILITIES BYTES`, and
//! `make_change_user CAPABILITIES USER DATA DATABASE CHARACTER_SET PLUGIN ATTRIBUTES`: its capabilities are for its reading.
//! `session_change_user CAPABILITIES BYTES`, `session_more_data CAPABILITIES BYTES`, and `make_session_change` with the words of
//! `make_change_user`: they are written by the capabilities too.

use crate::plugins::show_plugin;
use crate::prelude::*;
use crate::words::Attributes;
use mysql_auth::laws;

fn show_response(it: &HandshakeResponse<'_>, out: &mut Out) {
    fields!(out, it; capabilities, collation, mariadb = mariadb_ext_capabilities, user, scramble_buf, db_name);
    show_plugin(it.auth_plugin(), out);
    show_attributes(it, out);
    if let Some(level) = it.zstd_level() {
        out.show("zstd_level", level);
    }
}

impl Shows<HandshakeResponse<'_>> for Connections {
    fn show(it: &HandshakeResponse<'_>, out: &mut Out) {
        show_response(it, out);
        out.same("made", is_response_made(it, out.alloc()));
        laws::this_handshake_response_round_trips(it)
    }
}

fn is_response_made(it: &HandshakeResponse<'_>, alloc: Global) -> Result<bool> {
    let made = counted!(alloc; made_again(it, alloc))?;
    // (a made one has attributes as texts, a collation by the server's version, and flags by its fields)
    let is_same = made.user() == it.user() && made.db_name() == it.db_name();
    Ok(is_same && is_cloned(alloc, &made, &made)? && is_cloned(alloc, it, it)?)
}

/// It has no getters: what is written of it says what it is.
impl Shows<ComChangeUser<'_>> for Connections {
    fn show(it: &ComChangeUser<'_>, out: &mut Out) {
        anew!(out, it; owned it);
        laws::this_change_user_round_trips(CapabilityFlags::CLIENT_PROTOCOL_41, it)
    }
}

/// They have no getters either.
impl Shows<ComChangeUserMoreData<'_>> for Connections {
    fn show(it: &ComChangeUserMoreData<'_>, out: &mut Out) {
        anew!(out, it; owned it);
        laws::this_more_data_round_trips(CapabilityFlags::CLIENT_PROTOCOL_41, it)
    }
}

fn show_attributes(packet: &HandshakeResponse<'_>, out: &mut Out) {
    let alloc = out.alloc();
    match counted!(alloc; packet.connect_attributes(alloc)) {
        Ok(Some(attributes)) => {
            out.show("attributes", attributes.len());
            for (key, value) in attributes.iter() {
                out.show("key", key.as_str().as_bytes());
                out.show("value", value.as_str().as_bytes());
            }
        }
        Ok(None) => out.field("attributes", "none"),
        Err(AllocError) => out.field("attributes", "Memory"),
    }
}

/// The response of what a response's getters answer.
fn made_again<'b>(
    packet: &'b HandshakeResponse<'_>,
    alloc: Global,
) -> Result<HandshakeResponse<'b>> {
    let attributes = packet.connect_attributes(alloc)?;
    HandshakeResponse::new(
        alloc,
        Some(CowSlice::Borrowed(packet.scramble_buf())),
        (8, 0, 35),
        Some(CowSlice::Borrowed(packet.user())),
        words::lent(packet.db_name()),
        packet.auth_plugin().map(|plugin| plugin.borrow()),
        packet.capabilities(),
        attributes,
        0,
    )
}

/// A response that is made of words, as it is shown, written and read again.
pub fn make_response(out: &mut Out, request: &Request<'_>) -> Result {
    let attributes = words::attributes(out.alloc(), request.word(9))?;
    if let Some(packet) = out.made(response_of(request, attributes)) {
        show_response(&packet, out);
        let (mut before, mut whole) = (Vec::new(request.alloc), Vec::new(request.alloc));
        packet.before_attributes().serialize(&mut before)?;
        packet.serialize(&mut whole)?;
        out.or_other("before", Ok(whole.starts_with(&before)));
        write_and_read(out, &packet, request, ());
    }
    Ok(())
}

/// The response of the words, with MariaDB's flags. The first word is the server's version, or `c` and the collation's number.
fn response_of<'a>(request: &Request<'a>, attributes: Attributes) -> Result<HandshakeResponse<'a>> {
    let part = |place: usize| words::number(request.word(1).split('.').nth(place).unwrap_or(""));
    let version: (u16, u16, u16) = (part(0), part(1), part(2));
    let made = counted!(request.alloc; HandshakeResponse::new(
        request.alloc,
        words::borrowed(request.word(5)),
        version,
        words::borrowed(request.word(6)),
        words::borrowed(request.word(7)),
        words::bytes(request.word(8)).map(|name| AuthPlugin::from_bytes(name)),
        CapabilityFlags::from_bits_retain(request.number(2)),
        attributes,
        request.number(4),
    ))?;
    let flags = MariadbCapabilities::from_bits_retain(request.number(3));
    let level = request.word(10);
    let made = made
        .with_mariadb_ext_capabilities(flags)
        .with_zstd_level(if level.is_empty() {
            None
        } else {
            Some(words::number(level))
        });
    Ok(match request.word(1).strip_prefix('c') {
        Some(collation) => made.with_collation(words::number(collation)),
        None => made,
    })
}

/// The request for TLS that goes before a response, as it is shown, written and read again.
pub fn tls_of(out: &mut Out, request: &Request<'_>) {
    if let Some(response) = record::<HandshakeResponse<'_>>(out, request, ()) {
        let packet = response.ssl_request();
        out.word("made");
        Connections::show(&packet, out);
        write_and_read(out, &packet, request, ())
    }
}

/// What may stand at the end of a change of user.
type More<'a> = Option<ComChangeUserMoreData<'a>>;

/// More data with the attributes, and with the plugin of a word; or none, where there is no character set.
fn more_of<'a>(alloc: Global, request: &Request<'a>, attributes: Attributes) -> Result<More<'a>> {
    if request.word(5) == "none" {
        return Ok(None);
    }
    let plugin = words::bytes(request.word(6)).map(|name| AuthPlugin::from_bytes(name));
    let more = ComChangeUserMoreData::new(words::number(request.word(5))).with_auth_plugin(plugin);
    Ok(Some(more.with_connect_attributes(alloc, attributes)?))
}

/// A change of user that is made of words, as it is written and read again.
pub fn make_change_user(out: &mut Out, request: &Request<'_>) -> Result {
    let alloc = out.alloc();
    let attributes = words::attributes(alloc, request.word(7))?;
    let more = counted!(alloc; more_of(alloc, request, attributes));
    if let Some(more) = out.made(more) {
        let change = change_of(request, more);
        write_and_read(out, &change, request, request.capabilities());
    }
    Ok(())
}

/// Writes a record as its session does, and reads that again.
fn write_in_session<'a, T, S>(out: &mut Out, record: &T, session: &S, request: &'a Request<'_>)
where
    T: MyDeserialize<'a, Ctx = CapabilityFlags> + PartialEq + Drop,
    S: MySerialize,
{
    if let Some(written) = write(out, session, request.bytes.as_slice()) {
        again(out, record, request.keep(written), request.capabilities());
    }
}

/// A change of user that is read and written by the same flags.
pub fn session_change_user(out: &mut Out, request: &Request<'_>) {
    let capabilities = request.capabilities();
    if let Some(change) = record::<ComChangeUser<'_>>(out, request, capabilities) {
        out.word("read");
        write_in_session(out, &change, &change.for_session(capabilities), request);
    }
}

/// What a change of user tells besides, read and written by the same flags.
pub fn session_more_data(out: &mut Out, request: &Request<'_>) {
    let capabilities = request.capabilities();
    if let Some(more) = record::<ComChangeUserMoreData<'_>>(out, request, capabilities) {
        out.word("read");
        write_in_session(out, &more, &more.for_session(capabilities), request);
    }
}

/// A change of user that is made of words, written by the flags and read again.
pub fn make_session_change(out: &mut Out, request: &Request<'_>) -> Result {
    let alloc = out.alloc();
    let attributes = words::attributes(alloc, request.word(7))?;
    let more = counted!(alloc; more_of(alloc, request, attributes));
    if let Some(more) = out.made(more) {
        let change = change_of(request, more);
        let session = change.for_session(request.capabilities());
        if let Some(written) = write(out, &session, b"") {
            again(out, &change, request.keep(written), request.capabilities());
        }
    }
    Ok(())
}

fn change_of<'a>(request: &Request<'a>, more: More<'a>) -> ComChangeUser<'a> {
    ComChangeUser::new()
        .with_user(words::borrowed(request.word(2)))
        .with_auth_plugin_data(words::borrowed(request.word(3)))
        .with_database(words::borrowed(request.word(4)))
        .with_more_data(more)
}
