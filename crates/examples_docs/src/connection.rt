//! The handshake, the login and the change of user.

use mysql_packets::constants::{CapabilityFlags, supported_capabilities};
use mysql_packets::error::Error;
use mysql_packets::io::ParseBuf;
use mysql_packets::packets::{
    AuthPlugin, AuthReply, ComChangeUser, ComChangeUserMoreData, ComChangeUserRef,
    HandshakePacketRef, HandshakeResponseRef, OldAuthSwitchRequest, SslRequest,
};
use mysql_packets::proto::MySerialize;
use std::alloc::Global;
use std::borrow::CowSlice;

/// The scramble's first half, and the flags of the server that the library knows.
pub fn greeting<'a>(
    alloc: Global,
    payload: &'a [u8],
) -> Result<(&'a [u8], CapabilityFlags), Error> {
    let greeting: HandshakePacketRef<'_> = ParseBuf::new(alloc, payload).parse(())?;
    let capabilities = greeting.capabilities() & supported_capabilities();
    Ok((greeting.scramble_1(), capabilities))
}

/// The user and the database of a login.
pub fn login<'a>(alloc: Global, payload: &'a [u8]) -> Result<(&'a [u8], Option<&'a [u8]>), Error> {
    let login: HandshakeResponseRef<'_> = ParseBuf::new(alloc, payload).parse(())?;
    Ok((login.user(), login.db_name()))
}

/// The first attribute of a login with this key.
pub fn attribute<'a>(
    alloc: Global,
    payload: &'a [u8],
    key: &[u8],
) -> Result<Option<&'a [u8]>, Error> {
    let login: HandshakeResponseRef<'_> = ParseBuf::new(alloc, payload).parse(())?;
    let Some(mut attributes) = login.connect_attributes() else {
        return Ok(None);
    };
    Ok(
        attributes
            .find(|attribute| attribute.key() == key)
            .map(|attribute| attribute.value()),
    )
}

/// The bytes of a request for TLS.
pub fn tls(out: &mut Vec<u8>) -> Result<(), Error> {
    let request = SslRequest::new(
        CapabilityFlags::CLIENT_SSL | CapabilityFlags::CLIENT_PROTOCOL_41,
        1 << 24, // the longest packet that the client takes
        45, // utf8mb4_general_ci
    );
    Ok(request.serialize(out)?)
}

/// Whether the server asks for another plugin.
pub fn is_switch(alloc: Global, payload: &[u8], agreed: CapabilityFlags) -> Result<bool, Error> {
    let reply: AuthReply<'_> = ParseBuf::new(alloc, payload).parse(agreed)?;
    Ok(matches!(&reply, AuthReply::Switch(_)))
}

/// The bytes of a request for the old plugin.
pub fn old_switch(out: &mut Vec<u8>) -> Result<(), Error> {
    Ok(OldAuthSwitchRequest::new().serialize(out)?)
}

/// The bytes of a change of user, with the fields that the agreed flags ask for.
pub fn change_user(agreed: CapabilityFlags, user: &[u8], out: &mut Vec<u8>) -> Result<(), Error> {
    let more = ComChangeUserMoreData::new(45).with_auth_plugin(Some(
        AuthPlugin::CachingSha2Password,
    ));
    let change = ComChangeUser::new()
        .with_user(Some(CowSlice::Borrowed(user)))
        .with_more_data(Some(more));
    Ok(change.for_session(agreed).serialize(out)?)
}

/// The user and the database that a change of user asks for.
pub fn changed_user<'a>(
    alloc: Global,
    payload: &'a [u8],
    agreed: CapabilityFlags,
) -> Result<(&'a [u8], &'a [u8]), Error> {
    let change: ComChangeUserRef<'_> = ParseBuf::new(alloc, payload).parse(agreed)?;
    Ok((change.user(), change.database()))
}
