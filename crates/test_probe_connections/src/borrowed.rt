//! Records that stay in their packet, beside those that are read of the same bytes.
//!
//! `debug_response BYTES`, `debug_gtid BYTES`.

use crate::prelude::*;
use crate::words::Attributes;

/// Whether both are the same. Where memory ran out the answer is lost.
fn or_lost(is_same: Result<bool>, out: &mut Out) -> bool {
    match is_same {
        Ok(is_same) => is_same,
        Err(AllocError) => {
            out.lose();
            true
        }
    }
}

/// Whether a copy of what stays in its packet is the same.
pub fn is_copied<R: Clone + PartialEq + Drop>(place: &R, out: &mut Out) -> bool {
    or_lost(is_cloned(out.alloc(), place, place), out)
}

/// The text of some bytes, with U+FFFD for what is not UTF-8.
fn text(alloc: Global, bytes: &[u8]) -> Result<String> {
    let bytes: RawBytes<'_, LenEnc> = RawBytes::new(CowSlice::Borrowed(bytes));
    bytes.as_str(alloc)?.into_owned(alloc)
}

/// The attributes as texts, where they were sent: of two with one key the later one counts, at the place of the first.
fn texts(alloc: Global, attributes: Option<ConnectAttributesRef<'_>>) -> Result<Attributes> {
    let Some(attributes) = attributes else {
        return Ok(None);
    };
    let mut texts = IndexMap::new(alloc);
    for attribute in attributes {
        texts.insert(
            text(alloc, attribute.key())?,
            text(alloc, attribute.value())?,
        )?;
    }
    Ok(Some(texts))
}

/// Whether the first of the attributes is the one that the bytes of all begin with, and its copy is the same.
fn is_first(first: &ConnectAttributeRef<'_>, bytes: &mut ParseBuf<'_>, out: &mut Out) -> bool {
    let read: Result<ConnectAttributeRef<'_>, Fault> = bytes.parse(());
    read.is_ok_and(|read| read.key() == first.key()
        && read.value() == first.value()
        && read == *first)
        && is_copied(first, out)
}

/// Whether the bytes of the attributes begin with the first of them, whose others are other attributes, and their copy is the same.
fn first_is_in_front(out: &mut Out, attributes: Option<ConnectAttributesRef<'_>>) -> bool {
    let Some(attributes) = attributes else {
        return true;
    };
    let mut bytes = ParseBuf::new(out.alloc(), attributes.as_bytes());
    let mut others = attributes.iter();
    let is_in_front = match others.next() {
        Some(first) => is_first(&first, &mut bytes, out) && others != attributes,
        None => bytes.is_empty() && others == attributes,
    };
    is_in_front && is_copied(&attributes, out)
}

/// Whether both name the same plugin.
fn is_plugin(
    plugin: Option<&AuthPlugin<'_>>,
    of_name: Option<&[u8]>,
    owned: Option<&AuthPlugin<'_>>,
) -> bool {
    let of_name = of_name.map(|name| AuthPlugin::from_bytes(name));
    plugin == owned && of_name.as_ref() == owned
}

fn is_response(
    place: &HandshakeResponseRef<'_>,
    owned: &HandshakeResponse<'_>,
    alloc: Global,
) -> Result<bool> {
    let has_attributes = texts(alloc, place.connect_attributes())?
        == owned.connect_attributes(alloc)?;
    Ok(has_attributes && place.to_owned(alloc)? == *owned)
}

/// Whether a copy of a response is that response.
fn is_copied_response(
    place: &HandshakeResponseRef<'_>,
    owned: &HandshakeResponse<'_>,
    alloc: Global,
) -> Result<bool> {
    let copy = counted!(alloc; place.clone())?;
    Ok(copy.to_owned(alloc)? == *owned)
}

impl<'a> InPlace<HandshakeResponse<'a>, HandshakeResponseRef<'a>> for Connections {
    fn is(place: &HandshakeResponseRef<'a>, owned: &HandshakeResponse<'a>, out: &mut Out) -> bool {
        let plugin = place.auth_plugin();
        fields!(place, owned; alike capabilities, mariadb_ext_capabilities, collation, user, scramble_buf, db_name, zstd_level)
            && place.max_packet_size() == owned.ssl_request().max_packet_size()
            && place.mariadb_ext_capabilities() == owned.ssl_request().mariadb_capabilities()
            && is_plugin(
                plugin.as_ref(),
                place.auth_plugin_name(),
                owned.auth_plugin(),
            )
            && first_is_in_front(out, place.connect_attributes())
            && or_lost(is_response(place, owned, out.alloc()), out)
            && or_lost(is_copied_response(place, owned, out.alloc()), out)
    }
}

/// The data of what its getters answer.
fn more_again<'b>(
    place: &ComChangeUserMoreDataRef<'b>,
    alloc: Global,
) -> Result<ComChangeUserMoreData<'b>> {
    let of_name = place
        .auth_plugin_name()
        .map(|name| AuthPlugin::from_bytes(name));
    ComChangeUserMoreData::new(place.character_set())
        .with_auth_plugin(of_name)
        .with_connect_attributes(alloc, texts(alloc, place.connect_attributes())?)
}

/// The owned form has no getters. One that is made again has attributes as texts, so it is the same where all are UTF-8.
fn is_more_data(
    place: &ComChangeUserMoreDataRef<'_>,
    owned: &ComChangeUserMoreData<'_>,
    alloc: Global,
) -> Result<bool> {
    let of_name = place
        .auth_plugin_name()
        .map(|name| AuthPlugin::from_bytes(name));
    let are_texts = match place.connect_attributes() {
        Some(mut all) => all.all(|it| str::from_utf8(it.key()).is_ok()
            && str::from_utf8(it.value()).is_ok()),
        None => true,
    };
    let copy = counted!(alloc; place.clone())?;
    Ok(
        place.to_owned(alloc)? == *owned
            && copy.to_owned(alloc)? == *owned
            && place.auth_plugin() == of_name
            && (!are_texts || more_again(place, alloc)? == *owned),
    )
}

impl<'a> InPlace<ComChangeUserMoreData<'a>, ComChangeUserMoreDataRef<'a>> for Connections {
    fn is(
        place: &ComChangeUserMoreDataRef<'a>,
        owned: &ComChangeUserMoreData<'a>,
        out: &mut Out,
    ) -> bool {
        or_lost(is_more_data(place, owned, out.alloc()), out)
    }
}

/// The owned form has no getters.
fn is_change(
    place: &ComChangeUserRef<'_>,
    owned: &ComChangeUser<'_>,
    alloc: Global,
) -> Result<bool> {
    let more = match place.more_data() {
        Some(more) => Some(more.to_owned(alloc)?),
        None => None,
    };
    let again = ComChangeUser::new()
        .with_user(Some(CowSlice::Borrowed(place.user())))
        .with_auth_plugin_data(Some(CowSlice::Borrowed(place.auth_plugin_data())))
        .with_database(Some(CowSlice::Borrowed(place.database())))
        .with_more_data(more);
    let copy = counted!(alloc; place.clone())?;
    Ok(again == *owned && place.to_owned(alloc)? == *owned && copy.to_owned(alloc)? == *owned)
}

impl<'a> InPlace<ComChangeUser<'a>, ComChangeUserRef<'a>> for Connections {
    fn is(place: &ComChangeUserRef<'a>, owned: &ComChangeUser<'a>, out: &mut Out) -> bool {
        or_lost(is_change(place, owned, out.alloc()), out)
    }
}

impl<'a> InPlace<AuthSwitchRequest<'a>, AuthSwitchRequestRef<'a>> for Connections {
    fn is(place: &AuthSwitchRequestRef<'a>, owned: &AuthSwitchRequest<'a>, out: &mut Out) -> bool {
        fields!(place, owned; alike auth_plugin, plugin_data, plugin_data_raw)
            && AuthPlugin::from_bytes(place.auth_plugin_name()) == owned.auth_plugin()
            && place.to_owned() == *owned
            && is_copied(place, out)
    }
}

impl<'a> InPlace<AuthMoreData<'a>, AuthMoreDataRef<'a>> for Connections {
    fn is(place: &AuthMoreDataRef<'a>, owned: &AuthMoreData<'a>, _out: &mut Out) -> bool {
        fields!(place, owned; alike data) && place.to_owned() == *owned
    }
}

/// The owned form has its key as text alone.
impl<'a> InPlace<PublicKeyResponse<'a>, PublicKeyResponseRef<'a>> for Connections {
    fn is(place: &PublicKeyResponseRef<'a>, owned: &PublicKeyResponse<'a>, _out: &mut Out) -> bool {
        PublicKeyResponse::new(CowSlice::Borrowed(place.rsa_key_raw())) == *owned
            && place.to_owned() == *owned
    }
}

/// A response that stays in its packet, as a person looks at it.
pub fn debug_response(out: &mut Out, request: &Request<'_>) {
    if let Some(place) = record::<HandshakeResponseRef<'_>>(out, request, ()) {
        out.text("debug", &format_args!("{place:?}"))
    }
}

/// A dump by GTID set that stays in its packet, as a person looks at it.
pub fn debug_dump(out: &mut Out, request: &Request<'_>) {
    if let Some(place) = record::<ComBinlogDumpGtidRef<'_>>(out, request, ()) {
        out.text("debug", &format_args!("{place:?}"))
    }
}
