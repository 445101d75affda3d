//! The fields of the packets of the connection phase, and of a change of user. Authentication data is not among them.

ghost use Rattle.std.specs.Prelude.{◌≡◌, ◌++◌, IfOk};
ghost use Rattle.mysql_show.specs.Logins as spec;

use crate::field::Field;
use mysql_auth::{
    ComChangeUserRef, HandshakePacketRef, HandshakeResponseRef, PluginRequestRef, SslRequest,
};
use mysql_wire::Flags;
use std::alloc::{AllocError, Global};

/// The versions in a greeting, as fields: that of the protocol, and the server's as text.
pub fn version_fields<'p>(greeting: &HandshakePacketRef<'p>) -> [Field<'p>; 2]
    ensures value { result ≡ spec.version_fields greeting.now }
{
    [
        Field::number("protocol_version", u64::from(greeting.protocol_version())),
        Field::bytes("server_version", greeting.server_version()),
    ]
}

/// The fields of a greeting after its versions.
pub fn greeting_fields<'p>(greeting: &HandshakePacketRef<'p>) -> [Field<'p>; 8]
    ensures value { result ≡ spec.greeting_fields greeting.now }
{
    [
        Field::number("connection_id", u64::from(greeting.connection_id())),
        Field::bytes("scramble_1", greeting.scramble_1()),
        Field::optional_bytes("scramble_2", greeting.scramble_2()),
        Field::number("capabilities", u64::from(greeting.capabilities().bits())),
        Field::number("default_collation", u64::from(greeting.default_collation())),
        Field::number("status_flags", u64::from(greeting.status_flags().bits())),
        Field::number(
            "mariadb_ext_capabilities",
            u64::from(greeting.mariadb_ext_capabilities().bits()),
        ),
        Field::optional_bytes("auth_plugin_name", greeting.auth_plugin_name()),
    ]
}

/// The fields of a request for TLS.
pub fn ssl_request_fields<'p>(request: &SslRequest) -> [Field<'p>; 4]
    ensures value { result ≡ spec.ssl_request_fields request.now }
{
    [
        Field::number("capabilities", u64::from(request.capabilities().bits())),
        Field::number("max_packet_size", u64::from(request.max_packet_size())),
        Field::number("collation", u64::from(request.character_set())),
        Field::number(
            "mariadb_ext_capabilities",
            u64::from(request.mariadb_capabilities().bits()),
        ),
    ]
}

/// The fields of a login, without its authentication response.
pub fn login_fields<'p>(
    alloc: Global,
    login: &HandshakeResponseRef<'p>,
) -> Result<Vec<Field<'p>>, AllocError>
    ensures value { IfOk result (λ fields. fields.items ≡ spec.login_fields login.now) }
{
    let mut fields = Vec::from_array(alloc, login_head(login))?;
    if let Some(level) = login.zstd_level() {
        fields.push(Field::number("zstd_level", u64::from(level)))?;
    }
    Ok(fields)
}

/// The fields that each login has.
fn login_head<'p>(login: &HandshakeResponseRef<'p>) -> [Field<'p>; 7]
    ensures value { result ≡ spec.login_head login.now }
{
    [
        Field::number("capabilities", u64::from(login.capabilities().bits())),
        Field::number("max_packet_size", u64::from(login.max_packet_size())),
        Field::number("collation", u64::from(login.collation())),
        Field::number(
            "mariadb_ext_capabilities",
            u64::from(login.mariadb_ext_capabilities().bits()),
        ),
        Field::bytes("user", login.user()),
        Field::optional_bytes("db_name", login.db_name()),
        Field::optional_bytes("auth_plugin_name", login.auth_plugin_name()),
    ]
}

/// The fields of a request for another authentication plugin, or for the next factor.
pub fn plugin_fields<'p, T, const HEADER: u8>(
    request: &PluginRequestRef<'p, T, HEADER>,
) -> [Field<'p>; 2]
    ensures value { result ≡ spec.plugin_fields request.now }
{
    [
        Field::bytes("auth_plugin_name", request.auth_plugin_name()),
        Field::bytes("plugin_data", request.plugin_data()),
    ]
}

/// The fields of a change of user.
pub fn change_user_fields<'p>(change: &ComChangeUserRef<'p>) -> [Field<'p>; 2]
    ensures value { result ≡ spec.change_user_fields change.now }
{
    [
        Field::bytes("user", change.user()),
        Field::bytes("database", change.database()),
    ]
}
