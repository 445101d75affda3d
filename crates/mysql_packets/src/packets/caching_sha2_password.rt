//! Requests of a client with the plugin `caching_sha2_password`.

pub use mysql_auth::{InvalidPublicKeyRequest, PublicKeyRequest, PublicKeyRequestHeader};
