//! Errors for packets whose first byte is that of another packet.
#![tactic(auto)]

use mysql_wire::ConstFault;
use thiserror::Error;

/// The first byte of further data is not `01`.
#[derive(Clone, Copy, Debug, Default, PartialEq, Eq, Hash, Error)]
#[error("Invalid AuthMoreData header")]
pub struct InvalidAuthMoreDataHeader;

impl ConstFault for InvalidAuthMoreDataHeader {
    const MESSAGE: &'static str = "Invalid AuthMoreData header";
}

/// The first byte of a request for the next factor is not `02`.
#[derive(Clone, Copy, Debug, Default, PartialEq, Eq, Hash, Error)]
#[error("Invalid AuthNextFactor header")]
pub struct InvalidAuthNextFactorHeader;

impl ConstFault for InvalidAuthNextFactorHeader {
    const MESSAGE: &'static str = "Invalid AuthNextFactor header";
}

/// The first byte of a switch is not `fe`.
#[derive(Clone, Copy, Debug, Default, PartialEq, Eq, Hash, Error)]
#[error("Invalid auth switch request header")]
pub struct InvalidAuthSwitchRequestHeader;

impl ConstFault for InvalidAuthSwitchRequestHeader {
    const MESSAGE: &'static str = "Invalid auth switch request header";
}

/// The first byte of a change of user is not `11`.
#[derive(Clone, Copy, Debug, Default, PartialEq, Eq, Hash, Error)]
#[error("Invalid COM_CHANGE_USER header")]
pub struct InvalidComChangeUserHeader;

impl ConstFault for InvalidComChangeUserHeader {
    const MESSAGE: &'static str = "Invalid COM_CHANGE_USER header";
}

/// The first byte of a request for a public key is not `02`.
#[derive(Clone, Copy, Debug, Default, PartialEq, Eq, Hash, Error)]
#[error("Invalid PublicKeyRequest header")]
pub struct InvalidPublicKeyRequest;

impl ConstFault for InvalidPublicKeyRequest {
    const MESSAGE: &'static str = "Invalid PublicKeyRequest header";
}

/// The first byte of a public key response is not `01`.
#[derive(Clone, Copy, Debug, Default, PartialEq, Eq, Hash, Error)]
#[error("Invalid PublicKeyResponse header")]
pub struct InvalidPublicKeyResponse;

impl ConstFault for InvalidPublicKeyResponse {
    const MESSAGE: &'static str = "Invalid PublicKeyResponse header";
}
