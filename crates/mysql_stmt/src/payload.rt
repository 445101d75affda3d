//! The maximum length of a payload in one frame.

/// The maximum length of a payload in one frame, in bytes.
pub(crate) const MAX_PAYLOAD_LEN: usize = 0xff_ffff;
