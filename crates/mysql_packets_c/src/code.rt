//! The codes of calls.

ghost use Rattle.std.specs.Prelude.{◌≡◌, ◌≤◌, option_map};
ghost use Rattle.mysql_packets_c.specs.Code.{TextInto, code_text, fault_code};

pub(crate) use crate::call_codes::{
    BUFFER_TOO_SMALL, COMPRESSED, END, INVALID_DATA, INVALID_INPUT, OK, OUT_OF_RANGE,
    ROW_TOO_LARGE, TOO_LARGE, TOO_MANY_COMMANDS, UNEXPECTED_EOF,
};
use crate::text::CBytes;
use mysql_wire::FaultOf;

/// Returns the code of a fault.
#[inline]
pub(crate) fn code_of(fault: &FaultOf<'_>) -> u32
    ensures code { result ≡ fault_code fault.now }
    ensures some { 1 ≤ result }
    ensures below { result ≤ 4 }
{
    match fault {
        FaultOf::UnexpectedEof => UNEXPECTED_EOF,
        FaultOf::InvalidData(_) => INVALID_DATA,
        FaultOf::InvalidInput(_) => INVALID_INPUT,
        FaultOf::Memory => TOO_LARGE,
    }
}

/// The version of this library, in the form of the header's `MYP_VERSION`: major, minor and patch, a byte each.
#[unsafe(no_mangle)]
pub extern "C" fn myp_version() -> u32
    ensures value { result ≡ 0x000100 }
{
    0x000100
}

/// The text of a code.
fn code_text(code: u32) -> Option<&'static [u8]>
    ensures value { option_map (λ t. t.now) result ≡ code_text code }
{
    match code {
        OK => Some(b"success"),
        UNEXPECTED_EOF => Some(b"the packet is truncated"),
        INVALID_DATA => Some(b"the bytes are not a valid packet of this type"),
        INVALID_INPUT => Some(b"an argument fits no packet"),
        TOO_LARGE => Some(b"the total length overflows size_t"),
        BUFFER_TOO_SMALL => Some(b"the buffer is too small"),
        ROW_TOO_LARGE => Some(b"a row is too large for a request"),
        END => Some(b"end of the list"),
        OUT_OF_RANGE => Some(b"the number is out of range"),
        COMPRESSED => Some(b"both sides agreed on compression"),
        TOO_MANY_COMMANDS => Some(b"too many pipelined commands"),
        _ => None,
    }
}

/// Returns the text of a code. For an unknown code (3) the output is unchanged.
#[unsafe(no_mangle)]
pub extern "C" fn myp_code_text(code: u32, text: &mut CBytes<'_>) -> u32
    ensures value { TextInto (code_text code) result text.old text.new }
{
    match code_text(code) {
        Some(found) => {
            text.bytes = found;
            OK
        }
        None => INVALID_INPUT,
    }
}
