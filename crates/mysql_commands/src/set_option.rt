//! The command that sets an option of the session.
#![tactic(auto, using(mysql_wire::proofs::Packets::packets), unfolding(crate::specs::SetOption::set_option))]

ghost use Rattle.std.specs.Prelude.{◌≡◌};
ghost use Rattle.mysql_wire.specs.Form.{size-block};
ghost use Rattle.mysql_commands.specs.SetOption as spec;

use mysql_wire::command_code::COM_SET_OPTION;
use mysql_wire::{
    ConstFault, ConstU8, FaultOf, Fixed, LeU16, MyDeserialize, ParseBuf, Parts, RawInt, Sink, parts,
};
use thiserror::Error;

/// The first byte of the command that sets an option is not `1b`.
#[derive(Clone, Copy, Debug, Default, PartialEq, Eq, Hash, Error)]
#[error("Invalid header for COM_SET_OPTION")]
pub struct InvalidComSetOptionHeader;

impl ConstFault for InvalidComSetOptionHeader {
    const MESSAGE: &'static str = "Invalid header for COM_SET_OPTION";
}

/// The first byte of the command that sets an option: `1b`.
pub type ComSetOptionHeader = ConstU8<InvalidComSetOptionHeader, COM_SET_OPTION>;

/// `enum_mysql_set_option`: the options that a client can set for its session.
///
/// ```
/// let option = ServerOption::MultiStatementsOn;
/// Ok(ComSetOption::new(option).serialize(out)?)
/// ```
#[derive(Clone, Copy, Debug, PartialEq, Eq, Hash)]
pub enum ServerOption {
    /// A query may hold several statements.
    MultiStatementsOn = 0,
    /// A query holds only one statement.
    MultiStatementsOff = 1,
}

/// `COM_SET_OPTION`: sets whether a query may hold several statements.
///
/// It takes 3 bytes:
///
/// | Bytes | Field |
/// |---|---|
/// | 1 | the byte `1b` |
/// | 2 | the option's number, little-endian |
///
/// Fewer than 3 bytes are `UnexpectedEof`, another first byte is `InvalidData`. An unknown number is kept.
///
/// ```
/// let option = ServerOption::MultiStatementsOn;
/// Ok(ComSetOption::new(option).serialize(out)?)
/// ```
#[derive(Clone, Copy, Debug, PartialEq, Eq)]
pub struct ComSetOption {
    /// The option's number: that of a [`ServerOption`], or an unknown one.
    pub code: u16,
}

impl ComSetOption {
    /// Creates the command that sets this option.
    pub fn new(option: ServerOption) -> Self
        ensures code { result.code ≡ spec.option_code option }
    {
        ComSetOption {
            code: option as u16,
        }
    }

    /// The option, or `None` if its number is unknown.
    pub fn option(&self) -> Option<ServerOption>
        ensures value { result ≡ spec.option_of self.now.code }
    {
        match self.code {
            0 => Some(ServerOption::MultiStatementsOn),
            1 => Some(ServerOption::MultiStatementsOff),
            _ => None,
        }
    }
}

impl<'de> MyDeserialize<'de> for ComSetOption {
    const SIZE: Option<usize> = Some(3);

    type Size = Fixed<3>;

    type Ctx = ();

    ghost form = { spec.set_option.form };

    #[tactic(auto, using(mysql_wire::proofs::There::blocks_there), unfolding(crate::specs::SetOption::set_option))]
    fn deserialize<'s>(_ctx: (), buf: &mut ParseBuf<'de>) -> Result<Self, FaultOf<'s>> {
        let mut fields = ParseBuf::new(buf.alloc(), buf.eat(3));
        let _header: ComSetOptionHeader = fields.parse_unchecked(())?;
        let code: RawInt<LeU16> = RawInt::take(&mut fields);
        Ok(ComSetOption { code: code.0 })
    }

    ghost size_is = { λ _. unfold spec.set_option in size-block 3 (spec.set_option_fields.form tt) };
}

impl Parts for ComSetOption {
    ghost bytes = { spec.set_option.bytes };

    #[inline(always)]
    fn put<S: Sink>(&self, sink: &mut S) {
        let header: ComSetOptionHeader = ConstU8::new();
        let code: RawInt<LeU16> = RawInt::new(self.code);
        sink.part(&parts!(header, code));
    }
}
