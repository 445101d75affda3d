//! The sides of a connection, and the two protocols of rows.

/// The side of a connection that writes a NULL bitmap.
pub trait SerializationSide {
    ghost use Rattle.std.specs.Prelude.{ℕ};

    ghost BIT_OFFSET: { ℕ };

    /// The position of the first value's bit.
    const BIT_OFFSET: usize;
}

/// The client, as in `COM_STMT_EXECUTE`: the bitmap begins with the bit of the first value.
#[derive(Clone, Copy, Debug)]
pub struct ClientSide;

impl SerializationSide for ClientSide {
    ghost BIT_OFFSET = { 0 };

    const BIT_OFFSET: usize = 0;
}

/// The server, as in `ProtocolBinary::ResultsetRow`: the bitmap has two bits before that of the first value.
#[derive(Clone, Copy, Debug)]
pub struct ServerSide;

impl SerializationSide for ServerSide {
    ghost BIT_OFFSET = { 2 };

    const BIT_OFFSET: usize = 2;
}

/// The text protocol (`ProtocolText::ResultsetRow`): each value is text.
#[derive(Clone, Copy, Debug)]
pub struct Text;

/// The binary protocol (`ProtocolBinary::ResultsetRow`): each value is in the binary form of its column's type.
#[derive(Clone, Copy, Debug)]
pub struct Binary;
