//! The packets of a recording, and the notices between them, as they are written.

ghost use Rattle.std.specs.Prelude.{◌≡◌, ◌++◌, OnOk, OnErr, string_bytes, false};
ghost use Rattle.mysql_show.specs.Appended.{Stays};
ghost use Rattle.mysql_show.specs.Fields.{have_float};
ghost use Rattle.mysql_recorder.specs.Entries as spec;

use mysql_conversation::Side;
use mysql_show::{Field, append_lines, append_object};
use std::alloc::{AllocError, Global};

/// How packets are written.
#[derive(Clone, Copy, Debug, PartialEq, Eq)]
pub enum Layout {
    /// Each packet as a line `SIDE SEQUENCE KIND` and a line `name: value` for each field.
    Lines,
    /// Each packet as a JSON object on one line.
    Json,
}

/// A packet: its sender, its sequence number, the number of its exchange, the name of its kind, and the payload.
#[derive(Clone, Copy)]
pub(crate) struct Packet<'a> {
    /// The sender.
    pub(crate) side: Side,
    /// The sequence number of its first frame.
    pub(crate) sequence: u8,
    /// The number of the command whose exchange it belongs to.
    pub(crate) exchange: u64,
    /// The name of its kind.
    pub(crate) kind: &'static str,
    /// Its payload.
    pub(crate) payload: &'a [u8],
}

/// A notice about a side's stream, between its packets: the side, the number of the exchange, and its kind.
#[derive(Clone, Copy)]
pub(crate) struct Notice {
    /// Whose stream it is.
    pub(crate) side: Side,
    /// The number of the exchange there.
    pub(crate) exchange: u64,
    /// The kind of the notice.
    pub(crate) kind: &'static str,
}

/// The character of a side: `>` for the client, `<` for the server.
pub(crate) fn sign_of(side: Side) -> &'static str
    ensures { result.now ≡ spec.sign_of side }
{
    match side {
        Side::Client => ">",
        Side::Server => "<",
    }
}

/// The name of a side.
pub(crate) fn name_of_side(side: Side) -> &'static str
    ensures { result.now ≡ spec.name_of_side side }
{
    match side {
        Side::Client => "client",
        Side::Server => "server",
    }
}

impl<'a> Packet<'a> {
    /// Appends the packet with its fields.
    ///
    /// If the allocation fails, earlier text is unchanged, and a part of the packet may follow it.
    pub(crate) fn append(
        &self,
        alloc: Global,
        layout: Layout,
        fields: &[Field<'_>],
        out: &mut String,
    ) -> Result<(), AllocError>
        ensures ok { OnOk result (have_float fields.now ≡ false → string_bytes out.new ≡ string_bytes out.old ++ spec.entry_text layout (spec.entry_as self.now) fields.now) }
        // Also where one of the fields is a float:
        ensures begins { OnOk result (spec.Begins (spec.entry_front layout (spec.entry_as self.now)) (string_bytes out.old) (string_bytes out.new)) }
        ensures shown { OnOk result (spec.AppendsEntry layout (spec.entry_as self.now) fields.now (string_bytes out.old) (string_bytes out.new)) }
        // What stands before is left.
        ensures err { OnErr result (Stays (string_bytes out.old) (string_bytes out.new)) }
    {
        match layout {
            Layout::Lines => {
                let (sign, sequence, kind) = (sign_of(self.side), self.sequence, self.kind);
                let line = format!(in alloc; "{sign} {sequence} {kind}\n")?;
                out.push_str(line.as_str())?;
                append_lines(alloc, out, fields)
            }
            Layout::Json => {
                let head = [
                    Field::word("side", name_of_side(self.side)),
                    Field::number("sequence", u64::from(self.sequence)),
                    Field::number("exchange", self.exchange),
                    Field::word("kind", self.kind),
                    Field::number("size", self.payload.len() as u64),
                    Field::digits("payload", self.payload),
                ];
                append_object(alloc, out, &head, fields)
            }
        }
    }
}

impl Notice {
    /// Appends the notice with its fields.
    ///
    /// If the allocation fails, earlier text is unchanged, and a part of the notice may follow it.
    pub(crate) fn append(
        &self,
        alloc: Global,
        layout: Layout,
        fields: &[Field<'_>],
        out: &mut String,
    ) -> Result<(), AllocError>
        ensures ok { OnOk result (have_float fields.now ≡ false → string_bytes out.new ≡ string_bytes out.old ++ spec.notice_text layout self.now.side self.now.exchange self.now.kind.now fields.now) }
        // Also where one of the fields is a float:
        ensures begins { OnOk result (spec.Begins (spec.notice_front layout self.now) (string_bytes out.old) (string_bytes out.new)) }
        // What stands before is left.
        ensures err { OnErr result (Stays (string_bytes out.old) (string_bytes out.new)) }
    {
        match layout {
            Layout::Lines => {
                let (sign, kind) = (sign_of(self.side), self.kind);
                let line = format!(in alloc; "{sign} {kind}\n")?;
                out.push_str(line.as_str())?;
                append_lines(alloc, out, fields)
            }
            Layout::Json => {
                let head = [
                    Field::word("side", name_of_side(self.side)),
                    Field::number("exchange", self.exchange),
                    Field::word("kind", self.kind),
                ];
                append_object(alloc, out, &head, fields)
            }
        }
    }
}
