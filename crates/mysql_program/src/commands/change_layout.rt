//! The layouts in which the session's changes are read.

ghost use Rattle.std.specs.Prelude.{◌≡◌, []};
ghost use Rattle.mysql_session.specs.SessionStateChange.{lists_variables};
ghost use Rattle.mysql_replies.specs.SessionStateInfo.{data_bytes, data_type};
ghost use Rattle.mysql_wire.specs.Reading.{Answers};
ghost use Rattle.mysql_program.specs.ChangeLayout as spec;

use mysql_replies::SessionStateInfo;
use mysql_session::SessionStateChange;
use mysql_wire::Fault;
use std::alloc::Global;

/// The layouts in which the session's changes are read.
#[derive(Clone, Copy, PartialEq, Eq)]
pub enum ChangeLayout {
    /// The layouts of the protocol's pages, as [`SessionStateInfo::decode`] reads them.
    Documented,
    /// `as-sent`: the layouts that servers send, as [`SessionStateInfo::decode_wire`] reads them.
    AsSent,
}

impl ChangeLayout {
    /// The layout of this name.
    pub fn of(name: &str) -> Option<ChangeLayout>
        ensures value { result ≡ spec.layout_of name.now }
    {
        match name {
            "as-sent" => Some(ChangeLayout::AsSent),
            _ => None,
        }
    }

    /// Reads the change of an entry in this layout.
    pub fn decode<'a>(
        self,
        alloc: Global,
        info: &'a SessionStateInfo<'_>,
    ) -> Result<SessionStateChange<'a>, Fault>
        ensures value { Answers (lists_variables (data_type info.now) (data_bytes info.now)) result [] (spec.decoded_in self info.now) }
    {
        match self {
            ChangeLayout::Documented => info.decode(alloc),
            ChangeLayout::AsSent => info.decode_wire(alloc),
        }
    }
}
