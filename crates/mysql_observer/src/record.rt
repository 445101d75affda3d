//! The record of a packet of the client, with the parameters of executions.

use crate::client::ClientPacket;
use mysql_stmt::{ComStmtExecuteHead, ExecuteParamsView};

/// A packet of the client, with the parameters of executions.
#[derive(Drop)]
pub enum ClientRecord<'a, 'o> {
    /// The record of the packet's kind.
    Packet(ClientPacket<'a>),
    /// An execution of a known statement: its head, and its parameters, which are read one by one.
    Execution(ComStmtExecuteHead, ExecuteParamsView<'a, 'o>),
}
