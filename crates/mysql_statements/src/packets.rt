//! Reads what packets say about statements.

ghost use Rattle.std.specs.Prelude.{◌≡◌};
ghost use Rattle.std.specs.Prelude.{false};
ghost use Rattle.mysql_wire.specs.Reading.{Answers};
ghost use Rattle.mysql_statements.specs.Packets as spec;

use crate::row_column::RowColumn;
use mysql_replies::{ColumnRef, ExtendedColumnRef, SessionCapabilities};
use mysql_stmt::{ComStmtSendLongDataRef, StmtPacket};
use mysql_wire::{ColumnFlags, FaultOf, Flags, LeU32, ParseBuf, RawInt};
use std::alloc::Global;

/// Reads the number of a statement after the first byte.
fn read_number<'s>(buf: &mut ParseBuf<'_>) -> Result<u32, FaultOf<'s>>
    ensures value { Answers false result buf.new (spec.numbered.reads buf.old) }
{
    let _code: RawInt<u8> = buf.parse(())?;
    let id: RawInt<LeU32> = buf.parse(())?;
    Ok(id.0)
}

/// Returns the number of a statement, after the first byte of a command.
#[tactic(auto, using(crate::proofs::Refused::faults), unfolding(crate::specs::Packets::number_at))]
pub(crate) fn number_at(alloc: Global, payload: &[u8]) -> Option<u32>
    ensures { result ≡ spec.number_at payload.now }
{
    let mut buf = ParseBuf::new(alloc, payload);
    let read: Result<u32, FaultOf> = read_number(&mut buf);
    match read {
        Ok(id) => Some(id),
        Err(_) => None,
    }
}

/// Returns the number of a prepared statement, from the answer to its preparation.
#[tactic(auto, using(crate::proofs::Refused::faults), unfolding(crate::specs::Packets::prepared_at))]
pub(crate) fn prepared_at(alloc: Global, payload: &[u8]) -> Option<u32>
    ensures { result ≡ spec.prepared_at payload.now }
{
    let mut buf = ParseBuf::new(alloc, payload);
    let read: Result<StmtPacket, FaultOf> = buf.parse(());
    match read {
        Ok(packet) => Some(packet.statement_id()),
        Err(_) => None,
    }
}

/// Returns the properties of a column that are kept.
fn row_column(column: &ColumnRef<'_>) -> RowColumn
    ensures { result ≡ spec.row_column column.now }
{
    RowColumn {
        column_type: column.column_type(),
        is_unsigned: column.flags().contains(ColumnFlags::UNSIGNED_FLAG),
    }
}

/// Returns the kept properties of a column or a parameter, from its definition.
#[tactic(auto, using(crate::proofs::Refused::faults), unfolding(crate::specs::Packets::column_at))]
pub(crate) fn column_at(
    alloc: Global,
    agreed: SessionCapabilities,
    payload: &[u8],
) -> Option<RowColumn>
    ensures { result ≡ spec.column_at agreed payload.now }
{
    let mut buf = ParseBuf::new(alloc, payload);
    let read: Result<ExtendedColumnRef<'_>, FaultOf> = buf.parse(agreed.mariadb);
    match read {
        Ok(column) => Some(row_column(column.column())),
        Err(_) => None,
    }
}

/// Returns the number of a statement, and the index of the parameter whose data is sent ahead.
#[tactic(auto, using(crate::proofs::Refused::faults), unfolding(crate::specs::Packets::data_at))]
pub(crate) fn data_at(alloc: Global, payload: &[u8]) -> Option<(u32, u16)>
    ensures { result ≡ spec.data_at payload.now }
{
    let mut buf = ParseBuf::new(alloc, payload);
    let read: Result<ComStmtSendLongDataRef<'_>, FaultOf> = buf.parse(());
    match read {
        Ok(data) => Some((data.stmt_id(), data.param_index())),
        Err(_) => None,
    }
}
