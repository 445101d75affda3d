//! An execution and its parameters.

ghost use Rattle.std.specs.Prelude.{◌≡◌, ◌||◌, false, true, None, Ok, IfOk, IfErr, Some, List, ℕ};
ghost use Rattle.mysql_wire.specs.Reading.{Answers, Faults};
ghost use Rattle.mysql_stmt.specs.ExecuteHead.{execute_head};
ghost use Rattle.mysql_observer.specs.Records as spec;

use crate::client_reader::client_packet;
use crate::read_context::agreed_or_none;
use crate::record::ClientRecord;
use mysql_conversation::PacketKind;
use mysql_replies::SessionCapabilities;
use mysql_stmt::{BoundParam, ComStmtExecuteHead, ExecuteParamsView};
use mysql_wire::{CapabilityFlags, FaultOf, ParseBuf};
use std::alloc::Global;

/// The parameters of an executed statement, and whether an earlier execution sent their types.
#[derive(Clone, Copy)]
pub(crate) struct Known<'o> {
    pub(crate) params: &'o [BoundParam],
    pub(crate) is_bound: bool,
    /// Whether the parameters are known. If they aren't, the list is empty.
    pub(crate) is_known: bool,
}

/// Unknown parameters.
pub(crate) fn unknown<'o>() -> Known<'o>
    ensures { spec.params_in result ≡ None }
{
    Known {
        params: &[],
        is_bound: false,
        is_known: false,
    }
}

/// Reads the fields before the parameters.
fn read_head<'a, 's>(buf: &mut ParseBuf<'a>) -> Result<ComStmtExecuteHead, FaultOf<'s>>
    ensures value { Answers false result buf.new ((execute_head.form tt).reads buf.old) }
{
    buf.parse(())
}

/// Reads an execution, for the parameters of its statement.
#[inline(never)]
pub(crate) fn read_execution<'a, 'o, 's>(
    alloc: Global,
    capabilities: CapabilityFlags,
    params: &'o [BoundParam],
    payload: &'a [u8],
) -> Result<(ComStmtExecuteHead, ExecuteParamsView<'a, 'o>), FaultOf<'s>>
    ensures stands { IfOk result (λ x. spec.Stands capabilities params.now payload.now x.0 x.1) }
    ensures fault { IfErr result (λ e. Faults false e ((spec.execution capabilities params.now).reads payload.now)) }
{
    let mut buf = ParseBuf::new(alloc, payload);
    let head = read_head(&mut buf)?;
    let view = ExecuteParamsView::new(capabilities, &head, params, buf)?;
    Ok((head, view))
}

/// Reads the record of a packet of the client; for an execution whose statement and types are known, with its
/// parameters.
#[inline(always)]
pub(crate) fn read_client<'a, 'o, 's>(
    alloc: Global,
    agreed: Option<SessionCapabilities>,
    kind: PacketKind,
    known: Known<'o>,
    payload: &'a [u8],
) -> Result<ClientRecord<'a, 'o>, FaultOf<'s>>
    ensures packet { IfOk result (λ r. spec.IsClientRecord agreed (spec.params_in known.entry) kind payload.now r) }
    ensures fault { IfErr result (λ e. spec.IsClientFault agreed (spec.params_in known.entry) kind payload.now e) }
{
    if !known.is_known {
        return match client_packet(alloc, agreed, kind, payload) {
            Ok(packet) => Ok(ClientRecord::Packet(packet)),
            Err(fault) => Err(fault),
        };
    }
    match read_execution(alloc, agreed_or_none(agreed).mysql, known.params, payload) {
        Ok((head, view)) => {
            if view.sends_types() || known.is_bound || view.left() == 0 {
                return Ok(ClientRecord::Execution(head, view));
            }
            match client_packet(alloc, agreed, kind, payload) {
                Ok(packet) => Ok(ClientRecord::Packet(packet)),
                Err(fault) => Err(fault),
            }
        }
        Err(fault) => Err(fault),
    }
}
