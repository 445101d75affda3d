//! The parameter types that executions send.

ghost use Rattle.std.specs.Prelude.{◌≡◌, length, false};
ghost use Rattle.mysql_wire.specs.Reading.{Answers};
ghost use Rattle.mysql_statements.specs.Binding as spec;

use crate::layout::Layout;
use mysql_stmt::{BoundParam, ComStmtExecuteHead, ExecuteParamsBytes, SentParamTypes};
use mysql_wire::{CapabilityFlags, FaultOf, LeU16, LeU32, ParseBuf, RawInt};

/// Sets the types that a `COM_STMT_EXECUTE` sends for the parameters, and returns whether it sends any.
fn bind_single(
    capabilities: CapabilityFlags,
    params: &mut [BoundParam],
    payload: ParseBuf<'_>,
) -> bool
    ensures is_bound { result ≡ (spec.bound_by params.old ((spec.single_front capabilities (length params.old)).reads payload.entry)).is_bound }
    ensures params { params.new ≡ (spec.bound_by params.old ((spec.single_front capabilities (length params.old)).reads payload.entry)).params }
{
    let mut rest = payload;
    let head: Result<ComStmtExecuteHead, FaultOf> = rest.parse(());
    let Ok(head) = head else {
        return false;
    };
    match ExecuteParamsBytes::new(capabilities, &head, params.len(), rest) {
        Ok(sent) => {
            sent.set_types(params);
            sent.sends_types()
        }
        Err(_) => false,
    }
}

/// Reads the types that a bulk execution of `count` parameters sends, if it sends any.
fn read_bulk<'s, 'a>(
    count: usize,
    buf: &mut ParseBuf<'a>,
) -> Result<Option<SentParamTypes<'a>>, FaultOf<'s>>
    ensures value { Answers false (spec.bulk_read result) buf.new ((spec.bulk_front count).reads buf.old) }
    ensures count { spec.HasBulkTypes count result }
{
    let _code: RawInt<u8> = buf.parse(())?;
    let _id: RawInt<LeU32> = buf.parse(())?;
    let flags: RawInt<LeU16> = buf.parse(())?;
    if flags.0 & 128 != 128 {
        return Ok(None);
    }
    Ok(Some(SentParamTypes::read(false, count, buf)?))
}

/// Sets the types that a bulk execution sends for the parameters, and returns whether it sends any.
fn bind_bulk(params: &mut [BoundParam], payload: ParseBuf<'_>) -> bool
    ensures is_bound { result ≡ (spec.bound_by params.old ((spec.bulk_front (length params.old)).reads payload.entry)).is_bound }
    ensures params { params.new ≡ (spec.bound_by params.old ((spec.bulk_front (length params.old)).reads payload.entry)).params }
{
    let mut rest = payload;
    match read_bulk(params.len(), &mut rest) {
        Ok(Some(types)) => {
            types.set_types(params);
            true
        }
        Ok(None) => false,
        Err(_) => false,
    }
}

/// Sets the types that an execution sends for the parameters, and returns whether it sends any. An execution
/// that is malformed before its values sets none.
pub(crate) fn bind(layout: Layout, params: &mut [BoundParam], payload: ParseBuf<'_>) -> bool
    ensures is_bound { result ≡ (spec.bound_by params.old ((spec.front_of layout (length params.old)).reads payload.entry)).is_bound }
    ensures params { params.new ≡ (spec.bound_by params.old ((spec.front_of layout (length params.old)).reads payload.entry)).params }
{
    match layout {
        Layout::Single(capabilities) => bind_single(capabilities, params, payload),
        Layout::Bulk => bind_bulk(params, payload),
    }
}
