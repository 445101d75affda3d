//! A client and its server: an execution is read as it was sent.

ghost use Rattle.std.specs.Prelude.{◌≡◌, ◌+◌, ◌<◌, ◌^◌, ◌++◌, List, ℕ, IfOk, None, Ok, [], false, true, length};
ghost use Rattle.std.specs.List.{All};
ghost use Rattle.mysql_packets.specs.Flags.{CapabilityFlags};
ghost use Rattle.mysql_packets.specs.ExecuteRead as read;
ghost use Rattle.mysql_packets.specs.ReadAgain.{KnowsAll, SentFits, bytes_after_head, params_as_read};
ghost use Rattle.mysql_packets.specs.ExecuteWithOptions as request;
ghost use Rattle.mysql_packets.specs.ExecuteParam.{attribute_param};
ghost use Rattle.mysql_packets.specs.SentParam.{attribute_type, sent_params};
ghost use Rattle.mysql_packets.specs.declared.packets.BoundParam.{BoundParam};

use mysql_packets::laws::stmt::execution_round_trips;
use mysql_packets::packets::{
    AsExecuteParam, BoundParam, ComStmtExecuteRequestBuilder, ComStmtExecuteWithOptions,
    TypedExecutionError,
};

/// Writes the request that executes a statement with these parameters, in a session without CLIENT_QUERY_ATTRIBUTES. A server
/// that knows which of them were sent ahead reads them as they were passed.
pub fn execution<'a, V: AsExecuteParam>(
    statement_id: u32,
    params: &'a [V],
) -> Result<ComStmtExecuteWithOptions<'a, V>, TypedExecutionError>
    requires few { length params.now + 7 < 2 ^ 64 }
    requires fit { All SentFits (sent_params V.param V.named_type params.now) }
    ensures params { IfOk result (λ made. request.params made ≡ params.now) }
    ensures read { IfOk result (λ made. (caps : CapabilityFlags) (bound : List BoundParam) (rest : List ℕ) → read.has_attributes caps ≡ false
        → KnowsAll true (request.as_long_data made) bound (sent_params V.param V.named_type params.now)
        → (read.execution caps 0 bound).reads (bytes_after_head (request.execution_of V.param V.named_type attribute_param attribute_type made) ++ rest) ≡ Ok ((params_as_read (request.execution_of V.param V.named_type attribute_param attribute_type made), []), rest)) }
{
    let builder = ComStmtExecuteRequestBuilder {
        stmt_id: statement_id,
    };
    let (made, _as_long_data) = builder.build_ref(params)?;
    execution_round_trips();
    Ok(made)
}
