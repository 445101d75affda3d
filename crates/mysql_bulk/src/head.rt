//! The fields before the values of a bulk request.
#![tactic(auto, using(mysql_wire::proofs::Packets::packets), unfolding(crate::specs::Head::head))]

ghost use Rattle.std.specs.Prelude.{true, ◌≡◌, [], is_ok, IfOk, IsTrue, OnOk, OnErr, map};
ghost use Rattle.mysql_wire.specs.Reading.{Answers};
ghost use Rattle.mysql_wire.specs.Seq.{is_any, items_of};
ghost use Rattle.mysql_bulk.specs.Head.{head, value_columns, column_of_type, sends_types};
ghost use Rattle.mysql_bulk.specs.HeadTypes.{types_block};
ghost use Rattle.mysql_bulk.specs.RequestForm.{head_start, keeps_lists};

use mysql_values::ParamType;
use mysql_wire::{
    ColumnFlags, ColumnType, ComStmtBulkExecuteHeader, Const, FaultOf, Flags, LeU16, LeU32,
    ParseBuf, RawInt, Seq, StmtBulkExecuteFlags, StmtExecuteParamFlags, Unknown,
};
use std::alloc::{AllocError, Global};
use std::borrow::CowSlice;
use std::marker::Model;

/// The statement's number, the flags, and the types if they are sent.
#[derive(Drop)]
pub(crate) struct Head {
    pub(crate) stmt_id: u32,
    pub(crate) bulk_flags: StmtBulkExecuteFlags,
    pub(crate) types: Vec<ParamType>,
}

impl Model for Head {
    ghost use Rattle.mysql_bulk.specs.Head.{BulkHead};

    ghost Value = { BulkHead };

    ghost view = { λ a. record { stmt_id = a.stmt_id; bulk_flags = a.bulk_flags; types = a.types.items } };
}

/// Whether types are sent.
pub(crate) fn sends_types(bulk_flags: StmtBulkExecuteFlags) -> bool
    ensures { result ≡ sends_types bulk_flags }
{
    bulk_flags.contains(StmtBulkExecuteFlags::SEND_TYPES_TO_SERVER)
}

/// The types of a list, owned or borrowed.
fn owned_types(
    alloc: Global,
    types: Seq<'_, ParamType, Unknown>,
) -> Result<Vec<ParamType>, AllocError>
    ensures { IfOk result (λ owned. owned.items ≡ types.entry) }
{
    match types.into_inner() {
        CowSlice::Owned(types) => Ok(types),
        CowSlice::Borrowed(types) => Vec::from_slice(alloc, types),
    }
}

/// Reads `count` types in a block of two bytes each.
fn read_types<'s>(count: usize, buf: &mut ParseBuf<'_>) -> Result<Vec<ParamType>, FaultOf<'s>>
    ensures value { Answers true (items_of result) buf.new ((types_block true count).reads buf.old) }
{
    if buf.len() / 2 < count {
        return Err(FaultOf::UnexpectedEof);
    }
    let mut block: ParseBuf = buf.parse(2 * count)?;
    let types: Seq<ParamType, Unknown> = block.parse(count)?;
    Ok(owned_types(buf.alloc(), types)?)
}

/// Reads the types of `count` columns, if they are sent. Without columns it takes no memory.
fn read_types_sent<'s>(
    sent: bool,
    count: usize,
    buf: &mut ParseBuf<'_>,
) -> Result<Vec<ParamType>, FaultOf<'s>>
    ensures value { Answers (is_any count) (items_of result) buf.new ((types_block sent count).reads buf.old) }
    ensures none { count ≡ 0 → IfOk result (λ types. types.items ≡ []) }
{
    if !sent {
        return Ok(Vec::new(buf.alloc()));
    }
    if count == 0 {
        return Ok(Vec::new(buf.alloc()));
    }
    read_types(count, buf)
}

/// Reads the head of a request of `count` columns. After an error the buffer is unchanged.
pub(crate) fn read_head<'s>(count: usize, buf: &mut ParseBuf<'_>) -> Result<Head, FaultOf<'s>>
    ensures value { Answers (keeps_lists count buf.old) result buf.new ((head.form count).reads buf.old) }
    ensures start { OnOk result (IsTrue (is_ok (head_start.reads buf.old))) }
    ensures none { count ≡ 0 → IfOk result (λ head. head.types ≡ []) }
    ensures err { OnErr result (buf.new ≡ buf.old) }
{
    let mut rest = buf.rest();
    let _header: ComStmtBulkExecuteHeader = rest.parse(())?;
    let stmt_id: RawInt<LeU32> = rest.parse(())?;
    let bulk_flags: Const<StmtBulkExecuteFlags, LeU16> = rest.parse(())?;
    let types = read_types_sent(sends_types(bulk_flags.0), count, &mut rest)?;
    *buf = rest;
    Ok(Head {
        stmt_id: stmt_id.0,
        bulk_flags: bulk_flags.0,
        types,
    })
}

impl Head {
    /// The columns of the values: from the types of the request if it sends them, otherwise the given ones.
    pub(crate) fn value_columns(
        &self,
        alloc: Global,
        columns: &[(ColumnType, ColumnFlags)],
    ) -> Result<Vec<(ColumnType, ColumnFlags)>, AllocError>
        ensures { IfOk result (λ all. all.items ≡ value_columns columns.now self.now) }
    {
        if sends_types(self.bulk_flags) {
            columns_of(alloc, self.types.as_slice())
        } else {
            Vec::from_slice(alloc, columns)
        }
    }
}

/// The columns of the types.
fn columns_of(
    alloc: Global,
    types: &[ParamType],
) -> Result<Vec<(ColumnType, ColumnFlags)>, AllocError>
    ensures { IfOk result (λ all. all.items ≡ map column_of_type types.now) }
{
    let mut columns = Vec::with_capacity(alloc, types.len())?;
    for t in types {
        columns.push(column_of_type(*t))?;
    }
    Ok(columns)
}

/// The column of a type.
fn column_of_type(t: ParamType) -> (ColumnType, ColumnFlags)
    ensures { result ≡ column_of_type t }
{
    let flags = if t.flags().contains(StmtExecuteParamFlags::UNSIGNED) {
        ColumnFlags::UNSIGNED_FLAG
    } else {
        ColumnFlags::from_bits_retain(0)
    };
    (t.column_type(), flags)
}
