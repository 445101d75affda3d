//! Constant fields of statements: `marker NAME BYTES`, and the texts of errors: `text NAME`.

use crate::prelude::*;

/// The answer, where the request names one of these fields.
pub fn marker(out: &mut Out, request: &Request<'_>) -> bool {
    answers!(Statements, out, request, request.word(1);
        with () => "ComStmtExecuteHeader": ComStmtExecuteHeader, "IterationCount": IterationCount,
            "ComStmtSendLongDataHeader": ComStmtSendLongDataHeader, "ComStmtCloseHeader": ComStmtCloseHeader,
            "ComQueryHeader": ComQueryHeader, "ComFieldListHeader": ComFieldListHeader, "ComSetOptionHeader": ComSetOptionHeader,
            "ComStmtFetchHeader": ComStmtFetchHeader, "ComStmtResetHeader": ComStmtResetHeader,)
}

/// The answer, where it is the name of one of these errors. A builder's refusal has the text of what it holds.
pub fn text(out: &mut Out, name: &str) -> bool {
    let alloc = out.alloc();
    let is_known = error_texts!(out, name;
        InvalidStmtPacketStatus, InvalidIterationCount, InvalidComStmtExecuteHeader,
        InvalidComStmtSendLongDataHeader, InvalidComStmtCloseHeader, InvalidComStmtBulkExecuteHeader,
        BinaryRowError::Count, BinaryRowError::Memory, BinaryRowError::Value = BinaryRowError::Value(0),
        FromValueError = FromValueError(Value::NULL), ParamsError::Missing = ParamsError::Missing(Vec::new(alloc)),
        ParamsError::NamedForPositional, ParamsError::PositionalForNamed, ParamsError::Memory,
        BulkExecuteRequestBuilderError::Request = BulkExecuteRequestBuilderError::from(BulkExecuteRequestError::NoParams),
        BulkExecuteRequestBuilderError::Params = BulkExecuteRequestBuilderError::from(ParamsError::NamedForPositional),);
    is_known || text_of_commands(out, name) || text_of_rows(out, name)
}

/// The same of errors of commands.
fn text_of_commands(out: &mut Out, name: &str) -> bool {
    error_texts!(out, name;
        InvalidComQueryHeader, InvalidComFieldListHeader, InvalidComSetOptionHeader, InvalidComStmtFetchHeader,
        InvalidComStmtResetHeader, InvalidParameterSetCount,)
}

/// The same of errors of rows that are bulk executed.
fn text_of_rows(out: &mut Out, name: &str) -> bool {
    let alloc = out.alloc();
    error_texts!(out, name;
        BulkExecuteRequestError::MixedArity, BulkExecuteRequestError::NoParams, BulkExecuteRequestError::Memory,
        BulkExecuteRequestError::MixedTypes = BulkExecuteRequestError::MixedTypes(Vec::new(alloc)),
        BulkExecuteRequestError::RowTooLarge = BulkExecuteRequestError::RowTooLarge(Vec::new(alloc)),
        BulkExecuteRequestError::MemoryRow = BulkExecuteRequestError::MemoryRow(Vec::new(alloc)),
        BulkColumnTypeError = BulkColumnTypeError { place: 0 },
        BulkRowError::MixedArity, BulkRowError::TooLarge, BulkRowError::MixedTypes, BulkRowError::Memory,)
}
