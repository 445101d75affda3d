//! Answers rows of statements, values and builders: a line for each line of its input.
#![tactic(auto)]

mod bitmaps;
mod borrowed;
mod builder;
mod bulk;
mod commands;
mod execute;
mod execute_read;
mod execute_typed;
mod forms;
mod own;
mod params;
mod prelude;
mod rows;
mod stmt;
mod texts;
mod values;

use crate::prelude::*;
use crate::rows::{stored, views, written};
use std::io;
use test_probe::{Answers, run};

struct Statements;

fn of_statements(out: &mut Out, request: &Request<'_>) -> bool {
    answers!(Statements, out, request, request.word(0);
        with () => "stmt": StmtPacket, "com_close": ComStmtClose, "com_execute_head": ComStmtExecuteHead,
        with request.capabilities() => "stmt_metadata": StmtPacketWithMetadata,
        both () => "com_long_data": ComStmtSendLongData<'_>, ComStmtSendLongDataRef<'_>,
        call "row_text": views::text::<ServerSide>, "row": views::binary::<ServerSide>,
            "row_text_client": views::text::<ClientSide>, "row_client": views::binary::<ClientSide>,
            "execute": execute::execute, "execute_many": execute::execute_many,
            "execute_with": execute::execute_with, "execute_at_once": execute::at_once, "execute_typed": execute_typed::execute_typed, "com_execute": execute_read::com_execute, "com_execute_attributes": execute_read::com_execute_attributes, "long_data": stmt::long_data,
            "close": stmt::close, "bitmap": bitmaps::bitmap, "bits": bitmaps::bits, "row_equal": rows::row_equal,
            "store_text": stored::text, "store": stored::binary, "write_row_text": written::text, "write_row": written::binary, "write_row_params": execute_typed::write_row_params,
            "row_text_again": written::text_again, "row_again": written::binary_again,
            "new_row": rows::made_row, "new_row_raw": rows::made_row_raw, "unwrap": rows::unwrap, "column_typed": rows::column_typed,)
}

fn of_values(out: &mut Out, request: &Request<'_>) -> bool {
    answers!(Statements, out, request, request.word(0);
        with () => "param_type": ParamType,
        call "value_text": borrowed::value_text, "value": borrowed::value, "cell": forms::cell, "bin": forms::bin, "typed": forms::typed, "bin_len": forms::bin_len, "bit_offsets": bitmaps::bit_offsets,
            "from_value": forms::from_value, "sizes": forms::sizes, "params": params::into_values, "params_same": params::are_same,)
}

fn of_bulk(out: &mut Out, request: &Request<'_>) -> bool {
    answers!(Statements, out, request, request.word(0);
        with () => "bulk_type": StmtBulkExecuteParamType,
        call "bulk": bulk::by_columns::<ComStmtBulkExecuteRequest>, "bulk_value": bulk::value, "bulk_values": bulk::by_columns::<StmtBulkExecuteParamValues>, "bulk_rows": bulk::bulk_rows,
            "bulk_new": bulk::bulk_new, "bulk_value_new": bulk::value_new, "bulk_values_new": bulk::values_new,
            "bulk_same": bulk::are_same, "bulk_error": bulk::bulk_error, "fewest": bulk::fewest, "row_size": bulk::row_size,
            "builder": builder::builder, "writer": builder::writer::writer,)
}

fn of_commands(out: &mut Out, request: &Request<'_>) -> bool {
    answers!(Statements, out, request, request.word(0);
        with () => "com_reset": ComStmtReset, "com_fetch": ComStmtFetch, "com_set_option": ComSetOption, "com_field_list": ComFieldListRef<'_>,
            "com_execute_ref": ComStmtExecuteRef<'_>, "com_bulk_ref": ComStmtBulkExecuteRef<'_>, "com_unknown": UnknownCommand<'_>, "to_end": BytesRef<'_>,
        call "command": commands::command, "debug_command": commands::debug, "com_query": commands::query, "query_attributes": commands::query_attributes, "new_query": commands::new_query, "make_query": commands::make_query, "set_option": commands::set_option,)
}

impl Answers for Statements {
    fn answer(out: &mut Out, request: &Request<'_>) -> bool {
        match request.word(0) {
            "marker" => texts::marker(out, request),
            "text" => texts::text(out, request.word(1)),
            _ => {
                of_statements(out, request)
                    || of_values(out, request)
                    || of_bulk(out, request)
                    || of_commands(out, request)
            }
        }
    }
}

fn main(rt: HostRuntime) -> io::Result<()> {
    run::<Statements>(&rt)
}
