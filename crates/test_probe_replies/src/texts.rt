//! Constant fields of replies: `marker NAME BYTES`, and the texts of errors: `text NAME`.

use crate::prelude::*;

pub fn marker(out: &mut Out, request: &Request<'_>) -> bool {
    answers!(Server, out, request, request.word(1);
        with () => "ColumnDefinitionCatalog": ColumnDefinitionCatalog, "FixedLengthFieldsLen": FixedLengthFieldsLen,
            "ErrPacketHeader": ErrPacketHeader, "SqlStateMarker": SqlStateMarker, "LocalInfileHeader": LocalInfileHeader,
            "GtidsEncoding": GtidsEncoding,)
}

pub fn text(out: &mut Out, name: &str) -> bool {
    error_texts!(out, name;
        InvalidCatalog, InvalidFixedLengthFieldsLen, InvalidOkPacketHeader, InvalidErrPacketHeader, InvalidSqlStateMarker,
        InvalidLocalInfileHeader, InvalidGtidsEncoding,)
}
