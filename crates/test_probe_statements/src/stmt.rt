//! Prepared statements, and what is sent for one.
//!
//! `stmt BYTES`, `stmt_metadata CAPABILITIES BYTES`, `long_data ID PARAMETER BYTES`, `close ID`; and as a server reads them
//! `com_long_data BYTES`, `com_close BYTES`.

use crate::prelude::*;
use mysql_stmt::laws::values as laws;

impl Shows<StmtPacket> for Statements {
    fn show(it: &StmtPacket, out: &mut Out) {
        fields!(out, it; statement_id, num_columns, num_params, warning_count);
        anew!(out, it; StmtPacket::new(it.statement_id(), it.num_columns(), it.num_params(), it.warning_count()));
        laws::this_stmt_packet_round_trips(it)
    }
}

impl Shows<StmtPacketWithMetadata> for Statements {
    fn show(it: &StmtPacketWithMetadata, out: &mut Out) {
        let packet = it.packet();
        fields!(out, packet; statement_id, num_columns, num_params, warning_count);
        fields!(out, it; metadata);
        let copy = counted!(out.alloc(); packet.clone());
        let made = copy.map(|packet| StmtPacketWithMetadata::new(packet, it.metadata()));
        made_anew(out, it, made)
    }
}

impl Shows<ComStmtClose> for Statements {
    fn show(it: &ComStmtClose, out: &mut Out) {
        out.show("stmt_id", it.stmt_id);
        anew!(out, it; ComStmtClose::new(it.stmt_id))
    }
}

impl Shows<ComStmtSendLongData<'_>> for Statements {
    fn show(it: &ComStmtSendLongData<'_>, out: &mut Out) {
        fields!(out, it; stmt_id, param_index, data_ref);
        let data = CowSlice::Borrowed(it.data_ref());
        anew!(out, it; owned ComStmtSendLongData::new(it.stmt_id(), it.param_index(), data))
    }
}

impl InPlace<ComStmtSendLongData<'_>, ComStmtSendLongDataRef<'_>> for Statements {
    fn is(
        place: &ComStmtSendLongDataRef<'_>,
        owned: &ComStmtSendLongData<'_>,
        _out: &mut Out,
    ) -> bool {
        fields!(place, owned; alike stmt_id, param_index, data with data_ref)
            && place.to_owned() == *owned
    }
}

pub fn long_data(out: &mut Out, request: &Request<'_>) {
    let data = CowSlice::Borrowed(request.bytes.as_slice());
    let parameter = (request.number(2) & 0xffff) as u16;
    let packet = ComStmtSendLongData::new(request.number(1), parameter, data);
    anew!(out, &packet; owned packet);
    write_made(out, &packet);
}

pub fn close(out: &mut Out, request: &Request<'_>) {
    let packet = ComStmtClose::new(request.number(1));
    out.show("stmt_id", packet.stmt_id);
    write_made(out, &packet);
}
