//! The fields of the commands of replicas.

ghost use Rattle.std.specs.Prelude.{◌≡◌};
ghost use Rattle.mysql_show.specs.Replicas as spec;

use crate::field::Field;
use mysql_repl::ComRegisterSlaveRef;
use mysql_wire::BinlogDumpFlags;

/// The fields of a request for a binary log, with or without a GTID set, before its sids.
pub fn dump_fields<'p>(
    server_id: u32,
    flags: BinlogDumpFlags,
    filename: &'p [u8],
    pos: u64,
) -> [Field<'p>; 4]
    ensures value { result ≡ spec.dump_fields server_id flags.0 filename.now pos }
{
    [
        Field::number("server_id", u64::from(server_id)),
        Field::number("flags", u64::from(flags.0)),
        Field::bytes("filename", filename),
        Field::number("pos", pos),
    ]
}

/// The fields of a replica's registration, without its password.
pub fn replica_fields<'p>(replica: &ComRegisterSlaveRef<'p>) -> [Field<'p>; 4]
    ensures value { result ≡ spec.replica_fields replica.now }
{
    [
        Field::number("server_id", u64::from(replica.server_id())),
        Field::bytes("hostname", replica.hostname_raw()),
        Field::bytes("user", replica.user_raw()),
        Field::number("port", u64::from(replica.port())),
    ]
}
