use crate::ComStmtReset;
use mysql_wire::{Fault, MySerialize, ParseBuf};
use std::alloc::Global;
use std::test::Fail;

/// Statement 10, as the protocol's page lays it out.
const RESET: [u8; 5] = [0x1a, 0x0a, 0, 0, 0];

fn reset(alloc: Global, bytes: &[u8]) -> Result<ComStmtReset, Fault> {
    let mut buf = ParseBuf::new(alloc, bytes);
    buf.parse(())
}

#[test]
fn a_reset_is_read_and_written(rt: HostRuntime) -> Result<(), Fail> {
    let packet = reset(rt.alloc(), &RESET)
        .ok()
        .ok_or("the bytes are a reset")?;
    assert_eq!(rt; packet.stmt_id(), 10);
    let mut out = Vec::new(rt.alloc());
    ComStmtReset::new(10).serialize(&mut out)?;
    assert_eq!(rt; out.as_slice(), RESET.as_slice());
    Ok(())
}

#[test]
fn another_command_is_refused(rt: HostRuntime) -> Result<(), Fail> {
    let fault = reset(rt.alloc(), &[0x19, 0x0a, 0, 0, 0])
        .err()
        .ok_or("the first byte is 19")?;
    assert_eq!(rt;
        fault,
        Fault::InvalidData("Invalid header for COM_STMT_RESET")
    );
    let fault = reset(rt.alloc(), &RESET[..4])
        .err()
        .ok_or("a byte is missing")?;
    assert_eq!(rt; fault, Fault::UnexpectedEof);
    Ok(())
}
