use crate::{commands, connection, conversations, replies};
use mysql_packets::constants::CapabilityFlags;
use std::test::Fail;

/// Ten rows of statement 1's cursor: the protocol's page of `COM_STMT_FETCH`, with 100 rows.
#[test]
fn commands_are_written(rt: HostRuntime) -> Result<(), Fail> {
    let mut out = Vec::new(rt.alloc());
    commands::fetch(1, &mut out).ok().ok_or("it is written")?;
    assert_eq!(rt;
        out.as_slice(),
        b"\x1c\x01\x00\x00\x00\x64\x00\x00\x00".as_slice()
    );
    Ok(())
}

/// The reply to the frame of a COM_PING, of number 0, has number 1.
#[test]
fn frames_are_numbered(rt: HostRuntime) -> Result<(), Fail> {
    assert_eq!(rt;
        conversations::number_of_reply(b"\x01\x00\x00\x00\x0e"),
        Some(1)
    );
    assert_eq!(rt;
        conversations::first_frame(b"\x01\x00\x00\x00\x0e"),
        Some(b"\x0e".as_slice())
    );
    Ok(())
}

/// `Protocol::LOCAL_INFILE_Request`: `fb`, and the file's name.
#[test]
fn replies_are_read(rt: HostRuntime) -> Result<(), Fail> {
    let name = replies::file_name(rt.alloc(), b"\xfb/etc/passwd")
        .ok()
        .ok_or("it is read")?;
    assert_eq!(rt; name, b"/etc/passwd".as_slice());
    let mut out = Vec::new(rt.alloc());
    connection::tls(&mut out).ok().ok_or("it is written")?;
    assert_eq!(rt; out.len(), 32);
    let is_quit = commands::is_quit(rt.alloc(), b"\x01", CapabilityFlags::CLIENT_PROTOCOL_41);
    assert_eq!(rt; is_quit.ok(), Some(true));
    Ok(())
}
