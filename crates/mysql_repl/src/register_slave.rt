//! The registration of a replica.
#![tactic(auto, using(mysql_wire::proofs::Packets::packets), unfolding(crate::specs::RegisterSlave::register_slave))]

ghost use Rattle.std.specs.Prelude.{◌≡◌, []};
ghost use Rattle.std.specs.Cow.{cow_slice_items};
ghost use Rattle.mysql_wire.specs.Text.{GivesText};
ghost use Rattle.mysql_repl.specs.RegisterSlave as spec;

use crate::register_slave_ref::ComRegisterSlaveRef;
use mysql_wire::command_code::COM_REGISTER_SLAVE;
use mysql_wire::{
    AnyWidth, ConstFault, ConstU8, FaultOf, LeU16, LeU32, MyDeserialize, ParseBuf, Parts, RawBytes,
    RawInt, Sink, U8Bytes, parts,
};
use std::alloc::{AllocError, Global};
use std::borrow::{CowSlice, CowStr};
use thiserror::Error;

/// The first byte of a registration is not `15`.
#[derive(Clone, Copy, Debug, Default, PartialEq, Eq, Hash, Error)]
#[error("Invalid header for COM_REGISTER_SLAVE")]
pub struct InvalidComRegisterSlaveHeader;

impl ConstFault for InvalidComRegisterSlaveHeader {
    const MESSAGE: &'static str = "Invalid header for COM_REGISTER_SLAVE";
}

/// The first byte of a registration: `15`.
pub type ComRegisterSlaveHeader = ConstU8<InvalidComRegisterSlaveHeader, COM_REGISTER_SLAVE>;

/// The registration of a replica at its source (`COM_REGISTER_SLAVE`), before it requests a binary log.
///
/// | Bytes | Field |
/// |---|---|
/// | 1 | `15` |
/// | 4 | `server_id` |
/// | 1 + n | `hostname`, after its length |
/// | 1 + n | `user`, after its length |
/// | 1 + n | `password`, after its length |
/// | 2 | `port` |
/// | 4 | `replication_rank` |
/// | 4 | `master_id` |
///
/// Numbers are little-endian. At most the first 255 bytes of a string are written. Missing bytes are
/// `UnexpectedEof`, another first byte is `InvalidData`. Reading takes no memory.
///
/// ```
/// let request = ComRegisterSlave::new(server_id).with_port(3306);
/// connection.command_packet(&request)?;
/// ```
#[derive(Debug, PartialEq, Eq, Hash)]
pub struct ComRegisterSlave<'a> {
    header: ComRegisterSlaveHeader,
    server_id: RawInt<LeU32>,
    hostname: RawBytes<'a, U8Bytes>,
    user: RawBytes<'a, U8Bytes>,
    password: RawBytes<'a, U8Bytes>,
    port: RawInt<LeU16>,
    replication_rank: RawInt<LeU32>,
    master_id: RawInt<LeU32>,
}

impl Drop for ComRegisterSlave<'_> {
    #[inline(always)]
    fn drop(self) {
        let ComRegisterSlave {
            header: _,
            server_id: _,
            hostname: _,
            user: _,
            password: _,
            port: _,
            replication_rank: _,
            master_id: _,
        } = self;
    }
}

impl<'a> ComRegisterSlave<'a> {
    /// Creates the registration of the replica with this server id. The other fields are empty or 0.
    pub fn new(server_id: u32) -> Self
        ensures value { result ≡ spec.registration server_id }
    {
        ComRegisterSlave {
            header: ConstU8::new(),
            server_id: RawInt::new(server_id),
            hostname: RawBytes::default(),
            user: RawBytes::default(),
            password: RawBytes::default(),
            port: RawInt::new(0),
            replication_rank: RawInt::new(0),
            master_id: RawInt::new(0),
        }
    }

    /// Sets the name or address of the replica, which the source lists.
    pub fn with_hostname(mut self, hostname: CowSlice<'a, u8>) -> Self
        ensures value { result ≡ spec.with_hostname (cow_slice_items hostname.entry) self.entry }
    {
        self.hostname = RawBytes::new(hostname);
        self
    }

    /// Sets the account of the replica, which the source lists.
    pub fn with_user(mut self, user: CowSlice<'a, u8>) -> Self
        ensures value { result ≡ spec.with_user (cow_slice_items user.entry) self.entry }
    {
        self.user = RawBytes::new(user);
        self
    }

    /// Sets the password of the account.
    pub fn with_password(mut self, password: CowSlice<'a, u8>) -> Self
        ensures value { result ≡ spec.with_password (cow_slice_items password.entry) self.entry }
    {
        self.password = RawBytes::new(password);
        self
    }

    /// Sets the port of the replica, which the source lists.
    pub fn with_port(mut self, port: u16) -> Self
        ensures value { result ≡ spec.with_port port self.entry }
    {
        self.port = RawInt::new(port);
        self
    }

    /// Sets the rank, which servers ignore.
    pub fn with_replication_rank(mut self, replication_rank: u32) -> Self
        ensures value { result ≡ spec.with_replication_rank replication_rank self.entry }
    {
        self.replication_rank = RawInt::new(replication_rank);
        self
    }

    /// Sets the server id of the source, usually 0.
    pub fn with_master_id(mut self, master_id: u32) -> Self
        ensures value { result ≡ spec.with_master_id master_id self.entry }
    {
        self.master_id = RawInt::new(master_id);
        self
    }

    /// The replica's server id.
    #[inline]
    pub fn server_id(&self) -> u32
        ensures value { result ≡ spec.server_id self.now }
    {
        self.server_id.0
    }

    /// The bytes of the replica's name or address.
    #[inline]
    pub fn hostname_raw(&self) -> &[u8]
        ensures value { result.now ≡ spec.hostname self.now }
    {
        self.hostname.as_bytes()
    }

    /// The replica's name or address as text, with U+FFFD for invalid UTF-8. Valid UTF-8 is borrowed.
    pub fn hostname(&self, alloc: Global) -> Result<CowStr<'_>, AllocError>
        ensures text { GivesText (spec.hostname self.now) result }
    {
        self.hostname.as_str(alloc)
    }

    /// The bytes of the account's name.
    #[inline]
    pub fn user_raw(&self) -> &[u8]
        ensures value { result.now ≡ spec.user self.now }
    {
        self.user.as_bytes()
    }

    /// The account's name as text, with U+FFFD for invalid UTF-8. Valid UTF-8 is borrowed.
    pub fn user(&self, alloc: Global) -> Result<CowStr<'_>, AllocError>
        ensures text { GivesText (spec.user self.now) result }
    {
        self.user.as_str(alloc)
    }

    /// The bytes of the password.
    #[inline]
    pub fn password_raw(&self) -> &[u8]
        ensures value { result.now ≡ spec.password self.now }
    {
        self.password.as_bytes()
    }

    /// The password as text, with U+FFFD for invalid UTF-8. Valid UTF-8 is borrowed.
    pub fn password(&self, alloc: Global) -> Result<CowStr<'_>, AllocError>
        ensures text { GivesText (spec.password self.now) result }
    {
        self.password.as_str(alloc)
    }

    /// The replica's port.
    #[inline]
    pub fn port(&self) -> u16
        ensures value { result ≡ spec.port self.now }
    {
        self.port.0
    }

    /// The rank, which servers ignore.
    #[inline]
    pub fn replication_rank(&self) -> u32
        ensures value { result ≡ spec.replication_rank self.now }
    {
        self.replication_rank.0
    }

    /// The source's server id.
    #[inline]
    pub fn master_id(&self) -> u32
        ensures value { result ≡ spec.master_id self.now }
    {
        self.master_id.0
    }
}

impl Clone for ComRegisterSlave<'_> {
    ghost is_clone = { λ p copy. copy ≡ p };

    ghost is_infallible = { λ p. (spec.hostname p ≡ []) × (spec.user p ≡ []) × (spec.password p ≡ []) };

    fn clone(&self) -> Result<Self, AllocError> {
        Ok(ComRegisterSlave {
            header: self.header,
            server_id: RawInt::new(self.server_id.0),
            hostname: self.hostname.clone()?,
            user: self.user.clone()?,
            password: self.password.clone()?,
            port: RawInt::new(self.port.0),
            replication_rank: RawInt::new(self.replication_rank.0),
            master_id: RawInt::new(self.master_id.0),
        })
    }
}

impl<'de> MyDeserialize<'de> for ComRegisterSlave<'de> {
    const SIZE: Option<usize> = None;

    type Size = AnyWidth;

    type Ctx = ();

    ghost form = { spec.register_slave.form };

    fn deserialize<'s>(_ctx: (), buf: &mut ParseBuf<'de>) -> Result<Self, FaultOf<'s>> {
        let registration: ComRegisterSlaveRef<'de> = buf.parse(())?;
        Ok(registration.to_owned())
    }

    ghost size_is = { λ _. spec.size-register_slave };
}

impl Parts for ComRegisterSlave<'_> {
    ghost bytes = { spec.register_slave.bytes };

    #[inline(always)]
    fn put<S: Sink>(&self, sink: &mut S) {
        let head = parts!(self.header, self.server_id);
        let end = parts!(self.port, self.replication_rank, self.master_id);
        sink.part(&parts!(head, self.hostname, self.user, self.password, end));
    }
}
