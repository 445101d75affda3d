//! Borrowed registrations of a replica.
#![tactic(auto, using(mysql_wire::proofs::Packets::packets), unfolding(crate::specs::RegisterSlave::register_slave))]

ghost use Rattle.std.specs.Prelude.{false, ◌≡◌, OnErr, ⊤};
ghost use Rattle.mysql_wire.specs.Reading.{Answers, IsTail};
ghost use Rattle.mysql_repl.specs.RegisterSlave as spec;

use crate::register_slave::{ComRegisterSlave, ComRegisterSlaveHeader};
use mysql_wire::{
    AnyWidth, BytesRepr, FaultOf, LeU16, LeU32, MyDeserialize, ParseBuf, RawInt, U8Bytes,
};
use std::alloc::AllocError;
use std::borrow::CowSlice;
use std::fmt;
use std::fmt::Debug;
use std::marker::Model;

/// The registration of a replica, whose texts stay in the packet: a [`ComRegisterSlave`] for as long as the packet lives.
///
/// It is read from the same bytes with the same faults, and in a clause it is that registration.
///
/// ```
/// let request: ComRegisterSlaveRef<'_> = ParseBuf::new(alloc, payload).parse(())?;
/// Ok(request.server_id())
/// ```
#[derive(Drop)]
pub struct ComRegisterSlaveRef<'a> {
    server_id: u32,
    hostname: &'a [u8],
    user: &'a [u8],
    password: &'a [u8],
    port: u16,
    replication_rank: u32,
    master_id: u32,
}

impl<'a> Model for ComRegisterSlaveRef<'a> {
    ghost use Rattle.mysql_wire.specs.Int.{raw_int};
    ghost use Rattle.mysql_repl.specs.declared.register_slave.ComRegisterSlave.{ComRegisterSlave};

    ghost Value = { ComRegisterSlave };

    ghost view = { λ p. record {
      header = record { 0 = record {} };
      server_id = raw_int p.server_id;
      hostname = p.hostname.now;
      user = p.user.now;
      password = p.password.now;
      port = raw_int p.port;
      replication_rank = raw_int p.replication_rank;
      master_id = raw_int p.master_id;
    } };
}

impl<'a> ComRegisterSlaveRef<'a> {
    /// Like [`ComRegisterSlave::server_id`].
    #[inline]
    pub fn server_id(&self) -> u32
        ensures value { result ≡ spec.server_id self.now }
    {
        self.server_id
    }

    /// The bytes of the replica's name or address.
    #[inline]
    pub fn hostname_raw(&self) -> &'a [u8]
        ensures value { result.now ≡ spec.hostname self.now }
    {
        self.hostname
    }

    /// The bytes of the account's name.
    #[inline]
    pub fn user_raw(&self) -> &'a [u8]
        ensures value { result.now ≡ spec.user self.now }
    {
        self.user
    }

    /// The bytes of the password.
    #[inline]
    pub fn password_raw(&self) -> &'a [u8]
        ensures value { result.now ≡ spec.password self.now }
    {
        self.password
    }

    /// Like [`ComRegisterSlave::port`].
    #[inline]
    pub fn port(&self) -> u16
        ensures value { result ≡ spec.port self.now }
    {
        self.port
    }

    /// Like [`ComRegisterSlave::replication_rank`].
    #[inline]
    pub fn replication_rank(&self) -> u32
        ensures value { result ≡ spec.replication_rank self.now }
    {
        self.replication_rank
    }

    /// Like [`ComRegisterSlave::master_id`].
    #[inline]
    pub fn master_id(&self) -> u32
        ensures value { result ≡ spec.master_id self.now }
    {
        self.master_id
    }

    /// Converts to a [`ComRegisterSlave`], which still borrows the texts. It takes no memory.
    #[inline]
    pub fn to_owned(&self) -> ComRegisterSlave<'a>
        ensures value { result ≡ self.now }
    {
        ComRegisterSlave::new(self.server_id)
            .with_hostname(CowSlice::Borrowed(self.hostname))
            .with_user(CowSlice::Borrowed(self.user))
            .with_password(CowSlice::Borrowed(self.password))
            .with_port(self.port)
            .with_replication_rank(self.replication_rank)
            .with_master_id(self.master_id)
    }
}

/// Reads the first five bytes: the header and the replica's server id.
#[tactic(auto, using(mysql_wire::proofs::Packets::packets), unfolding(crate::specs::RegisterSlave::register_slave_head, mysql_wire::specs::Int::raw))]
fn read_head<'s>(
    buf: &mut ParseBuf<'_>,
) -> Result<(ComRegisterSlaveHeader, RawInt<LeU32>), FaultOf<'s>>
    ensures value { Answers false result buf.new ((spec.register_slave_head.form tt).reads buf.old) }
    ensures tail { OnErr result (IsTail buf.new buf.old) }
{
    let mut head: ParseBuf<'_> = buf.parse(5)?;
    let header = head.parse_unchecked(())?;
    Ok((header, RawInt::take(&mut head)))
}

/// Reads the last ten bytes: the port, the rank and the source's server id.
#[tactic(auto, using(mysql_wire::proofs::Packets::packets), unfolding(crate::specs::RegisterSlave::register_slave_end, mysql_wire::specs::Int::raw))]
fn read_end<'s>(
    buf: &mut ParseBuf<'_>,
) -> Result<(RawInt<LeU16>, RawInt<LeU32>, RawInt<LeU32>), FaultOf<'s>>
    ensures value { Answers false result buf.new ((spec.register_slave_end.form tt).reads buf.old) }
    ensures tail { OnErr result (IsTail buf.new buf.old) }
{
    let mut end: ParseBuf<'_> = buf.parse(10)?;
    let port = RawInt::take(&mut end);
    let replication_rank = RawInt::take(&mut end);
    let master_id = RawInt::take(&mut end);
    Ok((port, replication_rank, master_id))
}

impl Clone for ComRegisterSlaveRef<'_> {
    ghost is_clone = { λ p copy. copy ≡ p };

    ghost is_infallible = { λ _. ⊤ };

    fn clone(&self) -> Result<Self, AllocError> {
        Ok(ComRegisterSlaveRef {
            server_id: self.server_id,
            hostname: self.hostname,
            user: self.user,
            password: self.password,
            port: self.port,
            replication_rank: self.replication_rank,
            master_id: self.master_id,
        })
    }
}

impl PartialEq for ComRegisterSlaveRef<'_> {
    ghost use Rattle.mysql_repl.specs.contracts.register_slave.ComRegisterSlavePartialEq.TheImpl.Laws.{laws-law};

    ghost eq = { ⟦<ComRegisterSlave<'static> as PartialEq>⟧.eq };

    ghost laws = { laws-law };

    fn eq(&self, other: &Self) -> bool {
        self.to_owned() == other.to_owned()
    }
}

impl Eq for ComRegisterSlaveRef<'_> {
    ghost use Rattle.mysql_repl.specs.contracts.register_slave.ComRegisterSlaveEq.TheImpl.Laws.{laws-law};

    ghost laws = { laws-law };
}

impl Debug for ComRegisterSlaveRef<'_> {
    fn fmt<W: fmt::Write>(&self, f: &mut fmt::Formatter<W>) -> fmt::Result {
        self.to_owned().fmt(f)
    }
}

/// Read like a [`ComRegisterSlave`].
impl<'de> MyDeserialize<'de> for ComRegisterSlaveRef<'de> {
    const SIZE: Option<usize> = None;

    type Size = AnyWidth;

    type Ctx = ();

    ghost form = { spec.register_slave.form };

    #[inline]
    fn deserialize<'s>(_ctx: (), buf: &mut ParseBuf<'de>) -> Result<Self, FaultOf<'s>> {
        let mut rest = buf.rest();
        let (_header, server_id) = read_head(&mut rest)?;
        let hostname = <U8Bytes as BytesRepr>::deserialize((), &mut rest)?.eat_all();
        let user = <U8Bytes as BytesRepr>::deserialize((), &mut rest)?.eat_all();
        let password = <U8Bytes as BytesRepr>::deserialize((), &mut rest)?.eat_all();
        let (port, replication_rank, master_id) = read_end(&mut rest)?;
        *buf = rest;
        Ok(ComRegisterSlaveRef {
            server_id: server_id.0,
            hostname,
            user,
            password,
            port: port.0,
            replication_rank: replication_rank.0,
            master_id: master_id.0,
        })
    }

    ghost size_is = { λ _. spec.size-register_slave };
}
