//! Borrowed initial handshakes.
#![tactic(auto, using(mysql_wire::proofs::Packets::packets), unfolding(crate::specs::Handshake::handshake, crate::specs::Handshake::handshake_head, crate::specs::Handshake::handshake_block))]

ghost use Rattle.std.specs.Prelude.{◌≡◌, length, option_map};
ghost use Rattle.mysql_auth.specs.Handshake as spec;

use crate::auth_plugin::AuthPlugin;
use crate::eof_name::{EofName, without_last_zero};
use crate::first_scramble::FirstScramble;
use crate::handshake::{HandshakePacket, HandshakePacketOf};
use crate::handshake_head::{HandshakeHeadRef, scramble_length};
use bitflags::Flags;
use mysql_wire::{
    AnyWidth, BareBytes, BytesRef, CapabilityFlags, FaultOf, MyDeserialize, ParseBuf, RawBytes,
};
use std::borrow::CowSlice;

/// The initial handshake, whose texts and scrambles stay in the packet: a [`HandshakePacket`] for as long as the packet
/// lives.
///
/// It is read from the same bytes with the same faults, and in a clause it is that handshake.
///
/// ```
/// let greeting: HandshakePacketRef<'_> = ParseBuf::new(alloc, payload).parse(())?;
/// let capabilities = greeting.capabilities() & supported_capabilities();
/// Ok((greeting.scramble_1(), capabilities))
/// ```
pub type HandshakePacketRef<'a> = HandshakePacketOf<
    BytesRef<'a>,
    FirstScramble<'a>,
    BytesRef<'a>,
    BytesRef<'a>,
>;

impl<'a> HandshakePacketRef<'a> {
    /// The bytes of the server's version.
    #[inline]
    pub fn server_version(&self) -> &'a [u8]
        ensures value { result.now ≡ spec.server_version self.now }
    {
        self.head.server_version.as_bytes()
    }

    /// The first scramble, of eight bytes.
    #[inline]
    pub fn scramble_1(&self) -> &'a [u8]
        ensures value { result.now ≡ spec.scramble_1 self.now }
        ensures eight { length (spec.scramble_1 self.now) ≡ 8 }
    {
        let scramble = self.head.scramble_1.as_array();
        scramble
    }

    /// The second scramble, if one was sent.
    #[inline]
    pub fn scramble_2(&self) -> Option<&'a [u8]>
        ensures value { option_map (λ s. s.now) result ≡ spec.scramble_2 self.now }
    {
        match &self.scramble_2 {
            Some(scramble) => Some(scramble.as_bytes()),
            None => None,
        }
    }

    /// The plugin's name, if one was sent.
    #[inline]
    pub fn auth_plugin_name(&self) -> Option<&'a [u8]>
        ensures value { option_map (λ s. s.now) result ≡ spec.auth_plugin_name self.now }
    {
        match &self.auth_plugin_name {
            Some(name) => Some(name.as_bytes()),
            None => None,
        }
    }

    /// The plugin, if one was named. One zero at the end of the name is dropped.
    pub fn auth_plugin(&self) -> Option<AuthPlugin<'a>>
        ensures value { result ≡ spec.auth_plugin self.now }
    {
        match &self.auth_plugin_name {
            Some(name) => Some(AuthPlugin::from_bytes(without_last_zero(name.as_bytes()))),
            None => None,
        }
    }

    /// Converts to a [`HandshakePacket`], which still borrows the texts. It takes no memory.
    pub fn to_owned(&self) -> HandshakePacket<'a>
        ensures value { result ≡ self.now }
    {
        HandshakePacketOf {
            head: self.head.to_owned(),
            scramble_2: match &self.scramble_2 {
                Some(scramble) => Some(RawBytes::new(CowSlice::Borrowed(scramble.as_bytes()))),
                None => None,
            },
            auth_plugin_name: match &self.auth_plugin_name {
                Some(name) => Some(RawBytes::new(CowSlice::Borrowed(name.as_bytes()))),
                None => None,
            },
        }
    }
}

/// Read like a [`HandshakePacket`].
impl<'de> MyDeserialize<'de> for HandshakePacketRef<'de> {
    const SIZE: Option<usize> = None;

    type Size = AnyWidth;

    type Ctx = ();

    ghost form = { spec.handshake.form };

    fn deserialize<'s>(_ctx: (), buf: &mut ParseBuf<'de>) -> Result<Self, FaultOf<'s>> {
        let mut rest = buf.rest();
        let (head, data_length) = HandshakeHeadRef::read(&mut rest)?;
        let capabilities = head.capabilities();
        let scramble_2 = if capabilities.contains(CapabilityFlags::CLIENT_SECURE_CONNECTION) {
            let length = scramble_length(data_length);
            Some(BytesRef::read::<BareBytes<247>>(length, &mut rest)?)
        } else {
            None
        };
        let auth_plugin_name = if capabilities.contains(CapabilityFlags::CLIENT_PLUGIN_AUTH) {
            Some(BytesRef::read::<EofName>((), &mut rest)?)
        } else {
            None
        };
        *buf = rest;
        Ok(HandshakePacketOf {
            head,
            scramble_2,
            auth_plugin_name,
        })
    }

    ghost size_is = { λ _. spec.size-handshake };
}
