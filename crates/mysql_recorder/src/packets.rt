//! Shows each packet of a recording.

ghost use Rattle.std.specs.Prelude.{◌≡◌, ◌≢◌, ◌↔◌, ◌-◌, [], ◌∷◌, ◌++◌, ℕ, List, IfOk, IfErr, IsTrue, OnErr, OnOk, true, false, is_some, string_bytes};
ghost use Rattle.mysql_conversation.specs.Pipelined.{Numbered};
ghost use Rattle.mysql_show.specs.Appended.{Stays};
ghost use Rattle.mysql_conversation.specs.Session.{IsSession, IsSessionBeginning};
ghost use Rattle.mysql_conversation.specs.Piped.{place};
ghost use Rattle.mysql_observer.specs.Observed.{Observed, Resumed, ResumedAfter, last_exchange};
ghost use Rattle.mysql_recorder.specs.Entries.{entry_as};
ghost use Rattle.mysql_conversation.specs.declared.packet_kind_tag.PacketKindTag as names_of;
ghost use Rattle.mysql_conversation.specs.declared.packet_kind.PacketKind as kinds;
ghost use Rattle.mysql_conversation.specs.declared.pipeline.SessionError as refusals;
ghost use Rattle.mysql_conversation.specs.declared.pipeline.SessionError.TheVariants as refusal;
ghost use Rattle.mysql_recorder.specs.Reasons.{IsReason};
ghost use Rattle.mysql_recorder.specs.Refused.{MayCome, ShowsRefused, expected_fields, refusal_text};
ghost use Rattle.mysql_recorder.specs.Refusals.{AppendsRefused, Expects, IfLine, IfRefused, Refuses};
ghost use Rattle.mysql_recorder.specs.Shown.{AppendsFields};
ghost use Rattle.mysql_recorder.specs.RecordFields.{AreFields};
ghost use Rattle.mysql_recorder.specs.Entries.{notice_text};
ghost use Rattle.mysql_recorder.specs.Sides.{IsAtRest, options};
ghost use Rattle.mysql_recorder.specs.Steps.{notice_exchange};
ghost use Rattle.mysql_recorder.specs.Sums.{AppendsSomeSums};
ghost use Rattle.mysql_show.specs.Fields.{have_float};
ghost use Rattle.mysql_recorder.specs.Taken.{ShowsPacket};
ghost use Rattle.mysql_recorder.specs.declared.packets.Taken.TheVariants as taken_as;

use crate::entry::{Layout, Notice, Packet};
use crate::error::RecordingError;
use crate::fields::append_fields;
use crate::sums::Sums;
use crate::unheard::{Front, Unheard};
use mysql_conversation::{PacketKind, PacketKindTag, SessionError, Side};
use mysql_observer::{ObservedPacket, Observer, ObserverLimits};
use mysql_replies::SessionCapabilities;
use mysql_show::Field;
use mysql_statements::{PipelinedLimits, StatementLimits};
use std::alloc::{AllocError, Global};

/// The number of bytes that are shown of an unexpected packet.
const BEGINNING: usize = 64;

/// The maximum number of statements, of types of their parameters and columns in total, and of types of the
/// columns of a result.
const STATEMENTS: usize = 4096;

const TYPES: usize = 262_144;

/// The maximum length of a pipelined execution that is kept.
const EARLY_BYTES: usize = 65_536;

/// Returns the limits for a connection in which `waiting` commands may wait.
fn limits(waiting: usize) -> ObserverLimits
    ensures { result.waiting ≡ waiting }
{
    ObserverLimits {
        waiting,
        statements: StatementLimits {
            statements: STATEMENTS,
            types: TYPES,
        },
        // (between two packets of the server, commands that no longer wait for their turn are held until the next one)
        early: PipelinedLimits {
            commands: waiting.saturating_mul(2),
            bytes: EARLY_BYTES,
        },
        columns: TYPES,
    }
}

/// The outcome of a packet.
#[derive(Clone, Copy)]
pub(crate) enum Taken {
    /// The packet is shown.
    Shown,
    /// The packet is unexpected, and shown as unexpected. Both sides agreed on these capabilities.
    Refused(SessionCapabilities),
}

/// The packets of a connection, which are shown one by one.
///
/// It keeps what an observer keeps, and the sums.
#[derive(Drop)]
pub(crate) struct Packets {
    alloc: Global,
    layout: Layout,
    observer: Observer,
    /// Whether the recording contains the decrypted contents of TLS.
    is_deciphered: bool,
    /// The commands that were pipelined since the last packet of the server.
    unheard: Unheard,
    /// The sums, if they are requested.
    sums: Option<Sums>,
}

/// The name of a [`SessionError`].
fn refusal_name(why: SessionError) -> &'static str
    ensures { result.now ≡ refusal_text why }
{
    match why {
        SessionError::UnexpectedPacket => "Unexpected",
        SessionError::Full => "Full",
        SessionError::Memory => "Memory",
        SessionError::Encrypted => "Encrypted",
        SessionError::Compressed => "Compressed",
    }
}

impl Packets {
    /// Creates the state before the first packet of a connection, from its greeting on, in which `waiting`
    /// commands may wait.
    pub(crate) fn new(alloc: Global, layout: Layout, waiting: usize) -> Self
        ensures observed { Observed result.observer [] }
        ensures options { options result ≡ record { layout = layout; may_wait = waiting; is_deciphered = false; has_sums = false } }
    {
        Packets {
            alloc,
            layout,
            observer: Observer::new(alloc, limits(waiting)),
            is_deciphered: false,
            unheard: Unheard::none(),
            sums: None,
        }
    }

    /// Sums the following packets.
    pub(crate) fn sum(&mut self)
        ensures same { self.new ≡ record self.old { sums = self.new.sums } }
        ensures sums { is_some self.new.sums ≡ true }
    {
        self.sums = Some(Sums::new(self.alloc));
    }

    /// Declares that the recording contains the decrypted contents of TLS.
    pub(crate) fn tls_established(&mut self)
        ensures { self.new ≡ record self.old { is_deciphered = true } }
    {
        self.is_deciphered = true;
    }

    /// Appends the sums, if they are requested.
    pub(crate) fn append_sums(&self, out: &mut String) -> Result<(), AllocError>
        ensures none { is_some self.now.sums ≡ false → (result ≡ Ok tt) × (string_bytes out.new ≡ string_bytes out.old) }
        ensures sums { is_some self.now.sums ≡ true → OnOk result (AppendsSomeSums self.now.layout (string_bytes out.old) (string_bytes out.new)) }
        ensures stays { Stays (string_bytes out.old) (string_bytes out.new) }
    {
        match &self.sums {
            Some(sums) => sums.append(self.layout, out),
            None => Ok(()),
        }
    }

    /// The agreed capabilities, after the login.
    pub(crate) fn agreed(&self) -> Option<SessionCapabilities> {
        self.observer.agreed()
    }

    /// Whether every command is answered.
    pub(crate) fn is_idle(&self) -> bool
        ensures whole { (items : List Numbered) → Observed self.now.observer items → IsTrue result ↔ IsSession items }
        ensures rests { IsTrue result → IsAtRest self.now.observer }
    {
        self.observer.is_idle()
    }

    /// The only command that was pipelined since the last packet of the server, if there is exactly one.
    pub(crate) fn unheard(&self) -> Option<Front> {
        self.unheard.only()
    }

    /// Continues at the next command under the agreed capabilities, in the middle of a connection or after a loss.
    pub(crate) fn resume(&mut self, agreed: SessionCapabilities)
        ensures resumed { Resumed self.new.observer agreed (last_exchange self.old.observer) [] }
        ensures options { options self.new ≡ options self.old }
    {
        self.observer.resume(agreed);
        self.unheard = Unheard::none();
    }

    /// Continues after a command, the last so far: the answer to the previous one is lost.
    pub(crate) fn resume_after(&mut self, agreed: SessionCapabilities, command: &Front)
        ensures resumed { (front : List ℕ) × ResumedAfter self.new.observer agreed (last_exchange self.old.observer - 1) front }
        ensures options { options self.new ≡ options self.old }
    {
        self.observer.resume_after(agreed, command.as_slice());
        self.unheard = Unheard::none();
    }

    /// Appends a notice about a side's stream. If the client's stream is resynchronized, an exchange begins.
    pub(crate) fn append_notice(
        &self,
        kind: &'static str,
        side: Side,
        field: Field<'_>,
        out: &mut String,
    ) -> Result<(), AllocError>
        ensures text { OnOk result (have_float (field.entry ∷ []) ≡ false → string_bytes out.new
            ≡ string_bytes out.old ++ notice_text self.now.layout side (notice_exchange kind.now side (last_exchange self.now.observer)) kind.now (field.entry ∷ [])) }
        ensures stays { Stays (string_bytes out.old) (string_bytes out.new) }
    {
        let notice = Notice {
            side,
            exchange: self.notice_exchange(kind, side),
            kind,
        };
        notice.append(self.alloc, self.layout, &[field], out)
    }

    /// The number of the last exchange; if the client's stream is resynchronized, that of the exchange that begins.
    fn notice_exchange(&self, kind: &str, side: Side) -> u64
        ensures { result ≡ notice_exchange kind.now side (last_exchange self.now.observer) }
    {
        let is_next = kind == "resync" && side == Side::Client;
        self.observer
            .last_exchange()
            .saturating_add(u64::from(is_next))
    }

    /// Takes a packet, and appends its entry.
    pub(crate) fn take(
        &mut self,
        side: Side,
        sequence: u8,
        payload: &[u8],
        out: &mut String,
    ) -> Result<Taken, RecordingError>
        ensures shown { IfOk result (λ taken. taken ≡ taken_as.Shown → (items : List Numbered) → Observed self.old.observer items
            → ShowsPacket self.old.layout side sequence payload.now items self.new.observer (string_bytes out.old) (string_bytes out.new)) }
        ensures lost { IfOk result (λ taken. taken ≢ taken_as.Shown → (items : List Numbered) → Observed self.old.observer items
            → (why : refusals.SessionError) × ShowsRefused PacketKindTag.ALL self.old.layout side sequence payload.now items why (string_bytes out.old) (string_bytes out.new)) }
        ensures refused { IfErr result (λ e. (items : List Numbered) → Observed self.old.observer items
            → IfRefused e (λ why. ShowsRefused PacketKindTag.ALL self.old.layout side sequence payload.now items why (string_bytes out.old) (string_bytes out.new))) }
        // Also of a connection that is resumed:
        ensures reason { IfErr result (λ e. IfRefused e (λ why. IsReason self.old.observer side payload.now why)) }
        ensures stays { Stays (string_bytes out.old) (string_bytes out.new) }
        ensures options { options self.new ≡ options self.old }
        ensures no_line { IfErr result (λ e. IfLine e ⊥) }
    {
        let is_between = self.observer.is_idle();
        match self.next(side, payload) {
            Ok(seen) => {
                if !seen.has_memory {
                    return Err(RecordingError::Memory);
                }
                let packet = Packet {
                    side,
                    sequence,
                    exchange: seen.exchange,
                    kind: seen.kind.name().as_str(),
                    payload,
                };
                self.show(&packet, seen.kind, is_between, out)?;
                Ok(Taken::Shown)
            }
            Err(why) => self.refuse(side, sequence, payload, why, out),
        }
    }

    /// Classifies a packet. After a request for TLS, continues with the decrypted contents, if the recording has them.
    fn next(&mut self, side: Side, payload: &[u8]) -> Result<ObservedPacket, SessionError>
        // What came has now this packet, of this kind and exchange, at its end.
        ensures taken { IfOk result (λ x. (items : List Numbered) → Observed self.old.observer items → Observed self.new.observer (items ++ place side payload.now x.kind x.exchange ∷ [])) }
        // Of no kind and exchange does the packet go on with what came.
        ensures refused { IfErr result (λ why. (items : List Numbered) (kind : kinds.PacketKind) (number : ℕ) → why ≡ refusal.UnexpectedPacket → Observed self.old.observer items
            → IsSessionBeginning (items ++ place side payload.now kind number ∷ []) → ⊥) }
        // Also of a connection that is resumed:
        ensures reason { IfErr result (λ why. IsReason self.old.observer side payload.now why) }
        ensures err { OnErr result ((items : List Numbered) → Observed self.old.observer items → Observed self.new.observer items) }
        ensures options { options self.new ≡ options self.old }
    {
        let seen = self.observer.next(side, payload);
        if self.is_deciphered {
            self.observer.tls_established();
        }
        seen
    }

    /// Appends an unexpected packet. Before the login is done, it ends the recording.
    fn refuse(
        &self,
        side: Side,
        sequence: u8,
        payload: &[u8],
        why: SessionError,
        out: &mut String,
    ) -> Result<Taken, RecordingError>
        ensures ok { IfOk result (λ taken. (taken ≢ taken_as.Shown) × Refuses PacketKindTag.ALL self.now.layout self.now.observer side sequence payload.now why (string_bytes out.old) (string_bytes out.new)) }
        ensures err { IfErr result (λ e. IfRefused e (λ shown. (shown ≡ why) × Refuses PacketKindTag.ALL self.now.layout self.now.observer side sequence payload.now why (string_bytes out.old) (string_bytes out.new))) }
        ensures stays { Stays (string_bytes out.old) (string_bytes out.new) }
        ensures no_line { IfErr result (λ e. IfLine e ⊥) }
    {
        let packet = Packet {
            side,
            sequence,
            exchange: self.observer.last_exchange(),
            kind: "refused",
            payload,
        };
        self.show_refused(&packet, why, out)?;
        match self.observer.agreed() {
            Some(agreed) => Ok(Taken::Refused(agreed)),
            None => Err(RecordingError::Refused(why)),
        }
    }

    /// Appends a packet.
    fn show(
        &mut self,
        packet: &Packet<'_>,
        kind: PacketKind,
        is_between: bool,
        out: &mut String,
    ) -> Result<(), AllocError>
        ensures ok { OnOk result (AppendsFields (λ fields. AreFields self.old.observer packet.now.side kind packet.now.payload.now fields) self.old.layout (entry_as packet.now) (string_bytes out.old) (string_bytes out.new)) }
        ensures stays { Stays (string_bytes out.old) (string_bytes out.new) }
        ensures observer { self.new.observer ≡ self.old.observer }
        ensures options { options self.new ≡ options self.old }
    {
        if let Some(sums) = &mut self.sums {
            sums.add(packet, kind)?;
        }
        let is_early = !is_between && matches!(kind, PacketKind::Command(_));
        self.unheard
            .hear(packet.side, kind, is_early, packet.payload);
        self.show_fields(packet, kind, out)
    }

    /// Appends a packet with its fields.
    fn show_fields(
        &self,
        packet: &Packet<'_>,
        kind: PacketKind,
        out: &mut String,
    ) -> Result<(), AllocError>
        ensures ok { OnOk result (AppendsFields (λ fields. AreFields self.now.observer packet.now.side kind packet.now.payload.now fields) self.now.layout (entry_as packet.now) (string_bytes out.old) (string_bytes out.new)) }
        ensures stays { Stays (string_bytes out.old) (string_bytes out.new) }
    {
        let mut fields = Vec::new(self.alloc);
        append_fields(
            self.alloc,
            &self.observer,
            packet.side,
            kind,
            packet.payload,
            &mut fields,
        )?;
        packet.append(self.alloc, self.layout, fields.as_slice(), out)
    }

    /// Appends an unexpected packet, with its first bytes, and the kinds that may come next.
    fn show_refused(
        &self,
        packet: &Packet<'_>,
        why: SessionError,
        out: &mut String,
    ) -> Result<(), AllocError>
        ensures ok { OnOk result (AppendsRefused PacketKindTag.ALL self.now.layout self.now.observer (entry_as packet.now) why (string_bytes out.old) (string_bytes out.new)) }
        ensures stays { Stays (string_bytes out.old) (string_bytes out.new) }
    {
        let payload = packet.payload;
        let mut fields = Vec::new(self.alloc);
        fields.push(Field::bytes("begins", &payload[..payload.len().min(BEGINNING)]))?;
        fields.push(Field::word("refused", refusal_name(why)))?;
        self.append_expected(&PacketKindTag::ALL, &mut fields)?;
        packet.append(self.alloc, self.layout, fields.as_slice(), out)
    }

    /// Appends the names of the kinds that may come next.
    fn append_expected(
        &self,
        all: &[PacketKindTag],
        fields: &mut Vec<Field<'_>>,
    ) -> Result<(), AllocError>
        ensures ok { OnOk result ((names : List names_of.PacketKindTag) × (fields.new.items ≡ fields.old.items ++ expected_fields names) × Expects self.now.observer all.now names) }
    {
        for name in all {
            self.append_name(*name, fields)?;
        }
        Ok(())
    }

    /// Appends a name, if its kind may come next.
    fn append_name(
        &self,
        name: PacketKindTag,
        fields: &mut Vec<Field<'_>>,
    ) -> Result<(), AllocError>
        ensures ok { OnOk result ((names : List names_of.PacketKindTag) × (fields.new.items ≡ fields.old.items ++ expected_fields names) × Expects self.now.observer (name ∷ []) names) }
    {
        if self.may_receive(name) {
            fields.push(Field::word("expected", name.as_str()))?;
        }
        Ok(())
    }

    /// Whether a packet of this kind may come next, from either side.
    fn may_receive(&self, name: PacketKindTag) -> bool
        ensures { (items : List Numbered) → Observed self.now.observer items → IsTrue result ↔ MayCome items name }
    {
        self.observer.may_receive(Side::Client, name)
            || self.observer.may_receive(Side::Server, name)
    }
}
