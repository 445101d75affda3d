//! Both sides of a connection: their streams, and the packets that are shown.

ghost use Rattle.std.specs.Prelude.{◌≡◌, ◌≢◌, ◌↔◌, ◌-◌, ◌∷◌, [], ◌++◌, ℕ, List, IfOk, IfErr, IsTrue, OnOk, None, true, false, is_some, string_bytes};
ghost use Rattle.mysql_show.specs.Appended.{Stays};
ghost use Rattle.mysql_observer.specs.Observed.{Resumed, ResumedAfter, last_exchange};
ghost use Rattle.mysql_recorder.specs.Frames.{Piece};
ghost use Rattle.mysql_recorder.specs.Keeps.{Keeps};
ghost use Rattle.mysql_recorder.specs.Losses.{PieceLoses, PieceLosesIn};
ghost use Rattle.mysql_recorder.specs.Refusals.{IfLine, IfRefused};
ghost use Rattle.mysql_recorder.specs.Shown.{Item};
ghost use Rattle.mysql_recorder.specs.Sides as spec;
ghost use Rattle.mysql_recorder.specs.Steps as steps;
ghost use Rattle.mysql_recorder.specs.Stops.{PieceStops};
ghost use Rattle.mysql_recorder.specs.Sums.{AppendsSomeSums};
ghost use Rattle.mysql_recorder.specs.declared.piece.Came.TheVariants as came_as;

use crate::entry::Layout;
use crate::error::RecordingError;
use crate::loss::{HEAD, Loss, begins_command, begins_with};
use crate::packets::Packets;
use crate::piece::{Came, read_packets};
use crate::stream::Stream;
use crate::unheard::Front;
use mysql_conversation::{PacketKindTag, Side};
use mysql_replies::SessionCapabilities;
use mysql_show::Field;
use std::alloc::{AllocError, Global};

/// Both sides of a connection.
#[derive(Drop)]
pub(crate) struct Sides {
    alloc: Global,
    longest: usize,
    client: Stream,
    server: Stream,
    /// The sequence number of the server's next frame, if its stream is out of step and the client's isn't.
    answer: Option<u8>,
    /// Whether something was lost.
    has_lost: bool,
    packets: Packets,
}

impl Sides {
    /// Creates both sides of a connection from its greeting on, with a maximum payload length of `longest`
    /// bytes, in which `waiting` commands may wait.
    pub(crate) fn new(alloc: Global, layout: Layout, longest: usize, waiting: usize) -> Self
        ensures stand { spec.Stand result [] [] }
        ensures settings { spec.settings result ≡ record { layout = layout; longest = longest; may_wait = waiting; is_deciphered = false; has_sums = false } }
    {
        Sides {
            alloc,
            longest,
            client: Stream::new(alloc, longest, true),
            server: Stream::new(alloc, longest, true),
            answer: None,
            has_lost: false,
            packets: Packets::new(alloc, layout, waiting),
        }
    }

    /// Starts at the next command of a connection, under the agreed capabilities. Both streams are out of step
    /// up to there.
    pub(crate) fn take_up_at(&mut self, agreed: SessionCapabilities)
        ensures resync { spec.IsResynced self.new agreed (last_exchange self.old.packets.observer) }
        ensures lost { spec.has_lost self.new ≡ spec.has_lost self.old }
        ensures settings { spec.settings self.new ≡ spec.settings self.old }
    {
        self.client = Stream::new(self.alloc, self.longest, false);
        self.server = Stream::new(self.alloc, self.longest, false);
        self.packets.resume(agreed);
    }

    /// Sums the following packets.
    pub(crate) fn sum(&mut self)
        ensures same { self.new ≡ record self.old { packets = record self.old.packets { sums = self.new.packets.sums } } }
        ensures sums { is_some self.new.packets.sums ≡ true }
    {
        self.packets.sum();
    }

    /// Declares that the recording contains the decrypted contents of TLS.
    pub(crate) fn tls_established(&mut self)
        ensures { self.new ≡ record self.old { packets = record self.old.packets { is_deciphered = true } } }
    {
        self.packets.tls_established();
    }

    /// Appends the sums, if they are requested.
    pub(crate) fn append_sums(&self, out: &mut String) -> Result<(), AllocError>
        ensures none { (spec.settings self.now).has_sums ≡ false → (result ≡ Ok tt) × (string_bytes out.new ≡ string_bytes out.old) }
        ensures sums { (spec.settings self.now).has_sums ≡ true → OnOk result (AppendsSomeSums (spec.layout self.now) (string_bytes out.old) (string_bytes out.new)) }
        ensures stays { Stays (string_bytes out.old) (string_bytes out.new) }
    {
        self.packets.append_sums(out)
    }

    /// Whether every command is answered, and no packet is incomplete.
    pub(crate) fn is_complete(&self) -> bool
        ensures stand { (pieces : List Piece) (items : List Item) → spec.Stand self.now pieces items → IsTrue result ↔ spec.IsWhole self.now items }
        // Also after a loss:
        ensures ended { IsTrue result → spec.HasEnded self.now }
    {
        self.client.is_between() && self.server.is_between() && self.packets.is_idle()
    }

    /// Whether something was lost.
    pub(crate) fn has_lost(&self) -> bool
        ensures { result ≡ spec.has_lost self.now }
    {
        self.has_lost
    }

    /// Whether enough bytes of a line have come to see how it begins.
    pub(crate) fn may_be_begun(&self, side: Side, line: &[u8]) -> bool {
        line.len() >= HEAD || self.passed(side).is_none()
    }

    /// The number of skipped bytes of a side's stream, if it is out of step.
    fn passed(&self, side: Side) -> Option<u64>
        ensures { result ≡ spec.passed_of side self.now }
    {
        match side {
            Side::Client => self.client.passed(),
            Side::Server => self.server.passed(),
        }
    }

    /// Takes bytes of a line, and appends their packets. At the start of a line the stream may be resynchronized.
    pub(crate) fn take_line(
        &mut self,
        side: Side,
        is_beginning: bool,
        piece: &[u8],
        out: &mut String,
    ) -> Result<(), RecordingError>
        ensures goes { OnOk result (spec.GoesOn (spec.piece side piece.now ∷ []) self.old self.new (string_bytes out.old) (string_bytes out.new)) }
        ensures refused { IfErr result (λ e. PieceStops PacketKindTag.ALL side piece.now self.old e (string_bytes out.old) (string_bytes out.new)) }
        ensures loses { PieceLoses PacketKindTag.ALL side piece.now self.old self.new (string_bytes out.old) (string_bytes out.new) }
        ensures keeps { Keeps result self.old self.new (string_bytes out.old) (string_bytes out.new) }
    {
        if is_beginning && self.passed(side).is_some() {
            self.begin_line(side, piece, out)
        } else {
            self.take_piece(side, piece, out)
        }
    }

    /// Takes the beginning of a line.
    fn begin_line(
        &mut self,
        side: Side,
        piece: &[u8],
        out: &mut String,
    ) -> Result<(), RecordingError>
        ensures goes { OnOk result (spec.GoesOn (spec.piece side piece.now ∷ []) self.old self.new (string_bytes out.old) (string_bytes out.new)) }
        ensures keeps { Keeps result self.old self.new (string_bytes out.old) (string_bytes out.new) }
    {
        self.take_up(side, piece, out)?;
        self.take_piece(side, piece, out)
    }

    /// Resynchronizes a stream, if it is out of step and a line of it begins as it must.
    fn take_up(&mut self, side: Side, line: &[u8], out: &mut String) -> Result<(), RecordingError>
        // Also after a loss.
        ensures steps { OnOk result (steps.StepsIn side line.now self.old self.new) }
        ensures goes { OnOk result (spec.GoesOn [] self.old self.new (string_bytes out.old) (string_bytes out.new)) }
        ensures keeps { Keeps result self.old self.new (string_bytes out.old) (string_bytes out.new) }
    {
        let Some(passed) = self.passed(side) else {
            return Ok(());
        };
        if self.begins(side, line) {
            self.step_in(side);
            if self.has_lost || passed > 0 {
                self.say_passed("resync", side, passed, out)?;
            }
        }
        Ok(())
    }

    /// Whether a line begins as the next exchange of its stream must.
    fn begins(&self, side: Side, line: &[u8]) -> bool
        ensures { result ≡ steps.begins side self.now line.now }
    {
        match (side, self.answer) {
            (Side::Client, _) => begins_command(line),
            (Side::Server, Some(number)) => begins_with(number, line),
            (Side::Server, None) => false,
        }
    }

    /// Marks a stream as in step.
    fn step_in(&mut self, side: Side)
        ensures passed { spec.passed_of side self.new ≡ None }
        ensures lost { spec.has_lost self.new ≡ spec.has_lost self.old }
        ensures settings { spec.settings self.new ≡ spec.settings self.old }
    {
        match side {
            Side::Client => self.client.take_up(),
            Side::Server => self.server.take_up(),
        }
    }

    /// Skips `count` bytes of a stream, if it is out of step.
    fn pass_over(&mut self, side: Side, count: usize)
        ensures lost { spec.has_lost self.new ≡ spec.has_lost self.old }
        ensures settings { spec.settings self.new ≡ spec.settings self.old }
    {
        match side {
            Side::Client => self.client.pass_over(count),
            Side::Server => self.server.pass_over(count),
        }
    }

    /// Appends the number of skipped bytes of each stream that is still out of step.
    pub(crate) fn say_unheard(&self, out: &mut String) -> Result<(), AllocError>
        ensures left { OnOk result (steps.SaysLeft self.now (string_bytes out.old) (string_bytes out.new)) }
        ensures none { OnOk result (spec.SaysNothing self.now (string_bytes out.old) (string_bytes out.new)) }
        ensures stays { Stays (string_bytes out.old) (string_bytes out.new) }
    {
        self.say_left(Side::Client, out)?;
        self.say_left(Side::Server, out)
    }

    /// Appends the number of skipped bytes of a stream, if it is still out of step.
    fn say_left(&self, side: Side, out: &mut String) -> Result<(), AllocError>
        ensures text { OnOk result (string_bytes out.new ≡ string_bytes out.old ++ steps.left_text side self.now) }
        ensures none { OnOk result (spec.passed_of side self.now ≡ None → string_bytes out.new ≡ string_bytes out.old) }
        ensures stays { Stays (string_bytes out.old) (string_bytes out.new) }
    {
        match self.passed(side) {
            Some(passed) if self.has_lost || passed > 0 => {
                self.say_passed("no_resync", side, passed, out)
            }
            _ => Ok(()),
        }
    }

    /// Appends the number of skipped bytes of a stream.
    fn say_passed(
        &self,
        kind: &'static str,
        side: Side,
        passed: u64,
        out: &mut String,
    ) -> Result<(), AllocError>
        ensures text { OnOk result (string_bytes out.new ≡ string_bytes out.old ++ steps.passed_text self.now kind.now side passed) }
        ensures stays { Stays (string_bytes out.old) (string_bytes out.new) }
    {
        let field = Field::number("skipped_bytes", passed);
        self.packets.append_notice(kind, side, field, out)
    }

    /// Appends a loss, after which both streams are out of step. Before both sides have agreed on capabilities it ends the
    /// recording.
    pub(crate) fn lose(
        &mut self,
        side: Side,
        loss: Loss,
        out: &mut String,
    ) -> Result<(), RecordingError>
        ensures lost { OnOk result (spec.has_lost self.new ≡ true) }
        ensures refused { IfErr result (λ e. IfRefused e (λ why. ⊥)) }
        ensures keeps { Keeps result self.old self.new (string_bytes out.old) (string_bytes out.new) }
    {
        let Some(agreed) = self.packets.agreed() else {
            return Err(RecordingError::from(loss));
        };
        self.packets.append_notice("lost", side, loss.field(), out)?;
        match self.packets.unheard() {
            Some(command) if loss.is_missing() && side == Side::Server => {
                self.lose_answer(agreed, &command)
            }
            _ => self.be_lost(agreed),
        }
        Ok(())
    }

    /// Marks the server's stream as out of step, up to the answer to this command, which has come: the answer
    /// to the previous one is missing.
    fn lose_answer(&mut self, agreed: SessionCapabilities, command: &Front)
        ensures lost { spec.has_lost self.new ≡ true }
        ensures resumed { (front : List ℕ) × ResumedAfter self.new.packets.observer agreed (last_exchange self.old.packets.observer - 1) front }
        ensures settings { spec.settings self.new ≡ spec.settings self.old }
    {
        self.has_lost = true;
        self.server.lose();
        self.answer = Some(self.client.number());
        self.packets.resume_after(agreed, command);
    }

    /// Marks both streams as out of step, up to the next command.
    fn be_lost(&mut self, agreed: SessionCapabilities)
        ensures lost { spec.has_lost self.new ≡ true }
        ensures resumed { Resumed self.new.packets.observer agreed (last_exchange self.old.packets.observer) [] }
        ensures settings { spec.settings self.new ≡ spec.settings self.old }
    {
        self.has_lost = true;
        self.client.lose();
        self.server.lose();
        self.answer = None;
        self.packets.resume(agreed);
    }

    /// Takes a piece of a side's stream, and appends the entries of its packets.
    fn take_piece(
        &mut self,
        side: Side,
        piece: &[u8],
        out: &mut String,
    ) -> Result<(), RecordingError>
        ensures goes { OnOk result (spec.GoesOn (spec.piece side piece.now ∷ []) self.old self.new (string_bytes out.old) (string_bytes out.new)) }
        ensures refused { IfErr result (λ e. PieceStops PacketKindTag.ALL side piece.now self.old e (string_bytes out.old) (string_bytes out.new)) }
        ensures loses { PieceLoses PacketKindTag.ALL side piece.now self.old self.new (string_bytes out.old) (string_bytes out.new) }
        ensures keeps { Keeps result self.old self.new (string_bytes out.old) (string_bytes out.new) }
    {
        if self.passed(side).is_some() {
            self.pass_over(side, piece.len());
            return Ok(());
        }
        let mut first = None;
        match self.read(side, piece, &mut first, out) {
            Ok(came) => self.go_on(side, came, first, out),
            Err(error) => Err(error),
        }
    }

    /// Continues after a piece, by its outcome.
    fn go_on(
        &mut self,
        side: Side,
        came: Came,
        first: Option<u8>,
        out: &mut String,
    ) -> Result<(), RecordingError>
        ensures whole { came ≡ came_as.Whole → spec.IsSame self.old self.new × (string_bytes out.new ≡ string_bytes out.old) }
        ensures lost { came ≢ came_as.Whole → OnOk result (spec.has_lost self.new ≡ true) }
        ensures refused { IfErr result (λ e. IfRefused e (λ why. ⊥)) }
        ensures keeps { Keeps result self.old self.new (string_bytes out.old) (string_bytes out.new) }
    {
        self.await_answer(side, first);
        match came {
            Came::Whole => Ok(()),
            Came::Refused(agreed, left) => {
                self.be_lost(agreed);
                self.pass_over(side, left);
                Ok(())
            }
            Came::NoFrames(error, left) => {
                self.lose(side, Loss::Frame(error), out)?;
                self.pass_over(side, left);
                Ok(())
            }
        }
    }

    /// Takes a piece of a stream that is in step.
    fn read(
        &mut self,
        side: Side,
        piece: &[u8],
        first: &mut Option<u8>,
        out: &mut String,
    ) -> Result<Came, RecordingError>
        ensures goes { IfOk result (λ came. came ≡ came_as.Whole → spec.GoesOn (spec.piece side piece.now ∷ []) self.old self.new (string_bytes out.old) (string_bytes out.new)) }
        ensures refused { IfErr result (λ e. PieceStops PacketKindTag.ALL side piece.now self.old e (string_bytes out.old) (string_bytes out.new)) }
        ensures lost { spec.has_lost self.new ≡ spec.has_lost self.old }
        ensures settings { spec.settings self.new ≡ spec.settings self.old }
        ensures loses { IfOk result (λ came. came ≢ came_as.Whole → PieceLosesIn PacketKindTag.ALL side piece.now self.old (string_bytes out.old) (string_bytes out.new)) }
        ensures stays { Stays (string_bytes out.old) (string_bytes out.new) }
        ensures no_line { IfErr result (λ e. IfLine e ⊥) }
    {
        match side {
            Side::Client => {
                read_packets(
                    &mut self.client,
                    &mut self.packets,
                    Side::Client,
                    piece,
                    first,
                    out,
                )
            }
            Side::Server => {
                read_packets(
                    &mut self.server,
                    &mut self.packets,
                    Side::Server,
                    piece,
                    first,
                    out,
                )
            }
        }
    }

    /// After the first packet of a client whose stream is resynchronized, allows the server's stream to be
    /// resynchronized too, from the answer on.
    fn await_answer(&mut self, side: Side, number: Option<u8>)
        ensures { spec.IsSame self.old self.new }
    {
        if side == Side::Client && self.server.passed().is_some() && self.answer.is_none() {
            self.answer = number;
        }
    }
}
