//! A recording: the bytes that both sides of a connection sent.

ghost use Rattle.std.specs.Prelude.{◌≡◌, ◌↔◌, ◌∷◌, [], ℕ, List, IfErr, IsTrue, None, OnOk, Some, false, true, string_bytes};
ghost use Rattle.mysql_show.specs.Appended.{Stays};
ghost use Rattle.mysql_recorder.specs.Keeps.{Keeps};
ghost use Rattle.mysql_recorder.specs.Losses.{LineEndLoses, LineLoses, Loses, TextLoses};
ghost use Rattle.mysql_recorder.specs.Lines.{next_place, place_after};
ghost use Rattle.mysql_recorder.specs.Recorded as spec;
ghost use Rattle.mysql_recorder.specs.Refusals.{IfLine, IfRefused};
ghost use Rattle.mysql_recorder.specs.Shown.{Item};
ghost use Rattle.mysql_recorder.specs.Stops.{LineStops, Stops, TextStops};
ghost use Rattle.mysql_recorder.specs.Sums.{AppendsSomeSums};

use crate::entry::Layout;
use crate::error::RecordingError;
use crate::line::{Place, Said};
use crate::loss::Loss;
use crate::mark::{may_be_mark, missing_of};
use crate::sides::Sides;
use mysql_conversation::{PacketKindTag, Side};
use mysql_replies::SessionCapabilities;
use std::alloc::{AllocError, Global};
use std::mem;

/// Reads a recording in pieces of any size, and shows each packet once its last byte has come.
///
/// An unexpected packet, bytes that are not the expected frames, or a mark of missing bytes is shown, and both
/// streams are then out of step. They are skipped up to the next line of the client that begins with a command,
/// and the next line of the server that begins with a frame with the number after that command's; a notice says
/// where each stream is resynchronized, and how many bytes were skipped.
///
/// It keeps the incomplete payload of each side, the pipelined commands, and the state of the conversation.
#[derive(Drop)]
pub struct Recording {
    alloc: Global,
    place: Place,
    line: Line,
    sides: Sides,
}

/// The bytes of a line that have not been taken yet.
#[derive(Drop)]
struct Line {
    side: Side,
    bytes: Vec<u8>,
    /// Whether nothing of the line was taken.
    is_untaken: bool,
}

impl Recording {
    /// Creates a recording without input, with a maximum payload length of `longest` bytes and at most
    /// `waiting` waiting commands.
    pub fn new(alloc: Global, layout: Layout, longest: usize, waiting: usize) -> Self
        ensures recorded { spec.Recorded result [] [] }
        ensures settings { spec.settings result ≡ record { layout = layout; longest = longest; may_wait = waiting; is_deciphered = false; has_sums = false } }
    {
        Recording {
            alloc,
            place: Place::Start,
            line: Line {
                side: Side::Client,
                bytes: Vec::new(alloc),
                is_untaken: true,
            },
            sides: Sides::new(alloc, layout, longest, waiting),
        }
    }

    /// Starts at the next command of a connection, under the agreed capabilities, if its greeting and its login
    /// were not recorded. Both streams are out of step up to there.
    pub fn resync(self, agreed: SessionCapabilities) -> Self
        ensures resync { spec.IsResynced self result agreed }
        ensures lost { spec.has_lost result ≡ spec.has_lost self }
        ensures settings { spec.settings result ≡ spec.settings self }
    {
        let mut recording = self;
        recording.sides.take_up_at(agreed);
        recording
    }

    /// Sums the following packets.
    pub fn with_sums(self) -> Self
        ensures settings { spec.settings result ≡ record (spec.settings self) { has_sums = true } }
        ensures recorded { (text : List ℕ) (items : List Item) → spec.Recorded self text items → spec.Recorded result text items }
        ensures lost { spec.has_lost result ≡ spec.has_lost self }
    {
        let mut recording = self;
        recording.sides.sum();
        recording
    }

    /// Continues after a request for TLS: the recording has the decrypted contents, and no packet is refused as `Encrypted`.
    pub fn deciphered(self) -> Self
        ensures settings { spec.settings result ≡ record (spec.settings self) { is_deciphered = true } }
        ensures recorded { (text : List ℕ) (items : List Item) → spec.Recorded self text items → spec.Recorded result text items }
        ensures lost { spec.has_lost result ≡ spec.has_lost self }
    {
        let mut recording = self;
        recording.sides.tls_established();
        recording
    }

    /// Appends the sums, if they are requested.
    pub fn append_sums(&self, out: &mut String) -> Result<(), AllocError>
        ensures none { (spec.settings self.now).has_sums ≡ false → (result ≡ Ok tt) × (string_bytes out.new ≡ string_bytes out.old) }
        ensures sums { (spec.settings self.now).has_sums ≡ true → OnOk result (AppendsSomeSums (spec.layout self.now) (string_bytes out.old) (string_bytes out.new)) }
        ensures stays { Stays (string_bytes out.old) (string_bytes out.new) }
    {
        self.sides.append_sums(out)
    }

    /// Whether every command is answered, and no packet is incomplete.
    pub fn is_complete(&self) -> bool
        // What waits of a line is in none of the packets.
        ensures recorded { (text : List ℕ) (items : List Item) → spec.Recorded self.now text items → IsTrue result ↔ spec.IsWhole self.now items }
        ensures finished { (text : List ℕ) (items : List Item) → spec.IsFinished self.now text items → IsTrue result ↔ spec.IsWhole self.now items }
        // After a loss, of what is followed since:
        ensures ended { IsTrue result → spec.HasEnded self.now }
    {
        self.sides.is_complete()
    }

    /// Whether something was lost: there was an unexpected packet, bytes that aren't the expected frames, or missing bytes.
    pub fn has_lost(&self) -> bool
        ensures { result ≡ spec.has_lost self.now }
    {
        self.sides.has_lost()
    }

    /// Takes a piece of the input, and appends the entries of its packets.
    ///
    /// After an error the recording has taken the packets before the faulty one.
    pub fn push(&mut self, input: &[u8], out: &mut String) -> Result<(), RecordingError>
        ensures goes { OnOk result (spec.GoesOn input.now self.old self.new (string_bytes out.old) (string_bytes out.new)) }
        ensures lost { spec.has_lost self.old ≡ true → spec.has_lost self.new ≡ true }
        ensures settings { spec.settings self.new ≡ spec.settings self.old }
        ensures refused { IfErr result (λ e. Stops PacketKindTag.ALL input.now self.old self.new e (string_bytes out.old) (string_bytes out.new)) }
        ensures loses { Loses PacketKindTag.ALL input.now self.old self.new (string_bytes out.old) (string_bytes out.new) }
        ensures text { Stays (string_bytes out.old) (string_bytes out.new) }
        // The error is `Line` only where a line of the input is none of a recording's, and then it is an error.
        ensures place { OnOk result (place_after (spec.place self.old) input.now ≡ Some (spec.place self.new)) }
        ensures line { IfErr result (λ e. IfLine e (place_after (spec.place self.old) input.now ≡ None)) }
    {
        for byte in input {
            self.take_byte(*byte, out)?;
        }
        self.take_rest(out)
    }

    /// Takes the bytes of a line that is not complete, if it is no mark.
    fn take_rest(&mut self, out: &mut String) -> Result<(), RecordingError>
        ensures goes { OnOk result (spec.GoesOn [] self.old self.new (string_bytes out.old) (string_bytes out.new)) }
        ensures refused { IfErr result (λ e. TextStops PacketKindTag.ALL self.old e (string_bytes out.old) (string_bytes out.new)) }
        ensures loses { TextLoses PacketKindTag.ALL ⊥ self.old self.new (string_bytes out.old) (string_bytes out.new) }
        ensures place { self.new.place ≡ self.old.place }
        ensures keeps { Keeps result self.old.sides self.new.sides (string_bytes out.old) (string_bytes out.new) }
    {
        if self.may_be_taken() {
            self.take_line(out)
        } else {
            Ok(())
        }
    }

    /// Takes a byte of the input.
    fn take_byte(&mut self, byte: u8, out: &mut String) -> Result<(), RecordingError>
        ensures goes { OnOk result (spec.GoesOn (byte ∷ []) self.old self.new (string_bytes out.old) (string_bytes out.new)) }
        ensures lost { spec.has_lost self.old ≡ true → spec.has_lost self.new ≡ true }
        ensures settings { spec.settings self.new ≡ spec.settings self.old }
        ensures refused { IfErr result (λ e. TextStops PacketKindTag.ALL self.old e (string_bytes out.old) (string_bytes out.new)) }
        ensures loses { TextLoses PacketKindTag.ALL (byte ≡ 10) self.old self.new (string_bytes out.old) (string_bytes out.new) }
        ensures text { Stays (string_bytes out.old) (string_bytes out.new) }
        ensures place { OnOk result (next_place self.old.place byte ≡ Some self.new.place) }
        ensures line { IfErr result (λ e. IfLine e (next_place self.old.place byte ≡ None)) }
    {
        match self.place.pass(byte)? {
            Some(Said::Byte(side, value)) => {
                self.line.side = side;
                Ok(self.line.bytes.extend_from_slice(&[value])?)
            }
            Some(Said::End) => self.end_line(out),
            None => Ok(()),
        }
    }

    /// Ends the input, and appends the number of skipped bytes of each stream that is still out of step.
    pub fn finish(&mut self, out: &mut String) -> Result<(), RecordingError>
        ensures left { OnOk result ((mid : List ℕ) × Stays (string_bytes out.old) mid × spec.SaysLeft self.new mid (string_bytes out.new)) }
        ensures finishes { OnOk result (spec.Finishes self.old self.new (string_bytes out.old) (string_bytes out.new)) }
        ensures refused { IfErr result (λ e. TextStops PacketKindTag.ALL self.old e (string_bytes out.old) (string_bytes out.new)) }
        ensures loses { TextLoses PacketKindTag.ALL (Unit {0}) self.old self.new (string_bytes out.old) (string_bytes out.new) }
        ensures lost { spec.has_lost self.old ≡ true → spec.has_lost self.new ≡ true }
        ensures settings { spec.settings self.new ≡ spec.settings self.old }
        ensures text { Stays (string_bytes out.old) (string_bytes out.new) }
        ensures no_line { IfErr result (λ e. IfLine e ⊥) }
    {
        self.end_line(out)?;
        Ok(self.sides.say_unheard(out)?)
    }

    /// Whether the bytes of a line can be taken before its end: it is no mark, and enough of it has come to see
    /// how it begins.
    fn may_be_taken(&self) -> bool {
        let bytes = self.line.bytes.as_slice();
        !self.line.is_untaken
            || !may_be_mark(bytes) && self.sides.may_be_begun(self.line.side, bytes)
    }

    /// Takes a line at its end.
    fn end_line(&mut self, out: &mut String) -> Result<(), RecordingError>
        ensures goes { OnOk result (spec.Takes self.old self.new (string_bytes out.old) (string_bytes out.new)) }
        ensures place { self.new.place ≡ self.old.place }
        ensures line { OnOk result (self.new.line.bytes.items ≡ []) }
        ensures refused { IfErr result (λ e. LineStops PacketKindTag.ALL self.old e (string_bytes out.old) (string_bytes out.new)) }
        ensures loses { LineEndLoses PacketKindTag.ALL self.old self.new (string_bytes out.old) (string_bytes out.new) }
        ensures untaken { self.new.line.is_untaken ≡ true }
        ensures keeps { Keeps result self.old.sides self.new.sides (string_bytes out.old) (string_bytes out.new) }
    {
        let taken = self.take_last(out);
        self.line.is_untaken = true;
        taken
    }

    /// Takes the end of a line, before the next one begins.
    fn take_last(&mut self, out: &mut String) -> Result<(), RecordingError>
        ensures goes { OnOk result (spec.Takes self.old self.new (string_bytes out.old) (string_bytes out.new)) }
        ensures place { self.new.place ≡ self.old.place }
        ensures line { OnOk result (self.new.line.bytes.items ≡ []) }
        ensures refused { IfErr result (λ e. LineStops PacketKindTag.ALL self.old e (string_bytes out.old) (string_bytes out.new)) }
        ensures loses { LineEndLoses PacketKindTag.ALL self.old self.new (string_bytes out.old) (string_bytes out.new) }
        ensures keeps { Keeps result self.old.sides self.new.sides (string_bytes out.old) (string_bytes out.new) }
    {
        let missing = missing_of(self.line.bytes.as_slice());
        match missing {
            Some(count) if self.line.is_untaken => self.lose_line(count, out),
            _ => self.take_line(out),
        }
    }

    /// Takes a mark of missing bytes.
    fn lose_line(&mut self, count: u64, out: &mut String) -> Result<(), RecordingError>
        ensures lost { OnOk result (spec.has_lost self.new ≡ true) }
        ensures place { self.new.place ≡ self.old.place }
        ensures line { OnOk result (self.new.line.bytes.items ≡ []) }
        ensures refused { IfErr result (λ e. IfRefused e (λ why. ⊥)) }
        ensures keeps { Keeps result self.old.sides self.new.sides (string_bytes out.old) (string_bytes out.new) }
    {
        self.sides.lose(self.line.side, Loss::Missing(count), out)?;
        self.line.bytes.clear();
        Ok(())
    }

    /// Takes the bytes of a line so far.
    fn take_line(&mut self, out: &mut String) -> Result<(), RecordingError>
        ensures goes { OnOk result (spec.Takes self.old self.new (string_bytes out.old) (string_bytes out.new)) }
        ensures place { self.new.place ≡ self.old.place }
        ensures line { OnOk result (self.new.line.bytes.items ≡ []) }
        ensures refused { IfErr result (λ e. LineStops PacketKindTag.ALL self.old e (string_bytes out.old) (string_bytes out.new)) }
        ensures loses { LineLoses PacketKindTag.ALL self.old self.new (string_bytes out.old) (string_bytes out.new) }
        ensures taken { self.new.line.is_untaken ≡ false }
        ensures keeps { Keeps result self.old.sides self.new.sides (string_bytes out.old) (string_bytes out.new) }
    {
        let (side, is_untaken) = (self.line.side, self.line.is_untaken);
        let piece = mem::replace(&mut self.line.bytes, Vec::new(self.alloc));
        let taken = self
            .sides
            .take_line(side, is_untaken, piece.as_slice(), out);
        self.line.bytes = piece;
        self.line.bytes.clear();
        self.line.is_untaken = false;
        taken
    }
}
