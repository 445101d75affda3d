//! Pieces of one side's stream.

ghost use Rattle.std.specs.Prelude.{◌≡◌, ◌≢◌, [], ◌++◌, List, IfOk, IfErr, string_bytes};
ghost use Rattle.mysql_show.specs.Appended.{Stays};
ghost use Rattle.mysql_recorder.specs.Frames.{IsNumbered, NoneComes};
ghost use Rattle.mysql_recorder.specs.Losses.{LosesIn};
ghost use Rattle.mysql_recorder.specs.Refusals.{IfLine, IfRefused};
ghost use Rattle.mysql_recorder.specs.Shown.{Item};
ghost use Rattle.mysql_recorder.specs.Sides as spec;
ghost use Rattle.mysql_recorder.specs.Stops.{StopsIn};
ghost use Rattle.mysql_recorder.specs.declared.piece.Came.TheVariants as came_as;

use crate::error::RecordingError;
use crate::packets::{Packets, Taken};
use crate::stream::{Sent, Stream};
use mysql_conversation::{PacketKindTag, Side};
use mysql_frames::FrameError;
use mysql_replies::SessionCapabilities;

/// The outcome of a piece of a stream, and the number of its remaining bytes.
#[derive(Clone, Copy)]
pub(crate) enum Came {
    /// The packets up to the end of the piece.
    Whole,
    /// An unexpected packet. Both sides agreed on these capabilities.
    Refused(SessionCapabilities, usize),
    /// Bytes that are not the expected frames.
    NoFrames(FrameError, usize),
}

/// Takes a piece of a stream, and appends its packets. The answer to the first of them begins with a frame with
/// the number `first`.
pub(crate) fn read_packets(
    stream: &mut Stream,
    packets: &mut Packets,
    side: Side,
    piece: &[u8],
    first: &mut Option<u8>,
    out: &mut String,
) -> Result<Came, RecordingError>
    ensures whole { IfOk result (λ came. came ≡ came_as.Whole → (items : List Item)
        → spec.IsAt stream.old packets.old items → (here : List Item) × spec.Reads side piece.now [] items here stream.old stream.new packets.old packets.new (string_bytes out.old) (string_bytes out.new)) }
    ensures refused { IfErr result (λ e. (items : List Item) → spec.IsAt stream.old packets.old items
        → IfRefused e (λ why. StopsIn PacketKindTag.ALL packets.old.layout side (stream.old.reader.held ++ piece.now) items why (string_bytes out.old) (string_bytes out.new))) }
    ensures loses { IfOk result (λ came. came ≢ came_as.Whole → (items : List Item) → spec.IsAt stream.old packets.old items
        → LosesIn PacketKindTag.ALL packets.old.layout stream.old.reader.limit side (stream.old.reader.held ++ piece.now) items (string_bytes out.old) (string_bytes out.new)) }
    ensures stays { Stays (string_bytes out.old) (string_bytes out.new) }
    ensures none { IfOk result (λ came. came ≡ came_as.Whole → IsNumbered stream.old.reader → NoneComes stream.new.reader.held) }
    ensures passed { stream.new.passed ≡ stream.old.passed }
    ensures options { spec.options packets.new ≡ spec.options packets.old }
    ensures no_line { IfErr result (λ e. IfLine e ⊥) }
{
    let mut input = piece;
    'packets: loop {
        match stream.next(&mut input) {
            Ok(Some(sent)) => {
                let Sent { sequence, payload } = sent;
                if first.is_none() {
                    *first = Some(stream.number());
                }
                let taken = packets.take(side, sequence, payload.as_slice(), out);
                stream.recycle(payload);
                match taken {
                    Ok(Taken::Shown) => {}
                    Ok(Taken::Refused(agreed)) => return Ok(Came::Refused(agreed, input.len())),
                    Err(error) => return Err(error),
                }
            }
            Ok(None) => return Ok(Came::Whole),
            Err(FrameError::Memory) => return Err(RecordingError::Memory),
            Err(error) => return Ok(Came::NoFrames(error, input.len())),
        }
    }
}
