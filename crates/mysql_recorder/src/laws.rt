//! Laws over recordings.

ghost use Rattle.std.specs.Prelude.{◌≡◌, ℕ, List, []};
ghost use Rattle.mysql_conversation.specs.Session.{IsSessionBeginning};
ghost use Rattle.mysql_conversation.specs.declared.packet_kind.Side.TheVariants as side;
ghost use Rattle.mysql_recorder.specs.Frames.{AreFrames, NoneComes, Piece, joined, ComeIn, packets_of, bytes_of, sent};
ghost use Rattle.mysql_recorder.specs.Lines.{Heard};
ghost use Rattle.mysql_recorder.specs.Recorded.{Recorded, IsShown};
ghost use Rattle.mysql_recorder.specs.Shown.{Item, placed};
ghost use Rattle.mysql_recorder.specs.declared.recording.Recording as recording;

/// The text that a recording has read is bytes of both sides, and the recording has shown the packets that end
/// in them; these are the beginning of a session in the grammar.
#[tactic(auto, using(crate::proofs::Seen::shown))]
pub fn what_a_recording_has_shown()
    ensures packets { (r : recording.Recording) (text : List ℕ) (items : List Item) → Recorded r text items → (waits : List Heard) × IsShown text waits items }
    ensures session { (r : recording.Recording) (text : List ℕ) (items : List Item) → Recorded r text items → IsSessionBeginning (placed items) }
{}

/// The packets that end in pieces of both sides are, for each side, those whose frames its bytes are.
#[tactic(auto, using(crate::proofs::Seen::sides))]
pub fn packets_that_end_in_pieces_are_of_their_streams()
    ensures client { (pieces : List Piece) (items : List Item) (client server : List ℕ) → ComeIn [] [] pieces items client server
        → AreFrames (packets_of side.Client items) (bytes_of side.Client (joined pieces)) client }
    ensures server { (pieces : List Piece) (items : List Item) (client server : List ℕ) → ComeIn [] [] pieces items client server
        → AreFrames (packets_of side.Server items) (bytes_of side.Server (joined pieces)) server }
{}

/// Bytes that end with an incomplete payload are the frames of exactly one list of payloads, each with the number of its first
/// frame.
#[tactic(auto, using(crate::proofs::Seen::once))]
pub fn a_stream_has_one_list_of_packets()
    ensures { (xs ys : List Item) (bytes r s : List ℕ) → AreFrames xs bytes r → AreFrames ys bytes s → NoneComes r → NoneComes s → (sent xs ≡ sent ys) × (r ≡ s) }
{}
