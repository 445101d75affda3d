//! Laws over streams of frames.

ghost use Rattle.std.specs.Prelude.{◌≡◌, ℕ, List, [], ◌∷◌, ◌++◌};
ghost use Rattle.mysql_frames.specs.Frames.{Framed, Stream};
ghost use Rattle.mysql_frames.specs.FrameReader.{NoneWhole, ReaderState, ShowsOutOfOrder, ShowsTooLong};

/// Bytes that end with an incomplete payload are the frames of exactly one list of payloads, whatever pieces they arrive in.
#[tactic(auto, using(crate::proofs::Streams::stream_once))]
pub fn a_stream_is_one_list_of_payloads()
    ensures { (number : ℕ) (ps qs : List (List ℕ)) (a b : ℕ) (bytes r s : List ℕ)
        → Stream number ps a bytes r → Stream number qs b bytes s → NoneWhole a r → NoneWhole b s → (ps ≡ qs) × (a ≡ b) × (r ≡ s) }
{}

/// If more bytes complete a payload, the stream has one payload more.
#[tactic(auto, using(crate::proofs::Streams::stream_more, crate::proofs::Streams::stream_then))]
pub fn a_stream_goes_on()
    ensures bytes { (number : ℕ) (payloads : List (List ℕ)) (after : ℕ) (bytes rest more : List ℕ) → Stream number payloads after bytes rest → Stream number payloads after (bytes ++ more) (rest ++ more) }
    ensures payload { (number : ℕ) (payloads : List (List ℕ)) (mid : ℕ) (bytes rest payload : List ℕ) (after : ℕ) (left : List ℕ)
        → Stream number payloads mid bytes rest → Framed mid payload after rest left → Stream number (payloads ++ payload ∷ []) after bytes left }
{}

/// The first wrong header determines the error: the bytes held never show both errors.
pub fn held_bytes_show_one_fault()
    ensures { (reader : ReaderState) → ShowsOutOfOrder reader → ShowsTooLong reader → ⊥ }
{}
