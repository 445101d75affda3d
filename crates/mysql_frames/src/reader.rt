//! Payloads from a byte stream that arrives in pieces of any size.

ghost use Rattle.std.specs.Prelude.{◌≡◌, ◌↔◌, ◌≤◌, ◌<◌, ◌⊎◌, [], ◌++◌, length, slice_index, IfOk, OnErr, IfSome, IfNone, IsTrue, IsErrOf, IsOk, List, ℕ, ◌+◌, ◌*◌, ◌/◌};
ghost use Rattle.std.specs.Cow.{cow_slice_items};
ghost use Rattle.mysql_frames.specs.Frames as spec;
ghost use Rattle.mysql_frames.specs.FrameReader.{AllLonger, BeginsInOrder, HandsOut, HoldsAll, Keeps, LacksPart, NoneWhole, ShowsNoFault, ShowsOutOfOrder, ShowsTooLong};

use crate::error::FrameError;
use crate::unfinished::Unfinished;
use std::alloc::Global;
use std::borrow::CowSlice;
use std::marker::Model;

/// Finds payloads in a byte stream that arrives in pieces of any size.
///
/// The pieces make no difference: a stream has one list of payloads, however it is cut
/// ([`a_stream_is_one_list_of_payloads`](crate::laws::a_stream_is_one_list_of_payloads)).
///
/// In a clause it is the bytes held of an incomplete payload, the sequence number of that payload's first frame, and the limit of a
/// payload's length.
///
/// ```
/// let mut frames = FrameReader::new(alloc, 1 << 24);
/// if let Some(payload) = frames.read(&mut input)? {
///     // the next payload of a stream, whose bytes come in any pieces
///     session(out, alloc, payload.as_slice())?;
///     frames.recycle(payload);
/// }
/// ```
#[derive(Drop)]
pub struct FrameReader {
    unfinished: Unfinished,
}

impl Model for FrameReader {
    ghost use Rattle.mysql_frames.specs.FrameReader.{ReaderState};
    ghost use Rattle.mysql_frames.specs.Unfinished.{IsReading, IsReady, state_of};

    ghost Value = { ReaderState };

    ghost view = { λ r. state_of r.unfinished };

    ghost invariant = { λ r. IsReading r.unfinished × IsReady r.unfinished };
}

impl FrameReader {
    /// Creates a reader at the start of a stream, for payloads of at most `limit` bytes. It expects sequence number 0.
    pub fn new(alloc: Global, limit: usize) -> Self
        ensures held { result.held ≡ [] }
        ensures number { result.number ≡ 0 }
        ensures limit { result.limit ≡ limit }
    {
        FrameReader {
            unfinished: Unfinished::new(alloc, limit),
        }
    }

    /// Sets the sequence number of the next frame. An incomplete payload is dropped.
    ///
    /// Numbers restart at 0 with each command, and continue from side to side within its exchange: the reply to a packet has the
    /// number that [`write_packet`](crate::write_packet) returned.
    pub fn expect(&mut self, number: u8)
        ensures held { self.new.held ≡ [] }
        ensures number { self.new.number ≡ number }
        ensures limit { self.new.limit ≡ self.old.limit }
    {
        self.unfinished.expect(number);
    }

    /// Expects the sequence number of the next frame, which is read from its header in the bytes held and the input. If the
    /// header is incomplete, nothing changes. No input is consumed.
    ///
    /// A proxy or recorder calls it before each [`read`](Self::read), since the numbers restart with each command.
    #[inline]
    pub fn resync_sequence(&mut self, input: &[u8])
        ensures held { self.new.held ≡ self.old.held }
        ensures number { length self.old.held < 4 → 4 ≤ length (self.old.held ++ input.now) → self.new.number ≡ slice_index (self.old.held ++ input.now) 3 }
        // Inside a payload, or if the header is still incomplete, the number is unchanged.
        ensures same { (4 ≤ length self.old.held) ⊎ (length (self.old.held ++ input.now) < 4) → self.new.number ≡ self.old.number }
        ensures limit { self.new.limit ≡ self.old.limit }
    {
        self.unfinished.resync_sequence(input);
    }

    /// Returns the sequence number of the first frame of the payload that is being read, or of the next one.
    #[inline]
    pub fn number(&self) -> u8
        ensures { result ≡ self.now.number }
    {
        self.unfinished.first
    }

    /// Whether no byte of the next payload has been read.
    #[inline(always)]
    pub fn is_between(&self) -> bool
        ensures { IsTrue result ↔ (self.now.held ≡ []) }
    {
        self.unfinished.is_between()
    }

    /// Returns the next payload, and takes the input up to its end; or takes all of the input and returns `None` if the payload is
    /// incomplete.
    ///
    /// A payload in a single frame of the input is borrowed from the input, without allocating. Any other is joined in the reader's own
    /// buffer, which [`recycle`](Self::recycle) takes back. An error loses no byte, and the call can be repeated.
    ///
    /// # Errors
    ///
    /// `OutOfOrder` if a frame has an unexpected sequence number, `TooLong` if the payload exceeds the limit: each as soon as
    /// the header that shows it is complete, and `OutOfOrder` first. `Memory` if joining needs memory and the allocation fails.
    ///
    /// ```
    /// let mut frames = FrameReader::new(alloc, 1 << 24);
    /// if let Some(payload) = frames.read(&mut input)? {
    ///     // the next payload of a stream, whose bytes come in any pieces
    ///     session(out, alloc, payload.as_slice())?;
    ///     frames.recycle(payload);
    /// }
    /// ```
    #[inline]
    pub fn read<'a>(&mut self, input: &mut &'a [u8]) -> Result<Option<CowSlice<'a, u8>>, FrameError>
        ensures payload { IfOk result (λ found. IfSome found (λ payload. HandsOut self.old input.old.now (cow_slice_items payload) self.new input.new.now)) }
        ensures more { IfOk result (λ found. IfNone found (HoldsAll self.old input.old.now self.new input.new.now)) }
        ensures err { OnErr result (Keeps self.old input.old.now self.new input.new.now) }

        // A payload that is complete in one frame is not refused.
        ensures no_memory { self.old.held ≡ [] → (payload rest : List ℕ) → spec.FramedIn 0xffffff 0 self.old.number payload (spec.next self.old.number) input.old.now rest
            → length payload ≤ self.old.limit → IsOk result }

        // Nor is an empty input; nor is memory requested before the header of the payload's first frame is complete, in order and within
        // the limit: a frame out of order or too long is never answered with a memory error.
        ensures some { IsErrOf result FrameError.Memory → 0 < length input.old.now }
        ensures early { IsErrOf result FrameError.Memory → BeginsInOrder self.old (self.old.held ++ input.old.now) }

        // Whatever follows, no payload's frames begin so; or each payload whose frames do is longer than the limit.
        ensures order { IsErrOf result FrameError.OutOfOrder → (more : List ℕ) → NoneWhole self.old.number (self.old.held ++ input.old.now ++ more) }
        ensures long { IsErrOf result FrameError.TooLong → (more : List ℕ) → AllLonger self.old.limit self.old.number (self.old.held ++ input.old.now ++ more) }

        // Each error is returned as soon as the header that shows it is complete; the first wrong header determines it.
        ensures no_fault { IfOk result (λ found. IfNone found (ShowsNoFault self.new)) }
        ensures shown_order { IsErrOf result FrameError.OutOfOrder → ShowsOutOfOrder self.new }
        ensures shown_long { IsErrOf result FrameError.TooLong → ShowsTooLong self.new }

        // Memory is requested for part of a frame whose header is complete, in order and within the limit.
        ensures lacks_part { IsErrOf result FrameError.Memory → LacksPart self.new }

        // No more is held than a payload of the limit's length with its headers.
        ensures bounded { length self.new.held ≤ self.new.limit + 4 * (self.new.limit / 0xffffff + 1) }
    {
        self.unfinished.read(input)
    }

    /// Takes back the buffer of a returned payload, to join later payloads in it.
    #[inline(always)]
    pub fn recycle(&mut self, payload: CowSlice<'_, u8>)
        ensures { self.new ≡ self.old }
    {
        if let CowSlice::Owned(buffer) = payload {
            self.unfinished.keep(buffer);
        }
    }
}
