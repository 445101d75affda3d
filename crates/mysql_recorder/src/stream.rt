//! One side's stream.

ghost use Rattle.std.specs.Prelude.{◌≡◌, ◌↔◌, ◌++◌, [], ℕ, List, IfOk, IfSome, IfNone, IsErrOf, IsTrue, OnErr, Some, None, true, false};
ghost use Rattle.std.specs.Cow.{cow_slice_items};
ghost use Rattle.mysql_frames.specs.FrameReader.{AllLonger, HandsOut, HoldsAll, Keeps, NoneWhole};
ghost use Rattle.mysql_recorder.specs.Streams.{as_sent};

use mysql_frames::{FrameError, FrameReader};
use std::alloc::Global;
use std::borrow::CowSlice;

/// A payload, and the sequence number of its first frame.
pub(crate) struct Sent<'a> {
    pub(crate) sequence: u8,
    pub(crate) payload: CowSlice<'a, u8>,
}

/// Sets the expected number to that of the next frame.
#[tactic(auto, using(crate::proofs::Streams::sent))]
fn expect_sent(reader: &mut FrameReader, input: &[u8])
    ensures { reader.new ≡ as_sent reader.old input.now }
{
    reader.resync_sequence(input);
}

/// One side's stream: in step, or out of step since a part of it was lost.
#[derive(Drop)]
pub(crate) struct Stream {
    reader: FrameReader,
    /// The number of bytes of an incomplete payload.
    unfinished: u64,
    /// The number of skipped bytes, if the stream is out of step.
    passed: Option<u64>,
    /// The sequence number of the frame after the last payload.
    number: u8,
}

impl Stream {
    /// Creates a stream without bytes, for payloads of at most `longest` bytes: in step, or out of step.
    pub(crate) fn new(alloc: Global, longest: usize, is_in_step: bool) -> Self
        ensures held { result.reader.held ≡ [] }
        ensures limit { result.reader.limit ≡ longest }
        ensures passed { is_in_step ≡ true → result.passed ≡ None }
        ensures awaited { is_in_step ≡ false → result.passed ≡ Some 0 }
    {
        Stream {
            reader: FrameReader::new(alloc, longest),
            unfinished: 0,
            passed: if is_in_step { None } else { Some(0) },
            number: 0,
        }
    }

    /// The number of skipped bytes, if the stream is out of step.
    pub(crate) fn passed(&self) -> Option<u64>
        ensures { result ≡ self.now.passed }
    {
        self.passed
    }

    /// Whether the stream is in step, and no payload is incomplete.
    pub(crate) fn is_between(&self) -> bool
        ensures { IsTrue result ↔ ((self.now.passed ≡ None) × (self.now.reader.held ≡ [])) }
    {
        self.passed.is_none() && self.reader.is_between()
    }

    /// The number of the frame after the last payload: the answer to it begins with this number, even if a part of the next
    /// payload has come.
    pub(crate) fn number(&self) -> u8 {
        self.number
    }

    /// Takes the input up to the end of the next payload, or all of it.
    pub(crate) fn next<'a>(&mut self, input: &mut &'a [u8]) -> Result<Option<Sent<'a>>, FrameError>
        ensures payload { IfOk result (λ found. IfSome found (λ sent. HandsOut (as_sent self.old.reader input.old.now) input.old.now (cow_slice_items sent.payload) self.new.reader input.new.now)) }
        ensures sequence { IfOk result (λ found. IfSome found (λ sent. sent.sequence ≡ (as_sent self.old.reader input.old.now).number)) }
        ensures more { IfOk result (λ found. IfNone found (HoldsAll (as_sent self.old.reader input.old.now) input.old.now self.new.reader input.new.now)) }
        ensures err { OnErr result (Keeps (as_sent self.old.reader input.old.now) input.old.now self.new.reader input.new.now) }
        ensures order { IsErrOf result FrameError.OutOfOrder → (more : List ℕ)
            → NoneWhole (as_sent self.old.reader input.old.now).number ((as_sent self.old.reader input.old.now).held ++ input.old.now ++ more) }
        ensures long { IsErrOf result FrameError.TooLong → (more : List ℕ)
            → AllLonger (as_sent self.old.reader input.old.now).limit (as_sent self.old.reader input.old.now).number ((as_sent self.old.reader input.old.now).held ++ input.old.now ++ more) }
        ensures passed { self.new.passed ≡ self.old.passed }
    {
        let before = input.len();
        expect_sent(&mut self.reader, input);
        let sequence = self.reader.number();
        let read = self.reader.read(input);
        let came = before.saturating_sub(input.len()) as u64;
        self.unfinished = self.unfinished.saturating_add(came);
        let found = match read {
            Ok(found) => found,
            Err(error) => return Err(error),
        };
        match found {
            Some(payload) => {
                self.unfinished = 0;
                self.number = self.reader.number();
                Ok(Some(Sent { sequence, payload }))
            }
            None => Ok(None),
        }
    }

    /// Takes back the memory of a payload.
    pub(crate) fn recycle(&mut self, payload: CowSlice<'_, u8>)
        ensures { self.new ≡ self.old }
    {
        self.reader.recycle(payload);
    }

    /// Marks the stream as out of step: the bytes of an incomplete payload are skipped.
    pub(crate) fn lose(&mut self) {
        let passed = self.passed.unwrap_or(0);
        self.passed = Some(passed.saturating_add(self.unfinished));
        self.unfinished = 0;
        self.reader.expect(0);
    }

    /// Skips this number of bytes, if the stream is out of step.
    pub(crate) fn pass_over(&mut self, count: usize) {
        if let Some(passed) = self.passed {
            self.passed = Some(passed.saturating_add(count as u64));
        }
    }

    /// Marks the stream as in step again.
    pub(crate) fn take_up(&mut self)
        ensures passed { self.new.passed ≡ None }
        ensures held { self.new.reader.held ≡ [] }
        ensures limit { self.new.reader.limit ≡ self.old.reader.limit }
    {
        self.passed = None;
        self.unfinished = 0;
        self.reader.expect(0);
    }
}
