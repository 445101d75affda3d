//! A payload that is not complete yet.

ghost use Rattle.std.specs.Prelude.{◌≡◌, ◌≢◌, ◌↔◌, ◌+◌, ◌*◌, ◌<◌, ◌≤◌, ◌⊎◌, [], ◌++◌, length, slice_index, IfOk, OnErr, IfSome, IfNone, IsTrue, IfErr, IsErrOf, IsOk, List, ℕ, true, false, vec_len, vec_capacity, max, min, ◌/◌};
ghost use Rattle.std.specs.Cow.{cow_slice_items};
ghost use Rattle.mysql_frames.specs.Frames as spec;

use crate::error::FrameError;
use crate::header::{HEADER_LEN, MAX_FRAME_LEN, length_in};
use arrayvec::ArrayVec;
use std::alloc::{AllocError, Global};
use std::borrow::CowSlice;
use std::mem;

/// The maximum memory that is reserved for bytes that haven't arrived.
const AT_ONCE: usize = 65536;

/// Moves up to `missing` bytes from the front of the input to the end of `into`.
fn fill(into: &mut Vec<u8>, input: &mut &[u8], missing: usize) -> Result<bool, AllocError>
    ensures moved { (moved : List ℕ) × (into.new.items ≡ into.old.items ++ moved) × (input.old.now ≡ moved ++ input.new.now) }
    ensures done { IfOk result (λ done. (IsTrue done → length into.new.items ≡ length into.old.items + missing)
        × (done ≡ false → (length into.new.items < length into.old.items + missing) × (input.new.now ≡ []))) }
    ensures err { OnErr result (into.new.items ≡ into.old.items) }
    // Without input it doesn't allocate.
    ensures some { OnErr result (input.old.now ≢ []) }
    // Nor if there is capacity for what is missing, or for the input and `AT_ONCE` bytes: a header alone requests no more.
    ensures missing { OnErr result (vec_capacity into.old < vec_len into.old + missing) }
    ensures comes { OnErr result (vec_capacity into.old < vec_len into.old + max 65536 (length input.old.now)) }
    ensures capacity { vec_capacity into.old ≤ vec_capacity into.new }
{
    if input.is_empty() {
        return Ok(missing == 0);
    }
    // One block for all that is missing, but not much of it because of a header alone.
    into.reserve(missing.min(AT_ONCE))?;
    let (front, rest) = input.split_at(missing.min(input.len()));
    into.extend_from_slice(front)?;
    *input = rest;
    Ok(front.len() == missing)
}

/// Moves the rest of a header from the front of the input to the end of `into`, or as much of it as there is.
fn fill_header(into: &mut ArrayVec<u8, HEADER_LEN>, input: &mut &[u8]) -> bool
    requires { length into.old.items ≤ 4 }
    ensures moved { (moved : List ℕ) × (into.new.items ≡ into.old.items ++ moved) × (input.old.now ≡ moved ++ input.new.now) }
    ensures done { (IsTrue result → length into.new.items ≡ 4) × (result ≡ false → (length into.new.items < 4) × (input.new.now ≡ [])) }
{
    let missing = HEADER_LEN - into.len();
    let (front, rest) = input.split_at(missing.min(input.len()));
    // There is capacity for a whole header.
    let _ = into.try_extend_from_slice(front);
    *input = rest;
    front.len() == missing
}

/// Returns a payload shorter than `bound`, in a single frame at the front of the input, and the input after it.
#[inline(always)]
fn whole_at(bound: usize, number: u8, input: &[u8]) -> Option<(&[u8], &[u8])>
    requires { bound ≤ 0xffffff }
    ensures framed { IfSome result (λ found. spec.Framed number found.0.now (spec.next number) input.now found.1.now) }
    ensures bound { IfSome result (λ found. length found.0.now < bound) }
    // A complete frame of a payload that short is found.
    ensures found { IfNone result ((payload rest : List ℕ) → spec.FramedIn 0xffffff 0 number payload (spec.next number) input.now rest → bound ≤ length payload) }
{
    if input.len() < HEADER_LEN || input[3] != number {
        return None;
    }
    let len = length_in(input);
    if len >= bound || input.len() - HEADER_LEN < len {
        return None;
    }
    Some(input[HEADER_LEN..].split_at(len))
}

/// The bound of the payloads that are read in place: those that fit in one frame, within the limit.
fn bound_in_place(limit: usize) -> usize
    ensures { result ≡ min (limit + 1) 0xffffff }
{
    if limit < MAX_FRAME_LEN {
        limit + 1
    } else {
        MAX_FRAME_LEN
    }
}

/// A payload whose frames haven't all arrived. Of the headers, only an incomplete one is kept.
#[derive(Drop)]
pub struct Unfinished {
    alloc: Global,
    pub(crate) limit: usize,
    /// A payload with fewer bytes is read in place: none is while another is incomplete.
    in_place: usize,
    /// The number of the payload's first frame.
    pub(crate) first: u8,
    /// The number of full frames that were read.
    full: usize,
    /// The bytes of an incomplete header.
    head: ArrayVec<u8, HEADER_LEN>,
    /// The bytes of the payload so far.
    payload: Vec<u8>,
}

impl Unfinished {
    ghost use Rattle.mysql_frames.specs.FrameReader.{HandsOut, HoldsAll, Keeps, NoneWhole, Refuses, ShowsFault, ShowsNoFault};
    ghost use Rattle.mysql_frames.specs.Unfinished.{HasFrame, IsHeader, IsReading, IsReady, Lacks, LacksCapacity, held, number_of, state_of};

    /// Creates the state in which no byte has arrived. The first frame has the number 0.
    pub(crate) fn new(alloc: Global, limit: usize) -> Self
        ensures reading { IsReading result }
        ensures ready { IsReady result }
        ensures held { held result ≡ [] }
        ensures first { result.first ≡ 0 }
        ensures limit { result.limit ≡ limit }
    {
        Unfinished {
            alloc,
            limit,
            in_place: bound_in_place(limit),
            first: 0,
            full: 0,
            head: ArrayVec::new(),
            payload: Vec::new(alloc),
        }
    }

    /// Drops the bytes so far. The next frame has this number.
    pub(crate) fn expect(&mut self, number: u8)
        ensures reading { IsReading self.new }
        ensures ready { IsReady self.new }
        ensures held { held self.new ≡ [] }
        ensures first { self.new.first ≡ number }
        ensures limit { self.new.limit ≡ self.old.limit }
    {
        self.in_place = bound_in_place(self.limit);
        self.first = number;
        self.full = 0;
        self.head.clear();
        self.payload.clear();
    }

    /// Takes the next frame's number from its header, if the bytes held and the input have it.
    pub(crate) fn resync_sequence(&mut self, input: &[u8])
        requires reading { IsReading self.old }
        requires ready { IsReady self.old }
        ensures reading { IsReading self.new }
        ensures ready { IsReady self.new }
        ensures held { held self.new ≡ held self.old }
        ensures number { length (held self.old) < 4 → 4 ≤ length (held self.old ++ input.now) → self.new.first ≡ slice_index (held self.old ++ input.now) 3 }
        ensures same { (4 ≤ length (held self.old)) ⊎ (length (held self.old ++ input.now) < 4) → self.new.first ≡ self.old.first }
        ensures limit { self.new.limit ≡ self.old.limit }
    {
        if self.full != 0 || self.head.len() == HEADER_LEN {
            return;
        }
        if let Some(number) = input.get(HEADER_LEN - 1 - self.head.len()) {
            self.first = *number;
        }
    }

    /// The number of the next frame.
    fn number(&self) -> u8
        ensures { result ≡ number_of self.now.full self.now.first }
    {
        self.first.wrapping_add((self.full % 256) as u8)
    }

    /// Whether no byte has arrived.
    #[inline(always)]
    #[tactic(auto, using(crate::proofs::Held::nothing_held, crate::proofs::Held::held_nothing))]
    pub(crate) fn is_between(&self) -> bool
        requires { IsReading self.now }
        ensures { IsTrue result ↔ (held self.now ≡ []) }
    {
        self.full == 0 && self.head.is_empty()
    }

    /// Continues a header from the input. Returns whether it is complete.
    fn fill_head(&mut self, input: &mut &[u8]) -> bool
        requires { IsReading self.old }
        ensures reading { IsReading self.new }
        ensures same { (self.new.first ≡ self.old.first) × (self.new.full ≡ self.old.full) × (self.new.limit ≡ self.old.limit) }
        ensures kept { held self.new ++ input.new.now ≡ held self.old ++ input.old.now }
        ensures used { length input.new.now + length self.new.head.items ≡ length input.old.now + length self.old.head.items }
        ensures less { length input.new.now ≤ length input.old.now }
        ensures payload { self.new.payload ≡ self.old.payload }
        ensures done { (IsTrue result → length self.new.head.items ≡ 4) × (result ≡ false → (length self.new.head.items < 4) × (input.new.now ≡ [])) }
    {
        if self.head.len() == HEADER_LEN {
            return true;
        }
        fill_header(&mut self.head, input)
    }

    /// Returns the length in the header, which is that of the next frame.
    fn length(&self) -> Result<usize, FrameError>
        requires reading { IsReading self.now }
        requires whole { length self.now.head.items ≡ 4 }
        ensures ok { IfOk result (λ len. IsHeader self.now len) }
        ensures refused { IfErr result (ShowsFault (state_of self.now)) }
    {
        let head = self.head.as_slice();
        let len = length_in(head);
        if head[3] != self.number() {
            return Err(FrameError::OutOfOrder);
        }
        let start = self.full * MAX_FRAME_LEN;
        if self.limit < start || self.limit - start < len {
            return Err(FrameError::TooLong);
        }
        Ok(len)
    }

    /// Continues a frame of `len` bytes from the input. Returns whether it is complete.
    fn fill_body(&mut self, input: &mut &[u8], len: usize) -> Result<bool, AllocError>
        requires reading { IsReading self.old }
        requires header { IsHeader self.old len }
        ensures reading { IsReading self.new }
        ensures header { IsHeader self.new len }
        ensures same { (self.new.first ≡ self.old.first) × (self.new.full ≡ self.old.full) × (self.new.limit ≡ self.old.limit) }
        ensures kept { held self.new ++ input.new.now ≡ held self.old ++ input.old.now }
        ensures used { length input.new.now + length self.new.head.items ≤ length input.old.now + length self.old.head.items }
        ensures done { IfOk result (λ done. (IsTrue done → HasFrame self.new len)
            × (done ≡ false → (length self.new.payload.items < self.new.full * 0xffffff + len) × (input.new.now ≡ []))) }
        ensures less { length input.new.now ≤ length input.old.now }
        ensures some { OnErr result (0 < length input.old.now) }
        ensures lacks { OnErr result ((length self.new.payload.items < self.new.full * 0xffffff + len) × LacksCapacity (vec_capacity self.old.payload) self.new len input.new.now) }
        ensures capacity { vec_capacity self.old.payload ≤ vec_capacity self.new.payload }
    {
        let missing = len - (self.payload.len() - self.full * MAX_FRAME_LEN);
        fill(&mut self.payload, input, missing)
    }

    /// Continues a frame from the input. Returns its length once it is complete.
    fn frame(&mut self, input: &mut &[u8]) -> Result<Option<usize>, FrameError>
        requires { IsReading self.old }
        ensures reading { IsReading self.new }
        ensures same { (self.new.first ≡ self.old.first) × (self.new.full ≡ self.old.full) × (self.new.limit ≡ self.old.limit) }
        ensures kept { held self.new ++ input.new.now ≡ held self.old ++ input.old.now }
        ensures used { length input.new.now + length self.new.head.items ≤ length input.old.now + length self.old.head.items }
        ensures whole { IfOk result (λ found. IfSome found (HasFrame self.new)) }
        ensures part { IfOk result (λ found. IfNone found ((input.new.now ≡ []) × NoneWhole self.new.first (held self.new))) }
        ensures refused { IfErr result (Refuses (state_of self.new) input.new.now) }
        ensures less { length input.new.now ≤ length input.old.now }
        ensures some { IsErrOf result FrameError.Memory → 0 < length input.old.now }
        ensures no_fault { IfOk result (λ found. IfNone found (ShowsNoFault (state_of self.new))) }
        ensures lacks { IsErrOf result FrameError.Memory → Lacks (vec_capacity self.old.payload) self.new input.new.now }
        ensures capacity { vec_capacity self.old.payload ≤ vec_capacity self.new.payload }
    {
        if !self.fill_head(input) {
            return Ok(None);
        }
        let len = self.length()?;
        if !self.fill_body(input, len)? {
            return Ok(None);
        }
        Ok(Some(len))
    }

    /// Goes on to the payload's next frame, after a full one.
    fn next_frame(&mut self)
        requires reading { IsReading self.old }
        requires full { HasFrame self.old 0xffffff }
        ensures reading { IsReading self.new }
        ensures same { (self.new.first ≡ self.old.first) × (self.new.limit ≡ self.old.limit) }
        ensures kept { held self.new ≡ held self.old }
        ensures head { self.new.head.items ≡ [] }
        ensures payload { self.new.payload ≡ self.old.payload }
    {
        self.full += 1;
        self.head.clear();
    }

    /// Returns the payload, after its last frame.
    fn finish(&mut self, len: usize) -> Vec<u8>
        requires reading { IsReading self.old }
        requires last { HasFrame self.old len }
        requires short { len < 0xffffff }
        ensures reading { IsReading self.new }
        ensures framed { (rest : List ℕ) → spec.Framed self.old.first result.items self.new.first (held self.old ++ rest) rest }
        ensures within { length result.items ≤ self.old.limit }
        ensures held { held self.new ≡ [] }
        ensures limit { self.new.limit ≡ self.old.limit }
    {
        self.first = self.number().wrapping_add(1);
        self.full = 0;
        self.head.clear();
        mem::replace(&mut self.payload, Vec::new(self.alloc))
    }

    /// Takes the input up to the end of a payload, and returns the payload; or takes all of the input.
    #[inline(never)]
    fn read_on(&mut self, input: &mut &[u8]) -> Result<Option<Vec<u8>>, FrameError>
        requires { IsReading self.old }
        ensures reading { IsReading self.new }
        ensures payload { IfOk result (λ found. IfSome found (λ payload. HandsOut (state_of self.old) input.old.now payload.items (state_of self.new) input.new.now)) }
        ensures more { IfOk result (λ found. IfNone found (HoldsAll (state_of self.old) input.old.now (state_of self.new) input.new.now)) }
        ensures err { OnErr result (Keeps (state_of self.old) input.old.now (state_of self.new) input.new.now) }
        ensures refused { IfErr result (Refuses (state_of self.new) input.new.now) }
        ensures some { IsErrOf result FrameError.Memory → 0 < length input.old.now }
        ensures no_fault { IfOk result (λ found. IfNone found (ShowsNoFault (state_of self.new))) }
        ensures lacks { IsErrOf result FrameError.Memory → Lacks (vec_capacity self.old.payload) self.new input.new.now }
    {
        'frames: loop {
            match self.frame(input)? {
                None => return Ok(None),
                Some(len) if len == MAX_FRAME_LEN => self.next_frame(),
                Some(len) => return Ok(Some(self.finish(len))),
            }
        }
    }

    /// Reads the next payload, joined in a block of memory.
    ///
    /// This is a function of its own, with an input of its own: the caller then keeps its input in registers,
    /// and clears no memory for a result that is seldom made.
    #[inline(always)]
    fn read_joined<'a>(
        &mut self,
        input: &mut &'a [u8],
    ) -> Result<Option<CowSlice<'a, u8>>, FrameError>
        requires { IsReading self.old }
        ensures reading { IsReading self.new }
        ensures ready { IsReady self.new }
        ensures payload { IfOk result (λ found. IfSome found (λ payload. HandsOut (state_of self.old) input.old.now (cow_slice_items payload) (state_of self.new) input.new.now)) }
        ensures more { IfOk result (λ found. IfNone found (HoldsAll (state_of self.old) input.old.now (state_of self.new) input.new.now)) }
        ensures err { OnErr result (Keeps (state_of self.old) input.old.now (state_of self.new) input.new.now) }
        ensures refused { IfErr result (Refuses (state_of self.new) input.new.now) }
        ensures some { IsErrOf result FrameError.Memory → 0 < length input.old.now }
        ensures no_fault { IfOk result (λ found. IfNone found (ShowsNoFault (state_of self.new))) }
        ensures lacks { IsErrOf result FrameError.Memory → Lacks (vec_capacity self.old.payload) self.new input.new.now }
    {
        let mut left = *input;
        let found = self.read_on(&mut left);
        self.in_place = if self.is_between() {
            bound_in_place(self.limit)
        } else {
            0
        };
        *input = left;
        match found? {
            Some(payload) => Ok(Some(CowSlice::Owned(payload))),
            None => Ok(None),
        }
    }

    /// Reads the next payload. One that arrives in a single frame of the input is returned in place.
    #[inline]
    #[tactic(auto, using(crate::proofs::Shown::held_bounded))]
    pub(crate) fn read<'a>(
        &mut self,
        input: &mut &'a [u8],
    ) -> Result<Option<CowSlice<'a, u8>>, FrameError>
        requires reading { IsReading self.old }
        requires ready { IsReady self.old }
        ensures reading { IsReading self.new }
        ensures ready { IsReady self.new }
        ensures payload { IfOk result (λ found. IfSome found (λ payload. HandsOut (state_of self.old) input.old.now (cow_slice_items payload) (state_of self.new) input.new.now)) }
        ensures more { IfOk result (λ found. IfNone found (HoldsAll (state_of self.old) input.old.now (state_of self.new) input.new.now)) }
        ensures err { OnErr result (Keeps (state_of self.old) input.old.now (state_of self.new) input.new.now) }
        ensures no_memory { held self.old ≡ [] → (payload rest : List ℕ) → spec.FramedIn 0xffffff 0 self.old.first payload (spec.next self.old.first) input.old.now rest
            → length payload ≤ self.old.limit → IsOk result }
        ensures refused { IfErr result (Refuses (state_of self.new) input.new.now) }
        ensures some { IsErrOf result FrameError.Memory → 0 < length input.old.now }
        ensures no_fault { IfOk result (λ found. IfNone found (ShowsNoFault (state_of self.new))) }
        ensures lacks { IsErrOf result FrameError.Memory → Lacks (vec_capacity self.old.payload) self.new input.new.now }
        ensures bounded { length (held self.new) ≤ self.new.limit + 4 * (self.new.limit / 0xffffff + 1) }
    {
        if let Some((payload, rest)) = whole_at(self.in_place, self.first, input) {
            self.first = self.first.wrapping_add(1);
            *input = rest;
            return Ok(Some(CowSlice::Borrowed(payload)));
        }
        self.read_joined(input)
    }

    /// Keeps a block of memory for later payloads, if none is in use.
    #[inline(never)]
    pub(crate) fn keep(&mut self, buffer: Vec<u8>)
        requires reading { IsReading self.old }
        requires ready { IsReady self.old }
        ensures reading { IsReading self.new }
        ensures ready { IsReady self.new }
        ensures held { held self.new ≡ held self.old }
        ensures same { (self.new.first ≡ self.old.first) × (self.new.limit ≡ self.old.limit) }
        ensures capacity { self.old.payload.items ≡ [] → vec_capacity self.new.payload ≡ vec_capacity buffer }
        ensures payload { self.old.payload.items ≢ [] → self.new.payload ≡ self.old.payload }
    {
        if self.payload.is_empty() {
            let mut buffer = buffer;
            buffer.clear();
            self.payload = buffer;
        }
    }
}
