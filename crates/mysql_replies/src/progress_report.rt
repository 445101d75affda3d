//! Progress of a long statement.
#![tactic(auto, using(mysql_wire::proofs::Packets::packets), unfolding(crate::specs::ProgressReport::progress_report))]

ghost use Rattle.std.specs.Prelude.{◌≡◌, [], None, Some, refl, IfOk, IsOk};
ghost use Rattle.std.specs.Cow.{cow_slice_items};
ghost use Rattle.mysql_wire.specs.Text.{GivesText};
ghost use Rattle.mysql_replies.specs.ProgressReport as spec;

use bstr::BStr;
use mysql_wire::{
    AnyWidth, BytesRef, FaultOf, LeU24, LenEnc, MyDeserialize, ParseBuf, Parts, RawBytes, RawInt,
    Sink, parts,
};
use std::alloc::{AllocError, Global};
use std::borrow::{CowSlice, CowStr};
use std::fmt;
use std::fmt::Debug;

/// A [`ProgressReport`], whose text is a `B`.
#[derive(Clone, PartialEq, Eq, Drop)]
pub struct ProgressReportOf<B> {
    stage: RawInt<u8>,
    max_stage: RawInt<u8>,
    progress: RawInt<LeU24>,
    stage_info: B,
}

/// The progress of a long statement, which a MariaDB server sends in an error packet.
///
/// Six bytes: a count of strings (ignored by clients: `cli_report_progress` in libmariadb; written as 1), the
/// stage, the last stage, and the progress in thousandths of a percent (three bytes, little-endian). Then the
/// stage's text, length-encoded.
///
/// ```
/// let packet: ErrPacketRef<'_> = ParseBuf::new(alloc, payload).parse(agreed)?;
/// if packet.is_error() {
/// return Ok(None);
/// }
/// let report = packet.progress_report();
/// Ok(Some((report.stage(), report.progress())))
/// ```
pub type ProgressReport<'a> = ProgressReportOf<RawBytes<'a, LenEnc>>;

/// A progress report whose text stays in the packet: a [`ProgressReport`] for as long as the packet lives.
///
/// It is read from the same bytes with the same faults, and in a clause it is that report.
///
/// ```
/// let packet: ErrPacketRef<'_> = ParseBuf::new(alloc, payload).parse(agreed)?;
/// if packet.is_error() {
///     return Ok(None);
/// }
/// let report = packet.progress_report();
/// Ok(Some((report.stage(), report.progress())))
/// ```
pub type ProgressReportRef<'a> = ProgressReportOf<BytesRef<'a>>;

impl<B> ProgressReportOf<B> {
    /// The stage, from 1 to `max_stage`.
    #[inline]
    pub fn stage(&self) -> u8
        ensures value { result ≡ spec.stage self.now }
    {
        self.stage.0
    }

    /// The last stage.
    #[inline]
    pub fn max_stage(&self) -> u8
        ensures value { result ≡ spec.max_stage self.now }
    {
        self.max_stage.0
    }

    /// The progress in thousandths of a percent.
    #[inline]
    pub fn progress(&self) -> u32
        ensures value { result ≡ spec.progress self.now }
    {
        self.progress.0
    }
}

impl<'a> ProgressReport<'a> {
    /// Creates a report. Only the low 24 bits of `progress` are written.
    #[inline]
    pub fn new(stage: u8, max_stage: u8, progress: u32, stage_info: CowSlice<'a, u8>) -> Self
        ensures value { result ≡ spec.report_of stage max_stage progress (cow_slice_items stage_info.entry) }
    {
        ProgressReportOf {
            stage: RawInt::new(stage),
            max_stage: RawInt::new(max_stage),
            progress: RawInt::new(progress),
            stage_info: RawBytes::new(stage_info),
        }
    }

    /// The bytes of the stage's text.
    #[inline]
    pub fn stage_info_ref(&self) -> &[u8]
        ensures value { result.now ≡ spec.stage_info self.now }
    {
        self.stage_info.as_bytes()
    }

    /// The text of the stage, with U+FFFD for invalid UTF-8. Valid UTF-8 is borrowed.
    pub fn stage_info_str(&self, alloc: Global) -> Result<CowStr<'_>, AllocError>
        ensures text { GivesText (spec.stage_info self.now) result }
    {
        self.stage_info.as_str(alloc)
    }

    /// Copies the text, so that the report borrows nothing. An empty text needs no allocation.
    pub fn into_owned(self, alloc: Global) -> Result<ProgressReport<'static>, AllocError>
        ensures value { IfOk result (λ owned. owned ≡ self.entry) }
        ensures no_memory { spec.stage_info self.entry ≡ [] → IsOk result }
    {
        Ok(ProgressReportOf {
            stage: self.stage,
            max_stage: self.max_stage,
            progress: self.progress,
            stage_info: self.stage_info.into_owned(alloc)?,
        })
    }
}

impl<'a> ProgressReportRef<'a> {
    /// The bytes of the stage's text.
    #[inline]
    pub fn stage_info(&self) -> &'a [u8]
        ensures value { result.now ≡ spec.stage_info self.now }
    {
        self.stage_info.as_bytes()
    }

    /// Converts to a [`ProgressReport`], which still borrows the text. It takes no memory.
    pub fn to_owned(&self) -> ProgressReport<'a>
        ensures value { result ≡ self.now }
    {
        ProgressReport::new(
            self.stage.0,
            self.max_stage.0,
            self.progress.0,
            CowSlice::Borrowed(self.stage_info.as_bytes()),
        )
    }
}

impl<B: Debug> Debug for ProgressReportOf<B> {
    fn fmt<W: fmt::Write>(&self, f: &mut fmt::Formatter<W>) -> fmt::Result {
        f.debug_struct("ProgressReport")
            .field("stage", &self.stage)
            .field("max_stage", &self.max_stage)
            .field("progress", &self.progress)
            .field("stage_info", &self.stage_info)
            .finish()
    }
}

/// Read like a [`ProgressReport`].
impl<'de> MyDeserialize<'de> for ProgressReportRef<'de> {
    const SIZE: Option<usize> = None;

    type Size = AnyWidth;

    type Ctx = ();

    ghost form = { spec.progress_report.form };

    #[inline]
    fn deserialize<'s>(_ctx: (), buf: &mut ParseBuf<'de>) -> Result<Self, FaultOf<'s>> {
        let mut numbers: ParseBuf<'de> = buf.parse(6)?;
        let _count: RawInt<u8> = RawInt::take(&mut numbers);
        let stage: RawInt<u8> = RawInt::take(&mut numbers);
        let max_stage: RawInt<u8> = RawInt::take(&mut numbers);
        let progress: RawInt<LeU24> = RawInt::take(&mut numbers);
        Ok(ProgressReportOf {
            stage,
            max_stage,
            progress,
            stage_info: BytesRef::read::<LenEnc>((), buf)?,
        })
    }

    ghost size_is = { λ _. unfold spec.progress_report in refl };
}

impl<'de> MyDeserialize<'de> for ProgressReport<'de> {
    const SIZE: Option<usize> = None;

    type Size = AnyWidth;

    type Ctx = ();

    ghost form = { spec.progress_report.form };

    fn deserialize<'s>(_ctx: (), buf: &mut ParseBuf<'de>) -> Result<Self, FaultOf<'s>> {
        let report: ProgressReportRef<'de> = buf.parse(())?;
        Ok(report.to_owned())
    }

    ghost size_is = { λ _. unfold spec.progress_report in refl };
}

impl Parts for ProgressReport<'_> {
    ghost bytes = { spec.progress_report.bytes };

    #[inline(always)]
    fn put<S: Sink>(&self, sink: &mut S) {
        let count: RawInt<u8> = RawInt::new(1);
        let numbers = parts!(count, self.stage, self.max_stage, self.progress);
        sink.part(&parts!(numbers, self.stage_info));
    }
}

impl fmt::Display for ProgressReport<'_> {
    ghost output = { λ r. Some (spec.progress_text r) };

    fn fmt<W: fmt::Write>(&self, f: &mut fmt::Formatter<W>) -> fmt::Result {
        let stage = self.stage.0;
        let max_stage = self.max_stage.0;
        let info = BStr::new(self.stage_info.as_bytes());
        let whole = self.progress.0 / 1000;
        let tens = self.progress.0 % 1000 / 100;
        let ones = self.progress.0 % 100 / 10;
        write!(
            f,
            "Stage: {stage} of {max_stage} '{info}'  {whole}.{tens}{ones}% of stage done"
        )
    }
}
