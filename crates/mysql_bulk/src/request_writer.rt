//! A writer of bulk requests, which keeps the bytes of the rows that are added and not their values.

ghost use Rattle.std.specs.Prelude.{◌≡◌, ◌≢◌, ◌+◌, ◌++◌, ◌<◌, ◌≤◌, ◌-◌, ◌^◌, ◌↔◌, IsTrue, IfOk, IfSome, IfNone, OnErr, OnSome, MatchOption, [], length, map, None, Some, true, false, if◌then◌else◌, vec_len, vec_capacity, List};
ghost use Rattle.std.specs.Bool.{OnTrue, OnFalse};
ghost use Rattle.mysql_values.specs.Value.{Content};
ghost use Rattle.mysql_values.specs.ValueRef.{ref_content};
ghost use Rattle.mysql_bulk.specs.Builder.{RowFits};
ghost use Rattle.mysql_bulk.specs.Head.{head};
ghost use Rattle.mysql_bulk.specs.RequestWriter.{as_builder, Holds, StartsAsBuilder, AddsAsBuilder, IsBuilt, FinishesAsBuilder, HasRoom, head_bytes, head_size, with_row};
ghost use Rattle.mysql_bulk.specs.Row.{row_size};
ghost use Rattle.mysql_bulk.specs.BulkValue.{Cell};
ghost use Rattle.mysql_bulk.specs.ValueRows.{HoldsCells, IsRequestOf, LetsGo};

use crate::builder::{flags_of, size_with};
use crate::column_types::{first_refused, spell_row};
use crate::error::{BulkColumnTypeError, BulkRowError};
use crate::row::row_len;
use crate::size::request_len;
use mysql_cuts::BulkRule;
use mysql_values::{ParamType, ValueRef};
use mysql_wire::{
    ComStmtBulkExecuteHeader, Const, LeU16, LeU32, MySerialize, RawInt, Seq, StmtBulkExecuteFlags,
    Unknown, parts,
};
use std::marker::Model;
use std::mem;

mod offered;
mod run;
mod values;

use offered::{OfferedRow, PlainRow};
pub use run::BulkValuesRun;

/// Writes the rows of a bulk execution directly into the bytes of its requests, each within the packet limit.
///
/// Its results and its requests, byte for byte, are those of a
/// [`ComStmtBulkExecuteRequestBuilder`](crate::ComStmtBulkExecuteRequestBuilder) with the same settings and
/// declared types; but each byte of a value is copied once, and a row takes no memory except for the buffer.
/// The types of the columns are declared when the writer is created, since they precede the values in a
/// request.
///
/// Rows are added until one does not fit; then the request is taken from [`request`](Self::request), and after
/// [`finish`](Self::finish) the row is added again.
///
/// ```
/// match writer.add_row_refs(row) {
///     Ok(true) => Ok(()),
///     Ok(false) => Err(BulkRowError::TooLarge),
///     Err(refusal) => Err(refusal),
/// }
/// ```
#[derive(Debug, Drop)]
pub struct BulkRequestWriter<'a> {
    stmt_id: u32,
    limit: u64,
    results: bool,
    rule: BulkRule,
    types: &'a [ParamType],
    types_due: bool,
    /// The number of rows that were written, and their length in the request in bytes.
    count: usize,
    size: u64,
    /// The request so far.
    bytes: Vec<u8>,
}

impl<'a> Model for BulkRequestWriter<'a> {
    ghost use Rattle.std.specs.Prelude.{vec_capacity};
    ghost use Rattle.mysql_bulk.specs.RequestWriter.{WriterState};

    ghost Value = { WriterState };

    ghost view = { λ a. record {
      stmt_id = a.stmt_id;
      limit = a.limit;
      results = a.results;
      rule = a.rule;
      types = a.types.now;
      types_due = a.types_due;
      count = a.count;
      size = a.size;
      bytes = a.bytes.items;
      capacity = vec_capacity a.bytes;
    } };
}

/// Writes the fields before the values of a request, for which there is capacity.
#[tactic(auto, using(mysql_wire::proofs::Packets::packets), unfolding(crate::specs::Head::head))]
fn append_head(
    out: &mut Vec<u8>,
    stmt_id: u32,
    bulk_flags: StmtBulkExecuteFlags,
    types: &[ParamType],
)
    requires { vec_len out.old + length (head.bytes (record { stmt_id = stmt_id; bulk_flags = bulk_flags; types = types.now })) ≤ vec_capacity out.old }
    ensures items { out.new.items ≡ out.old.items ++ head.bytes (record { stmt_id = stmt_id; bulk_flags = bulk_flags; types = types.now }) }
    ensures capacity { vec_capacity out.old ≤ vec_capacity out.new }
{
    let header = ComStmtBulkExecuteHeader::new();
    let stmt_id = RawInt::<LeU32>::new(stmt_id);
    let bulk_flags = Const::<StmtBulkExecuteFlags, LeU16>::new(bulk_flags);
    let types = Seq::<ParamType, Unknown>::borrowed(types);
    parts!(header, stmt_id, bulk_flags, types).append(out);
}

impl<'a> BulkRequestWriter<'a> {
    /// Creates a writer into a buffer, which it empties first and whose memory it uses for each request. A
    /// request may be as long as a packet, minus four bytes. It takes no memory.
    ///
    /// The types of the columns are those that
    /// [`with_column_types`](crate::ComStmtBulkExecuteRequestBuilder::with_column_types) accepts. If one can't
    /// be declared, the error has its position.
    pub fn new(
        buffer: Vec<u8>,
        stmt_id: u32,
        max_allowed_packet: usize,
        types: &'a [ParamType],
    ) -> Result<Self, BulkColumnTypeError>
        requires { 4 ≤ max_allowed_packet }
        ensures none { IfOk result (λ writer. writer.count ≡ 0) }
        ensures capacity { IfOk result (λ writer. writer.capacity ≡ vec_capacity buffer) }
        ensures starts { StartsAsBuilder stmt_id (max_allowed_packet - 4) types.now result }
    {
        if let Some(place) = first_refused(types) {
            return Err(BulkColumnTypeError { place });
        }
        Ok(BulkRequestWriter::with_types(buffer, stmt_id, max_allowed_packet, types))
    }

    /// Requests a result for each row from the server.
    pub fn with_results(self) -> Self
        requires { self.count ≡ 0 }
        ensures { result ≡ record self.entry { results = true } }
    {
        let mut writer = self;
        writer.results = true;
        writer
    }

    /// Sends types in every request from now on, even if a request was written before.
    pub fn with_types_always(self) -> Self
        requires { self.count ≡ 0 }
        ensures { result ≡ record self.entry { types_due = true; rule = record self.entry.rule { types_always = true } } }
    {
        let mut writer = self;
        writer.types_due = true;
        writer.rule = BulkRule {
            types_always: true,
            max_rows: writer.rule.max_rows,
        };
        writer
    }

    /// Sends at most `k` rows in a request.
    pub fn with_max_rows(self, k: usize) -> Self
        requires none_waits { self.count ≡ 0 }
        requires some { 1 ≤ k }
        ensures { result ≡ record self.entry { rule = record self.entry.rule { max_rows = Some k } } }
    {
        let mut writer = self;
        writer.rule = BulkRule {
            types_always: writer.rule.types_always,
            max_rows: Some(k),
        };
        writer
    }

    /// Whether rows wait for a request.
    pub fn has_rows(&self) -> bool
        ensures { IsTrue result ↔ (self.now.count ≢ 0) }
    {
        self.count != 0
    }

    /// Returns the buffer, with the request so far.
    pub fn into_buffer(self) -> Vec<u8>
        ensures items { result.items ≡ self.entry.bytes }
        ensures capacity { vec_capacity result ≡ self.entry.capacity }
    {
        self.bytes
    }

    /// Writes a row, if it fits.
    ///
    /// If the row fits with the waiting rows, it is written after them, and the result is `Ok(true)`; if it
    /// doesn't, the result is `Ok(false)`, and the request is complete. The errors are those of
    /// [`add_row_refs`](crate::ComStmtBulkExecuteRequestBuilder::add_row_refs): `Memory` if the buffer couldn't
    /// grow, but not if it has the capacity. If no row is written, the writer is unchanged. The length of the
    /// row is computed first, and the buffer grows at most once.
    ///
    /// ```
    /// let taken = writer.add_row_refs(row)?;
    /// if taken {
    /// return Ok(());
    /// }
    /// let Some(bytes) = writer.request() else {
    /// ```
    // Inlined: a loop over rows of a known length is faster then.
    #[inline(always)]
    pub fn add_row_refs(&mut self, row: &[ValueRef<'_>]) -> Result<bool, BulkRowError>
        ensures adds { AddsAsBuilder self.old (map ref_content row.now) result self.new }
        ensures waits { IfOk result (λ taken. taken ≡ false → self.new ≡ self.old) }
        ensures err { OnErr result (self.new ≡ self.old) }
        ensures capacity { self.old.capacity ≤ self.new.capacity }
        ensures no_memory { HasRoom self.old (map ref_content row.now) → result ≢ Err BulkRowError.Memory }
    {
        if row.len() != self.types.len() {
            return Err(BulkRowError::MixedArity);
        }
        if !spell_row(self.types, row) {
            return Err(BulkRowError::MixedTypes);
        }
        let Some(size) = self.size_after(row) else {
            return if self.count == 0 {
                Err(BulkRowError::TooLarge)
            } else {
                Ok(false)
            };
        };
        if self.count == 0 {
            return if self.write_first(&PlainRow { values: row }, size) {
                Ok(true)
            } else {
                Err(BulkRowError::Memory)
            };
        }
        if self.write_further(&PlainRow { values: row }, size) {
            Ok(true)
        } else {
            Err(BulkRowError::Memory)
        }
    }

    /// The length in bytes of the rows with one more, if these fit in one request.
    #[inline(always)]
    fn size_after(&self, row: &[ValueRef<'_>]) -> Option<u64>
        ensures { MatchOption result ((rows : List (List Content)) → Holds self.now rows → RowFits (as_builder self.now rows) (map ref_content row.now) → ⊥)
            (λ n. (n ≡ self.now.size + row_size (map ref_content row.now)) × ((rows : List (List Content)) → Holds self.now rows → RowFits (as_builder self.now rows) (map ref_content row.now))) }
    {
        size_with(
            self.rule,
            self.limit,
            self.types_due,
            self.count,
            self.size,
            row,
            row_len(row),
        )
    }

    /// Writes the first row of a request, after the fields before it. If the allocation fails, nothing is written.
    fn write_first<R: OfferedRow>(&mut self, row: &R, size: u64) -> bool
        requires { size ≡ self.old.size + length (R.bytes row.now) }
        ensures written { OnTrue result (self.new ≡ with_row self.old (self.old.bytes ++ head_bytes self.old) size self.new.capacity (R.bytes row.now)) }
        ensures stays { OnFalse result (self.new ≡ self.old) }
        ensures capacity { self.old.capacity ≤ self.new.capacity }
        ensures no_memory { self.old.count + 1 < 2 ^ 64 → length self.old.bytes + (head_size self.old + size) ≤ self.old.capacity → IsTrue result }
    {
        let Some(count) = self.count.checked_add(1) else {
            return false;
        };
        let Some(bytes) = request_len(self.types.len(), self.types_due, size) else {
            return false;
        };
        let Ok(()) = self.bytes.reserve(bytes as usize) else {
            return false;
        };
        let bulk_flags = flags_of(self.types_due, self.results);
        let types = sent_types(self.types_due, self.types);
        append_head(&mut self.bytes, self.stmt_id, bulk_flags, types);
        row.append_to(&mut self.bytes);
        self.size = size;
        self.count = count;
        true
    }

    /// Writes another row. If the allocation fails, nothing is written.
    #[inline(always)]
    fn write_further<R: OfferedRow>(&mut self, row: &R, size: u64) -> bool
        requires { size ≡ self.old.size + length (R.bytes row.now) }
        ensures written { OnTrue result (self.new ≡ with_row self.old self.old.bytes size self.new.capacity (R.bytes row.now)) }
        ensures stays { OnFalse result (self.new ≡ self.old) }
        ensures capacity { self.old.capacity ≤ self.new.capacity }
        ensures no_memory { self.old.count + 1 < 2 ^ 64 → length self.old.bytes + (size - self.old.size) ≤ self.old.capacity → IsTrue result }
    {
        let Some(count) = self.count.checked_add(1) else {
            return false;
        };
        let Ok(()) = self.bytes.reserve((size - self.size) as usize) else {
            return false;
        };
        row.append_to(&mut self.bytes);
        self.size = size;
        self.count = count;
        true
    }

    /// The bytes of the request of the rows that were written, the same as those of the builder's request, or
    /// `None` if no row was written.
    pub fn request(&self) -> Option<&[u8]>
        ensures built { (rows : List (List Content)) → Holds self.now rows → MatchOption result (rows ≡ []) (λ bytes. IsBuilt (as_builder self.now rows) bytes.now) }
        ensures bytes { MatchOption result (self.now.count ≡ 0) (λ bytes. bytes.now ≡ self.now.bytes) }
        ensures of_cells { (rows : List (List Cell)) → HoldsCells self.now rows → MatchOption result (rows ≡ []) (λ bytes. IsRequestOf self.now rows bytes.now) }
    {
        if self.count == 0 {
            None
        } else {
            Some(self.bytes.as_slice())
        }
    }

    /// Returns the request of the rows that were written, in the memory of the buffer: its rows no longer wait,
    /// and the buffer is replaced by a new one. If no row was written, the result is `None`, and nothing
    /// changes. It takes no memory.
    pub fn build(&mut self) -> Option<Vec<u8>>
        ensures bytes { MatchOption result (self.old.count ≡ 0) (λ bytes. (self.old.count ≢ 0) × (bytes.items ≡ self.old.bytes)) }
        ensures of_cells { (rows : List (List Cell)) → HoldsCells self.old rows → MatchOption result (rows ≡ []) (λ bytes. IsRequestOf self.old rows bytes.items) }
        ensures capacity { IfSome result (λ bytes. vec_capacity bytes ≡ self.old.capacity) }
        ensures lets_go { LetsGo self.old self.new }
        ensures stays { IfNone result (self.new ≡ self.old) }
        // The new buffer has no memory yet.
        ensures no_buffer { OnSome result (self.new.capacity ≡ 0) }
    {
        if self.count == 0 {
            return None;
        }
        let buffer = Vec::new(*self.bytes.allocator());
        let request = mem::replace(&mut self.bytes, buffer);
        self.finish();
        Some(request)
    }

    /// Finishes the request: its rows no longer wait, and the next row begins another request. Without rows,
    /// nothing changes. The buffer keeps its memory.
    pub fn finish(&mut self)
        ensures finishes { FinishesAsBuilder self.old self.new }
        ensures lets_go { LetsGo self.old self.new }
        ensures capacity { self.new.capacity ≡ self.old.capacity }
    {
        if self.count == 0 {
            return;
        }
        self.bytes.clear();
        self.count = 0;
        self.size = 0;
        self.types_due = self.rule.types_always;
    }
}

/// The types that a request sends.
fn sent_types(types_due: bool, types: &[ParamType]) -> &[ParamType]
    ensures { result.now ≡ (if types_due then types.now else []) }
{
    if types_due { types } else { &[] }
}
