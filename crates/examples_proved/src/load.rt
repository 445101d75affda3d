//! A loader: rows are streamed to a server in the fewest requests, and none is lost.

ghost use Rattle.std.specs.Prelude.{◌≡◌, ◌≢◌, ◌++◌, ◌∷◌, [], true, map, IfOk, Ok};
ghost use Rattle.mysql_packets.specs.ValueRef.{ref_content};
ghost use Rattle.mysql_packets.specs.RequestWriter.{Holds, AddsAsBuilder};
ghost use Rattle.mysql_packets.specs.StreamedRows.{AreFewest};
ghost use Rattle.examples_proved.specs.Stream.{Steps, rows_held, bytes_of};

use mysql_packets::laws::bulk::streamed_rows_are_sent_in_the_fewest_requests;
use mysql_packets::packets::{BulkRequestWriter, BulkRowError};
use mysql_packets::value::ValueRef;
use std::alloc::Global;

/// Adds a row. If it doesn't fit with those that wait, their request is finished first.
fn offer(
    alloc: Global,
    writer: &mut BulkRequestWriter<'_>,
    requests: &mut Vec<Vec<u8>>,
    row: &[ValueRef<'_>],
) -> Result<(), BulkRowError>
    ensures { IfOk result (λ _. Steps writer.old (map ref_content row.now) (bytes_of requests.old.items) writer.new (bytes_of requests.new.items)) }
{
    let taken = writer.add_row_refs(row)?;
    if taken {
        return Ok(());
    }
    let Some(bytes) = writer.request() else {
        return Err(BulkRowError::Memory);
    };
    let Ok(copy) = Vec::from_slice(alloc, bytes) else {
        return Err(BulkRowError::Memory);
    };
    if requests.push(copy).is_err() {
        return Err(BulkRowError::Memory);
    }
    writer.finish();
    offer_first(writer, row)?;
    Ok(())
}

/// Offers a row where none waits.
fn offer_first(writer: &mut BulkRequestWriter<'_>, row: &[ValueRef<'_>]) -> Result<(), BulkRowError>
    ensures { IfOk result (λ _. AddsAsBuilder writer.old (map ref_content row.now) (Ok true) writer.new) }
{
    match writer.add_row_refs(row) {
        Ok(true) => Ok(()),
        Ok(false) => Err(BulkRowError::TooLarge),
        Err(refusal) => Err(refusal),
    }
}

/// Streams rows through a new writer. The finished requests, and the last one, which is in the writer, are those of a cut of
/// the rows into the fewest requests.
pub fn stream(
    alloc: Global,
    writer: &mut BulkRequestWriter<'_>,
    rows: &[Vec<ValueRef<'_>>],
) -> Result<Vec<Vec<u8>>, BulkRowError>
    requires new { Holds writer.old [] }
    requires due { writer.old.types_due ≡ true }
    requires some { rows.now ≢ [] }
    ensures fewest { IfOk result (λ requests. AreFewest writer.old (rows_held rows.now) (bytes_of requests.items ++ writer.new.bytes ∷ [])) }
{
    let mut requests = Vec::new(alloc);
    for row in rows {
        offer(alloc, writer, &mut requests, row.as_slice())?;
    }
    streamed_rows_are_sent_in_the_fewest_requests();
    Ok(requests)
}
