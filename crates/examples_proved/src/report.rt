//! A report: the sum over one column of rows that stay in their packets.

ghost use Rattle.std.specs.Prelude.{◌≡◌, ◌∷◌, Some, IfSome, slice_get};
ghost use Rattle.mysql_packets.specs.ValueRef.{ref_content};
ghost use Rattle.examples_proved.specs.Report.{HasNumber, SumsTo};

use mysql_packets::io::ParseBuf;
use mysql_packets::row::TextRowView;
use mysql_packets::value::ValueRef;
use mysql_packets::value::convert::FromValueRef;
use std::alloc::Global;

/// Returns the next value of a row, if there is one and it is valid.
fn next<'a>(row: &mut TextRowView<'a>) -> Option<ValueRef<'a>>
    ensures { IfSome result (λ value. row.old.values ≡ ref_content value ∷ row.new.values) }
{
    match row.next_value() {
        Ok(value) => value,
        Err(_) => None,
    }
}

/// The value in this place, where the row has it.
#[tactic(auto, using(crate::proofs::Places::places))]
pub fn value_at<'a>(row: TextRowView<'a>, place: usize) -> Option<ValueRef<'a>>
    ensures value { IfSome result (λ value. slice_get row.entry.values place ≡ Some (ref_content value)) }
{
    let mut row = row;
    for _ in 0..place {
        next(&mut row)?;
    }
    let value = next(&mut row)?;
    Some(value)
}

/// The number in this place of a row of a given number of columns.
fn number_at(alloc: Global, columns: usize, place: usize, payload: &[u8]) -> Option<u64>
    ensures number { IfSome result (λ number. HasNumber columns place payload.now number) }
{
    let row = TextRowView::new(columns, ParseBuf::new(alloc, payload));
    let value = value_at(row, place)?;
    u64::from_value_ref_opt(value).ok()
}

/// The sum over one column of text rows; none where a row is cut, has no number there, or the sum is past `u64`.
pub fn sum_of_column(alloc: Global, columns: usize, place: usize, rows: &[&[u8]]) -> Option<u64>
    ensures sum { IfSome result (λ total. SumsTo columns place rows.now total) }
{
    let mut total: u64 = 0;
    for row in rows {
        let number = number_at(alloc, columns, place, row)?;
        total = total.checked_add(number)?;
    }
    Some(total)
}
