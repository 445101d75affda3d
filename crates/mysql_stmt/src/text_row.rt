//! Text rows, written from their cells.
#![tactic(auto, using(crate::proofs::SentBytes::written), unfolding(mysql_wire::specs::Writing::saturated))]

ghost use Rattle.std.specs.Prelude.{◌≡◌, ◌+◌, ◌++◌, ◌≤◌, length, map, vec_len, vec_capacity, IsOk, OnOk, OnErr};
ghost use Rattle.std.specs.Option.{option_copied};
ghost use Rattle.mysql_stmt.specs.TextRow.{text_row_bytes};

use crate::items::{ItemForm, Items};
use mysql_wire::{Buffer, BytesRepr, LenEnc, MySerialize};
use std::alloc::AllocError;

/// The first byte of a NULL cell.
const NULL: u8 = 0xfb;

/// Cells are written as text.
#[derive(Drop)]
struct AsText;

impl<'a> ItemForm<Option<&'a [u8]>> for AsText {
    ghost use Rattle.std.specs.Option.{option_copied};
    ghost use Rattle.mysql_stmt.specs.TextRow.{text_cell_bytes};

    ghost item_bytes = { λ _ cell. text_cell_bytes (option_copied cell) };

    #[inline(always)]
    fn item_len(&self, cell: &Option<&'a [u8]>) -> usize {
        match cell {
            Some(content) => <LenEnc as BytesRepr>::written_len(content),
            None => 1,
        }
    }

    #[inline(always)]
    fn append_item<O: Buffer>(&self, cell: &Option<&'a [u8]>, out: &mut O) {
        match cell {
            Some(content) => <LenEnc as BytesRepr>::append(content, out),
            None => out.push_byte(NULL),
        }
    }
}

/// Appends a text row (`ProtocolText::ResultsetRow`) to a buffer, which grows at most once.
///
/// Each cell is a length-encoded string, or the byte `fb` for NULL. If the allocation fails, the buffer is unchanged; it
/// doesn't fail if the buffer has the capacity. The capacity never shrinks.
///
/// ```
/// text_row_round_trips();
/// write_text_row(cells, out)
/// ```
#[tactic(auto, using(crate::proofs::SentBytes::cells))]
pub fn write_text_row(cells: &[Option<&[u8]>], out: &mut Vec<u8>) -> Result<(), AllocError>
    ensures ok { OnOk result (out.new.items ≡ out.old.items ++ text_row_bytes (map option_copied cells.now)) }
    ensures err { OnErr result (out.new.items ≡ out.old.items) }
    ensures no_memory { vec_len out.old + length (text_row_bytes (map option_copied cells.now)) ≤ vec_capacity out.old → IsOk result }
    ensures capacity { vec_capacity out.old ≤ vec_capacity out.new }
{
    let row = Items {
        items: cells,
        form: AsText,
    };
    row.serialize(out)
}
