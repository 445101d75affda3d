//! The columns of the last result.

ghost use Rattle.std.specs.Prelude.{◌≡◌, IfSome, IfNone, OnErr, IsTrue, Some, None, is_ok};
ghost use Rattle.mysql_conversation.specs.declared.packet_kind.PacketKind.TheVariants as kinds;
ghost use Rattle.mysql_statements.specs.ResultColumns as spec;

use crate::packets::column_at;
use crate::row_column::RowColumn;
use mysql_conversation::PacketKind;
use mysql_replies::SessionCapabilities;
use std::alloc::{AllocError, Global};
use std::marker::Model;

/// The type and the sign of each column of the last result, from its own definitions, to convert the values of
/// text rows.
///
/// It takes each packet of the server, in order ([`take`](Self::take)). Definitions in the answer to a
/// preparation belong to no result. The limit bounds how many columns are kept.
///
/// ```
/// columns.take(agreed, kind, payload)?;
/// Ok(columns.columns().is_some())
/// ```
#[derive(Drop)]
pub struct ResultColumns {
    alloc: Global,
    limit: usize,
    left: Option<u64>,
    columns: Vec<RowColumn>,
}

impl Model for ResultColumns {
    ghost use Rattle.mysql_statements.specs.ResultColumns.{ResultColumns as Columns};

    ghost Value = { Columns };

    ghost view = { λ r. record { limit = r.limit; left = r.left; columns = r.columns.items } };
}

impl ResultColumns {
    /// Creates an empty list before the first result. If a result has more than `limit` columns, none is kept.
    pub fn new(alloc: Global, limit: usize) -> Self
        ensures value { result ≡ spec.unknown limit }
    {
        ResultColumns {
            alloc,
            limit,
            left: None,
            columns: Vec::new(alloc),
        }
    }

    /// Returns the columns, in order, if all of their definitions have come and are kept.
    pub fn columns(&self) -> Option<&[RowColumn]>
        ensures some { IfSome result (λ columns. spec.known self.now ≡ Some columns.now) }
        ensures none { IfNone result (spec.known self.now ≡ None) }
    {
        match self.left {
            Some(0) => Some(self.columns.as_slice()),
            _ => None,
        }
    }

    /// Forgets the result.
    pub fn forget(&mut self)
        ensures { self.new ≡ spec.unknown self.old.limit }
    {
        self.left = None;
        self.columns.clear();
    }

    /// Takes the server's next packet, of this kind.
    ///
    /// If there is no memory for a column, no column of the result is known.
    #[inline]
    pub fn take(
        &mut self,
        agreed: SessionCapabilities,
        kind: PacketKind,
        payload: &[u8],
    ) -> Result<(), AllocError>
        ensures taken { self.new ≡ spec.after (is_ok result) agreed kind payload.now self.old }
        // Memory is requested only if a column is kept.
        ensures asked { OnErr result (IsTrue (spec.takes_memory agreed kind payload.now self.old)) }
    {
        match kind {
            PacketKind::ColumnCount(count, follow) => {
                self.begin(count, follow);
                Ok(())
            }
            PacketKind::Column => self.define(agreed, payload),
            PacketKind::PrepareOk(_, _, _) | PacketKind::Error => {
                self.forget();
                Ok(())
            }
            _ => Ok(()),
        }
    }

    /// Begins a result of a given number of columns, whose definitions follow or not.
    #[inline(never)]
    fn begin(&mut self, count: u64, follow: bool)
        ensures { self.new ≡ spec.begun count follow self.old }
    {
        self.forget();
        if follow && count <= self.limit as u64 {
            self.left = Some(count);
        }
    }

    /// Takes a definition, if one is expected.
    #[inline(never)]
    fn define(&mut self, agreed: SessionCapabilities, payload: &[u8]) -> Result<(), AllocError>
        ensures taken { self.new ≡ spec.after (is_ok result) agreed kinds.Column payload.now self.old }
        ensures asked { OnErr result (IsTrue (spec.takes_memory agreed kinds.Column payload.now self.old)) }
    {
        let Some(left) = self.left else {
            return Ok(());
        };
        let Some(left) = left.checked_sub(1) else {
            return Ok(());
        };
        let Some(column) = column_at(self.alloc, agreed, payload) else {
            self.forget();
            return Ok(());
        };
        if self.columns.push(column).is_err() {
            self.forget();
            return Err(AllocError);
        }
        self.left = Some(left);
        Ok(())
    }
}
