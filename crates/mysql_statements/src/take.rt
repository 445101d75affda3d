//! Updates the table by packets.

ghost use Rattle.std.specs.Prelude.{◌≡◌, OnErr, IsTrue, is_ok};
ghost use Rattle.mysql_statements.specs.After as spec;
ghost use Rattle.mysql_statements.specs.Bounds as bounds;
ghost use Rattle.mysql_statements.specs.Packets as packets;

use crate::layout::Layout;
use crate::packets::{column_at, data_at, number_at, prepared_at};
use crate::table::Statements;
use mysql_conversation::PacketKind;
use mysql_replies::SessionCapabilities;
use mysql_wire::command_code::{
    COM_CHANGE_USER, COM_RESET_CONNECTION, COM_STMT_BULK_EXECUTE, COM_STMT_CLOSE, COM_STMT_EXECUTE,
    COM_STMT_FETCH, COM_STMT_PREPARE, COM_STMT_RESET, COM_STMT_SEND_LONG_DATA,
};
use std::alloc::AllocError;

impl Statements {
    /// Takes the next packet of a conversation, with its kind, and updates the table.
    ///
    /// | Packet | Update |
    /// |---|---|
    /// | a prepared statement, and the definitions that follow | its parameters and columns, with their types |
    /// | `COM_STMT_EXECUTE`, `COM_STMT_BULK_EXECUTE` | the types of the parameters, if it sends types; the data that was sent ahead is used up |
    /// | `COM_STMT_SEND_LONG_DATA` | the data of a parameter is sent ahead, until an execution or `COM_STMT_RESET` |
    /// | a count of columns, and the definitions that follow | the columns of the executed statement; if no definitions follow, they are unchanged |
    /// | `COM_STMT_CLOSE` | the statement is removed |
    /// | `COM_CHANGE_USER`, `COM_RESET_CONNECTION` | all statements are removed |
    ///
    /// Other packets change nothing. The statement number `ffffffff` means the statement that was prepared last.
    ///
    /// The error is `AllocError` if a statement, or a column of the current result, can't be allocated. The
    /// packet is taken nevertheless, but that statement, or the columns of that result, are unknown; the others
    /// are known.
    pub fn take(
        &mut self,
        agreed: SessionCapabilities,
        kind: PacketKind,
        payload: &[u8],
    ) -> Result<(), AllocError>
        ensures taken { self.new ≡ spec.after (is_ok result) agreed kind payload.now self.old }
        // Memory is requested only if the packet makes the table keep a statement or the definition of a column.
        ensures asked { OnErr result (IsTrue (bounds.takes_memory agreed kind payload.now self.old)) }
        // The limits are respected.
        ensures within { bounds.IsWithin self.old → bounds.IsWithin self.new }
    {
        self.change(agreed, kind, payload)
    }

    /// Takes a packet.
    fn change(
        &mut self,
        agreed: SessionCapabilities,
        kind: PacketKind,
        payload: &[u8],
    ) -> Result<(), AllocError>
        ensures { bounds.IsTaken agreed kind payload.now self.old result self.new }
    {
        match kind {
            PacketKind::Command(code) => {
                self.ask(agreed, code, payload);
                Ok(())
            }
            PacketKind::PrepareOk(columns, params, follow) => {
                match prepared_at(self.alloc(), payload) {
                    Some(id) => self.prepare(id, params, columns, follow),
                    None => {
                        self.turn_away();
                        Ok(())
                    }
                }
            }
            PacketKind::Column => self.define(column_at(self.alloc(), agreed, payload)),
            PacketKind::ColumnCount(count, follow) => {
                self.count(count, follow);
                Ok(())
            }
            PacketKind::Error => {
                self.fail();
                Ok(())
            }
            _ => Ok(()),
        }
    }

    /// Takes a command.
    fn ask(&mut self, agreed: SessionCapabilities, code: u8, payload: &[u8])
        ensures { self.new ≡ spec.asked agreed code payload.now self.old }
    {
        match code {
            COM_STMT_PREPARE => self.begin_prepare(),
            COM_CHANGE_USER | COM_RESET_CONNECTION => self.clear(),
            COM_STMT_SEND_LONG_DATA => match data_at(self.alloc(), payload) {
                Some((id, param)) => self.send_ahead(id, usize::from(param)),
                None => self.turn_away(),
            },
            COM_STMT_EXECUTE
            | COM_STMT_BULK_EXECUTE
            | COM_STMT_FETCH
            | COM_STMT_CLOSE
            | COM_STMT_RESET => self.ask_one(agreed, code, payload),
            _ => self.turn_away(),
        }
    }

    /// Takes a command about one statement.
    fn ask_one(&mut self, agreed: SessionCapabilities, code: u8, payload: &[u8])
        ensures { self.new ≡ spec.asked_one agreed code payload.now (packets.number_at payload.now) self.old }
    {
        let Some(id) = number_at(self.alloc(), payload) else {
            self.turn_away();
            return;
        };
        match code {
            COM_STMT_CLOSE => self.close(id),
            COM_STMT_RESET => self.reset(id),
            COM_STMT_FETCH => self.fetch(id),
            COM_STMT_BULK_EXECUTE => self.execute(id, Layout::Bulk, payload),
            _ => self.execute(id, Layout::Single(agreed.mysql), payload),
        }
    }
}
