//! The sums over a recording.

ghost use Rattle.std.specs.Prelude.{◌≡◌, IfOk, OnOk, string_bytes};
ghost use Rattle.serde_json.specs.View.{view};
ghost use Rattle.mysql_show.specs.Appended.{Stays};
ghost use Rattle.mysql_recorder.specs.Entries.{Begins};
ghost use Rattle.mysql_recorder.specs.Sums.{AppendsSums, OtherSums, count_line, sum_data};
ghost use Rattle.mysql_recorder.specs.declared.entry.Layout.TheVariants as layout_as;

use crate::entry::{Layout, Packet, name_of_side};
use crate::sum_lines::{
    error_line, exchange_line, large_line, rows_line, statement_line, tally_line,
};
use mysql_conversation::{PacketKind, Side};
use mysql_show::command_name;
use mysql_wire::{ConstValue, ServerCommand};
use serde_json::{Map, Value, push, put};
use std::alloc::{AllocError, Global};
use std::collections::BTreeMap;

/// The number of largest packets that are listed.
const LARGEST: usize = 5;

/// The maximum number of open statements that are listed.
const OPEN: usize = 4096;

/// The sums of the packets of one side and kind.
#[derive(Clone, Copy)]
pub(crate) struct Tally {
    pub(crate) side: Side,
    pub(crate) kind: &'static str,
    pub(crate) packets: u64,
    pub(crate) bytes: u64,
}

/// One of the largest packets: its size, and its number among all packets, from 1.
#[derive(Clone, Copy)]
pub(crate) struct Large {
    pub(crate) size: usize,
    pub(crate) number: u64,
    pub(crate) side: &'static str,
    pub(crate) kind: &'static str,
}

/// The sums of a recording.
#[derive(Drop)]
pub(crate) struct Sums {
    alloc: Global,
    packets: u64,
    rows: u64,
    /// The number of commands, by first byte.
    exchanges: BTreeMap<u8, u64>,
    /// The tallies by side and kind, in the order of their first packets.
    tallies: Vec<Tally>,
    /// The number of errors, by code.
    errors: BTreeMap<u16, u64>,
    /// The largest packets, the largest first.
    largest: Vec<Large>,
    /// The open statements: prepared and not closed.
    open: BTreeMap<u32, u64>,
}

impl Sums {
    /// Creates the sums of no packets.
    pub(crate) fn new(alloc: Global) -> Self {
        Sums {
            alloc,
            packets: 0,
            rows: 0,
            exchanges: BTreeMap::new(alloc),
            tallies: Vec::new(alloc),
            errors: BTreeMap::new(alloc),
            largest: Vec::new(alloc),
            open: BTreeMap::new(alloc),
        }
    }

    /// Counts a packet.
    pub(crate) fn add(&mut self, packet: &Packet<'_>, kind: PacketKind) -> Result<(), AllocError> {
        self.packets = self.packets.saturating_add(1);
        self.tally(packet)?;
        self.rank(packet)?;
        match kind {
            PacketKind::Command(code) => {
                count(&mut self.exchanges, code)?;
                self.close(code, packet.payload);
                Ok(())
            }
            PacketKind::Row(_) => {
                self.rows = self.rows.saturating_add(1);
                Ok(())
            }
            PacketKind::Error | PacketKind::UnsolicitedError => self.fail(packet.payload),
            PacketKind::PrepareOk(_, _, _) => self.prepare(packet),
            _ => Ok(()),
        }
    }

    fn tally(&mut self, packet: &Packet<'_>) -> Result<(), AllocError> {
        let size = packet.payload.len() as u64;
        for tally in self.tallies.iter_mut() {
            if tally.side == packet.side && tally.kind == packet.kind {
                tally.packets = tally.packets.saturating_add(1);
                tally.bytes = tally.bytes.saturating_add(size);
                return Ok(());
            }
        }
        self.tallies.extend_from_slice(&[Tally {
            side: packet.side,
            kind: packet.kind,
            packets: 1,
            bytes: size,
        }])
    }

    /// Adds a packet to the largest ones, if it is one of them.
    fn rank(&mut self, packet: &Packet<'_>) -> Result<(), AllocError> {
        let size = packet.payload.len();
        let place = self
            .largest
            .iter()
            .position(|it| it.size < size)
            .unwrap_or(self.largest.len());
        if place >= LARGEST {
            return Ok(());
        }
        let large = Large {
            size,
            number: self.packets,
            side: name_of_side(packet.side),
            kind: packet.kind,
        };
        self.largest.insert(place, large)?;
        self.largest.truncate(LARGEST);
        Ok(())
    }

    /// Counts an error by its code, which follows the first byte.
    fn fail(&mut self, payload: &[u8]) -> Result<(), AllocError> {
        match payload {
            [_, low, high, ..] => count(&mut self.errors, u16::from_le_bytes([*low, *high])),
            _ => Ok(()),
        }
    }

    /// Records that a statement is open from its preparation on, with the number of that packet.
    fn prepare(&mut self, packet: &Packet<'_>) -> Result<(), AllocError> {
        if let [_, a, b, c, d, ..] = packet.payload {
            if self.open.len() < OPEN {
                let id = u32::from_le_bytes([*a, *b, *c, *d]);
                self.open.insert(id, self.packets)?;
            }
        }
        Ok(())
    }

    /// Records a command that closes a statement, or all.
    fn close(&mut self, code: u8, payload: &[u8]) {
        match (ServerCommand::from_code(code), payload) {
            (Some(ServerCommand::COM_STMT_CLOSE), [_, a, b, c, d, ..]) => {
                let _closed = self.open.remove(&u32::from_le_bytes([*a, *b, *c, *d]));
            }
            (Some(ServerCommand::COM_CHANGE_USER | ServerCommand::COM_RESET_CONNECTION), _) => {
                self.open.clear();
            }
            _ => {}
        }
    }

    /// Appends the sums.
    pub(crate) fn append(&self, layout: Layout, out: &mut String) -> Result<(), AllocError>
        ensures sums { OnOk result (AppendsSums layout self.now.packets (string_bytes out.old) (string_bytes out.new)) }
        ensures stays { Stays (string_bytes out.old) (string_bytes out.new) }
    {
        match layout {
            Layout::Lines => self.append_lines(out),
            Layout::Json => self.append_object(out),
        }
    }

    fn append_object(&self, out: &mut String) -> Result<(), AllocError>
        ensures object { OnOk result (AppendsSums layout_as.Json self.now.packets (string_bytes out.old) (string_bytes out.new)) }
        ensures stays { Stays (string_bytes out.old) (string_bytes out.new) }
    {
        let object = self.object()?;
        let text = object.to_string(self.alloc)?;
        out.push_str(text.as_str())?;
        out.push_str("\n")
    }

    fn append_lines(&self, out: &mut String) -> Result<(), AllocError>
        ensures begins { OnOk result (Begins (count_line self.now.packets) (string_bytes out.old) (string_bytes out.new)) }
        ensures stays { Stays (string_bytes out.old) (string_bytes out.new) }
    {
        let packets = self.packets;
        let line = format!(in self.alloc; "sum: {packets} packets\n")?;
        out.push_str(line.as_str())?;
        self.append_counts(out)
    }

    /// Appends the counts of packets, exchanges and errors.
    fn append_counts(&self, out: &mut String) -> Result<(), AllocError>
        ensures { Stays (string_bytes out.old) (string_bytes out.new) }
    {
        for (code, count) in self.exchanges.iter() {
            append_line(out, exchange_line(self.alloc, *code, *count))?;
        }
        for tally in self.tallies.iter() {
            append_line(out, tally_line(self.alloc, tally))?;
        }
        append_line(out, rows_line(self.alloc, self.rows))?;
        for (error, count) in self.errors.iter() {
            append_line(out, error_line(self.alloc, *error, *count))?;
        }
        for large in self.largest.iter() {
            append_line(out, large_line(self.alloc, large))?;
        }
        for (id, number) in self.open.iter() {
            append_line(out, statement_line(self.alloc, *id, *number))?;
        }
        Ok(())
    }

    /// Returns the sums as an object.
    fn object(&self) -> Result<Value, AllocError>
        ensures { IfOk result (λ sum. (others : OtherSums) × (view sum ≡ sum_data self.now.packets others)) }
    {
        let alloc = self.alloc;
        let mut object = Map::new(alloc);
        let kind = String::from_str(alloc, "sum")?;
        put(&mut object, alloc, "kind", Value::String(kind))?;
        put(&mut object, alloc, "packets", Value::from(self.packets))?;
        put(&mut object, alloc, "rows", Value::from(self.rows))?;
        put(&mut object, alloc, "exchanges", self.exchanges_value()?)?;
        put(&mut object, alloc, "kinds", self.kinds_value()?)?;
        put(&mut object, alloc, "errors", self.errors_value()?)?;
        put(&mut object, alloc, "largest", self.largest_value()?)?;
        put(&mut object, alloc, "open_statements", self.open_value()?)?;
        Ok(Value::Object(object))
    }

    fn exchanges_value(&self) -> Result<Value, AllocError> {
        let mut object = Map::new(self.alloc);
        for (code, count) in self.exchanges.iter() {
            let name = name_of(self.alloc, *code)?;
            put(&mut object, self.alloc, name.as_str(), Value::from(*count))?;
        }
        Ok(Value::Object(object))
    }

    fn kinds_value(&self) -> Result<Value, AllocError> {
        let mut list = Vec::new(self.alloc);
        for tally in self.tallies.iter() {
            push(&mut list, self.tally_value(tally)?)?;
        }
        Ok(Value::Array(list))
    }

    fn tally_value(&self, tally: &Tally) -> Result<Value, AllocError> {
        let alloc = self.alloc;
        let mut object = Map::new(alloc);
        let side = name_of_side(tally.side);
        put(
            &mut object,
            alloc,
            "side",
            Value::String(String::from_str(alloc, side)?),
        )?;
        put(
            &mut object,
            alloc,
            "kind",
            Value::String(String::from_str(alloc, tally.kind)?),
        )?;
        put(&mut object, alloc, "packets", Value::from(tally.packets))?;
        put(&mut object, alloc, "bytes", Value::from(tally.bytes))?;
        Ok(Value::Object(object))
    }

    fn errors_value(&self) -> Result<Value, AllocError> {
        let mut object = Map::new(self.alloc);
        for (code, count) in self.errors.iter() {
            let code = format!(in self.alloc; "{code}")?;
            put(&mut object, self.alloc, code.as_str(), Value::from(*count))?;
        }
        Ok(Value::Object(object))
    }

    fn largest_value(&self) -> Result<Value, AllocError> {
        let alloc = self.alloc;
        let mut list = Vec::new(alloc);
        for large in self.largest.iter() {
            let mut object = Map::new(alloc);
            put(&mut object, alloc, "size", Value::from(large.size))?;
            put(&mut object, alloc, "packet", Value::from(large.number))?;
            put(
                &mut object,
                alloc,
                "side",
                Value::String(String::from_str(alloc, large.side)?),
            )?;
            put(
                &mut object,
                alloc,
                "kind",
                Value::String(String::from_str(alloc, large.kind)?),
            )?;
            push(&mut list, Value::Object(object))?;
        }
        Ok(Value::Array(list))
    }

    fn open_value(&self) -> Result<Value, AllocError> {
        let mut list = Vec::new(self.alloc);
        for (id, _) in self.open.iter() {
            push(&mut list, Value::from(*id))?;
        }
        Ok(Value::Array(list))
    }
}

/// Appends a line, unless memory ran out for it.
fn append_line(out: &mut String, line: Result<String, AllocError>) -> Result<(), AllocError>
    ensures { Stays (string_bytes out.old) (string_bytes out.new) }
{
    let line = line?;
    out.push_str(line.as_str())
}

/// Increments a count.
fn count<K: Ord + Drop>(counts: &mut BTreeMap<K, u64>, key: K) -> Result<(), AllocError> {
    if let Some(count) = counts.get_mut(&key) {
        *count = count.saturating_add(1);
        return Ok(());
    }
    counts.insert(key, 1)?;
    Ok(())
}

/// The name of a command, or its number if it has none.
fn name_of(alloc: Global, code: u8) -> Result<String, AllocError> {
    match ServerCommand::from_code(code) {
        Some(command) => String::from_str(alloc, command_name(command)),
        None => format!(in alloc; "{code}"),
    }
}
