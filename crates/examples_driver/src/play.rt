//! Plays a recipe, and writes what it gave as lines.

use crate::connection::Connection;
use crate::error::{Error, Result};
use crate::words::{Digits, RowWords, types, value, values};
use crate::{bulk, execute, infile, query, replica, session_changes};
use mysql_packets::constants::BinlogDumpFlags;
use mysql_packets::packets::ProgressReport;
use mysql_packets::packets::session_state_change::{SessionStateChange, SystemVariable};
use mysql_packets::row::Row;
use mysql_packets::value::Value;
use std::alloc::{AllocError, Global};
use std::borrow::CowStr;
use std::fs;
use std::io::{Read, Write};

/// The arguments of a recipe: a missing one is an empty text.
#[derive(Drop)]
pub struct Arguments<'a>(pub &'a [String]);

impl<'a> Arguments<'a> {
    fn word(&self, place: usize) -> &'a str {
        match self.0.get(place) {
            Some(word) => word.as_str(),
            None => "",
        }
    }

    fn number(&self, place: usize) -> u32 {
        self.word(place).parse::<u32>().unwrap_or(0)
    }
}

/// Plays the recipe of that name.
pub fn play<R: Read, W: Write>(
    rt: &HostRuntime,
    connection: &mut Connection<R, W>,
    recipe: &str,
    arguments: &Arguments<'_>,
) -> Result<()> {
    match recipe {
        "login" => logged_in(rt),
        "query" => queried(rt, connection, arguments),
        "execute" => executed(rt, connection, arguments),
        "session_changes" => changed(rt, connection, arguments),
        "bulk" => inserted(rt, connection, arguments),
        "infile" => loaded(rt, connection, arguments),
        "replica" => dumped(rt, connection, arguments),
        _ => Err(Error::Unknown("a recipe of this name")),
    }?;
    show_reports(rt, &connection.reports)
}

fn show_reports(rt: &HostRuntime, reports: &[ProgressReport<'_>]) -> Result<()> {
    for report in reports {
        eprintln!(rt; "report: {report}")?;
    }
    Ok(())
}

fn show_rows(rt: &HostRuntime, rows: &[Row]) -> Result<()> {
    for row in rows {
        eprintln!(rt; "row:{}", RowWords(row))?;
    }
    Ok(())
}

fn logged_in(rt: &HostRuntime) -> Result<()> {
    Ok(eprintln!(rt; "logged in")?)
}

/// `SQL`
fn queried<R: Read, W: Write>(
    rt: &HostRuntime,
    connection: &mut Connection<R, W>,
    arguments: &Arguments<'_>,
) -> Result<()> {
    let rows = query::query(connection, arguments.word(0))?;
    show_rows(rt, &rows)
}

/// The values of the words after the first.
fn values_of(alloc: Global, arguments: &Arguments<'_>) -> Result<Vec<Value>> {
    arguments
        .0
        .iter()
        .skip(1)
        .map(|word| value(alloc, word.as_str()))
        .try_collect(alloc)
}

/// `SQL VALUE ..`
fn executed<R: Read, W: Write>(
    rt: &HostRuntime,
    connection: &mut Connection<R, W>,
    arguments: &Arguments<'_>,
) -> Result<()> {
    let sent = values_of(rt.alloc(), arguments)?;
    let statement = execute::prepare(connection, arguments.word(0))?;
    show_rows(rt, &execute::execute(connection, &statement, &sent)?)?;
    execute::close(connection, &statement)
}

/// `SQL ..`: the changes of each statement.
fn changed<R: Read, W: Write>(
    rt: &HostRuntime,
    connection: &mut Connection<R, W>,
    arguments: &Arguments<'_>,
) -> Result<()> {
    for sql in arguments.0 {
        let changes = session_changes::session_changes(connection, sql.as_str())?;
        show_changes(rt, &changes)?;
    }
    Ok(())
}

fn show_changes(rt: &HostRuntime, changes: &[SessionStateChange<'_>]) -> Result<()> {
    for change in changes {
        show_change(rt, change)?;
    }
    Ok(())
}

fn show_change(rt: &HostRuntime, change: &SessionStateChange<'_>) -> Result<()> {
    let alloc = rt.alloc();
    match change {
        SessionStateChange::IsTracked(is_tracked) => Ok(eprintln!(rt; "tracked: {is_tracked}")?),
        SessionStateChange::Schema(schema) => show_text(rt, "schema", schema.as_str(alloc)),
        SessionStateChange::SystemVariables(variables) => {
            for variable in variables.as_slice() {
                show_variable(rt, variable)?;
            }
            Ok(())
        }
        SessionStateChange::TransactionState(state) => {
            show_text(rt, "transaction", state.as_str(alloc))
        }
        _ => Ok(eprintln!(rt; "change: of another kind")?),
    }
}

fn show_text(
    rt: &HostRuntime,
    name: &str,
    text: std::result::Result<CowStr<'_>, AllocError>,
) -> Result<()> {
    let text = text?;
    Ok(eprintln!(rt; "{name}: {text}")?)
}

fn show_variable(rt: &HostRuntime, variable: &SystemVariable<'_>) -> Result<()> {
    let name = variable.name_str(rt.alloc())?;
    let value = variable.value_str(rt.alloc())?;
    Ok(eprintln!(rt; "variable: {name}={value}")?)
}

/// The rows of a file, a line each.
fn rows_of(rt: &HostRuntime, path: &str) -> Result<Vec<Vec<Value>>> {
    let alloc = rt.alloc();
    let text = fs::read_to_string(rt, path)?;
    text.lines()
        .map(|line| values(alloc, line))
        .try_collect(alloc)
}

/// `SQL MOST TYPES FILE`, where each line of the file is the values of a row.
fn inserted<R: Read, W: Write>(
    rt: &HostRuntime,
    connection: &mut Connection<R, W>,
    arguments: &Arguments<'_>,
) -> Result<()> {
    let rows = rows_of(rt, arguments.word(3))?;
    let types = types(rt.alloc(), arguments.word(2))?;
    let most = arguments.number(1) as usize;
    let statement = execute::prepare(connection, arguments.word(0))?;
    let sent = bulk::insert(connection, &statement, &types, most, rows.into_iter())?;
    eprintln!(rt; "requests: {sent}")?;
    execute::close(connection, &statement)
}

/// `SQL NAME FILE`
fn loaded<R: Read, W: Write>(
    rt: &HostRuntime,
    connection: &mut Connection<R, W>,
    arguments: &Arguments<'_>,
) -> Result<()> {
    let mut file = fs::open(rt, arguments.word(2))?;
    let loaded = infile::load(connection, arguments.word(0), arguments.word(1), &mut file)?;
    Ok(eprintln!(rt; "loaded: {loaded}")?)
}

/// `NUMBER GTIDS`: the events that are there.
fn dumped<R: Read, W: Write>(
    rt: &HostRuntime,
    connection: &mut Connection<R, W>,
    arguments: &Arguments<'_>,
) -> Result<()> {
    let number = arguments.number(0);
    replica::register(connection, number)?;
    let flags = BinlogDumpFlags::BINLOG_DUMP_NON_BLOCK;
    replica::dump(connection, number, flags, arguments.word(1))?;
    for _ in 0..u32::MAX {
        let Some(event) = replica::next_event(connection)? else {
            break;
        };
        eprintln!(rt; "event: {}", Digits(&event))?;
    }
    Ok(())
}
