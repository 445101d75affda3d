//! Values as words of the command line and of the lines that are written: `N` for NULL, `i-5`, `u5`, `f` and `d` with the bits
//! of a float, `x` and hexadecimal digits, `r3` for three letters r, `D2024-2-29-1-2-3-4`, `T1-1-2-3-4-5`.

use crate::error::Result;
use mysql_packets::constants::{ColumnType, Flags, StmtExecuteParamFlags};
use mysql_packets::row::Row;
use mysql_packets::value::{ParamType, Value};
use std::alloc::Global;
use std::fmt;

/// Parses a word as a value; NULL if it isn't one.
pub fn value(alloc: Global, word: &str) -> Result<Value> {
    let mut letters = word.chars();
    let first = letters.next();
    let rest = letters.as_str();
    Ok(match first {
        Some('i') => rest.parse::<i64>().map_or(Value::NULL, Value::Int),
        Some('u') => rest.parse::<u64>().map_or(Value::NULL, Value::UInt),
        Some('f') => rest.parse::<u32>().map_or(Value::NULL, Value::Float),
        Some('d') => rest.parse::<u64>().map_or(Value::NULL, Value::Double),
        Some('r') => Value::Bytes(vec![in alloc; b'r'; rest.parse::<usize>().unwrap_or(0)]?),
        Some('x') => Value::Bytes(hex::decode(alloc, rest).unwrap_or(Vec::new(alloc))),
        Some('D') => date(rest),
        Some('T') => time(rest),
        _ => Value::NULL,
    })
}

/// Parses the numbers of a word, which are separated by hyphens; a missing one is 0.
fn number(word: &str, place: usize) -> u32 {
    word.split('-')
        .nth(place)
        .and_then(|it| it.parse::<u32>().ok())
        .unwrap_or(0)
}

fn small(word: &str, place: usize) -> u8 {
    u8::try_from(number(word, place)).unwrap_or(0)
}

fn date(word: &str) -> Value {
    let year = u16::try_from(number(word, 0)).unwrap_or(0);
    let (month, day) = (small(word, 1), small(word, 2));
    let (hour, minute, second) = (small(word, 3), small(word, 4), small(word, 5));
    Value::Date(year, month, day, hour, minute, second, number(word, 6))
}

fn time(word: &str) -> Value {
    let (hour, minute, second) = (small(word, 2), small(word, 3), small(word, 4));
    Value::Time(
        number(word, 0) == 1,
        number(word, 1),
        hour,
        minute,
        second,
        number(word, 5),
    )
}

/// The hexadecimal digits of bytes.
#[derive(Drop)]
pub struct Digits<'a>(pub &'a [u8]);

impl fmt::Display for Digits<'_> {
    fn fmt<W: fmt::Write>(&self, f: &mut fmt::Formatter<W>) -> fmt::Result {
        for byte in self.0 {
            write!(f, "{byte:02x}")?;
        }
        Ok(())
    }
}

/// The word of a byte string.
fn write_bytes<W: fmt::Write>(f: &mut fmt::Formatter<W>, bytes: &[u8]) -> fmt::Result {
    if bytes.len() > 1000 && bytes.iter().all(|byte| *byte == b'r') {
        let count = bytes.len();
        write!(f, "r{count}")
    } else {
        write!(f, "x{}", Digits(bytes))
    }
}

/// The word of a value.
#[derive(Drop)]
pub struct Word<'a>(pub &'a Value);

impl fmt::Display for Word<'_> {
    fn fmt<W: fmt::Write>(&self, f: &mut fmt::Formatter<W>) -> fmt::Result {
        match self.0 {
            Value::NULL => write!(f, "N"),
            Value::Bytes(bytes) => write_bytes(f, bytes.as_slice()),
            Value::Int(number) => write!(f, "i{number}"),
            Value::UInt(number) => write!(f, "u{number}"),
            Value::Float(bits) => write!(f, "f{bits}"),
            Value::Double(bits) => write!(f, "d{bits}"),
            Value::Date(year, month, day, hour, minute, second, micros) => {
                let day = [u32::from(*year), u32::from(*month), u32::from(*day)];
                write_parts(f, "D", day, [*hour, *minute, *second], *micros)
            }
            Value::Time(is_negative, days, hour, minute, second, micros) => {
                let day = [u32::from(*is_negative), *days];
                write_parts(f, "T", day, [*hour, *minute, *second], *micros)
            }
        }
    }
}

/// The word of a date or a time, with hyphens between its parts.
fn write_parts<W: fmt::Write, const N: usize>(
    f: &mut fmt::Formatter<W>,
    mut between: &str,
    day: [u32; N],
    time: [u8; 3],
    micros: u32,
) -> fmt::Result {
    for part in day {
        write!(f, "{between}{part}")?;
        between = "-";
    }
    let [hour, minute, second] = time;
    write!(f, "-{hour}-{minute}-{second}-{micros}")
}

/// The words of a row's values, with a space before each.
#[derive(Drop)]
pub struct RowWords<'a>(pub &'a Row);

impl fmt::Display for RowWords<'_> {
    fn fmt<W: fmt::Write>(&self, f: &mut fmt::Formatter<W>) -> fmt::Result {
        for place in 0..self.0.len() {
            match self.0.as_ref(place) {
                Some(value) => write!(f, " {}", Word(value)),
                None => write!(f, " "),
            }?;
        }
        Ok(())
    }
}

/// The values of words with spaces between them.
pub fn values(alloc: Global, line: &str) -> Result<Vec<Value>> {
    line.split(' ')
        .map(|word| value(alloc, word))
        .try_collect(alloc)
}

/// The type of a code, with a `u` after it where it is unsigned.
fn param_type(word: &str) -> ParamType {
    let (digits, flags) = match word.strip_suffix('u') {
        Some(digits) => (digits, StmtExecuteParamFlags::UNSIGNED),
        None => (word, StmtExecuteParamFlags::from_bits_retain(0)),
    };
    let code = digits.parse::<u8>().unwrap_or(253);
    let column_type = ColumnType::try_from(code);
    ParamType::new(
        column_type.unwrap_or(ColumnType::MYSQL_TYPE_VAR_STRING),
        flags,
    )
}

/// The types of codes with commas between them.
pub fn types(alloc: Global, words: &str) -> Result<Vec<ParamType>> {
    Ok(words.split(',').map(param_type).collect(alloc)?)
}
