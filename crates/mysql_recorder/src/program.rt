//! `mypackets conversation [MAX] [caps=CAPS] [mariadb=CAPS] [--deciphered] [--json] [--sum]`.

ghost use Rattle.std.specs.Prelude.{◌≡◌, ◌++◌, ◌^◌, ℕ, List, [], Option, Some, None, true, IfOk, IfSome, MatchOption, map, string_bytes};
ghost use Rattle.mysql_recorder.specs.Answers as spec;
ghost use Rattle.mysql_recorder.specs.Calls as calls;
ghost use Rattle.mysql_show.specs.Output.{Answer, IsFront, IsWritten};
ghost use Rattle.mysql_recorder.specs.Recorded.{Recorded, has_lost, layout, longest, settings};
ghost use Rattle.mysql_recorder.specs.Shown.{Item};

use crate::entry::Layout;
use crate::error::RecordingError;
use crate::recording::Recording;
use bitflags::Flags;
use mysql_conversation::PacketKindTag;
use mysql_replies::SessionCapabilities;
use mysql_show::write_front;
use mysql_wire::{CapabilityFlags, MariadbCapabilities};
use std::alloc::{AllocError, Global};
use std::io::{Read, Write};

/// The default for the maximum length of a payload: 64 MiB, the default of `max_allowed_packet`.
const LONGEST: usize = 64 << 20;

/// The maximum number of pipelined commands.
const WAITING: usize = 4096;

const USAGE: &[u8] =
    b"usage: mypackets conversation [MAX] [caps=CAPS] [mariadb=CAPS] [--deciphered] [--json] [--sum]\n";

/// The line for a failed allocation.
const OUT_OF_MEMORY: &[u8] = b"refused: Memory\n";

/// The arguments of a call.
#[derive(Clone, Copy)]
struct Call {
    layout: Layout,
    longest: usize,
    /// Whether the output ends with sums.
    sums: bool,
    /// Whether the recording contains the decrypted contents of TLS.
    is_deciphered: bool,
    /// The capabilities that both sides agreed on, if the recording begins after the login.
    agreed: Option<SessionCapabilities>,
}

/// Parses the words after the command's name; a bad call is `None`.
fn call_of(words: &[String]) -> Option<Call>
    ensures { result ≡ calls.call_of (map string_bytes words.now) }
{
    let mut call = Call {
        layout: Layout::Lines,
        longest: LONGEST,
        sums: false,
        is_deciphered: false,
        agreed: None,
    };
    let (mut caps, mut mariadb) = (None, 0);
    for word in words {
        match word.as_str() {
            "--json" => call.layout = Layout::Json,
            "--sum" => call.sums = true,
            "--deciphered" => call.is_deciphered = true,
            word => {
                if let Some(digits) = word.strip_prefix("caps=") {
                    caps = Some(flags_of(digits)?);
                } else if let Some(digits) = word.strip_prefix("mariadb=") {
                    mariadb = flags_of(digits)?;
                } else {
                    call.longest = word.parse::<usize>().ok()?;
                }
            }
        }
    }
    call.agreed = agreed_of(caps, mariadb);
    if words.len() <= 6 { Some(call) } else { None }
}

/// Parses flags in hexadecimal.
#[tactic(auto, using(crate::proofs::Calls::numbers))]
fn flags_of(digits: &str) -> Option<u32>
    ensures { result ≡ calls.number_in 16 (2 ^ 32) digits.now }
{
    u32::from_str_radix(digits, 16).ok()
}

/// The agreed capabilities, if they are given.
fn agreed_of(caps: Option<u32>, mariadb: u32) -> Option<SessionCapabilities>
    ensures { result ≡ calls.agreed_of caps mariadb }
{
    let caps = caps?;
    Some(SessionCapabilities {
        mysql: CapabilityFlags::from_bits_retain(caps),
        mariadb: MariadbCapabilities::from_bits_retain(mariadb),
    })
}

/// Reads a recording, writes each packet once it is complete, and returns the exit status.
///
/// | Status | Meaning |
/// |---|---|
/// | 0 | the input is read to its end |
/// | 1 | the recording is refused, and the last line says why; or something was lost, and a notice says where |
/// | 2 | a bad call; the only line is the usage |
/// | 3 | a read or a write failed |
///
/// It keeps no more of the input than one payload of each side and the waiting commands.
pub fn run<R: Read, W: Write>(alloc: Global, words: &[String], reader: &mut R, writer: &mut W) -> u8
    ensures { spec.IsRun PacketKindTag.ALL (map string_bytes words.now) (R.remaining reader.old) (R.remaining reader.new) (W.contents writer.old) (W.contents writer.new) result }
{
    let Some(call) = call_of(words) else {
        return refuse_call(writer);
    };
    let mut recording = begun(alloc, call);
    show(
        alloc,
        call.layout,
        call.sums,
        &mut recording,
        reader,
        writer,
    )
}

/// Writes the usage of a bad call, and returns the status 2, or 3 if the write fails.
pub fn refuse_call<W: Write>(writer: &mut W) -> u8
    ensures { IsWritten spec.usage (W.contents writer.old) (W.contents writer.new) result }
{
    end(writer, USAGE, 2)
}

/// Writes that an allocation failed, `refused: Memory`, and returns the status 1, or 3 if the write fails.
pub fn refuse_memory<W: Write>(writer: &mut W) -> u8
    ensures { IsWritten (record { text = spec.memory_line; status = 1 }) (W.contents writer.old) (W.contents writer.new) result }
{
    end(writer, OUT_OF_MEMORY, 1)
}

/// Creates the recording for these arguments, without input yet.
fn begun(alloc: Global, call: Call) -> Recording
    ensures recorded { call.agreed ≡ None → Recorded result [] [] }
    ensures layout { layout result ≡ call.layout }
    ensures longest { longest result ≡ call.longest }
{
    let recording = deciphered_if(call.is_deciphered, opened(alloc, call));
    if call.sums {
        recording.with_sums()
    } else {
        recording
    }
}

/// The recording, with the decrypted contents of TLS if requested.
fn deciphered_if(is_deciphered: bool, recording: Recording) -> Recording
    ensures recorded { (text : List ℕ) (items : List Item) → Recorded recording text items → Recorded result text items }
    ensures layout { layout result ≡ layout recording }
    ensures longest { longest result ≡ longest recording }
{
    if is_deciphered {
        recording.deciphered()
    } else {
        recording
    }
}

/// The recording, without sums.
fn opened(alloc: Global, call: Call) -> Recording
    ensures recorded { call.agreed ≡ None → Recorded result [] [] }
    ensures layout { layout result ≡ call.layout }
    ensures longest { longest result ≡ call.longest }
{
    let recording = Recording::new(alloc, call.layout, call.longest, WAITING);
    match call.agreed {
        Some(agreed) => recording.resync(agreed),
        None => recording,
    }
}

/// Shows the input, and returns the status.
fn show<R: Read, W: Write>(
    alloc: Global,
    shown_in: Layout,
    sums: bool,
    recording: &mut Recording,
    reader: &mut R,
    writer: &mut W,
) -> u8
    requires { layout recording.old ≡ shown_in }
    ensures answer { spec.IsAnswered PacketKindTag.ALL shown_in (longest recording.old) sums (Recorded recording.old [] []) (R.remaining reader.old) (R.remaining reader.new) (W.contents writer.old) (W.contents writer.new) result }
{
    let mut chunk = [0u8; 16384];
    for _ in 0..u64::MAX {
        let Ok(count) = reader.read(&mut chunk) else {
            return 3;
        };
        if count == 0 {
            return finish(alloc, shown_in, sums, recording, writer);
        }
        let ended = take(alloc, shown_in, sums, recording, &chunk[..count], writer);
        if let Some(status) = ended {
            return status;
        }
    }
    3
}

/// Takes a piece of the input, and writes its packets. Returns the status if the recording ends.
fn take<W: Write>(
    alloc: Global,
    shown_in: Layout,
    sums: bool,
    recording: &mut Recording,
    piece: &[u8],
    writer: &mut W,
) -> Option<u8>
    ensures goes { result ≡ None → spec.PieceGoesOn PacketKindTag.ALL piece.now recording.old recording.new (W.contents writer.old) (W.contents writer.new) }
    ensures ends { IfSome result (λ status. spec.PieceEnds PacketKindTag.ALL shown_in sums piece.now recording.old recording.new (W.contents writer.old) (W.contents writer.new) status) }
{
    let mut out = String::new(alloc);
    let taken = recording.push(piece, &mut out);
    let is_written = write_front(writer, out.as_bytes());
    if is_written {
        match taken {
            Ok(()) => None,
            Err(error) => Some(end_refused(alloc, shown_in, sums, recording, error, writer)),
        }
    } else {
        Some(3)
    }
}

/// Ends the input, and returns the status.
fn finish<W: Write>(
    alloc: Global,
    shown_in: Layout,
    sums: bool,
    recording: &mut Recording,
    writer: &mut W,
) -> u8
    ensures { spec.InputEnds PacketKindTag.ALL shown_in sums recording.old recording.new (W.contents writer.old) (W.contents writer.new) result }
{
    let mut out = String::new(alloc);
    let finished = recording.finish(&mut out);
    let is_written = write_front(writer, out.as_bytes());
    if is_written {
        match finished {
            Ok(()) => {
                let status = lost_status(recording);
                end_with_sums(alloc, sums, recording, writer, status)
            }
            Err(error) => end_refused(alloc, shown_in, sums, recording, error, writer),
        }
    } else {
        3
    }
}

/// The status for an input that is read to its end.
fn lost_status(recording: &Recording) -> u8
    ensures { result ≡ spec.lost_status (has_lost recording.now) }
{
    if recording.has_lost() { 1 } else { 0 }
}

/// Writes the reason why the recording ends, and then the sums, if they are requested, and returns the status.
fn end_refused<W: Write>(
    alloc: Global,
    shown_in: Layout,
    sums: bool,
    recording: &Recording,
    error: RecordingError,
    writer: &mut W,
) -> u8
    ensures { spec.IsErrorWritten shown_in sums error [] (W.contents writer.old) (W.contents writer.new) result }
{
    let is_written = write_error(alloc, shown_in, error, writer);
    if is_written {
        end_with_sums(alloc, sums, recording, writer, 1)
    } else {
        3
    }
}

/// Writes the reason why the recording ends, and returns whether all of it is written. An unexpected packet has its own entry.
fn write_error<W: Write>(
    alloc: Global,
    shown_in: Layout,
    error: RecordingError,
    writer: &mut W,
) -> bool
    ensures { (line : List ℕ) × spec.SaysError shown_in error line × IsFront result line (W.contents writer.old) (W.contents writer.new) }
{
    let Some(name) = name_of(error) else {
        return true;
    };
    match error_line(alloc, shown_in, name) {
        Ok(line) => write_front(writer, line.as_bytes()),
        Err(_) => write_front(writer, OUT_OF_MEMORY),
    }
}

/// The name of an error, except for an unexpected packet.
fn name_of(error: RecordingError) -> Option<&'static str>
    ensures { MatchOption result (spec.error_name error ≡ None) (λ name. spec.error_name error ≡ Some name.now) }
{
    match error {
        RecordingError::Memory => Some("Memory"),
        RecordingError::Line => Some("InvalidInput"),
        RecordingError::OutOfOrder => Some("OutOfOrder"),
        RecordingError::TooLong => Some("TooLong"),
        RecordingError::Missing => Some("Missing"),
        RecordingError::Refused(_) => None,
    }
}

/// The line with the reason why the recording ends.
fn error_line(alloc: Global, shown_in: Layout, name: &str) -> Result<String, AllocError>
    ensures { IfOk result (λ line. string_bytes line ≡ spec.error_line shown_in name.now) }
{
    match shown_in {
        Layout::Lines => joined(alloc, "refused: ", name, "\n"),
        Layout::Json => joined(alloc, "{\"refused\":\"", name, "\"}\n"),
    }
}

fn joined(alloc: Global, front: &str, name: &str, back: &str) -> Result<String, AllocError>
    ensures { IfOk result (λ text. string_bytes text ≡ front.now ++ name.now ++ back.now) }
{
    let mut text = String::new(alloc);
    text.push_str(front)?;
    text.push_str(name)?;
    text.push_str(back)?;
    Ok(text)
}

/// Writes the sums, if they are requested, and returns the status; 3 if the write failed.
fn end_with_sums<W: Write>(
    alloc: Global,
    sums: bool,
    recording: &Recording,
    writer: &mut W,
    status: u8,
) -> u8
    ensures ends { (answer : Answer) × spec.EndsWith sums [] status answer × IsWritten answer (W.contents writer.old) (W.contents writer.new) result }
    ensures sums { sums ≡ true → (settings recording.now).has_sums ≡ true → spec.SumsWritten (layout recording.now) status (W.contents writer.old) (W.contents writer.new) result }
{
    if sums {
        let mut out = String::new(alloc);
        match recording.append_sums(&mut out) {
            Ok(()) => end(writer, out.as_bytes(), status),
            Err(_) => refuse_memory(writer),
        }
    } else {
        status
    }
}

/// Writes the text, and returns the status, or 3 if a write failed, after a part of the text is written.
fn end<W: Write>(writer: &mut W, text: &[u8], status: u8) -> u8
    ensures { IsWritten (record { text = text.now; status = status }) (W.contents writer.old) (W.contents writer.new) result }
{
    if write_front(writer, text) { status } else { 3 }
}
