//! Dumps by GTID set.
//!
//! `gtid BYTES`, `gtid_strict BYTES`, `gtid_with_sid BYTES`, `make_gtid SERVER FLAGS POSITION FILENAME SIDS`,
//! `gtid_of COUNT TAG`, `gtid_of_set TEXT`.

use crate::borrowed::is_copied;
use crate::prelude::*;
use crate::sids::{made_sids, numbered_sids, one_sid, show_sid, text_of};
use mysql_repl::laws::this_binlog_dump_gtid_round_trips;

fn show_dump(it: &ComBinlogDumpGtid<'_>, out: &mut Out) {
    fields!(out, it; server_id, flags, filename = filename_raw; texts filename_str = filename);
    fields!(out, it; pos);
    out.show("sids", it.sids().len());
    for sid in it.sids() {
        show_sid(sid, out);
    }
}

impl Shows<ComBinlogDumpGtid<'_>> for Connections {
    fn show(it: &ComBinlogDumpGtid<'_>, out: &mut Out) {
        show_dump(it, out);
        out.same("made", is_dump_made(it, out.alloc()));
        this_binlog_dump_gtid_round_trips(it)
    }
}

/// Whether bytes, in the form with tags or in the other, are read as these sids.
fn are_read_again(place: (&[u8], bool), owned: &[Sid<'_>], out: &mut Out) -> bool {
    let (bytes, is_tagged) = place;
    let mut rest = ParseBuf::new(out.alloc(), bytes);
    let are_same = owned.iter().all(|owned| {
        let read = counted!(out.alloc(); value SidRef::parse_as(is_tagged, &mut rest));
        read.is_ok_and(|sid| Connections::is(&sid, owned, out))
    });
    are_same && rest.is_empty()
}

/// Whether sids that stay in their packet are these: one by one, and where their bytes are read once more.
fn are_sids(place: &SidsRef<'_>, owned: &[Sid<'_>], out: &mut Out) -> bool {
    let alloc = out.alloc();
    let listed = counted!(alloc; place.to_owned(alloc));
    let mut left = place.iter();
    let are_same = owned.iter().all(|owned| {
        let next = counted!(out.alloc(); value left.next());
        next.is_some_and(|sid| Connections::is(&sid, owned, out))
    });
    are_same
        && left.next().is_none()
        && (left == *place) == owned.is_empty()
        && is_copied(place, out)
        && place.left() == owned.len() as u64
        && or_lost(out, listed).is_some_and(|listed| listed.len() == owned.len())
        && are_read_again(place.as_bytes(), owned, out)
}

/// (a copy is made of it where its fields are the same, too)
impl InPlace<ComBinlogDumpGtid<'_>, ComBinlogDumpGtidRef<'_>> for Connections {
    fn is(place: &ComBinlogDumpGtidRef<'_>, owned: &ComBinlogDumpGtid<'_>, out: &mut Out) -> bool {
        let alloc = out.alloc();
        let made = counted!(alloc; place.to_owned(alloc));
        or_lost(out, made).is_some_and(|made| made == *owned)
            && fields!(place, owned; alike server_id, flags, filename_raw, pos)
            && are_sids(&place.sids(), owned.sids(), out)
            && is_copied(place, out)
    }
}

fn is_dump_made(it: &ComBinlogDumpGtid<'_>, alloc: Global) -> Result<bool> {
    // (the sids change a flag, so the flags come last)
    let made = ComBinlogDumpGtid::new(it.server_id())
        .with_pos(it.pos())
        .with_filename(CowSlice::Borrowed(it.filename_raw()))
        .with_sids(CowSlice::Borrowed(it.sids()))
        .with_flags(it.flags());
    Ok(is_cloned(alloc, &made, it)? && is_cloned(alloc, it, it)?)
}

/// A dump by the strict reader.
pub fn strict(out: &mut Out, request: &Request<'_>) {
    let (bytes, mut buf) = (request.bytes.as_slice(), request.buf());
    let answer = counted!(request.alloc; ComBinlogDumpGtid::parse_strict(&mut buf));
    if let Some(dump) = taken(out, answer, buf.len() == bytes.len()) {
        show_dump(&dump, out);
        out.show("rest", buf.len());
        let _ = write(out, &dump, bytes);
    }
}

/// The dump with a further sid, as it counts them, or that memory ran out.
fn show_counts(out: &mut Out, name: &str, answer: Result<ComBinlogDumpGtid<'_>>) {
    let Ok(dump) = answer else {
        return out.field(name, "Memory");
    };
    out.show(name, dump.sids().len());
    out.show("flags", dump.flags())
}

/// Adds a sid to a dump, and to one that borrows the sids of the first.
pub fn with_sid(out: &mut Out, request: &Request<'_>) -> Result {
    let alloc = out.alloc();
    let (one, other) = (one_sid(alloc)?, one_sid(alloc)?);
    if let Some(dump) = record::<ComBinlogDumpGtid<'_>>(out, request, ()) {
        with_sid_borrowed(out, dump.sids(), one);
        let dump = counted!(alloc; dump.with_sid(alloc, other));
        show_counts(out, "of_owned", dump);
    }
    Ok(())
}

fn with_sid_borrowed<'a>(out: &mut Out, sids: &'a [Sid<'a>], sid: Sid<'a>) {
    let alloc = out.alloc();
    let lent = ComBinlogDumpGtid::new(7).with_sids(CowSlice::Borrowed(sids));
    fields!(out, lent; flags_of_sids = flags);
    let emptied = lent.with_sids(CowSlice::Borrowed(&[]));
    fields!(out, emptied; flags_of_none = flags);
    let lent = emptied.with_sids(CowSlice::Borrowed(sids));
    let dump = counted!(alloc; lent.with_sid(alloc, sid));
    show_counts(out, "of_borrowed", dump)
}

/// The dump that takes in one sid after another.
fn with_each<'a>(
    alloc: Global,
    mut dump: ComBinlogDumpGtid<'a>,
    sids: Vec<Sid<'a>>,
) -> Result<ComBinlogDumpGtid<'a>> {
    for sid in sids {
        dump = dump.with_sid(alloc, sid)?;
    }
    Ok(dump)
}

/// A dump that is made of words, as it is shown, written and read again.
pub fn make(out: &mut Out, request: &Request<'_>) -> Result {
    let alloc = out.alloc();
    let sids = made_sids(alloc, request.word(5))?;
    let dump = ComBinlogDumpGtid::new(0)
        .with_server_id(request.number(1))
        .with_pos(words::number(request.word(3)))
        .with_filename(words::name(request.word(4)));
    if let Some(dump) = out.made(counted!(alloc; with_each(alloc, dump, sids))) {
        let flags = BinlogDumpFlags::from_bits_retain(words::number(request.word(2)));
        show_made(out, &dump.with_flags(flags));
    }
    Ok(())
}

fn show_made(out: &mut Out, dump: &ComBinlogDumpGtid<'_>) {
    show_dump(dump, out);
    let is_same = is_cloned(out.alloc(), dump, dump);
    out.same("copy", is_same);
    if let Some(written) = write(out, dump, b"") {
        show_again(out, dump, after(&written));
    }
}

/// Shows what both readers make of a dump's bytes.
fn show_again(out: &mut Out, dump: &ComBinlogDumpGtid<'_>, written: &[u8]) {
    again::<ComBinlogDumpGtid<'_>>(out, &*dump, written, ());
    let mut buf = ParseBuf::new(out.alloc(), written);
    let strict = ComBinlogDumpGtid::parse_strict(&mut buf);
    out.same("strict", Ok(strict.is_ok_and(|again| again == *dump)))
}

/// A dump of a given number of sids of which the i-th has i intervals, and each second one that tag: its bytes are too many for a line.
pub fn of_count(out: &mut Out, request: &Request<'_>) -> Result {
    let alloc = out.alloc();
    let sids = numbered_sids(alloc, words::number(request.word(1)), request.word(2))?;
    let dump = ComBinlogDumpGtid::new(9)
        .with_filename(CowSlice::Borrowed(b"bin.7"))
        .with_sids(CowSlice::Owned(sids));
    let mut written = Vec::new(alloc);
    let len = counted!(alloc; dump.serialize(&mut written)).map(|()| written.len());
    out.show("len", len);
    if len.is_ok() {
        show_again(out, &dump, written.as_slice());
    }
    Ok(())
}

/// A dump of the sids of a GTID set's text, as it is written.
pub fn of_set(out: &mut Out, request: &Request<'_>) {
    let dump = ComBinlogDumpGtid::new(77).with_pos(4);
    let answer = counted!(request.alloc; dump.with_gtid_set(request.alloc, text_of(request)));
    if let Some(dump) = out.accepted("made", answer) {
        fields!(out, dump; flags, as_servers = is_canonical);
        write_made(out, &dump)
    }
}
