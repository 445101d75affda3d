//! `gtidset TEXT`: a GTID set, as MySQL shows one.

ghost use Rattle.std.specs.Prelude.{◌≡◌, IfOk, nat_eq, option_map};
ghost use Rattle.std.specs.Cmp.Lexicographic.{pointwise};
ghost use Rattle.mysql_repl.specs.GtidSetWritten.{set_text};
ghost use Rattle.mysql_repl.specs.ServerSids.{are_as_servers_write};
ghost use Rattle.mysql_program.specs.Answer.{done};
ghost use Rattle.mysql_program.specs.GtidSetLines as spec;

use crate::answer::Answer;
use crate::commands::gtid::append_sids;
use crate::commands::sid::refused;
use crate::lines::append_lines;
use mysql_repl::{GtidSetText, Sid, Tag, sids_from_text};
use mysql_show::Field;
use std::alloc::{AllocError, Global};
use std::cmp::Ordering;

/// Answers with the lines of the sids in a text.
pub fn answer(alloc: Global, text: &str) -> Result<Answer, AllocError>
    ensures value { IfOk result (λ answer. answer ≡ spec.gtid_set_answer text.now) }
{
    match sids_from_text(alloc, text) {
        Ok(sids) => show(alloc, text, sids.as_slice()),
        Err(refusal) => refused(alloc, &refusal),
    }
}

fn show(alloc: Global, text: &str, sids: &[Sid<'_>]) -> Result<Answer, AllocError>
    ensures value { IfOk result (λ answer. answer ≡ done (spec.gtid_set_lines text.now sids.now)) }
{
    let mut lines = String::new(alloc);
    append_sids(alloc, &mut lines, sids)?;
    let as_servers_write = is_as_servers_write(alloc, text, sids)?;
    append_lines(
        alloc,
        &mut lines,
        &[Field::flag("as_servers_write", as_servers_write)],
    )?;
    Ok(Answer::done(lines))
}

/// Whether servers write these sids as this text.
fn is_as_servers_write(alloc: Global, text: &str, sids: &[Sid<'_>]) -> Result<bool, AllocError>
    ensures value { IfOk result (λ is. is ≡ spec.is_as_servers_write text.now sids.now) }
{
    let same = is_text_of(alloc, text, sids)?;
    Ok(same && are_in_order(sids) && have_servers_intervals(sids))
}

/// Whether the text is the written text of these sids.
fn is_text_of(alloc: Global, text: &str, sids: &[Sid<'_>]) -> Result<bool, AllocError>
    ensures value { IfOk result (λ is. is ≡ pointwise nat_eq text.now (set_text sids.now)) }
{
    let set = GtidSetText(sids);
    let written = format!(in alloc; "{set}")?;
    Ok(text == written.as_str())
}

/// Whether the intervals of each sid are in the form that servers write.
fn have_servers_intervals(sids: &[Sid<'_>]) -> bool
    ensures value { result ≡ are_as_servers_write sids.now }
{
    sids.iter().all(|sid| sid.is_canonical())
}

/// Whether the sids are in ascending order.
fn are_in_order(sids: &[Sid<'_>]) -> bool
    ensures value { result ≡ spec.are_in_order sids.now }
{
    let Some((first, more)) = sids.split_first() else {
        return true;
    };
    let mut before = first;
    for sid in more {
        if !comes_before(before, sid) {
            return false;
        }
        before = sid;
    }
    true
}

/// Whether servers write one sid before the other: by uuids, and then by tags.
fn comes_before(before: &Sid<'_>, after: &Sid<'_>) -> bool
    ensures value { result ≡ spec.comes_before before.now after.now }
{
    let uuids = before.uuid().cmp(&after.uuid());
    uuids.then(order_of_tags(before.tag(), after.tag())).is_lt()
}

/// The order of tags by their bytes; no tag comes first.
fn order_of_tags(before: Option<&Tag<'_>>, after: Option<&Tag<'_>>) -> Ordering
    ensures value { result ≡ spec.order_of_tags (option_map (λ tag. tag.now) before.entry) (option_map (λ tag. tag.now) after.entry) }
{
    match (before, after) {
        (None, None) => Ordering::Equal,
        (None, Some(_)) => Ordering::Less,
        (Some(_), None) => Ordering::Greater,
        (Some(before), Some(after)) => before.cmp(after),
    }
}
