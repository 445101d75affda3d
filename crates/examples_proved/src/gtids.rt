//! A replica: its sets of GTIDs, as servers write them.

ghost use Rattle.std.specs.Prelude.{◌≡◌, true, IfOk, string_bytes};
ghost use Rattle.mysql_packets.specs.GtidSetText.{read_sids};
ghost use Rattle.examples_proved.specs.Refused.{refused_for};
ghost use Rattle.mysql_packets.specs.Sid.{intervals};
ghost use Rattle.mysql_packets.specs.MergedIntervals.{NumbersFit};
ghost use Rattle.mysql_packets.specs.ServerSids.{is_canonical};

use mysql_packets::laws::repl::{
    gtid_set_entries_are_read, merged_intervals_are_as_servers_write,
    this_gtid_set_text_round_trips,
};
use mysql_packets::packets::{GtidSetEntries, GtidSetText, InvalidSid, Sid, sids_from_text};
use std::alloc::{AllocError, Global};

/// The transactions of a server in the form that servers write, where their numbers are from 1 to 2^63 - 2.
pub fn merged<'a>(alloc: Global, sid: Sid<'a>) -> Result<Sid<'a>, AllocError>
    requires fit { NumbersFit (intervals sid) }
    ensures servers { IfOk result (λ s. is_canonical s ≡ true) }
{
    let merged = sid.normalized(alloc)?;
    merged_intervals_are_as_servers_write();
    Ok(merged)
}

/// The text of a GTID set as it is stored: it contains the transactions of the given text.
pub fn kept(alloc: Global, text: &str) -> Result<String, InvalidSid>
    ensures same { IfOk result (λ kept. read_sids (string_bytes kept) ≡ read_sids text.now) }
{
    let sids = sids_from_text(alloc, text)?;
    this_gtid_set_text_round_trips(&sids);
    let set = GtidSetText(&sids);
    Ok(format!(in alloc; "{set}")?)
}

/// Rejects a text that isn't a GTID set, with its first error. It takes no memory.
#[tactic(auto, using(crate::proofs::Sets::sets))]
pub fn check(text: &str) -> Result<(), InvalidSid>
    ensures value { refused_for result ≡ refused_for (read_sids text.now) }
{
    gtid_set_entries_are_read();
    let mut left = GtidSetEntries::new(text);
    while let Some(entry) = left.next() {
        entry?;
    }
    Ok(())
}
