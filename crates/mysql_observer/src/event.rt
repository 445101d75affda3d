//! Whether an event has the header of semi-synchronous replication.

ghost use Rattle.std.specs.Prelude.{◌≡◌, false};
ghost use Rattle.mysql_wire.specs.Reading.{Answers};
ghost use Rattle.mysql_observer.specs.Event as spec;

use mysql_wire::{FaultOf, LeU32, ParseBuf, RawInt, Skip};
use std::alloc::Global;

/// The second byte of a payload, and the size in the event if the header precedes it.
#[derive(Drop)]
pub(crate) struct Marks {
    mark: u8,
    size: u32,
}

impl std::marker::Model for Marks {
    ghost use Rattle.mysql_observer.specs.Event.{Marks as Both};

    ghost Value = { Both };

    ghost view = { λ m. record { mark = m.mark; size = m.size } };
}

fn read_marks<'s>(buf: &mut ParseBuf<'_>) -> Result<Marks, FaultOf<'s>>
    ensures value { Answers false result buf.new (spec.marks.reads buf.old) }
{
    let _first: RawInt<u8> = buf.parse(())?;
    let mark: RawInt<u8> = buf.parse(())?;
    let _skipped: Skip<10> = buf.parse(())?;
    let size: RawInt<LeU32> = buf.parse(())?;
    Ok(Marks {
        mark: mark.0,
        size: size.0,
    })
}

/// Whether the header precedes the event of this payload.
#[tactic(auto, using(crate::proofs::Refused::header_fault), unfolding(crate::specs::Event::has_header))]
pub(crate) fn has_header(alloc: Global, payload: &[u8]) -> bool
    ensures { result ≡ spec.has_header payload.now }
{
    let mut buf = ParseBuf::new(alloc, payload);
    let read: Result<Marks, FaultOf> = read_marks(&mut buf);
    match read {
        Ok(marks) => marks.mark == 0xef && u64::from(marks.size) + 3 == payload.len() as u64,
        Err(_) => false,
    }
}
