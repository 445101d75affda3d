//! Lists of pairs with repeated keys.

ghost use Rattle.std.specs.Prelude.{◌≡◌, ◌≢◌, [], List, ℕ, length, IfOk};
ghost use Rattle.mysql_wire.specs.Reading.{Answers};
ghost use Rattle.mysql_wire.specs.Seq.{is_any};
ghost use Rattle.mysql_auth.specs.Attributes as spec;

use crate::attribute::Attribute;
use indexmap::IndexMap;
use mysql_wire::{FaultOf, LenEnc, ParseBuf, RawBytes};
use std::alloc::{AllocError, Global};
use std::marker::Model;

/// Attributes that were inserted into a map one after another.
///
/// In a clause it is the list of the pairs.
#[derive(Drop)]
pub(crate) struct Merged<'a>(IndexMap<RawBytes<'a, LenEnc>, RawBytes<'a, LenEnc>>);

impl<'a> Model for Merged<'a> {
    ghost use Rattle.std.specs.Prelude.{ℕ, List};

    ghost Value = { List (List ℕ × List ℕ) };

    ghost view = { λ a. a.0.entries };
}

/// Reads pairs to the end. A repeated key keeps its first position and takes the last value.
#[tactic(auto, using(crate::proofs::PairsRead::pair_loops))]
pub(crate) fn read_merged<'s, 'a>(mut inside: ParseBuf<'a>) -> Result<Merged<'a>, FaultOf<'s>>
    ensures value { Answers (is_any (length inside.entry)) result [] (spec.pairs.reads inside.entry) }
{
    let mut map = IndexMap::new(inside.alloc());
    while !inside.is_empty() {
        let pair = Attribute::read(&mut inside)?;
        map.insert(pair.key, pair.value)?;
    }
    Ok(Merged(map))
}

impl<'a> Merged<'a> {
    /// Converts to a list, with each key once.
    #[tactic(auto, using(crate::proofs::Merging::merges))]
    pub(crate) fn into_list(self, alloc: Global) -> Result<Vec<Attribute<'a>>, AllocError>
        ensures value { IfOk result (λ list. list.items ≡ self.entry) }
        ensures once { IfOk result (λ list. spec.merged list.items ≡ list.items) }
    {
        let mut list = Vec::with_capacity(alloc, self.0.len())?;
        for (key, value) in self.0 {
            list.push_reserved(Attribute::new(key, value));
        }
        Ok(list)
    }
}
