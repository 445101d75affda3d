//! Checks whether a cut of rows into bulk requests is a fewest one.

ghost use Rattle.std.specs.Prelude.{◌≡◌, ◌≤◌, ◌↔◌};
ghost use Rattle.mysql_cuts.specs.Fewest.{NamesFewest, weights};
ghost use Rattle.mysql_packets_c.specs.BulkCut.{rule_of};

use crate::code::OK;
use mysql_cuts::{BulkRule, cut_is_fewest};

/// `myp_bulk_rule` of the C header.
#[repr(C)]
#[derive(Drop)]
pub struct CBulkRule {
    pub max_rows: usize,
    pub has_max_rows: u8,
    pub types_always: u8,
}

fn rule_of(rule: &CBulkRule) -> BulkRule
    ensures { result ≡ rule_of rule.now }
{
    BulkRule {
        types_always: rule.types_always != 0,
        max_rows: if rule.has_max_rows != 0 {
            Some(rule.max_rows)
        } else {
            None
        },
    }
}

/// Checks whether the ends describe a cut of the rows into requests that fit, and no cut has fewer requests.
/// Always returns 0.
#[unsafe(no_mangle)]
pub extern "C" fn myp_bulk_cut_is_fewest(
    rule: &CBulkRule,
    limit: u64,
    columns: usize,
    sizes: &[u64],
    ends: &[usize],
    yes: &mut u8,
) -> u32
    ensures code { result ≡ 0 }
    ensures byte { yes.new ≤ 1 }
    ensures exact { (yes.new ≡ 1) ↔ NamesFewest (weights (rule_of rule.now) limit columns) sizes.now ends.now }
{
    *yes = cut_is_fewest(rule_of(rule), limit, columns, sizes, ends) as u8;
    OK
}
