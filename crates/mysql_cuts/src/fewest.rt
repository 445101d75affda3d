//! Checks whether a cut of rows into requests is a fewest one, from the rows' weights.

ghost use Rattle.std.specs.Prelude.{◌≡◌, ℕ, ◌+◌, ◌<◌, ◌≤◌, ◌↔◌, [], length, IsTrue, IfSome, MatchOption, List};
ghost use Rattle.mysql_cuts.specs.Cut.{PartFits, WithinRows, HasFittingCut, IsFewest};
ghost use Rattle.mysql_cuts.specs.Fewest.{weights, NamesFitting, NamesFewest, CapacityIs};

use crate::rule::BulkRule;

/// The number of bytes of a request that are left for its rows.
fn capacity_for_rows(rule: BulkRule, limit: u64, arity: usize, types: bool) -> Option<u64>
    ensures { CapacityIs (weights rule limit arity) types [] result }
{
    let head = limit.checked_sub(7)?;
    if types {
        head.checked_sub(u64::try_from(arity).ok()?.checked_mul(2)?)
    } else {
        Some(head)
    }
}

/// Whether these rows fit in one request.
fn part_fits(rule: BulkRule, limit: u64, arity: usize, types: bool, part: &[u64]) -> bool
    ensures { IsTrue result ↔ PartFits (weights rule limit arity) types part.now }
{
    if let Some(most) = rule.max_rows {
        if most < part.len() {
            return false;
        }
    }
    let Some(mut capacity) = capacity_for_rows(rule, limit, arity, types) else {
        return false;
    };
    for size in part {
        match capacity.checked_sub(*size) {
            Some(left) => capacity = left,
            None => return false,
        }
    }
    true
}

/// Whether the ends name a fitting cut.
fn names_fitting(rule: BulkRule, limit: u64, arity: usize, sizes: &[u64], ends: &[usize]) -> bool
    ensures { IsTrue result ↔ NamesFitting (weights rule limit arity) sizes.now ends.now }
{
    let mut start = 0;
    let mut types = true;
    for end in ends {
        if *end <= start || sizes.len() < *end {
            return false;
        }
        if !part_fits(rule, limit, arity, types, &sizes[start..*end]) {
            return false;
        }
        start = *end;
        types = rule.types_always;
    }
    start == sizes.len()
}

/// Returns the remaining capacity of a request of `rows` rows after one more row, or `None` if that row doesn't fit.
fn capacity_after(rule: BulkRule, capacity: Option<u64>, rows: usize, size: u64) -> Option<u64>
    ensures { MatchOption result (WithinRows rule.max_rows (rows + 1) → IfSome capacity (λ had. had < size)) (λ left. WithinRows rule.max_rows (rows + 1) × (capacity ≡ Some (left + size))) }
{
    if rule.max_rows.is_some_and(|most| most <= rows) {
        return None;
    }
    capacity?.checked_sub(size)
}

/// The least number of requests for the rows, if any cut of them fits.
fn fewest_parts(rule: BulkRule, limit: u64, arity: usize, sizes: &[u64]) -> Option<usize>
    ensures { MatchOption result (HasFittingCut (weights rule limit arity) sizes.now → ⊥) (λ n. (parts : List (List ℕ)) × IsFewest (weights rule limit arity) sizes.now parts × (length parts ≡ n)) }
{
    let later = capacity_for_rows(rule, limit, arity, rule.types_always);
    let mut capacity = capacity_for_rows(rule, limit, arity, true);
    let mut rows = 0;
    let mut closed = 0;
    for size in sizes {
        capacity = match capacity_after(rule, capacity, rows, *size) {
            Some(left) => Some(left),
            None => {
                if rows == 0 {
                    return None;
                }
                rows = 0;
                closed += 1;
                Some(capacity_after(rule, later, 0, *size)?)
            }
        };
        rows += 1;
    }
    if rows == 0 {
        Some(closed)
    } else {
        Some(closed + 1)
    }
}

/// Whether `ends` names a fitting cut of the rows, and no fitting cut has fewer requests.
///
/// `limit` is the maximum length of a request in bytes, `arity` the number of values of a row, and `sizes`
/// holds the bytes of each row: one for each value, and the value's own. `ends` describes the cut by the number
/// of rows up to the end of each request, so `[2, 5]` is two requests of two and three rows. Any numbers are
/// valid: a sum above `u64::MAX` exceeds every limit, and ends that describe no cut return false. It takes no
/// memory.
pub fn cut_is_fewest(
    rule: BulkRule,
    limit: u64,
    arity: usize,
    sizes: &[u64],
    ends: &[usize],
) -> bool
    ensures exact { IsTrue result ↔ NamesFewest (weights rule limit arity) sizes.now ends.now }
{
    match fewest_parts(rule, limit, arity, sizes) {
        Some(least) => ends.len() == least && names_fitting(rule, limit, arity, sizes, ends),
        None => false,
    }
}
