//! The lengths of requests in bytes.

ghost use Rattle.std.specs.Prelude.{◌≡◌, ◌+◌, ◌*◌, ◌^◌, ◌≤◌, IfSome, MatchOption, if◌then◌else◌};
ghost use Rattle.mysql_bulk.specs.Row.{MayBeRequest};

use mysql_cuts::BulkRule;

/// The length of a request with this number of values per row, whose rows have this many bytes, if it fits in a `u64`.
pub(crate) fn request_len(arity: usize, types: bool, rows: u64) -> Option<u64>
    ensures { MatchOption result (2 ^ 64 ≤ 7 + (if types then 2 * arity else 0) + rows) (λ n. n ≡ 7 + (if types then 2 * arity else 0) + rows) }
{
    let head = if types {
        u64::try_from(arity).ok()?.checked_mul(2)?.checked_add(7)?
    } else {
        7
    };
    head.checked_add(rows)
}

/// The length in bytes of a given number of rows with one more of a given length, if these fit in one request.
pub(crate) fn size_within(
    rule: BulkRule,
    limit: u64,
    arity: usize,
    types: bool,
    count: usize,
    size: u64,
    row: u64,
) -> Option<u64>
    ensures size { IfSome result (λ n. n ≡ size + row) }
    ensures fits { MatchOption result (MayBeRequest rule limit arity types (count + 1) (size + row) → ⊥) (λ n. MayBeRequest rule limit arity types (count + 1) (size + row)) }
{
    if rule.max_rows.is_some_and(|most| most <= count) {
        return None;
    }
    let rows = size.checked_add(row)?;
    if request_len(arity, types, rows)? <= limit {
        Some(rows)
    } else {
        None
    }
}
