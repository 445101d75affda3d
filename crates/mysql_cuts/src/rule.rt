//! Which requests send types, and the maximum number of rows of a request.

ghost use Rattle.std.specs.Prelude.{◌≡◌, None, false};

/// When types are sent, and the maximum number of rows of a request.
#[derive(Clone, Copy, Debug, PartialEq, Eq)]
pub struct BulkRule {
    /// Whether types are sent in every request, or only in the first.
    pub types_always: bool,
    /// The maximum number of rows of a request. Under `Some(0)` no row fits, so only an empty list of rows has
    /// a fitting cut.
    pub max_rows: Option<usize>,
}

impl BulkRule {
    /// Types only in the first request, and any number of rows.
    pub const PLAIN: BulkRule = BulkRule {
        types_always: false,
        max_rows: None,
    };
}

/// [`BulkRule::PLAIN`] sends types only in the first request, and allows any number of rows.
pub fn plain_rule_sends_types_once()
    ensures types_once { BulkRule.PLAIN.types_always ≡ false }
    ensures any_rows { BulkRule.PLAIN.max_rows ≡ None }
{}
