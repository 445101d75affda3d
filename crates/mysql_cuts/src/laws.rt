//! Laws over cuts of rows of any kind, each a function that does nothing.

ghost use Rattle.std.specs.Prelude.{◌≡◌, ◌↔◌, ℕ, List, length, map, take, true};
ghost use Rattle.mysql_cuts.specs.Cut.{Packing, HasFittingCut, IsFittingCut, IsFewest, IsFullFromFront, RowsFitAlone, ends_after};
ghost use Rattle.mysql_cuts.specs.Fewest.{weighed, NamesFewest};

pub use crate::rule::plain_rule_sends_types_once;

/// A fitting cut exists exactly if each row fits in a request of its own: the first row in one with types, a
/// later row in one with or without types, as the rule says.
pub fn fitting_cut_exists_where_each_row_fits_alone<Row>()
    ensures { (k : Packing Row) (rows : List Row) → HasFittingCut k rows ↔ RowsFitAlone k true rows }
{}

/// If rows have a fitting cut, so has each prefix of them.
pub fn beginning_has_fitting_cut<Row>()
    ensures { (k : Packing Row) (rows : List Row) (n : ℕ) → HasFittingCut k rows → HasFittingCut k (take n rows) }
{}

/// The ends of a fewest cut of rows are those of a fewest cut of their weights, so a check needs only the weights.
pub fn fewest_cut_is_fewest_by_weights<Row>()
    ensures { (k : Packing Row) (rows : List Row) (cut : List (List Row)) → IsFewest k rows cut → NamesFewest (weighed k) (map k.weight rows) (ends_after 0 cut) }
{}

/// A fitting cut that is full from the front is a fewest cut.
pub fn full_cut_is_fewest<Row>()
    ensures { (k : Packing Row) (rows : List Row) (cut : List (List Row)) → IsFittingCut k rows cut → IsFullFromFront k rows cut → IsFewest k rows cut }
{}

/// Two fewest cuts of the same rows have the same number of requests.
pub fn fewest_cuts_have_one_length<Row>()
    ensures { (k : Packing Row) (rows : List Row) (one other : List (List Row)) → IsFewest k rows one → IsFewest k rows other → length one ≡ length other }
{}
