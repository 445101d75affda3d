//! A list that is visited from its front: its address is incremented, while an index would be multiplied for each item.

ghost use Rattle.std.specs.Prelude.{◌≡◌, [], ◌∷◌, MatchOption};

/// The items of a list that are left.
#[derive(Drop)]
pub(crate) struct Left<'r, T> {
    pub(crate) items: &'r [T],
}

impl<'r, T> Left<'r, T> {
    /// Removes the first item, and returns it.
    #[inline(always)]
    pub(crate) fn next(&mut self) -> Option<&'r T>
        ensures { MatchOption result ((self.old.items.now ≡ []) × (self.new.items.now ≡ [])) (λ first. self.old.items.now ≡ first.now ∷ self.new.items.now) }
    {
        let Some((first, rest)) = self.items.split_first() else {
            return None;
        };
        self.items = rest;
        Some(first)
    }
}
