//! Lists whose items are written in a form that their values don't determine.

ghost use Rattle.std.specs.List.{flat_map};
ghost use Rattle.std.specs.Prelude.{◌≡◌, ◌+◌, ◌++◌, ◌≤◌, length, drop, List, ℕ};
ghost use Rattle.mysql_wire.specs.Writing.{saturated};

use mysql_wire::{Buffer, MySerialize};

/// A value whose length was computed before it is written.
#[derive(Drop)]
struct Counted<'a, P: MySerialize> {
    value: &'a P,
    len: usize,
    ghost exact: { len ≡ length (P.bytes value.now) },
}

impl<P: MySerialize> MySerialize for Counted<'_, P> {
    ghost bytes = { λ counted. P.bytes counted.value.now };

    #[inline(always)]
    #[tactic(auto, unfolding(mysql_wire::specs::Writing::saturated))]
    fn defined_len(&self) -> usize {
        self.len
    }

    #[inline(always)]
    fn append<O: Buffer>(&self, out: &mut O) {
        self.value.append(out);
    }
}

/// Writes a value over a slice of its length.
pub(crate) fn put_over<P: MySerialize>(value: &P, out: &mut [u8])
    requires { length out.old ≡ length (P.bytes value.now) }
    ensures { out.new ≡ P.bytes value.now }
{
    let counted = Counted {
        value,
        len: out.len(),
    };
    let _len = counted.write_to_slice(out).unwrap();
}

/// The form in which the items of a list are written.
pub trait ItemForm<T> {
    ghost item_bytes: { Self → T → List ℕ };

    /// The length of an item in bytes, or `usize::MAX` if it is greater.
    fn item_len(&self, item: &T) -> usize
        ensures value { result ≡ saturated (length (item_bytes self.now item.now)) };

    /// Writes an item to the end of a buffer that has capacity for it.
    fn append_item<O: Buffer>(&self, item: &T, out: &mut O)
        requires { length (O.held out.old) + length (item_bytes self.now item.now) ≤ O.capacity out.old }
        ensures items { O.held out.new ≡ O.held out.old ++ item_bytes self.now item.now }
        ensures after { O.after out.new ≡ drop (length (item_bytes self.now item.now)) (O.after out.old) }
        ensures capacity { O.capacity out.old ≤ O.capacity out.new }
        ensures kept { O.kept out.new ≡ O.kept out.old };
}

/// Writes items in this form, for which there is capacity.
// A local buffer: writes to its bytes can't alias the buffer itself, so each number is one store.
#[tactic(auto, using(mysql_wire::proofs::After::after))]
fn append_all<T, F: ItemForm<T>, O: Buffer>(items: &[T], form: &F, out: &mut O)
    requires { length (O.held out.old) + length (flat_map (F.item_bytes form.now) items.now) ≤ O.capacity out.old }
    ensures items { O.held out.new ≡ O.held out.old ++ flat_map (F.item_bytes form.now) items.now }
    ensures after { O.after out.new ≡ drop (length (flat_map (F.item_bytes form.now) items.now)) (O.after out.old) }
    ensures capacity { O.capacity out.old ≤ O.capacity out.new }
    ensures kept { O.kept out.new ≡ O.kept out.old }
{
    let mut bytes = out.taken();
    for item in items {
        form.append_item(item, &mut bytes);
    }
    *out = bytes;
}

/// The items of a list, one after another, each in this form.
#[derive(Drop)]
pub struct Items<'a, T, F> {
    /// The list.
    pub items: &'a [T],
    /// The form.
    pub form: F,
}

impl<T, F: ItemForm<T>> MySerialize for Items<'_, T, F> {
    ghost use Rattle.std.specs.List.{flat_map};

    ghost bytes = { λ l. flat_map (F.item_bytes l.form) l.items.now };

    #[inline(always)]
    #[tactic(auto, unfolding(mysql_wire::specs::Writing::saturated))]
    fn defined_len(&self) -> usize {
        let mut total: usize = 0;
        for item in self.items {
            total = total.saturating_add(self.form.item_len(item));
        }
        total
    }

    #[inline(always)]
    #[tactic(auto, using(mysql_wire::proofs::After::after))]
    fn append<O: Buffer>(&self, out: &mut O) {
        // (where the list is known to be empty, this is no call)
        if !self.items.is_empty() {
            append_all(self.items, &self.form, out);
        }
    }
}
