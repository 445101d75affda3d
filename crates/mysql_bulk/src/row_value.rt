//! The values of a row that is added, owned or borrowed.

ghost use Rattle.std.specs.Prelude.{◌≡◌, ◌+◌, ◌≤◌, ◌++◌, ◌∷◌, [], length, take, drop, IfSome, IfNone, OnSome, vec_len, vec_capacity};
ghost use Rattle.mysql_wire.specs.declared.codes.mariadb_bulk_indicator.MariadbBulkIndicator.TheVariants.{BULK_INDICATOR_NONE, BULK_INDICATOR_NULL};
ghost use Rattle.mysql_values.specs.ParamType.{type_of};
ghost use Rattle.mysql_values.specs.SentType.{is_uint};
ghost use Rattle.mysql_values.specs.Value.{bin_size, contents_of};
ghost use Rattle.mysql_values.specs.ValueRef.{ref_content};
ghost use Rattle.mysql_bulk.specs.ParamValue.{cell};
ghost use Rattle.mysql_bulk.specs.Row.{RefusesValue};

use mysql_values::{ParamType, Value, ValueRef};
use mysql_wire::{Buffer, Const, MariadbBulkIndicator, MySerialize, parts};
use std::alloc::Global;

/// The indicator of `NULL`, which no value follows.
#[inline(always)]
fn sent_null() -> Const<MariadbBulkIndicator, u8>
    ensures { result.0 ≡ BULK_INDICATOR_NULL }
{
    Const::new(MariadbBulkIndicator::BULK_INDICATOR_NULL)
}

/// The indicator before a value.
#[inline(always)]
fn sent_value() -> Const<MariadbBulkIndicator, u8>
    ensures { result.0 ≡ BULK_INDICATOR_NONE }
{
    Const::new(MariadbBulkIndicator::BULK_INDICATOR_NONE)
}

/// A value of a row that is added.
pub(crate) trait RowValue {
    ghost use Rattle.mysql_values.specs.Value.{Content};

    /// The content of the value.
    ghost content: { Self → Content };

    /// Returns the value with borrowed bytes.
    fn as_value_ref(&self) -> ValueRef<'_>
        ensures value { ref_content result ≡ content self.now };

    /// The length of the binary form in bytes.
    fn value_len(&self) -> u64
        ensures value { result ≡ bin_size (content self.now) };

    /// The type that the value is sent as.
    fn param_type(&self) -> ParamType
        ensures value { result ≡ type_of (content self.now) };

    /// Whether the value is an unsigned number.
    fn is_unsigned_number(&self) -> bool
        ensures value { result ≡ is_uint (content self.now) };

    /// Writes the value after its indicator, if there is capacity.
    fn append_cell<O: Buffer>(&self, out: &mut O)
        requires { length (O.held out.old) + length (cell (content self.now)) ≤ O.capacity out.old }
        ensures items { O.held out.new ≡ O.held out.old ++ cell (content self.now) }
        ensures after { O.after out.new ≡ drop (length (cell (content self.now))) (O.after out.old) }
        ensures capacity { O.capacity out.old ≤ O.capacity out.new }
        ensures kept { O.kept out.new ≡ O.kept out.old };

    /// Appends a copy to values that have capacity for it, and returns its length in a request: no more than `most`.
    ///
    /// The result is `None` if it is longer, or if the allocation of its bytes fails: then nothing is appended.
    /// Bytes are copied in one piece.
    fn push_copy(&self, alloc: Global, values: &mut Vec<Value>, most: u64) -> Option<u64>
        requires { vec_len values.old + 1 ≤ vec_capacity values.old }
        ensures size { IfSome result (λ n. (n ≡ 1 + bin_size (content self.now)) × (n ≤ most)) }
        ensures copy { OnSome result (contents_of values.new.items ≡ contents_of values.old.items ++ content self.now ∷ []) }
        ensures kept { OnSome result (take (vec_len values.old) values.new.items ≡ values.old.items) }
        ensures count { OnSome result (vec_len values.new ≡ vec_len values.old + 1) }
        ensures none { IfNone result (values.new.items ≡ values.old.items) }
        ensures refused { IfNone result (RefusesValue most (content self.now)) }
        ensures capacity { vec_capacity values.old ≤ vec_capacity values.new };
}

impl RowValue for Value {
    ghost use Rattle.mysql_values.specs.Value.{content_of};

    ghost content = { content_of };

    #[inline(always)]
    fn as_value_ref(&self) -> ValueRef<'_> {
        self.as_ref()
    }

    #[inline(always)]
    fn value_len(&self) -> u64 {
        self.bin_len()
    }

    #[inline(always)]
    fn param_type(&self) -> ParamType {
        ParamType::from_value(self)
    }

    #[inline(always)]
    fn is_unsigned_number(&self) -> bool {
        self.is_uint()
    }

    #[inline(always)]
    fn append_cell<O: Buffer>(&self, out: &mut O) {
        if let Value::NULL = self {
            sent_null().append(out);
            return;
        }
        parts!(sent_value(), *self).append(out);
    }

    // Each kind is pushed where it is known: a common value would be matched again.
    #[inline(always)]
    fn push_copy(&self, alloc: Global, values: &mut Vec<Value>, most: u64) -> Option<u64> {
        match self {
            Value::NULL if 1 <= most => {
                values.push_reserved(Value::NULL);
                Some(1)
            }
            Value::Int(n) if 9 <= most => {
                values.push_reserved(Value::Int(*n));
                Some(9)
            }
            Value::Bytes(bytes)
                if !bytes.is_empty() && bytes.len() < 251 && bytes.len() as u64 + 2 <= most => {
                let copy = Vec::from_slice(alloc, bytes.as_slice()).ok()?;
                values.push_reserved(Value::Bytes(copy));
                Some(bytes.len() as u64 + 2)
            }
            _ => push_any(alloc, values, &self.as_ref(), most),
        }
    }
}

/// Appends a copy of a value of any kind, if it has at most `most` bytes.
#[inline(never)]
fn push_any(alloc: Global, values: &mut Vec<Value>, value: &ValueRef<'_>, most: u64) -> Option<u64>
    requires { vec_len values.old + 1 ≤ vec_capacity values.old }
    ensures size { IfSome result (λ n. (n ≡ 1 + bin_size (ref_content value.now)) × (n ≤ most)) }
    ensures copy { OnSome result (contents_of values.new.items ≡ contents_of values.old.items ++ ref_content value.now ∷ []) }
    ensures kept { OnSome result (take (vec_len values.old) values.new.items ≡ values.old.items) }
    ensures count { OnSome result (vec_len values.new ≡ vec_len values.old + 1) }
    ensures none { IfNone result (values.new.items ≡ values.old.items) }
    ensures refused { IfNone result (RefusesValue most (ref_content value.now)) }
    ensures capacity { vec_capacity values.old ≤ vec_capacity values.new }
{
    let size = value.bin_len().checked_add(1)?;
    if most < size {
        return None;
    }
    values.push_reserved(value.to_owned(alloc).ok()?);
    Some(size)
}

impl RowValue for ValueRef<'_> {
    ghost use Rattle.mysql_values.specs.ValueRef.{ref_content};

    ghost content = { ref_content };

    #[inline(always)]
    fn as_value_ref(&self) -> ValueRef<'_> {
        *self
    }

    #[inline(always)]
    fn value_len(&self) -> u64 {
        self.bin_len()
    }

    #[inline(always)]
    fn param_type(&self) -> ParamType {
        ParamType::from_value_ref(self)
    }

    #[inline(always)]
    fn is_unsigned_number(&self) -> bool {
        self.is_uint()
    }

    #[inline(always)]
    fn append_cell<O: Buffer>(&self, out: &mut O) {
        if let ValueRef::NULL = self {
            sent_null().append(out);
            return;
        }
        parts!(sent_value(), *self).append(out);
    }

    // As for a value that owns its bytes.
    #[inline(always)]
    fn push_copy(&self, alloc: Global, values: &mut Vec<Value>, most: u64) -> Option<u64> {
        match self {
            ValueRef::NULL if 1 <= most => {
                values.push_reserved(Value::NULL);
                Some(1)
            }
            ValueRef::Int(n) if 9 <= most => {
                values.push_reserved(Value::Int(*n));
                Some(9)
            }
            ValueRef::Bytes(bytes)
                if !bytes.is_empty() && bytes.len() < 251 && bytes.len() as u64 + 2 <= most => {
                let copy = Vec::from_slice(alloc, bytes).ok()?;
                values.push_reserved(Value::Bytes(copy));
                Some(bytes.len() as u64 + 2)
            }
            _ => push_any(alloc, values, self, most),
        }
    }
}
